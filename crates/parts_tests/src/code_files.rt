//! Code files worked by hand: what is read is written again, and which line is bad.

ghost use Rattle.std.specs.Prelude.{◌≤◌, length};

use sp_base::Memory;
use sp_codefile::{DecodeError, decode, encode};
use std::alloc::Global;
use std::test::Fail;

/// The code of a small program that writes 42.
const SMALL: &str =
    "superpascal code 1\nlayout 0 0 - none sizes 1 variables 2 formals\n0 addr 0 2\n1 const 6\n2 store\n3 addr 0 2\n4 load\n5 const 7\n6 mul\n7 write int\n8 end\n";

/// A file with each kind of line.
const LARGE: &str =
    "superpascal code 1\nlayout 0 0 - none sizes 1 2 variables 2 3 formals\nlayout 1 7 0 answer sizes 1 1 4294967295 variables 4 5 6 formals value 1 reference 3\ntext \ntext 6f6bff00\n0 const -9223372036854775808\n1 const 9223372036854775807\n2 index -5 7 1\n3 write text 1\n4 writew text 0\n5 casej -1 9\n6 fork 0\n7 range 0 9\n8 nocase\n9 read char\n10 call 1 0\n11 end\ntable 0 child 0 entry 7 moves 2 shares 3 4\ntable 0 child 1 entry 8 moves shares\ntable 1 child 0 entry 9 moves shares 3 index 8\n";

/// A code file read, and its code written again.
fn again(alloc: Global, text: &[u8]) -> Result<Vec<u8>, DecodeError> {
    let code = decode(alloc, text)?;
    match encode(alloc, &code) {
        Ok(text) => Ok(text),
        Err(_) => Err(DecodeError::Memory),
    }
}

/// The line of a file that is bad, or 0 where none is.
fn bad_line(alloc: Global, text: &[u8]) -> u64 {
    match decode(alloc, text) {
        Ok(_) => 0,
        Err(DecodeError::BadLine(line)) => line,
        Err(DecodeError::Memory) => 0,
    }
}

/// Where a line begins, counted from 0; the end of the text where it has no such line.
fn start(text: &[u8], line: u64) -> usize
    ensures { result ≤ length text.now }
{
    let mut seen = 0u64;
    for (at, byte) in text.iter().enumerate() {
        if seen == line {
            return at;
        }
        if *byte == b'\n' {
            seen = seen.saturating_add(1);
        }
    }
    text.len()
}

fn joined(alloc: Global, one: &[u8], two: &[u8]) -> Result<Vec<u8>, Memory> {
    let mut all = Vec::from_slice(alloc, one)?;
    all.extend_from_slice(two)?;
    Ok(all)
}

/// The text without the line from `from` to `to`.
fn without(alloc: Global, text: &[u8], line: u64) -> Result<Vec<u8>, Memory> {
    let from = start(text, line);
    let to = start(text, line.saturating_add(1));
    joined(alloc, &text[..from], &text[to..])
}

/// The text with this line twice.
fn doubled(alloc: Global, text: &[u8], line: u64) -> Result<Vec<u8>, Memory> {
    let from = start(text, line);
    let to = start(text, line.saturating_add(1));
    joined(alloc, &text[..to], &text[from..])
}

/// The text up to the middle of this line.
fn half(text: &[u8], line: u64) -> &[u8] {
    let from = start(text, line);
    let to = start(text, line.saturating_add(1));
    &text[..from / 2 + to / 2]
}

// For each line, the bad line of the file without it, and of the file that has it twice.
const LINES: [(u64, u64); 20] = [
    (1, 2),
    (0, 0),
    (0, 0),
    (0, 0),
    (0, 0),
    (6, 7),
    (7, 8),
    (8, 9),
    (9, 10),
    (10, 11),
    (11, 12),
    (12, 13),
    (13, 14),
    (14, 15),
    (15, 16),
    (16, 17),
    (0, 18),
    (18, 19),
    (0, 20),
    (0, 21),
];

#[test]
fn lines_left_out_doubled_and_cut(rt: HostRuntime) -> Result<(), Fail> {
    let text = LARGE.as_bytes();
    let mut line = 0u64;
    for (left_out, twice) in LINES {
        let one = without(rt.alloc(), text, line)?;
        assert_eq!(rt; bad_line(rt.alloc(), &one), left_out, "without {line}");
        let two = doubled(rt.alloc(), text, line)?;
        assert_eq!(rt; bad_line(rt.alloc(), &two), twice, "twice {line}");
        let cut = half(text, line);
        line = line.saturating_add(1);
        assert_eq!(rt; bad_line(rt.alloc(), cut), line, "cut");
    }
    Ok(())
}

#[test]
fn each_byte_changed(rt: HostRuntime) -> Result<(), Fail> {
    let text = LARGE.as_bytes();
    let mut line = 1u64;
    for (at, byte) in text.iter().enumerate() {
        let other = joined(rt.alloc(), &text[..at], b"!")?;
        let other = joined(rt.alloc(), &other, &text[at + 1..])?;
        assert_eq!(rt; bad_line(rt.alloc(), &other), line, "at {at}");
        if *byte == b'\n' {
            line = line.saturating_add(1);
        }
    }
    Ok(())
}

#[test]
fn what_is_read_is_written_again(rt: HostRuntime) -> Result<(), Fail> {
    let head = "superpascal code 1\n";
    for text in [SMALL, LARGE, head] {
        assert_eq!(rt;
            again(rt.alloc(), text.as_bytes())?.as_slice(),
            text.as_bytes()
        );
    }
    Ok(())
}

// Files, and the line of each that is bad.
const BAD_LINES: [(&str, u64); 29] = [
    ("", 1),
    ("superpascal code 1", 1),
    ("superpascal code 2\n", 1),
    ("superpascal code 1\n\n", 2),
    (
        "layout 0 0 - none sizes 1 variables 2 formals\n0 addr 0 2\n1 const 6\n2 store\n3 addr 0 2\n4 load\n5 const 7\n6 mul\n7 write int\n8 end\n",
        1,
    ),
    ("superpascal code 1\n0 end", 2),
    ("superpascal code 1\n1 end\n", 2),
    ("superpascal code 1\n0 end\n0 end\n", 3),
    ("superpascal code 1\n0 end \n", 2),
    ("superpascal code 1\n0 const 007\n", 2),
    ("superpascal code 1\n0 const -0\n", 2),
    ("superpascal code 1\n0 const +1\n", 2),
    ("superpascal code 1\n0 const 9223372036854775808\n", 2),
    ("superpascal code 1\n0 jump 4294967296\n", 2),
    ("superpascal code 1\n0 jump -1\n", 2),
    ("superpascal code 1\n00 end\n", 2),
    ("superpascal code 1\ntext 6F\n", 2),
    ("superpascal code 1\ntext 6\n", 2),
    ("superpascal code 1\ntext\n", 2),
    ("superpascal code 1\n0 end\ntext 6f\n", 3),
    (
        "superpascal code 1\ntext 6f\nlayout 0 0 - none sizes variables formals\n",
        3,
    ),
    (
        "superpascal code 1\nlayout 0 0 - maybe sizes variables formals\n",
        2,
    ),
    (
        "superpascal code 1\nlayout 0 0 - none formals sizes variables\n",
        2,
    ),
    (
        "superpascal code 1\ntable 0 child 1 entry 7 moves shares\n",
        2,
    ),
    (
        "superpascal code 1\ntable 1 child 0 entry 7 moves shares\n",
        2,
    ),
    (
        "superpascal code 1\ntable 0 child 0 entry 7 moves shares \n",
        2,
    ),
    (
        "superpascal code 1\ntable 0 child 0 entry 7 moves shares index\n",
        2,
    ),
    (
        "superpascal code 1\ntable 0 child 0 entry 7 moves shares\n0 end\n",
        3,
    ),
    (
        "superpascal code 1\ntable 0 child 0 entry 7 moves shares\ntable 2 child 0 entry 7 moves shares\n",
        3,
    ),
];

#[test]
fn bad_lines(rt: HostRuntime) -> Result<(), Fail> {
    for (text, line) in BAD_LINES {
        assert_eq!(rt; bad_line(rt.alloc(), text.as_bytes()), line, "at {text}");
    }
    Ok(())
}
