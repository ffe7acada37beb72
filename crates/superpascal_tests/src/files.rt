//! Code files and journals with libraries, sources and sinks that fail, and damaged code files.

use crate::calls::{Failing, Given, NONE, call_along, copy, expect_given, source, source_of};
use std::alloc::Global;
use std::process::Abort;
use std::sync::Wait;
use std::thread::Threads;

// The code file of a program that writes 42.
const ANSWER_CODE: &str =
    "superpascal code 1\nlayout 0 0 - none sizes 1 variables 2 formals\n0 addr 0 2\n1 const 6\n2 store\n3 addr 0 2\n4 load\n5 const 7\n6 mul\n7 write int\n8 end\n";

// The call with these words, of which `j` is this file.
fn call_on<R: Threads + Wait + Sync>(
    rt: &R,
    alloc: Global,
    words: &[&str],
    text: &str,
    file: &[u8],
    failing: Failing,
) -> Given {
    let mut input = source(alloc, Vec::new(alloc));
    let given = call_along(rt, alloc, words, text, file, &mut input, failing);
    drop(input);
    given
}

// Asserts that the run of a code file whose sinks fail so ends with status 6, with a first part of what was to be
// written.
fn expect_fault<R: Threads + Wait + Sync + Abort>(
    rt: &R,
    alloc: Global,
    failing: Failing,
    output: &str,
    notes: &str,
) {
    let words = ["exec", "j", "--ticks", "100000", "--workers", "2"];
    let given = call_on(rt, alloc, &words, "", ANSWER_CODE.as_bytes(), failing);
    assert!(rt; given.executed);
    expect_given(rt, given, 6, false, output, notes, "");
}

#[test]
fn sinks_that_fail(rt: HostRuntime) {
    let alloc = rt.alloc();
    for (at, written) in [(0u32, ""), (1, "4")] {
        let failing = Failing {
            output: &[at],
            ..NONE
        };
        expect_fault(&rt, alloc, failing, written, "");
    }
    for (at, written) in [(0u32, ""), (1, "d"), (2, "do"), (3, "don"), (4, "done")] {
        let failing = Failing {
            notes: &[at],
            ..NONE
        };
        expect_fault(&rt, alloc, failing, "42", written);
    }
}

// Code files that are not run.
const REJECTED: [&str; 10] = [
    "superpascal code 1\nlayout 0 0 - none sizes 1 variables 2 formals\n0 addr 0 3\n1 const 6\n2 store\n3 addr 0 2\n4 load\n5 const 7\n6 mul\n7 write int\n8 end\n",
    "superpascal code 1\nlayout 0 0 - none sizes 1 variables 2 formals\n0 addr 0 2\n1 neg\n2 store\n3 addr 0 2\n4 load\n5 const 7\n6 mul\n7 write int\n8 end\n",
    "superpascal code 1\nlayout 0 0 - none sizes 1 1 variables 2 3 formals\n0 fork 0\n1 jump 10\n2 addr 0 2\n3 const 1\n4 store\n5 end\n6 addr 0 3\n7 const 2\n8 store\n9 end\n10 end\ntable 0 child 0 entry 2 moves shares 2\ntable 0 child 1 entry 6 moves 3 shares\n",
    "superpascal code 1\nlayout 0 0 - none sizes 1 1 variables 2 3 formals\nlayout 1 4 0 none sizes 1 1 variables 4 5 formals reference 1 reference 1\n0 addr 0 2\n1 addr 0 2\n2 call 1 0\n3 end\n4 deref 0 0\n5 const 1\n6 store\n7 deref 0 1\n8 const 2\n9 store\n10 return\n",
    "superpascal code 1\nlayout 0 0 - none sizes 1 variables 2 formals\nlayout 1 5 0 none sizes variables formals\nlayout 2 10 0 answer sizes 1 variables 3 formals\n0 call 1 0\n1 addr 0 2\n2 call 2 0\n3 store\n4 end\n5 fork 0\n6 jump 9\n7 end\n8 end\n9 return\n10 call 1 1\n11 addr 0 0\n12 const 1\n13 store\n14 return\ntable 0 child 0 entry 7 moves shares\ntable 0 child 1 entry 8 moves shares\n",
    "layout 0 0 - none sizes 1 variables 2 formals\n0 addr 0 2\n1 const 6\n2 store\n3 addr 0 2\n4 load\n5 const 7\n6 mul\n7 write int\n8 end\n",
    "superpascal code 1\nlayout 0 0 - none sizes 1 variables 2 formals\n0 jump 0\n1 end\n",
    "",
    "superpascal code 1\nlayout 0 0 - none sizes 1 variables 2 formals\n1 end\n",
    "superpascal code 1\n",
];

// The status of the call on this code file with a source that fails.
fn status_without_input<R: Threads + Wait + Sync>(rt: &R, alloc: Global, code: &str) -> u8 {
    let mut input = source_of(alloc, Vec::new(alloc), 1, &[0]);
    let words = ["exec", "j"];
    let given = call_along(rt, alloc, &words, "", code.as_bytes(), &mut input, NONE);
    drop(input);
    let status = given.status;
    drop(given);
    status
}

// The input is read of a file alone that is run.
#[test]
fn inputs_of_code_files(rt: HostRuntime) {
    assert_eq!(rt; status_without_input(&rt, rt.alloc(), ANSWER_CODE), 5);
    for code in REJECTED {
        assert_eq!(rt; status_without_input(&rt, rt.alloc(), code), 10, "{code}");
    }
}

// The code file of the answer with another byte in place of the one of this number.
fn damaged(alloc: Global, at: usize, byte: u8) -> Vec<u8> {
    let mut code = copy(alloc, ANSWER_CODE.as_bytes());
    if at < code.len() {
        code[at] = byte;
    }
    code
}

// A damaged file is rejected, or its run ends.
#[test]
fn damaged_code_files(rt: HostRuntime) {
    let words = ["exec", "j", "--ticks", "100000", "--workers", "1"];
    for at in 0..ANSWER_CODE.len() {
        for byte in [b'0', b'1', b' ', b'x', b'\n'] {
            let code = damaged(rt.alloc(), at, byte);
            let given = call_on(&rt, rt.alloc(), &words, "", &code, NONE);
            assert!(rt; [0, 3, 4, 10].contains(&given.status), "{at}");
            drop(given);
        }
    }
}

const RACE: &str =
    "program r; type ch = *(integer); var c: ch; x, y: integer; begin open(c); parallel begin receive(c, x); receive(c, y) end | send(c, 1) | send(c, 2) end; write(x, y) end.";

// The library fails at the text, and at the journal; then the notes fail.
const FAILING: [(Failing, u8, &str); 3] = [
    (
        Failing {
            library: &[0],
            ..NONE
        },
        5,
        "read fault\n",
    ),
    (
        Failing {
            library: &[1],
            ..NONE
        },
        5,
        "read fault\n",
    ),
    (
        Failing {
            notes: &[0],
            ..NONE
        },
        6,
        "",
    ),
];

#[test]
fn journals_on_streams_that_fail(rt: HostRuntime) {
    let words = ["replay", "a.sp", "j"];
    for (failing, status, notes) in FAILING {
        let given = call_on(&rt, rt.alloc(), &words, RACE, b"", failing);
        expect_given(&rt, given, status, false, "", notes, "");
    }
}
