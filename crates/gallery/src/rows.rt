//! The calls of a file of rows.

use crate::call::{AS_EXPECTED, Expected, NO_MEMORY, call};
use crate::row::{Row, bytes_of};
use sp_base::Writer;
use std::alloc::Global;
use std::sync::Wait;
use std::thread::Threads;
use std::{fs, io};

/// Makes the calls of each row, and writes how many are as expected, and a line for each other one.
pub fn make_rows<R: Threads + Wait + Sync>(
    rt: &HostRuntime,
    threads: &R,
    name: &str,
) -> io::Result<()> {
    let rows = fs::read_to_string(rt, name)?;
    let mut row = Row::new(rt.alloc());
    let mut written = Writer::new(rt.alloc());
    let mut good = 0u32;
    for line in rows.lines() {
        let (word, rest) = line.split_once(' ').unwrap_or((line, ""));
        if word == "keep" {
            row.keep(written.items.as_slice());
        } else if word == "notes" {
            for words in row.calls.split(';') {
                let found = make_call(rt.alloc(), threads, &row, words, rest, &mut written);
                if found == AS_EXPECTED {
                    good = good.saturating_add(1);
                } else {
                    println!(rt; "{name}:{words}: {found}, where the notes are {rest}")?;
                }
            }
        } else {
            row.set(word, rest);
        }
    }
    println!(rt; "{name}: {good} calls as expected")?;
    Ok(())
}

// Makes a call of a row, keeps its output, and says what is not as expected.
fn make_call<R: Threads + Wait + Sync>(
    alloc: Global,
    threads: &R,
    row: &Row,
    words: &str,
    notes: &str,
    written: &mut Writer<u8>,
) -> &'static str {
    let Ok(mut library) = row.library() else {
        return NO_MEMORY;
    };
    let Ok(input) = row.input() else {
        return NO_MEMORY;
    };
    let Ok(given) = call(alloc, threads, words, "", &mut library, input) else {
        return NO_MEMORY;
    };
    written.items.clear();
    written.extend(given.output.bytes());
    let output = bytes_of(alloc, row.output.as_str());
    let notes = bytes_of(alloc, notes);
    if written.is_lost || output.is_lost || notes.is_lost {
        return NO_MEMORY;
    }
    let expected = Expected {
        status: row.status.as_str(),
        output: output.items.as_slice(),
        is_any: row.output.as_str() == "*",
        notes: notes.items.as_slice(),
    };
    given.beside(words, &expected)
}
