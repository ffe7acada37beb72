//! Libraries, sources and sinks that fail, and what is left of the input.

ghost use Rattle.std.specs.Prelude.{◌≤◌};

use crate::calls::{
    ANSWER, Failing, NONE, ORDERED, RUN, call, call_failing, copy, expect_given, source, source_of,
};
use sp_outside::{MemorySource, OpenGate, Source};
use std::alloc::Global;
use std::process::Abort;
use std::sync::Wait;
use std::thread::Threads;

// Asserts that a run of the answer over this source ends with this status, before it writes an output.
fn expect_end<R: Threads + Wait + Sync + Abort>(
    rt: &R,
    alloc: Global,
    mut input: MemorySource,
    failing: Failing,
    status: u8,
    notes: &str,
) {
    let given = call(rt, alloc, &RUN, ANSWER, &mut input, failing, &OpenGate);
    drop(input);
    expect_given(rt, given, status, false, "", notes, "");
}

const NO_LIBRARY: Failing<'static> = Failing {
    library: &[0],
    ..NONE
};

const NO_NOTES: Failing<'static> = Failing {
    notes: &[0],
    ..NONE
};

#[test]
fn a_library_that_fails(rt: HostRuntime) {
    let input = source(rt.alloc(), Vec::new(rt.alloc()));
    expect_end(&rt, rt.alloc(), input, NO_LIBRARY, 5, "read fault\n");
}

// Asserts that a source of which this call fails ends the run.
fn expect_source_fault<R: Threads + Wait + Sync + Abort>(
    rt: &R,
    alloc: Global,
    bytes: &[u8],
    most: usize,
    call: u32,
)
    requires { 1 ≤ most }
{
    let input = source_of(alloc, copy(alloc, bytes), most, &[call]);
    expect_end(rt, alloc, input, NONE, 5, "read fault\n");
}

#[test]
fn sources_that_fail(rt: HostRuntime) {
    let alloc = rt.alloc();
    for k in 0..4u32 {
        expect_source_fault(&rt, alloc, b"abc", 1, k);
    }
    // at its end
    expect_source_fault(&rt, alloc, b"12 34", 4096, 1);
}

#[test]
fn a_source_and_notes_that_fail(rt: HostRuntime) {
    let input = source_of(rt.alloc(), Vec::new(rt.alloc()), 4096, &[0]);
    expect_end(&rt, rt.alloc(), input, NO_NOTES, 6, "");
}

// Asserts that a call on the answer without input ends with a write fault.
fn expect_write_fault<R: Threads + Wait + Sync + Abort>(
    rt: &R,
    alloc: Global,
    words: &[&str],
    failing: Failing,
    ran: bool,
    output: &str,
    notes: &str,
) {
    let given = call_failing(rt, alloc, words, ANSWER, failing);
    expect_given(rt, given, 6, ran, output, notes, "");
}

const NO_RUNS: [&[&str]; 3] = [&["check", "a.sp"], &["run", "absent"], &["run"]];

#[test]
fn notes_of_no_run_that_fail(rt: HostRuntime) {
    for words in &NO_RUNS {
        expect_write_fault(&rt, rt.alloc(), words, NO_NOTES, false, "", "");
    }
}

#[test]
fn an_output_that_fails(rt: HostRuntime) {
    for (k, output) in [(0u32, ""), (1, "4")] {
        let failing = Failing {
            output: &[k],
            ..NONE
        };
        expect_write_fault(&rt, rt.alloc(), &RUN, failing, true, output, "");
    }
}

#[test]
fn notes_that_fail(rt: HostRuntime) {
    let mut written = String::new(rt.alloc());
    let mut at = 0u32;
    for character in ORDERED.chars() {
        let failing = Failing {
            notes: &[at],
            ..NONE
        };
        expect_write_fault(&rt, rt.alloc(), &RUN, failing, true, "42", &written);
        let _ = written.push(character);
        at = at.saturating_add(1);
    }
    assert_eq!(rt; at, 13);
}

// How many bytes of four a call leaves in its source.
fn left_after<R: Threads + Wait + Sync>(
    rt: &R,
    alloc: Global,
    words: &[&str],
    text: &str,
) -> Option<usize> {
    let mut input = source(alloc, copy(alloc, b"12 x"));
    let given = call(rt, alloc, words, text, &mut input, NONE, &OpenGate);
    drop(given);
    let mut rest = [0u8; 8];
    let left = input.take(&mut rest).ok();
    drop(input);
    left
}

// Asserts what each of these calls leaves. A row has the words and the text.
fn expect_left<R: Threads + Wait + Sync + Abort>(
    rt: &R,
    alloc: Global,
    rows: &[(&[&str], &str)],
    count: usize,
) {
    for &(words, text) in rows {
        let left = left_after(rt, alloc, words, text);
        assert!(rt; left == Some(count), "{words:?}");
    }
}

const UNTOUCHED: [(&[&str], &str); 8] = [
    (&["check", "a.sp"], ANSWER),
    (&["code", "a.sp"], ANSWER),
    (&["sets", "a.sp"], ANSWER),
    (&["format", "a.sp"], ANSWER),
    (&["gen", "3"], ANSWER),
    (&["run", "-x", "a.sp"], ANSWER),
    (&["run", "absent"], ANSWER),
    (&["run", "a.sp"], "program g; begin x := 1 end."),
];

// Runs that are done, that end in a fault, and in a deadlock.
const ENDED: [(&[&str], &str); 3] = [
    (&RUN, ANSWER),
    (&RUN, "program a; var x: integer; begin write(x) end."),
    (
        &RUN,
        "program r; type ch = *(integer); var c: ch; x: integer; begin open(c); receive(c, x) end.",
    ),
];

#[test]
fn inputs_that_are_not_touched_or_read_to_their_end(rt: HostRuntime) {
    expect_left(&rt, rt.alloc(), &UNTOUCHED, 4);
    expect_left(&rt, rt.alloc(), &ENDED, 0);
}
