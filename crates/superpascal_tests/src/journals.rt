//! Journals and witnesses of runs with several workers, which are followed.

use crate::calls::{Given, NONE, call_along, call_failing, expect_given, source};
use std::alloc::Global;
use std::process::Abort;
use std::sync::Wait;
use std::thread::Threads;

// Two senders on one channel.
const SENDERS: &str =
    "program r; type ch = *(integer); var c: ch; x, y: integer; begin open(c); parallel begin receive(c, x); receive(c, y) end | send(c, 1) | send(c, 2) end; write(x, y) end.";

// Two receivers on one channel.
const RECEIVERS: &str =
    "program r; type ch = *(integer); var c: ch; x, y: integer; begin open(c); parallel begin send(c, 1); send(c, 2) end | receive(c, x) | receive(c, y) end end.";

// Both senders pause twice before they offer.
const PAUSING: &str =
    "program r; type ch = *(integer); var c: ch; x, y, i, j: integer; begin open(c); parallel begin receive(c, x); receive(c, y) end | begin for i := 1 to 250000 do begin end; send(c, 1) end | begin for j := 1 to 250000 do begin end; send(c, 2) end end end.";

// The receiver waits for a third message in vain.
const STUCK: &str =
    "program r; type ch = *(integer); var c: ch; x, y: integer; begin open(c); parallel begin receive(c, x); receive(c, y); receive(c, x) end | send(c, 1) | send(c, 2) end end.";

// What follows this journal of this text, without input.
fn follow<R: Threads + Wait + Sync>(rt: &R, alloc: Global, text: &str, journal: &[u8]) -> Given {
    let words = ["replay", "a.sp", "j"];
    let mut input = source(alloc, Vec::new(alloc));
    let given = call_along(rt, alloc, &words, text, journal, &mut input, NONE);
    drop(input);
    given
}

// Asserts that following this journal ends in a fault F6 of one of the two senders.
fn expect_contention<R: Threads + Wait + Sync + Abort>(
    rt: &R,
    alloc: Global,
    text: &str,
    journal: &[u8],
) {
    let given = follow(rt, alloc, text, journal);
    let later = given.notes.as_slice() == "replayed\nfault F6 0/0.1\n".as_bytes();
    let notes = if later {
        "replayed\nfault F6 0/0.1\n"
    } else {
        "replayed\nfault F6 0/0.2\n"
    };
    expect_given(rt, given, 3, false, "", notes, text);
}

// The witness of a race is followed to its fault. Where the two offers contended in the run itself, there is no
// verdict.
fn expect_followed<R: Threads + Wait + Sync + Abort>(
    rt: &R,
    alloc: Global,
    text: &str,
    workers: &str,
) {
    let words = ["witness", "--workers", workers, "a.sp"];
    let given = call_failing(rt, alloc, &words, text, NONE);
    assert!(rt; given.ran, "{workers}");
    if given.status == 3 {
        assert!(rt; given.output.is_empty(), "{workers}");
    } else {
        expect_contention(rt, alloc, text, given.output.as_slice());
    }
    drop(given);
}

#[test]
fn witnesses_are_followed(rt: HostRuntime) {
    for text in [SENDERS, RECEIVERS, PAUSING, STUCK] {
        for workers in ["1", "2", "8"] {
            expect_followed(&rt, rt.alloc(), text, workers);
        }
    }
}

// The journal of a run with so many workers is followed to its output.
fn expect_same<R: Threads + Wait + Sync + Abort>(rt: &R, alloc: Global, workers: &str) {
    let words = ["run", "--workers", workers, "--show", "journal", "a.sp"];
    let run = call_failing(rt, alloc, &words, SENDERS, NONE);
    let replay = follow(rt, alloc, SENDERS, run.notes.as_slice());
    assert!(rt;
        run.output.as_slice() == replay.output.as_slice(),
        "{workers}"
    );
    drop(run);
    assert!(rt;
        replay.notes.as_slice() == "replayed\ndone\n".as_bytes(),
        "{workers}"
    );
    assert!(rt; replay.status == 0, "{workers}");
    drop(replay);
}

#[test]
fn journals_of_runs(rt: HostRuntime) {
    expect_same(&rt, rt.alloc(), "1");
    expect_same(&rt, rt.alloc(), "4");
}
