//! Turns of several workers at once.

use crate::calls::{NONE, ORDERED, call, expect_given, source};
use sp_outside::Gate;
use std::alloc::Global;
use std::process::Abort;
use std::sync::Wait;
use std::sync::atomic::{AtomicU64, Ordering};
use std::thread::Threads;

/// Lets process 1 enter once process 2 has, and notes where it has not seen this in so many looks.
#[derive(Drop)]
struct Meeting {
    looks: u64,
    entered: AtomicU64,
    missed: AtomicU64,
}

impl Gate for Meeting {
    fn enter(&self, _worker: u32, process: u32) {
        if process == 2 {
            self.entered.store(1, Ordering::SeqCst);
        }
        if process == 1 {
            for _ in 0..self.looks {
                if self.entered.load(Ordering::SeqCst) == 1 {
                    return;
                }
            }
            self.missed.store(1, Ordering::SeqCst);
        }
    }
}

impl Meeting {
    fn new(looks: u64) -> Meeting {
        Meeting {
            looks,
            entered: AtomicU64::new(0),
            missed: AtomicU64::new(0),
        }
    }
}

const TWO: &str =
    "program g; var x, y: integer; begin parallel x := 1 | y := 2 end; write(x, y) end.";

// Asserts what a run through this gate gives.
fn expect_through<R: Threads + Wait + Sync + Abort>(
    rt: &R,
    alloc: Global,
    workers: &str,
    gate: &Meeting,
) {
    let words = ["run", "--workers", workers, "a.sp"];
    let mut input = source(alloc, Vec::new(alloc));
    let given = call(rt, alloc, &words, TWO, &mut input, NONE, gate);
    drop(input);
    expect_given(rt, given, 0, true, "12", ORDERED, TWO);
}

// Asserts what such a run gives, and whether process 1 has missed process 2.
fn expect_meeting<R: Threads + Wait + Sync + Abort>(
    rt: &R,
    alloc: Global,
    workers: &str,
    looks: u64,
    missed: u64,
) {
    let gate = Meeting::new(looks);
    expect_through(rt, alloc, workers, &gate);
    let found = gate.missed.load(Ordering::SeqCst);
    drop(gate);
    assert_eq!(rt; found, missed);
}

// The one worker takes process 1 first, and enters with it before it takes process 2; two workers are in a turn at
// once. (The second one may come seconds later on a machine with much other work, so there are many looks.)
#[test]
fn turns_at_once(rt: HostRuntime) {
    expect_meeting(&rt, rt.alloc(), "1", 1000, 1);
    expect_meeting(&rt, rt.alloc(), "2", 30_000_000_000, 0);
}
