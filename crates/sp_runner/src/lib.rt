//! The workers of a run. Each of them serves the room in which the kernel is kept, and runs one turn of the process
//! that it gets there.
//!
//! Calls:
//! - `run`: sound code by 1 to 64 workers to its end (`IsRun`): the journal is that of a legal history made of their
//!   calls (of one worker first in, first out), end and output are the machine's along it. Or want of memory.
//!
//! To know:
//! - `src/worker.rt` has the loop of one worker over its seat, `src/runner.rt` has `run`: all of them over a room with
//!   a kernel.
//! - `specs/Runs.antt` says what a run is (`IsRun`), `specs/Ends.antt` how the system of all processes ends, by that
//!   system alone, `specs/Works.antt` what a worker's loop keeps.
//! - Each process that a worker hands in is the one that it got by its call before (`OneByOne`):
//!   `proofs/WorkInHand.antt` shows that it may be handed in, `proofs/WorkerCalls.antt` that the worker's own notes
//!   say so.
//! - `proofs/Ending.antt`, then `proofs/RunResults.antt` and `proofs/SlotWaiters.antt`, lead from the last seats and
//!   the kernel's end to the end of the system.
//! - One seat is enough at the end: what it saw as over stays over, and where no worker gave up nothing is out.
//! - The types of the kernel and the room that go to another thread are shown so in
//!   `sp_kernel/proofs/ThreadBounds.antt`.
//!
//! Lemmas for others, in `proofs`:
//! - `WorkInHand`: what a worker holds may be handed in: who gets work has it out, in the state of the system along
//!   what its seat has seen.
//! - `RunResults`: a run that was closed is one of the definitions: from the kernel's end to that of the system
//!   (`closed_run`).
//! - `TooLarge`: the run of a program whose frame has more cells than the limit: F12 before its first instruction
//!   (`one_fault`).
//!
//! To change:
//! - What a worker does: `work` of `src/worker.rt`, its invariant, and `proofs/WorkInHand.antt` for what it hands in.
//! - What is promised of a run: `IsRun`, and `closed_run` of `proofs/RunResults.antt`.
#![tactic(auto)]

mod runner;
mod worker;

pub use runner::run;
