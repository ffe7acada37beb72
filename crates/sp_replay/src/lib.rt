//! A journal followed: the run that a given journal tells is made again, on one thread. Every process that can run is
//! held, and is turned only where an entry names it.
//!
//! Calls:
//! - `replay`: where the machine with sound code is defined along the journal, its end, if any, and its output; else
//!   `Unfit` with the index, from 0, of the first entry with which it is not. Or want of memory.
//! - `replay_told`: the same, with what is told of each entry (`Told` of `sp_lines`) and the state after the last one.
//! - `lasts`: by what is told, for each process the instruction at which its last turn ended.
//! - `Replayed`: the end and the output. `Traced`: these, what is told, and the state. `ReplayError`: `Unfit` or
//!   `Memory`.
//! - `FollowedRun::seen`: in the state a process that was started and has not ended, and what it does.
//!
//! To know:
//! - `src/replayer.rt` is the call, `src/follow.rt` the run entry by entry, `src/telling_entry.rt` the same with what
//!   is told of each entry, of which `src/trace.rt` is the call, `src/held.rt` the processes by their numbers.
//! - `specs/Replays.antt` says what following a journal answers, `specs/TraceAnswers.antt` what it tells,
//!   `specs/FollowInvariant.antt` what holds between two entries, `specs/HeldProcesses.antt` who is held.
//! - All that are ready are taken out before the next turn, so after a fault all that run are held, and go on to be
//!   laid down.
//! - The module is named `replayer`, since no module may have the name of a function of the crate.
#![tactic(auto)]

mod follow;
mod have;
mod held;
mod replayer;
mod telling_entry;
mod trace;

pub use follow::FollowedRun;
pub use replayer::{ReplayError, Replayed, replay};
pub use trace::{Traced, lasts, replay_told};
