//! Mutants of what runs code: values, stores, channels, processes, the kernel, rooms, workers, replays, verdicts
//! and witnesses. Each function here repeats the contract of a call word for word and makes it, so the contract here
//! follows from that of the call. An edit of `must-fail` turns what the call answers or does; the contract must refuse
//! it, and so would that of the call. No program uses this crate: it makes such tries cheap, since its proof is short.
#![tactic(auto)]

mod kernels;
mod rooms;
mod runs;
mod stores;
mod values;
mod verdicts;

pub use kernels::{give, join_child, offer, open, resume, split_process, standing, take, turn};
pub use rooms::{new_room, serve};
pub use runs::{follow, replay, replay_told, run, run_program};
pub use stores::{copy, join, split};
pub use values::{binary, number_in};
pub use verdicts::{merge, verdict_of, witness, witness_of_run};
