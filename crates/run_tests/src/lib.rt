//! Rows of the meaning (`sp_meaning`), and tests of the arithmetic of expressions (`sp_machine`).
//!
//! To know:
//! - `proofs/ProcessRows.antt` and `ChannelRows` run small programs along schedules: the prover computes each run by
//!   the definitions alone, and compares how many steps it has, what it writes and how it ends (`Goes`).
//! - `proofs/LimitRows.antt` and `DepthRows` have runs that are too long to be computed, for every number above a
//!   limit.
//! - `proofs/Programs.antt` has the programs, worked by hand, and `Trees` the trees of their texts; `TreeRows` says
//!   that those trees give these programs. The gallery runs the same texts.
//! - `src/arithmetic.rt`: the calls of arithmetic of `sp_machine`.
#![tactic(auto)]

#[cfg(test)]
mod arithmetic;
