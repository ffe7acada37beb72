//! Rows of definitions: small codes and programs, and what definitions say of them, by computing.
//!
//! A law is proved as well if a definition that it rests on says too little. Every program is disjoint if nothing
//! counts as a write, and code that breaks no rule is sound even if a rule misses a breach from which no turn gets
//! stuck. The rows here are of such definitions. They are in a crate above, so a new row costs no other proof.
//!
//! Laws:
//! - `writes_to_one_variable_are_seen`, `two_ends_are_seen`: `parallel x := 1 | x := 2` is not disjoint, and does not
//!   end alike in all schedules.
//!
//! To know:
//! - `proofs/CodeRows.antt`: code that breaks V1 by a variable that is not there, or V5 by a function with a variable
//!   parameter; and functions whose code stops, which breaks V8 whatever kind of stop it is.
//! - `proofs/EffectRows.antt`: procedures that are called inside themselves, which breaks V7 if they have an effect
//!   outside, and not if the output is their only one; and a function that stores outside itself, which breaks V8.
//! - `proofs/ParallelRows.antt`: the schedules of the program of both laws, which `specs/Programs.antt` has.
//! - Nothing runs here, and no program uses this crate. `sp_verify_rules` and `sp_meaning` have more rows in their
//!   `proofs/`.
#![tactic(auto)]

mod parallel;

pub use parallel::{two_ends_are_seen, writes_to_one_variable_are_seen};
