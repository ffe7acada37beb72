//! A program from its code to its verdict: the run of its code is concluded to be one of the program, judged, and both
//! are given. Code that has no source is run too, to its end alone. By laws, a run's journal by names has one by
//! numbers, and so has the witness of its race.
//!
//! Calls:
//! - `run_program`: a run of a ready program's code by 1 to 64 workers, with its exact verdict: for each program with
//!   this code the meaning is defined along the journal, with that end and output (`Executes`).
//! - `conclude`: takes a run of code as one of each ready program that has the code (`IsAbout`), where the machine
//!   gives that end and output along its journal. The run stays as it is.
//! - `judge`: exactly the verdict of the journal and the end, with what it promises of each such program that is free
//!   of interference: where it is ordered, all lawful schedules end alike.
//! - `follow`: for each program with this code: where the meaning is defined along the journal, its output and end, or
//!   none where the run goes on; else the first entry with which it is not. Or want of memory.
//! - `follow_told`: the same, with what is told of each entry, and the state after the last one (`Traces` of
//!   `sp_replay`).
//! - `witness`: the witness of a run's race, a journal that gives names (`witness_of`); none exactly where the verdict
//!   names no race.
//! - `run_code_file`: a run of sound code by 1 to 64 workers, without a verdict; end and output are the machine's
//!   along the journal, and the meaning's for each ready program with this code (`RunsCode`).
//! - `Ran`: a run with its verdict, as `run_program` makes one. `Concluded`: a run of a program, as `conclude` makes
//!   one. `Replayed`, `Traced`, `FollowedRun`, `ReplayError`, `lasts`: those of `sp_replay`.
//!
//! Laws:
//! - `accepted_programs_are_ready`: the program of a text that breaks no rule is ready (`IsReady` of `sp_link`), on
//!   every input with all limits within their types, where its forks take over and share exactly what its statements'
//!   sets say.
//! - `one_unfit_entry`: a journal along which the meaning is defined is unfit at no entry, and any other one at one
//!   entry alone.
//! - `journals_are_told_in_the_text`: what `follow_told` tells of a journal with the code of a text's tree, and the
//!   state that it gives, stand at statements of the text.
//! - `races_are_shown`: along the witness of a run's race the meaning is defined, to the fault F6 of the later offer;
//!   and a run without a fault is ordered exactly where no lawful schedule meets contention.
//! - `runs_can_be_numbered`: occurrences along which the meaning of a ready program is defined, of which none but the
//!   last is a fault, are those of a journal by numbers that can be named (`Numbered`).
//! - `witnesses_are_journals`: the witness of the least race of a ready program's run without a fault is such a
//!   journal, and shows the race (`IsWitness`).
//! - `witnesses_end_in_contention`: along that witness the program comes to one end alone, the fault F6 of the process
//!   of the later offer.
//!
//! To know:
//! - `run_program` runs the code (`run` of `sp_runner`), `conclude` takes the run as one of the program, `judge`
//!   judges it. `follow` runs it along a given journal (`replay` of `sp_replay`). `witness` makes the journal of a
//!   run's race (`witness` of `sp_witness`). `run_code_file` runs code that need have no program, and judges nothing.
//! - `specs/Runs.antt` says what is asked (`IsCodeOf`), what a run says of the program (`IsAbout`) and what is promised
//!   (`Executes`); `Follows.antt`, `Witnesses.antt` and `Machines.antt` have the contracts of `follow`, `witness` and
//!   `run_code_file`, `TextTold.antt` what it means that a journal is told in a text.
//! - `proofs/Conclusions.antt` leads from the machine's end and output along a journal to the program's, with
//!   `proofs/DeadlockWaiters.antt` for those that wait; `proofs/FollowedRuns.antt` leads from `replay` to the
//!   program, `proofs/Races.antt` from a run's verdict to its witness.
//! - No call takes the tree: a program is named in the contracts alone, and each clause holds of every program that has
//!   the code.
//! - The numbers of a journal are those of the machine of `sp_link`.
//!
//! To change:
//! - What is asked of a program: `specs/Premises.antt` of `sp_link`, and a line in `accepted_ready` of
//!   `proofs/Readiness.antt`.
//! - What is promised of a run: `Executes`, and `executed` of `proofs/CodeRuns.antt`.
//! - An end: its clause in `same_end` of `proofs/Conclusions.antt`.
#![tactic(auto)]

mod conclusion;
mod execution;
mod law;
mod machine;
mod numbering_laws;
mod race_witness;
mod replays;
mod verdict;

pub use conclusion::{Concluded, conclude};
pub use execution::{Ran, run_program};
pub use law::{
    accepted_programs_are_ready, journals_are_told_in_the_text, one_unfit_entry, races_are_shown,
};
pub use machine::run_code_file;
pub use numbering_laws::{
    runs_can_be_numbered, witnesses_are_journals, witnesses_end_in_contention,
};
pub use race_witness::witness;
pub use replays::{follow, follow_told};
pub use sp_replay::{FollowedRun, ReplayError, Replayed, Traced, lasts};
pub use verdict::judge;
