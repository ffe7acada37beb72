//! The witness of a race: the journal in which its two offers contend. It has what the processes of the two offers
//! knew just before them, with the pauses on the way, then the earlier offer, and then the fault F6 of the later
//! one's process.
//!
//! Calls:
//! - `witness`: exactly the witness of two offers of a nameable journal without a fault, as a nameable journal with
//!   numbers of its own.
//!
//! Laws:
//! - `races_are_real`: of a run along a journal without a fault, of a program that keeps the rules of interference,
//!   the witness of the least race is the journal of a run that ends in contention of its offers, with F6.
//! - `ordered_runs_never_contend`: the verdict on a run whose end is no fault, of a program that keeps the rules of
//!   interference, is ordered exactly where no lawful schedule of the program contends.
//! - `runs_are_ordered_alike`: so of two such runs on one input and with the same limits both are ordered, or neither
//!   is.
//! - `one_pass_takes_the_first_part`, `flags_pick_the_first_part`: one pass backwards, by names and by numbers, takes
//!   exactly the entries of the witness before the earlier offer.
//! - `numbers_are_found`: the entries of a nameable journal are found again by its names.
//! - `tables_number_the_witness`: tables of new numbers, filled forwards over the marked entries, give the entries of
//!   the witness.
//! - `races_have_offers`: the two entries of a race are there, the earlier one before the later one, and the
//!   earlier one gives no number, as an offer.
//!
//! To know:
//! - `witness`, and the laws of passes and tables, ask that no process of the journal makes an entry while its own
//!   offer waits, and `witness` that the witness by names is that of a nameable journal, as for the least race of a
//!   program's run.
//! - `specs/Witness.antt` is the witness by names, `specs/OccurrenceNumbers.antt` by numbers.
//! - The code goes over the run three times: forwards for whom each offer meets (`src/ties.rt`), backwards with the
//!   set of the processes that are needed (`src/marks.rt`), and forwards for the new numbers (`src/numbers.rt`);
//!   `src/race.rt` puts them together. `specs/NeededEntries.antt`, `Flags.antt` and `TableNumbers.antt` say the same
//!   of lists, and `specs/Passes.antt` ties the tables to them.
//! - That a race is real: `proofs/Independent.antt` and `IndependentSteps.antt` (a step that did not know of the one
//!   before it could have been made first), `Pasts.antt` (who knows an entry knows what its process knew before it),
//!   `JournalSteps.antt` and `Back.antt` (from a journal to steps and back), `RaceWitness.antt` (the run up to the
//!   later offer, parted), `Real.antt`.
//! - That the code's passes give the witness: `proofs/BackwardPass.antt`, `Pass.antt` and `PickedEntries.antt`
//!   backwards; `TableNumbers.antt`, `Tables.antt` and `OwnFronts.antt` for the numbers; `Backwards.antt`,
//!   `Forwards.antt` and `WitnessOfCode.antt` for the code.
//!
//! Lemmas for others, in `proofs`:
//! - `NumberLookups`: the numbers of a nameable journal are found again by its names.
//! - `Cleanness`: the witness of a run without a fault is clean but for its last entry.
//! - `VerdictMeaning`: a run without a fault at its end is ordered exactly where no schedule of the program meets
//!   contention.
//!
//! To change:
//! - Which entries stand in a witness: `specs/Witness.antt`, `specs/NeededEntries.antt`, `specs/Flags.antt` and
//!   `src/marks.rt`.
#![tactic(auto)]

mod laws;
mod marks;
mod numbers;
mod race;
mod ties;

pub use laws::{
    flags_pick_the_first_part, numbers_are_found, one_pass_takes_the_first_part,
    ordered_runs_never_contend, races_are_real, races_have_offers, runs_are_ordered_alike,
    tables_number_the_witness,
};
pub use race::witness;
