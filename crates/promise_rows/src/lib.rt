//! Rows of the promise: what must come of a call, and what cannot, from `Promise` alone.
//!
//! The contract of the top call is only ever concluded: no code rests on it. So a definition of it that says less than
//! it should would be proved all the same. The laws here take the promise of one call, with its words and what is held
//! outside, and conclude the status, the output and the notes by their bytes. A definition that is weakened loses a
//! row. `tests/statements` has such weakened definitions, and `tests/try_statements` sees each refused.
//!
//! Laws:
//! - `src/statuses.rt`, `src/outputs.rt`, `src/answers.rt`: when each status comes, what is then written, and what
//!   stands of an answer that a failed write displaced.
//! - `src/headline.rt`, `src/races.rt`: runs of a program, and the witness of a race.
//! - `src/journals.rt`, `src/traces.rt`: a journal that is followed.
//! - `src/code_files.rt`: code files.
//!
//! To know:
//! - `specs/Observations.antt` is a call as its user sees it; `specs/Programs.antt` has the programs and the code of
//!   the rows. Nothing runs here, and no program uses this crate.
//!
//! To change:
//! - A part of the promise: its rows here, and its weakened definitions in `tests/statements`.
#![tactic(auto)]

mod answers;
mod code_files;
mod headline;
mod journals;
mod outputs;
mod races;
mod statuses;
mod traces;

pub use answers::{nothing_else_displaces, parts_are_written};
pub use code_files::{
    a_first_line_is_missing, an_unknown_variable_is_rejected, long_files_are_refused,
    sound_files_are_not_refused, sound_files_are_run,
};
pub use headline::{
    a_part_is_written, a_run_waits, a_run_writes_42, kept_rules_are_not_refused,
    other_programs_are_not_run, unknown_names_are_refused,
};
pub use journals::{
    a_heading_is_missing, a_second_end_is_unfit, an_end_is_followed, fit_journals_are_not_refused,
    long_journals_are_refused,
};
pub use outputs::{
    a_deadlock_is_told, a_generated_run_is_told, a_journal_is_shown, a_read_fault_is_told,
};
pub use races::{a_race_is_shown, no_race_is_shown, races_contend};
pub use statuses::{
    accepted_texts_are_told, checks_read_nothing, long_inputs_are_refused,
    other_words_are_accepted, refused_words_are_told,
};
pub use traces::{an_end_is_told, no_output_is_told, nobody_is_anywhere};
