//! The lines in which the program tells a refusal, the end of a run and the verdict on it.
//!
//! Calls:
//! - `refusal_line`: exactly `refused RULE LINE:COLUMN`.
//! - `end_lines`: exactly the lines of an end that is not `Memory`: `done`, or `deadlock` and a line for each process
//!   that waits, or `fault FAULT NAME`.
//! - `verdict_line`: exactly `ordered`, `unjudged`, or `race` with way, channel and the indices of the two offers.
//!
//! To change:
//! - A line: `specs/OutcomeLines.antt`, and its function in `src/refusal.rt`, `src/end.rt` or `src/verdict.rt`.
#![tactic(auto)]

mod end;
mod refusal;
mod verdict;

pub use end::end_lines;
pub use refusal::refusal_line;
pub use verdict::verdict_line;
