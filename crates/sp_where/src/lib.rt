//! The texts of `trace` and `where`: a journal, and the state after it, with places of the text and values. By laws,
//! what `where` shows of variables is what the meaning has of them.
//!
//! Calls:
//! - `trace_text`: exactly the text of `trace`, from what is told of each entry; or want of memory. `put_line`: the
//!   line of one entry.
//! - `where_text`: exactly the text of `where`, from the state behind the journal; or want of memory.
//! - `Symbols`: what a text's tree tells of its code, types, names and places.
//!
//! Laws:
//! - `values_stand`: along a journal, each process of the machine that runs, waits or joins has one of the same name in
//!   the meaning, with the same frames. The line of each variable that is the process's own, that it has still to use,
//!   or that it waits for, says the value that the variable has in the store of the meaning.
//! - `frames_stand`: so the lines of a whole frame are those of the meaning, of a process that does not join children,
//!   if it may read all variables of the frame.
//! - `faults_stand`: if the turn of a process ends in a fault in the meaning, it does so in the machine. The line of
//!   each variable of its own, in calls of functions too, says the value that the variable has there.
//!
//! To know:
//! - `specs/Traces.antt` says the lines of `trace`, `specs/States.antt` those of `where`, with the calls of a process
//!   by `StateCalls.antt` and their variables by `StateVariables.antt`; `specs/Values.antt` says values,
//!   `specs/Places.antt` places.
//! - A value longer than 120 bytes is cut. It is written no further than to there, so a line costs no more for a large
//!   value than for a small one.
//! - A type rests on types before it alone, so the walk over a value's type and cells ends.
//! - `specs/Lines.antt` is how a value of the meaning is written, part by part, by its type; `specs/Truth.antt` says
//!   beside which frame of the meaning a frame of the machine stands.
//! - The laws leave open: processes that were laid by another's fault, indexes of `forall` statements, and variables of
//!   an ancestor that the process has no use for any more.
//!
//! To change:
//! - How a value is written: `form_by` and `cell_text` of `specs/Values.antt`, `src/values.rt` and `src/cells.rt`.
//! - A line of `trace`: `trace_line` of `specs/Traces.antt`, `put_line` of `src/trace.rt`.
//! - The first line of a process in `where`: `first_line` of `specs/States.antt`, `put_first_line` of
//!   `src/state.rt`. Its frames: `frames_text` of `specs/StateCalls.antt`, `src/state_calls.rt`. A variable:
//!   `variable_line` of `specs/StateVariables.antt`, `src/state_variables.rt`.
#![tactic(auto)]

mod cells;
mod laws;
mod state;
mod state_calls;
mod state_variables;
mod symbols;
mod trace;
mod values;

pub use laws::{faults_stand, frames_stand, values_stand};
pub use state::where_text;
pub use symbols::Symbols;
pub use trace::{put_line, trace_text};
