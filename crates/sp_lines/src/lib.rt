//! Where each instruction of the code of a checked tree stands in the text. Besides, what shows a run in the words of
//! its text: the names of the constants of enumerations, and the instruction at which a process that runs is shown.
//!
//! Calls:
//! - `marks`: of a tree, a mark for each instruction of its code, in order: the place of the statement to which the
//!   instruction belongs, and the place of its part of the statement. The one error is that memory was refused.
//! - `Told`: what is told of an entry of a journal, the instruction and the message.
//! - `constants`: of the tree of a text, the names of the constants of each enumeration, in order of the text.
//! - `by_kind`: the same by the numbers of types; a type that is no enumeration has none.
//! - `landing`: the instruction to which the jumps lead from which a process goes on.
//!
//! Laws:
//! - `marks_go_with_the_code`: each part of a tree has as many marks as instructions, and so has the whole program.
//! - `marks_stand`: wherever a statement's code stands in that of the program, its marks stand in the program's marks.
//! - `turns_end_at_their_instruction`: if a turn stops, the instruction at which it ends is that of the stop.
//! - `stops_have_their_statements`: an instruction that stops has the mark of a statement of the text of its kind.
//! - `journals_are_told`: one thing is told of a journal if the machine has a system along it, and else nothing.
//! - `turns_are_told`: who follows a journal and sees each turn can tell it.
//! - `faults_have_marks`: an instruction that faults has a mark.
//! - `waiting_processes_are_shown`: a process that waits, or joins, is shown at a place where a statement of the text
//!   begins that does so.
//! - `entries_are_told_at_their_statements`: an entry of a run of a program's code that forks, opens, sends or receives
//!   is told at a place where a statement of the text begins that does so.
//! - `landings_have_marks`: in a run of a program's code, jumps from where a process goes on lead to an instruction
//!   that has a mark.
//!
//! To know:
//! - `specs/Marks.antt` says them clause by clause as `Emitted` of `sp_code` says the code.
//! - It recurses as deep as the tree is.
//! - No tree behind the grammar has the names of an enumeration's constants, but their number alone. The types are
//!   numbered in the order in which the text declares them, so its enumerations are those of the types, in order.
//! - `specs/Constants.antt` and `specs/JumpTargets.antt` say what these calls give. The only error is want of memory.
//!
//! Lemmas for others, in `proofs`:
//! - `StopInstructions`: where a turn stops: each instruction that stops is that of its stop, and leaves the process
//!   right behind it.
//! - `Tellings`: of each journal along which the machine has a system one thing is told.
//! - `EntryStatements`: what is told of an entry that forks, opens, sends or receives is a statement of the text of
//!   its kind.
//! - `FaultMarks`: an instruction that faults has a mark.
//!
//! To change:
//! - A form: its clause in `specs/Marks.antt` beside that in `Emitted`, its arm in `src/statements.rt` or
//!   `src/expressions.rt`.
#![tactic(auto)]

mod entry_place;
mod enumerations;
mod expressions;
mod jumps;
mod kinds;
mod landing_laws;
mod laws;
mod mark;
mod program;
mod statements;

pub use entry_place::Told;
pub use enumerations::constants;
pub use jumps::landing;
pub use kinds::by_kind;
pub use landing_laws::landings_have_marks;
pub use laws::{
    entries_are_told_at_their_statements, faults_have_marks, journals_are_told,
    marks_go_with_the_code, marks_stand, stops_have_their_statements, turns_are_told,
    turns_end_at_their_instruction, waiting_processes_are_shown,
};
pub use mark::Mark;
pub use program::marks;
