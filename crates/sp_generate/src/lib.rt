//! The code of a checked tree, instruction by instruction, with what its forks hand over. Besides, how many
//! instructions that is, before any of it is made.
//!
//! Calls:
//! - `generate`: of a tree with its sets, its code (`IsCodeOf`), or want of memory, where the code has at most
//!   1,048,576 instructions; else `GenError::TooLong` with its length as `length` tells it.
//! - `is_too_long`: whether code of this length, as `length` tells it, is longer than code may be.
//! - `length`: the number of instructions of the program's code, or 4,294,967,295 where it has more (`told`).
//!
//! Laws:
//! - `one_code`: a program has one code.
//!
//! To know:
//! - The code is instruction by instruction that of the definitions of `sp_code` (`specs/GeneratorAnswers.antt`).
//!   Processes are handed variables in order of their numbers, so that a program has one code (`src/law.rt`).
//! - A number that is no `u32`, and code with more fork tables, texts or layouts than it may have, are answered as want
//!   of memory. Neither is in the code of a text, which has at most 1,048,576 bytes. So is code whose forks would hand
//!   over 33,554,432 variables or more (`room.rt`): a `parallel` of as many calls as a text has room for, of a
//!   procedure with as many implicit variables, would take gigabytes, and no code file could hold it.
//! - `code_context.rt` is what is kept of the tree, `statement_context.rt` what is around a statement. `single.rt` has
//!   single instructions, `expressions.rt`, `simple.rt`, `statements.rt`, `choices.rt` and `blocks.rt` are the pass,
//!   `handings.rt` is what a process is handed.
//! - The writer of the instructions keeps in mind whether memory was refused, for tables and texts too, so the pass has
//!   no `?`. Its contracts say `Adds` of `sp_base`, and `Wrote` of `specs/BuffersAfter.antt`.
//! - `specs/CodeBuffers.antt` is what stands once a part was written behind what stood: the form of every contract of
//!   the pass. `Tables` and `Handings` are the fork tables by the numbers of statements, `Numbered` the code with
//!   them.
//! - `proofs/Forms` has a lemma for each form, `CaseTests` the jumps of a `case`. `Inside`, `SetTests` and
//!   `StatementCode` lead from the numbers of statements to the sets of any statement; `OneCode` is the law.
//! - `length` is one pass over the tree in memory, and takes no memory. The sums are told up to the greatest `u32`,
//!   which stands for every greater length: so no sum wraps (`src/length_sum.rt`, `specs/CappedLength.antt`).
//!
//! Lemmas for others, in `proofs`:
//! - `Limits`: a length as it is told is beyond the limit of code exactly where the length is.
//!
//! To change:
//! - A form: `Emitted` of `sp_code`, the function of its name, its lemma in `proofs/Forms`, its clauses in `Tables`,
//!   `Inside` and `StatementCode`.
//! - The length of a form: `specs/Lengths.antt` of `sp_code`, then the function of its syntax class.
#![tactic(auto)]

mod blocks;
mod cells;
mod choices;
mod code_buffer;
mod code_context;
mod code_tables;
mod expression_lengths;
mod expressions;
mod frames;
mod handings;
mod law;
mod length_sum;
mod levels;
mod lists;
mod numbers;
mod program;
mod program_length;
mod room;
mod simple;
mod single;
mod statement_context;
mod statement_lengths;
mod statements;

pub use law::one_code;
pub use program::{GenError, generate, is_too_long};
pub use program_length::length;
