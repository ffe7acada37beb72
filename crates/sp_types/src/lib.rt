//! The phase of types: the checked tree, or the first broken rule of types.
//!
//! Calls:
//! - `type_check`: consumes the tree with numbers for names, and gives exactly the checked tree, or the first rule
//!   among Y1 to Y14, L3 and L6 that is broken, by place and then by row; or want of memory.
//! - `Tables`: what is known while statements are read, by numbers: constants, types, variables and headings, with
//!   `Ordinal` and `Signature`. Its calls tell what stands under a number, `count` and `index` change it.
//!
//! Laws:
//! - `law::first_is_least`: the first broken rule of types of a program is the first, by place and then by row, of all
//!   that are broken.
//! - `law::numbers_have_no_gap`: the number behind a statement is the one that counting its statements gives.
//! - `law::numbers_differ`: where the statement parts of its blocks stand at different places, no two statements of a
//!   checked program have one number.
//! - `law::numbers_of_two_blocks`: a worked row, the numbers of the statements of two blocks.
//!
//! To know:
//! - Of the definitions, `specs/Tables.antt` has what is declared, by numbers (types, constants with their values,
//!   variables, headings), `TypeRules` a clause for each row of the rules of types, `Kinds` the types of expressions,
//!   `TypeWalk` what stands where, `CheckedTree` the checked tree of a program, in `sp_tree`'s `PlainChecked`,
//!   `StatementNumbers` the numbers of its statements, `TypeFirst` the first broken rule or the tree.
//! - `specs/Types.antt` is the one form of contract of the pass: it consumes the tree, gives tree and type, and carries
//!   the first broken rule so far.
//! - `Walk` of `sp_tree` is what the pass carries: the first broken rule, and whether memory was refused. A pass that
//!   was refused memory is lost: it goes on to its end and lets nothing go on the way, and what it gives is no answer.
//! - `src/rules.rt` has the rules in code. `src/expressions.rt` and `statements.rt` are the pass, with `calls.rt` and
//!   `performs.rt` for calls, `choices.rt` and `seen.rt` for the constants of a `case`.
//! - `src/numbers.rt`, `signed_constants.rt`, `constants.rt`, `kinds.rt` and `program_tables.rt` make the tables of
//!   what is declared, with `field_table.rt` for what is looked up in a type; `declarations.rt` has the rules there,
//!   with `sizes.rt` for cells.
//! - `src/bodies.rt` and `statement_counts.rt` have the numbers of statements, `blocks.rt` the blocks, `program.rt`
//!   the whole (`type_check`).
//! - A call of `read`, `write`, `open`, `send` or `receive` that stands for one statement is that statement. One that
//!   stands for several is a sequence of them at its place, each with a number (in memory `SendEach` and `ReceiveEach`
//!   for `send` and `receive`).
//! - A repeated statement and each process statement are one sequence at the place of the first, also where it is
//!   alone. A sequence has no length and takes no step.
//! - The program's own statements have the last numbers. The place of the statement part tells which comes first.
//! - `have!` stands for `?`, which costs a proof more. `?` is left where a failure hands back what has to be dropped.
//! - A type stands in the tables with what is looked up in it: the fields of a record in an ordered map by name, the
//!   message types of a channel in an ordered set. Contracts see the type alone.
//! - A number above the 64-bit range of integers, and a number of a statement, a field or a type that is no 32-bit
//!   number, are answered as want of memory. No text of the permitted length has one after the scanner.
//!
//! Lemmas for others, in `proofs`:
//! - `Laws`: the first broken rule of types is the first of all that are broken.
//! - `StatementNumbers`: the numbers of a statement's tree are those from its own up to the one behind it, in this
//!   order; so blocks whose statement parts stand at different places have different numbers.
//!
//! To change:
//! - A rule of types: its clause in `specs/TypeRules.antt`, its function in `src/rules.rt`, a row in
//!   `proofs/Rows.antt`.
//! - A form of expression: `specs/Kinds.antt`, `TypeWalk`, `CheckedTree`, `proofs/Laws.antt`, `src/expressions.rt`.
//! - A form of statement: the same files, and `proofs/NextNumbers.antt`, `proofs/StatementNumbers.antt`,
//!   `src/statements.rt`, `src/statement_counts.rt`.
#![tactic(auto)]

mod blocks;
mod bodies;
mod calls;
mod choices;
mod constants;
mod declarations;
mod expressions;
mod field_table;
mod kinds;
pub mod law;
mod numbers;
mod pass_results;
mod performs;
mod program;
mod program_tables;
mod rules;
mod seen;
mod signed_constants;
mod sizes;
mod statement_counts;
mod statements;
mod tables;
mod values;

pub use program::type_check;
pub use tables::{Ordinal, Signature, Tables};
