//! Tests of the crates of data, texts, journals, stores and code files. They stand above these, so that each is proved
//! once.
//!
//! To know:
//! - `base` has the calls of `sp_base`, each once, `cells` those of `sp_cell`, and `channels` those of `sp_channel`
//!   with the table of offers.
//! - `stores` tests `sp_store`: cells that are made own, stored, put and copied; the output; 10,000 frames pushed and
//!   popped; a frame of 4,096 variables; what moves to a child and comes back; a fork of 100,000 children that share
//!   one piece. `proofs/FreshStores.antt` is what these tests know of a store that was just made, by which they meet
//!   what the calls ask.
//! - `journals` has worked journals and their texts, and long ones. `verdicts` has clocks (what a new, a raised and a
//!   merged one knows), and the verdicts on journals written by hand; `witnesses` has the witness of a race. Both call
//!   the laws of their crates once.
//! - `traces` has the trace of a worked journal, and in it a value of each type.
//! - `code` has the code that code files hold, `code_files` files that are read and written again, and the bad line of
//!   others: lines left out, doubled and cut, and files with one byte changed.
//! - `verified` says what `verify` says of a file, and has rows: a file in which parts are open, and what is said of it
//!   with each of several parts. `alone`, `around` and `placed` have V1: instructions, layouts and tables in
//!   themselves; levels, variables and what forks hand on; where instructions stand, and who names a table. `operands`
//!   has V2 to V5, `effects` V6 to V8, `rounds` V9.
//! - `words` has what command lines ask for, `reports` each watcher over small journals, `generated` the text of a
//!   generated program.
//! - `outside` tests `sp_outside`: libraries, sources and sinks in memory, with failing calls among them, and those
//!   over the system and over streams.
//! - `made` puts together the bytes that the others look at.
//! - The lines of ends, verdicts and refusals, and words that are refused, are rows of `gallery/data/rows/`.
#![tactic(auto)]

#[cfg(test)]
mod alone;
#[cfg(test)]
mod around;
#[cfg(test)]
mod base;
#[cfg(test)]
mod byte_lists;
#[cfg(test)]
mod cells;
#[cfg(test)]
mod channels;
#[cfg(test)]
mod code;
#[cfg(test)]
mod code_files;
#[cfg(test)]
mod effects;
#[cfg(test)]
mod gen_text;
#[cfg(test)]
mod instruction_places;
#[cfg(test)]
mod journals;
#[cfg(test)]
mod operands;
#[cfg(test)]
mod outside;
#[cfg(test)]
mod reports;
#[cfg(test)]
mod rounds;
#[cfg(test)]
mod stores;
#[cfg(test)]
mod traces;
#[cfg(test)]
mod verdicts;
#[cfg(test)]
mod verify_answers;
#[cfg(test)]
mod witnesses;
#[cfg(test)]
mod words;
