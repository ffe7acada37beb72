//! The tree that the tokens of a text spell, or the first rule of the grammar that they break, by recursive descent.
//!
//! Calls:
//! - `parse`: of tokens that are those of the text, exactly the tree that they spell, where they break no rule of the
//!   grammar; else the first rule that they break (G1, L2, G2); or want of memory.
//!
//! To know:
//! - Above each parse function stands its line of the grammar, and its contract names the production that it reads.
//! - `specs/BlockProductions.antt`, `ExpressionProductions.antt` and `StatementProductions.antt` list the productions:
//!   their symbols and what these make.
//! - `Parses` of `specs/Reads.antt` says that the tree is what the production makes, and that the machine of
//!   `sp_tree` on symbols goes on the same way or gets stuck at the same place.
//! - A failure is kept in `Tokens`. No token is left after it, so loops end, and what is read is no answer.
//! - Chains, lists and selectors are loops. Only nesting is recursion, and at most 200 parts deep.
//! - Of the proofs, `Steps` has the steps of the machine, `Pending` what is read and what is still pending, `Rows` the
//!   use of rows of the table. `Turns` has symbols that have the rows of others, and `TreeAnswers` leads to the tokens'
//!   own definitions.
//!
//! Lemmas for others, in `proofs`:
//! - `TokenBounds`: the tokens of a text that breaks no rule of characters lie in it, and their numbers are integers.
//!
//! To change:
//! - A line of the grammar: its production, the function of its symbol, its constructor in `src/constructors*.rt`, and
//!   its lemmas in `proofs/Read*`.
#![tactic(auto)]

mod blocks;
mod constants;
mod constructors;
mod declarations;
mod deep;
mod expressions;
mod headings;
mod made_blocks;
mod made_statements;
mod names;
mod operators;
mod parser;
mod source;
mod spelling;
mod statements;
mod types;

pub use parser::parse;
