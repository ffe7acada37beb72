//! Tests of all that goes from the bytes of a text to its code: they stand here, so that the crates of the phases are
//! proved once.
//!
//! To know:
//! - `tokens` tests tokens and the rules of characters, `grammar` texts that break rules of the grammar; `names`,
//!   `types` and `interference` each of their rules by a text that breaks it, beside a near one that breaks none.
//! - `layouts` has canonical texts.
//! - `listings` has the code of each form of declaration, statement and expression, `lengths` its length. What a tree
//!   is like is seen by its code, its canonical text, and the place of what is refused: no test builds a tree.
//! - `large` has texts with deep nesting and long ones, `phases` large texts through the phases up to types, and to
//!   their sets, `longest` the longest code and longer one.
//! - `rows` and `made` are what the tables share.
//! - The crates of the phases have no tests of their own.
//!
//! To change:
//! - A rule: its text and its nearest neighbour in the file of its phase.
#![tactic(auto)]

#[cfg(test)]
mod grammar;
#[cfg(test)]
mod interference;
#[cfg(test)]
mod large;
#[cfg(test)]
mod layouts;
#[cfg(test)]
mod lengths;
#[cfg(test)]
mod listings;
#[cfg(test)]
mod longest;
#[cfg(test)]
mod names;
#[cfg(test)]
mod phases;
#[cfg(test)]
mod rows;
#[cfg(test)]
mod text_code;
#[cfg(test)]
mod tokens;
#[cfg(test)]
mod types;
