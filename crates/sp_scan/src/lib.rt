//! The tokens of a text, or the first rule of its characters that it breaks, in one pass over the bytes.
//!
//! Calls:
//! - `scan`: exactly the tokens of a text, in their order, or the first rule of characters that it breaks (L1, S1 to
//!   S5, U1, U2), by place and then by row; or want of memory.
//! - `first_breach`: none where the text has tokens, else the first rule of characters that it breaks. It takes no
//!   memory.
//! - `item`: what stands first in bytes, of which there is one at least, and what is behind it: a blank or a comment,
//!   or the longest token with its kind; or the first rule of characters that is broken there.
//! - `spelling`: the bytes of a token that lies in the text.
//!
//! To know:
//! - `scan` and `first_breach` go from item to item (`src/scanner.rt`), by the rules at one place (`src/rules.rt`).
//! - The formatter scans with comments by `item`, and its contracts cite `specs/Finds.antt` too.
//!
//! Lemmas for others, in `proofs`:
//! - `Along`: runs of bytes, comments and texts, by loops that go along them.
//! - `Tokens`: the longest token at a place.
//! - `Breaches`: the first rule of characters that is broken at a place.
//! - `TokenPrefixes`: the tokens so far, and that no rule is broken before them.
//!
//! To change:
//! - A word or a sign: the tables of `src/tables.rt`.
//! - A rule of characters: `src/rules.rt` and `proofs/Breaches.antt`.
#![tactic(auto)]

mod bytes;
mod rules;
mod runs;
mod scanner;
mod tables;
mod token;

pub use rules::item;
pub use scanner::{first_breach, scan, spelling};
