//! The canonical text of a program's text: one layout for every program.
//!
//! Calls:
//! - `format`: exactly the canonical text of a text that breaks no rule of characters and grammar; else the first such
//!   rule, or L1 at 1:1 where the canonical text has more than 1,048,576 bytes; or want of memory.
//!
//! Laws:
//! - `one_canonical_text`: a text has at most one list of items and at most one canonical text, and texts of the same
//!   items have the same one.
//! - `items_kept`: the canonical text of a program has the program's items, breaks no rule of characters and grammar,
//!   and is its own canonical text, for which no rule is named.
//! - `one_layout`: a text has at most one answer of `format`: one canonical text, or one rule for which it has none,
//!   and never both.
//! - `one_tree_but_for_places`: a program and its canonical text spell one tree but for places.
//!
//! To know:
//! - `specs/Items.antt` has tokens and comments in order, `Layout.antt` the layout over items and their neighbours,
//!   `Formats.antt` the answer, `SameTrees.antt` when two texts spell one tree but for places.
//! - `src/canonical.rt` is the one pass over the bytes. `src/context.rt` is what it counts of the items before,
//!   `src/kinds.rt` what the kind of an item asks, `src/put.rt` what it writes.
//! - The layout knows no tree, so that comments keep their places.
//!
//! To change:
//! - A layout: `specs/Layout.antt`, `src/kinds.rt`, `src/context.rt`.
#![tactic(auto)]

mod canonical;
mod context;
mod kinds;
mod law;
mod put;

pub use canonical::format;
pub use law::{items_kept, one_canonical_text, one_layout, one_tree_but_for_places};
