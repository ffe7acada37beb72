//! The variables that statements and blocks use. Besides, the text of the sets of a tree.
//!
//! Calls:
//! - `sets_of`: the sets of a tree whose statements have numbers of their own and whose blocks stand after those
//!   around them, for every statement and block exactly by paths of calls (`AreSets`); or want of memory.
//! - `Sets::targets`, `expressions`: the target variables and the expression variables of the statement with this
//!   number, those of the procedures and functions that it calls among them.
//! - `Sets::implicit_targets`, `implicit_expressions`: those of the statement part of the block with this number that
//!   neither it nor a block inside it declares, calls followed.
//! - `Sets::stops`: whether the block's statement part has a statement that a function may not have, or a call of it
//!   leads to one.
//! - `VarSet::contains`, `is_empty`, `meets`, `has_from`: whether it has a variable, none, one in common with another
//!   set, one of this number or a greater one.
//! - `VarSet::new`, `next`, `words`: the empty set; the least variable from a number on; a count of words, below 64
//!   times which all variables are.
//! - `MOST_WORDS`: how many words hold all variables that have a number of 32 bits.
//! - `VarUnion::new`, `add`, `meets`: the union of sets that are added one by one, without memory, of the 8,256
//!   variables from number `64 * first` on, and whether it has one of these in common with a set.
//! - `print_sets`: exactly the text of these sets of the tree (`IsSetsText`); or want of memory.
//! - `SetsLine`: what has a line of its own, a process statement of a parallel statement by its number from 0, or the
//!   element statement of a forall.
//!
//! Laws:
//! - `one_sets_text`: a tree has one text of its sets.
//!
//! To know:
//! - `specs/AreSets.antt` says what the sets of a tree are.
//! - `src/uses.rt` and `walk.rt` gather what stands in each part, `closure.rt` what calls carry, `totals.rt` joins
//!   both. `pool.rt` keeps equal sets once.
//! - `proofs/CallPaths` leads to paths.
//! - `VarSet::words` says how far a set goes, so that a few unions, each over its window of variables, see it whole.
//! - The text has first a line `implicit NAME targets VARS expressions VARS` for each procedure and function, in order
//!   of heading.
//! - Then, in order of place, a line `parallel LINE:COLUMN K targets VARS expressions VARS` for each process statement
//!   of a parallel statement, counted from 0, and a line `forall LINE:COLUMN targets VARS expressions VARS` for the
//!   element statement of each forall. The place is that of the word `parallel` or `forall`.
//! - VARS is each variable's name after a space of its own, the input and the output first, then by place of
//!   declaration.
//! - `specs/SetsText.antt` says which text, `LineForks.antt` what has a line, `TextOrders.antt` in which order lines
//!   and names stand. `src/line_walk.rt` gathers the lines and sorts them, `variable_names.rt` puts the names of a set
//!   in order, `print.rt` joins both.
//! - Lines go by place, those of one parallel statement by its process statements; where all that were the same the
//!   number of the statement would decide. So the order is total whatever the tree, and one text follows without a
//!   fact on places.
//! - A set is gone through from member to member, so a line costs what it prints. A text that goes on behind
//!   134,217,728 bytes is answered as want of memory: as many lines as a text has characters may name as many variables
//!   as it declares.
//!
//! Lemmas for others, in `proofs`:
//! - `StatementRecords`: what is recorded of statements, one after another.
//! - `Words`: bits of words, as the members of a set stand in them.
//! - `AddedSets`: what a pass adds to the sets, part by part.
//!
//! To change:
//! - A form of statement: `src/walk.rt`, `src/simple.rt`.
//! - A set: `specs/Members.antt`, `proofs/Words.antt`.
//! - A line: `specs/SetsText.antt` and its function in `src/print.rt`.
//! - What has a line: `specs/LineForks.antt`, `src/line_walk.rt`.
#![tactic(auto)]

mod bodies;
mod closure;
mod find;
mod from;
mod have;
mod line_walk;
mod order;
mod pool;
mod print;
mod sets;
mod sets_line;
mod simple;
mod text_law;
mod totals;
mod union;
mod uses;
mod var_set;
mod variable_names;
mod walk;

pub use find::sets_of;
pub use print::print_sets;
pub use sets::Sets;
pub use sets_line::SetsLine;
pub use text_law::one_sets_text;
pub use union::VarUnion;
pub use var_set::{MOST_WORDS, VarSet};
