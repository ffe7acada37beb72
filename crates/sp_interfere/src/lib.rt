//! The phase of interference: no rule of interference is broken, or the first that is, without memory.
//!
//! Calls:
//! - `check_sets`: of a tree and its sets, where blocks stand after those around them, exactly that no rule of
//!   interference (I1 to I9) is broken, or the first that is, with its place. It takes no memory.
//!
//! To know:
//! - `specs/Rules.antt` has the rules at each site as tests on sets, `Walk.antt` the way through a tree.
//! - `proofs/Exact.antt` shows that the first broken rule that is found is the first of `sp_tree`'s `Interferes`.
//! - For any sets at all, `check_sets` answers the first rule that is broken by the tests on these sets
//!   (`rules_first`).
//! - It recurses as deep as the longest chain of operators is long, and asks that a tree has at most 2^32 blocks.
//!
//! Lemmas for others, in `proofs`:
//! - `BlockLevels`: blocks in memory and in the plain tree, and the way up from a block.
//!
//! To change:
//! - A rule: its clause in `specs/Rules.antt`, its function in `src/sites.rt` or `src/check.rt`.
#![tactic(auto)]

mod block_context;
mod check;
mod expressions;
mod parts;
mod set_tests;
mod sites;
mod statements;

pub use check::check_sets;
