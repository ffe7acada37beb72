//! The phase of names: the tree with numbers for names, or the first broken rule of names.
//!
//! Calls:
//! - `resolve`: consumes the syntax tree, and gives exactly the tree with numbers for names, or the first rule among
//!   N1 to N8 and L4 that is broken, by place and then by row; or want of memory.
//!
//! Laws:
//! - `laws::first_of_names`: by the definitions, the rule of names that a program is refused for is broken, and none
//!   that is broken stands before it, by place and then by row; where none is found none is broken.
//!
//! To know:
//! - One pass consumes the syntax tree, gives each part with numbers for names, and carries the first broken rule so
//!   far: `specs/Walks.antt` and `Firsts.antt`.
//! - `Walk` of `sp_tree` is what the walk carries: the first broken rule so far, and whether memory was refused. A walk
//!   that was refused memory is lost: it goes on to its end and lets nothing go on the way, and what it gives is no
//!   answer. `Keeps` of `sp_tree`'s `specs/Carried.antt` is the form of its contracts.
//! - `src/scopes.rt` has the tables of declarations, one for each block. `src/rules.rt` and `declarations.rt` have the
//!   rules, a function for each place at which a name may stand. `src/expressions.rt`, `statements.rt`, `parts.rt`,
//!   `headings.rt` and `blocks.rt` are the walk, `program.rt` the tables of the program.
//! - A number that would not fit 32 bits is answered as want of memory. No program has so many declarations.
//! - The hash of the tables has a fixed seed, so names can be made that collide.
//!
//! Lemmas for others, in `proofs`:
//! - `PartBreaches`: what the walk finds in a part, from what it finds in its own parts.
//! - `NameLaws`: what the code finds is the first of all broken rules of names of a program.
//!
//! To change:
//! - A rule of names: `sp_tree`'s `specs/NameRules.antt`, then `src/rules.rt`.
//! - What a part declares: `NameWalk` and `NamedTree` of `sp_tree`, then the walk.
#![tactic(auto)]

mod block_parts;
mod blocks;
mod calls;
mod constants;
mod declarations;
mod expressions;
mod headings;
mod indices;
mod kinds;
pub mod laws;
mod numbers;
mod parts;
mod program;
mod rules;
mod scopes;
mod standard;
mod statements;
mod variables;

pub use program::resolve;
