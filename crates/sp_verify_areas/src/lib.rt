//! Rules V1 and V9 of code files, by passes over the code: each finds the least instruction at which something is
//! broken. They find whose code each instruction is, and what is around it.
//!
//! Calls:
//! - `Blocks::of` (`blocks`): a table of layouts, with the place of the first layout of each block. `place`, `find`,
//!   `entry_of`, `has`: that place, that layout, its first instruction, and whether there is one.
//! - `owners`: whose code each instruction is: of no area, of one block or child alone, or of several (`AreOwners`).
//!   `table_named`, `table_number`: the table that an instruction names.
//! - `led`: the layouts whose parents lead to block 0 (`HaveAllBlockNodes`). `homes` (`around`): by these, what is
//!   around each instruction that lies in the code of one area alone (`AreHomes`). `Homes::variable` finds a variable
//!   there by level and number, `is_block_outward` (`levels`) says whether a level is that of a block.
//! - `first_v1` (`whole`): the least instruction at which V1 is broken; none where it is broken nowhere.
//! - `first_round` (`rounds`): the same for V9.
//! - `first_wrong_alone` (`parts`), `first_orphan_block`, `first_twice` (`declarations`), `first_unnamed` (`naming`),
//!   `first_misplaced` (`placed`): the same for some points of V1 each.
//! - `first_out_of_range` (`ranges`), `first_unknown`: the same for points of V1 on what is around an instruction, of
//!   instructions that lie in the code of one area alone.
//! - `least`, `place_if`: the first of two answers; a place, if something is broken there. `no_flags`, `flag_at`,
//!   `mark` (`flags`): flags by their numbers.
//!
//! To know:
//! - Each answer is exact. The only other one is want of memory.
//! - Each pass answers the least instruction at which something is broken (`specs/LeastPlaces.antt`,
//!   `proofs/Leasts.antt`);
//!   `least.rt` takes the less of two.
//! - `whole.rt` is V1 by all its passes. An instruction that lies in two areas breaks V1 anyhow, so there the passes
//!   look no further (`specs/Sums.antt`, `proofs/RuleSums.antt`).
//! - `parts.rt` looks at what is wrong in itself (`specs/Alone.antt`): `names.rt` has instructions that name what is
//!   not there, `layouts.rt` and `tables.rt` what can be wrong with a layout or a table. `declarations.rt` has
//!   variables that are declared twice, `table_names.rt` tables that not exactly one instruction names.
//! - `owners.rt` finds whose code each instruction is: it hands owners on along `ways.rt` and tables until a sweep
//!   finds nothing new. In `proofs/`, `OwnerLaws` says that what is handed on is true, `OwnerSteps` has each step,
//!   `OwnerClosure` what follows where nothing is left to be handed on. `placement.rt` goes by owners.
//! - `tree.rt` is a tree of what is around code, in which one finds who is so many levels outward. `block_nodes.rt` and
//!   `all_blocks.rt` put the blocks into it, `child_nodes.rt` the children of forks, in the order of `order.rt`.
//!   `around.rt` is the whole search, `homes.rt` what it answers. `orphan_block.rt`, `ranges.rt` and `unknown.rt` are
//!   the points of V1 that need it.
//! - `blocks.rt` is the layouts by their blocks. `order.rt` and `hints.rt` only save time: no proof rests on the order,
//!   and whoever uses a hint looks whether it is right.
//! - `rounds.rt` is V9, by numbers that `components.rt` guesses and a loop checks.
//!
//! Lemmas for others, in `proofs`:
//! - `Leasts`: least numbers of sums, of equal facts, and of items one after the other.
//! - `BlockLaws`: what a table of layouts finds is the layout of the block.
//! - `FirstFailures`: one layout or child that fails a test, among others.
//! - `OwnerLaws`: owners that are the same by the test are equal.
//! - `OwnerSteps`: the steps of a search for owners: each hands on what is true, and where it changes nothing, it
//!   leaves nothing to be handed on.
//! - `OwnerClosure`: where nothing is left to be handed on, each instruction of an area knows it: so the owners are
//!   right.
//!
//! To change:
//! - A point of V1: its definition in `sp_verify_rules`; its pass, `src/whole.rt`, `specs/Sums.antt`,
//!   `proofs/RuleSums.antt`.
#![tactic(auto)]

pub mod all_blocks;
pub mod around;
pub mod block_nodes;
pub mod blocks;
pub mod child_nodes;
pub mod components;
pub mod declarations;
pub mod flags;
pub mod have;
pub mod hints;
pub mod homes;
pub mod layouts;
pub mod least;
pub mod levels;
pub mod names;
pub mod order;
pub mod orphan_block;
pub mod owners;
pub mod parts;
pub mod placement;
pub mod ranges;
pub mod rounds;
pub mod table_names;
pub mod tables;
pub mod tree;
pub mod unknown;
pub mod ways;
pub mod whole;
