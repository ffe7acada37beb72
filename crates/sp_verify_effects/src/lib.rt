//! What the code of blocks and children does to variables, for rules V6 to V8 of code files.
//!
//! Calls:
//! - `PassContext` (`pass_context`): code that keeps V1, with what is known of it. All passes go by it.
//! - `find_effects` (`effects`): exactly the variables that each area stores and loads which a rule asks about, with
//!   what it starts and calls, and whether it comes to a stop other than a fault (`AreEffects`).
//! - `Effects::of`, `touches`: what the area with this first instruction does; whether it stores or loads a variable.
//! - `first_beyond` (`breach`): the least instruction at which V6 is broken, if a child is found that does something
//!   which it is not handed, before all effects are. None says nothing.
//! - `first_ill_handed` (`child_effects`): the least instruction at which V6 is broken; none where it is broken
//!   nowhere.
//! - `first_clash` (`clash`): the same for V7, of code that keeps V2 to V5 too. `first_side_effect` (`side_effects`):
//!   the same for V8.
//! - `tell_own` (`own`), `edges_of` (`edges`): what areas do themselves, the ways on which this goes from area to area.
//!   `Asked::has` (`asked`): whether a rule asks about an area, or it is started or called by one of these; `asks`:
//!   whether it asks whether the area does one thing.
//! - `Facts::new`, `len`, `at`, `has`, `add` (`facts`): a list of facts, each once. `table_of`, `area_at` (`areas`),
//!   `stored_place`, `loaded_place`, `is_stop` (`places`): what is looked up of an instruction.
//!
//! To know:
//! - Each answer is exact. The only other one is want of memory.
//! - An area is known by its first instruction: that of no other area, where V1 is kept.
//! - The rules ask about children, about blocks that answer or are called inside themselves, and what blocks do to the
//!   variables that calls pass to them by reference (`specs/AskedAreas.antt`). What no such area comes to is not
//!   followed. `asked_areas.rt` marks them with no contract, with the variables that `passed.rt` finds, and looks
//!   whether the marks are right (at calls with `asked_calls.rt`); else all areas are followed.
//! - What all children are handed that come to an area is not asked about it (`allowance.rt`, `specs/Allowances.antt`):
//!   the rule lets them do it. So too what is done to the own variables of a block that comes to it. If that takes
//!   variables by reference, and the rules ask no more of it, only what is done to the variables which calls pass to it
//!   is asked about. `common.rt` finds that with no contract, and `asked_areas.rt` looks whether it is right.
//! - Many calls may have many operands: nothing may take time for each pair of them. `acts.rt` finds blocks that do
//!   nothing at all: no effect goes on from there, so edges of formals are not needed. `linked.rt` keeps of which lists
//!   these edges are there, `walks.rt` which operands of lists were gone over for which blocks, and `windows.rt` of
//!   which lists the topmost variables differ.
//! - `facts.rt` is a set of facts about areas (`specs/Facts.antt`), `places.rt` and `own.rt` are what instructions do
//!   themselves, `edges.rt` and `closure.rt` how facts go from area to area until nothing is new, `effects.rt` makes a
//!   table of them, with the variables of blocks (`variables.rt`).
//! - `ways.rt` finds with no contract how something comes to a child that is not handed it, and `breach.rt` goes that
//!   way again. So do `clash_ways.rt` and `clash.rt` for a block that does something to a variable which a call passes
//!   to it, `outflow.rt` and `side_effects.rt` for one that answers and stores outside itself. `trails.rt` has the
//!   ways, and `halving.rt` which places are asked about next, to find the first breach.
//! - `child_effects.rt` is V6; `clash.rt` is V7, with `calls.rt` (a call) and `inside.rt` (a block that is called
//!   inside itself); `side_effects.rt` is V8. `sets.rt` serves them.
#![tactic(auto)]

pub mod acts;
pub mod allowance;
pub mod areas;
pub mod asked_areas;
pub mod asked_calls;
pub mod breach;
pub mod callers;
pub mod calls;
pub mod child_effects;
pub mod clash;
pub mod clash_ways;
pub mod classes;
pub mod closure;
pub mod common;
pub mod edges;
pub mod effects;
pub mod facts;
pub mod halving;
pub mod inside;
pub mod linked;
pub mod outflow;
pub mod own;
pub mod pass_context;
pub mod passed;
pub mod places;
pub mod sets;
pub mod side_effects;
pub mod trails;
pub mod variables;
pub mod walks;
pub mod ways;
pub mod windows;
