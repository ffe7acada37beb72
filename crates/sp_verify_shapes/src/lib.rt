//! Rules V2 to V5 of code files, by passes over the code: each finds the least instruction at which something is
//! broken. They find which shapes of operands each instruction is reached with.
//!
//! Calls:
//! - `shapes_of` (`shapes`): of code that keeps V1, the least instruction at which V2 is broken, or, where it is broken
//!   nowhere, exactly the shapes that each instruction is reached with (`AreShapes`).
//! - `first_passing` (`cells`): by these shapes, the least instruction at which V3 is broken; none where it is broken
//!   nowhere.
//! - `first_length` (`messages`), `first_unfit` (`calls`): the same for V4 and V5.
//! - `reached`: the number of the shapes that an instruction is reached with.
//! - `repeats_of` (`repeats`): of each instruction, whether it is a call that repeats an earlier one (`AreRepeats`):
//!   what is said of that one is said of it. `called_block`: the block that an instruction calls.
//! - `Stacks::new`, `push`, `top` (`stacks`): lists of shapes by their numbers. `push` answers want of memory at 2^32
//!   lists too.
//!
//! To know:
//! - The types are `Shapes` and `Outcome` (`shapes`), `Shape` and `Stacks` (`stacks`), `Ask` (`asks`), `Plan`
//!   (`plans`), `Step` and `Arrival` (`steps`), `Search` (`search`), `Message` (`messages`), `Memo` (`memo`),
//!   `Names` (`names`), `Seen` (`seen`).
//! - Each answer is exact. The only other one is want of memory.
//! - Where V2 is kept, all ways bring the same shapes to an instruction: so `Shapes` has one list for each.
//! - `stacks.rt` keeps each list of shapes once. `plans.rt` has what each instruction takes, leaves and goes on to, in
//!   a few forms (`specs/Plans.antt`, `proofs/Forms.antt`).
//! - `operands.rt` and `steps.rt` are one step by these forms, `begin.rt` is where ways begin, `search.rt` follows all
//!   ways level by level (`specs/Search.antt` says what is kept meanwhile), `shapes.rt` is V2.
//! - `cells.rt`, `messages.rt` and `calls.rt` are V3, V4 and V5. `repeats.rt` spares V5, and what stands above it, the
//!   operands of calls that say nothing new. `stacks.rt` has jumps, by which `operands.rt` takes many operands at once.
//! - Each jump keeps a formal that all of its operands fit. `asks.rt` keeps, for parts of the formals of each block, a
//!   formal such that what fits it fits them all. So V5 compares many operands with many formals at once. `memo.rt`
//!   keeps what was seen to fit: calls of one block with lists that end alike are compared down to there. Lists whose
//!   jumps pass alike shapes have one name (`names.rt`), so operands that come again at another height are known too
//!   (`seen.rt`).
//!
//! Lemmas for others, in `proofs`:
//! - `ReachLaws`: the table of shapes has, at each instruction, the shapes that ways bring there.
//! - `CallRepeats`: a call that repeats an earlier one fails a test where that one does.
#![tactic(auto)]

pub mod asks;
pub mod begin;
pub mod calls;
pub mod cells;
pub mod have;
pub mod memo;
pub mod messages;
pub mod names;
pub mod operands;
pub mod plans;
pub mod reach;
pub mod repeats;
pub mod search;
pub mod seen;
pub mod shapes;
pub mod stacks;
pub mod steps;
