//! One process of the stack machine: its turns, and what a fork, a join and an answer do to it. The process runs any
//! code that is sound. The crate has the arithmetic of the language on ordinals too, and values as the input and the
//! output have them.
//!
//! Calls:
//! - `first_fits`: whether the frame of the program has no more cells than the limit. It is asked before `Proc::root`.
//! - `Proc::root`: process 0 of a run of code on an input, with the frame of the program, at its first instruction.
//! - `Proc::number`, `store`: its number in the run, and its variables.
//! - `Proc::next`, `at`: its next instruction, and the one at which its last turn ended. `frames`, `returns`: its live
//!   frames, and where its live calls return. `layout_of`, `referred`: the layout of a frame's block, and what a
//!   variable parameter of a frame stands for.
//! - `Proc::turn`: runs it to its next stop, or until it is due: exactly the turn that `sp_code` defines (`IsTurnOf`),
//!   of code that is ranked from there and a turn that lacks nothing (`CanTurn`).
//! - `Proc::enter`: at its entry in the journal, from which on its ticks count for the next pause.
//! - `Proc::resume`: gives it what it waits for (`Answer`).
//! - `Proc::split`: at a fork, exactly its children, with the numbers from `number` on; what moves to them is away from
//!   it, and what they share is shared. Where memory is refused, it is as before.
//! - `Proc::join`: takes back from a child that has ended what moved to it.
//!
//! Calls of arithmetic:
//! - `in_range`: the number where it is an integer of the language, else F2. `within`: the number where it is from
//!   `low` to `high`, else F1.
//! - `next_of`, `previous_of`: the number after one below `high`, or before one above `low`, else F1.
//! - `absolute_of`, `square_of`, `product`: the absolute value, the square, the product, or F2.
//! - `quotient`: truncated toward zero, or F2; F3 by 0. `modulus`: the remainder, from 0 to `n - 1`; F3 where `n` is
//!   not above 0.
//! - `odd`, `truth_of`: 1 for true, 0 for false.
//! - `unary`, `binary`: what an operator gives of one ordinal or of two, or the fault.
//!
//! Calls of items:
//! - `number_in`: an integer that stands first behind blanks, with its sign, and how many bytes were taken; F17
//!   without a digit, F18 where nothing is behind the blanks, F2 outside the integers.
//! - `char_in`: the next byte, a space for a line feed, and that one byte was taken; F18 where nothing is left.
//! - `line_length`, `is_at_line_end`: how many bytes the line has yet, with its line feed; whether nothing is left of
//!   it.
//! - `truth_text`: `false` for a number that is not above 0, else `true`. `byte_of`: the ordinal modulo 256, 0 to 255
//!   also of a negative one.
//! - `cut_to`: the text as far as the width goes, where it is to be cut, else all of it.
//! - `ReadResult`: what reading gives, a value and how many bytes it took, or a fault.
//!
//! To know:
//! - The types are `Proc`, `Answer`, `Stop` (why a turn ended), `State`, `Stack`, `Operand`, `Frames`, `Frame`, `Home`.
//! - `turn`, `root` and `split` require one layout for each block, `turn` also that frames have room for formals.
//! - `specs/Procs.antt` leads from memory to the definitions: `config_of` is a process as the definitions see it.
//! - Each instruction is a function of `State`, whose contract is `CameBy` of the definition's instruction. It answers
//!   by a small `Outcome`, and what a stop holds besides stands in the state, so that the many instructions that go
//!   on hand nothing about. How an instruction ends: `src/steps.rt`. `src/turn.rt` joins them to a turn, and
//!   `proofs/TurnSteps` leads from instructions to a turn.
//! - The instructions that loops are made of stand in the turn itself, and what they do seldom, as a fault, stands
//!   apart, so that the turn keeps nothing in memory between two instructions. A variable whose address is pushed and
//!   then loaded is pushed at once (`proceed`).
//! - A fork that asks for many variables notes once where all stand that the process sees (`src/seen.rt`), so that it
//!   takes no time for each pair of one that is asked for and one of a frame. For a few, each frame is searched.
//! - After want of memory nothing is said of a process but that it keeps its number and its input.
//! - Each call of arithmetic gives exactly what its definition in `sp_tree`'s `specs/Operators.antt` gives;
//!   `specs/OperatorResults.antt` leads from a result in memory to what is defined.
//! - All calls of items but `cut_to` give exactly what their definitions in `sp_tree`'s `specs/Items.antt` give;
//!   `specs/ReadResults.antt` leads from a `ReadResult` in memory to what is defined.
//!
//! To change:
//! - An instruction: its function, and `any_step` in `src/turn.rt`; `step` too, if programs make it often.
//! - The frames: `src/frames.rt`.
//! - An operator: `src/operators.rt`, and `sp_tree`'s `specs/Operators.antt`.
//! - An item: `src/items.rt`, and `sp_tree`'s `specs/Items.antt`.
#![tactic(auto)]

mod arithmetic;
mod calls;
mod children;
mod control;
mod first;
mod frames;
mod io;
mod items;
mod layouts;
mod operators;
mod proc;
mod seen;
mod send;
mod stack;
mod state;
mod steps;
mod stops;
mod turn;
mod variables;
mod views;

pub use first::first_fits;
pub use frames::{Frame, Frames, Home, referred};
pub use items::{
    ReadResult, byte_of, char_in, cut_to, is_at_line_end, line_length, number_in, truth_text,
};
pub use layouts::layout_of;
pub use operators::{
    absolute_of, binary, in_range, modulus, next_of, odd, previous_of, product, quotient,
    square_of, truth_of, unary, within,
};
pub use proc::{Answer, Proc};
pub use stack::{Operand, Stack};
pub use state::{State, Stop};
