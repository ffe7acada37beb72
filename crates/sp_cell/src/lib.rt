//! Cells, the pieces that they form, and the plain map that a store is seen as, with what frames, forks and joins do
//! to it.
//!
//! Calls:
//! - `Piece`: the cells of one variable, which contracts see as a list. `new` has undefined cells alone; `read`,
//!   `write` and `copy_range` are of cells inside it, and leave the others; `len`, `cells`, `duplicate`.
//! - Types: `Cell`; `Spot` (a variable of a frame), `Address` (a cell of one), `Handing` (what one child gets at a
//!   fork).
//!
//! To know:
//! - A variable is named by a frame of the run and a number in it. Each store numbers its frames itself, and a child
//!   numbers the frame of its index without regard to frames of its parent that it does not know; so *held* speaks of
//!   what the numbers mean (`View`), never of the numbers.
//! - The definitions stand in `specs/Map.antt` (the map), `Frame.antt` (push and pop), `Fork.antt` (split and join)
//!   and `Holders.antt` (all stores of a run side by side). The laws over them, which have no representation in view,
//!   stand in `proofs/`: `Laws`, `FrameLaws`, `HeldLaws`, `Partition`, `Plan`, `Sorting`, `Steps`.
//!
//! Lemmas for others, in `proofs`:
//! - `FrameLaws`: laws of frame numbers, and of frames pushed and popped.
//! - `HeldLaws`: a fork and a join keep the partition of all variables.
//! - `Laws`: laws of the map of a store: what is found after an insert, and when two maps are one.
//! - `Order`: the order of spots is total, and only equal spots tie: what a map by spots rests on.
//! - `Partition`: what a fork leaves to whom, and that its joins give the map back.
//! - `Plan`: whole plans: what the children get, one after another, and that no two of them get one spot.
//! - `Sorting`: in which order a fork takes spots makes no difference.
//! - `Steps`: one more spot of a fork or a join, as a loop takes it.
//!
//! To change:
//! - What a store means: `specs/Map.antt`, `specs/Frame.antt`, `specs/Fork.antt`.
//! - What all stores of a run keep: `specs/Holders.antt`.
#![tactic(auto)]

mod cell;
mod piece;
mod spot;

pub use cell::Cell;
pub use piece::Piece;
pub use spot::{Address, Handing, Spot};
