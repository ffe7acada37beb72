//! A lock with one legal history: whatever the threads do, the calls of the object (`Kept`) stand in one order, and
//! each seat knows a beginning of it, with its own notes in it once and in order.
//!
//! Calls:
//! - `Room::new`: a room over the object with an empty history, and its seats, from 1 to 64, numbered from 0 in their
//!   order; want of memory gives the object back.
//! - `RoomSeat::serve`: one call of the object, after a legal history that begins with all that the seat had seen; its
//!   note, if it leaves one, is next and the seat's own. Or `refuse`, for want of memory, but never of a last ask.
//! - `RoomSeat::number`: the seat's number, from 0, which is that of its worker.
//! - `RoomSeat::rest`: waits until something may be left to take. Its contract promises nothing.
//! - `Room::close`: of all seats in their order: the history is legal and leads to the object; each seat's own notes
//!   are its notes in it, what each has seen is a beginning of it, and it has no other notes.
//! - `Settled::object`, `into_object`, `notes`: the object after the whole history, and the history. `Room::close`
//!   alone makes one.
//! - `Kept`: what an object gives: the calls `serve`, `refuse`, `last`, `left` and `by`, the relation `steps`, and six
//!   laws. `Served`: an answer, and the note of what changed.
//!
//! To know:
//! - `seat.rt` is the room and a seat, `room.rt` has the calls, `turn.rt` takes the turn and gives it back,
//!   `room_slot.rt` asks the object, `seats.rt` and `ending.rt` make and take in the seats, `law.rt` names the steps,
//!   `view.rt` is what a seat knows.
//! - `wait_counts.rt` counts beside the table who sleeps and who looks for something to take, and wakes by that;
//!   `rest.rt` is what a seat does that found nothing. No clause speaks of them.
//! - `specs/Seats.antt`, `Ends.antt` and `History.antt` are the words of the contracts, `specs/RoomRule.antt` is the
//!   rule of the table.
//! - Beside the own notes `close` says that what each seat has seen is a beginning of the whole history: so what a
//!   worker was told at its last call can be carried to the end.
//! - While seats are still to be made, the one that was made last keeps the claims of those that are not there. So the
//!   condition "no last ask before" is `0 < claims_of_seat`, which `Room::new` gives and which any other ask keeps.
//! - Turns count a refused ask too. The turn is taken before memory is asked for, so a seat has given back one turn
//!   more whatever the answer is. That a refused ask left the object and the history as they were is said as far as one
//!   seat can know it: its own notes are the same, and what it has seen is legal.
//! - That a turn has seen the whole history of its moment is a part of the rule (`holds` of `SeatKnows`): no clause of
//!   a call can name that moment. What the call says is that its history is legal, begins with all that was seen, and
//!   has every note of the seat.
//! - `refuse` gives back all that the ask held: that is the law `regained`, by which the ask can be told from the
//!   answer. That a last ask takes no memory of the object cannot be said in a contract; that its note goes into the
//!   reserve can.
//! - Who finds the turn taken looks for about two microseconds whether it comes free, and then sleeps on word 0; giving
//!   the turn back wakes one such sleeper, if there is one. Who rests sleeps on the count of wakes. No clause says that
//!   a wake arrives; why one does is told in `docs/DECISIONS.md`.
//! - What a note wakes: as many of those that rest as there is more `left` to take than seats that are about to take,
//!   which are those that look, those that a note has woken and that are not awake yet, and those that wait for the
//!   turn. Where nobody rests and nobody waits, `serve` makes no system call.
//! - A seat with nothing in hand takes only what stays a while: it looks for one or two microseconds (`PAUSES` of
//!   `rest.rt`) whether a note comes, and goes to take only where none did. So two processes that exchange messages
//!   stay with one seat. While notes come it dozes for a tenth of a millisecond between looks, still counted as one
//!   that looks; where none come it rests.
//! - `Room<K>` and `Settled<K>` are `Drop` where `K` is. An object should derive `Drop`; else each path has to `close`
//!   the room and take the object out.
//! - A function that is generic in the object starts no threads over seats: the toolchain has no proof for a thread's
//!   closure whose types have a bound's ghost members. At a concrete object it has.
//! - `Send` and `Sync` of the room and its seats are found by the toolchain wherever the object is `Send`; the test
//!   with two threads shows it.
//! - A room's table (`atomic_table`) has two words and a slot. Word 0 is the turn: 0 where it is free, else one more
//!   than the number of the seat that has it. Word 1 counts the history. The slot has the object with its notes, and is
//!   at home exactly where the turn is free. Each step of a seat is one of eight; after it the seat knows this:
//!   - The first seat is made (both words are 0): it has number 0, nothing seen, no notes, no turns.
//!   - A seat is made (word 0 is read): the new seat has the next number, and else is as a first one.
//!   - A seat is taken in, at the end (word 0 is read): the seat that stays knows the other's own notes and what it had
//!     seen, beside its own; the other is spent.
//!   - The turn is taken (word 0, compare and exchange): it holds the turn, and has seen the whole history.
//!   - The turn is not free (word 0, compare and exchange): the same as before.
//!   - The value of the slot that it holds is exchanged (no word): the same as before.
//!   - A note is counted (word 1, add): the note is seen, and is its own.
//!   - The turn is given back (word 0, store): it holds no turn, and has given one more back.
//!
//! Lemmas for others, in `proofs`:
//! - `Histories`: lists of notes that begin with others, and the claims of a list of views.
//! - `Places`: a seat stays where it is, whatever it does: what a caller needs of a seat that moved.
//!
//! To change:
//! - What a step does: `specs/RoomRule.antt` and the lemma of that step in `proofs/RoomKeeps.antt` (turn) or
//!   `proofs/SeatsKeep.antt` (seats).
//! - What an object owes: `src/kept.rt`.
//! - Whom a note wakes: `wake` of `src/wait_counts.rt`, and what the object says of `left`.
//! - How long a seat looks: the constants of `src/rest.rt` and `src/turn.rt`; measure with `tests/speed`.
#![tactic(auto)]

mod ending;
mod kept;
mod law;
mod rest;
mod room;
mod room_slot;
mod seat;
mod seats;
mod settled;
mod turn;
mod view;
mod wait_counts;

pub use kept::{Kept, Served};
pub use seat::{Room, RoomSeat};
pub use settled::Settled;
