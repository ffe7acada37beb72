//! A sum in a room: the smallest object that a room can keep, and the tests of `sp_room`.
//!
//! Calls:
//! - `add_many`: adds so many times at a seat, or until memory refuses an add; the seat stays in its place and keeps
//!   its claims. The sums that it collects are not promised.
//! - `add_and_leave`: one seat adds and then leaves, by its note in reserve. It promises nothing; a test looks at what
//!   it gives.
//! - `race`: two threads add, and then a third seat looks. It promises nothing; a test looks at the `Outcome`.
//! - `Sum`, `Ask`, `Got`, `Note`: the object, which implements `Kept`, its asks, its answers and its notes.
//!
//! To know:
//! - `src/tests.rt` has the tests of `sp_room`: two threads that add to one sum, and a seat that leaves after a refused
//!   add.
//!
//! To change:
//! - A law of `Kept`: `specs/SumObject.antt`.
#![tactic(auto)]

ghost use Rattle.std.specs.Prelude.{◌≡◌, ◌+◌, ◌<◌, Some, List, [], ◌∷◌, length};
ghost use Rattle.sp_room.specs.Seats.{IsSeatOf, SamePlace, claims_of_seat};

use sp_base::List;
use sp_room::{Kept, Room, RoomSeat, Served, Settled};
use std::alloc::Global;
use std::sync::Wait;
use std::thread::{Threads, join};

mod sum;
#[cfg(test)]
mod tests;

pub use sum::{Ask, Got, Note, Sum};

impl Kept for Sum {
    ghost use Rattle.sum_room.specs.SumObject.{SumSteps, is_leave, Returns, leave_notes, none_same, note_changes};
    ghost use Rattle.sum_room.specs.SumObject.{note_names};
    ghost use Rattle.sum_room.specs.SumObject.{ask_returns, never_full};

    type Ask = Ask;

    type Got = Got;

    type Note = Note;

    ghost opens = { λ x. x.value ≡ 0 };

    ghost steps = { SumSteps };

    ghost can_serve = { λ x w a. x.value + 1 < 18446744073709551616 };

    ghost may_ask = { λ x w seen own a. Unit {0} };

    ghost author = { λ n. n.worker };

    ghost refused = { Returns };

    ghost final_ask = { is_leave };

    fn serve(&mut self, worker: u32, ask: Ask) -> Served<Got, Note> {
        match ask {
            Ask::Add => {
                self.value += 1;
                Served {
                    got: Got::Sum(self.value),
                    note: Some(Note {
                        worker,
                        sum: self.value,
                    }),
                }
            }
            Ask::Leave => {
                self.value += 1;
                Served {
                    got: Got::Sum(self.value),
                    note: Some(Note {
                        worker,
                        sum: self.value,
                    }),
                }
            }
            Ask::Look => Served {
                got: Got::Sum(self.value),
                note: None,
            },
        }
    }

    fn refuse(ask: Ask) -> Got {
        Got::Refused(ask)
    }

    fn last(ask: &Ask) -> bool {
        matches!(ask, Ask::Leave)
    }

    // All may look at a new sum.
    fn left(&self) -> u64 {
        u64::MAX
    }

    fn by(note: &Note) -> u32 {
        note.worker
    }

    ghost unchanged = { none_same };

    ghost changed = { note_changes };

    ghost leaves = { leave_notes };

    ghost regained = { ask_returns };

    ghost named = { note_names };

    ghost lasting = { λ x w seen own a log y fine may starts by runs short. (tt, never_full x log y fine runs short) };
}

/// Adds this many times, and collects the sums that it got. An add that memory refuses ends it.
pub fn add_many<R: Wait>(
    rt: &R,
    room: &Room<Sum>,
    mut seat: RoomSeat<Sum>,
    mut sums: Vec<u64>,
    times: u32,
) -> (RoomSeat<Sum>, Vec<u64>)
    requires { IsSeatOf room.now seat }
    ensures place { SamePlace seat result.0 }
    ensures reserve { claims_of_seat result.0 ≡ claims_of_seat seat }
{
    for _ in 0..times {
        let Got::Sum(sum) = seat.serve(rt, room, Ask::Add) else {
            break;
        };
        let _ = sums.push(sum);
    }
    (seat, sums)
}

/// One seat adds this many times, or until memory refuses an add, and then leaves, by its note in reserve. None where
/// there was no memory for the room.
pub fn add_and_leave<R: Wait>(
    rt: &R,
    alloc: Global,
    times: u32,
) -> Option<(Vec<u64>, Settled<Sum>)> {
    let sums = Vec::with_capacity(alloc, times as usize).ok()?;
    let Ok((room, seats)) = Room::new(alloc, Sum { value: 0 }, 1) else {
        return None;
    };
    let (mut seat, sums) = add_many(rt, &room, only(seats), sums, times);
    seat.serve(rt, &room, Ask::Leave);
    let Ok(seats) = Vec::from_array(alloc, [seat]) else {
        return None;
    };
    Some((sums, room.close(List::of(seats))))
}

// The seat of a room with one.
fn only(seats: List<RoomSeat<Sum>>) -> RoomSeat<Sum>
    requires { length seats ≡ 1 }
    ensures { seats ≡ result ∷ [] }
{
    let mut row = seats.into_vec();
    let seat = row.pop();
    let Some(seat) = seat else { unreachable!() };
    seat
}

/// What two threads and a third seat saw of one sum, and what the room left.
#[derive(Drop)]
pub struct Outcome {
    /// The sums that the first thread got, in its order.
    pub first: Vec<u64>,
    /// The sums that the second thread got, in its order.
    pub second: Vec<u64>,
    /// What the third seat got, after both threads.
    pub seen: Got,
    pub settled: Settled<Sum>,
}

// The three seats of a room.
fn three(seats: List<RoomSeat<Sum>>) -> (RoomSeat<Sum>, RoomSeat<Sum>, RoomSeat<Sum>)
    requires { length seats ≡ 3 }
    ensures { seats ≡ result.0 ∷ result.1 ∷ result.2 ∷ [] }
{
    let mut row = seats.into_vec();
    let c = row.pop();
    let Some(c) = c else { unreachable!() };
    let b = row.pop();
    let Some(b) = b else { unreachable!() };
    let a = row.pop();
    let Some(a) = a else { unreachable!() };
    (a, b, c)
}

/// Two threads add this many times each, and then a third seat looks. None where there was no memory for the room.
pub fn race<R: Threads + Wait + Sync>(rt: &R, alloc: Global, times: u32) -> Option<Outcome> {
    let sums = Vec::with_capacity(alloc, times as usize).ok()?;
    let more = Vec::with_capacity(alloc, times as usize).ok()?;
    let Ok((room, seats)) = Room::new(alloc, Sum { value: 0 }, 3) else {
        return None;
    };
    let (a, b, mut c) = three(seats);
    let (one, two) = join(
        rt,
        || -> (RoomSeat<Sum>, Vec<u64>)
            requires { IsSeatOf room a }
            ensures { SamePlace a result.0 }
        { add_many(rt, &room, a, sums, times) },
        || -> (RoomSeat<Sum>, Vec<u64>)
            requires { IsSeatOf room b }
            ensures { SamePlace b result.0 }
        { add_many(rt, &room, b, more, times) },
    );
    let seen = c.serve(rt, &room, Ask::Look);
    let (a, first) = one;
    let (b, second) = two;
    let Ok(seats) = Vec::from_array(alloc, [a, b, c]) else {
        return None;
    };
    let settled = room.close(List::of(seats));
    Some(Outcome {
        first,
        second,
        seen,
        settled,
    })
}
