//! A room's calls, from its making to its end.
ghost use Rattle.std.specs.Prelude.{◌≡◌, ℕ, ◌⊎◌, ◌+◌, ◌<◌, ◌≤◌, true, false, Some, List, [], ◌∷◌, length, slice_get};
ghost use Rattle.std.specs.Prelude.{IfOk, IfErr};
ghost use Rattle.sp_room.specs.Seats.{opening_of, number_of, seen_by, own_of, turns_of, claims_of_seat, seat_view};
ghost use Rattle.sp_room.specs.Seats.{IsSeatOf, IsNewSeat, IsSeatAt, SamePlace};
ghost use Rattle.sp_room.specs.Ends.{object_of, notes_of};
ghost use Rattle.sp_room.specs.RoomRule.{Called, Declined};
ghost use Rattle.sp_room.specs.History.{StartsWith, notes_by, LeadsTo};

use crate::ending::gather;
use crate::kept::{Kept, Served};
use crate::rest::rest_in;
use crate::room_slot::{RoomSlot, put, put_last};
use crate::seat::{Room, RoomSeat};
use crate::seats::make_seats;
use crate::settled::Settled;
use crate::turn::{give_back, give_last, give_on, take_turn};
use crate::wait_counts::WaitCounts;
use atomic_table::{Refused, Table};
use sp_base::List;
use std::alloc::{AllocFailed, Global};
use std::snapshot::Snapshot;
use std::sync::Wait;

/// How many notes have their place kept free when a room is made: one for each seat that it may have.
const RESERVE: u64 = 64;

impl<K: Kept> Room<K> {
    /// A room with an empty history, and its seats, numbered from 0 in their order.
    ///
    /// `seats` is from 1 to 64. The error is want of memory alone, and gives the object back.
    pub fn new(alloc: Global, object: K, seats: u32) -> Result<(Room<K>, List<RoomSeat<K>>), K>
        requires seats { (0 < seats) × (seats ≤ 64) }
        requires opens { K.opens object }
        ensures opening { IfOk result (λ r. opening_of r.0 ≡ object) }
        ensures count { IfOk result (λ r. length r.1 ≡ seats) }
        ensures seats { IfOk result (λ r. (k : ℕ) (t : _) → slice_get r.1 k ≡ Some t → IsSeatOf r.0 t
            × IsNewSeat seats k t) }
        ensures err { IfErr result (λ x. x ≡ object) }
    {
        let about = Snapshot::of(&object);
        let wait_counts = WaitCounts::new(object.left());
        let Ok(row) = Vec::with_capacity(alloc, seats as usize) else {
            return Err(object);
        };
        let Ok(notes) = Vec::with_capacity(alloc, RESERVE as usize) else {
            return Err(object);
        };
        let slot = RoomSlot {
            object,
            notes,
            reserved: RESERVE,
        };
        let slot = match Box::new(alloc, slot) {
            Ok(slot) => slot,
            Err(AllocFailed { value }) => return Err(object_off(value)),
        };
        let Ok(mut slots) = Vec::with_capacity(alloc, 1) else {
            return Err(object_off(Box::into_inner(slot)));
        };
        slots.push_reserved(Some(slot));
        match Table::new(alloc, &[0, 0], slots, &about) {
            Ok((table, first)) => {
                let room = Room { table, wait_counts };
                let row = make_seats(&room, first, row, seats);
                Ok((room, List::of(row)))
            }
            Err(refused) => Err(taken_back(refused)),
        }
    }

    /// Ends the room. The seats are all of its seats, in their order. The history has the notes of the seats, and no
    /// others.
    pub fn close(self, seats: List<RoomSeat<K>>) -> Settled<K>
        requires some { 0 < length seats }
        requires seats { (k : ℕ) (t : _) → slice_get seats k ≡ Some t → IsSeatOf self t × IsSeatAt (length seats) k t }
        ensures legal { LeadsTo K.steps (opening_of self) (notes_of result) (object_of result) }
        ensures own { (k : ℕ) (t : _) → slice_get seats k ≡ Some t → notes_by K.author k (notes_of result) ≡ own_of t }
        ensures seen { (k : ℕ) (t : _) → slice_get seats k ≡ Some t → StartsWith (notes_of result) (seen_by t) }
        ensures others { (k : ℕ) → length seats ≤ k → notes_by K.author k (notes_of result) ≡ [] }
    {
        let RoomSlot {
            object,
            notes,
            reserved: _,
        } = Box::into_inner(gather(self, seats.into_vec()));
        let notes = List::of(notes);
        Settled { object, notes }
    }
}

// The object of a table that was not made.
fn taken_back<K: Kept>(refused: Refused<Option<Box<RoomSlot<K, K::Note>>>, Global>) -> K
    requires { (d : _) × (refused.slots.items ≡ Some d ∷ []) }
    ensures { (d : _) → refused.slots.items ≡ Some d ∷ [] → result ≡ d.value.object }
{
    let Refused { mut slots } = refused;
    let held = slots.pop();
    slots.destroy_empty();
    let Some(held) = held else { unreachable!() };
    let Some(slot) = held else { unreachable!() };
    object_off(Box::into_inner(slot))
}

fn object_off<K: Kept>(slot: RoomSlot<K, K::Note>) -> K
    ensures { result ≡ slot.object }
{
    let RoomSlot {
        object,
        notes: _,
        reserved: _,
    } = slot;
    object
}

impl<K: Kept> RoomSeat<K> {
    /// The seat's number, from 0, which is that of its worker.
    pub fn number(&self) -> u32
        ensures { result ≡ number_of self.now }
    {
        self.number
    }

    /// Puts the ask to the object, when no other seat has the turn. The worker is the seat's number.
    ///
    /// One call of the object is made while the turn is held, and its note, if it leaves one, is the next of the
    /// history. Want of memory for the history gives `K::refuse(ask)` in place of that call. An ask that is the seat's
    /// last is never refused.
    pub fn serve<R: Wait>(&mut self, rt: &R, room: &Room<K>, ask: K::Ask) -> K::Got
        requires seat { IsSeatOf room.now self.old }
        requires last { K.final_ask ask ≡ true → 0 < claims_of_seat self.old }
        requires asks { K.may_ask (opening_of room.now) (number_of self.old) (seen_by self.old) (own_of self.old) ask }
        ensures place { SamePlace self.old self.new }
        ensures turns { turns_of self.new ≡ turns_of self.old + 1 }
        ensures seen { StartsWith (seen_by self.new) (seen_by self.old) }
        ensures own { notes_by K.author (number_of self.new) (seen_by self.new) ≡ own_of self.new }
        ensures call { Called K.steps (opening_of room.now) (seat_view self.old) ask result (seat_view self.new)
            ⊎ ((K.final_ask ask ≡ false) × Declined K.steps K.refused (opening_of room.now) (seat_view self.old) ask
            result (seat_view self.new)) }
        ensures reserve { K.final_ask ask ≡ false → claims_of_seat self.new ≡ claims_of_seat self.old }
    {
        if K::last(&ask) {
            let mut held = take_turn(rt, room, &mut self.seat, self.number);
            let (got, note) = put_last(&mut held, self.number, ask);
            self.seen = give_last(room, &mut self.seat, held, note);
            return got;
        }
        let mut slot = take_turn(rt, room, &mut self.seat, self.number);
        match put(&mut slot, self.number, ask) {
            Ok(Served { got, note }) => match note {
                Some(note) => {
                    self.seen = give_on(room, &mut self.seat, slot, note);
                    got
                }
                None => {
                    self.seen = give_back(room, &mut self.seat, slot);
                    got
                }
            },
            Err(got) => {
                self.seen = give_back(room, &mut self.seat, slot);
                got
            }
        }
    }

    /// Returns once the object has something left to take that no other seat comes for at once, or for no reason.
    /// Before that it looks a few times, then it dozes while notes come, and sleeps while none do. It changes nothing.
    pub fn rest<R: Wait>(&self, rt: &R, room: &Room<K>)
        requires seat { IsSeatOf room.now self.now }
    {
        rest_in(rt, room);
    }
}
