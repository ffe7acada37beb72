//! Taking the turn and giving it back.
ghost use Rattle.std.specs.Prelude.{◌≡◌, ◌-◌, ◌+◌, ◌<◌, ◌≤◌, true, false, Some, None, [], ◌∷◌, ◌++◌, length};
ghost use Rattle.std.specs.Vec.{vec_capacity};
ghost use Rattle.sp_room.specs.RoomRule.{holder, view_after_note, view_after_last_note, view_after_return, HoldsSlot};
ghost use Rattle.sp_room.specs.RoomRule.{IsIdleSeat};
ghost use Rattle.sp_room.specs.History.{LeadsTo};

use crate::kept::Kept;
use crate::law::{GiveBack, Raise, RaiseLast, Take};
use crate::room_slot::RoomSlot;
use crate::seat::Room;
use crate::view::View;
use crate::wait_counts::{low_bits, pause};
use atomic_table::Seat;
use std::sync::Wait;

/// The word that says whose turn it is.
const TURN: usize = 0;

/// The word that counts the history.
const COUNT: usize = 1;

/// How often a seat looks whether the turn comes free before it sleeps, and how long it lets the processor pause
/// between two looks.
const TRIES: u32 = 20;

const BETWEEN: u32 = 2;

// Waits until the turn is free, and takes what lies in the slot. Who loses a try looks for a moment whether the turn
// comes free, and then sleeps until a turn is given back.
pub(crate) fn take_turn<K: Kept, R: Wait>(
    rt: &R,
    room: &Room<K>,
    seat: &mut Seat<Option<Box<RoomSlot<K, K::Note>>>, View<K, K::Note>>,
    number: u32,
) -> Box<RoomSlot<K, K::Note>>
    requires room { seat.old.table_id ≡ room.now.table.shared.table_id }
    requires idle { IsIdleSeat seat.old.me × (number ≡ seat.old.me.0.number) }
    ensures same { (seat.new.table_id ≡ seat.old.table_id) × (seat.new.id ≡ seat.old.id) }
    ensures acquired { (seat.new.me ≡ (
      holder seat.old.me.0 result.value.notes.items result.value.reserved,
      (0, None) ∷ [],
    )) × HoldsSlot K.opens K.steps K.author seat.old.me.0 result }
{
    let shared = &room.table.shared;
    let mine = number as u64 + 1;
    for _ in rt.forever() {
        let found = shared.compare_exchange::<Take<K>>(seat, TURN, 0, mine);
        if found == 0 {
            let Some(slot) = shared.exchange(seat, 0, None) else {
                unreachable!()
            };
            return slot;
        }
        if !comes_free(room) {
            room.wait_counts.start_waiting();
            shared.park(rt, TURN, low_bits(found));
            room.wait_counts.stop_waiting();
        }
    }
    unreachable!()
}

// Whether the turn comes free in a moment.
fn comes_free<K: Kept>(room: &Room<K>) -> bool {
    for _ in 0..TRIES {
        pause(BETWEEN);
        if room.table.shared.peek(TURN) == 0 {
            return true;
        }
    }
    false
}

// Wakes a seat that sleeps until the turn is free, if there is one.
//
// The turn is free before it looks, and who sleeps is counted before it finds the turn taken: so one of the two sees
// the other.
fn wake_next<K: Kept>(room: &Room<K>) {
    if room.wait_counts.has_waiting() {
        room.table.shared.wake_one(TURN);
    }
}

// Lays the slot's content back as it was found, and gives the turn back.
pub(crate) fn give_back<K: Kept>(
    room: &Room<K>,
    seat: &mut Seat<Option<Box<RoomSlot<K, K::Note>>>, View<K, K::Note>>,
    slot: Box<RoomSlot<K, K::Note>>,
) -> u64
    requires room { seat.old.table_id ≡ room.now.table.shared.table_id }
    requires holds { (seat.old.me ≡ (seat.old.me.0, (0, None) ∷ [])) × (seat.old.me.0.holding ≡ true)
        × (seat.old.me.0.spent ≡ false) }
    requires slot { (slot.value.notes.items ≡ seat.old.me.0.seen)
        × LeadsTo K.steps room.now.table.shared.key.value seat.old.me.0.seen slot.value.object
        × (slot.value.reserved ≡ seat.old.me.0.reserve)
        × (length seat.old.me.0.seen + slot.value.reserved ≤ vec_capacity slot.value.notes) }
    ensures same { (seat.new.table_id ≡ seat.old.table_id) × (seat.new.id ≡ seat.old.id) }
    ensures free { seat.new.me ≡ (view_after_return seat.old.me.0, []) }
    ensures count { result ≡ length seat.new.me.0.seen }
{
    let shared = &room.table.shared;
    let count = slot.notes.len() as u64;
    let empty = shared.exchange(seat, 0, Some(slot));
    let None = empty else { unreachable!() };
    shared.store::<GiveBack>(seat, TURN, 0);
    wake_next(room);
    count
}

// Lays the slot's content back with one note more, counts it, and gives the turn back.
pub(crate) fn give_on<K: Kept>(
    room: &Room<K>,
    seat: &mut Seat<Option<Box<RoomSlot<K, K::Note>>>, View<K, K::Note>>,
    slot: Box<RoomSlot<K, K::Note>>,
    note: K::Note,
) -> u64
    requires room { seat.old.table_id ≡ room.now.table.shared.table_id }
    requires holds { (seat.old.me ≡ (seat.old.me.0, (0, None) ∷ [])) × (seat.old.me.0.holding ≡ true)
        × (seat.old.me.0.spent ≡ false) }
    requires note { K.author note ≡ seat.old.me.0.number }
    requires slot { (slot.value.notes.items ≡ seat.old.me.0.seen ++ note ∷ [])
        × LeadsTo K.steps room.now.table.shared.key.value (seat.old.me.0.seen ++ note ∷ []) slot.value.object
        × (slot.value.reserved ≡ seat.old.me.0.reserve)
        × (length slot.value.notes.items + slot.value.reserved ≤ vec_capacity slot.value.notes) }
    ensures same { (seat.new.table_id ≡ seat.old.table_id) × (seat.new.id ≡ seat.old.id) }
    ensures free { seat.new.me ≡ (view_after_return (view_after_note seat.old.me.0 (note ∷ [])), []) }
    ensures count { result ≡ length seat.new.me.0.seen }
{
    let shared = &room.table.shared;
    let count = slot.notes.len() as u64;
    room.wait_counts.set_left(slot.object.left());
    let empty = shared.exchange(seat, 0, Some(slot));
    let None = empty else { unreachable!() };
    shared.fetch_add::<Raise>(seat, COUNT, 1);
    shared.store::<GiveBack>(seat, TURN, 0);
    wake_next(room);
    room.wait_counts.wake_resting();
    count
}

// Lays the slot's content back with a note of the reserve, counts it, and gives the turn back.
pub(crate) fn give_last<K: Kept>(
    room: &Room<K>,
    seat: &mut Seat<Option<Box<RoomSlot<K, K::Note>>>, View<K, K::Note>>,
    slot: Box<RoomSlot<K, K::Note>>,
    note: K::Note,
) -> u64
    requires room { seat.old.table_id ≡ room.now.table.shared.table_id }
    requires holds { (seat.old.me ≡ (seat.old.me.0, (0, None) ∷ [])) × (seat.old.me.0.holding ≡ true)
        × (seat.old.me.0.spent ≡ false) }
    requires claim { 0 < seat.old.me.0.claims }
    requires note { K.author note ≡ seat.old.me.0.number }
    requires slot { (slot.value.notes.items ≡ seat.old.me.0.seen ++ note ∷ [])
        × LeadsTo K.steps room.now.table.shared.key.value (seat.old.me.0.seen ++ note ∷ []) slot.value.object
        × (slot.value.reserved ≡ seat.old.me.0.reserve - 1)
        × (length slot.value.notes.items + slot.value.reserved ≤ vec_capacity slot.value.notes) }
    ensures same { (seat.new.table_id ≡ seat.old.table_id) × (seat.new.id ≡ seat.old.id) }
    ensures free { seat.new.me ≡ (view_after_return (view_after_last_note seat.old.me.0 (note ∷ [])), []) }
    ensures count { result ≡ length seat.new.me.0.seen }
{
    let shared = &room.table.shared;
    let count = slot.notes.len() as u64;
    room.wait_counts.set_left(slot.object.left());
    let empty = shared.exchange(seat, 0, Some(slot));
    let None = empty else { unreachable!() };
    shared.fetch_add::<RaiseLast>(seat, COUNT, 1);
    shared.store::<GiveBack>(seat, TURN, 0);
    wake_next(room);
    room.wait_counts.wake_resting();
    count
}

/// How many notes the history has.
pub(crate) fn count_of<K: Kept>(room: &Room<K>) -> u64 {
    room.table.shared.peek(COUNT)
}
