//! The end of a room: one seat takes in all others, and what lies in the slot comes back.
ghost use Rattle.std.specs.Prelude.{◌≡◌, ℕ, ◌<◌, ◌≤◌, Some, [], length, slice_get};
ghost use Rattle.std.specs.Slots.{slots_len, slots_items, IsFull};
ghost use mathlib.Core.Option.{some};
ghost use lib.ListN.{get_elem?};
ghost use Rattle.sp_room.specs.Seats.{opening_of, own_of, seen_by, seat_table, IsSeatAt};
ghost use Rattle.sp_room.specs.History.{StartsWith, notes_by, LeadsTo};

use crate::kept::Kept;
use crate::law::TakeIn;
use crate::room_slot::RoomSlot;
use crate::seat::{Room, RoomSeat};
use atomic_table::Closed;
use std::alloc::Global;

// The last seat takes in the seat before it, again and again. The seats are all of the room's, in their order.
pub(crate) fn gather<K: Kept>(room: Room<K>, mut row: Vec<RoomSeat<K>>) -> Box<RoomSlot<K, K::Note>>
    requires some { 0 < length row.items }
    requires all { (k : ℕ) (t : _) → slice_get row.items k ≡ Some t → (seat_table t ≡ room.table.shared.table_id)
        × IsSeatAt (length row.items) k t }
    ensures legal { LeadsTo K.steps (opening_of room) result.value.notes.items result.value.object }
    ensures own { (k : ℕ) (t : _) → slice_get row.items k ≡ Some t
        → notes_by K.author k result.value.notes.items ≡ own_of t }
    ensures seen { (k : ℕ) (t : _) → slice_get row.items k ≡ Some t → StartsWith result.value.notes.items (seen_by t) }
    ensures others { (k : ℕ) → length row.items ≤ k → notes_by K.author k result.value.notes.items ≡ [] }
{
    let last = row.pop();
    let Some(last) = last else { unreachable!() };
    let RoomSeat {
        number: _,
        seen: _,
        seat: mut keeper,
    } = last;
    while let Some(next) = row.pop() {
        let RoomSeat {
            number: _,
            seen: _,
            seat,
        } = next;
        room.table.shared.join_seat::<TakeIn>(&mut keeper, seat);
    }
    let Room {
        table,
        wait_counts: _,
    } = room;
    let held = take_only(table.close_with(keeper));
    let Some(slot) = held else { unreachable!() };
    slot
}

// What lies in the one slot of a table that was closed.
fn take_only<T>(mut closed: Closed<Option<T>, Global>) -> Option<T>
    requires { (slots_len closed.slots ≡ 1) × IsFull closed.slots }
    ensures { get_elem? (slots_items closed.slots) 0 ≡ some result }
{
    let held = closed.take(0);
    closed.free();
    held
}
