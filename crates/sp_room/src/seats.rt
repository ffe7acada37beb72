//! The making of a room's seats.
ghost use Rattle.std.specs.Prelude.{◌≡◌, ℕ, ◌+◌, ◌<◌, ◌≤◌, Some, [], length, slice_get};
ghost use Rattle.std.specs.Vec.{vec_capacity};
ghost use Rattle.sp_room.specs.Seats.{seat_view, seat_table};
ghost use Rattle.sp_room.specs.RoomRule.{newborn};

use crate::kept::Kept;
use crate::law::MakeSeat;
use crate::room_slot::RoomSlot;
use crate::seat::{Room, RoomSeat};
use crate::view::View;
use atomic_table::Seat;

// Makes the seats of a room, the first of which is there.
pub(crate) fn make_seats<K: Kept>(
    room: &Room<K>,
    first: Seat<Option<Box<RoomSlot<K, K::Note>>>, View<K, K::Note>>,
    mut row: Vec<RoomSeat<K>>,
    seats: u32,
) -> Vec<RoomSeat<K>>
    requires first { (first.table_id ≡ room.now.table.shared.table_id)
        × (first.me ≡ (newborn room.now.table.shared.key.value 0 1 64, [])) }
    requires row { (row.items ≡ []) × (0 < seats) × (seats ≤ 64) × (seats ≤ vec_capacity row) }
    ensures count { length result.items ≡ seats }
    ensures each { (k : ℕ) (t : _) → slice_get result.items k ≡ Some t → (seat_table t ≡ room.now.table.shared.table_id)
        × (seat_view t ≡ newborn room.now.table.shared.key.value k (seat_view t).seats_made (seat_view t).claims)
        × (0 < (seat_view t).claims) × (k + 1 ≡ seats → (seat_view t).seats_made ≡ seats) }
{
    let mut last = first;
    for number in 1..seats {
        let next = room.table.shared.split_seat::<MakeSeat>(&mut last);
        row.push_reserved(RoomSeat {
            number: number - 1,
            seen: 0,
            seat: last,
        });
        last = next;
    }
    row.push_reserved(RoomSeat {
        number: seats - 1,
        seen: 0,
        seat: last,
    });
    row
}
