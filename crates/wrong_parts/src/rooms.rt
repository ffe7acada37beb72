//! A room round an object, and the calls of its seats.

ghost use Rattle.std.specs.Prelude.{◌≡◌, ℕ, ◌⊎◌, ◌+◌, ◌<◌, ◌≤◌, true, false, Some, length, slice_get, IfOk, IfErr};
ghost use Rattle.sp_room.specs.History.{StartsWith, notes_by};
ghost use Rattle.sp_room.specs.RoomRule.{Called, Declined};
ghost use Rattle.sp_room.specs.Seats.{opening_of, number_of, seen_by, own_of, turns_of, claims_of_seat, seat_view};
ghost use Rattle.sp_room.specs.Seats.{IsSeatOf, IsNewSeat, SamePlace};

use sp_base::List;
use sp_room::{Kept, Room, RoomSeat};
use std::alloc::Global;
use std::sync::Wait;

/// `Room::new`.
pub fn new_room<K: Kept + Drop>(
    alloc: Global,
    object: K,
    seats: u32,
) -> Result<(Room<K>, List<RoomSeat<K>>), K>
    requires seats { (0 < seats) × (seats ≤ 64) }
    requires opens { K.opens object }
    ensures opening { IfOk result (λ r. opening_of r.0 ≡ object) }
    ensures count { IfOk result (λ r. length r.1 ≡ seats) }
    ensures seats { IfOk result (λ r. (k : ℕ) (t : _) → slice_get r.1 k ≡ Some t → IsSeatOf r.0 t
        × IsNewSeat seats k t) }
    ensures err { IfErr result (λ x. x ≡ object) }
{
    let made = Room::new(alloc, object, seats);
    made
}

/// `RoomSeat::serve`.
pub fn serve<R: Wait, K: Kept>(
    seat: &mut RoomSeat<K>,
    rt: &R,
    room: &Room<K>,
    ask: K::Ask,
) -> K::Got
    requires seat { IsSeatOf room.now seat.old }
    requires last { K.final_ask ask ≡ true → 0 < claims_of_seat seat.old }
    requires asks { K.may_ask (opening_of room.now) (number_of seat.old) (seen_by seat.old) (own_of seat.old) ask }
    ensures place { SamePlace seat.old seat.new }
    ensures turns { turns_of seat.new ≡ turns_of seat.old + 1 }
    ensures seen { StartsWith (seen_by seat.new) (seen_by seat.old) }
    ensures own { notes_by K.author (number_of seat.new) (seen_by seat.new) ≡ own_of seat.new }
    ensures call { Called K.steps (opening_of room.now) (seat_view seat.old) ask result (seat_view seat.new)
        ⊎ ((K.final_ask ask ≡ false) × Declined K.steps K.refused (opening_of room.now) (seat_view seat.old) ask
        result (seat_view seat.new)) }
    ensures reserve { K.final_ask ask ≡ false → claims_of_seat seat.new ≡ claims_of_seat seat.old }
{
    let got = seat.serve(rt, room, ask);
    got
}
