//! The room, and a worker's seat in it.
ghost use Rattle.std.specs.Prelude.{◌≡◌, length};
ghost use Rattle.sp_room.specs.RoomRule.{IsIdleSeat};

use crate::kept::Kept;
use crate::law::Law;
use crate::room_slot::RoomSlot;
use crate::view::View;
use crate::wait_counts::WaitCounts;
use atomic_table::{Seat, Table};
use std::alloc::Global;
use std::snapshot::Snapshot;

/// A lock round an object, with the history of its calls. Threads share it by reference.
///
/// Word 0 of its table is the turn, word 1 counts the history, and the one slot has the object and its notes.
/// Whom a note wakes is told beside it.
#[derive(Drop)]
pub struct Room<K: Kept> {
    pub(crate) table: Table<
        Option<Box<RoomSlot<K, K::Note>>>,
        View<K, K::Note>,
        Snapshot<K>,
        Law<K>,
        Global,
    >,
    pub(crate) wait_counts: WaitCounts,
    ghost sized: { (table.shared.table_id.words ≡ 2) × (table.shared.table_id.slots ≡ 1) },
}

/// A worker's seat in a room. It knows the history up to its last turn, and its own notes in it.
#[derive(Drop)]
pub struct RoomSeat<K: Kept> {
    pub(crate) number: u32,
    pub(crate) seen: u64,
    pub(crate) seat: Seat<Option<Box<RoomSlot<K, K::Note>>>, View<K, K::Note>>,
    ghost numbered: { number ≡ seat.me.0.number },
    ghost counted: { seen ≡ length seat.me.0.seen },
    ghost idle: { IsIdleSeat seat.me },
}
