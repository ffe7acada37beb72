//! The rule of a room's table, and what each step of a seat tells.
use crate::kept::Kept;
use crate::room_slot::RoomSlot;
use crate::view::View;
use atomic_table::{Join, Play, Split, TableRule};
use std::marker::PhantomData;
use std::snapshot::Snapshot;

/// What holds between any two steps.
pub struct Law<K> {
    of: PhantomData<K>,
}

impl<K: Kept> TableRule<Option<Box<RoomSlot<K, K::Note>>>, View<K, K::Note>, Snapshot<K>>
    for Law<K> {
    ghost use Rattle.sp_room.specs.RoomRule.{RoomRule, first_view};

    ghost holds = { λ key. RoomRule K.opens K.steps K.author key.value };

    ghost first = { λ key. first_view key.value };
}

/// Takes the turn, where it is free.
pub struct Take<K> {
    of: PhantomData<K>,
}

impl<K: Kept> Play<Option<Box<RoomSlot<K, K::Note>>>, View<K, K::Note>> for Take<K> {
    ghost use Rattle.sp_room.specs.RoomRule.{Acquires};

    ghost then = { Acquires K.opens K.steps K.author };
}

/// Counts a note.
pub struct Raise;

impl<O, N> Play<Option<Box<RoomSlot<O, N>>>, View<O, N>> for Raise {
    ghost use Rattle.sp_room.specs.RoomRule.{Raised};

    ghost then = { Raised };
}

/// Counts a note of the reserve.
pub struct RaiseLast;

impl<O, N> Play<Option<Box<RoomSlot<O, N>>>, View<O, N>> for RaiseLast {
    ghost use Rattle.sp_room.specs.RoomRule.{RaisedLast};

    ghost then = { RaisedLast };
}

/// Gives the turn back.
pub struct GiveBack;

impl<O, N> Play<Option<Box<RoomSlot<O, N>>>, View<O, N>> for GiveBack {
    ghost use Rattle.sp_room.specs.RoomRule.{Returned};

    ghost then = { Returned };
}

/// Makes the next seat.
pub struct MakeSeat;

impl<O, N> Split<View<O, N>> for MakeSeat {
    ghost use Rattle.sp_room.specs.RoomRule.{view_after_making, newcomer};

    ghost left = { view_after_making };

    ghost right = { newcomer };
}

/// Takes in the seat before, at the end.
pub struct TakeIn;

impl<O, N> Join<View<O, N>> for TakeIn {
    ghost use Rattle.sp_room.specs.RoomRule.{view_after_joining, spent_view};

    ghost both = { view_after_joining };

    ghost spent = { spent_view };
}
