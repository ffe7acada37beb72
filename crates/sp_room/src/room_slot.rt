//! What lies in the room's slot, the object with the notes of its history, and the asking of the object.
ghost use Rattle.std.specs.Prelude.{◌≡◌, ◌+◌, ◌-◌, ◌<◌, ◌≤◌, true, false, Some, [], ◌∷◌, ◌++◌, length, IfOk, IfErr};
ghost use Rattle.std.specs.Vec.{vec_capacity};
ghost use Rattle.sp_room.specs.History.{note_list};

use crate::kept::{Kept, Served};

/// The object, and the notes of its history.
#[derive(Drop)]
pub struct RoomSlot<O, N> {
    pub object: O,
    pub notes: Vec<N>,
    /// How many notes have their place kept free.
    pub reserved: u64,
}

// Puts a last ask to the object. Its note goes into the reserve.
pub(crate) fn put_last<K: Kept>(
    slot: &mut RoomSlot<K, K::Note>,
    worker: u32,
    ask: K::Ask,
) -> (K::Got, K::Note)
    requires serves { K.can_serve slot.old.object worker ask }
    requires last { K.final_ask ask ≡ true }
    requires reserve { (0 < slot.old.reserved)
        × (length slot.old.notes.items + slot.old.reserved ≤ vec_capacity slot.old.notes) }
    ensures step { K.steps slot.old.object worker ask slot.new.object result.0 (Some result.1) }
    ensures notes { slot.new.notes.items ≡ slot.old.notes.items ++ result.1 ∷ [] }
    ensures reserve { (slot.new.reserved ≡ slot.old.reserved - 1)
        × (length slot.new.notes.items + slot.new.reserved ≤ vec_capacity slot.new.notes) }
{
    let Served { got, note } = slot.object.serve(worker, ask);
    let Some(note) = note else { unreachable!() };
    slot.reserved -= 1;
    slot.notes.push_reserved(note);
    (got, note)
}

// Puts another ask to the object, where there is memory for a note beside the reserve.
pub(crate) fn put<K: Kept>(
    slot: &mut RoomSlot<K, K::Note>,
    worker: u32,
    ask: K::Ask,
) -> Result<Served<K::Got, K::Note>, K::Got>
    requires serves { K.can_serve slot.old.object worker ask }
    requires other { K.final_ask ask ≡ false }
    requires reserve { length slot.old.notes.items + slot.old.reserved ≤ vec_capacity slot.old.notes }
    ensures ok { IfOk result (λ s. K.steps slot.old.object worker ask slot.new.object s.got s.note
        × (slot.new.notes.items ≡ slot.old.notes.items ++ note_list s.note)) }
    ensures err { IfErr result (λ g. K.refused ask g × (slot.new.object ≡ slot.old.object)
        × (slot.new.notes.items ≡ slot.old.notes.items)) }
    ensures reserve { (slot.new.reserved ≡ slot.old.reserved)
        × (length slot.new.notes.items + slot.new.reserved ≤ vec_capacity slot.new.notes) }
{
    let more = slot.reserved as usize + 1;
    if slot.notes.reserve(more).is_err() {
        return Err(K::refuse(ask));
    }
    let served = slot.object.serve(worker, ask);
    if let Some(note) = served.note {
        slot.notes.push_reserved(note);
    }
    Ok(served)
}
