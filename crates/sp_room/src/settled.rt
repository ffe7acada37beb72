//! What a room leaves once it is closed: the object and the history.
ghost use Rattle.std.specs.Prelude.{◌≡◌};

use crate::kept::Kept;
use sp_base::List;

/// The object of a room that was closed, and the notes of its history. `Room::close` alone makes one.
#[derive(Drop)]
pub struct Settled<K: Kept> {
    pub(crate) object: K,
    pub(crate) notes: List<K::Note>,
}

impl<K: Kept> Settled<K> {
    ghost use Rattle.sp_room.specs.Ends.{object_of, notes_of};

    /// The object after the whole history.
    pub fn object(&self) -> &K
        ensures { result.now ≡ object_of self.now }
    {
        &self.object
    }

    /// The history.
    pub fn notes(&self) -> &List<K::Note>
        ensures { result.now ≡ notes_of self.now }
    {
        &self.notes
    }

    /// The object after the whole history.
    pub fn into_object(self) -> K
        ensures { result ≡ object_of self }
    {
        let Settled { object, notes: _ } = self;
        object
    }
}
