//! The moving of entries from one store to another.

ghost use Rattle.std.specs.Prelude.{◌≡◌};
ghost use Rattle.sp_cell.specs.Fork.{with_contents, with_away};
ghost use Rattle.sp_cell.specs.Spots.{DistinctByIndex};
ghost use Rattle.sp_store.specs.Layout.{AllKnown};

use crate::entry::Entry;
use crate::slots::Slots;
use sp_cell::Spot;
use std::mem;

/// Moves what stands at the spots from one place to another.
pub(crate) fn hand(from: &mut Slots, to: &mut Slots, spots: &[Spot])
    requires distinct { DistinctByIndex spots.now }
    requires known { AllKnown from.old spots.now }
    requires room { AllKnown to.old spots.now }
    ensures to { to.new ≡ with_contents from.old spots.now to.old }
    ensures from { from.new ≡ with_away from.old spots.now }
{
    for spot in spots {
        let entry = mem::replace(from.entry_mut(*spot), Entry::Away);
        *to.entry_mut(*spot) = entry;
    }
}
