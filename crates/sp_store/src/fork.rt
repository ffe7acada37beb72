//! What a fork makes ready before it changes anything.

ghost use Rattle.std.specs.Prelude.{◌≡◌, ◌+◌, ◌<◌, IfOk, OnOk, []};
ghost use Rattle.std.specs.List.Sorted.{IsPermutation};
ghost use Rattle.std.specs.FinMap as map;
ghost use Rattle.sp_cell.specs.Map.{Shared, IsPiece, cells_at};
ghost use Rattle.sp_cell.specs.Fork.{with_shared, with_away, IsLentAt, shared_of};
ghost use Rattle.sp_cell.specs.Spots.{PieceAtEach, In};
ghost use Rattle.sp_cell.specs.Frame.{least_above, frames};
ghost use Rattle.sp_store.specs.Layout.{content, IsLent, FramesBelow};

use crate::entry::Entry;
use crate::slots::Slots;
use crate::{entry, have};
use sp_base::Memory;
use sp_cell::{Handing, Spot};
use std::alloc::Global;

/// The least number above every frame.
#[tactic(auto, using(sp_cell::proofs::Steps::above_step))]
pub(crate) fn above_all(spots: &[Spot]) -> u64
    requires { FramesBelow spots.now 18446744073709551615 }
    ensures { result ≡ least_above (frames spots.now) }
{
    let mut least = 0;
    for spot in spots {
        if least <= spot.frame {
            least = spot.frame + 1;
        }
    }
    least
}

/// Whether no spot is below the one before it.
fn rises(spots: &[Spot]) -> bool {
    let mut last = Spot {
        frame: 0,
        variable: 0,
    };
    for spot in spots {
        if *spot < last {
            return false;
        }
        last = *spot;
    }
    true
}

/// The same spots in their order: as they are, or as a sorted copy that is put into `room`. Added so, each goes to the
/// end of slots; one that goes between others moves all that come after it.
fn in_order<'a>(spots: &'a [Spot], room: &'a mut Vec<Spot>) -> Result<&'a [Spot], Memory>
    requires { room.old.items ≡ [] }
    ensures { IfOk result (λ sorted. IsPermutation spots.now sorted.now) }
{
    if rises(spots) {
        return Ok(spots);
    }
    have!(room.extend_from_slice(spots));
    room.sort_unstable();
    Ok(room.as_slice())
}

/// Adds every spot, with nothing there yet, one after another.
#[tactic(auto, using(sp_cell::proofs::Steps::away_step))]
fn keep_each(slots: &mut Slots, spots: &[Spot]) -> Result<(), Memory>
    ensures { OnOk result (slots.new ≡ with_away slots.old spots.now) }
{
    for spot in spots {
        have!(slots.insert(*spot, Entry::Away));
    }
    Ok(())
}

/// Adds every spot, with nothing there yet.
#[tactic(auto, using(sp_cell::proofs::Sorting::away_permuted))]
pub(crate) fn keep_room(alloc: Global, slots: &mut Slots, spots: &[Spot]) -> Result<(), Memory>
    ensures { OnOk result (slots.new ≡ with_away slots.old spots.now) }
{
    let mut room = Vec::new(alloc);
    let sorted = have!(in_order(spots, &mut room));
    keep_each(slots, sorted)
}

/// One more holder of the cells at the spot. The first one copies the piece, which the parent goes on to own.
#[tactic(auto, using(sp_cell::proofs::Laws::insert_same, sp_cell::proofs::Laws::get_here))]
fn one_more(alloc: Global, from: &Slots, ready: &mut Slots, spot: Spot) -> Result<Entry, Memory>
    requires piece { IsPiece (map.get from.now spot) }
    requires lent { IsLentAt from.now ready.old spot }
    ensures entry { IfOk result (λ e. content e ≡ Shared (cells_at from.now spot)) }
    ensures ready { OnOk result (ready.new ≡ map.insert ready.old spot (Shared (cells_at from.now spot))) }
{
    match ready.find(spot) {
        Some(entry) => entry::share(alloc, entry),
        None => {
            let first = have!(entry::share(alloc, from.entry(spot)));
            have!(ready.insert(spot, first));
            entry::share(alloc, ready.entry(spot))
        }
    }
}

/// Shares the pieces at the spots, one after another.
#[tactic(auto, using(sp_cell::proofs::Steps::lent_step, sp_cell::proofs::Steps::lent_lent))]
fn lend_each(
    alloc: Global,
    from: &Slots,
    ready: &mut Slots,
    to: &mut Slots,
    spots: &[Spot],
) -> Result<(), Memory>
    requires pieces { PieceAtEach from.now spots.now }
    requires lent { IsLent from.now ready.old }
    ensures to { OnOk result (to.new ≡ with_shared from.now spots.now to.old) }
    ensures ready { OnOk result (ready.new ≡ with_shared from.now spots.now ready.old) }
    ensures lent { OnOk result (IsLent from.now ready.new) }
{
    for spot in spots {
        let entry = have!(one_more(alloc, from, ready, *spot));
        have!(to.insert(*spot, entry));
    }
    Ok(())
}

/// Shares the pieces at the spots.
#[tactic(auto, using(sp_cell::proofs::Sorting::lent_permuted, sp_cell::proofs::Sorting::pieces_permuted))]
pub(crate) fn lend(
    alloc: Global,
    from: &Slots,
    ready: &mut Slots,
    to: &mut Slots,
    spots: &[Spot],
) -> Result<(), Memory>
    requires pieces { PieceAtEach from.now spots.now }
    requires lent { IsLent from.now ready.old }
    ensures to { OnOk result (to.new ≡ with_shared from.now spots.now to.old) }
    ensures ready { OnOk result (ready.new ≡ with_shared from.now spots.now ready.old) }
    ensures lent { OnOk result (IsLent from.now ready.new) }
{
    let mut room = Vec::new(alloc);
    let sorted = have!(in_order(spots, &mut room));
    lend_each(alloc, from, ready, to, sorted)
}

/// Spots that the plan shares, in their order, where the children ask for them in another order; else none. The
/// children of a forall all ask for the same ones, which are taken once.
pub(crate) fn shares_in_order(alloc: Global, plan: &[Handing]) -> Result<Vec<Spot>, Memory>
    ensures { IfOk result (λ spots. (q : Spot) → In q spots.items → In q (shared_of plan.now)) }
{
    let mut spots = Vec::new(alloc);
    for handing in plan {
        if !spots.ends_with(handing.shared.items()) {
            have!(spots.extend_from_slice(handing.shared.items()));
        }
    }
    if rises(&spots) {
        spots.clear();
    }
    spots.sort_unstable();
    Ok(spots)
}
