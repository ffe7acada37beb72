//! The adding of a frame's pieces.

ghost use Rattle.std.specs.Prelude.{◌≡◌, ◌+◌, ◌<◌, ◌≤◌, OnOk, OnErr, length};
ghost use Rattle.sp_cell.specs.Frame.{with_pieces, without_spots_of};

use crate::slots::Slots;
use crate::{entry, have};
use sp_base::Memory;
use sp_cell::Spot;
use std::alloc::Global;

/// Adds an undefined piece for each size, from the variable `first` on.
#[tactic(auto, using(sp_cell::proofs::Steps::pieces_step))]
pub(crate) fn add_pieces(
    alloc: Global,
    slots: &mut Slots,
    frame: u64,
    first: u32,
    sizes: &[u32],
) -> Result<(), Memory>
    requires { first + length sizes.now ≤ 4294967296 }
    ensures ok { OnOk result (slots.new ≡ with_pieces slots.old frame first sizes.now) }
    ensures err { OnErr result (without_spots_of slots.new frame ≡ without_spots_of slots.old frame) }
{
    for (i, size) in sizes.iter().enumerate() {
        let piece = have!(entry::undefined(alloc, *size));
        let variable = first + i as u32;
        have!(slots.insert(Spot { frame, variable }, piece));
    }
    Ok(())
}
