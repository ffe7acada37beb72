//! Layouts whose block has another one, or whose parents do not lead to block 0: a point of rule V1.

ghost use Rattle.std.specs.Prelude.{◌≡◌, ◌+◌, ◌<◌, List, Some, IfOk, length, slice_get};
ghost use Rattle.sp_code.specs.declared.code.Layout.{Layout};
ghost use Rattle.sp_verify_rules.specs.NameRules.{OrphanBlock};
ghost use Rattle.sp_verify_areas.specs.Blocks.{IsNumbered, number_from};
ghost use Rattle.sp_verify_areas.specs.Grown.{HaveAllBlockNodes};
ghost use Rattle.sp_verify_areas.specs.OrphanBlock.{AreDoubled, IsOrphanBlock, is_place};
ghost use Rattle.sp_verify_areas.specs.LeastPlaces.{IsLeast};
ghost use Rattle.sp_verify_areas.specs.WrongNames.{Decides};

use crate::blocks::Blocks;
use crate::flags::{flag_at, mark, no_flags};
use crate::have;
use crate::least::{least, place_if};
use crate::tree::{Grown, node_at};
use sp_base::{List, Memory};
use sp_code::Code;

// Whether the first layout of a block has this place.
fn is_first(blocks: &Blocks, item: usize, block: u32) -> bool
    ensures { (ls : List Layout) → IsNumbered blocks.now.first ls → result ≡ is_place (number_from 0 ls block) item }
{
    match blocks.place(block) {
        None => false,
        Some(place) => place as usize == item,
    }
}

// Marks the first layout of a block, where this is another one of it.
fn note(blocks: &Blocks, flags: &mut List<bool>, item: usize, block: u32)
    ensures { (ls : List Layout) (l : Layout) → IsNumbered blocks.now.first ls → slice_get ls item ≡ Some l
        → l.block ≡ block
        → AreDoubled ls flags.old item → AreDoubled ls flags.new (item + 1) }
{
    if is_first(blocks, item, block) {
        return;
    }
    match blocks.place(block) {
        None => (),
        Some(place) => mark(flags, place as usize),
    }
}

// Whether a layout is one of two of its block, or is not led to block 0.
fn lacks_home(blocks: &Blocks, flags: &List<bool>, grown: &Grown, item: usize, block: u32) -> bool
    ensures { (ls : List Layout) (l : Layout) → IsNumbered blocks.now.first ls → slice_get ls item ≡ Some l
        → l.block ≡ block → AreDoubled ls flags.now (length ls) → HaveAllBlockNodes ls grown.now
        → Decides result (IsOrphanBlock ls item l) }
{
    if !is_first(blocks, item, block) {
        return true;
    }
    if flag_at(flags, item) {
        return true;
    }
    match node_at(&grown.of, item) {
        None => true,
        Some(_) => false,
    }
}

// The least entry of such a layout.
fn first_lacking(code: &Code, blocks: &Blocks, flags: &List<bool>, grown: &Grown) -> Option<u32>
    requires blocks { IsNumbered blocks.now.first code.now.layouts }
    requires flags { AreDoubled code.now.layouts flags.now (length code.now.layouts) }
    requires led { HaveAllBlockNodes code.now.layouts grown.now }
    ensures { IsLeast (OrphanBlock code.now) result }
{
    let mut first = None;
    for (item, l) in code.parts().layouts.items().iter().enumerate() {
        let lacks = lacks_home(blocks, flags, grown, item, l.block);
        first = least(first, place_if(lacks, l.entry));
    }
    first
}

/// The least entry of a layout of a block that another layout has too, or of one whose parents do not lead to block 0;
/// None where there is none. The only other answer is want of memory.
pub fn first_orphan_block(code: &Code, blocks: &Blocks, led: &Grown) -> Result<Option<u32>, Memory>
    requires blocks { IsNumbered blocks.now.first code.now.layouts }
    requires led { HaveAllBlockNodes code.now.layouts led.now }
    ensures { IfOk result (λ first. IsLeast (OrphanBlock code.now) first) }
{
    let parts = code.parts();
    let mut doubled = have!(no_flags(parts.instrs.alloc(), parts.layouts.len()));
    for (item, l) in parts.layouts.items().iter().enumerate() {
        note(blocks, &mut doubled, item, l.block);
    }
    Ok(first_lacking(code, blocks, &doubled, led))
}
