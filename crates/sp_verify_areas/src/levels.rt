//! The blocks around code, found by levels outward.

ghost use Rattle.std.specs.Prelude.{◌≡◌, ◌<◌, Some, length, slice_get};
ghost use Rattle.sp_verify_rules.specs.Areas.{Area, homes as homes_of};
ghost use Rattle.sp_verify_rules.specs.NameRules.{is_block};
ghost use Rattle.sp_verify_areas.specs.Homes.{AreHomes};
ghost use Rattle.sp_verify_areas.specs.Only.{LiesOnlyIn};

use crate::homes::Homes;
use crate::tree::Frame;
use sp_code::Code;

/// Whether the frame so many levels outward from the code in which an instruction lies is that of a block, where the
/// instruction lies in the code of one area alone.
pub fn is_block_outward(code: &Code, homes: &Homes, p: u32, up: u32, block: u32) -> bool
    requires homes { AreHomes code.now homes.now }
    requires there { p < length code.now.instrs }
    ensures { (a : Area) → LiesOnlyIn code.now p a
        → result ≡ is_block (Some block) (slice_get (homes_of code.now a) up) }
{
    match homes.frame(p, up as usize) {
        None | Some(Frame::Index(_)) => false,
        Some(Frame::Block { block: b, place: _ }) => block == b,
    }
}
