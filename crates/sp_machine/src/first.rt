//! Whether the first process fits: what is looked at before its cells are taken.

ghost use Rattle.std.specs.Prelude.{◌≡◌};
ghost use Rattle.sp_code.specs.Sound.{HasDistinctBlocks};
ghost use Rattle.sp_machine.specs.FirstFrames.{first_fits};

use crate::frames::Home;
use crate::layouts::cells_of_home;
use sp_base::Limits;
use sp_code::Code;

/// Whether the frame of the program has no more cells than the limit. If it has more, process 0 has F12 before its
/// first instruction, and `Proc::root` would take cells that are never used.
pub fn first_fits(code: &Code, limits: &Limits) -> bool
    requires { HasDistinctBlocks code.now.layouts }
    ensures { result ≡ first_fits code.now limits.now }
{
    cells_of_home(code, Home::Block(0)) <= u64::from(limits.cells)
}
