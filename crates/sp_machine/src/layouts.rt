//! The layouts of blocks, found by number, and the cells of frames.

ghost use Rattle.std.specs.Prelude.{◌≡◌, ◌≤◌, length, sum};
ghost use Rattle.std.specs.Option.{option_copied};
ghost use Rattle.sp_code.specs.Machine.{layout_of};
ghost use Rattle.sp_code.specs.Memory.{cells_of_home, answer_of};
ghost use Rattle.sp_code.specs.Sound.{HasDistinctBlocks};
ghost use Rattle.sp_machine.specs.Frames.{home_of};
ghost use Rattle.sp_code.specs.Formals.{HaveFormals};

use crate::frames::Home;
use sp_base::List;
use sp_cell::{Address, Spot};
use sp_code::{Code, Layout};

/// The first layout of a block.
#[tactic(auto, using(crate::proofs::LayoutLookups::layout_on, crate::proofs::LayoutLookups::layout_here, crate::proofs::LayoutLookups::layout_end))]
fn search(layouts: &[Layout], block: u32) -> Option<&Layout>
    ensures { option_copied result ≡ layout_of layouts.now block }
{
    for layout in layouts {
        if layout.block == block {
            return Some(layout);
        }
    }
    None
}

/// The layout of a block. In most code it stands at the block's number.
#[tactic(auto, using(crate::proofs::LayoutLookups::layout_found))]
pub fn layout_of(code: &Code, block: u32) -> Option<&Layout>
    requires { HasDistinctBlocks code.now.layouts }
    ensures { option_copied result ≡ layout_of code.now.layouts block }
{
    let layouts = code.parts().layouts.items();
    let place = block as usize;
    if place < layouts.len() {
        let layout = &layouts[place];
        if layout.block == block {
            return Some(layout);
        }
    }
    search(layouts, block)
}

/// The cells of a frame.
#[tactic(auto, using(crate::proofs::LayoutLookups::sum_all))]
pub(crate) fn cells_of(sizes: &[u32]) -> u64
    requires { length sizes.now ≤ 4294967294 }
    ensures { result ≡ sum sizes.now }
{
    let mut total = 0u64;
    for size in sizes {
        total += u64::from(*size);
    }
    total
}

/// The cells of the frame of a home.
#[tactic(auto, using(crate::proofs::LayoutLookups::few_sizes))]
pub(crate) fn cells_of_home(code: &Code, home: Home) -> u64
    requires { HasDistinctBlocks code.now.layouts }
    ensures { result ≡ cells_of_home code.now.layouts (home_of home) }
{
    match home {
        Home::Block(block) => {
            let _parts = code.parts();
            match layout_of(code, block) {
                Some(layout) => cells_of(layout.sizes.items()),
                None => 0,
            }
        }
        Home::Index(_) => 0,
    }
}

/// The result of the block of a frame.
#[tactic(auto, using(crate::proofs::LayoutLookups::few_sizes, crate::proofs::LayoutLookups::few_formals))]
pub(crate) fn answer_of(code: &Code, frame: u64, home: Home) -> Option<Address>
    requires blocks { HasDistinctBlocks code.now.layouts }
    requires formals { HaveFormals code.now.layouts }
    ensures { result ≡ answer_of code.now.layouts frame (home_of home) }
{
    match home {
        Home::Block(block) => {
            let _parts = code.parts();
            match layout_of(code, block) {
                Some(layout) => {
                    let variable = layout.formals.len() as u32;
                    Some(Address {
                        spot: Spot { frame, variable },
                        offset: 0,
                    })
                }
                None => None,
            }
        }
        Home::Index(_) => None,
    }
}
