//! All blocks as nodes of a tree: each inside its parent, or alone where it is not led to the program.

ghost use Rattle.std.specs.Prelude.{◌+◌, ◌<◌, Some, IfOk, OnOk, length};
ghost use Rattle.sp_verify_areas.specs.Around.{AreFilled};
ghost use Rattle.sp_verify_areas.specs.Blocks.{IsNumbered};
ghost use Rattle.sp_verify_areas.specs.Grown.{HaveAllBlockNodes};

use crate::blocks::Blocks;
use crate::have;
use crate::tree::{Frame, Grown, give_node, node_at};
use sp_base::Memory;
use sp_code::Code;

// Gives a layout a node inside no other one, if it has none.
fn fill_one(code: &Code, blocks: &Blocks, grown: &mut Grown, item: usize) -> Result<(), Memory>
    requires blocks { IsNumbered blocks.now.first code.now.layouts }
    requires just { AreFilled code.now item grown.old }
    requires there { item < length code.now.layouts }
    ensures { OnOk result (AreFilled code.now (item + 1) grown.new) }
{
    if node_at(&grown.of, item).is_some() {
        return Ok(());
    }
    let block = match code.parts().layouts.get(item) {
        None => return Ok(()),
        Some(l) => l.block,
    };
    let place = match blocks.place(block) {
        None => return Ok(()),
        Some(place) => place,
    };
    have!(give_node(grown, item, Frame::Block { block, place }, None));
    Ok(())
}

/// Nodes for all layouts, with those that are led to the program. The only other answer is want of memory.
#[tactic(auto, using(crate::proofs::NodesForAll::filled_led))]
pub(crate) fn filled(code: &Code, blocks: &Blocks, led: Grown) -> Result<Grown, Memory>
    requires blocks { IsNumbered blocks.now.first code.now.layouts }
    requires led { HaveAllBlockNodes code.now.layouts led }
    ensures { IfOk result (λ grown. AreFilled code.now (length code.now.layouts) grown) }
{
    let mut grown = led;
    let count = code.parts().layouts.len();
    for item in 0..count {
        have!(fill_one(code, blocks, &mut grown, item));
    }
    Ok(grown)
}
