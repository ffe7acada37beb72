//! The layouts whose parents lead to block 0, as nodes of a tree.

ghost use Rattle.std.specs.Prelude.{◌≡◌, List, IfOk, OnOk, length};
ghost use Rattle.sp_code.specs.declared.code.Layout.{Layout};
ghost use Rattle.sp_verify_areas.specs.Blocks.{IsNumbered};
ghost use Rattle.sp_verify_areas.specs.Grown.{HaveAllBlockNodes, HaveBlockNodes, EachItem, IsTried, GrowthStep};
ghost use Rattle.sp_verify_areas.specs.Grown.{inside_of, parent_node};

use crate::blocks::Blocks;
use crate::have;
use crate::order::order;
use crate::tree::{Frame, Grown, give_node, no_nodes, node_at};
use sp_base::{List, Memory, Writer};
use sp_code::{Code, Layout};

// The node of a layout's parent.
fn parent_node(l: &Layout, blocks: &Blocks, of: &List<Option<usize>>) -> Option<usize>
    ensures { (ls : List Layout) → IsNumbered blocks.now.first ls → result ≡ parent_node ls of.now l.now }
{
    match l.parent {
        None => None,
        Some(parent) => match blocks.place(parent) {
            None => None,
            Some(place) => node_at(of, place as usize),
        },
    }
}

// The node around that of a layout, if it may get one.
fn inside_of(l: &Layout, blocks: &Blocks, of: &List<Option<usize>>) -> Option<Option<usize>>
    ensures { (ls : List Layout) → IsNumbered blocks.now.first ls → result ≡ inside_of ls of.now l.now }
{
    if l.block == 0 {
        return Some(None);
    }
    match parent_node(l, blocks, of) {
        None => None,
        Some(node) => Some(Some(node)),
    }
}

// Gives a layout a node, if it may get one and has none, and says whether it did.
fn settle(code: &Code, blocks: &Blocks, grown: &mut Grown, item: usize) -> Result<bool, Memory>
    requires blocks { IsNumbered blocks.now.first code.now.layouts }
    requires just { HaveBlockNodes code.now.layouts grown.old }
    ensures { IfOk result (λ changed. GrowthStep (HaveBlockNodes code.now.layouts) grown.old grown.new
        (IsTried code.now.layouts item) changed) }
{
    let l = match code.parts().layouts.get(item) {
        None => return Ok(false),
        Some(l) => l,
    };
    if node_at(&grown.of, item).is_some() {
        return Ok(false);
    }
    let place = match blocks.place(l.block) {
        None => return Ok(false),
        Some(place) => place,
    };
    let around = match inside_of(l, blocks, &grown.of) {
        None => return Ok(false),
        Some(around) => around,
    };
    let frame = Frame::Block {
        block: l.block,
        place,
    };
    have!(give_node(grown, item, frame, around));
    Ok(true)
}

// Tries all layouts.
fn sweep(code: &Code, blocks: &Blocks, grown: &mut Grown) -> Result<bool, Memory>
    requires blocks { IsNumbered blocks.now.first code.now.layouts }
    requires just { HaveBlockNodes code.now.layouts grown.old }
    ensures { IfOk result (λ changed. GrowthStep (HaveBlockNodes code.now.layouts) grown.old grown.new
        (EachItem (IsTried code.now.layouts) (length code.now.layouts)) changed) }
{
    let count = code.parts().layouts.len();
    let mut changed = false;
    for item in 0..count {
        let new = have!(settle(code, blocks, grown, item));
        changed |= new;
    }
    Ok(changed)
}

// Tries them in an order in which parents come first, and then goes on until none is left that may get a node: mostly
// the first sweep finds nothing.
fn search(
    code: &Code,
    blocks: &Blocks,
    grown: &mut Grown,
    order: &List<usize>,
) -> Result<(), Memory>
    requires blocks { IsNumbered blocks.now.first code.now.layouts }
    requires just { HaveBlockNodes code.now.layouts grown.old }
    ensures { OnOk result (HaveAllBlockNodes code.now.layouts grown.new) }
{
    for item in order.items() {
        let _new = have!(settle(code, blocks, grown, *item));
    }
    'sweeps: loop {
        let found = have!(sweep(code, blocks, grown));
        if !found {
            return Ok(());
        }
    }
}

// The places of the layouts, those of parents first.
fn parents_first(code: &Code, blocks: &Blocks) -> Result<List<usize>, Memory> {
    let alloc = code.parts().instrs.alloc();
    let mut up = Writer::new(alloc);
    for l in code.parts().layouts.items() {
        let place = match l.parent {
            None => None,
            Some(parent) => match blocks.place(parent) {
                None => None,
                Some(place) => Some(place as usize),
            },
        };
        up.put(place);
    }
    order(alloc, &up)
}

/// Nodes for exactly the layouts whose parents lead to block 0. The only other answer is want of memory.
pub fn led(code: &Code, blocks: &Blocks) -> Result<Grown, Memory>
    requires { IsNumbered blocks.now.first code.now.layouts }
    ensures { IfOk result (λ grown. HaveAllBlockNodes code.now.layouts grown) }
{
    let order = have!(parents_first(code, blocks));
    let parts = code.parts();
    let alloc = parts.instrs.alloc();
    let of = have!(no_nodes(alloc, parts.layouts.len()));
    let mut grown = Grown {
        nodes: List::new(alloc),
        of,
    };
    have!(search(code, blocks, &mut grown, &order));
    Ok(grown)
}
