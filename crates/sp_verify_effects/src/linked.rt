//! Operands of calls whose edges are there: of a block, an area that calls it, and a list of shapes that so many
//! operands of the call are above. What is below them is not gone over again, so that many calls with many operands
//! take no time for each pair.

ghost use Rattle.std.specs.Prelude.{◌≡◌, List, OnOk, Some, true};
ghost use Rattle.sp_code.specs.declared.code.Layout.{Layout as LayoutOf};
ghost use Rattle.sp_code.specs.Machine.{layout_of};
ghost use Rattle.sp_verify_effects.specs.declared.edges.Edge.{Edge as EdgeOf};
ghost use Rattle.sp_verify_effects.specs.Linked.{AreLinked, IsLinked, has_link};
ghost use Rattle.sp_verify_shapes.specs.declared.stacks.Stacks.{Stacks as StacksOf};
ghost use Rattle.sp_verify_shapes.specs.Stacks.{IsListNumber, IsStacks};

use crate::have;
use sp_base::Memory;
use sp_code::Layout;
use sp_verify_shapes::stacks::Stacks;
use std::alloc::Global;
use std::collections::BTreeSet;

// It is kept of one list in so many on the way down.
const EACH: usize = 16;

/// A block and the area that calls it, a list, and how many operands are above this.
pub(crate) type Linked = BTreeSet<((u32, u32), (u32, usize))>;

/// None are.
pub(crate) fn none_linked(alloc: Global) -> Linked
    ensures { (ls : List LayoutOf) (st : StacksOf) (rows : List (List EdgeOf)) → AreLinked ls st rows result }
{
    BTreeSet::new(alloc)
}

fn is_due(depth: usize) -> bool {
    depth % EACH == 0
}

/// Whether it is known that those of a list are there.
pub(crate) fn is_linked(linked: &Linked, block: u32, to: u32, list: u32, depth: usize) -> bool
    ensures { result ≡ true → has_link linked.now block to list depth ≡ true }
{
    if is_due(depth) {
        linked.contains(&((block, to), (list, depth)))
    } else {
        false
    }
}

// Puts that those of a list are there, if it is kept of this one.
fn put(linked: &mut Linked, block: u32, to: u32, list: u32, depth: usize) -> Result<(), Memory>
    ensures { OnOk result ((ls : List LayoutOf) (st : StacksOf) (rows : List (List EdgeOf)) (l : LayoutOf)
        → layout_of ls block ≡ Some l → IsLinked st rows l to list depth → AreLinked ls st rows linked.old
        → AreLinked ls st rows linked.new) }
{
    if is_due(depth) {
        have!(linked.insert(((block, to), (list, depth))));
    }
    Ok(())
}

/// Puts that those of all operands of a call are there.
pub(crate) fn put_links(
    linked: &mut Linked,
    layout: &Layout,
    block: u32,
    to: u32,
    stacks: &Stacks,
    stack: u32,
) -> Result<(), Memory>
    requires stacks { IsStacks stacks.now }
    requires there { IsListNumber stacks.now stack }
    ensures { OnOk result ((ls : List LayoutOf) (rows : List (List EdgeOf))
        → layout_of ls block ≡ Some layout.now → IsLinked stacks.now rows layout.now to stack 0
        → AreLinked ls stacks.now rows linked.old → AreLinked ls stacks.now rows linked.new) }
{
    let mut at = stack;
    for depth in 0..layout.formals.len() {
        if is_linked(linked, block, to, at, depth) {
            return Ok(());
        }
        have!(put(linked, block, to, at, depth));
        match stacks.top(at) {
            None => return Ok(()),
            Some((_shape, below)) => {
                at = below;
            }
        }
    }
    Ok(())
}
