//! The variables that calls pass by reference to blocks of which the rules ask nothing else: of such a block they ask
//! only what it does to these. Nothing here has a contract: `asked_calls.rt` checks what is found with it.

ghost use Rattle.sp_verify_effects.specs.PassContexts.{IsPassContext};
ghost use Rattle.sp_verify_shapes.specs.Stacks.{IsListNumber};

use crate::asked_areas::count_below;
use crate::have;
use crate::pass_context::PassContext;
use crate::variables::owns;
use crate::walks::{Walks, addresses_left, no_walks, put_walk};
use sp_base::{List, Memory};
use sp_code::Layout;
use sp_verify_areas::flags::flag_at;
use sp_verify_shapes::calls::some_reference;
use sp_verify_shapes::reach::reached;
use sp_verify_shapes::repeats::called_block;
use std::alloc::Global;
use std::collections::{BTreeMap, BTreeSet};

/// Of each such block, by its first instruction, the variables that calls pass to it and that are not its own.
pub(crate) type Passed = BTreeMap<u32, BTreeSet<u32>>;

/// That of no block.
pub(crate) fn none_passed(alloc: Global) -> Passed {
    BTreeMap::new(alloc)
}

// One of each block that takes a variable by reference, unless its flag is set.
fn empty_sets(alloc: Global, layouts: &[Layout], blocks: &List<bool>) -> Result<Passed, Memory> {
    let mut passed = none_passed(alloc);
    for l in layouts {
        if some_reference(l.formals.items()) && !flag_at(blocks, l.entry as usize) {
            have!(passed.insert(l.entry, BTreeSet::new(alloc)));
        }
    }
    Ok(passed)
}

// Puts the variables among these that the block does not have itself.
fn put(
    own: &BTreeSet<(u32, u32)>,
    passed: &mut Passed,
    entry: u32,
    xs: &[u32],
) -> Result<(), Memory> {
    if let Some(set) = passed.get_mut(&entry) {
        for x in xs {
            if !owns(own, entry, *x) {
                have!(set.insert(*x));
            }
        }
    }
    Ok(())
}

// Puts those that the call at p passes.
fn put_call(
    g: &PassContext,
    own: &BTreeSet<(u32, u32)>,
    passed: &mut Passed,
    walks: &mut Walks,
    p: u32,
) -> Result<(), Memory>
    requires known { IsPassContext g.now }
{
    let stack = match reached(g.shapes, p) {
        None => return Ok(()),
        Some(stack) => stack,
    };
    let block = match called_block(g.code, p) {
        None => return Ok(()),
        Some(block) => block,
    };
    let parts = g.code.parts();
    match g.blocks.find(&parts.layouts, block) {
        None => Ok(()),
        Some(l) => {
            if passed.contains_key(&l.entry) {
                put_operands(g, own, passed, walks, l, stack)
            } else {
                Ok(())
            }
        }
    }
}

// Those among the operands of a call.
fn put_operands(
    g: &PassContext,
    own: &BTreeSet<(u32, u32)>,
    passed: &mut Passed,
    walks: &mut Walks,
    l: &Layout,
    stack: u32,
) -> Result<(), Memory>
    requires known { IsPassContext g.now }
    requires there { IsListNumber g.now.shapes.now.stacks stack }
{
    let alloc = g.code.parts().instrs.alloc();
    let stacks = &g.shapes.stacks;
    let count = l.formals.len();
    let xs = have!(addresses_left(alloc, walks, stacks, l.entry, stack, count));
    have!(put_walk(walks, stacks, l.entry, stack, count));
    put(own, passed, l.entry, xs.items())
}

/// Those of all calls below a bound. There are flags of blocks of which the rules ask what they do outside themselves:
/// they are left out.
pub(crate) fn passed_of(
    g: &PassContext,
    own: &BTreeSet<(u32, u32)>,
    blocks: &List<bool>,
    bound: Option<u32>,
) -> Result<Passed, Memory>
    requires known { IsPassContext g.now }
{
    let parts = g.code.parts();
    let mut passed = have!(empty_sets(parts.instrs.alloc(), parts.layouts.items(), blocks));
    if passed.is_empty() {
        return Ok(passed);
    }
    let mut walks = no_walks(parts.instrs.alloc());
    for p in 0..count_below(parts.instrs.len(), bound) {
        if !flag_at(g.repeats, p) {
            have!(put_call(g, own, &mut passed, &mut walks, p as u32));
        }
    }
    Ok(passed)
}
