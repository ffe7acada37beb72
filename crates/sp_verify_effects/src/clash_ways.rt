//! Finds a call that passes a variable by reference to a block that stores or loads it, and the way on which that comes
//! to the block: rule V7 is broken there. Nothing here has a contract: `clash.rt` goes the way again.

ghost use Rattle.sp_verify_effects.specs.PassContexts.{IsPassContext};
ghost use Rattle.sp_verify_shapes.specs.Stacks.{IsListNumber};

use crate::asked_areas::{count_below, find_below};
use crate::breach::told_of;
use crate::callers::{Groups, groups_of, number_from};
use crate::edges::Edge;
use crate::facts::touched;
use crate::halving::{Halving, earlier, halving_of, last_asked, later};
use crate::have;
use crate::pass_context::PassContext;
use crate::passed::{Passed, passed_of};
use crate::trails::Way;
use crate::walks::{Walks, addresses_left, no_walks, put_walk};
use crate::ways::{Ground, no_places, way_from};
use sp_base::{List, Memory};
use sp_code::Layout;
use sp_verify_areas::flags::{flag_at, no_flags};
use sp_verify_shapes::calls::some_reference;
use sp_verify_shapes::reach::reached;
use sp_verify_shapes::repeats::called_block;
use std::collections::BTreeSet;

/// A call, and a way to the block that it calls: what comes to that is done to a variable that the call passes.
#[derive(Drop)]
pub(crate) struct Clash {
    pub way: Way,
    pub call: u32,
}

// Whether a variable is among the operands of a call that were not gone over.
fn passes(
    g: &PassContext,
    walks: &mut Walks,
    l: &Layout,
    stack: u32,
    x: u32,
) -> Result<bool, Memory>
    requires known { IsPassContext g.now }
    requires there { IsListNumber g.now.shapes.now.stacks stack }
{
    let stacks = &g.shapes.stacks;
    let count = l.formals.len();
    let alloc = g.code.parts().instrs.alloc();
    let xs = have!(addresses_left(alloc, walks, stacks, l.entry, stack, count));
    have!(put_walk(walks, stacks, l.entry, stack, count));
    Ok(xs.items().contains(&x))
}

// Whether the call at p passes it to the block that begins there.
fn passes_at(g: &PassContext, walks: &mut Walks, p: u32, entry: u32, x: u32) -> Result<bool, Memory>
    requires known { IsPassContext g.now }
{
    let stack = match reached(g.shapes, p) {
        None => return Ok(false),
        Some(stack) => stack,
    };
    let block = match called_block(g.code, p) {
        None => return Ok(false),
        Some(block) => block,
    };
    match g.blocks.find(&g.code.parts().layouts, block) {
        None => Ok(false),
        Some(l) => {
            if l.entry == entry {
                passes(g, walks, l, stack, x)
            } else {
                Ok(false)
            }
        }
    }
}

// The first call that does.
fn first_passing(g: &PassContext, entry: u32, x: u32) -> Result<Option<u32>, Memory>
    requires known { IsPassContext g.now }
{
    let instrs = &g.code.parts().instrs;
    let mut walks = no_walks(instrs.alloc());
    for p in 0..instrs.len() {
        if !flag_at(g.repeats, p) {
            let passes = have!(passes_at(g, &mut walks, p as u32, entry, x));
            if passes {
                return Ok(Some(p as u32));
            }
        }
    }
    Ok(None)
}

// The clash at the end of a way.
fn clash_at_end(g: &PassContext, way: Way) -> Result<Option<Clash>, Memory>
    requires known { IsPassContext g.now }
{
    let x = match touched(way.end.effect) {
        None => return Ok(None),
        Some(x) => x,
    };
    let found = have!(first_passing(g, way.end.area, x));
    match found {
        None => Ok(None),
        Some(call) => Ok(Some(Clash { way, call })),
    }
}

// One at a call below a bound, if one is found: it may be at an earlier call too.
fn clash_below(
    g: &PassContext,
    rows: &List<List<Edge>>,
    own: &BTreeSet<(u32, u32)>,
    groups: &Groups,
    bound: Option<u32>,
) -> Result<Option<Clash>, Memory>
    requires known { IsPassContext g.now }
{
    let parts = g.code.parts();
    let alloc = parts.instrs.alloc();
    let blocks = have!(no_flags(alloc, 0));
    let passed = have!(passed_of(g, own, &blocks, bound));
    let asked = have!(find_below(g, rows, groups, Some(0), &passed));
    let told = have!(told_of(g, &asked));
    let places = no_places(alloc);
    let ground = Ground {
        rows,
        own,
        forks: &parts.forks,
        places: &places,
        passed: &passed,
        asked: &asked,
        bound: Some(0),
    };
    let found = have!(way_from(alloc, &ground, &told));
    match found {
        None => Ok(None),
        Some(way) => clash_at_end(g, way),
    }
}

// Whether the instruction at p calls a block that takes a variable by reference.
fn is_passing(g: &PassContext, passed: &Passed, p: u32) -> bool
    requires known { IsPassContext g.now }
{
    match called_block(g.code, p) {
        None => false,
        Some(block) => match g.blocks.find(&g.code.parts().layouts, block) {
            None => false,
            Some(l) => passed.contains_key(&l.entry),
        },
    }
}

// The calls of such blocks below a bound.
fn calls_below(g: &PassContext, own: &BTreeSet<(u32, u32)>, bound: u32) -> Result<List<u32>, Memory>
    requires known { IsPassContext g.now }
{
    let instrs = &g.code.parts().instrs;
    let alloc = instrs.alloc();
    let blocks = have!(no_flags(alloc, 0));
    let passed = have!(passed_of(g, own, &blocks, Some(0)));
    let mut calls = List::new(alloc);
    for p in 0..count_below(instrs.len(), Some(bound)) {
        if !flag_at(g.repeats, p) && is_passing(g, &passed, p as u32) {
            have!(calls.push(number_from(p)));
        }
    }
    Ok(calls)
}

// Of this clash and those at calls before it, the first one that is found by halving.
fn least_clash(
    g: &PassContext,
    rows: &List<List<Edge>>,
    own: &BTreeSet<(u32, u32)>,
    groups: &Groups,
    clash: Clash,
) -> Result<Clash, Memory>
    requires known { IsPassContext g.now }
{
    let calls = have!(calls_below(g, own, clash.call));
    let mut least = clash;
    let mut halving = halving_of(&calls, least.call);
    for _round in 0..64 {
        if halving.low >= halving.high {
            return Ok(least);
        }
        let (number, bound) = last_asked(&calls, halving);
        let found = have!(clash_below(g, rows, own, groups, bound));
        match found {
            None => {
                halving = later(halving, number);
            }
            Some(other) => {
                halving = earlier(&calls, halving, other.call);
                least = other;
            }
        }
    }
    Ok(least)
}

// Whether one of these blocks takes a variable by reference.
fn some_takes(layouts: &[Layout]) -> bool {
    for l in layouts {
        if some_reference(l.formals.items()) {
            return true;
        }
    }
    false
}

/// The clash at the first call that has one, if one is found in so many steps.
pub(crate) fn clash_way(
    g: &PassContext,
    rows: &List<List<Edge>>,
    own: &BTreeSet<(u32, u32)>,
) -> Result<Option<Clash>, Memory>
    requires known { IsPassContext g.now }
{
    if !some_takes(g.code.parts().layouts.items()) {
        return Ok(None);
    }
    let groups = have!(groups_of(rows));
    let found = have!(clash_below(g, rows, own, &groups, None));
    match found {
        None => Ok(None),
        Some(clash) => {
            let least = have!(least_clash(g, rows, own, &groups, clash));
            Ok(Some(least))
        }
    }
}
