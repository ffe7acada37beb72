//! Whether all is asked about that rule V7 needs at calls: what the called block does to the variables that the call
//! passes by reference, unless they are its own.

ghost use Rattle.std.specs.Prelude.{◌≡◌, ◌&&◌, IfOk, false, not, true};
ghost use Rattle.sp_verify_areas.specs.Alone.{flag_at};
ghost use Rattle.sp_verify_shapes.specs.Stacks.{IsListNumber, list_of};
ghost use Rattle.sp_verify_effects.specs.AskedAreas.{AsksCalls};
ghost use Rattle.sp_verify_effects.specs.AskedCalls.{lacks_actual, lacks_actuals, lacks_at, lacks_operands};
ghost use Rattle.sp_verify_effects.specs.PassContexts.{IsPassContext};
ghost use Rattle.sp_verify_effects.specs.Variables.{AreOwn};
ghost use Rattle.sp_verify_effects.specs.Walks.{AreWalks};

use crate::asked_areas::{Asked, count_below};
use crate::facts::Effect;
use crate::have;
use crate::pass_context::PassContext;
use crate::variables::owns;
use crate::walks::{Walks, addresses_left, no_walks, put_walk};
use sp_base::Memory;
use sp_code::Layout;
use sp_verify_areas::flags::flag_at;
use sp_verify_shapes::reach::reached;
use sp_verify_shapes::repeats::called_block;
use std::collections::BTreeSet;

// Whether a variable is not the block's own, and it is not asked about whether the block stores it, or loads it.
fn lacks_actual(asked: &Asked, own: &BTreeSet<(u32, u32)>, entry: u32, x: u32) -> bool
    ensures { result ≡ lacks_actual asked.now own.now.keys entry x }
{
    let at = entry as usize;
    !owns(own, entry, x) && !(asked.asks(at, Effect::Stores(x)) && asked.asks(at, Effect::Loads(x)))
}

// The same for one of these variables.
fn lacks_actuals(asked: &Asked, own: &BTreeSet<(u32, u32)>, entry: u32, xs: &[u32]) -> bool
    ensures { result ≡ lacks_actuals asked.now own.now.keys entry xs.now }
{
    for x in xs {
        if lacks_actual(asked, own, entry, *x) {
            return true;
        }
    }
    false
}

// For one of those of the operands of a call. If there is none, they are gone over.
fn lacks_operands(
    g: &PassContext,
    asked: &Asked,
    own: &BTreeSet<(u32, u32)>,
    walks: &mut Walks,
    l: &Layout,
    stack: u32,
) -> Result<bool, Memory>
    requires known { IsPassContext g.now }
    requires there { IsListNumber g.now.shapes.now.stacks stack }
    requires walks { AreWalks g.now.shapes.now.stacks walks.old (lacks_actual asked.now own.now.keys) }
    ensures { IfOk result (λ b. b ≡ false
        → AreWalks g.now.shapes.now.stacks walks.new (lacks_actual asked.now own.now.keys)
        × (lacks_operands asked.now own.now.keys l.now (list_of g.now.shapes.now.stacks stack) ≡ false)) }
{
    let alloc = g.code.parts().instrs.alloc();
    let stacks = &g.shapes.stacks;
    let count = l.formals.len();
    let xs = have!(addresses_left(alloc, walks, stacks, l.entry, stack, count));
    if lacks_actuals(asked, own, l.entry, xs.items()) {
        return Ok(true);
    }
    have!(put_walk(walks, stacks, l.entry, stack, count));
    Ok(false)
}

// Those of the instruction at p, if it is a call that is reached.
fn lacks_at(
    g: &PassContext,
    asked: &Asked,
    own: &BTreeSet<(u32, u32)>,
    walks: &mut Walks,
    p: u32,
) -> Result<bool, Memory>
    requires known { IsPassContext g.now }
    requires walks { AreWalks g.now.shapes.now.stacks walks.old (lacks_actual asked.now own.now.keys) }
    ensures { IfOk result (λ b. b ≡ false
        → AreWalks g.now.shapes.now.stacks walks.new (lacks_actual asked.now own.now.keys)
        × (lacks_at g.now.code.now asked.now own.now.keys g.now.shapes.now p ≡ false)) }
{
    let stack = match reached(g.shapes, p) {
        None => return Ok(false),
        Some(stack) => stack,
    };
    let block = match called_block(g.code, p) {
        None => return Ok(false),
        Some(block) => block,
    };
    match g.blocks.find(&g.code.parts().layouts, block) {
        None => Ok(false),
        Some(l) => lacks_operands(g, asked, own, walks, l, stack),
    }
}

// The same, if it repeats no earlier one.
fn lacks_first(
    g: &PassContext,
    asked: &Asked,
    own: &BTreeSet<(u32, u32)>,
    walks: &mut Walks,
    p: u32,
) -> Result<bool, Memory>
    requires known { IsPassContext g.now }
    requires walks { AreWalks g.now.shapes.now.stacks walks.old (lacks_actual asked.now own.now.keys) }
    ensures { IfOk result (λ b. b ≡ false
        → AreWalks g.now.shapes.now.stacks walks.new (lacks_actual asked.now own.now.keys)
        × ((not (flag_at g.now.repeats.now p)
        && lacks_at g.now.code.now asked.now own.now.keys g.now.shapes.now p) ≡ false)) }
{
    if flag_at(g.repeats, p as usize) {
        Ok(false)
    } else {
        lacks_at(g, asked, own, walks, p)
    }
}

/// Whether that is asked about at all calls before the one that is known to clash.
pub(crate) fn asks_calls(
    g: &PassContext,
    asked: &Asked,
    own: &BTreeSet<(u32, u32)>,
) -> Result<bool, Memory>
    requires known { IsPassContext g.now }
    requires own { AreOwn g.now.code.now own.now.keys }
    ensures { IfOk result (λ b. b ≡ true → AsksCalls g.now.code.now asked.now) }
{
    let instrs = &g.code.parts().instrs;
    let mut walks = no_walks(instrs.alloc());
    let count = count_below(instrs.len(), asked.known.clash);
    for p in 0..count {
        let lacks = have!(lacks_first(g, asked, own, &mut walks, p as u32));
        if lacks {
            return Ok(false);
        }
    }
    Ok(true)
}
