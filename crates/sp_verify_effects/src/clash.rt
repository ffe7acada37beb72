//! Rule V7: what calls pass by reference, and what blocks that are called inside themselves do. One call that clashes
//! is found before all effects are: then only the calls before it are asked about.

ghost use Rattle.std.specs.Prelude.{◌≡◌, ℕ, IfOk, Some, length, slice_get, true};
ghost use Rattle.sp_verify_areas.specs.LeastPlaces.{IsLeast, Upto};
ghost use Rattle.sp_verify_rules.specs.Rules.{BreaksV2, BreaksV3, BreaksV4, BreaksV5};
ghost use Rattle.sp_verify_rules.specs.Verdict.{BreaksV7};
ghost use Rattle.sp_verify_effects.specs.PassContexts.{IsPassContext};
ghost use Rattle.sp_verify_effects.specs.Calls.{Meets};
ghost use Rattle.sp_verify_effects.specs.Edges.{AreEdges};
ghost use Rattle.sp_verify_effects.specs.Effects.{AreEffects};
ghost use Rattle.sp_verify_effects.specs.FactClosure.{IsDone};
ghost use Rattle.sp_verify_effects.specs.Turns.{LayoutTurns, turns};
ghost use Rattle.sp_verify_effects.specs.Variables.{AreOwn};
ghost use Rattle.sp_verify_shapes.specs.Stacks.{IsListNumber, IsStacks, list_of};

use crate::breach::end_of;
use crate::calls::{actuals, first_call};
use crate::clash_ways::{Clash, clash_way};
use crate::edges::Edge;
use crate::effects::{EffectRow, Effects};
use crate::facts::{Fact, touched};
use crate::have;
use crate::inside::called_inside;
use crate::pass_context::PassContext;
use crate::variables::{goes_out, owns};
use sp_base::{List, Memory};
use sp_code::Layout;
use sp_verify_areas::flags::flag_at;
use sp_verify_areas::least::{least, place_if};
use sp_verify_shapes::reach::reached;
use sp_verify_shapes::repeats::called_block;
use sp_verify_shapes::stacks::Stacks;
use std::alloc::Global;
use std::collections::BTreeSet;

// Whether a block does this to a variable that a call passes to it by reference, and that is not its own.
fn meets(
    alloc: Global,
    own: &BTreeSet<(u32, u32)>,
    l: &Layout,
    stacks: &Stacks,
    stack: u32,
    fact: Fact,
) -> Result<bool, Memory>
    requires stacks { IsStacks stacks.now }
    requires there { IsListNumber stacks.now stack }
    ensures { IfOk result (λ b. b ≡ true → Meets own.now.keys l.now (list_of stacks.now stack) fact) }
{
    if l.entry != fact.area {
        return Ok(false);
    }
    match touched(fact.effect) {
        None => Ok(false),
        Some(x) => {
            if owns(own, l.entry, x) {
                return Ok(false);
            }
            let xs = have!(actuals(alloc, stacks, stack, l.formals.items()));
            Ok(xs.items().contains(&x))
        }
    }
}

// The call at p, if its block does so.
fn clash_at(
    g: &PassContext,
    own: &BTreeSet<(u32, u32)>,
    p: u32,
    fact: Fact,
) -> Result<Option<u32>, Memory>
    requires known { IsPassContext g.now }
    requires own { AreOwn g.now.code.now own.now.keys }
    requires done { IsDone g.now.code.now fact }
    ensures { IfOk result (λ o. (q : ℕ) → o ≡ Some q → BreaksV7 g.now.code.now q) }
{
    let stack = match reached(g.shapes, p) {
        None => return Ok(None),
        Some(stack) => stack,
    };
    let block = match called_block(g.code, p) {
        None => return Ok(None),
        Some(block) => block,
    };
    let parts = g.code.parts();
    let l = match g.blocks.find(&parts.layouts, block) {
        None => return Ok(None),
        Some(l) => l,
    };
    let clashes = have!(meets(parts.instrs.alloc(), own, l, &g.shapes.stacks, stack, fact));
    Ok(place_if(clashes, p))
}

// The same at the end of a way.
fn clash_on(
    g: &PassContext,
    rows: &List<List<Edge>>,
    own: &BTreeSet<(u32, u32)>,
    clash: &Clash,
) -> Result<Option<u32>, Memory>
    requires known { IsPassContext g.now }
    requires edges { AreEdges g.now.code.now rows.now }
    requires own { AreOwn g.now.code.now own.now.keys }
    ensures { IfOk result (λ o. (q : ℕ) → o ≡ Some q → BreaksV7 g.now.code.now q) }
{
    let end = have!(end_of(g, rows, own, &clash.way));
    match end {
        None => Ok(None),
        Some(fact) => clash_at(g, own, clash.call, fact),
    }
}

/// A call at which V7 is broken, if one is found before all effects are. None says nothing.
pub(crate) fn known_clash(
    g: &PassContext,
    rows: &List<List<Edge>>,
    own: &BTreeSet<(u32, u32)>,
) -> Result<Option<u32>, Memory>
    requires known { IsPassContext g.now }
    requires edges { AreEdges g.now.code.now rows.now }
    requires own { AreOwn g.now.code.now own.now.keys }
    ensures { IfOk result (λ o. (q : ℕ) → o ≡ Some q → BreaksV7 g.now.code.now q) }
{
    let found = have!(clash_way(g, rows, own));
    match found {
        None => Ok(None),
        Some(clash) => clash_on(g, rows, own, &clash),
    }
}

// Whether a block that does this is called inside itself, by its flag, and does something outside itself, besides to
// the input and the output.
fn row_turns(effects: &Effects, flag: bool, l: &Layout, row: &EffectRow) -> bool
    ensures { result ≡ turns effects.now.own.keys flag l.now (Some row.now) }
{
    let own = &effects.own;
    flag && (goes_out(own, l.entry, 2, row.stored.items())
        || goes_out(own, l.entry, 2, row.loaded.items()))
}

fn turns(effects: &Effects, flag: bool, l: &Layout) -> bool
    ensures { result ≡ turns effects.now.own.keys flag l.now (slice_get effects.now.rows l.now.entry) }
{
    match effects.of(l.entry) {
        None => false,
        Some(row) => row_turns(effects, flag, l, row),
    }
}

// The least first instruction of a block that does.
fn first_turn(g: &PassContext, effects: &Effects, flags: &List<bool>) -> Option<u32>
    requires known { IsPassContext g.now }
    requires effects { AreEffects g.now.code.now effects.now }
    ensures { IsLeast (Upto (LayoutTurns effects.now flags.now g.now.code.now.layouts)
        (length g.now.code.now.layouts)) result }
{
    let mut first = None;
    for (place, l) in g.code.parts().layouts.items().iter().enumerate() {
        let turned = turns(effects, flag_at(flags, place), l);
        first = least(first, place_if(turned, l.entry));
    }
    first
}

/// The least instruction at which V7 is broken: a call that passes one variable by reference twice, or one that the
/// block uses itself; or the first instruction of a block that is called inside itself and uses variables outside
/// itself other than the input and the output. None where there is none. It wants V2 to V5 kept. The only other answer
/// is want of memory.
pub fn first_clash(g: &PassContext, effects: &Effects) -> Result<Option<u32>, Memory>
    requires known { IsPassContext g.now }
    requires v2 { (p : ℕ) → BreaksV2 g.now.code.now p → ⊥ }
    requires v3 { (p : ℕ) → BreaksV3 g.now.code.now p → ⊥ }
    requires v4 { (p : ℕ) → BreaksV4 g.now.code.now p → ⊥ }
    requires v5 { (p : ℕ) → BreaksV5 g.now.code.now p → ⊥ }
    requires effects { AreEffects g.now.code.now effects.now }
    ensures { IfOk result (λ first. IsLeast (BreaksV7 g.now.code.now) first) }
{
    let _parts = g.code.parts();
    let flags = have!(called_inside(g));
    let call = have!(first_call(g, effects));
    let turn = first_turn(g, effects, &flags);
    Ok(least(least(call, turn), effects.asked.known.clash))
}
