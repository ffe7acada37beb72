//! Rule V8: blocks with a result that store outside themselves or come to a stop. One such block is found before all
//! effects are: then only the blocks that begin before it are asked about.

ghost use Rattle.std.specs.Prelude.{◌≡◌, ℕ, IfOk, Some, slice_get};
ghost use Rattle.sp_verify_areas.specs.LeastPlaces.{IsLeast};
ghost use Rattle.sp_verify_rules.specs.Verdict.{BreaksV8};
ghost use Rattle.sp_verify_effects.specs.Edges.{AreEdges};
ghost use Rattle.sp_verify_effects.specs.Effects.{AreEffects};
ghost use Rattle.sp_verify_effects.specs.FactClosure.{IsDone};
ghost use Rattle.sp_verify_effects.specs.PassContexts.{IsPassContext};
ghost use Rattle.sp_verify_effects.specs.SideEffects.{has_side_effects, is_side_effect};
ghost use Rattle.sp_verify_effects.specs.Variables.{AreOwn};

use crate::breach::end_of;
use crate::edges::Edge;
use crate::effects::{EffectRow, Effects};
use crate::facts::{Effect, Fact};
use crate::have;
use crate::outflow::{Outflow, outflow_of};
use crate::pass_context::PassContext;
use crate::variables::{goes_out, owns};
use sp_base::{List, Memory};
use sp_code::Layout;
use sp_verify_areas::least::{least, place_if};
use std::collections::BTreeSet;

// Whether an answering block that does this stores outside itself, or stops.
fn row_has_side_effects(effects: &Effects, l: &Layout, row: &EffectRow) -> bool
    ensures { result ≡ has_side_effects effects.now.own.keys l.now (Some row.now) }
{
    l.answer && (row.stops || goes_out(&effects.own, l.entry, 0, row.stored.items()))
}

fn has_side_effects(effects: &Effects, l: &Layout) -> bool
    ensures { result ≡ has_side_effects effects.now.own.keys l.now (slice_get effects.now.rows l.now.entry) }
{
    match effects.of(l.entry) {
        None => false,
        Some(row) => row_has_side_effects(effects, l, row),
    }
}

// Whether a block that does this answers and has a side effect.
fn is_side_effect(own: &BTreeSet<(u32, u32)>, l: &Layout, effect: Effect) -> bool
    ensures { result ≡ is_side_effect own.now.keys l.now effect }
{
    match effect {
        Effect::Stores(x) => l.answer && !owns(own, l.entry, x),
        Effect::Loads(_) => false,
        Effect::Stops => l.answer,
    }
}

// The first instruction of the block of a layout at this place, if what is done there is a breach.
fn side_effect_of(
    g: &PassContext,
    own: &BTreeSet<(u32, u32)>,
    place: u32,
    fact: Fact,
) -> Option<u32>
    requires known { IsPassContext g.now }
    requires own { AreOwn g.now.code.now own.now.keys }
    requires done { IsDone g.now.code.now fact }
    ensures { (p : ℕ) → result ≡ Some p → BreaksV8 g.now.code.now p }
{
    let layout = match g.code.parts().layouts.get(place as usize) {
        None => return None,
        Some(layout) => layout,
    };
    if layout.entry == fact.area {
        place_if(is_side_effect(own, layout, fact.effect), layout.entry)
    } else {
        None
    }
}

// The same at the end of a way, if the area where that begins does so itself.
fn side_effect_on(
    g: &PassContext,
    rows: &List<List<Edge>>,
    own: &BTreeSet<(u32, u32)>,
    outflow: &Outflow,
) -> Result<Option<u32>, Memory>
    requires known { IsPassContext g.now }
    requires edges { AreEdges g.now.code.now rows.now }
    requires own { AreOwn g.now.code.now own.now.keys }
    ensures { IfOk result (λ o. (p : ℕ) → o ≡ Some p → BreaksV8 g.now.code.now p) }
{
    let end = have!(end_of(g, rows, own, &outflow.way));
    match end {
        None => Ok(None),
        Some(fact) => Ok(side_effect_of(g, own, outflow.place, fact)),
    }
}

/// An instruction at which V8 is broken, if one is found before all effects are. None says nothing.
pub(crate) fn known_side_effect(
    g: &PassContext,
    rows: &List<List<Edge>>,
    own: &BTreeSet<(u32, u32)>,
) -> Result<Option<u32>, Memory>
    requires known { IsPassContext g.now }
    requires edges { AreEdges g.now.code.now rows.now }
    requires own { AreOwn g.now.code.now own.now.keys }
    ensures { IfOk result (λ o. (p : ℕ) → o ≡ Some p → BreaksV8 g.now.code.now p) }
{
    let found = have!(outflow_of(g, rows));
    match found {
        None => Ok(None),
        Some(outflow) => side_effect_on(g, rows, own, &outflow),
    }
}

/// The least instruction at which V8 is broken: the first instruction of a block with an answer that stores outside
/// itself, or comes to a stop. None where there is none.
pub fn first_side_effect(g: &PassContext, effects: &Effects) -> Option<u32>
    requires known { IsPassContext g.now }
    requires effects { AreEffects g.now.code.now effects.now }
    ensures { IsLeast (BreaksV8 g.now.code.now) result }
{
    let mut first = None;
    for l in g.code.parts().layouts.items() {
        first = least(first, place_if(has_side_effects(effects, l), l.entry));
    }
    least(first, effects.asked.known.side_effect)
}
