//! Rule V6 before all effects are known: if a child does something that it is not handed, the way on which that comes
//! to it shows it, and no other effect is needed, except those of the children that begin before it.

ghost use Rattle.std.specs.Prelude.{◌≡◌, ℕ, IfOk, Some};
ghost use Rattle.sp_verify_areas.specs.LeastPlaces.{IsLeast};
ghost use Rattle.sp_verify_effects.specs.declared.facts.Fact.{Fact as FactOf};
ghost use Rattle.sp_verify_effects.specs.ChildEffects.{fails_alone, loaded_of, stored_of};
ghost use Rattle.sp_verify_effects.specs.Edges.{AreEdges};
ghost use Rattle.sp_verify_effects.specs.FactClosure.{AreDone, IsDone};
ghost use Rattle.sp_verify_effects.specs.PassContexts.{IsPassContext};
ghost use Rattle.sp_verify_effects.specs.Variables.{AreOwn};
ghost use Rattle.sp_verify_rules.specs.Verdict.{BreaksV6};

use crate::areas::child_at;
use crate::asked_areas::{Asked, area_alone, asked_below, find_below};
use crate::callers::{Groups, groups_of};
use crate::child_effects::{fails_alone, first_in};
use crate::closure::{fact_along, is_own};
use crate::edges::{Edge, edge_at, edges_of};
use crate::effects::effects_of;
use crate::facts::{Effect, Fact, Facts};
use crate::halving::{Halving, earlier, halving_of, last_asked, later};
use crate::have;
use crate::own::tell_own;
use crate::pass_context::PassContext;
use crate::passed::none_passed;
use crate::trails::Way;
use crate::variables::own_of;
use crate::ways::{Ground, Places, place_of, places_of, way_from};
use sp_base::{List, Memory};
use sp_code::ChildTable;
use sp_verify_areas::least::{least, place_if};
use std::alloc::Global;
use std::collections::BTreeSet;

/// What areas do themselves that is asked about.
pub(crate) fn told_of(g: &PassContext, asked: &Asked) -> Result<Facts, Memory>
    requires known { IsPassContext g.now }
    ensures { IfOk result (AreDone g.now.code.now) }
{
    let mut facts = Facts::new(g.code.parts().instrs.alloc());
    have!(tell_own(g, asked, &mut facts));
    Ok(facts)
}

// What a fact becomes along the edge of this number of its area.
fn step(
    g: &PassContext,
    rows: &List<List<Edge>>,
    own: &BTreeSet<(u32, u32)>,
    fact: Fact,
    number: u32,
) -> Option<Fact>
    requires known { IsPassContext g.now }
    requires edges { AreEdges g.now.code.now rows.now }
    requires own { AreOwn g.now.code.now own.now.keys }
    requires done { IsDone g.now.code.now fact }
    ensures { (f : FactOf) → result ≡ Some f → IsDone g.now.code.now f }
{
    let row = match rows.get(fact.area as usize) {
        None => return None,
        Some(row) => row.items(),
    };
    let k = number as usize;
    if k < row.len() {
        let edge = edge_at(row, k);
        fact_along(edge, is_own(own, fact.area, fact.effect), fact.effect)
    } else {
        None
    }
}

// What it becomes along one edge after the other.
fn walk(
    g: &PassContext,
    rows: &List<List<Edge>>,
    own: &BTreeSet<(u32, u32)>,
    start: Fact,
    numbers: &[u32],
) -> Option<Fact>
    requires known { IsPassContext g.now }
    requires edges { AreEdges g.now.code.now rows.now }
    requires own { AreOwn g.now.code.now own.now.keys }
    requires done { IsDone g.now.code.now start }
    ensures { (f : FactOf) → result ≡ Some f → IsDone g.now.code.now f }
{
    let mut fact = start;
    for number in numbers {
        fact = match step(g, rows, own, fact, *number) {
            None => return None,
            Some(next) => next,
        };
    }
    Some(fact)
}

/// What is done at the end of a way, if the area where that begins does so itself.
pub(crate) fn end_of(
    g: &PassContext,
    rows: &List<List<Edge>>,
    own: &BTreeSet<(u32, u32)>,
    way: &Way,
) -> Result<Option<Fact>, Memory>
    requires known { IsPassContext g.now }
    requires edges { AreEdges g.now.code.now rows.now }
    requires own { AreOwn g.now.code.now own.now.keys }
    ensures { IfOk result (λ o. (f : FactOf) → o ≡ Some f → IsDone g.now.code.now f) }
{
    let instrs = &g.code.parts().instrs;
    let asked = have!(area_alone(instrs.alloc(), instrs.len(), way.start.area));
    let told = have!(told_of(g, &asked));
    if !told.has(way.start) {
        return Ok(None);
    }
    Ok(walk(g, rows, own, way.start, way.edges.items()))
}

// The variable that is stored, if one is; and the one that is loaded.
fn stored_of(alloc: Global, effect: Effect) -> Result<List<u32>, Memory>
    ensures { IfOk result (λ xs. xs ≡ stored_of effect) }
{
    let mut xs = List::new(alloc);
    if let Effect::Stores(x) = effect {
        have!(xs.push(x));
    }
    Ok(xs)
}

fn loaded_of(alloc: Global, effect: Effect) -> Result<List<u32>, Memory>
    ensures { IfOk result (λ xs. xs ≡ loaded_of effect) }
{
    let mut xs = List::new(alloc);
    if let Effect::Loads(x) = effect {
        have!(xs.push(x));
    }
    Ok(xs)
}

// Whether a child that does this fails.
fn fails_doing(alloc: Global, child: &ChildTable, effect: Effect) -> Result<bool, Memory>
    ensures { IfOk result (λ fails. fails ≡ fails_alone (stored_of effect) (loaded_of effect) child.now) }
{
    let stored = have!(stored_of(alloc, effect));
    let loaded = have!(loaded_of(alloc, effect));
    fails_alone(alloc, child, stored.items(), loaded.items())
}

// The first instruction of child k of table t, if what is done there is a breach.
fn breach_of(g: &PassContext, t: u32, k: u32, fact: Fact) -> Result<Option<u32>, Memory>
    requires known { IsPassContext g.now }
    requires done { IsDone g.now.code.now fact }
    ensures { IfOk result (λ o. (p : ℕ) → o ≡ Some p → BreaksV6 g.now.code.now p) }
{
    let parts = g.code.parts();
    let child = match child_at(&parts.forks, t, k) {
        None => return Ok(None),
        Some(child) => child,
    };
    if child.entry == fact.area {
        let fails = have!(fails_doing(parts.instrs.alloc(), child, fact.effect));
        Ok(place_if(fails, child.entry))
    } else {
        Ok(None)
    }
}

// The same at the end of a way, if that begins with one of these facts.
fn breach_on(
    g: &PassContext,
    rows: &List<List<Edge>>,
    own: &BTreeSet<(u32, u32)>,
    places: &Places,
    told: &Facts,
    way: &Way,
) -> Result<Option<u32>, Memory>
    requires known { IsPassContext g.now }
    requires edges { AreEdges g.now.code.now rows.now }
    requires own { AreOwn g.now.code.now own.now.keys }
    requires told { AreDone g.now.code.now told.now }
    ensures { IfOk result (λ o. (p : ℕ) → o ≡ Some p → BreaksV6 g.now.code.now p) }
{
    if !told.has(way.start) {
        return Ok(None);
    }
    match walk(g, rows, own, way.start, way.edges.items()) {
        None => Ok(None),
        Some(fact) => {
            let (t, k) = place_of(places, fact.area);
            breach_of(g, t, k, fact)
        }
    }
}

// The same for a child that begins below a bound, if one is found.
fn breach_below(
    g: &PassContext,
    rows: &List<List<Edge>>,
    own: &BTreeSet<(u32, u32)>,
    groups: &Groups,
    places: &Places,
    bound: Option<u32>,
) -> Result<Option<u32>, Memory>
    requires known { IsPassContext g.now }
    requires edges { AreEdges g.now.code.now rows.now }
    requires own { AreOwn g.now.code.now own.now.keys }
    ensures { IfOk result (λ o. (p : ℕ) → o ≡ Some p → BreaksV6 g.now.code.now p) }
{
    let parts = g.code.parts();
    let passed = none_passed(parts.instrs.alloc());
    let asked = have!(find_below(g, rows, groups, bound, &passed));
    let told = have!(told_of(g, &asked));
    let ground = Ground {
        rows,
        own,
        forks: &parts.forks,
        places,
        passed: &passed,
        asked: &asked,
        bound,
    };
    let way = have!(way_from(parts.instrs.alloc(), &ground, &told));
    match way {
        None => Ok(None),
        Some(way) => breach_on(g, rows, own, places, &told, &way),
    }
}

// The first instructions of the children, the least one first.
fn entries_of(alloc: Global, places: &Places) -> Result<List<u32>, Memory> {
    let mut entries = List::new(alloc);
    for (entry, _) in places.iter() {
        have!(entries.push(*entry));
    }
    Ok(entries)
}

// Asks about some of these children, and goes on with what is left.
fn halve(
    g: &PassContext,
    rows: &List<List<Edge>>,
    own: &BTreeSet<(u32, u32)>,
    groups: &Groups,
    places: &Places,
    entries: &List<u32>,
    halving: Halving,
) -> Result<Halving, Memory>
    requires known { IsPassContext g.now }
    requires edges { AreEdges g.now.code.now rows.now }
    requires own { AreOwn g.now.code.now own.now.keys }
    requires broken { BreaksV6 g.now.code.now halving.first }
    ensures { IfOk result (λ h. BreaksV6 g.now.code.now h.first) }
{
    let (number, bound) = last_asked(entries, halving);
    let found = have!(breach_below(g, rows, own, groups, places, bound));
    match found {
        None => Ok(later(halving, number)),
        Some(q) => Ok(earlier(entries, halving, q)),
    }
}

// Of the breaches from this one down the first one that is found by halving.
fn least_breach(
    g: &PassContext,
    rows: &List<List<Edge>>,
    own: &BTreeSet<(u32, u32)>,
    groups: &Groups,
    places: &Places,
    p: u32,
) -> Result<u32, Memory>
    requires known { IsPassContext g.now }
    requires edges { AreEdges g.now.code.now rows.now }
    requires own { AreOwn g.now.code.now own.now.keys }
    requires broken { BreaksV6 g.now.code.now p }
    ensures { IfOk result (BreaksV6 g.now.code.now) }
{
    let entries = have!(entries_of(g.code.parts().instrs.alloc(), places));
    let mut halving = halving_of(&entries, p);
    for _round in 0..64 {
        if halving.low >= halving.high {
            return Ok(halving.first);
        }
        halving = have!(halve(g, rows, own, groups, places, &entries, halving));
    }
    Ok(halving.first)
}

// The least instruction at which V6 is broken, where it is broken at p.
fn first_to(
    g: &PassContext,
    rows: &List<List<Edge>>,
    own: BTreeSet<(u32, u32)>,
    groups: &Groups,
    p: u32,
) -> Result<Option<u32>, Memory>
    requires known { IsPassContext g.now }
    requires edges { AreEdges g.now.code.now rows.now }
    requires own { AreOwn g.now.code.now own.keys }
    requires broken { BreaksV6 g.now.code.now p }
    ensures { IfOk result (IsLeast (BreaksV6 g.now.code.now)) }
{
    let asked = have!(asked_below(g, rows, groups, Some(p)));
    let effects = have!(effects_of(g, asked, rows, own));
    let parts = g.code.parts();
    let first = have!(first_in(parts.instrs.alloc(), &effects, parts.forks.items()));
    Ok(least(first, Some(p)))
}

// The same, if a breach is found.
fn first_found(
    g: &PassContext,
    rows: &List<List<Edge>>,
    own: BTreeSet<(u32, u32)>,
) -> Result<Option<u32>, Memory>
    requires known { IsPassContext g.now }
    requires edges { AreEdges g.now.code.now rows.now }
    requires own { AreOwn g.now.code.now own.keys }
    ensures { IfOk result (λ o. (p : ℕ) → o ≡ Some p → IsLeast (BreaksV6 g.now.code.now) (Some p)) }
{
    let parts = g.code.parts();
    let places = have!(places_of(parts.instrs.alloc(), parts.forks.items()));
    let groups = have!(groups_of(rows));
    let found = have!(breach_below(g, rows, &own, &groups, &places, None));
    let p = match found {
        None => return Ok(None),
        Some(p) => p,
    };
    let breach = have!(least_breach(g, rows, &own, &groups, &places, p));
    let first = have!(first_to(g, rows, own, &groups, breach));
    Ok(first)
}

/// The least instruction at which V6 is broken, if a child is found that stores or loads more than it is handed, before
/// all effects are. None says nothing. The only other answer is want of memory.
pub fn first_beyond(g: &PassContext) -> Result<Option<u32>, Memory>
    requires known { IsPassContext g.now }
    ensures { IfOk result (λ o. (p : ℕ) → o ≡ Some p → IsLeast (BreaksV6 g.now.code.now) (Some p)) }
{
    if g.code.parts().forks.len() == 0 {
        return Ok(None);
    }
    let own = have!(own_of(g.code));
    let rows = have!(edges_of(g));
    first_found(g, &rows, own)
}
