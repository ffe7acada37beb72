//! How facts go on from area to area along edges, until nothing is new.

ghost use Rattle.std.specs.Prelude.{◌≡◌, ◌<◌, OnOk, IfOk, Some, Bool, length};
ghost use Rattle.sp_verify_effects.specs.PassContexts.{IsPassContext};
ghost use Rattle.sp_verify_effects.specs.FactClosure.{AlongOne, AreFacts, Closes, FactLeads, FollowsEdges, GoesAlong};
ghost use Rattle.sp_verify_effects.specs.FactClosure.{fact_along, is_index, is_own};
ghost use Rattle.sp_verify_effects.specs.declared.edges.Edge.TheVariants as edge;
ghost use Rattle.sp_verify_effects.specs.Edges.{AreEdges};
ghost use Rattle.sp_verify_effects.specs.Facts.{Tells, fact};
ghost use Rattle.sp_verify_effects.specs.Variables.{AreOwn};

use crate::asked_areas::Asked;
use crate::edges::{Edge, edge_at};
use crate::facts::{Effect, Fact, Facts};
use crate::have;
use crate::own::tell_own;
use crate::pass_context::PassContext;
use crate::variables::owns;
use sp_base::{List, Memory};
use std::collections::BTreeSet;

/// Whether it is done to a variable of the area's own.
pub(crate) fn is_own(own: &BTreeSet<(u32, u32)>, area: u32, effect: Effect) -> bool
    ensures { result ≡ is_own own.now.keys area effect }
{
    match effect {
        Effect::Stores(x) => owns(own, area, x),
        Effect::Loads(x) => owns(own, area, x),
        Effect::Stops => false,
    }
}

/// Whether a variable is the index.
pub(crate) fn is_index(index: Option<u32>, x: u32) -> bool
    ensures { result ≡ is_index index x }
{
    match index {
        None => false,
        Some(y) => x == y,
    }
}

fn fact(area: u32, effect: Effect) -> Option<Fact>
    ensures { result ≡ Some (fact area effect) }
{
    Some(Fact { area, effect })
}

// From a child to the area that starts it.
fn along_start(to: u32, index: Option<u32>, effect: Effect) -> Option<Fact>
    ensures { (own : Bool) → result ≡ fact_along (edge.Started to index) own effect }
{
    match effect {
        Effect::Stores(_) => fact(to, effect),
        Effect::Loads(x) => {
            if is_index(index, x) {
                None
            } else {
                fact(to, effect)
            }
        }
        Effect::Stops => fact(to, effect),
    }
}

// From a block to one that calls it.
fn along_call(to: u32, own: bool, effect: Effect) -> Option<Fact>
    ensures { result ≡ fact_along (edge.Called to) own effect }
{
    match effect {
        Effect::Stores(_) => { if own { None } else { fact(to, effect) } }
        Effect::Loads(_) => { if own { None } else { fact(to, effect) } }
        Effect::Stops => fact(to, effect),
    }
}

// From a formal to its actual variable.
fn along_formal(to: u32, formal: u32, actual: u32, effect: Effect) -> Option<Fact>
    ensures { (own : Bool) → result ≡ fact_along (edge.Passed to formal actual) own effect }
{
    match effect {
        Effect::Stores(x) => {
            if x == formal {
                fact(to, Effect::Stores(actual))
            } else {
                None
            }
        }
        Effect::Loads(x) => {
            if x == formal {
                fact(to, Effect::Loads(actual))
            } else {
                None
            }
        }
        Effect::Stops => None,
    }
}

/// What goes along an edge.
pub(crate) fn fact_along(edge: Edge, own: bool, effect: Effect) -> Option<Fact>
    ensures { result ≡ fact_along edge own effect }
{
    match edge {
        Edge::Started { to, index } => along_start(to, index, effect),
        Edge::Called { to } => along_call(to, own, effect),
        Edge::Passed { to, formal, actual } => along_formal(to, formal, actual, effect),
    }
}

// What goes along an edge to an area that is asked about.
fn spread_one(
    facts: &mut Facts,
    asked: &Asked,
    edge: Edge,
    own: bool,
    effect: Effect,
) -> Result<(), Memory>
    ensures { OnOk result (Tells facts.old facts.new (GoesAlong asked.now edge own effect)) }
{
    match fact_along(edge, own, effect) {
        None => Ok(()),
        Some(fact) => {
            if asked.asks(fact.area as usize, fact.effect) {
                facts.add(fact)
            } else {
                Ok(())
            }
        }
    }
}

// Along all edges of an area.
fn spread_row(
    facts: &mut Facts,
    asked: &Asked,
    row: &[Edge],
    own: bool,
    effect: Effect,
) -> Result<(), Memory>
    ensures { OnOk result (Tells facts.old facts.new (AlongOne asked.now row.now own effect (length row.now))) }
{
    for k in 0..row.len() {
        let edge = edge_at(row, k);
        have!(spread_one(facts, asked, edge, own, effect));
    }
    Ok(())
}

// What one fact leads to.
fn spread(
    facts: &mut Facts,
    asked: &Asked,
    rows: &List<List<Edge>>,
    own: &BTreeSet<(u32, u32)>,
    fact: Fact,
) -> Result<(), Memory>
    ensures { OnOk result (Tells facts.old facts.new (FactLeads asked.now rows.now own.now.keys fact)) }
{
    match rows.get(fact.area as usize) {
        None => Ok(()),
        Some(row) => {
            let mine = is_own(own, fact.area, fact.effect);
            spread_row(facts, asked, row.items(), mine, fact.effect)
        }
    }
}

// All that facts lead to. Each is followed once; no memory has more of them than the loop would follow.
fn close(
    facts: &mut Facts,
    asked: &Asked,
    rows: &List<List<Edge>>,
    own: &BTreeSet<(u32, u32)>,
) -> Result<(), Memory>
    ensures { OnOk result (Closes asked.now rows.now own.now.keys facts.old facts.new) }
{
    for i in 0..usize::MAX {
        let fact = match facts.at(i) {
            None => return Ok(()),
            Some(fact) => fact,
        };
        have!(spread(facts, asked, rows, own, fact));
    }
    Err(Memory)
}

/// What each area that is asked about does, with what it starts and calls, by all edges and the variables of blocks.
pub(crate) fn facts_of(
    g: &PassContext,
    asked: &Asked,
    rows: &List<List<Edge>>,
    own: &BTreeSet<(u32, u32)>,
) -> Result<Facts, Memory>
    requires known { IsPassContext g.now }
    requires follows { FollowsEdges rows.now asked.now }
    requires edges { AreEdges g.now.code.now rows.now }
    requires own { AreOwn g.now.code.now own.now.keys }
    ensures { IfOk result (AreFacts g.now.code.now asked.now) }
{
    let mut facts = Facts::new(g.code.parts().instrs.alloc());
    have!(tell_own(g, asked, &mut facts));
    have!(close(&mut facts, asked, rows, own));
    Ok(facts)
}
