//! The effects of areas of code, as a table by their first instructions.

ghost use Rattle.std.specs.Prelude.{◌≡◌, ℕ, IfOk, OnOk, length, slice_get};
ghost use Rattle.sp_verify_effects.specs.PassContexts.{IsPassContext};
ghost use Rattle.sp_verify_effects.specs.AskedAreas.{AreKnown};
ghost use Rattle.sp_verify_effects.specs.Edges.{AreEdges};
ghost use Rattle.sp_verify_effects.specs.Effects.{AddsEffect, AreEffects, AreFound, AreRows, RowsHave, WritesFact};
ghost use Rattle.sp_verify_effects.specs.Effects.{touches};
ghost use Rattle.sp_verify_effects.specs.FactClosure.{FollowsEdges};
ghost use Rattle.sp_verify_effects.specs.Variables.{AreOwn};
ghost use Rattle.sp_verify_effects.specs.declared.facts.Effect.{Effect as EffectOf};
ghost use Rattle.std.specs.Option.{option_copied};

use crate::asked_areas::{Asked, Known, asked_of};
use crate::clash::known_clash;
use crate::closure::facts_of;
use crate::edges::{Edge, edges_of};
use crate::facts::{Effect, Fact, Facts};
use crate::have;
use crate::pass_context::PassContext;
use crate::side_effects::known_side_effect;
use crate::variables::own_of;
use sp_base::{List, Memory};
use std::alloc::Global;
use std::collections::BTreeSet;

/// What the code of a block or child does, with the children that it starts and the blocks that it calls.
#[derive(Drop)]
pub struct EffectRow {
    /// The variables that it stores, each once.
    pub stored: List<u32>,
    /// The variables that it loads, each once.
    pub loaded: List<u32>,
    /// Whether it comes to a stop other than a fault.
    pub stops: bool,
}

/// What the code of each block and child does, by its first instruction.
#[derive(Drop)]
pub struct Effects {
    /// By the number of the first instruction. If no code begins there that is asked about, a row says nothing.
    pub rows: List<EffectRow>,
    /// The same as facts.
    pub facts: Facts,
    /// The variables of each block, each under the first instruction of its block.
    pub own: BTreeSet<(u32, u32)>,
    /// What the rules ask about areas, and those that these start or call: rows and facts say nothing else.
    pub asked: Asked,
}

impl Effects {
    /// What the block or child with this first instruction does, as far as it is asked about.
    pub fn of(&self, entry: u32) -> Option<&EffectRow>
        ensures { option_copied result ≡ slice_get self.now.rows entry }
    {
        self.rows.get(entry as usize)
    }

    /// Whether the block or child with this first instruction, which is asked about, stores or loads the variable.
    pub fn touches(&self, entry: u32, variable: u32) -> bool
        ensures { result ≡ touches self.now entry variable }
    {
        let stores = Fact {
            area: entry,
            effect: Effect::Stores(variable),
        };
        let loads = Fact {
            area: entry,
            effect: Effect::Loads(variable),
        };
        self.facts.has(stores) || self.facts.has(loads)
    }
}

// So many rows that say nothing.
fn empty_rows(alloc: Global, count: usize) -> Result<List<EffectRow>, Memory>
    ensures { IfOk result (λ rows. (length rows ≡ count) × ((m : ℕ) (d : EffectOf) → RowsHave rows m d → ⊥)) }
{
    let mut rows = List::new(alloc);
    for _m in 0..count {
        rows.push(EffectRow {
            stored: List::new(alloc),
            loaded: List::new(alloc),
            stops: false,
        })?;
    }
    Ok(rows)
}

// Puts an effect into a row.
fn put(row: &mut EffectRow, effect: Effect) -> Result<(), Memory>
    ensures { OnOk result (AddsEffect row.old row.new effect) }
{
    match effect {
        Effect::Stores(x) => {
            have!(row.stored.push(x));
        }
        Effect::Loads(x) => {
            have!(row.loaded.push(x));
        }
        Effect::Stops => {
            row.stops = true;
        }
    }
    Ok(())
}

// Writes a fact into the row of its area.
fn write(alloc: Global, rows: &mut List<EffectRow>, fact: Fact) -> Result<(), Memory>
    ensures { OnOk result (WritesFact rows.old rows.new fact) }
{
    let at = fact.area as usize;
    if at >= rows.len() {
        return Ok(());
    }
    let none = EffectRow {
        stored: List::new(alloc),
        loaded: List::new(alloc),
        stops: false,
    };
    let mut row = rows.replace(at, none);
    have!(put(&mut row, fact.effect));
    let _none = rows.replace(at, row);
    Ok(())
}

// Facts by their areas, in so many rows.
fn rows_of(alloc: Global, facts: &Facts, count: usize) -> Result<List<EffectRow>, Memory>
    ensures { IfOk result (AreRows facts.now (length facts.now) count) }
{
    let mut rows = have!(empty_rows(alloc, count));
    for i in 0..facts.len() {
        let fact = match facts.at(i) {
            None => return Ok(rows),
            Some(fact) => fact,
        };
        have!(write(alloc, &mut rows, fact));
    }
    Ok(rows)
}

/// What the code of each block and child does that is asked about, by all edges and the variables of blocks.
pub(crate) fn effects_of(
    g: &PassContext,
    asked: Asked,
    edges: &List<List<Edge>>,
    own: BTreeSet<(u32, u32)>,
) -> Result<Effects, Memory>
    requires known { IsPassContext g.now }
    requires follows { FollowsEdges edges.now asked }
    requires edges { AreEdges g.now.code.now edges.now }
    requires own { AreOwn g.now.code.now own.keys }
    ensures found { IfOk result (AreFound g.now.code.now) }
    ensures asked { IfOk result (λ effects. effects.asked ≡ asked) }
{
    let facts = have!(facts_of(g, &asked, edges, &own));
    let instrs = &g.code.parts().instrs;
    let rows = have!(rows_of(instrs.alloc(), &facts, instrs.len()));
    Ok(Effects {
        rows,
        facts,
        own,
        asked,
    })
}

// What is found to be broken before all effects are known.
fn known_breaches(
    g: &PassContext,
    edges: &List<List<Edge>>,
    own: &BTreeSet<(u32, u32)>,
) -> Result<Known, Memory>
    requires known { IsPassContext g.now }
    requires edges { AreEdges g.now.code.now edges.now }
    requires own { AreOwn g.now.code.now own.now.keys }
    ensures { IfOk result (AreKnown g.now.code.now) }
{
    let clash = have!(known_clash(g, edges, own));
    let side_effect = have!(known_side_effect(g, edges, own));
    Ok(Known { clash, side_effect })
}

/// What the code of each block and child does that a rule asks about. The only other answer is want of memory.
pub fn find_effects(g: &PassContext) -> Result<Effects, Memory>
    requires known { IsPassContext g.now }
    ensures { IfOk result (λ effects. AreEffects g.now.code.now effects) }
{
    let own = have!(own_of(g.code));
    let edges = have!(edges_of(g));
    let known = have!(known_breaches(g, &edges, &own));
    let asked = have!(asked_of(g, &edges, &own, known));
    let effects = have!(effects_of(g, asked, &edges, own));
    Ok(effects)
}
