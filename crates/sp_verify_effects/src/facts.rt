//! Facts about areas of code: a set that keeps the order in which they are found.

ghost use Rattle.std.specs.Prelude.{◌≡◌, ℕ, ◌<◌, ◌||◌, ◌++◌, ◌∷◌, [], false, IfOk, OnOk, length, slice_get};
ghost use Rattle.sp_verify_effects.specs.declared.facts.Effect.{Effect as EffectOf};
ghost use Rattle.sp_verify_effects.specs.declared.facts.Fact.{Fact as FactOf};
ghost use Rattle.sp_verify_effects.specs.Facts.{in_sets, index_has, sets_have, same_fact, same_effect, has_fact};
ghost use Rattle.sp_verify_effects.specs.Facts.{touched, with_fact};

use crate::have;
use sp_base::{List, Memory};
use std::alloc::Global;
use std::collections::BTreeSet;
use std::marker::Model;
use std::mem;

/// What the code of an area does.
#[derive(Clone, Copy)]
pub enum Effect {
    /// It stores the variable of this number.
    Stores(u32),
    /// It loads it.
    Loads(u32),
    /// It comes to a stop other than a fault.
    Stops,
}

/// The variable that is stored or loaded.
pub(crate) fn touched(effect: Effect) -> Option<u32>
    ensures { result ≡ touched effect }
{
    match effect {
        Effect::Stores(x) => Some(x),
        Effect::Loads(x) => Some(x),
        Effect::Stops => None,
    }
}

/// What one area does.
#[derive(Clone, Copy)]
pub struct Fact {
    /// The first instruction of the area.
    pub area: u32,
    pub effect: Effect,
}

// What one area does.
#[derive(Drop)]
struct Sets {
    stored: BTreeSet<u32>,
    loaded: BTreeSet<u32>,
    stops: bool,
}

fn no_sets(alloc: Global) -> Sets
    ensures { (d : EffectOf) → in_sets result d ≡ false }
{
    Sets {
        stored: BTreeSet::new(alloc),
        loaded: BTreeSet::new(alloc),
        stops: false,
    }
}

fn has_effect(sets: &Sets, effect: Effect) -> bool
    ensures { result ≡ in_sets sets.now effect }
{
    match effect {
        Effect::Stores(x) => sets.stored.contains(&x),
        Effect::Loads(x) => sets.loaded.contains(&x),
        Effect::Stops => sets.stops,
    }
}

fn put_effect(sets: &mut Sets, effect: Effect) -> Result<(), Memory>
    ensures { OnOk result ((d : EffectOf) → in_sets sets.new d ≡ same_effect d effect || in_sets sets.old d) }
{
    match effect {
        Effect::Stores(x) => {
            have!(sets.stored.insert(x));
        }
        Effect::Loads(x) => {
            have!(sets.loaded.insert(x));
        }
        Effect::Stops => {
            sets.stops = true;
        }
    }
    Ok(())
}

// Gives an area a place, and those before it.
fn reach(areas: &mut List<Sets>, area: u32) -> Result<(), Memory>
    ensures { OnOk result ((area < length areas.new)
        × ((p : ℕ) (d : EffectOf) → sets_have areas.new p d ≡ sets_have areas.old p d)) }
{
    let alloc = areas.alloc();
    for _place in areas.len()..area as usize + 1 {
        areas.push(no_sets(alloc))?;
    }
    Ok(())
}

// Puts a fact at the place of its area.
fn put_at(areas: &mut List<Sets>, fact: Fact) -> Result<(), Memory>
    requires { fact.area < length areas.old }
    ensures { OnOk result ((f : FactOf) → sets_have areas.new f.area f.effect
        ≡ same_fact f fact || sets_have areas.old f.area f.effect) }
{
    let none = no_sets(areas.alloc());
    let mut sets = areas.replace(fact.area as usize, none);
    have!(put_effect(&mut sets, fact.effect));
    let _none = areas.replace(fact.area as usize, sets);
    Ok(())
}

// Facts in sets, by their areas: those of each area stand at its place.
#[derive(Drop)]
struct Index {
    areas: List<Sets>,
}

impl Index {
    fn new(alloc: Global) -> Index
        ensures { (p : ℕ) (d : EffectOf) → index_has result p d ≡ false }
    {
        Index {
            areas: List::new(alloc),
        }
    }

    fn has(&self, fact: Fact) -> bool
        ensures { result ≡ index_has self.now fact.area fact.effect }
    {
        match self.areas.get(fact.area as usize) {
            None => false,
            Some(sets) => has_effect(sets, fact.effect),
        }
    }

    fn put(&mut self, fact: Fact) -> Result<(), Memory>
        ensures { OnOk result ((f : FactOf) → index_has self.new f.area f.effect
            ≡ same_fact f fact || index_has self.old f.area f.effect) }
    {
        have!(reach(&mut self.areas, fact.area));
        put_at(&mut self.areas, fact)
    }
}

/// Facts, each once, in the order in which they were found. Contracts see them as their list; whether one is among them
/// is looked up in ordered sets.
#[derive(Drop)]
pub struct Facts {
    all: List<Fact>,
    index: Index,
}

impl Model for Facts {
    ghost use Rattle.std.specs.Prelude.{List};
    ghost use Rattle.sp_verify_effects.specs.declared.facts.Fact.{Fact};
    ghost use Rattle.sp_verify_effects.specs.Facts.{AreIndexed};

    ghost Value = { List Fact };

    ghost view = { λ it. it.all };

    ghost invariant = { λ it. AreIndexed it.all it.index };
}

impl Facts {
    pub fn new(alloc: Global) -> Facts
        ensures { result ≡ [] }
    {
        Facts {
            all: List::new(alloc),
            index: Index::new(alloc),
        }
    }

    pub fn len(&self) -> usize
        ensures { result ≡ length self.now }
    {
        self.all.len()
    }

    /// The fact of this number, from 0.
    pub fn at(&self, number: usize) -> Option<Fact>
        ensures { result ≡ slice_get self.now number }
    {
        self.all.get(number).copied()
    }

    /// Whether the fact is among them.
    pub fn has(&self, fact: Fact) -> bool
        ensures { result ≡ has_fact self.now fact }
    {
        self.index.has(fact)
    }

    // One more. Where memory is refused they are gone.
    fn with_new(self, fact: Fact) -> Result<Facts, Memory>
        ensures { IfOk result (λ facts. facts ≡ self ++ fact ∷ []) }
    {
        let Facts { all, index } = self;
        let mut all = all;
        let mut index = index;
        have!(all.push(fact));
        have!(index.put(fact));
        Ok(Facts { all, index })
    }

    /// One more fact, unless it is among them. Where memory is refused they are gone.
    pub fn add(&mut self, fact: Fact) -> Result<(), Memory>
        ensures { OnOk result (self.new ≡ with_fact self.old fact) }
    {
        if self.has(fact) {
            return Ok(());
        }
        let none = Facts::new(self.all.alloc());
        let facts = mem::replace(self, none);
        *self = have!(facts.with_new(fact));
        Ok(())
    }
}
