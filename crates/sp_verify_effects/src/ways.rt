//! Finds a way on which something comes to a child that is not handed it, or to a block to which a call passes the
//! variable. It starts from what areas do themselves that the allowances do not have, and goes along the edges. Nothing
//! here has a contract: `breach.rt` and `clash.rt` go the way again.

use crate::areas::child_at;
use crate::asked_areas::{Asked, is_below};
use crate::callers::{NONE, number_from};
use crate::closure::{fact_along, is_index, is_own};
use crate::edges::Edge;
use crate::facts::{Effect, Fact, Facts, touched};
use crate::have;
use crate::passed::Passed;
use crate::trails::{START, Step, Way, trail_to};
use sp_base::{List, Memory};
use sp_code::{ChildTable, ForkTable};
use std::alloc::Global;
use std::collections::{BTreeMap, BTreeSet};

// How many steps one search may take.
const MOST_STEPS: usize = 60_000_000;

// How many of them a new fact takes.
const STEPS_OF_A_FACT: usize = 8;

/// The places of children in their tables, by first instructions.
pub(crate) type Places = BTreeMap<u32, (u32, u32)>;

/// What a search goes by: edges, the variables of blocks, fork tables, the places of children that end it, the
/// variables that are passed to blocks and end it there, what is asked about which areas, and the bound below which the
/// child begins, if there is one.
#[derive(Clone, Copy)]
pub(crate) struct Ground<'a> {
    pub rows: &'a List<List<Edge>>,
    pub own: &'a BTreeSet<(u32, u32)>,
    pub forks: &'a List<ForkTable>,
    pub places: &'a Places,
    pub passed: &'a Passed,
    pub asked: &'a Asked,
    pub bound: Option<u32>,
}

// A fact that ends the search, and its number.
#[derive(Clone, Copy)]
struct End {
    number: u32,
    fact: Fact,
}

// The facts that were come to, the step to each one, the numbers of those that are not followed yet, the steps that are
// left, and the end in the area with the least first instruction.
#[derive(Drop)]
struct Search {
    facts: Facts,
    steps: List<Step>,
    open: List<u32>,
    left: usize,
    least: Option<End>,
}

fn place_children(places: &mut Places, t: usize, children: &[ChildTable]) -> Result<(), Memory> {
    for (k, child) in children.iter().enumerate() {
        have!(places.insert(child.entry, (number_from(t), number_from(k))));
    }
    Ok(())
}

/// The places of no children.
pub(crate) fn no_places(alloc: Global) -> Places {
    BTreeMap::new(alloc)
}

/// The place of the child that begins there; no place, if there is none.
pub(crate) fn place_of(places: &Places, entry: u32) -> (u32, u32) {
    match places.get(&entry) {
        None => (NONE, NONE),
        Some(place) => *place,
    }
}

/// The places of all children.
pub(crate) fn places_of(alloc: Global, forks: &[ForkTable]) -> Result<Places, Memory> {
    let mut places = no_places(alloc);
    for (t, table) in forks.iter().enumerate() {
        have!(place_children(&mut places, t, table.children.items()));
    }
    Ok(places)
}

// Takes so many of the steps that are left.
fn take(search: &mut Search, count: usize) {
    search.left = search.left.saturating_sub(count);
}

// Comes to a fact.
fn come(search: &mut Search, fact: Fact, step: Step) -> Result<(), Memory> {
    take(search, STEPS_OF_A_FACT);
    have!(search.open.push(number_from(search.facts.len())));
    have!(search.steps.push(step));
    search.facts.add(fact)
}

// Comes to a fact if it is asked about, unless it was come to.
fn come_once(ground: &Ground, search: &mut Search, fact: Fact, step: Step) -> Result<(), Memory> {
    if ground.asked.asks(fact.area as usize, fact.effect) && !search.facts.has(fact) {
        come(search, fact, step)
    } else {
        Ok(())
    }
}

// Goes on from a fact along all edges.
fn go_on(ground: &Ground, search: &mut Search, from: u32, fact: Fact) -> Result<(), Memory> {
    let row = match ground.rows.get(fact.area as usize) {
        None => return Ok(()),
        Some(row) => row,
    };
    take(search, row.len());
    let own = is_own(ground.own, fact.area, fact.effect);
    for (number, edge) in row.items().iter().enumerate() {
        if let Some(next) = fact_along(*edge, own, fact.effect) {
            let edge = number_from(number);
            have!(come_once(ground, search, next, Step { from, edge }));
        }
    }
    Ok(())
}

// Whether a child is not handed what is done.
fn is_beyond(child: &ChildTable, effect: Effect) -> bool {
    match effect {
        Effect::Stores(x) => !child.moved.items().contains(&x),
        Effect::Loads(x) => {
            !child.moved.items().contains(&x)
                && !child.shared.items().contains(&x)
                && !is_index(child.index, x)
        }
        Effect::Stops => false,
    }
}

// Whether a fact is at a child that is not handed it.
fn ends_at_child(ground: &Ground, search: &mut Search, fact: Fact) -> bool {
    if !is_below(ground.bound, fact.area) {
        return false;
    }
    let (t, k) = place_of(ground.places, fact.area);
    match child_at(ground.forks, t, k) {
        None => false,
        Some(child) => {
            take(search, child.moved.len());
            take(search, child.shared.len());
            is_beyond(child, fact.effect)
        }
    }
}

// Whether it is at a block to which the variable is passed.
fn ends_at_block(ground: &Ground, fact: Fact) -> bool {
    match ground.passed.get(&fact.area) {
        None => false,
        Some(set) => match touched(fact.effect) {
            None => false,
            Some(x) => set.contains(&x),
        },
    }
}

// The way to an end.
fn way_to(alloc: Global, search: &Search, end: End) -> Result<Option<Way>, Memory> {
    let (first, edges) = have!(trail_to(alloc, &search.steps, end.number));
    match search.facts.at(first as usize) {
        None => Ok(None),
        Some(start) => Ok(Some(Way {
            start,
            edges,
            end: end.fact,
        })),
    }
}

// Notes an end, if there is none or it comes before the other one.
fn note(search: &mut Search, end: End) {
    let is_less = match search.least {
        None => true,
        Some(least) => end.fact.area < least.fact.area,
    };
    if is_less {
        search.least = Some(end);
    }
}

// Follows a fact, unless it ends there.
fn follow(ground: &Ground, search: &mut Search, number: u32) -> Result<(), Memory> {
    let fact = match search.facts.at(number as usize) {
        None => return Ok(()),
        Some(fact) => fact,
    };
    if ends_at_child(ground, search, fact) || ends_at_block(ground, fact) {
        note(search, End { number, fact });
        Ok(())
    } else {
        go_on(ground, search, number, fact)
    }
}

// Follows all that are not followed yet.
fn follow_all(ground: &Ground, search: &mut Search) -> Result<(), Memory> {
    for _step in 0..MOST_STEPS {
        let number = match search.open.pop() {
            None => return Ok(()),
            Some(number) => number,
        };
        have!(follow(ground, search, number));
        if search.left == 0 {
            return Ok(());
        }
    }
    Ok(())
}

/// A way from one of these facts to an end, if there is one that is found in so many steps: to the area that begins
/// first, for the first fact that comes to one.
pub(crate) fn way_from(
    alloc: Global,
    ground: &Ground,
    told: &Facts,
) -> Result<Option<Way>, Memory> {
    let mut search = Search {
        facts: Facts::new(alloc),
        steps: List::new(alloc),
        open: List::new(alloc),
        left: MOST_STEPS,
        least: None,
    };
    for k in 0..told.len() {
        if let Some(start) = told.at(k) {
            have!(come_once(ground, &mut search, start, START));
        }
        have!(follow_all(ground, &mut search));
        if let Some(end) = search.least {
            return way_to(alloc, &search, end);
        }
        if search.left == 0 {
            return Ok(None);
        }
    }
    Ok(None)
}
