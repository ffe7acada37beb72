//! Finds the first block that answers and has a side effect, and a way on which that comes to it. An area may store
//! variables of the blocks around it, the input and the output. So of all that comes to an area the outermost one is
//! enough: if that stays within a block that answers, all does. What areas do themselves goes along the edges, the
//! outermost first, and each area is come to once. Nothing here has a contract: `side_effects.rt` goes the way again.

ghost use Rattle.std.specs.Prelude.{◌<◌, length};
ghost use Rattle.sp_verify_effects.specs.PassContexts.{IsPassContext};

use crate::acts::is_nowhere;
use crate::areas::area_at;
use crate::asked_areas::target;
use crate::callers::{NONE, no_numbers, number_from, number_of, set_number};
use crate::edges::Edge;
use crate::facts::{Effect, Fact};
use crate::have;
use crate::own::variables_at;
use crate::pass_context::PassContext;
use crate::places::{is_stop, stored_place};
use crate::trails::{START, Step, Way, trail_to};
use sp_base::{List, Memory};
use sp_code::{Instr, Layout};
use sp_verify_areas::blocks::Blocks;
use sp_verify_areas::flags::{flag_at, mark, no_flags};
use sp_verify_shapes::reach::reached;
use std::alloc::Global;
use std::collections::{BTreeMap, BTreeSet};

/// A way from what an area does itself to the block of a layout, and the place of the layout.
#[derive(Drop)]
pub(crate) struct Outflow {
    pub way: Way,
    pub place: u32,
}

// How far blocks are from the outermost level, on which the input and the output are: by their first instructions, and
// by their variables.
#[derive(Drop)]
struct Levels {
    entries: List<u32>,
    variables: BTreeMap<u32, u32>,
}

// Of each area, the outermost level on which it does something, the variable that it stores there (no number is a
// stop), and the step on which that came to it. Areas that are come to have flags; those whose edges are not followed
// yet are open.
#[derive(Drop)]
struct Search {
    levels: List<u32>,
    variables: List<u32>,
    steps: List<Step>,
    known: List<bool>,
    open: List<u32>,
}

// The place of the layout of the block around that of a layout.
fn around(blocks: &Blocks, layouts: &List<Layout>, place: u32) -> Option<u32> {
    match layouts.get(place as usize) {
        None => None,
        Some(l) => match l.parent {
            None => None,
            Some(parent) => blocks.place(parent),
        },
    }
}

// Goes outward from a layout to one that has a level, and notes on the path those that have none. Gives the level.
fn go_out(
    blocks: &Blocks,
    layouts: &List<Layout>,
    levels: &List<u32>,
    path: &mut List<u32>,
    place: u32,
) -> Result<u32, Memory> {
    let mut at = place;
    for _step in 0..layouts.len() {
        let level = number_of(levels, at as usize);
        if level != NONE {
            return Ok(level);
        }
        have!(path.push(at));
        at = match around(blocks, layouts, at) {
            None => return Ok(0),
            Some(next) => next,
        };
    }
    Ok(0)
}

// The levels of blocks, by the places of their layouts.
fn block_levels(
    alloc: Global,
    blocks: &Blocks,
    layouts: &List<Layout>,
) -> Result<List<u32>, Memory> {
    let mut levels = have!(no_numbers(alloc, layouts.len()));
    let mut path = List::new(alloc);
    for place in 0..layouts.len() {
        let mut level = have!(go_out(blocks, layouts, &levels, &mut path, number_from(place)));
        for _step in 0..path.len() {
            if let Some(at) = path.pop() {
                level = level.saturating_add(1);
                set_number(&mut levels, at as usize, level);
            }
        }
    }
    Ok(levels)
}

// Puts the level of a block.
fn put_level(levels: &mut Levels, l: &Layout, level: u32) -> Result<(), Memory> {
    set_number(&mut levels.entries, l.entry as usize, level);
    for x in l.variables.items() {
        have!(levels.variables.insert(*x, level));
    }
    Ok(())
}

// All levels.
fn levels_of(alloc: Global, g: &PassContext) -> Result<Levels, Memory> {
    let parts = g.code.parts();
    let by_place = have!(block_levels(alloc, g.blocks, &parts.layouts));
    let entries = have!(no_numbers(alloc, parts.instrs.len()));
    let mut levels = Levels {
        entries,
        variables: BTreeMap::new(alloc),
    };
    for (place, l) in parts.layouts.items().iter().enumerate() {
        have!(put_level(&mut levels, l, number_of(&by_place, place)));
    }
    Ok(levels)
}

fn search_of(alloc: Global, count: usize) -> Result<Search, Memory> {
    let levels = have!(no_numbers(alloc, count));
    let variables = have!(no_numbers(alloc, count));
    let steps = List::of(have!(vec![in alloc; START; count]));
    let known = have!(no_flags(alloc, count));
    Ok(Search {
        levels,
        variables,
        steps,
        known,
        open: List::new(alloc),
    })
}

// Notes that an area stores a variable, or comes to a stop, unless it does something further outward.
fn note(search: &mut Search, area: u32, level: u32, variable: u32) {
    let at = area as usize;
    if level < number_of(&search.levels, at) {
        set_number(&mut search.levels, at, level);
        set_number(&mut search.variables, at, variable);
    }
}

// The level of a variable. The input and the output are on the outermost one.
fn level_of(levels: &Levels, x: u32) -> u32 {
    if x < 2 {
        return 0;
    }
    match levels.variables.get(&x).copied() {
        None => NONE,
        Some(level) => level,
    }
}

// Notes what the instruction at p does, in this area.
fn note_at(
    g: &PassContext,
    levels: &Levels,
    search: &mut Search,
    area: u32,
    p: u32,
    instr: Instr,
) -> Result<(), Memory>
    requires known { IsPassContext g.now }
    requires there { p < length g.now.code.now.instrs }
{
    let stack = match reached(g.shapes, p) {
        None => return Ok(()),
        Some(stack) => stack,
    };
    if is_stop(instr) {
        note(search, area, 0, NONE);
    }
    let xs = have!(variables_at(g, p, stored_place(instr), stack));
    for x in xs.items() {
        note(search, area, level_of(levels, *x), *x);
    }
    Ok(())
}

// Whether an instruction may store something or be a stop.
fn does_something(instr: Instr) -> bool {
    is_stop(instr) || !is_nowhere(stored_place(instr))
}

// The same in whichever area it lies.
fn note_in(g: &PassContext, levels: &Levels, search: &mut Search, p: u32) -> Result<(), Memory>
    requires known { IsPassContext g.now }
    requires there { p < length g.now.code.now.instrs }
{
    let instr = match g.code.instr(p) {
        None => return Ok(()),
        Some(instr) => instr,
    };
    if !does_something(instr) {
        return Ok(());
    }
    match area_at(g, p) {
        None => Ok(()),
        Some(area) => note_at(g, levels, search, area, p, instr),
    }
}

// What all areas do themselves.
fn note_all(g: &PassContext, levels: &Levels, search: &mut Search) -> Result<(), Memory>
    requires known { IsPassContext g.now }
{
    for p in 0..g.code.parts().instrs.len() {
        if !flag_at(g.repeats, p) {
            have!(note_in(g, levels, search, p as u32));
        }
    }
    Ok(())
}

// Whether what an area on a level does on another one goes along an edge.
fn goes_along(edge: Edge, home: u32, level: u32) -> bool {
    match edge {
        Edge::Started { to: _, index: _ } => true,
        Edge::Called { to: _ } => level < home,
        Edge::Passed {
            to: _,
            formal: _,
            actual: _,
        } => false,
    }
}

// Sets the step to an area.
fn set_step(steps: &mut List<Step>, m: usize, step: Step) {
    if m < steps.len() {
        let _old = steps.replace(m, step);
    }
}

// Something comes to an area along an edge from another one, or is done there.
fn come(search: &mut Search, m: u32, level: u32, variable: u32, step: Step) -> Result<(), Memory> {
    let at = m as usize;
    set_number(&mut search.levels, at, level);
    set_number(&mut search.variables, at, variable);
    set_step(&mut search.steps, at, step);
    mark(&mut search.known, at);
    have!(search.open.push(m));
    Ok(())
}

// Goes on from an area along its edges.
fn follow(
    rows: &List<List<Edge>>,
    levels: &Levels,
    search: &mut Search,
    m: u32,
) -> Result<(), Memory> {
    let row = match rows.get(m as usize) {
        None => return Ok(()),
        Some(row) => row,
    };
    let home = number_of(&levels.entries, m as usize);
    let level = number_of(&search.levels, m as usize);
    let variable = number_of(&search.variables, m as usize);
    for (number, edge) in row.items().iter().enumerate() {
        let to = target(*edge);
        if goes_along(*edge, home, level) && !flag_at(&search.known, to as usize) {
            let edge = number_from(number);
            have!(come(search, to, level, variable, Step { from: m, edge }));
        }
    }
    Ok(())
}

// Goes on from all areas that are open.
fn follow_all(rows: &List<List<Edge>>, levels: &Levels, search: &mut Search) -> Result<(), Memory> {
    for _step in 0..1_099_511_627_776_u64 {
        match search.open.pop() {
            None => return Ok(()),
            Some(m) => {
                have!(follow(rows, levels, search, m));
            }
        }
    }
    Ok(())
}

// The areas that do something themselves, each under its level.
fn order_of(alloc: Global, search: &Search) -> Result<BTreeSet<(u32, u32)>, Memory> {
    let mut order = BTreeSet::new(alloc);
    for (m, level) in search.levels.items().iter().enumerate() {
        if *level != NONE {
            have!(order.insert((*level, number_from(m))));
        }
    }
    Ok(order)
}

// What all areas do, with what they start and call.
fn spread(
    alloc: Global,
    rows: &List<List<Edge>>,
    levels: &Levels,
    search: &mut Search,
) -> Result<(), Memory> {
    let order = have!(order_of(alloc, search));
    for pair in order.iter() {
        let (level, m) = *pair;
        if !flag_at(&search.known, m as usize) {
            let variable = number_of(&search.variables, m as usize);
            have!(come(search, m, level, variable, START));
            have!(follow_all(rows, levels, search));
        }
    }
    Ok(())
}

// Whether a block answers and does something further outward than on its own level.
fn goes_outward(levels: &Levels, search: &Search, l: &Layout) -> bool {
    let at = l.entry as usize;
    l.answer && number_of(&search.levels, at) < number_of(&levels.entries, at)
}

// The first instruction of such a block and the place of its layout: the first such block.
fn first_outward(levels: &Levels, search: &Search, layouts: &[Layout]) -> Option<(u32, u32)> {
    let mut first = None;
    let mut least = NONE;
    for (place, l) in layouts.iter().enumerate() {
        if l.entry < least && goes_outward(levels, search, l) {
            least = l.entry;
            first = Some((l.entry, number_from(place)));
        }
    }
    first
}

// What an area does on the level that was found, if it does it itself.
fn effect_at(search: &Search, area: u32) -> Effect {
    let variable = number_of(&search.variables, area as usize);
    if variable == NONE {
        Effect::Stops
    } else {
        Effect::Stores(variable)
    }
}

// The way to a block.
fn way_to(alloc: Global, search: &Search, entry: u32) -> Result<Way, Memory> {
    let (area, edges) = have!(trail_to(alloc, &search.steps, entry));
    let effect = effect_at(search, area);
    Ok(Way {
        start: Fact { area, effect },
        edges,
        end: Fact {
            area: entry,
            effect,
        },
    })
}

// Whether one of these blocks answers.
fn some_answers(layouts: &[Layout]) -> bool {
    for l in layouts {
        if l.answer {
            return true;
        }
    }
    false
}

/// A way to the first block that answers and has a side effect, if there is one.
pub(crate) fn outflow_of(
    g: &PassContext,
    rows: &List<List<Edge>>,
) -> Result<Option<Outflow>, Memory>
    requires known { IsPassContext g.now }
{
    let parts = g.code.parts();
    if !some_answers(parts.layouts.items()) {
        return Ok(None);
    }
    let alloc = parts.instrs.alloc();
    let levels = have!(levels_of(alloc, g));
    let mut search = have!(search_of(alloc, parts.instrs.len()));
    have!(note_all(g, &levels, &mut search));
    have!(spread(alloc, rows, &levels, &mut search));
    match first_outward(&levels, &search, parts.layouts.items()) {
        None => Ok(None),
        Some((entry, place)) => {
            let way = have!(way_to(alloc, &search, entry));
            Ok(Some(Outflow { way, place }))
        }
    }
}
