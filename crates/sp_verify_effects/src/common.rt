//! Finds for each area an allowance that all have that ask about it: what all children are handed that come to an area
//! need not be asked about it, nor what is done to the variables of a block that all blocks which rules ask about and
//! that come to it have themselves. It goes over the groups of `callers.rt` once. Nothing here has a contract:
//! `asked_areas.rt` checks what is found.

use crate::allowance::{Allowance, passes_within};
use crate::asked_areas::{is_below, target};
use crate::callers::{Groups, NONE, number_of, set_number};
use crate::classes::{
    Classes, UNKNOWN, class_of, class_of_block, class_of_passed, may_compare, met, no_classes,
};
use crate::edges::Edge;
use crate::have;
use crate::passed::Passed;
use sp_base::{List, Memory};
use sp_code::{ChildTable, ForkTable, Layout, Parts};
use sp_verify_areas::flags::flag_at;
use std::alloc::Global;

/// Allowances, and of each instruction the number of that of the area which begins there, if it has one.
#[derive(Drop)]
pub(crate) struct Common {
    pub numbers: List<u32>,
    pub allowances: List<Allowance>,
}

/// None.
pub(crate) fn no_common(alloc: Global) -> Common {
    Common {
        numbers: List::new(alloc),
        allowances: List::new(alloc),
    }
}

// Gives the area that begins at m the number of what this one and its own have in common.
fn put_number(
    alloc: Global,
    classes: &mut Classes,
    numbers: &mut List<u32>,
    m: usize,
    number: u32,
) -> Result<(), Memory> {
    let now = have!(met(alloc, classes, number_of(numbers, m), number));
    set_number(numbers, m, now);
    Ok(())
}

// Gives the children of a table that begin below a bound their numbers.
fn number_children(
    alloc: Global,
    classes: &mut Classes,
    numbers: &mut List<u32>,
    bound: Option<u32>,
    t: usize,
    children: &[ChildTable],
) -> Result<(), Memory> {
    for (k, child) in children.iter().enumerate() {
        if is_below(bound, child.entry) {
            let number = have!(class_of(alloc, classes, (t, k), child));
            have!(put_number(alloc, classes, numbers, child.entry as usize, number));
        }
    }
    Ok(())
}

// Gives all such children their numbers.
fn number_tables(
    alloc: Global,
    classes: &mut Classes,
    numbers: &mut List<u32>,
    bound: Option<u32>,
    tables: &[ForkTable],
) -> Result<(), Memory> {
    for (t, table) in tables.iter().enumerate() {
        have!(number_children(alloc, classes, numbers, bound, t, table.children.items()));
    }
    Ok(())
}

// Gives the blocks whose flags are set theirs.
fn number_blocks(
    alloc: Global,
    classes: &mut Classes,
    numbers: &mut List<u32>,
    layouts: &[Layout],
    blocks: &List<bool>,
) -> Result<(), Memory> {
    for l in layouts {
        let m = l.entry as usize;
        if flag_at(blocks, m) {
            let number = have!(class_of_block(alloc, classes, l));
            have!(put_number(alloc, classes, numbers, m, number));
        }
    }
    Ok(())
}

// Gives the blocks to which variables are passed theirs: all variables except these.
fn number_passed(
    alloc: Global,
    classes: &mut Classes,
    numbers: &mut List<u32>,
    passed: &Passed,
) -> Result<(), Memory> {
    for (entry, set) in passed.iter() {
        let number = have!(class_of_passed(alloc, classes, set));
        have!(put_number(alloc, classes, numbers, *entry as usize, number));
    }
    Ok(())
}

// What goes over the areas: which are asked about, and where edges lead.
#[derive(Clone, Copy)]
struct Pass<'a> {
    rows: &'a List<List<Edge>>,
    groups: &'a Groups,
    flags: &'a List<bool>,
}

// The number that an area has in common with those before it and with the ones to which an edge leads, unless that is
// in its group.
fn met_along(
    alloc: Global,
    classes: &mut Classes,
    numbers: &List<u32>,
    pass: &Pass,
    m: usize,
    row: &[Edge],
    before: u32,
) -> Result<u32, Memory> {
    let group = number_of(&pass.groups.numbers, m);
    let mut number = before;
    for edge in row {
        let to = target(*edge) as usize;
        if flag_at(pass.flags, to) && number_of(&pass.groups.numbers, to) != group {
            number = have!(met(alloc, classes, number, number_of(numbers, to)));
        }
    }
    Ok(number)
}

// The same for an area of a group.
fn met_of(
    alloc: Global,
    classes: &mut Classes,
    numbers: &List<u32>,
    pass: &Pass,
    m: usize,
    before: u32,
) -> Result<u32, Memory> {
    let own = have!(met(alloc, classes, before, number_of(numbers, m)));
    match pass.rows.get(m) {
        None => Ok(own),
        Some(row) => met_along(alloc, classes, numbers, pass, m, row.items(), own),
    }
}

// Whether one allowance goes along an edge to an area that has the other one.
fn passes(classes: &mut Classes, number: u32, other: u32, edge: Edge) -> bool {
    match edge {
        Edge::Passed {
            to: _,
            formal: _,
            actual: _,
        } => match classes.allowances.get(number as usize) {
            None => true,
            Some(one) => match classes.allowances.get(other as usize) {
                None => false,
                Some(allowance) => passes_within(one, allowance, number == other, edge),
            },
        },
        _ => may_compare(classes, number, other),
    }
}

// Whether it goes along all edges of an area.
fn passes_row(
    classes: &mut Classes,
    numbers: &List<u32>,
    pass: &Pass,
    m: usize,
    number: u32,
) -> bool {
    let row = match pass.rows.get(m) {
        None => return true,
        Some(row) => row,
    };
    let group = number_of(&pass.groups.numbers, m);
    for edge in row.items() {
        let to = target(*edge) as usize;
        if flag_at(pass.flags, to) {
            let is_near = number_of(&pass.groups.numbers, to) == group;
            let other = if is_near {
                number
            } else {
                number_of(numbers, to)
            };
            if !passes(classes, number, other, *edge) {
                return false;
            }
        }
    }
    true
}

// The number of the areas of a group.
fn number_of_group(
    alloc: Global,
    classes: &mut Classes,
    numbers: &List<u32>,
    pass: &Pass,
    from: usize,
    end: usize,
) -> Result<u32, Memory> {
    let mut number = UNKNOWN;
    for k in from..end {
        let m = number_of(&pass.groups.members, k) as usize;
        number = have!(met_of(alloc, classes, numbers, pass, m, number));
    }
    for k in from..end {
        let m = number_of(&pass.groups.members, k) as usize;
        if number != NONE && number != UNKNOWN && !passes_row(classes, numbers, pass, m, number) {
            number = NONE;
        }
    }
    Ok(number)
}

// Finds the numbers of the areas of a group, if they are asked about.
fn number_group(
    alloc: Global,
    classes: &mut Classes,
    numbers: &mut List<u32>,
    pass: &Pass,
    from: usize,
    end: usize,
) -> Result<(), Memory> {
    if !flag_at(pass.flags, number_of(&pass.groups.members, from) as usize) {
        return Ok(());
    }
    let number = have!(number_of_group(alloc, classes, numbers, pass, from, end));
    for k in from..end {
        set_number(numbers, number_of(&pass.groups.members, k) as usize, number);
    }
    Ok(())
}

/// The allowances of the areas whose flags are set, by the edges between areas, for the children that begin below a
/// bound. There are flags of blocks too, of those of which the rules ask what they do outside themselves, and blocks of
/// which they ask what they do to variables that are passed.
pub(crate) fn common_of(
    parts: &Parts,
    rows: &List<List<Edge>>,
    groups: &Groups,
    flags: &List<bool>,
    bound: Option<u32>,
    blocks: &List<bool>,
    passed: &Passed,
) -> Result<Common, Memory> {
    let alloc = rows.alloc();
    let mut numbers = List::of(have!(vec![in alloc; UNKNOWN; rows.len()]));
    let mut classes = no_classes(alloc, &parts.forks);
    have!(number_tables(
        alloc,
        &mut classes,
        &mut numbers,
        bound,
        parts.forks.items()
    ));
    have!(number_blocks(
        alloc,
        &mut classes,
        &mut numbers,
        parts.layouts.items(),
        blocks
    ));
    have!(number_passed(alloc, &mut classes, &mut numbers, passed));
    let pass = Pass {
        rows,
        groups,
        flags,
    };
    let mut from = 0;
    for end in groups.ends.items() {
        let end = *end as usize;
        have!(number_group(alloc, &mut classes, &mut numbers, &pass, from, end));
        from = end;
    }
    let Classes {
        tables: _,
        known: _,
        firsts: _,
        meetings: _,
        met: _,
        allowances,
        room: _,
        room_met: _,
        work: _,
    } = classes;
    Ok(Common {
        numbers,
        allowances,
    })
}
