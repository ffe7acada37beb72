//! Allowances with numbers: those of children by their lists, those of blocks, and those of areas to which several
//! children and blocks come that have different ones. Nothing here has a contract: `asked_areas.rt` checks what is
//! found with it.

use crate::allowance::{
    Allowance, allowance_of, allowance_of_block, allowance_without, is_within, shared_by,
};
use crate::callers::NONE;
use crate::have;
use sp_base::{List, Memory};
use sp_code::{ChildTable, ForkTable, Layout};
use std::alloc::Global;
use std::collections::{BTreeMap, BTreeSet};

/// The number of an area of which nothing is known yet.
pub(crate) const UNKNOWN: u32 = 4_294_967_294;

// How many allowances there may be.
const MOST_CLASSES: usize = 4_000_000;

// How many variables those of children and blocks may have together, and those of areas that several of them come to.
const MOST_VARIABLES: usize = 12_000_000;

const MOST_MET: usize = 4_000_000;

// How many steps comparing allowances may take.
const MOST_STEPS: usize = 100_000_000;

/// The allowances of children, by sums over their lists, and the first child that has each; those of blocks; and what
/// two of them have in common, by their numbers and by sums.
#[derive(Drop)]
pub(crate) struct Classes<'a> {
    pub tables: &'a List<ForkTable>,
    pub known: BTreeMap<(u32, u32), u32>,
    pub firsts: List<(usize, usize)>,
    pub meetings: BTreeMap<(u32, u32), u32>,
    pub met: BTreeMap<(u32, u32), u32>,
    pub allowances: List<Allowance>,
    pub room: usize,
    pub room_met: usize,
    pub work: usize,
}

/// None yet.
pub(crate) fn no_classes(alloc: Global, tables: &List<ForkTable>) -> Classes<'_> {
    Classes {
        tables,
        known: BTreeMap::new(alloc),
        firsts: List::new(alloc),
        meetings: BTreeMap::new(alloc),
        met: BTreeMap::new(alloc),
        allowances: List::new(alloc),
        room: MOST_VARIABLES,
        room_met: MOST_MET,
        work: MOST_STEPS,
    }
}

// The sum with one variable more.
fn sum_with(sum: u32, x: u32) -> u32 {
    ((sum as u64 * 31 + x as u64) % 4_294_967_291) as u32
}

fn sum_of(xs: &[u32]) -> u32 {
    let mut sum = 7;
    for x in xs {
        sum = sum_with(sum, *x);
    }
    sum
}

fn sum_of_set(set: &BTreeSet<u32>) -> u32 {
    let mut sum = 7;
    for x in set.iter() {
        sum = sum_with(sum, *x);
    }
    sum
}

// Puts an allowance behind the others and gives its number, unless there are too many.
fn put(classes: &mut Classes, allowance: Allowance) -> Result<u32, Memory> {
    let number = classes.allowances.len();
    if number >= MOST_CLASSES {
        return Ok(NONE);
    }
    have!(classes.allowances.push(allowance));
    Ok(number as u32)
}

// Takes room for so many variables, if it is left.
fn take_room(classes: &mut Classes, size: usize) -> bool {
    if size > classes.room {
        return false;
    }
    classes.room = classes.room - size;
    true
}

// The child at a place of the tables.
fn child_of(tables: &List<ForkTable>, place: (usize, usize)) -> Option<&ChildTable> {
    match tables.get(place.0) {
        None => None,
        Some(table) => table.children.get(place.1),
    }
}

// The number of a class, if its first child is handed the same as this one.
fn same_as(classes: &Classes, number: u32, child: &ChildTable) -> u32 {
    let place = match classes.firsts.get(number as usize) {
        None => return NONE,
        Some(place) => *place,
    };
    match child_of(classes.tables, place) {
        None => NONE,
        Some(first) => {
            if first.moved.items() == child.moved.items()
                && first.shared.items() == child.shared.items()
            {
                number
            } else {
                NONE
            }
        }
    }
}

// A new class, if there is room for it.
fn put_class(
    alloc: Global,
    classes: &mut Classes,
    key: (u32, u32),
    place: (usize, usize),
    child: &ChildTable,
) -> Result<u32, Memory> {
    let size = child.moved.len().saturating_add(child.shared.len());
    if !take_room(classes, size) {
        return Ok(NONE);
    }
    let allowance = have!(allowance_of(alloc, child));
    let number = have!(put(classes, allowance));
    have!(classes.firsts.push(place));
    have!(classes.known.insert(key, number));
    Ok(number)
}

/// The number of the allowance of a child, if it has one.
pub(crate) fn class_of(
    alloc: Global,
    classes: &mut Classes,
    place: (usize, usize),
    child: &ChildTable,
) -> Result<u32, Memory> {
    let key = (sum_of(child.moved.items()), sum_of(child.shared.items()));
    match classes.known.get(&key).copied() {
        Some(number) => Ok(same_as(classes, number, child)),
        None => put_class(alloc, classes, key, place, child),
    }
}

/// The number of the allowance of a block, if it has one. Blocks have no variable in common, so each gets its own.
pub(crate) fn class_of_block(
    alloc: Global,
    classes: &mut Classes,
    l: &Layout,
) -> Result<u32, Memory> {
    let size = l.variables.len();
    if size == 0 {
        return Ok(NONE);
    }
    if !take_room(classes, size) {
        return Ok(NONE);
    }
    let allowance = have!(allowance_of_block(alloc, l));
    put(classes, allowance)
}

/// The number of the allowance of all variables except these, if there is room for it.
pub(crate) fn class_of_passed(
    alloc: Global,
    classes: &mut Classes,
    passed: &BTreeSet<u32>,
) -> Result<u32, Memory> {
    if !take_room(classes, passed.len()) {
        return Ok(NONE);
    }
    let allowance = have!(allowance_without(alloc, passed));
    put(classes, allowance)
}

// How many variables it has, of each kind.
fn size_of(allowance: &Allowance) -> usize {
    allowance
        .stored
        .len()
        .saturating_add(allowance.loaded.len())
}

// The same by its number.
fn size_at(allowances: &List<Allowance>, number: u32) -> usize {
    match allowances.get(number as usize) {
        None => 0,
        Some(allowance) => size_of(allowance),
    }
}

// Whether the one of this number is a complement.
fn is_complement(allowances: &List<Allowance>, number: u32) -> bool {
    match allowances.get(number as usize) {
        None => false,
        Some(allowance) => allowance.complement,
    }
}

// Whether it is the one of this number.
fn is_at(allowances: &List<Allowance>, number: u32, allowance: &Allowance) -> bool {
    match allowances.get(number as usize) {
        None => false,
        Some(one) => {
            size_of(one) == size_of(allowance)
                && allowance.complement == one.complement
                && (allowance.stops || !one.stops)
                && is_within(allowance, one)
        }
    }
}

// Whether one is within the other, by their numbers.
fn lies_within(allowances: &List<Allowance>, number: u32, other: u32) -> bool {
    match allowances.get(number as usize) {
        None => false,
        Some(one) => match allowances.get(other as usize) {
            None => false,
            Some(other) => is_within(one, other),
        },
    }
}

// What both have.
fn common_to(
    alloc: Global,
    allowances: &List<Allowance>,
    number: u32,
    other: u32,
) -> Result<Option<Allowance>, Memory> {
    match allowances.get(number as usize) {
        None => Ok(None),
        Some(one) => match allowances.get(other as usize) {
            None => Ok(None),
            Some(other) => {
                let shared = have!(shared_by(alloc, one, other));
                Ok(Some(shared))
            }
        },
    }
}

// The number of an allowance that two have in common: that of an earlier one that is the same, or a new one. None if it
// has nothing.
fn put_met(classes: &mut Classes, allowance: Allowance) -> Result<u32, Memory> {
    if size_of(&allowance) == 0 && !allowance.stops && !allowance.complement {
        return Ok(NONE);
    }
    let key = (sum_of_set(&allowance.stored), sum_of_set(&allowance.loaded));
    match classes.met.get(&key).copied() {
        None => {
            let number = have!(put(classes, allowance));
            have!(classes.met.insert(key, number));
            Ok(number)
        }
        Some(earlier) => {
            if is_at(&classes.allowances, earlier, &allowance) {
                Ok(earlier)
            } else {
                put(classes, allowance)
            }
        }
    }
}

// How many variables what two of them have in common may have at most. Complements come together to one that lacks what
// one of them lacks.
fn most_met(allowances: &List<Allowance>, one: u32, other: u32) -> usize {
    let size = size_at(allowances, one);
    let other_size = size_at(allowances, other);
    if is_complement(allowances, one) && is_complement(allowances, other) {
        size.saturating_add(other_size)
    } else if is_complement(allowances, one) {
        other_size
    } else if is_complement(allowances, other) {
        size
    } else {
        size.min(other_size)
    }
}

// How many steps it takes to compare a set of this size with one of the other size.
fn steps_of(size: usize, other: usize) -> usize {
    if size < other / 16 {
        size.saturating_mul(8)
    } else {
        size.saturating_add(other)
    }
}

// Takes the steps that it takes to compare two of them, if they are left.
fn take_steps(classes: &mut Classes, one: u32, other: u32) -> bool {
    let size = size_at(&classes.allowances, one);
    let other = size_at(&classes.allowances, other);
    let steps = steps_of(size.min(other), size.max(other));
    if steps > classes.work {
        return false;
    }
    classes.work = classes.work - steps;
    true
}

// What two that are there have in common, if there is room for it.
fn meet(alloc: Global, classes: &mut Classes, one: u32, other: u32) -> Result<u32, Memory> {
    if !take_steps(classes, one, other) {
        return Ok(NONE);
    }
    if lies_within(&classes.allowances, one, other) {
        return Ok(one);
    }
    if lies_within(&classes.allowances, other, one) {
        return Ok(other);
    }
    let size = most_met(&classes.allowances, one, other);
    if size > classes.room_met {
        return Ok(NONE);
    }
    classes.room_met = classes.room_met - size;
    match have!(common_to(alloc, &classes.allowances, one, other)) {
        None => Ok(NONE),
        Some(shared) => put_met(classes, shared),
    }
}

/// What two areas have in common that ask about a third one.
pub(crate) fn met(
    alloc: Global,
    classes: &mut Classes,
    one: u32,
    other: u32,
) -> Result<u32, Memory> {
    if one == UNKNOWN || one == other {
        return Ok(other);
    }
    if other == UNKNOWN {
        return Ok(one);
    }
    if one == NONE || other == NONE {
        return Ok(NONE);
    }
    let key = if one < other {
        (one, other)
    } else {
        (other, one)
    };
    match classes.meetings.get(&key).copied() {
        Some(number) => Ok(number),
        None => {
            let number = have!(meet(alloc, classes, one, other));
            have!(classes.meetings.insert(key, number));
            Ok(number)
        }
    }
}

/// Whether one is the other or may be compared with it, and takes the steps of that.
pub(crate) fn may_compare(classes: &mut Classes, one: u32, other: u32) -> bool {
    one == other || take_steps(classes, one, other)
}
