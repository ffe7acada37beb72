//! Areas in groups: those of a group lead to each other along edges, and each group comes after those to which its
//! edges lead on. So one pass over the groups finds what comes from callers. Nothing here has a contract:
//! `asked_areas.rt` checks what is found with it.

use crate::asked_areas::target;
use crate::edges::Edge;
use crate::have;
use sp_base::{List, Memory};
use sp_verify_areas::flags::{flag_at, mark};
use std::alloc::Global;

/// No number.
pub(crate) const NONE: u32 = 4_294_967_295;

/// A count as a number, if it is one.
pub(crate) fn number_from(count: usize) -> u32 {
    if count < 4_294_967_295 {
        count as u32
    } else {
        NONE
    }
}

/// The groups one after another, the end of each one among the members, and of each area the number of its group.
#[derive(Drop)]
pub(crate) struct Groups {
    pub members: List<u32>,
    pub ends: List<u32>,
    pub numbers: List<u32>,
}

/// The number of an area, if it has one.
pub(crate) fn number_of(numbers: &List<u32>, m: usize) -> u32 {
    match numbers.get(m) {
        None => NONE,
        Some(number) => *number,
    }
}

/// Gives an area a number.
pub(crate) fn set_number(numbers: &mut List<u32>, m: usize, number: u32) {
    if m < numbers.len() {
        let _old = numbers.replace(m, number);
    }
}

// An area that is being searched, and how many of its edges were followed.
#[derive(Clone, Copy)]
struct Step {
    at: u32,
    turn: usize,
}

// A search in depth. An area has a number from when the search entered it, and the least such number that it leads back
// to.
#[derive(Drop)]
struct Search {
    entries: List<u32>,
    backs: List<u32>,
    open: List<u32>,
    path: List<Step>,
    next: u32,
    groups: Groups,
}

/// So many places without a number.
pub(crate) fn no_numbers(alloc: Global, count: usize) -> Result<List<u32>, Memory> {
    let numbers = have!(vec![in alloc; NONE; count]);
    Ok(List::of(numbers))
}

fn search_of(alloc: Global, count: usize) -> Result<Search, Memory> {
    let entries = have!(no_numbers(alloc, count));
    let backs = have!(no_numbers(alloc, count));
    let numbers = have!(no_numbers(alloc, count));
    Ok(Search {
        entries,
        backs,
        open: List::new(alloc),
        path: List::new(alloc),
        next: 0,
        groups: Groups {
            members: List::new(alloc),
            ends: List::new(alloc),
            numbers,
        },
    })
}

fn enter(search: &mut Search, m: u32) -> Result<(), Memory> {
    set_number(&mut search.entries, m as usize, search.next);
    set_number(&mut search.backs, m as usize, search.next);
    search.next = search.next.saturating_add(1);
    have!(search.open.push(m));
    have!(search.path.push(Step { at: m, turn: 0 }));
    Ok(())
}

// It leads back to what was entered then.
fn lead_back(search: &mut Search, m: u32, then: u32) {
    if then < number_of(&search.backs, m as usize) {
        set_number(&mut search.backs, m as usize, then);
    }
}

// Goes on to an area, or notes that it leads back.
fn go_on(search: &mut Search, m: u32, to: u32) -> Result<(), Memory> {
    if to as usize >= search.entries.len() {
        return Ok(());
    }
    let then = number_of(&search.entries, to as usize);
    if then == NONE {
        return enter(search, to);
    }
    if number_of(&search.groups.numbers, to as usize) == NONE {
        lead_back(search, m, then);
    }
    Ok(())
}

// Closes the group that was opened with an area.
fn close(search: &mut Search, m: u32) -> Result<(), Memory> {
    let number = number_from(search.groups.ends.len());
    for _member in 0..search.open.len() {
        match search.open.pop() {
            None => return Ok(()),
            Some(member) => {
                set_number(&mut search.groups.numbers, member as usize, number);
                have!(search.groups.members.push(member));
                if member == m {
                    have!(
                        search
                            .groups
                            .ends
                            .push(number_from(search.groups.members.len()))
                    );
                    return Ok(());
                }
            }
        }
    }
    Ok(())
}

fn leave(search: &mut Search, m: u32) -> Result<(), Memory> {
    let then = number_of(&search.backs, m as usize);
    if then == number_of(&search.entries, m as usize) {
        have!(close(search, m));
    }
    if let Some(around) = search.path.items().last().copied() {
        lead_back(search, around.at, then);
    }
    Ok(())
}

// Takes the step that was put last.
fn take_step(search: &mut Search, rows: &List<List<Edge>>, last: Step) -> Result<(), Memory> {
    let edge = match rows.get(last.at as usize) {
        None => None,
        Some(row) => row.get(last.turn).copied(),
    };
    match edge {
        None => leave(search, last.at),
        Some(edge) => {
            have!(
                search.path.push(Step {
                    at: last.at,
                    turn: last.turn.saturating_add(1),
                })
            );
            go_on(search, last.at, target(edge))
        }
    }
}

// All that an area leads to.
fn explore(search: &mut Search, rows: &List<List<Edge>>, start: u32) -> Result<(), Memory> {
    have!(enter(search, start));
    for _step in 0..1_099_511_627_776_u64 {
        match search.path.pop() {
            None => return Ok(()),
            Some(last) => {
                have!(take_step(search, rows, last));
            }
        }
    }
    Ok(())
}

/// All areas in groups.
pub(crate) fn groups_of(rows: &List<List<Edge>>) -> Result<Groups, Memory> {
    let count = rows.len();
    let mut search = have!(search_of(rows.alloc(), count));
    for m in 0..count {
        if number_of(&search.entries, m) == NONE {
            have!(explore(&mut search, rows, number_from(m)));
        }
    }
    let Search {
        entries: _,
        backs: _,
        open: _,
        path: _,
        next: _,
        groups,
    } = search;
    Ok(groups)
}

// Whether an edge of a row leads to an area whose flag is set.
fn leads_to_flag(row: &[Edge], flags: &List<bool>) -> bool {
    for edge in row {
        if flag_at(flags, target(*edge) as usize) {
            return true;
        }
    }
    false
}

// Whether an area has the flag, or leads to one that has.
fn has_or_leads(rows: &List<List<Edge>>, flags: &List<bool>, m: usize) -> bool {
    flag_at(flags, m)
        || match rows.get(m) {
            None => false,
            Some(row) => leads_to_flag(row.items(), flags),
        }
}

// Sets the flags of the members of a group if one has it, or leads to an area that has.
fn flag_group(
    rows: &List<List<Edge>>,
    members: &List<u32>,
    from: usize,
    end: usize,
    flags: &mut List<bool>,
) {
    let mut is_flagged = false;
    for k in from..end {
        let m = number_of(members, k) as usize;
        is_flagged = is_flagged || has_or_leads(rows, flags, m);
    }
    if is_flagged {
        for k in from..end {
            mark(flags, number_of(members, k) as usize);
        }
    }
}

/// Sets the flags of all areas that lead to one whose flag is set.
pub(crate) fn flag_groups(rows: &List<List<Edge>>, groups: &Groups, flags: &mut List<bool>) {
    let mut from = 0;
    for end in groups.ends.items() {
        let end = *end as usize;
        flag_group(rows, &groups.members, from, end, flags);
        from = end;
    }
}
