//! Variables that are declared a second time: a point of rule V1.

ghost use Rattle.std.specs.Prelude.{◌≡◌, ◌+◌, ◌<◌, IfOk, false, length};
ghost use Rattle.sp_verify_rules.specs.NameRules.{DeclaredTwice, InLayout, IsChild, OfChild};
ghost use Rattle.sp_verify_areas.specs.LeastPlaces.{IsLeast};
ghost use Rattle.sp_verify_areas.specs.Twice.{IsSeen, NotesVariable};

use crate::least::{least, place_if};
use sp_base::Memory;
use sp_code::{ChildTable, Code};
use std::collections::BTreeSet;

/// The variables that are declared so far, the least place of those that come too late, and whether memory was refused:
/// then it is of no more use.
#[derive(Drop)]
pub(crate) struct Seen {
    variables: BTreeSet<u32>,
    first: Option<u32>,
    is_lost: bool,
}

// Notes that a variable is declared.
fn note(seen: &mut Seen, variable: u32, entry: u32)
    ensures { seen.new.is_lost ≡ false → (seen.old.is_lost ≡ false) × NotesVariable seen.old.variables
        seen.new.variables seen.old.first seen.new.first variable entry }
{
    match seen.variables.insert(variable) {
        Ok(new) => {
            let late = variable < 2 || !new;
            seen.first = least(seen.first, place_if(late, entry));
        }
        Err(_) => seen.is_lost = true,
    }
}

// Notes the variables of a layout.
fn note_layout(code: &Code, seen: &mut Seen, place: usize)
    requires there { place < length code.now.layouts }
    requires known { IsSeen code.now (InLayout place 0) seen.old }
    ensures { IsSeen code.now (InLayout (place + 1) 0) seen.new }
{
    let layout = &code.parts().layouts.items()[place];
    for x in layout.variables.items() {
        note(seen, *x, layout.entry);
    }
}

// Notes the index of a child, if it has one.
fn note_child(code: &Code, seen: &mut Seen, table: usize, number: usize, child: &ChildTable)
    requires there { IsChild code.now table number child.now }
    requires known { IsSeen code.now (OfChild table number) seen.old }
    ensures { IsSeen code.now (OfChild table (number + 1)) seen.new }
{
    match child.index {
        None => {}
        Some(x) => note(seen, x, child.entry),
    }
}

// Notes those of the children of a table.
fn note_table(code: &Code, seen: &mut Seen, table: usize)
    requires there { table < length code.now.forks }
    requires known { IsSeen code.now (OfChild table 0) seen.old }
    ensures { IsSeen code.now (OfChild (table + 1) 0) seen.new }
{
    let children = code.parts().forks.items()[table].children.items();
    for k in 0..children.len() {
        note_child(code, seen, table, k, &children[k]);
    }
}

/// The least entry of a layout or child that declares a variable which is declared before, by a layout or as the index
/// of a child, or the input or the output. Layouts count in their order, and tables and their children after them in
/// theirs. None where there is none. The only other answer is want of memory.
pub fn first_twice(code: &Code) -> Result<Option<u32>, Memory>
    ensures { IfOk result (λ first. IsLeast (DeclaredTwice code.now) first) }
{
    let parts = code.parts();
    let mut seen = Seen {
        variables: BTreeSet::new(parts.instrs.alloc()),
        first: None,
        is_lost: false,
    };
    for place in 0..parts.layouts.len() {
        note_layout(code, &mut seen, place);
    }
    for table in 0..parts.forks.len() {
        note_table(code, &mut seen, table);
    }
    if seen.is_lost {
        return Err(Memory);
    }
    Ok(seen.first)
}
