//! What can be wrong with a table of children in itself.

ghost use Rattle.std.specs.Prelude.{◌≡◌, Some, length, IfOk};
ghost use Rattle.sp_verify_areas.specs.Alone.{AreFlags, ChildFails, TableFails, child_fails, first_fails};
ghost use Rattle.sp_verify_areas.specs.Alone.{flag_at, table_by};
ghost use Rattle.sp_verify_areas.specs.LeastPlaces.{IsLeast, Upto};

use crate::flags::{flag_at, mark, no_flags};
use crate::have;
use crate::least::{least, place_if};
use sp_base::{List, Memory};
use sp_code::{ChildTable, ForkTable, Instr};
use std::alloc::Global;

// The table of a fork, or that of a forall.
fn table_by(forall: bool, instr: Instr) -> Option<u32>
    ensures { result ≡ table_by forall instr }
{
    match instr {
        Instr::Fork(t) => { if forall { None } else { Some(t) } }
        Instr::Forall(t) => { if forall { Some(t) } else { None } }
        _ => None,
    }
}

/// For each table, whether a fork, or a forall, names it.
pub(crate) fn flags(
    alloc: Global,
    forall: bool,
    instrs: &[Instr],
    count: usize,
) -> Result<List<bool>, Memory>
    ensures { IfOk result (λ flags. AreFlags forall instrs.now count flags) }
{
    let mut flags = have!(no_flags(alloc, count));
    for instr in instrs {
        if let Some(t) = table_by(forall, *instr) {
            mark(&mut flags, t as usize);
        }
    }
    Ok(flags)
}

// Whether a child is wrong, whichever of its table it is.
fn child_fails(child: &ChildTable, count: usize, forked: bool) -> bool
    ensures { result ≡ child_fails count forked child.now }
{
    count <= child.entry as usize || (forked && child.index.is_some())
}

// The least entry of a child that is wrong, whichever of its table it is.
fn first_child(children: &[ChildTable], count: usize, forked: bool) -> Option<u32>
    ensures { IsLeast (Upto (ChildFails (child_fails count forked) children.now) (length children.now)) result }
{
    let mut first = None;
    for child in children {
        first = least(
            first,
            place_if(child_fails(child, count, forked), child.entry),
        );
    }
    first
}

// The entry of the first child, if it is not the only one that a forall makes, with an index.
fn first_of_forall(children: &[ChildTable], foralled: bool) -> Option<u32>
    ensures { IsLeast (ChildFails (first_fails foralled (length children.now)) children.now 0) result }
{
    match children.first() {
        None => None,
        Some(child) => {
            let whole = children.len() == 1 && child.index.is_some();
            place_if(foralled && !whole, child.entry)
        }
    }
}

/// The least entry of a child that is wrong, in all tables.
pub(crate) fn first_in(
    tables: &[ForkTable],
    count: usize,
    forked: &List<bool>,
    foralled: &List<bool>,
) -> Option<u32>
    ensures { IsLeast (Upto (TableFails count forked.now foralled.now tables.now) (length tables.now)) result }
{
    let mut first = None;
    for (t, table) in tables.iter().enumerate() {
        let forks = flag_at(forked, t);
        let foralls = flag_at(foralled, t);
        let children = table.children.items();
        let any = first_child(children, count, forks);
        let here = least(any, first_of_forall(children, foralls));
        first = least(first, here);
    }
    first
}
