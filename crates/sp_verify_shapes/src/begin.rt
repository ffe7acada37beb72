//! Where ways begin: at the entry of each area, with no operands.

ghost use Rattle.std.specs.Prelude.{◌≡◌, ℕ, OnOk, IfOk, None, Some, [], false, length, slice_get};
ghost use Rattle.sp_verify_areas.specs.Blocks.{IsNumbered};
ghost use Rattle.sp_verify_areas.specs.Owners.{AreOwners, Owns};
ghost use Rattle.sp_code.specs.declared.code.ChildTable.{ChildTable};
ghost use Rattle.sp_verify_shapes.specs.Search.{AreCompared};
ghost use Rattle.sp_verify_shapes.specs.Starts.{AddsStarts, AreAll, IsEntry, IsMade, IsMadeAt, IsOfChildren};
ghost use Rattle.sp_verify_shapes.specs.Starts.{IsOfLayouts};

use crate::have;
use crate::search::Search;
use crate::stacks::Stacks;
use crate::steps::Arrival;
use sp_base::{List, Memory};
use sp_code::{ChildTable, Code};
use sp_verify_areas::blocks::Blocks;
use sp_verify_areas::owners::{Owner, is_same, table_number};
use std::alloc::Global;

fn start(code: &Code, arrivals: &mut List<Arrival>, at: u32) -> Result<(), Memory>
    requires { IsEntry code.now at }
    ensures { OnOk result (AddsStarts code.now (λ q. q ≡ at) arrivals.old arrivals.new) }
{
    have!(arrivals.push(Arrival { at, list: 0 }));
    Ok(())
}

// At the entry of each block.
fn begin_blocks(code: &Code, blocks: &Blocks, arrivals: &mut List<Arrival>) -> Result<(), Memory>
    requires { IsNumbered blocks.now.first code.now.layouts }
    ensures { OnOk result (AddsStarts code.now (IsOfLayouts code.now (length code.now.layouts)) arrivals.old
        arrivals.new) }
{
    let layouts = &code.parts().layouts;
    for l in layouts.items() {
        match blocks.find(layouts, l.block) {
            None => {}
            Some(m) => have!(start(code, arrivals, m.entry)),
        }
    }
    Ok(())
}

// At the entry of each of these children.
fn begin_children(
    code: &Code,
    children: &[ChildTable],
    arrivals: &mut List<Arrival>,
) -> Result<(), Memory>
    requires { (k : ℕ) (ch : ChildTable) → slice_get children.now k ≡ Some ch → IsEntry code.now ch.entry }
    ensures { OnOk result (AddsStarts code.now (IsOfChildren children.now (length children.now)) arrivals.old
        arrivals.new) }
{
    for child in children {
        have!(start(code, arrivals, child.entry));
    }
    Ok(())
}

// At the entries of the children that an instruction makes, if it lies in an area.
fn begin_at(code: &Code, arrivals: &mut List<Arrival>, p: u32, o: Owner) -> Result<(), Memory>
    requires { Owns code.now p o }
    ensures { OnOk result (AddsStarts code.now (IsMadeAt code.now p) arrivals.old arrivals.new) }
{
    if is_same(o, Owner::Nobody) {
        return Ok(());
    }
    let t = match table_number(code, p) {
        None => return Ok(()),
        Some(t) => t,
    };
    match code.table(t) {
        None => Ok(()),
        Some(table) => begin_children(code, table.children.items(), arrivals),
    }
}

// At the entries of all children.
fn begin_forks(
    code: &Code,
    owners: &List<Owner>,
    arrivals: &mut List<Arrival>,
) -> Result<(), Memory>
    requires { AreOwners code.now owners.now }
    ensures { OnOk result (AddsStarts code.now (IsMade code.now (length code.now.instrs)) arrivals.old arrivals.new) }
{
    let count = code.parts().instrs.len();
    for p in 0..count {
        let o = owners.items()[p];
        have!(begin_at(code, arrivals, p as u32, o));
    }
    Ok(())
}

fn no_lists(alloc: Global, count: usize) -> Result<List<Option<u32>>, Memory>
    ensures { IfOk result (λ xs. AreAll None count xs) }
{
    Ok(List::of(have!(vec![in alloc; None; count])))
}

fn no_marks(alloc: Global, count: usize) -> Result<List<bool>, Memory>
    ensures { IfOk result (λ xs. AreAll false count xs) }
{
    Ok(List::of(have!(vec![in alloc; false; count])))
}

/// What is kept at first: that ways begin at the entry of each area, with no operands.
pub(crate) fn begin(code: &Code, blocks: &Blocks, owners: &List<Owner>) -> Result<Search, Memory>
    requires blocks { IsNumbered blocks.now.first code.now.layouts }
    requires owners { AreOwners code.now owners.now }
    ensures { IfOk result (λ search. AreCompared code.now search × (search.frontier ≡ [])) }
{
    let parts = code.parts();
    let alloc = parts.instrs.alloc();
    let count = parts.instrs.len();
    let mut arrivals = List::new(alloc);
    have!(begin_blocks(code, blocks, &mut arrivals));
    have!(begin_forks(code, owners, &mut arrivals));
    let at = have!(no_lists(alloc, count));
    let broken = have!(no_marks(alloc, count));
    Ok(Search {
        stacks: Stacks::new(alloc),
        at,
        broken,
        frontier: List::new(alloc),
        arrivals,
    })
}
