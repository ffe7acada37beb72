//! Rule V6: what the children of forks are handed, held against what they do.

ghost use Rattle.std.specs.Prelude.{◌≡◌, IfOk, OnOk, false, length, slice_get, Some};
ghost use Rattle.sp_verify_areas.specs.LeastPlaces.{IsLeast, Upto};
ghost use Rattle.sp_verify_rules.specs.Verdict.{BreaksV6};
ghost use Rattle.sp_verify_effects.specs.PassContexts.{IsPassContext};
ghost use Rattle.sp_verify_effects.specs.Effects.{AreEffects};
ghost use Rattle.sp_verify_effects.specs.ChildEffects.{ChildFails, TableFails, clashes, fails_by};
ghost use Rattle.sp_verify_effects.specs.ChildEffects.{fails_alone, is_loose};
ghost use Rattle.sp_verify_effects.specs.Sets.{with_all};

use crate::effects::{EffectRow, Effects};
use crate::have;
use crate::pass_context::PassContext;
use crate::sets::{add_all, add_index, goes_beyond, meets};
use sp_base::Memory;
use sp_code::{ChildTable, ForkTable};
use sp_verify_areas::least::{least, place_if};
use std::alloc::Global;
use std::collections::BTreeSet;

// Whether a child shares the output, or has an index and moves something.
fn is_loose(child: &ChildTable) -> bool
    ensures { result ≡ is_loose child.now }
{
    child.shared.items().contains(&1) || (child.index.is_some() && child.moved.len() != 0)
}

/// Whether a child stores or loads more than it is handed, or is handed something wrongly.
pub(crate) fn fails_alone(
    alloc: Global,
    child: &ChildTable,
    stored: &[u32],
    loaded: &[u32],
) -> Result<bool, Memory>
    ensures { IfOk result (λ fails. fails ≡ fails_alone stored.now loaded.now child.now) }
{
    let mut handed = BTreeSet::new(alloc);
    let moved = have!(add_all(&mut handed, child.moved.items()));
    let stores = goes_beyond(&handed, stored);
    let shared = have!(add_all(&mut handed, child.shared.items()));
    have!(add_index(&mut handed, child.index));
    let loads = goes_beyond(&handed, loaded);
    Ok(stores || (loads || (!moved || (!shared || is_loose(child)))))
}

// What the children before another one of their table are handed.
#[derive(Drop)]
struct Before {
    moved: BTreeSet<u32>,
    handed: BTreeSet<u32>,
}

// Whether a child clashes with one before it.
fn clashes(before: &Before, child: &ChildTable) -> bool
    ensures { result ≡ clashes before.now.moved.keys before.now.handed.keys child.now }
{
    meets(&before.handed, child.moved.items()) || meets(&before.moved, child.shared.items())
}

// One more child.
fn note(before: &mut Before, child: &ChildTable) -> Result<(), Memory>
    ensures moved { OnOk result (before.new.moved.keys ≡ with_all before.old.moved.keys child.now.moved) }
    ensures handed { OnOk result (before.new.handed.keys
        ≡ with_all (with_all before.old.handed.keys child.now.moved) child.now.shared) }
{
    let moved = child.moved.items();
    let _new = have!(add_all(&mut before.moved, moved));
    let _new = have!(add_all(&mut before.handed, moved));
    let _new = have!(add_all(&mut before.handed, child.shared.items()));
    Ok(())
}

// The same, unless it is the last one.
fn note_unless(last: bool, before: &mut Before, child: &ChildTable) -> Result<(), Memory>
    ensures moved { OnOk result (last ≡ false
        → before.new.moved.keys ≡ with_all before.old.moved.keys child.now.moved) }
    ensures handed { OnOk result (last ≡ false
        → before.new.handed.keys ≡ with_all (with_all before.old.handed.keys child.now.moved) child.now.shared) }
{
    if last {
        return Ok(());
    }
    note(before, child)
}

// Whether a child that does this fails, alone or beside those before it.
fn fails_so(
    alloc: Global,
    row: &EffectRow,
    before: &Before,
    child: &ChildTable,
) -> Result<bool, Memory>
    ensures { IfOk result (λ fails. fails
        ≡ fails_by (Some row.now) before.now.moved.keys before.now.handed.keys child.now) }
{
    let alone = have!(fails_alone(alloc, child, row.stored.items(), row.loaded.items()));
    Ok(alone || clashes(before, child))
}

// Whether a child fails.
fn child_fails(
    alloc: Global,
    effects: &Effects,
    before: &Before,
    child: &ChildTable,
) -> Result<bool, Memory>
    ensures { IfOk result (λ fails. fails ≡ fails_by (slice_get effects.now.rows child.now.entry)
        before.now.moved.keys before.now.handed.keys child.now) }
{
    match effects.of(child.entry) {
        None => Ok(false),
        Some(row) => fails_so(alloc, row, before, child),
    }
}

// The least first instruction of a child of these that fails.
fn first_child(
    alloc: Global,
    effects: &Effects,
    children: &[ChildTable],
) -> Result<Option<u32>, Memory>
    ensures { IfOk result (λ first. IsLeast (Upto (ChildFails effects.now children.now) (length children.now)) first) }
{
    let mut before = Before {
        moved: BTreeSet::new(alloc),
        handed: BTreeSet::new(alloc),
    };
    let mut first = None;
    let count = children.len();
    for (k, child) in children.iter().enumerate() {
        let fails = have!(child_fails(alloc, effects, &before, child));
        first = least(first, place_if(fails, child.entry));
        have!(note_unless(k + 1 == count, &mut before, child));
    }
    Ok(first)
}

/// The least one in all tables.
pub(crate) fn first_in(
    alloc: Global,
    effects: &Effects,
    tables: &[ForkTable],
) -> Result<Option<u32>, Memory>
    ensures { IfOk result (λ first. IsLeast (Upto (TableFails effects.now tables.now) (length tables.now)) first) }
{
    let mut first = None;
    for table in tables {
        let here = have!(first_child(alloc, effects, table.children.items()));
        first = least(first, here);
    }
    Ok(first)
}

/// The least instruction at which V6 is broken: the first instruction of a child that stores or loads more than it is
/// handed, is handed something wrongly, or clashes with a child before it. None where there is none. The only other
/// answer is want of memory.
#[tactic(auto, using(crate::proofs::BreachLaws::v6_least))]
pub fn first_ill_handed(g: &PassContext, effects: &Effects) -> Result<Option<u32>, Memory>
    requires known { IsPassContext g.now }
    requires effects { AreEffects g.now.code.now effects.now }
    ensures { IfOk result (λ first. IsLeast (BreaksV6 g.now.code.now) first) }
{
    let parts = g.code.parts();
    first_in(parts.instrs.alloc(), effects, parts.forks.items())
}
