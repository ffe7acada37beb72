//! The sets of statements with what their calls carry, and those of blocks, joined in a pool.

ghost use Rattle.std.specs.Prelude.{◌≡◌, ◌↔◌, ◌⊎◌, ℕ, ◌^◌, ◌<◌, ◌≤◌, true, false, Some, OnOk, IfOk, length, get_or};
ghost use Rattle.sp_varsets.specs.Members.{has};
ghost use Rattle.sp_varsets.specs.Paths.{member};
ghost use Rattle.sp_varsets.specs.Records.{pool_has, Extends, IsSetOfIndex, slot_at};
ghost use Rattle.sp_varsets.specs.declared.walk.StatementSets.{StatementSets};
ghost use Rattle.sp_varsets.specs.Totals.{IsInTotal, IsWithin, AreWithin, IsEntry, AreEntries, AreRowEntries};

use crate::closure::add_row;
use crate::sets::Entry;
use crate::take;
use crate::var_set::VarSet;
use crate::walk::{StatementSets, Walk};
use sp_base::{List, Memory};
use std::alloc::Global;

// Adds the rows of all blocks of a set.
fn add_rows(
    all: &mut VarSet,
    calls: &VarSet,
    rows: &[VarSet],
    nothing: &VarSet,
) -> Result<(), Memory>
    requires nothing { (x : ℕ) → has nothing.now x ≡ false }
    requires small { length rows.now ≤ 2 ^ 32 }
    ensures { OnOk result ((x : ℕ) → (has all.new x ≡ true)
        ↔ ((has all.old x ≡ true) ⊎ ((f : ℕ) × (has calls.now f ≡ true) × (member rows.now f x ≡ true)))) }
{
    let mut from = 0u64;
    'called: while from < 4_294_967_296 {
        let f = match calls.next(from as u32) {
            Some(f) => f,
            None => return Ok(()),
        };
        let _grew = take!(add_row(all, rows, f as usize, nothing));
        from = f as u64 + 1;
    }
    Ok(())
}

impl Walk {
    // What is recorded under this number.
    fn slot(&self, n: usize) -> Option<StatementSets>
        ensures { result ≡ slot_at self.now.slots n }
    {
        match self.slots.get(n) {
            Some(sets) => *sets,
            None => None,
        }
    }

    // Adds the set of this index.
    fn add_pooled(&self, all: &mut VarSet, index: u32) -> Result<(), Memory>
        ensures { OnOk result ((x : ℕ) → (has all.new x ≡ true)
            ↔ ((has all.old x ≡ true) ⊎ (pool_has self.now.pool index x ≡ true))) }
    {
        if index == 0 {
            return Ok(());
        }
        match self.pool.get(index as usize - 1) {
            Some(set) => all.join(set),
            None => Ok(()),
        }
    }

    // Adds the rows of all blocks of the set of this index.
    fn add_called(&self, all: &mut VarSet, calls: u32, rows: &[VarSet]) -> Result<(), Memory>
        requires small { length rows.now ≤ 2 ^ 32 }
        ensures { OnOk result ((x : ℕ) → (has all.new x ≡ true)
            ↔ ((has all.old x ≡ true) ⊎ ((f : ℕ) × (pool_has self.now.pool calls f ≡ true)
            × (member rows.now f x ≡ true)))) }
    {
        if calls == 0 {
            return Ok(());
        }
        let nothing = VarSet::new(self.alloc);
        match self.pool.get(calls as usize - 1) {
            Some(called) => add_rows(all, called, rows, &nothing),
            None => Ok(()),
        }
    }

    // The set of a statement's own positions, with what its calls carry. Without calls it is the same set.
    fn total(&mut self, own: u32, calls: u32, rows: &[VarSet]) -> u32
        requires small { length rows.now ≤ 2 ^ 32 }
        requires within { self.old.is_lost ≡ false → own ≤ length self.old.pool }
        ensures kept { self.new.is_lost ≡ false → self.old.is_lost ≡ false }
        ensures slots { self.new.slots ≡ self.old.slots }
        ensures pool { self.new.is_lost ≡ false → Extends self.old.pool self.new.pool }
        ensures set { self.new.is_lost ≡ false
            → IsSetOfIndex self.new.pool result (λ x. IsInTotal self.old.pool rows.now own calls x) }
    {
        if calls == 0 {
            return own;
        }
        let mut all = VarSet::new(self.alloc);
        self.is_lost |= self.add_pooled(&mut all, own).is_err();
        self.is_lost |= self.add_called(&mut all, calls, rows).is_err();
        self.put(all)
    }

    // The index of a copy of a row.
    fn put_row(&mut self, row: &VarSet) -> u32
        ensures kept { self.new.is_lost ≡ false → self.old.is_lost ≡ false }
        ensures slots { self.new.slots ≡ self.old.slots }
        ensures pool { self.new.is_lost ≡ false → Extends self.old.pool self.new.pool }
        ensures set { self.new.is_lost ≡ false → IsSetOfIndex self.new.pool result (λ x. has row.now x ≡ true) }
    {
        let mut copy = VarSet::new(self.alloc);
        self.is_lost |= copy.join(row).is_err();
        self.put(copy)
    }

    // The entry of what is recorded under one number.
    fn entry_of(
        &mut self,
        sets: Option<StatementSets>,
        targets: &[VarSet],
        seen: &[VarSet],
    ) -> Entry
        requires targets { length targets.now ≤ 2 ^ 32 }
        requires seen { length seen.now ≤ 2 ^ 32 }
        requires within { self.old.is_lost ≡ false → (o : StatementSets) → sets ≡ Some o
            → IsWithin self.old.pool o }
        ensures kept { self.new.is_lost ≡ false → self.old.is_lost ≡ false }
        ensures slots { self.new.slots ≡ self.old.slots }
        ensures pool { self.new.is_lost ≡ false → Extends self.old.pool self.new.pool }
        ensures entry { self.new.is_lost ≡ false → (o : StatementSets) → sets ≡ Some o
            → IsEntry self.old.pool self.new.pool o targets.now seen.now result }
    {
        match sets {
            None => Entry {
                targets: 0,
                expressions: 0,
            },
            Some(sets) => Entry {
                targets: self.total(sets.targets, sets.calls, targets),
                expressions: self.total(sets.expressions, sets.calls, seen),
            },
        }
    }
}

/// An entry for each number under which a statement was recorded. Where memory is refused the walk is lost.
pub(crate) fn statement_entries(walk: &mut Walk, targets: &[VarSet], seen: &[VarSet]) -> List<Entry>
    requires within { AreWithin walk.old }
    requires targets { length targets.now ≤ 2 ^ 32 }
    requires seen { length seen.now ≤ 2 ^ 32 }
    ensures { walk.new.is_lost ≡ false → AreEntries walk.old.pool walk.new.pool walk.old.slots targets.now seen.now
        result (length walk.old.slots) }
{
    let mut entries = List::new(walk.alloc);
    'slots: for n in 0..walk.slots.len() {
        let sets = walk.slot(n);
        let entry = walk.entry_of(sets, targets, seen);
        walk.is_lost |= entries.push(entry).is_err();
    }
    entries
}

/// An entry for each block, of the rows of both kinds. Where memory is refused the walk is lost.
pub(crate) fn row_entries(walk: &mut Walk, targets: &[VarSet], seen: &[VarSet]) -> List<Entry>
    requires { length seen.now ≡ length targets.now }
    ensures { walk.new.is_lost ≡ false → (walk.old.is_lost ≡ false)
        × AreRowEntries walk.old.pool walk.new.pool targets.now seen.now result (length targets.now) }
{
    let mut entries = List::new(walk.alloc);
    'rows: for b in 0..targets.len() {
        let entry = Entry {
            targets: walk.put_row(&targets[b]),
            expressions: walk.put_row(&seen[b]),
        };
        walk.is_lost |= entries.push(entry).is_err();
    }
    entries
}

/// Whether each row has 0.
pub(crate) fn flags(alloc: Global, rows: &[VarSet]) -> Result<List<bool>, Memory>
    ensures { IfOk result (λ flags. (b : ℕ) → get_or flags b false ≡ member rows.now b 0) }
{
    let mut flags = List::new(alloc);
    'rows: for b in 0..rows.len() {
        flags.push(rows[b].contains(0))?;
    }
    Ok(flags)
}
