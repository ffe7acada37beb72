//! What calls carry from block to block, gathered by sweeps until nothing is new.

ghost use Rattle.std.specs.Prelude.{◌≡◌, ℕ, ◌^◌, ◌<◌, ◌≤◌, true, false, not, ◌||◌, ◌&&◌, OnOk, IfOk, length};
ghost use Rattle.sp_varsets.specs.Members.{has};
ghost use Rattle.sp_varsets.specs.Paths.{member, ExtendsByPaths, Carried, Visited, PassUpTo, Closes};

use crate::take;
use crate::var_set::VarSet;
use sp_base::{List, Memory};

// Adds to a row that of another block.
pub(crate) fn add_row(
    row: &mut VarSet,
    rows: &[VarSet],
    from: usize,
    hidden: &VarSet,
) -> Result<bool, Memory>
    ensures added { OnOk result ((x : ℕ) → has row.new x ≡ has row.old x
        || (member rows.now from x && not (has hidden.now x))) }
    ensures same { IfOk result (λ changed. changed ≡ false → (x : ℕ) → has row.new x ≡ has row.old x) }
    ensures changed { IfOk result (λ changed. changed ≡ true → (x : ℕ) × (has row.new x ≡ true)
        × (has row.old x ≡ false)) }
{
    match rows.get(from) {
        Some(other) => {
            let changed = take!(row.add(other, hidden));
            Ok(changed)
        }
        None => Ok(false),
    }
}

// Adds to the row of one block that of a block that it calls, and says whether it grew.
fn carry(rows: &mut List<VarSet>, to: usize, from: usize, hidden: &VarSet) -> Result<bool, Memory>
    requires { to < length rows.old }
    ensures { IfOk result (λ changed. Carried rows.old rows.new to from hidden.now changed) }
{
    if from == to {
        return Ok(false);
    }
    let empty = VarSet::new(rows.alloc());
    let mut row = rows.replace(to, empty);
    let changed = take!(add_row(&mut row, rows.items(), from, hidden));
    let _empty = rows.replace(to, row);
    Ok(changed)
}

// Adds to the row of a block those of all blocks that it calls, and says whether it grew.
fn visit(rows: &mut List<VarSet>, b: usize, calls: &VarSet, hidden: &VarSet) -> Result<bool, Memory>
    requires { b < length rows.old }
    ensures { IfOk result (λ changed. Visited rows.old rows.new b calls.now hidden.now (2 ^ 32) changed) }
{
    let mut changed = false;
    let mut from = 0u64;
    'called: while from < 4_294_967_296 {
        let f = match calls.next(from as u32) {
            Some(f) => f,
            None => return Ok(changed),
        };
        changed |= carry(rows, b, f as usize, hidden)?;
        from = f as u64 + 1;
    }
    Ok(changed)
}

// Visits all blocks in order of their numbers, and says whether a row grew.
fn sweep(rows: &mut List<VarSet>, calls: &[VarSet], hidden: &[VarSet]) -> Result<bool, Memory>
    requires calls { length calls.now ≡ length rows.old }
    requires hidden { length hidden.now ≡ length rows.old }
    requires small { length rows.old ≤ 2 ^ 32 }
    ensures { IfOk result (λ changed. PassUpTo calls.now hidden.now rows.old rows.new (length rows.old) changed) }
{
    let mut changed = false;
    'rows: for b in 0..rows.len() {
        changed |= visit(rows, b, &calls[b], &hidden[b])?;
    }
    Ok(changed)
}

// Visits one block.
fn visit_one(
    rows: &mut List<VarSet>,
    b: usize,
    calls: &[VarSet],
    hidden: &[VarSet],
) -> Result<(), Memory>
    requires calls { length calls.now ≡ length rows.old }
    requires hidden { length hidden.now ≡ length rows.old }
    ensures { OnOk result (ExtendsByPaths calls.now hidden.now rows.old rows.new) }
{
    if b >= rows.len() {
        return Ok(());
    }
    let _grew = take!(visit(rows, b, &calls[b], &hidden[b]));
    Ok(())
}

// Visits the blocks in the order that carries the most.
fn hurry(
    rows: &mut List<VarSet>,
    order: &[u32],
    calls: &[VarSet],
    hidden: &[VarSet],
) -> Result<(), Memory>
    requires calls { length calls.now ≡ length rows.old }
    requires hidden { length hidden.now ≡ length rows.old }
    ensures { OnOk result (ExtendsByPaths calls.now hidden.now rows.old rows.new) }
{
    'steps: for block in order {
        take!(visit_one(rows, *block as usize, calls, hidden));
    }
    Ok(())
}

/// Adds to each row what paths of calls lead to. Each sweep but the last makes a row grow.
pub(crate) fn close(
    rows: &mut List<VarSet>,
    order: &[u32],
    calls: &[VarSet],
    hidden: &[VarSet],
) -> Result<(), Memory>
    requires calls { length calls.now ≡ length rows.old }
    requires hidden { length hidden.now ≡ length rows.old }
    requires small { length rows.old ≤ 2 ^ 32 }
    ensures { OnOk result (Closes calls.now hidden.now rows.old rows.new) }
{
    'sweeps: loop {
        hurry(rows, order, calls, hidden)?;
        if !sweep(rows, calls, hidden)? {
            return Ok(());
        }
    }
}
