//! What stands in the statement parts of blocks, and the variables that blocks declare.

ghost use Rattle.std.specs.Prelude.{◌≡◌, ℕ, ◌<◌, ◌≤◌, ◌^◌, false, ◌||◌, ◌&&◌, ◌==◌, not, OnOk, IfOk};
ghost use Rattle.std.specs.Prelude.{map, length};
ghost use Rattle.sp_tree.specs.Bare.{without_places};
ghost use Rattle.sp_tree.specs.CheckedOf.{block_of, program_of};
ghost use Rattle.sp_varsets.specs.AreSets.{HaveEarlierParents};
ghost use Rattle.sp_varsets.specs.Bodies.{IsInBlocks, AreBodies, AppendsBody, Declares, AreDeclared};
ghost use Rattle.sp_varsets.specs.Paths.{member};
ghost use Rattle.sp_varsets.specs.Records.{RecordsStatements};

use crate::take;
use crate::uses::Uses;
use crate::var_set::VarSet;
use crate::walk::Walk;
use sp_base::{List, Memory};
use sp_tree::{Block, Checked};
use std::alloc::Global;

/// What stands in the statement part of each block, by its number. Bodies that were refused memory are lost: what they
/// have is no answer.
pub(crate) struct Bodies {
    pub targets: List<VarSet>,
    pub expressions: List<VarSet>,
    pub calls: List<VarSet>,
    pub stops: List<VarSet>,
    pub is_lost: bool,
}

impl Drop for Bodies {
    fn drop(self) {
        let Bodies {
            targets: _,
            expressions: _,
            calls: _,
            stops: _,
            is_lost: _,
        } = self;
    }
}

/// Walks through the statement parts of all blocks.
pub(crate) fn gather(walk: &mut Walk, blocks: &[Block]) -> Result<Bodies, Memory>
    ensures walk { OnOk result (RecordsStatements walk.old walk.new (λ t. IsInBlocks (map block_of blocks.now) t)) }
    ensures bodies { IfOk result (λ bodies. AreBodies (map block_of blocks.now) bodies (length blocks.now)) }
{
    let alloc = walk.alloc;
    let mut bodies = Bodies {
        targets: List::new(alloc),
        expressions: List::new(alloc),
        calls: List::new(alloc),
        stops: List::new(alloc),
        is_lost: false,
    };
    for block in blocks {
        bodies.walk_in(walk, block);
    }
    if bodies.is_lost {
        Err(Memory)
    } else {
        Ok(bodies)
    }
}

impl Bodies {
    // Walks through the statement part of the next block.
    fn walk_in(&mut self, walk: &mut Walk, block: &Block)
        ensures { AppendsBody self.old self.new walk.old walk.new (block_of block.now) }
    {
        let mut uses = Uses::new(walk.alloc);
        walk.statement(&mut uses, &block.body);
        uses.put_last(self);
    }
}

/// An empty row for each of so many blocks.
pub(crate) fn empty_rows(alloc: Global, count: usize) -> Result<List<VarSet>, Memory>
    ensures rows { IfOk result (λ rows. length rows ≡ count) }
    ensures empty { IfOk result (λ rows. (b x : ℕ) → member rows b x ≡ false) }
{
    let mut rows = List::new(alloc);
    'rows: for _b in 0..count {
        rows.push(VarSet::new(alloc))?;
    }
    Ok(rows)
}

// Puts a member into one row.
fn put_into(rows: &mut List<VarSet>, b: usize, variable: u32) -> Result<(), Memory>
    requires { b < length rows.old }
    ensures rows { OnOk result (length rows.new ≡ length rows.old) }
    ensures put { OnOk result ((c x : ℕ) → member rows.new c x ≡ ((c == b) && (variable == x)) || member rows.old c x) }
{
    let empty = VarSet::new(rows.alloc());
    let mut row = rows.replace(b, empty);
    take!(row.insert(variable));
    let _empty = rows.replace(b, row);
    Ok(())
}

// Puts the variable into the rows of a block and of all blocks around it.
fn declare(
    rows: &mut List<VarSet>,
    checked: &Checked,
    variable: u32,
    block: u32,
) -> Result<(), Memory>
    requires parents { HaveEarlierParents (program_of checked.now) }
    requires rows { length rows.old ≡ length checked.now.blocks }
    ensures { OnOk result (Declares (without_places (program_of checked.now)) rows.old rows.new variable block) }
{
    let k = match checked.blocks.get(block as usize) {
        Some(k) => k,
        None => return Ok(()),
    };
    take!(put_into(rows, block as usize, variable));
    let q = match k.parent {
        Some(q) => q,
        None => return Ok(()),
    };
    if q >= block {
        return Ok(());
    }
    take!(declare(rows, checked, variable, q));
    Ok(())
}

/// For each block, the variables that it or a block inside it declares.
pub(crate) fn declared(checked: &Checked, alloc: Global) -> Result<List<VarSet>, Memory>
    requires parents { HaveEarlierParents (program_of checked.now) }
    requires small { length checked.now.variables ≤ 2 ^ 32 }
    ensures { IfOk result
        (λ rows. AreDeclared (without_places (program_of checked.now)) rows (length checked.now.variables)) }
{
    let mut rows = take!(empty_rows(alloc, checked.blocks.len()));
    let variables = checked.variables.items();
    'variables: for x in 0..variables.len() {
        take!(declare(&mut rows, checked, x as u32, variables[x].block));
    }
    Ok(rows)
}

/// Each row but for what is hidden in it.
pub(crate) fn shown(
    alloc: Global,
    own: &[VarSet],
    hidden: &[VarSet],
) -> Result<List<VarSet>, Memory>
    requires { length hidden.now ≡ length own.now }
    ensures rows { IfOk result (λ rows. length rows ≡ length own.now) }
    ensures members { IfOk result (λ rows. (b x : ℕ)
        → member rows b x ≡ member own.now b x && not (member hidden.now b x)) }
{
    let mut rows = List::new(alloc);
    'rows: for b in 0..own.len() {
        let mut row = VarSet::new(alloc);
        let _grew = take!(row.add(&own[b], &hidden[b]));
        rows.push(row)?;
    }
    Ok(rows)
}
