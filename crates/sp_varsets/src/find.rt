//! The sets of all statements and blocks of a tree, as one call (`sets_of`).

ghost use Rattle.std.specs.Prelude.{◌≡◌, ◌^◌, ◌≤◌, IfOk, length, map};
ghost use Rattle.sp_tree.specs.CheckedOf.{program_of, block_of};
ghost use Rattle.sp_varsets.specs.AreSets.{AreSets, HaveOwnNumbers, HaveEarlierParents};
ghost use Rattle.sp_varsets.specs.Bodies.{AreBodies};
ghost use Rattle.sp_varsets.specs.Reaches.{Reaches, IsClosureOfShown, ArePooled};
ghost use Rattle.sp_varsets.specs.Totals.{AreWithin};

use crate::bodies::{Bodies, declared, empty_rows, gather, shown};
use crate::closure::close;
use crate::order::inner_first;
use crate::sets::Sets;
use crate::take;
use crate::totals::{flags, row_entries, statement_entries};
use crate::var_set::VarSet;
use crate::walk::Walk;
use sp_base::{List, Memory};
use sp_tree::Checked;
use std::alloc::Global;

/// What paths of calls lead to from each block: target variables, expression variables, and statements that a function
/// may not have.
pub(crate) struct Reach {
    pub targets: List<VarSet>,
    pub seen: List<VarSet>,
    pub stops: List<VarSet>,
}

impl Drop for Reach {
    fn drop(self) {
        let Reach {
            targets: _,
            seen: _,
            stops: _,
        } = self;
    }
}

// The rows but for what is hidden in them, with what paths of calls lead to.
fn closed(
    alloc: Global,
    own: &[VarSet],
    order: &[u32],
    calls: &[VarSet],
    hidden: &[VarSet],
) -> Result<List<VarSet>, Memory>
    requires calls { length calls.now ≡ length own.now }
    requires hidden { length hidden.now ≡ length own.now }
    requires small { length own.now ≤ 2 ^ 32 }
    ensures { IfOk result (λ rows. IsClosureOfShown calls.now hidden.now own.now rows) }
{
    let mut rows = take!(shown(alloc, own, hidden));
    take!(close(&mut rows, order, calls, hidden));
    Ok(rows)
}

// The rows of all kinds.
fn reached(alloc: Global, checked: &Checked, bodies: &Bodies) -> Result<Reach, Memory>
    requires parents { HaveEarlierParents (program_of checked.now) }
    requires blocks { length checked.now.blocks ≤ 2 ^ 32 }
    requires variables { length checked.now.variables ≤ 2 ^ 32 }
    requires bodies { AreBodies (map block_of checked.now.blocks) bodies.now (length checked.now.blocks) }
    ensures { IfOk result (λ reach. Reaches (program_of checked.now) bodies.now reach) }
{
    let order_list = inner_first(alloc, checked.blocks.items());
    let hidden = take!(declared(checked, alloc));
    let free = take!(empty_rows(alloc, checked.blocks.len()));
    let order = order_list.items();
    let hidden_rows = hidden.items();
    let free_rows = free.items();
    let calls = bodies.calls.items();
    let targets = take!(closed(alloc, bodies.targets.items(), order, calls, hidden_rows));
    let seen = take!(closed(alloc, bodies.expressions.items(), order, calls, hidden_rows));
    let stops = take!(closed(alloc, bodies.stops.items(), order, calls, free_rows));
    Ok(Reach {
        targets,
        seen,
        stops,
    })
}

impl Walk {
    // The sets, from what is recorded of statements and from the rows.
    fn pooled(self, reach: &Reach) -> Result<Sets, Memory>
        requires within { AreWithin self }
        requires targets { length reach.now.targets ≤ 2 ^ 32 }
        requires seen { length reach.now.seen ≡ length reach.now.targets }
        ensures { IfOk result (λ s. ArePooled self reach.now s) }
    {
        let mut walk = self;
        let targets = reach.targets.items();
        let seen = reach.seen.items();
        let statements = statement_entries(&mut walk, targets, seen);
        let blocks = row_entries(&mut walk, targets, seen);
        let stops = take!(flags(walk.alloc, reach.stops.items()));
        let Walk {
            alloc,
            pool,
            slots: _,
            known: _,
            is_lost,
        } = walk;
        if is_lost {
            return Err(Memory);
        }
        Ok(Sets {
            nothing: VarSet::new(alloc),
            pool,
            statements,
            blocks,
            stops,
        })
    }
}

/// The sets of each statement and each block of a tree whose statements have numbers of their own and whose blocks
/// stand after those around them. The only other answer is want of memory.
pub fn sets_of(alloc: Global, checked: &Checked) -> Result<Sets, Memory>
    requires numbers { HaveOwnNumbers (program_of checked.now) }
    requires parents { HaveEarlierParents (program_of checked.now) }
    ensures { IfOk result (λ s. AreSets (program_of checked.now) s) }
{
    if checked.blocks.len() > 4_294_967_296 {
        return Err(Memory);
    }
    if checked.variables.len() > 4_294_967_296 {
        return Err(Memory);
    }
    let mut walk = Walk::new(alloc);
    let bodies = take!(gather(&mut walk, checked.blocks.items()));
    let reach = take!(reached(alloc, checked, &bodies));
    walk.pooled(&reach)
}
