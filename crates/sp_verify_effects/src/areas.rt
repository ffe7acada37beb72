//! Areas of code, known by their first instructions.

ghost use Rattle.std.specs.Prelude.{◌≡◌, ◌<◌, MatchOption, length, slice_get};
ghost use Rattle.std.specs.Option.{option_copied};
ghost use Rattle.sp_verify_areas.specs.Only.{LiesOnlyIn};
ghost use Rattle.sp_verify_effects.specs.PassContexts.{IsPassContext};
ghost use Rattle.sp_verify_effects.specs.Own.{child_entry, entry_by};
ghost use Rattle.sp_verify_rules.specs.Areas.{Area, child_at, child_of, entry, instr_at, table_at, table_named};
ghost use Rattle.sp_verify_rules.specs.NameRules.{LiesIn};

use crate::pass_context::PassContext;
use sp_base::List;
use sp_code::{ChildTable, Code, ForkTable};
use sp_verify_areas::owners::{Owner, table_number};

/// The table of the fork or forall at p.
pub fn table_of<'a>(code: &'a Code, p: u32) -> Option<&'a ForkTable>
    ensures { option_copied result ≡ table_at code.now.forks (table_named (instr_at code.now p)) }
{
    match table_number(code, p) {
        None => None,
        Some(t) => code.parts().forks.get(t as usize),
    }
}

/// Child k of table t.
pub(crate) fn child_at(forks: &List<ForkTable>, t: u32, k: u32) -> Option<&ChildTable>
    ensures { option_copied result ≡ child_of (slice_get forks.now t) k }
{
    match forks.get(t as usize) {
        None => None,
        Some(table) => table.children.get(k as usize),
    }
}

// Where a child of the fork or forall at p begins.
fn entry_of_child(code: &Code, p: u32, child: usize) -> Option<u32>
    ensures { result ≡ child_entry (child_at code.now p child) }
{
    let table = match table_of(code, p) {
        None => return None,
        Some(table) => table,
    };
    match table.children.get(child) {
        None => None,
        Some(child) => Some(child.entry),
    }
}

// Where the area of an owner begins.
fn entry_of(g: &PassContext, owner: Owner) -> Option<u32>
    requires known { IsPassContext g.now }
    ensures { result ≡ entry_by g.now.code.now owner }
{
    match owner {
        Owner::Nobody => None,
        Owner::Block(block) => g.blocks.entry_of(&g.code.parts().layouts, block),
        Owner::Child { at, child } => entry_of_child(g.code, at, child),
        Owner::Several => None,
    }
}

/// The area in which an instruction lies.
pub fn area_at(g: &PassContext, p: u32) -> Option<u32>
    requires known { IsPassContext g.now }
    requires there { p < length g.now.code.now.instrs }
    ensures { MatchOption result ((a : Area) → LiesIn g.now.code.now p a → ⊥)
        (λ n. (a : Area) × LiesOnlyIn g.now.code.now p a × (entry g.now.code.now a ≡ n)) }
{
    match g.owners.get(p as usize) {
        None => None,
        Some(owner) => entry_of(g, *owner),
    }
}
