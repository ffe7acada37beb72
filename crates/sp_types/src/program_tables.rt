//! The tables of a program, before its statements are read.

ghost use Rattle.std.specs.Prelude.{◌≡◌, List, map};
ghost use Rattle.sp_tree.specs.Carried.{Keeps};
ghost use Rattle.sp_tree.specs.NamedOf.{block_of};
ghost use Rattle.sp_types.specs.Tables.{answer_variable, type_of, types_of, roles_of, signatures};
ghost use Rattle.sp_types.specs.AfterTables.{tables_by_names};

use crate::field_table::KindWithFields;
use crate::numbers::type_number;
use crate::tables::{Ordinal, Signature, Tables};
use sp_base::List;
use sp_tree::{KindOf, NamedAnswer, NamedBlock, Role, Variable, Walk};
use std::alloc::Global;

fn type_of(numbers: &[u32], role: Role, kind: u32) -> Option<u32>
    ensures { result ≡ type_of numbers.now role kind }
{
    match role {
        Role::Index => None,
        _ => Some(type_number(numbers, kind)),
    }
}

/// The types of the variables; that of a forall index is found at its first limit.
fn types_of(
    alloc: Global,
    walk: &mut Walk,
    numbers: &[u32],
    variables: &[Variable],
) -> List<Option<u32>>
    ensures { Keeps walk.old walk.new walk.old.first (result ≡ types_of numbers.now variables.now) }
{
    let mut out = Vec::new(alloc);
    for x in variables {
        walk.push(&mut out, type_of(numbers, x.role, x.kind));
    }
    List::of(out)
}

fn roles_of(alloc: Global, walk: &mut Walk, variables: &[Variable]) -> List<Role>
    ensures { Keeps walk.old walk.new walk.old.first (result ≡ roles_of variables.now) }
{
    let mut out = Vec::new(alloc);
    for x in variables {
        walk.push(&mut out, x.role);
    }
    List::of(out)
}

/// The number of the variable with a function's result.
pub fn answer_variable(answer: Option<NamedAnswer>) -> Option<u32>
    ensures { result ≡ answer_variable answer }
{
    match answer {
        None => None,
        Some(a) => Some(a.variable),
    }
}

fn copy_of(alloc: Global, walk: &mut Walk, numbers: &[u32]) -> List<u32>
    ensures { Keeps walk.old walk.new walk.old.first (result ≡ numbers.now) }
{
    match List::from_slice(alloc, numbers) {
        Ok(copy) => copy,
        Err(_) => {
            walk.is_lost = true;
            List::new(alloc)
        }
    }
}

/// The headings of the blocks.
fn signatures(alloc: Global, walk: &mut Walk, blocks: &[NamedBlock]) -> List<Signature>
    ensures { Keeps walk.old walk.new walk.old.first (result ≡ signatures (map block_of blocks.now)) }
{
    let mut out = Vec::new(alloc);
    for b in blocks {
        let formals = copy_of(alloc, walk, b.formals.items());
        let answer = answer_variable(b.answer);
        walk.push(&mut out, Signature { formals, answer });
    }
    List::of(out)
}

/// The types alone.
pub fn kinds_in(alloc: Global, walk: &mut Walk, entries: List<KindWithFields>) -> List<KindOf>
    ensures { Keeps walk.old walk.new walk.old.first (result ≡ entries) }
{
    let mut out = Vec::new(alloc);
    for e in entries.into_vec() {
        walk.push(&mut out, e.into_kind());
    }
    List::of(out)
}

/// What is known before the statements are read.
pub fn tables_of(
    alloc: Global,
    walk: &mut Walk,
    numbers: &[u32],
    constants: List<Option<Ordinal>>,
    kinds: List<KindWithFields>,
    variables: &[Variable],
    blocks: &[NamedBlock],
) -> Tables
    ensures { Keeps walk.old walk.new walk.old.first
        (result ≡ tables_by_names numbers.now constants kinds variables.now (map block_of blocks.now)) }
{
    let types = types_of(alloc, walk, numbers, variables);
    let roles = roles_of(alloc, walk, variables);
    let blocks = signatures(alloc, walk, blocks);
    Tables {
        constants,
        kinds,
        variables: types,
        roles,
        blocks,
        next: 0,
    }
}
