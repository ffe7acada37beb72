//! The types that declared names stand for.

ghost use Rattle.std.specs.Prelude.{◌≡◌, []};
ghost use Rattle.sp_tree.specs.Carried.{Keeps};
ghost use Rattle.sp_types.specs.Tables.{number_by, next_by, numbers_from, type_number};

use crate::statement_counts::sum;
use sp_base::List;
use sp_tree::{NamedKind, NamedKindForm, Walk};
use std::alloc::Global;

/// The number of a declared name's type.
pub fn type_number(numbers: &[u32], k: u32) -> u32
    ensures { result ≡ type_number numbers.now k }
{
    match numbers.get(k as usize) {
        None => 0,
        Some(n) => *n,
    }
}

/// Another name of a type stands for that type's number, and any other definition for the next one.
fn number_by(known: &[u32], next: u32, form: &NamedKindForm) -> u32
    ensures { result ≡ number_by known.now next form.now }
{
    match form {
        NamedKindForm::Alias(k) => type_number(known, *k),
        _ => next,
    }
}

fn next_by(walk: &mut Walk, next: u32, form: &NamedKindForm) -> u32
    ensures { Keeps walk.old walk.new walk.old.first (result ≡ next_by next form.now) }
{
    match form {
        NamedKindForm::Alias(_) => next,
        _ => sum(walk, next, 1),
    }
}

/// The number of the type that each declared name stands for.
pub fn numbers_of(alloc: Global, walk: &mut Walk, kinds: &[NamedKind]) -> List<u32>
    ensures { Keeps walk.old walk.new walk.old.first (result ≡ numbers_from [] 0 kinds.now) }
{
    let mut known = Vec::new(alloc);
    let mut next = 0;
    for k in kinds {
        let number = number_by(known.as_slice(), next, &k.form);
        walk.push(&mut known, number);
        next = next_by(walk, next, &k.form);
    }
    List::of(known)
}
