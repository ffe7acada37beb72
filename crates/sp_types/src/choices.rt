//! The constants of a `case` statement, and the rules at them.

ghost use Rattle.std.specs.Prelude.{◌≡◌, map, [], false};
ghost use Rattle.sp_tree.specs.Carried.{Keeps};
ghost use Rattle.sp_tree.specs.NamedOf.{arms, arm_of};
ghost use Rattle.sp_types.specs.Tables.{const_value};
ghost use Rattle.sp_types.specs.TypeWalk.{with_constant, with_constants, constant_lists};
ghost use Rattle.sp_types.specs.Firsts.{choice_first, choices_first, lists_first};
ghost use Rattle.sp_types.specs.CheckedTree.{constant_numbers};

use crate::rules::differ;
use crate::seen::Seen;
use crate::signed_constants::const_value;
use crate::tables::{Ordinal, Tables, ordinal_kind};
use crate::values::number_or;
use sp_base::{List, Rule};
use sp_tree::{NamedArm, NamedConst, Walk, breaks_if};
use std::alloc::Global;

/// One more constant behind others.
fn with_constant(alloc: Global, walk: &mut Walk, o: Option<Ordinal>, before: Seen) -> Seen
    ensures { Keeps walk.old walk.new walk.old.first (result ≡ with_constant o before) }
{
    match o {
        None => before,
        Some(o) => match before.with(o) {
            Ok(seen) => seen,
            Err(_) => {
                walk.is_lost = true;
                Seen::new(alloc)
            }
        },
    }
}

/// One constant behind others: Y14, Y11, Y12.
fn check_choice(
    t: &Tables,
    walk: &mut Walk,
    k: Option<u32>,
    before: &Seen,
    c: &NamedConst,
) -> Option<Ordinal>
    ensures { Keeps walk.old walk.new (choice_first t.now k before.now c.now walk.old.first)
        (result ≡ const_value t.now.constants c.now) }
{
    let w = const_value(walk, t.constants.items(), c);
    walk.note(breaks_if(Rule::Y14, c.at, w.is_wrong));
    walk.note(breaks_if(Rule::Y11, c.at, differ(k, ordinal_kind(w.value))));
    let again = match w.value {
        None => false,
        Some(o) => before.contains(o),
    };
    walk.note(breaks_if(Rule::Y12, c.at, again));
    w.value
}

/// The constants of one choice, behind those of others.
fn check_constants(
    alloc: Global,
    t: &Tables,
    walk: &mut Walk,
    k: Option<u32>,
    before: Seen,
    cs: &[NamedConst],
) -> Seen
    ensures { Keeps walk.old walk.new (choices_first t.now k before cs.now walk.old.first)
        (result ≡ with_constants t.now cs.now before) }
{
    let mut before = before;
    for c in cs {
        let o = check_choice(t, walk, k, &before, c);
        before = with_constant(alloc, walk, o, before);
    }
    before
}

/// The constants of all choices, for a selector of a type.
pub fn check_choices(alloc: Global, t: &Tables, walk: &mut Walk, k: Option<u32>, xs: &[NamedArm])
    ensures { walk.new.is_lost ≡ false → (walk.old.is_lost ≡ false)
        × (walk.new.first ≡ lists_first t.now k [] (constant_lists (arms (map arm_of xs.now))) walk.old.first) }
{
    let mut before = Seen::new(alloc);
    for x in xs {
        before = check_constants(alloc, t, walk, k, before, x.constants.items());
    }
}

/// The numbers of constants.
pub fn constant_numbers(alloc: Global, t: &Tables, walk: &mut Walk, cs: &[NamedConst]) -> List<i64>
    ensures { Keeps walk.old walk.new walk.old.first (result ≡ constant_numbers t.now cs.now) }
{
    let mut out = Vec::new(alloc);
    for c in cs {
        let value = const_value(walk, t.constants.items(), c).value;
        walk.push(&mut out, number_or(0, value));
    }
    List::of(out)
}
