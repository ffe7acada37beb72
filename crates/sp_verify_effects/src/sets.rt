//! Ordered sets of variables.

ghost use Rattle.std.specs.Prelude.{◌≡◌, IfOk, OnOk, not};
ghost use Rattle.sp_verify_effects.specs.Sets.{all_new, goes_beyond, meets, with_all, with_index, with_one, has};

use sp_base::Memory;
use std::alloc::Global;
use std::collections::BTreeSet;

/// What a call gives; where memory is refused to it, the function around ends so. One match, where `?` is two generic
/// calls, which cost the proof more.
#[macro_export]
macro_rules! have {
    ($call:expr) => {
        match $call {
            Ok(value) => value,
            Err(_) => return Err(Memory),
        }
    };
}

/// Whether a variable is in the set.
pub(crate) fn has(set: &BTreeSet<u32>, x: u32) -> bool
    ensures { result ≡ has set.now.keys x }
{
    set.contains(&x)
}

// Adds a variable, and says whether it is new.
fn add(set: &mut BTreeSet<u32>, x: u32) -> Result<bool, Memory>
    ensures new { IfOk result (λ new. new ≡ not (has set.old.keys x)) }
    ensures keys { OnOk result (set.new.keys ≡ with_one set.old.keys x) }
{
    let new = have!(set.insert(x));
    Ok(new)
}

/// Adds variables, and says whether all are new and differ.
pub(crate) fn add_all(set: &mut BTreeSet<u32>, xs: &[u32]) -> Result<bool, Memory>
    ensures new { IfOk result (λ new. new ≡ all_new set.old.keys xs.now) }
    ensures keys { OnOk result (set.new.keys ≡ with_all set.old.keys xs.now) }
{
    let mut new = true;
    for x in xs {
        let one = have!(add(set, *x));
        new &= one;
    }
    Ok(new)
}

/// The variables that are in both sets.
pub(crate) fn members_of_both(
    alloc: Global,
    one: &BTreeSet<u32>,
    other: &BTreeSet<u32>,
) -> Result<BTreeSet<u32>, Memory> {
    let mut both = BTreeSet::new(alloc);
    for x in one.intersection(other) {
        have!(both.insert(*x));
    }
    Ok(both)
}

/// The variables that are in one of the sets, or in both.
pub(crate) fn members_of_either(
    alloc: Global,
    one: &BTreeSet<u32>,
    other: &BTreeSet<u32>,
) -> Result<BTreeSet<u32>, Memory> {
    let mut either = BTreeSet::new(alloc);
    for x in one.iter() {
        have!(either.insert(*x));
    }
    for x in other.iter() {
        have!(either.insert(*x));
    }
    Ok(either)
}

/// The variables that are in the one set and not in the other one.
pub(crate) fn members_of_one(
    alloc: Global,
    one: &BTreeSet<u32>,
    other: &BTreeSet<u32>,
) -> Result<BTreeSet<u32>, Memory> {
    let mut only = BTreeSet::new(alloc);
    for x in one.difference(other) {
        have!(only.insert(*x));
    }
    Ok(only)
}

/// Adds the index of a forall, if there is one.
pub(crate) fn add_index(set: &mut BTreeSet<u32>, index: Option<u32>) -> Result<(), Memory>
    ensures { OnOk result (set.new.keys ≡ with_index set.old.keys index) }
{
    if let Some(x) = index {
        have!(set.insert(x));
    }
    Ok(())
}

/// Whether the set has one of these variables.
pub(crate) fn meets(set: &BTreeSet<u32>, xs: &[u32]) -> bool
    ensures { result ≡ meets set.now.keys xs.now }
{
    for x in xs {
        if has(set, *x) {
            return true;
        }
    }
    false
}

/// Whether one of these variables is not in the set.
pub(crate) fn goes_beyond(set: &BTreeSet<u32>, xs: &[u32]) -> bool
    ensures { result ≡ goes_beyond set.now.keys xs.now }
{
    for x in xs {
        if !has(set, *x) {
            return true;
        }
    }
    false
}
