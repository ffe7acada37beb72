//! What areas may do without being asked about it.

ghost use Rattle.std.specs.Prelude.{◌≡◌, IfOk, Some, true};
ghost use Rattle.sp_verify_effects.specs.Allowances.{Fits, FitsBlock, IsWithin, LetsAll, allows, is_let};
ghost use Rattle.sp_verify_effects.specs.Allowances.{loads_within, stops_within, stores_within};
ghost use Rattle.sp_verify_effects.specs.FactClosure.{Passes};

use crate::edges::Edge;
use crate::facts::Effect;
use crate::have;
use crate::sets::{add_all, has, members_of_both, members_of_either, members_of_one};
use sp_base::Memory;
use sp_code::{ChildTable, Layout};
use std::alloc::Global;
use std::collections::BTreeSet;

/// The variables that an area may store, those that it may load, and whether it may come to stops. If `complement` is
/// true, the sets have the variables that it may not store or load instead.
#[derive(Drop)]
pub struct Allowance {
    pub complement: bool,
    pub stored: BTreeSet<u32>,
    pub loaded: BTreeSet<u32>,
    pub stops: bool,
}

// Whether a set has a variable, or its complement has it.
fn is_let(complement: bool, set: &BTreeSet<u32>, x: u32) -> bool
    ensures { result ≡ is_let complement set.now.keys x }
{
    if complement {
        !has(set, x)
    } else {
        has(set, x)
    }
}

/// Whether it may do this.
pub(crate) fn allows(allowance: &Allowance, effect: Effect) -> bool
    ensures { result ≡ allows allowance.now effect }
{
    match effect {
        Effect::Stores(x) => is_let(allowance.complement, &allowance.stored, x),
        Effect::Loads(x) => is_let(allowance.complement, &allowance.loaded, x),
        Effect::Stops => allowance.stops,
    }
}

/// What a child is handed.
pub(crate) fn allowance_of(alloc: Global, child: &ChildTable) -> Result<Allowance, Memory> {
    let mut stored = BTreeSet::new(alloc);
    let _new = have!(add_all(&mut stored, child.moved.items()));
    let mut loaded = BTreeSet::new(alloc);
    let _new = have!(add_all(&mut loaded, child.moved.items()));
    let _new = have!(add_all(&mut loaded, child.shared.items()));
    Ok(Allowance {
        complement: false,
        stored,
        loaded,
        stops: true,
    })
}

/// The variables that a block has itself.
pub(crate) fn allowance_of_block(alloc: Global, l: &Layout) -> Result<Allowance, Memory> {
    let mut stored = BTreeSet::new(alloc);
    let _new = have!(add_all(&mut stored, l.variables.items()));
    let mut loaded = BTreeSet::new(alloc);
    let _new = have!(add_all(&mut loaded, l.variables.items()));
    Ok(Allowance {
        complement: false,
        stored,
        loaded,
        stops: false,
    })
}

// The same set again.
fn copy_of(alloc: Global, set: &BTreeSet<u32>) -> Result<BTreeSet<u32>, Memory> {
    let mut copy = BTreeSet::new(alloc);
    for x in set.iter() {
        have!(copy.insert(*x));
    }
    Ok(copy)
}

/// All variables except these, and stops.
pub(crate) fn allowance_without(
    alloc: Global,
    variables: &BTreeSet<u32>,
) -> Result<Allowance, Memory> {
    let stored = have!(copy_of(alloc, variables));
    let loaded = have!(copy_of(alloc, variables));
    Ok(Allowance {
        complement: true,
        stored,
        loaded,
        stops: true,
    })
}

/// Whether a child is handed all of it.
pub(crate) fn fits(alloc: Global, allowance: &Allowance, child: &ChildTable) -> Result<bool, Memory>
    ensures { IfOk result (λ b. b ≡ true → Fits (Some allowance.now) child.now) }
{
    if allowance.complement {
        return Ok(false);
    }
    let mut handed = BTreeSet::new(alloc);
    let _new = have!(add_all(&mut handed, child.moved.items()));
    if !allowance.stored.is_subset(&handed) {
        return Ok(false);
    }
    let _new = have!(add_all(&mut handed, child.shared.items()));
    Ok(allowance.loaded.is_subset(&handed))
}

/// Whether a block has all variables of it itself, and it has no stops.
pub(crate) fn fits_block(alloc: Global, allowance: &Allowance, l: &Layout) -> Result<bool, Memory>
    ensures { IfOk result (λ b. b ≡ true → FitsBlock (Some allowance.now) l.now) }
{
    if allowance.complement {
        return Ok(false);
    }
    if allows(allowance, Effect::Stops) {
        return Ok(false);
    }
    let mut own = BTreeSet::new(alloc);
    let _new = have!(add_all(&mut own, l.variables.items()));
    if !allowance.stored.is_subset(&own) {
        return Ok(false);
    }
    Ok(allowance.loaded.is_subset(&own))
}

// The variables that both let, as a set or, if both are complements, as a complement.
fn let_by_both(
    alloc: Global,
    one_complement: bool,
    one: &BTreeSet<u32>,
    other_complement: bool,
    other: &BTreeSet<u32>,
) -> Result<BTreeSet<u32>, Memory> {
    if one_complement {
        if other_complement {
            members_of_either(alloc, one, other)
        } else {
            members_of_one(alloc, other, one)
        }
    } else if other_complement {
        members_of_one(alloc, one, other)
    } else {
        members_of_both(alloc, one, other)
    }
}

/// What two allowances have in common.
pub(crate) fn shared_by(
    alloc: Global,
    one: &Allowance,
    other: &Allowance,
) -> Result<Allowance, Memory> {
    let stored = have!(let_by_both(
        alloc,
        one.complement,
        &one.stored,
        other.complement,
        &other.stored
    ));
    let loaded = have!(let_by_both(
        alloc,
        one.complement,
        &one.loaded,
        other.complement,
        &other.loaded
    ));
    Ok(Allowance {
        complement: one.complement && other.complement,
        stored,
        loaded,
        stops: one.stops && other.stops,
    })
}

// Whether the other one lets all variables that the one lets.
fn lets_all(
    one_complement: bool,
    one: &BTreeSet<u32>,
    other_complement: bool,
    other: &BTreeSet<u32>,
) -> bool
    ensures { result ≡ true → LetsAll one_complement one.now.keys other_complement other.now.keys }
{
    if one_complement {
        if other_complement {
            other.is_subset(one)
        } else {
            false
        }
    } else if other_complement {
        one.is_disjoint(other)
    } else {
        one.is_subset(other)
    }
}

// Whether the other one has stops if the one does.
fn stops_within(one: &Allowance, other: &Allowance) -> bool
    ensures { result ≡ stops_within one.now other.now }
{
    !one.stops || other.stops
}

/// Whether one allowance is within another.
pub(crate) fn is_within(one: &Allowance, other: &Allowance) -> bool
    ensures { result ≡ true → IsWithin one.now other.now }
{
    if !stops_within(one, other) {
        return false;
    }
    if lets_all(one.complement, &one.stored, other.complement, &other.stored) {
        lets_all(one.complement, &one.loaded, other.complement, &other.loaded)
    } else {
        false
    }
}

// The same, if they are not known to be one.
fn is_same_or_within(one: &Allowance, other: &Allowance, same: bool) -> bool
    requires { same ≡ true → one.now ≡ other.now }
    ensures { result ≡ true → IsWithin one.now other.now }
{
    if same { true } else { is_within(one, other) }
}

// Whether the other one allows a store of an actual variable if the one allows that of the formal.
fn stores_within(one: &Allowance, other: &Allowance, formal: u32, actual: u32) -> bool
    ensures { result ≡ stores_within one.now other.now formal actual }
{
    !is_let(one.complement, &one.stored, formal) || is_let(other.complement, &other.stored, actual)
}

// The same for loads.
fn loads_within(one: &Allowance, other: &Allowance, formal: u32, actual: u32) -> bool
    ensures { result ≡ loads_within one.now other.now formal actual }
{
    !is_let(one.complement, &one.loaded, formal) || is_let(other.complement, &other.loaded, actual)
}

/// Whether what one allows, the other one allows, as it goes along an edge; `same` says that they are one.
pub(crate) fn passes_within(one: &Allowance, other: &Allowance, same: bool, edge: Edge) -> bool
    requires { same ≡ true → one.now ≡ other.now }
    ensures { result ≡ true → Passes (Some one.now) (Some other.now) edge }
{
    match edge {
        Edge::Passed {
            to: _,
            formal,
            actual,
        } => {
            if stores_within(one, other, formal, actual) {
                loads_within(one, other, formal, actual)
            } else {
                false
            }
        }
        Edge::Started { to: _, index: _ } => is_same_or_within(one, other, same),
        Edge::Called { to: _ } => is_same_or_within(one, other, same),
    }
}
