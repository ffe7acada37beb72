//! The rules of names at a constant, a type and a declaration, with the declarations visible there.

ghost use Rattle.std.specs.Prelude.{◌≡◌};
ghost use Rattle.std.specs.Option.{option_copied};
ghost use Rattle.sp_tree.specs.Scopes.{find};
ghost use Rattle.sp_tree.specs.NameRules.{broken_rule, use_rule, AsConstant, AsKind, Declares, Uses};
ghost use Rattle.sp_tree.specs.NameRules.{UsesIn};
ghost use Rattle.sp_tree.specs.NamedTree.{constant_number, kind_number};

use crate::scopes::Scopes;
use sp_base::{Place, Rule};
use sp_tree::{FirstRefusal, Meaning, Name, Sort, breaks, breaks_if, earlier_refusal};

/// A name that has to be a constant: N1, N3.
pub fn constant_rule(at: Place, m: Option<&Meaning>) -> FirstRefusal
    ensures { result ≡ use_rule AsConstant at (option_copied m.entry) }
{
    match m {
        None => breaks(Rule::N1, at),
        Some(Meaning::Constant(_)) => None,
        Some(_) => breaks(Rule::N3, at),
    }
}

fn kind_rule(at: Place, m: Option<&Meaning>) -> FirstRefusal
    ensures { result ≡ use_rule AsKind at (option_copied m.entry) }
{
    match m {
        None => breaks(Rule::N1, at),
        Some(Meaning::Kind(_)) => None,
        Some(_) => breaks(Rule::N3, at),
    }
}

/// A type: N1, N3.
pub fn check_kind(scopes: &Scopes, x: &Name) -> FirstRefusal
    ensures { result ≡ broken_rule scopes.now (Uses x.now AsKind) }
{
    kind_rule(x.at, scopes.find(&x.text))
}

/// A constant in the definition of a type: N1, N3, N4.
pub fn check_own_constant(scopes: &Scopes, own: &Name, x: &Name) -> FirstRefusal
    ensures { result ≡ broken_rule scopes.now (UsesIn own.now x.now AsConstant) }
{
    if own.text.bytes() == x.text.bytes() {
        breaks(Rule::N4, x.at)
    } else {
        constant_rule(x.at, scopes.find(&x.text))
    }
}

/// A type in the definition of a type: N1, N3, N4.
pub fn check_own_kind(scopes: &Scopes, own: &Name, x: &Name) -> FirstRefusal
    ensures { result ≡ broken_rule scopes.now (UsesIn own.now x.now AsKind) }
{
    if own.text.bytes() == x.text.bytes() {
        breaks(Rule::N4, x.at)
    } else {
        kind_rule(x.at, scopes.find(&x.text))
    }
}

/// A declaration in the innermost block: N2, L4.
pub fn check_declares(scopes: &Scopes, x: &Name, sort: Sort) -> FirstRefusal
    ensures { result ≡ broken_rule scopes.now (Declares x.now sort) }
{
    earlier_refusal(
        breaks_if(Rule::N2, x.at, scopes.declares(&x.text)),
        breaks_if(Rule::L4, x.at, scopes.is_full(sort)),
    )
}

/// The number of a constant, and 0 where the name is none.
pub fn constant_number(m: Option<&Meaning>) -> u32
    ensures { result ≡ constant_number (option_copied m.entry) }
{
    match m {
        Some(Meaning::Constant(k)) => *k,
        _ => 0,
    }
}

/// The number of a type, and 0 where the name is none.
pub fn kind_number(m: Option<&Meaning>) -> u32
    ensures { result ≡ kind_number (option_copied m.entry) }
{
    match m {
        Some(Meaning::Kind(k)) => *k,
        _ => 0,
    }
}
