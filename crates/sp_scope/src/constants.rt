//! Constants with numbers for names.

ghost use Rattle.std.specs.Prelude.{◌≡◌};
ghost use Rattle.sp_tree.specs.NamedTree.{named_value, named_const, named_constants};
ghost use Rattle.sp_tree.specs.Carried.{Keeps};
ghost use Rattle.sp_scope.specs.Firsts.{value_first, constants_first, bound_first};

use crate::declarations::{check_own_constant, constant_number, constant_rule};
use crate::scopes::Scopes;
use sp_base::List;
use sp_tree::{
    FirstRefusal, Name, NamedConst, NamedValue, SynConst, SynValue, Walk, earlier_refusal,
};
use std::alloc::Global;

/// The first rule that is broken up to the end of a constant.
pub fn check_value(scopes: &Scopes, v: &SynValue, first: FirstRefusal) -> FirstRefusal
    ensures { result ≡ value_first scopes.now v.now first }
{
    match v {
        SynValue::Number(_) => first,
        SynValue::Quoted(_) => first,
        SynValue::Named(x) => earlier_refusal(first, constant_rule(x.at, scopes.find(&x.text))),
    }
}

/// The same in the definition of a type.
pub fn check_bound(scopes: &Scopes, own: &Name, v: &SynValue, first: FirstRefusal) -> FirstRefusal
    ensures { result ≡ bound_first scopes.now own.now v.now first }
{
    match v {
        SynValue::Number(_) => first,
        SynValue::Quoted(_) => first,
        SynValue::Named(x) => earlier_refusal(first, check_own_constant(scopes, own, x)),
    }
}

fn name_value(alloc: Global, scopes: &Scopes, walk: &mut Walk, v: &SynValue) -> NamedValue
    ensures { Keeps walk.old walk.new walk.old.first (result ≡ named_value scopes.now v.now) }
{
    match v {
        SynValue::Number(n) => NamedValue::Number(*n),
        SynValue::Quoted(t) => NamedValue::Quoted(walk.text(alloc, t)),
        SynValue::Named(x) => NamedValue::Constant(constant_number(scopes.find(&x.text))),
    }
}

/// A constant with its sign.
pub fn name_const(alloc: Global, scopes: &Scopes, walk: &mut Walk, c: &SynConst) -> NamedConst
    ensures { Keeps walk.old walk.new walk.old.first (result ≡ named_const scopes.now c.now) }
{
    NamedConst {
        at: c.at,
        negative: c.negative,
        value: name_value(alloc, scopes, walk, &c.value),
    }
}

/// The constants of an arm.
pub fn name_constants(
    alloc: Global,
    scopes: &Scopes,
    walk: &mut Walk,
    cs: &[SynConst],
) -> List<NamedConst>
    ensures { Keeps walk.old walk.new (constants_first scopes.now cs.now walk.old.first)
        (result ≡ named_constants scopes.now cs.now) }
{
    let mut out = Vec::new(alloc);
    for c in cs {
        walk.first = check_value(scopes, &c.value, walk.first);
        let constant = name_const(alloc, scopes, walk, c);
        walk.push(&mut out, constant);
    }
    List::of(out)
}
