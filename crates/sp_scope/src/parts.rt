//! The walk through parts that declare constants, types and variables.

ghost use Rattle.std.specs.Prelude.{◌≡◌, false};
ghost use Rattle.sp_tree.specs.Scopes.{inner_env, with_declaration, next_constant};
ghost use Rattle.sp_tree.specs.declared.meaning.Meaning.TheVariants as meaning;
ghost use Rattle.sp_tree.specs.declared.meaning.Sort.TheVariants as sort;
ghost use Rattle.sp_tree.specs.NameWalk.{part_local, type_local, kind_local, constants_local};
ghost use Rattle.sp_tree.specs.NamedTree.{constant_part, kind_part, variables_part};
ghost use Rattle.sp_tree.specs.NamedOf as named;
ghost use Rattle.sp_tree.specs.PlainSyntax.{Const, Kind, Var};
ghost use Rattle.sp_tree.specs.NameRules.{Declares};
ghost use Rattle.sp_tree.specs.NameFirst.{at_site};
ghost use Rattle.sp_tree.specs.Carried.{Keeps};
ghost use Rattle.sp_scope.specs.Firsts.{part_first, enumerated_first, kind_first, kind_constants_first};

use crate::constants::{check_value, name_const};
use crate::declarations::{check_declares, check_kind, kind_number};
use crate::kinds::{check_kind_form, name_enumerated, name_kind};
use crate::numbers::behind;
use crate::scopes::Scopes;
use crate::variables::{declare_variables, push_variables};
use sp_base::List;
use sp_tree::{
    Meaning, Name, Named, NamedConstant, NamedKind, Role, Sort, SynConst, SynKind, Walk,
};
use std::alloc::Global;

/// Declares a constant in the innermost block.
fn declare_constant(alloc: Global, scopes: &mut Scopes, walk: &mut Walk, x: &Name)
    ensures { Keeps walk.old walk.new walk.old.first (scopes.new
        ≡ inner_env scopes.old.around (with_declaration scopes.old.local x.now.text sort.Constant
        (meaning.Constant (next_constant scopes.old.local.counts)))) }
{
    let number = behind(walk, scopes.counts().constants, 3);
    scopes.declare(
        alloc,
        walk,
        &x.text,
        Sort::Constant,
        Meaning::Constant(number),
    );
}

/// Declares a type in the innermost block.
fn declare_type(alloc: Global, scopes: &mut Scopes, walk: &mut Walk, x: &Name)
    ensures { Keeps walk.old walk.new walk.old.first
        (scopes.new ≡ inner_env scopes.old.around (type_local scopes.old.local x.now)) }
{
    let number = behind(walk, scopes.counts().kinds, 3);
    scopes.declare(alloc, walk, &x.text, Sort::Kind, Meaning::Kind(number));
}

fn constant_part(alloc: Global, scopes: &Scopes, walk: &mut Walk, c: &SynConst) -> Named
    ensures { Keeps walk.old walk.new walk.old.first (named.program_of result ≡ constant_part scopes.now c.now) }
{
    let mut constants = Vec::new(alloc);
    let constant = name_const(alloc, scopes, walk, c);
    walk.push(&mut constants, NamedConstant::Value(constant));
    Named {
        constants: List::of(constants),
        kinds: List::new(alloc),
        variables: List::new(alloc),
        blocks: List::new(alloc),
    }
}

/// A constant.
pub fn name_constant(
    alloc: Global,
    scopes: &mut Scopes,
    walk: &mut Walk,
    x: &Name,
    c: &SynConst,
) -> Named
    ensures found { Keeps walk.old walk.new
        (part_first scopes.old.around scopes.old.local (Const x.now c.now) walk.old.first)
        (named.program_of result ≡ constant_part (inner_env scopes.old.around scopes.old.local) c.now) }
    ensures after { walk.new.is_lost ≡ false → scopes.new ≡ inner_env scopes.old.around
        (part_local scopes.old.local (Const x.now c.now)) }
{
    walk.note(check_declares(scopes, x, Sort::Constant));
    walk.first = check_value(scopes, &c.value, walk.first);
    let part = constant_part(alloc, scopes, walk, c);
    declare_constant(alloc, scopes, walk, x);
    part
}

fn kind_part(alloc: Global, scopes: &Scopes, walk: &mut Walk, x: &Name, k: &SynKind) -> Named
    ensures { Keeps walk.old walk.new walk.old.first (named.program_of result ≡ kind_part scopes.now x.now k.now) }
{
    let number = behind(walk, scopes.counts().kinds, 3);
    let constants = name_enumerated(alloc, walk, number, k);
    let form = name_kind(alloc, scopes, walk, k);
    let mut kinds = Vec::new(alloc);
    walk.push(&mut kinds, NamedKind { at: x.at, form });
    Named {
        constants,
        kinds: List::of(kinds),
        variables: List::new(alloc),
        blocks: List::new(alloc),
    }
}

fn declare_constants(alloc: Global, scopes: &mut Scopes, walk: &mut Walk, xs: &[Name])
    ensures found { Keeps walk.old walk.new
        (enumerated_first scopes.old.around scopes.old.local xs.now walk.old.first)
        (scopes.new ≡ inner_env scopes.old.around (constants_local scopes.old.local xs.now)) }
{
    for x in xs {
        walk.note(check_declares(scopes, x, Sort::Constant));
        declare_constant(alloc, scopes, walk, x);
    }
}

/// The constants of an enumeration, behind its name.
fn declare_enumerated(alloc: Global, scopes: &mut Scopes, walk: &mut Walk, k: &SynKind)
    ensures { Keeps walk.old walk.new
        (kind_constants_first scopes.old.around scopes.old.local k.now walk.old.first)
        (scopes.new ≡ inner_env scopes.old.around (kind_local scopes.old.local k.now)) }
{
    match k {
        SynKind::Enumeration(xs) => declare_constants(alloc, scopes, walk, xs.items()),
        _ => {}
    }
}

/// A type.
pub fn name_type(
    alloc: Global,
    scopes: &mut Scopes,
    walk: &mut Walk,
    x: &Name,
    k: &SynKind,
) -> Named
    ensures found { Keeps walk.old walk.new
        (part_first scopes.old.around scopes.old.local (Kind x.now k.now) walk.old.first)
        (named.program_of result ≡ kind_part (inner_env scopes.old.around scopes.old.local) x.now k.now) }
    ensures after { walk.new.is_lost ≡ false → scopes.new ≡ inner_env scopes.old.around
        (part_local scopes.old.local (Kind x.now k.now)) }
{
    let part = name_definition(alloc, scopes, walk, x, k);
    declare_type(alloc, scopes, walk, x);
    declare_enumerated(alloc, scopes, walk, k);
    part
}

/// The definition of a type, before its name is visible.
fn name_definition(alloc: Global, scopes: &Scopes, walk: &mut Walk, x: &Name, k: &SynKind) -> Named
    ensures { Keeps walk.old walk.new
        (kind_first scopes.now x.now k.now (at_site scopes.now (Declares x.now sort.Kind) walk.old.first))
        (named.program_of result ≡ kind_part scopes.now x.now k.now) }
{
    walk.note(check_declares(scopes, x, Sort::Kind));
    check_kind_form(alloc, scopes, walk, x, k);
    kind_part(alloc, scopes, walk, x, k)
}

fn variables_part(alloc: Global, scopes: &Scopes, walk: &mut Walk, xs: &[Name], t: &Name) -> Named
    ensures { Keeps walk.old walk.new walk.old.first
        (named.program_of result ≡ variables_part scopes.now xs.now t.now) }
{
    let kind = kind_number(scopes.find(&t.text));
    let mut variables = Vec::new(alloc);
    let block = scopes.block();
    push_variables(alloc, walk, &mut variables, xs, block, Role::Local, kind);
    Named {
        constants: List::new(alloc),
        kinds: List::new(alloc),
        variables: List::of(variables),
        blocks: List::new(alloc),
    }
}

/// Variables of one type.
pub fn name_variables(
    alloc: Global,
    scopes: &mut Scopes,
    walk: &mut Walk,
    xs: &[Name],
    t: &Name,
) -> Named
    ensures found { Keeps walk.old walk.new
        (part_first scopes.old.around scopes.old.local (Var xs.now t.now) walk.old.first)
        (named.program_of result ≡ variables_part (inner_env scopes.old.around scopes.old.local) xs.now t.now) }
    ensures after { walk.new.is_lost ≡ false → scopes.new ≡ inner_env scopes.old.around
        (part_local scopes.old.local (Var xs.now t.now)) }
{
    walk.note(check_kind(scopes, t));
    let part = variables_part(alloc, scopes, walk, xs, t);
    declare_variables(alloc, scopes, walk, xs, Role::Local);
    part
}
