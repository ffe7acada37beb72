//! Variables in the table and in the innermost block.

ghost use Rattle.std.specs.Prelude.{◌≡◌, ◌++◌};
ghost use Rattle.sp_tree.specs.Scopes.{inner_env, with_declaration, variable};
ghost use Rattle.sp_tree.specs.declared.meaning.Sort.TheVariants as sort;
ghost use Rattle.sp_tree.specs.NameWalk.{names_local, formals_local, role_of};
ghost use Rattle.sp_tree.specs.NamedTree.{variables_named, formals_named, numbers};
ghost use Rattle.sp_tree.specs.Carried.{Keeps};
ghost use Rattle.sp_scope.specs.Firsts.{names_first, formals_first, heading_first};

use crate::declarations::{check_declares, check_kind, kind_number};
use crate::numbers::{behind, next_variable};
use crate::scopes::Scopes;
use sp_base::List;
use sp_tree::{Meaning, Name, Role, Sort, SynFormal, Variable, Walk};
use std::alloc::Global;

/// Declares a variable of a role in the innermost block.
pub fn declare_variable(alloc: Global, scopes: &mut Scopes, walk: &mut Walk, x: &Name, role: Role)
    ensures { Keeps walk.old walk.new walk.old.first (scopes.new ≡ inner_env scopes.old.around
        (with_declaration scopes.old.local x.now.text sort.Variable (variable scopes.old.local role))) }
{
    let number = next_variable(walk, scopes.counts());
    let block = scopes.block();
    scopes.declare(
        alloc,
        walk,
        &x.text,
        Sort::Variable,
        Meaning::Variable {
            number,
            block,
            role,
        },
    );
}

/// Declares variables of a role in the innermost block.
pub fn declare_variables(
    alloc: Global,
    scopes: &mut Scopes,
    walk: &mut Walk,
    xs: &[Name],
    role: Role,
)
    ensures { Keeps walk.old walk.new (names_first scopes.old.around role scopes.old.local xs.now walk.old.first)
        (scopes.new ≡ inner_env scopes.old.around (names_local role scopes.old.local xs.now)) }
{
    for x in xs {
        walk.note(check_declares(scopes, x, Sort::Variable));
        declare_variable(alloc, scopes, walk, x, role);
    }
}

fn role_of(by_reference: bool) -> Role
    ensures { result ≡ role_of by_reference }
{
    if by_reference {
        Role::Reference
    } else {
        Role::Value
    }
}

/// Declares parameters in the innermost block.
pub fn declare_formals(alloc: Global, scopes: &mut Scopes, walk: &mut Walk, fs: &[SynFormal])
    ensures { Keeps walk.old walk.new (formals_first scopes.old.around scopes.old.local fs.now walk.old.first)
        (scopes.new ≡ inner_env scopes.old.around (formals_local scopes.old.local fs.now)) }
{
    for f in fs {
        declare_variables(
            alloc,
            scopes,
            walk,
            f.names.items(),
            role_of(f.by_reference),
        );
    }
}

/// Puts variables of one type behind those of the table.
pub fn push_variables(
    alloc: Global,
    walk: &mut Walk,
    out: &mut Vec<Variable>,
    xs: &[Name],
    block: u32,
    role: Role,
    kind: u32,
)
    ensures { Keeps walk.old walk.new walk.old.first
        (out.new.items ≡ out.old.items ++ variables_named block role kind xs.now) }
{
    for x in xs {
        let name = walk.text(alloc, &x.text);
        walk.push(
            out,
            Variable {
                name,
                kind,
                block,
                role,
                at: x.at,
            },
        );
    }
}

/// The parameters of a block, whose types mean what they mean around its heading.
pub fn name_formals(
    alloc: Global,
    scopes: &Scopes,
    walk: &mut Walk,
    fs: &[SynFormal],
    block: u32,
) -> List<Variable>
    ensures { Keeps walk.old walk.new (heading_first scopes.now fs.now walk.old.first)
        (result ≡ formals_named scopes.now block fs.now) }
{
    let mut out = Vec::new(alloc);
    for f in fs {
        walk.note(check_kind(scopes, &f.kind));
        let kind = kind_number(scopes.find(&f.kind.text));
        push_variables(
            alloc,
            walk,
            &mut out,
            f.names.items(),
            block,
            role_of(f.by_reference),
            kind,
        );
    }
    List::of(out)
}

/// As many numbers from one on as there are variables.
pub fn numbers(alloc: Global, walk: &mut Walk, n: u32, xs: &[Variable]) -> List<u32>
    ensures { Keeps walk.old walk.new walk.old.first (result ≡ numbers n xs.now) }
{
    let mut out = Vec::new(alloc);
    let mut n = n;
    for _x in xs {
        walk.push(&mut out, n);
        n = behind(walk, n, 1);
    }
    List::of(out)
}
