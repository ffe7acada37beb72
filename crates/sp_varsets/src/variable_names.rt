//! The variables of a set, put in order.

ghost use Rattle.std.specs.Prelude.{◌≡◌, ℕ, ◌≤◌, ◌-◌, ◌^◌, ◌++◌, List, length, IfOk};
ghost use Rattle.std.specs.List.{flat_map};
ghost use Rattle.sp_varsets.specs.TextOrders.{IsInOrder, place_of_variable, variable_cmp};
ghost use Rattle.sp_varsets.specs.SetsText.{IsBoth, IsVariables, members, name_text};
ghost use Rattle.sp_base.specs.Adds.{Adds, Keeps};

use crate::have;
use crate::sets_line::place_cmp;
use crate::var_set::VarSet;
use sp_base::{Memory, Place, Writer};
use sp_tree::Variable;
use std::alloc::Global;
use std::cmp::Ordering;

/// The variables of the set below this number.
#[tactic(auto, using(crate::proofs::Members::gap, crate::proofs::Members::found, crate::proofs::Members::past))]
fn members(alloc: Global, set: &VarSet, count: u32) -> Result<Vec<u32>, Memory>
    ensures { IfOk result (λ xs. xs.items ≡ members set.now count) }
{
    let mut xs = Vec::new(alloc);
    let mut from = 0;
    for _k in 0..count {
        match set.next(from) {
            Some(x) => {
                if x >= count {
                    return Ok(xs);
                }
                have!(xs.push(x));
                from = x + 1;
            }
            None => return Ok(xs),
        }
    }
    Ok(xs)
}

/// Where a variable stands: the input and the output before all that is declared.
fn stand(variables: &[Variable], x: u32) -> Place
    ensures { result ≡ place_of_variable variables.now x }
{
    if x < 2 {
        return Place { line: 0, column: 0 };
    }
    match variables.get(x as usize) {
        Some(variable) => variable.at,
        None => Place { line: 0, column: 0 },
    }
}

fn variable_cmp(variables: &[Variable], x: u32, y: u32) -> Ordering
    ensures { result ≡ variable_cmp variables.now x y }
{
    place_cmp(stand(variables, x), stand(variables, y)).then(x.cmp(&y))
}

/// The variables of the set, in order.
fn in_order(alloc: Global, variables: &[Variable], set: &VarSet) -> Result<Vec<u32>, Memory>
    requires { length variables.now ≤ 2 ^ 32 - 1 }
    ensures { IfOk result (λ xs. IsInOrder (variable_cmp variables.now) (members set.now (length variables.now))
        xs.items) }
{
    let mut xs = have!(members(alloc, set, variables.len() as u32));
    xs.sort_unstable_by(|x, y| variable_cmp(variables, *x, *y));
    Ok(xs)
}

/// Puts the name of a variable after a space.
fn put_name(out: &mut Writer<u8>, variables: &[Variable], x: u32)
    ensures { Adds out.old out.new (name_text variables.now x) }
{
    out.extend(b" ");
    if let Some(variable) = variables.get(x as usize) {
        out.extend(variable.name.bytes());
    }
}

fn put_names(out: &mut Writer<u8>, variables: &[Variable], xs: &[u32])
    ensures { Adds out.old out.new (flat_map (name_text variables.now) xs.now) }
{
    for x in xs {
        put_name(out, variables, *x);
    }
}

/// The longest text, in bytes, behind which variables are put.
const LONGEST: usize = 134_217_728;

/// Puts the variables of the set, in order. Behind too long a text that is answered as want of memory.
fn put_variables(alloc: Global, out: &mut Writer<u8>, variables: &[Variable], set: &VarSet)
    requires { length variables.now ≤ 2 ^ 32 - 1 }
    ensures { Keeps out.old out.new ((t : List ℕ) × IsVariables variables.now set.now t
        × (out.new.items.items ≡ out.old.items.items ++ t)) }
{
    if out.items.len() > LONGEST {
        out.lose();
        return;
    }
    match in_order(alloc, variables, set) {
        Ok(xs) => put_names(out, variables, xs.as_slice()),
        Err(Memory) => out.lose(),
    }
}

/// Puts the end of a line, from two sets.
pub(crate) fn put_both(
    alloc: Global,
    out: &mut Writer<u8>,
    variables: &[Variable],
    targets: &VarSet,
    expressions: &VarSet,
)
    requires { length variables.now ≤ 2 ^ 32 - 1 }
    ensures { Keeps out.old out.new ((t : List ℕ) × IsBoth variables.now targets.now expressions.now t
        × (out.new.items.items ≡ out.old.items.items ++ t)) }
{
    out.extend(b" targets");
    put_variables(alloc, out, variables, targets);
    out.extend(b" expressions");
    put_variables(alloc, out, variables, expressions);
    out.extend(b"\n");
}
