//! Cells left of an address: rule V3.

ghost use Rattle.std.specs.Prelude.{◌≡◌, Some};
ghost use Rattle.sp_verify_areas.specs.LeastPlaces.{IsLeast};
ghost use Rattle.sp_verify_rules.specs.Rules.{BreaksV3};
ghost use Rattle.sp_verify_rules.specs.Shapes.{below_topmost, has_left, span, stays_within};
ghost use Rattle.sp_verify_shapes.specs.ReachRules.{fails_at};
ghost use Rattle.sp_verify_shapes.specs.Shapes.{AreShapes};
ghost use Rattle.sp_verify_shapes.specs.Stacks.{IsListNumber, IsStacks, list_of};

use crate::reach::reached;
use crate::shapes::Shapes;
use crate::stacks::{Shape, Stacks};
use sp_code::{Code, Instr};

// Whether the first shape of a list is no address, or has so many cells left.
fn has_left(stacks: &Stacks, n: u32, cells: u128) -> bool
    requires stacks { IsStacks stacks.now }
    requires there { IsListNumber stacks.now n }
    ensures { result ≡ has_left cells (list_of stacks.now n) }
{
    match stacks.top(n) {
        None => true,
        Some((shape, _)) => match shape {
            Shape::Address { variable: _, left } => cells <= left as u128,
            _ => true,
        },
    }
}

// The list without its first shape.
fn below(stacks: &Stacks, n: u32) -> u32
    requires stacks { IsStacks stacks.now }
    requires there { IsListNumber stacks.now n }
    ensures there { IsListNumber stacks.now result }
    ensures list { list_of stacks.now result ≡ below_topmost (list_of stacks.now n) }
{
    match stacks.top(n) {
        None => n,
        Some((_, rest)) => rest,
    }
}

// How many indices there are.
fn span(low: i64, high: i64) -> u128
    ensures { result ≡ span low high }
{
    if low <= high {
        high.abs_diff(low) as u128 + 1
    } else {
        0
    }
}

// Whether an instruction passes no cells left of what a list has.
fn stays_within(stacks: &Stacks, instr: Instr, n: u32) -> bool
    requires stacks { IsStacks stacks.now }
    requires there { IsListNumber stacks.now n }
    ensures { result ≡ stays_within (Some instr) (list_of stacks.now n) }
{
    match instr {
        Instr::Index { low, high, size } => has_left(
            stacks,
            below(stacks, n),
            span(low, high) * size as u128,
        ),
        Instr::Field(k) | Instr::Pack(k) => has_left(stacks, n, k as u128),
        Instr::Load | Instr::Loadc | Instr::ReadInt | Instr::ReadChar | Instr::Open => has_left(
            stacks, n, 1,
        ),
        Instr::Store => has_left(stacks, below(stacks, n), 1),
        Instr::Copy(k) => has_left(stacks, n, k as u128)
            && has_left(stacks, below(stacks, n), k as u128),
        _ => true,
    }
}

// Whether an instruction passes cells left of what it is reached with.
fn passes(code: &Code, shapes: &Shapes, p: u32) -> bool
    requires { AreShapes code.now shapes.now }
    ensures { result ≡ fails_at stays_within code.now shapes.now p }
{
    match reached(shapes, p) {
        None => false,
        Some(n) => match code.instr(p) {
            None => false,
            Some(instr) => !stays_within(&shapes.stacks, instr, n),
        },
    }
}

/// V3: the least instruction that passes the cells left of an address.
pub fn first_passing(code: &Code, shapes: &Shapes) -> Option<u32>
    requires { AreShapes code.now shapes.now }
    ensures { IsLeast (BreaksV3 code.now) result }
{
    for p in 0..code.parts().instrs.len() {
        if passes(code, shapes, p as u32) {
            return Some(p as u32);
        }
    }
    None
}
