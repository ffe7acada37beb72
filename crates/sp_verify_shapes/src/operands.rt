//! What is taken from lists of shapes, and what is left of them.

ghost use Rattle.std.specs.Prelude.{◌≡◌};
ghost use Rattle.sp_verify_shapes.specs.declared.plans.Takes.TheVariants as takes_of;
ghost use Rattle.sp_verify_shapes.specs.Plans.{take, take_one};
ghost use Rattle.sp_verify_shapes.specs.Stacks.{IsListNumber, IsStacks, list_of};
ghost use Rattle.sp_verify_shapes.specs.Remainders.{IsTaken, admits, taken_of};

use crate::plans::{OperandKind, Takes};
use crate::stacks::{Shape, Stacks};

/// What was taken: the variable and the cells left of the last operand, if that was an address, and the number of the
/// rest.
#[derive(Clone, Copy)]
pub(crate) struct TakeResult {
    pub variable: u32,
    pub left: u32,
    pub rest: u32,
}

fn admits(kind: OperandKind, shape: Shape) -> bool
    ensures { result ≡ admits kind shape }
{
    match kind {
        OperandKind::Ordinal => match shape {
            Shape::Ordinal => true,
            _ => false,
        },
        OperandKind::Channel => match shape {
            Shape::Channel => true,
            _ => false,
        },
        OperandKind::Address => match shape {
            Shape::Address { .. } => true,
            _ => false,
        },
        OperandKind::Value => match shape {
            Shape::Ordinal | Shape::Channel => true,
            _ => false,
        },
        OperandKind::Message => match shape {
            Shape::Address { .. } => false,
            _ => true,
        },
    }
}

fn taken_of(shape: Shape, rest: u32) -> TakeResult
    ensures { result ≡ taken_of shape rest }
{
    match shape {
        Shape::Address { variable, left } => TakeResult {
            variable,
            left,
            rest,
        },
        _ => TakeResult {
            variable: 0,
            left: 0,
            rest,
        },
    }
}

fn take_one(stacks: &Stacks, kind: OperandKind, s: u32) -> Option<TakeResult>
    requires stacks { IsStacks stacks.now }
    requires there { IsListNumber stacks.now s }
    ensures { IsTaken stacks.now (take_one kind (list_of stacks.now s)) result }
{
    match stacks.top(s) {
        None => None,
        Some((shape, below)) => {
            if admits(kind, shape) {
                Some(taken_of(shape, below))
            } else {
                None
            }
        }
    }
}

fn take_two(stacks: &Stacks, upper: OperandKind, lower: OperandKind, s: u32) -> Option<TakeResult>
    requires stacks { IsStacks stacks.now }
    requires there { IsListNumber stacks.now s }
    ensures { IsTaken stacks.now (take (takes_of.Two upper lower) (list_of stacks.now s)) result }
{
    match take_one(stacks, upper, s) {
        None => None,
        Some(first) => take_one(stacks, lower, first.rest),
    }
}

fn take_same(stacks: &Stacks, s: u32) -> Option<TakeResult>
    requires stacks { IsStacks stacks.now }
    requires there { IsListNumber stacks.now s }
    ensures { IsTaken stacks.now (take takes_of.Same (list_of stacks.now s)) result }
{
    match stacks.top(s) {
        None => None,
        Some((shape, below)) => match shape {
            Shape::Ordinal => take_one(stacks, OperandKind::Ordinal, below),
            Shape::Channel => take_one(stacks, OperandKind::Channel, below),
            _ => None,
        },
    }
}

fn take_many(stacks: &Stacks, count: usize, s: u32) -> Option<TakeResult>
    requires stacks { IsStacks stacks.now }
    requires there { IsListNumber stacks.now s }
    ensures { IsTaken stacks.now (take (takes_of.Many count) (list_of stacks.now s)) result }
{
    let mut rest = s;
    let mut left = count;
    'shapes: while 0 < left {
        match stacks.skip(rest, left) {
            None => return None,
            Some(jump) => {
                rest = jump.to;
                left -= jump.far as usize;
            }
        }
    }
    Some(TakeResult {
        variable: 0,
        left: 0,
        rest,
    })
}

/// What is left of a list where an instruction takes what it takes; None where that is not there.
pub(crate) fn take(stacks: &Stacks, takes: Takes, s: u32) -> Option<TakeResult>
    requires stacks { IsStacks stacks.now }
    requires there { IsListNumber stacks.now s }
    ensures { IsTaken stacks.now (take takes (list_of stacks.now s)) result }
{
    match takes {
        Takes::Nothing => Some(TakeResult {
            variable: 0,
            left: 0,
            rest: s,
        }),
        Takes::One(kind) => take_one(stacks, kind, s),
        Takes::Two(upper, lower) => take_two(stacks, upper, lower, s),
        Takes::Same => take_same(stacks, s),
        Takes::Many(count) => take_many(stacks, count, s),
        Takes::Last => match stacks.top(s) {
            None => Some(TakeResult {
                variable: 0,
                left: 0,
                rest: s,
            }),
            Some(_) => None,
        },
    }
}
