//! One step: where an instruction leads, and with which lists of shapes.

ghost use Rattle.std.specs.Prelude.{◌≡◌, ◌<◌, IfOk, length};
ghost use Rattle.sp_verify_areas.specs.Blocks.{IsNumbered};
ghost use Rattle.sp_verify_areas.specs.Homes.{AreHomes};
ghost use Rattle.sp_verify_areas.specs.Only.{LiesOnlyIn};
ghost use Rattle.sp_verify_rules.specs.Areas.{Area, instr_at};
ghost use Rattle.sp_verify_rules.specs.Shapes.{instr_shapes};
ghost use Rattle.sp_verify_shapes.specs.declared.stacks.Stacks.{Stacks};
ghost use Rattle.sp_verify_shapes.specs.Plans.{by_plan, go_on, left, with_top};
ghost use Rattle.sp_verify_shapes.specs.Stacks.{Extends, IsListNumber, IsStacks, list_of};
ghost use Rattle.sp_verify_shapes.specs.Steps.{IsStep};

use crate::have;
use crate::operands::{TakeResult, take};
use crate::plans::{Leaves, Plan, Successor, planned};
use crate::stacks::{Shape, Stacks};
use sp_base::Memory;
use sp_code::Code;
use sp_verify_areas::blocks::Blocks;
use sp_verify_areas::homes::Homes;

/// A list of shapes, by its number, that is brought to an instruction.
#[derive(Clone, Copy)]
pub struct Arrival {
    pub at: u32,
    pub list: u32,
}

/// Where an instruction leads.
#[derive(Clone, Copy)]
pub enum Step {
    /// An operand is missing, of the wrong shape or left over.
    Wrong,
    /// To up to two instructions.
    To {
        first: Option<Arrival>,
        second: Option<Arrival>,
    },
}

// Where it goes on, with what is left on top and with the rest alone.
fn go_on(goes: Successor, p: u32, top: u32, rest: u32) -> Step
    requires { p < 1048576 }
    ensures { (st : Stacks) → IsListNumber st top → IsListNumber st rest
        → IsStep st result (go_on goes p (list_of st top) (list_of st rest)) }
{
    let next = Arrival {
        at: p + 1,
        list: top,
    };
    match goes {
        Successor::Nowhere => Step::To {
            first: None,
            second: None,
        },
        Successor::FallThrough => Step::To {
            first: Some(next),
            second: None,
        },
        Successor::There(to) => Step::To {
            first: Some(Arrival { at: to, list: top }),
            second: None,
        },
        Successor::Either(to) => Step::To {
            first: Some(next),
            second: Some(Arrival { at: to, list: top }),
        },
        Successor::Past(to) => Step::To {
            first: Some(next),
            second: Some(Arrival { at: to, list: rest }),
        },
        Successor::Back(to) => Step::To {
            first: Some(Arrival { at: to, list: top }),
            second: Some(Arrival {
                at: p + 1,
                list: rest,
            }),
        },
    }
}

// The shape that is left.
fn left(leaves: Leaves, t: TakeResult) -> Option<Shape>
    ensures { result ≡ left leaves t.variable t.left }
{
    match leaves {
        Leaves::Nothing => None,
        Leaves::One(shape) => Some(shape),
        Leaves::Inside(size) => Some(Shape::Address {
            variable: t.variable,
            left: size,
        }),
        Leaves::Further(k) => Some(Shape::Address {
            variable: t.variable,
            left: t.left.saturating_sub(k),
        }),
    }
}

// Puts a shape on top, if there is one.
fn top(stacks: &mut Stacks, shape: Option<Shape>, rest: u32) -> Result<u32, Memory>
    requires stacks { IsStacks stacks.old }
    requires there { IsListNumber stacks.old rest }
    ensures stacks { IsStacks stacks.new }
    ensures extends { Extends stacks.old stacks.new }
    ensures topped { IfOk result (λ n. IsListNumber stacks.new n
        × (list_of stacks.new n ≡ with_top shape (list_of stacks.old rest))) }
{
    match shape {
        None => Ok(rest),
        Some(shape) => stacks.push(shape, rest),
    }
}

// Does what an instruction does to the shapes, and goes on.
fn carry_out(stacks: &mut Stacks, plan: Plan, p: u32, s: u32) -> Result<Step, Memory>
    requires stacks { IsStacks stacks.old }
    requires there { IsListNumber stacks.old s }
    requires small { p < 1048576 }
    ensures stacks { IsStacks stacks.new }
    ensures extends { Extends stacks.old stacks.new }
    ensures goes { IfOk result (λ step. IsStep stacks.new step (by_plan plan p (list_of stacks.old s))) }
{
    match take(stacks, plan.takes, s) {
        None => Ok(Step::Wrong),
        Some(t) => {
            let n = have!(top(stacks, left(plan.leaves, t), t.rest));
            Ok(go_on(plan.goes, p, n, t.rest))
        }
    }
}

/// Where the instruction at p leads with these shapes, if it stands in one area alone.
pub(crate) fn step_from(
    code: &Code,
    blocks: &Blocks,
    homes: &Homes,
    stacks: &mut Stacks,
    p: u32,
    s: u32,
) -> Result<Step, Memory>
    requires blocks { IsNumbered blocks.now.first code.now.layouts }
    requires homes { AreHomes code.now homes.now }
    requires stacks { IsStacks stacks.old }
    requires held { IsListNumber stacks.old s }
    requires there { p < length code.now.instrs }
    requires small { p < 1048576 }
    ensures stacks { IsStacks stacks.new }
    ensures extends { Extends stacks.old stacks.new }
    ensures goes { IfOk result (λ step. (a : Area) → LiesOnlyIn code.now p a
        → IsStep stacks.new step (instr_shapes code.now a (instr_at code.now p) p (list_of stacks.old s))) }
{
    let instr = match code.instr(p) {
        None => return Ok(Step::Wrong),
        Some(instr) => instr,
    };
    match planned(code, blocks, homes, p, instr) {
        None => Ok(Step::Wrong),
        Some(plan) => carry_out(stacks, plan, p, s),
    }
}
