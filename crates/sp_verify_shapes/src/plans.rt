//! What each instruction takes from the stack, what it leaves there, and where it goes on, in a few forms.

ghost use Rattle.std.specs.Prelude.{◌≡◌, ◌<◌, length};
ghost use Rattle.sp_verify_areas.specs.Blocks.{IsNumbered};
ghost use Rattle.sp_verify_areas.specs.Homes.{AreHomes, found_of};
ghost use Rattle.sp_verify_areas.specs.Only.{LiesOnlyIn};
ghost use Rattle.sp_verify_rules.specs.Areas.{Area};
ghost use Rattle.sp_verify_shapes.specs.Plans.{address_plan, layout_call_plan, plain_plan, plan_at, plan_of_parts};
ghost use Rattle.sp_verify_shapes.specs.declared.plans.Successor.TheVariants as goes;

use crate::stacks::Shape;
use sp_code::{Code, Instr, Layout};
use sp_verify_areas::blocks::Blocks;
use sp_verify_areas::homes::{Found, Homes};

/// A kind of operand.
#[derive(Clone, Copy)]
pub enum OperandKind {
    Ordinal,
    Channel,
    Address,
    /// An ordinal or a channel.
    Value,
    /// An ordinal, a channel or cells.
    Message,
}

/// What an instruction takes from the stack.
#[derive(Clone, Copy)]
pub enum Takes {
    Nothing,
    One(OperandKind),
    /// The upper one first.
    Two(OperandKind, OperandKind),
    /// Two ordinals or two channels.
    Same,
    /// So many, whatever they are.
    Many(usize),
    /// Nothing, and nothing may be there.
    Last,
}

/// What it leaves on top of the rest.
#[derive(Clone, Copy)]
pub enum Leaves {
    Nothing,
    One(Shape),
    /// An address in the variable of the one that was taken, with so many cells left.
    Inside(u32),
    /// One so many cells further on.
    Further(u32),
}

/// Where it goes on.
#[derive(Clone, Copy)]
pub enum Successor {
    Nowhere,
    FallThrough,
    There(u32),
    /// To the next one or there.
    Either(u32),
    /// To the next one, or there without what it leaves.
    Past(u32),
    /// There, or to the next one without what it leaves.
    Back(u32),
}

/// What an instruction does to the shapes of operands.
#[derive(Clone, Copy)]
pub struct Plan {
    pub takes: Takes,
    pub leaves: Leaves,
    pub goes: Successor,
}

// Takes and leaves this, and goes on to the next instruction.
fn onward(takes: Takes, leaves: Leaves) -> Plan
    ensures { result ≡ plan_of_parts takes leaves goes.FallThrough }
{
    Plan {
        takes,
        leaves,
        goes: Successor::FallThrough,
    }
}

// What an instruction does that names no variable and calls no block.
fn plain(instr: Instr) -> Plan
    ensures { result ≡ plain_plan instr }
{
    match instr {
        Instr::Const(_) | Instr::Eof | Instr::Eoln => onward(
            Takes::Nothing,
            Leaves::One(Shape::Ordinal),
        ),
        Instr::Index {
            low: _,
            high: _,
            size,
        } => onward(
            Takes::Two(OperandKind::Ordinal, OperandKind::Address),
            Leaves::Inside(size),
        ),
        Instr::Field(k) => onward(Takes::One(OperandKind::Address), Leaves::Further(k)),
        Instr::Load => onward(
            Takes::One(OperandKind::Address),
            Leaves::One(Shape::Ordinal),
        ),
        Instr::Loadc => onward(
            Takes::One(OperandKind::Address),
            Leaves::One(Shape::Channel),
        ),
        Instr::Pack(k) => onward(
            Takes::One(OperandKind::Address),
            Leaves::One(Shape::Cells(k)),
        ),
        Instr::ReadInt | Instr::ReadChar | Instr::Open => onward(
            Takes::One(OperandKind::Address),
            Leaves::Nothing,
        ),
        Instr::Store => onward(
            Takes::Two(OperandKind::Value, OperandKind::Address),
            Leaves::Nothing,
        ),
        Instr::Copy(_) => onward(
            Takes::Two(OperandKind::Address, OperandKind::Address),
            Leaves::Nothing,
        ),
        Instr::Send(_) => onward(
            Takes::Two(OperandKind::Message, OperandKind::Channel),
            Leaves::Nothing,
        ),
        Instr::Receive(_) => onward(
            Takes::Two(OperandKind::Address, OperandKind::Channel),
            Leaves::Nothing,
        ),
        Instr::Add
        | Instr::Sub
        | Instr::Mul
        | Instr::Div
        | Instr::Mod
        | Instr::And
        | Instr::Or
        | Instr::Lt
        | Instr::Le
        | Instr::Gt
        | Instr::Ge => onward(
            Takes::Two(OperandKind::Ordinal, OperandKind::Ordinal),
            Leaves::One(Shape::Ordinal),
        ),
        Instr::Neg
        | Instr::Abs
        | Instr::Sqr
        | Instr::Odd
        | Instr::Not
        | Instr::Range { low: _, high: _ }
        | Instr::Succ(_)
        | Instr::Pred(_) => onward(
            Takes::One(OperandKind::Ordinal),
            Leaves::One(Shape::Ordinal),
        ),
        Instr::Eq | Instr::Ne => onward(Takes::Same, Leaves::One(Shape::Ordinal)),
        Instr::Nocase
        | Instr::Assume
        | Instr::WriteInt
        | Instr::WriteChar
        | Instr::WriteBool
        | Instr::WritewText(_) => onward(Takes::One(OperandKind::Ordinal), Leaves::Nothing),
        Instr::WritewInt | Instr::WritewChar | Instr::WritewBool | Instr::Forall(_) => onward(
            Takes::Two(OperandKind::Ordinal, OperandKind::Ordinal),
            Leaves::Nothing,
        ),
        Instr::Jump(to) => Plan {
            takes: Takes::Nothing,
            leaves: Leaves::Nothing,
            goes: Successor::There(to),
        },
        Instr::Jumpf(to) => Plan {
            takes: Takes::One(OperandKind::Ordinal),
            leaves: Leaves::Nothing,
            goes: Successor::Either(to),
        },
        Instr::Casej { value: _, to } => Plan {
            takes: Takes::One(OperandKind::Ordinal),
            leaves: Leaves::One(Shape::Ordinal),
            goes: Successor::Past(to),
        },
        Instr::Forup { var: _, to } | Instr::Fordown { var: _, to } => Plan {
            takes: Takes::Two(OperandKind::Ordinal, OperandKind::Ordinal),
            leaves: Leaves::One(Shape::Ordinal),
            goes: Successor::Past(to),
        },
        Instr::Nextup { var: _, to } | Instr::Nextdown { var: _, to } => Plan {
            takes: Takes::One(OperandKind::Ordinal),
            leaves: Leaves::One(Shape::Ordinal),
            goes: Successor::Back(to),
        },
        Instr::Return | Instr::End => Plan {
            takes: Takes::Last,
            leaves: Leaves::Nothing,
            goes: Successor::Nowhere,
        },
        _ => onward(Takes::Nothing, Leaves::Nothing),
    }
}

// What naming a variable does.
fn addressed(found: Option<Found>) -> Option<Plan>
    ensures { result ≡ address_plan (found_of found) }
{
    match found {
        None => None,
        Some(f) => Some(onward(
            Takes::Nothing,
            Leaves::One(Shape::Address {
                variable: f.number,
                left: f.cells,
            }),
        )),
    }
}

// What a call of a block does.
fn calling(l: &Layout) -> Plan
    ensures { result ≡ layout_call_plan l.now }
{
    let leaves = if l.answer {
        Leaves::One(Shape::Ordinal)
    } else {
        Leaves::Nothing
    };
    onward(Takes::Many(l.formals.len()), leaves)
}

/// What an instruction does that stands at p in one area alone; None where what it names is not there.
pub(crate) fn planned(
    code: &Code,
    blocks: &Blocks,
    homes: &Homes,
    p: u32,
    instr: Instr,
) -> Option<Plan>
    requires blocks { IsNumbered blocks.now.first code.now.layouts }
    requires homes { AreHomes code.now homes.now }
    requires there { p < length code.now.instrs }
    ensures { (a : Area) → LiesOnlyIn code.now p a → result ≡ plan_at code.now a instr }
{
    match instr {
        Instr::Addr { up, var } => addressed(homes.variable(code, p, up, var)),
        Instr::Deref { up, var } => addressed(homes.variable(code, p, up, var)),
        Instr::Call { block, up: _ } => match blocks.find(&code.parts().layouts, block) {
            None => None,
            Some(l) => Some(calling(l)),
        },
        _ => Some(plain(instr)),
    }
}
