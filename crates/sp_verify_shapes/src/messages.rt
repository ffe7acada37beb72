//! Lengths of messages: rule V4.

ghost use Rattle.std.specs.Prelude.{◌≡◌, ◌≤◌, IfOk, OnOk, Some, length};
ghost use Rattle.sp_verify_areas.specs.LeastPlaces.{IsLeast};
ghost use Rattle.sp_verify_rules.specs.Rules.{BreaksV4};
ghost use Rattle.sp_verify_shapes.specs.Lengths.{AreLengths, Differs, LacksRoom, PutsLength, PutsGreatest, is_longer};
ghost use Rattle.sp_verify_shapes.specs.Lengths.{of_kind, received_at, sent_at};
ghost use Rattle.sp_verify_rules.specs.InstructionFacts.{cells_left, message_cells};
ghost use Rattle.sp_verify_shapes.specs.Shapes.{AreShapes};
ghost use Rattle.sp_verify_shapes.specs.Stacks.{IsListNumber, IsStacks, list_of};

use crate::have;
use crate::reach::reached;
use crate::shapes::Shapes;
use crate::stacks::{Shape, Stacks};
use sp_base::Memory;
use sp_code::{Code, Instr, Parts};
use sp_verify_areas::least::least;
use std::alloc::Global;
use std::collections::BTreeMap;

/// A message of a type, by its length in cells; or the room for one where it is received.
#[derive(Clone, Copy)]
pub struct Message {
    pub kind: u32,
    pub cells: u32,
}

// How many cells the first shape of a list is, as a message.
fn message_cells(parts: &Parts, stacks: &Stacks, n: u32) -> Option<u32>
    requires stacks { IsStacks stacks.now }
    requires there { IsListNumber stacks.now n }
    ensures { result ≡ message_cells parts.now (list_of stacks.now n) }
{
    match stacks.top(n) {
        None => None,
        Some((shape, _)) => match shape {
            Shape::Ordinal => Some(1),
            Shape::Channel => Some(1),
            Shape::Cells(k) => Some(k),
            Shape::Address { .. } => None,
        },
    }
}

// The cells left of the first shape of a list.
fn cells_left(parts: &Parts, stacks: &Stacks, n: u32) -> Option<u32>
    requires stacks { IsStacks stacks.now }
    requires there { IsListNumber stacks.now n }
    ensures { result ≡ cells_left parts.now (list_of stacks.now n) }
{
    match stacks.top(n) {
        None => None,
        Some((shape, _)) => match shape {
            Shape::Address { variable: _, left } => Some(left),
            _ => None,
        },
    }
}

fn of_kind(kind: u32, cells: Option<u32>) -> Option<Message>
    ensures { result ≡ of_kind kind cells }
{
    match cells {
        None => None,
        Some(cells) => Some(Message { kind, cells }),
    }
}

// The message that an instruction sends, if it does.
fn sent(code: &Code, shapes: &Shapes, p: u32) -> Option<Message>
    requires { AreShapes code.now shapes.now }
    ensures { result ≡ sent_at code.now shapes.now p }
{
    match reached(shapes, p) {
        None => None,
        Some(n) => match code.instr(p) {
            Some(Instr::Send(kind)) => of_kind(
                kind,
                message_cells(code.parts(), &shapes.stacks, n),
            ),
            _ => None,
        },
    }
}

// The room for the message that an instruction receives, if it does.
fn received(code: &Code, shapes: &Shapes, p: u32) -> Option<Message>
    requires { AreShapes code.now shapes.now }
    ensures { result ≡ received_at code.now shapes.now p }
{
    match reached(shapes, p) {
        None => None,
        Some(n) => match code.instr(p) {
            Some(Instr::Receive(kind)) => of_kind(
                kind,
                cells_left(code.parts(), &shapes.stacks, n),
            ),
            _ => None,
        },
    }
}

// Puts a message's length under its type.
fn put(lengths: &mut BTreeMap<u32, u32>, sent: Message) -> Result<(), Memory>
    ensures { OnOk result (PutsLength lengths.old lengths.new sent) }
{
    have!(lengths.insert(sent.kind, sent.cells));
    Ok(())
}

// The least send of another length than an earlier one of its type.
fn first_other(alloc: Global, code: &Code, shapes: &Shapes) -> Result<Option<u32>, Memory>
    requires { AreShapes code.now shapes.now }
    ensures { IfOk result (λ first. IsLeast (Differs code.now shapes.now) first) }
{
    let mut lengths = BTreeMap::new(alloc);
    for p in 0..code.parts().instrs.len() {
        if let Some(w) = sent(code, shapes, p as u32) {
            match lengths.get(&w.kind).copied() {
                None => have!(put(&mut lengths, w)),
                Some(cells) => {
                    if cells != w.cells {
                        return Ok(Some(p as u32));
                    }
                }
            }
        }
    }
    Ok(None)
}

// Puts a message's length under its type, unless a greater one stands there.
fn put_greatest(lengths: &mut BTreeMap<u32, u32>, sent: Message) -> Result<(), Memory>
    ensures { OnOk result (PutsGreatest lengths.old lengths.new sent) }
{
    match lengths.get(&sent.kind).copied() {
        None => put(lengths, sent),
        Some(cells) => {
            if sent.cells <= cells {
                Ok(())
            } else {
                put(lengths, sent)
            }
        }
    }
}

// The greatest length of the messages of each type.
fn greatest(alloc: Global, code: &Code, shapes: &Shapes) -> Result<BTreeMap<u32, u32>, Memory>
    requires { AreShapes code.now shapes.now }
    ensures { IfOk result (λ lengths. AreLengths (λ m n. m ≤ n) code.now shapes.now (length code.now.instrs) lengths) }
{
    let mut lengths = BTreeMap::new(alloc);
    for p in 0..code.parts().instrs.len() {
        if let Some(w) = sent(code, shapes, p as u32) {
            have!(put_greatest(&mut lengths, w));
        }
    }
    Ok(lengths)
}

// Whether there is a greater length of the type of a message.
fn is_longer(lengths: &BTreeMap<u32, u32>, room: Option<Message>) -> bool
    ensures { result ≡ is_longer lengths.now room }
{
    match room {
        None => false,
        Some(w) => match lengths.get(&w.kind).copied() {
            None => false,
            Some(cells) => w.cells < cells,
        },
    }
}

// The least receive that has less room than a message may need.
fn first_lacking(code: &Code, shapes: &Shapes, lengths: &BTreeMap<u32, u32>) -> Option<u32>
    requires shapes { AreShapes code.now shapes.now }
    requires lengths { AreLengths (λ m n. m ≤ n) code.now shapes.now (length code.now.instrs) lengths.now }
    ensures { IsLeast (LacksRoom code.now shapes.now) result }
{
    for p in 0..code.parts().instrs.len() {
        if is_longer(lengths, received(code, shapes, p as u32)) {
            return Some(p as u32);
        }
    }
    None
}

/// V4: the least send of another length than an earlier one of its type, or receive with less room than a message of
/// its type has cells.
///
/// # Errors
/// Memory was refused.
pub fn first_length(code: &Code, shapes: &Shapes) -> Result<Option<u32>, Memory>
    requires { AreShapes code.now shapes.now }
    ensures { IfOk result (λ first. IsLeast (BreaksV4 code.now) first) }
{
    let alloc = code.parts().instrs.alloc();
    let other = have!(first_other(alloc, code, shapes));
    let lengths = have!(greatest(alloc, code, shapes));
    let lacking = first_lacking(code, shapes, &lengths);
    Ok(least(other, lacking))
}
