//! Rule V7 at a call: the variables that it passes by reference.

ghost use Rattle.std.specs.Prelude.{◌≡◌, ◌++◌, ◌<◌, ◌&&◌, IfOk, OnOk, Some, length, not, slice_get};
ghost use Rattle.sp_verify_areas.specs.Alone.{flag_at};
ghost use Rattle.sp_verify_areas.specs.LeastPlaces.{IsLeast};
ghost use Rattle.sp_verify_shapes.specs.Stacks.{IsListNumber, IsStacks, list_of, shape_of};
ghost use Rattle.sp_verify_effects.specs.PassContexts.{IsPassContext};
ghost use Rattle.sp_verify_effects.specs.Walks.{AreWalks};
ghost use Rattle.sp_verify_effects.specs.Windows.{AreWindows};
ghost use Rattle.sp_verify_effects.specs.Calls.{CallFails, actual_of, actuals, call_clashes, fails_at, is_outer};
ghost use Rattle.sp_verify_effects.specs.Calls.{list_of_option};
ghost use Rattle.sp_verify_effects.specs.Calls.{meets_outer, variable_of};

use crate::effects::Effects;
use crate::have;
use crate::pass_context::PassContext;
use crate::sets::add_all;
use crate::variables::owns;
use crate::walks::{Walks, addresses_left, no_walks, put_walk};
use crate::windows::{Window, is_apart, windows_of};
use sp_base::{List, Memory};
use sp_code::{Formal, Layout};
use sp_verify_areas::flags::flag_at;
use sp_verify_shapes::reach::reached;
use sp_verify_shapes::repeats::called_block;
use sp_verify_shapes::stacks::{Shape, Stacks};
use std::alloc::Global;
use std::collections::BTreeSet;

/// The variable of an operand, if it is an address.
pub(crate) fn variable_of(shape: Shape) -> Option<u32>
    ensures { result ≡ variable_of (shape_of shape) }
{
    match shape {
        Shape::Ordinal => None,
        Shape::Channel => None,
        Shape::Cells(_) => None,
        Shape::Address { variable, left: _ } => Some(variable),
    }
}

// The variable of an operand for a formal, if that is by reference.
fn actual_of(formal: Formal, shape: Shape) -> Option<u32>
    ensures { result ≡ actual_of formal (shape_of shape) }
{
    match formal {
        Formal::Value(_) => None,
        Formal::Reference(_) => variable_of(shape),
    }
}

fn formal_at(formals: &[Formal], at: usize) -> Formal
    requires { at < length formals.now }
    ensures { slice_get formals.now at ≡ Some result }
{
    formals[at]
}

// Adds a variable to a list, if there is one.
fn put(xs: &mut List<u32>, x: Option<u32>) -> Result<(), Memory>
    ensures { OnOk result (xs.new ≡ xs.old ++ list_of_option x) }
{
    if let Some(x) = x {
        have!(xs.push(x));
    }
    Ok(())
}

/// The variables of the operands for the reference formals, the topmost first.
pub(crate) fn actuals(
    alloc: Global,
    stacks: &Stacks,
    stack: u32,
    formals: &[Formal],
) -> Result<List<u32>, Memory>
    requires stacks { IsStacks stacks.now }
    requires there { IsListNumber stacks.now stack }
    ensures { IfOk result (λ xs. xs ≡ actuals formals.now (list_of stacks.now stack) (length formals.now)) }
{
    let mut xs = List::new(alloc);
    let mut below = stack;
    let count = formals.len();
    for i in 0..count {
        match stacks.top(below) {
            None => return Ok(xs),
            Some((shape, rest)) => {
                let formal = formal_at(formals, count - 1 - i);
                have!(put(&mut xs, actual_of(formal, shape)));
                below = rest;
            }
        }
    }
    Ok(xs)
}

// Whether the block with this entry stores or loads the variable, and the variable is not its own.
fn is_outer(effects: &Effects, entry: u32, x: u32) -> bool
    ensures { result ≡ is_outer effects.now entry x }
{
    effects.touches(entry, x) && !owns(&effects.own, entry, x)
}

// Whether the block with this entry does so with one of these variables.
fn meets_outer(effects: &Effects, entry: u32, xs: &[u32]) -> bool
    ensures { result ≡ meets_outer effects.now entry xs.now }
{
    for x in xs {
        if is_outer(effects, entry, *x) {
            return true;
        }
    }
    false
}

// Whether two operands of a call have one variable, or one is what the block does outside itself.
fn operands_clash(
    alloc: Global,
    effects: &Effects,
    l: &Layout,
    stacks: &Stacks,
    stack: u32,
) -> Result<bool, Memory>
    requires stacks { IsStacks stacks.now }
    requires there { IsListNumber stacks.now stack }
    ensures { IfOk result (λ clashes. clashes ≡ call_clashes effects.now l.now (list_of stacks.now stack)) }
{
    let xs = have!(actuals(alloc, stacks, stack, l.formals.items()));
    let mut seen = BTreeSet::new(alloc);
    let new = have!(add_all(&mut seen, xs.items()));
    Ok(!new || meets_outer(effects, l.entry, xs.items()))
}

// The same. Where the variables are known to differ, and the block does nothing to them, no operand below those that
// were gone over for it is looked at again.
fn call_clashes(
    g: &PassContext,
    effects: &Effects,
    windows: &List<Window>,
    walks: &mut Walks,
    l: &Layout,
    stack: u32,
) -> Result<bool, Memory>
    requires known { IsPassContext g.now }
    requires there { IsListNumber g.now.shapes.now.stacks stack }
    requires windows { AreWindows g.now.shapes.now.stacks windows.now }
    requires walks { AreWalks g.now.shapes.now.stacks walks.old (is_outer effects.now) }
    ensures clashes { IfOk result (λ clashes. clashes
        ≡ call_clashes effects.now l.now (list_of g.now.shapes.now.stacks stack)) }
    ensures walks { OnOk result (AreWalks g.now.shapes.now.stacks walks.new (is_outer effects.now)) }
{
    let alloc = g.code.parts().instrs.alloc();
    let stacks = &g.shapes.stacks;
    let count = l.formals.len();
    if is_apart(windows, stack, count) {
        let xs = have!(addresses_left(alloc, walks, stacks, l.entry, stack, count));
        if !meets_outer(effects, l.entry, xs.items()) {
            have!(put_walk(walks, stacks, l.entry, stack, count));
            return Ok(false);
        }
    }
    operands_clash(alloc, effects, l, stacks, stack)
}

// Whether an instruction is a call that clashes.
fn fails_at(
    g: &PassContext,
    effects: &Effects,
    windows: &List<Window>,
    walks: &mut Walks,
    p: u32,
) -> Result<bool, Memory>
    requires known { IsPassContext g.now }
    requires windows { AreWindows g.now.shapes.now.stacks windows.now }
    requires walks { AreWalks g.now.shapes.now.stacks walks.old (is_outer effects.now) }
    ensures fails { IfOk result (λ fails. fails ≡ fails_at g.now.code.now effects.now g.now.shapes.now p) }
    ensures walks { OnOk result (AreWalks g.now.shapes.now.stacks walks.new (is_outer effects.now)) }
{
    let stack = match reached(g.shapes, p) {
        None => return Ok(false),
        Some(stack) => stack,
    };
    let block = match called_block(g.code, p) {
        None => return Ok(false),
        Some(block) => block,
    };
    match g.blocks.find(&g.code.parts().layouts, block) {
        None => Ok(false),
        Some(l) => call_clashes(g, effects, windows, walks, l, stack),
    }
}

// Whether an instruction is a call that clashes, and repeats no earlier one.
fn fails_first(
    g: &PassContext,
    effects: &Effects,
    windows: &List<Window>,
    walks: &mut Walks,
    p: u32,
) -> Result<bool, Memory>
    requires known { IsPassContext g.now }
    requires windows { AreWindows g.now.shapes.now.stacks windows.now }
    requires walks { AreWalks g.now.shapes.now.stacks walks.old (is_outer effects.now) }
    ensures fails { IfOk result (λ fails. fails
        ≡ not (flag_at g.now.repeats.now p) && fails_at g.now.code.now effects.now g.now.shapes.now p) }
    ensures walks { OnOk result (AreWalks g.now.shapes.now.stacks walks.new (is_outer effects.now)) }
{
    if flag_at(g.repeats, p as usize) {
        Ok(false)
    } else {
        fails_at(g, effects, windows, walks, p)
    }
}

/// The least call that clashes.
pub(crate) fn first_call(g: &PassContext, effects: &Effects) -> Result<Option<u32>, Memory>
    requires known { IsPassContext g.now }
    ensures { IfOk result (λ first. IsLeast (CallFails g.now.code.now effects.now g.now.shapes.now) first) }
{
    let instrs = &g.code.parts().instrs;
    let windows = have!(windows_of(g));
    let mut walks = no_walks(instrs.alloc());
    let count = instrs.len();
    for p in 0..count {
        let fails = have!(fails_first(g, effects, &windows, &mut walks, p as u32));
        if fails {
            return Ok(Some(p as u32));
        }
    }
    Ok(None)
}
