//! Lists of shapes of which it is known that the topmost addresses are those of different variables: rule V7 asks that
//! of the operands of calls.

ghost use Rattle.std.specs.Prelude.{◌≡◌, ℕ, ◌∷◌, ◌+◌, ◌<◌, ◌≤◌, IfOk, OnOk, Some, length, slice_get, true};
ghost use Rattle.std.specs.BTreeMap.{get};
ghost use Rattle.std.specs.Ordering.{nat_cmp};
ghost use Rattle.sp_verify_effects.specs.PassContexts.{IsPassContext};
ghost use Rattle.sp_verify_effects.specs.Windows.{AreApart, AreFirstWindows, AreLast, AreWindows, IsWindow};
ghost use Rattle.sp_verify_shapes.specs.declared.stacks.Stacks.{Stacks as StacksOf};
ghost use Rattle.sp_verify_shapes.specs.Stacks.{IsListNumber, IsStacks, list_of, shape_of};

use crate::calls::variable_of;
use crate::have;
use crate::pass_context::PassContext;
use sp_base::{List, Memory};
use sp_code::Layout;
use sp_verify_shapes::calls::some_reference;
use sp_verify_shapes::reach::reached;
use sp_verify_shapes::stacks::{Shape, Stacks};
use std::collections::BTreeMap;

// No list is longer.
const MOST: usize = 4_000_000_000;

/// How many of the topmost shapes of a list have different variables. Each of these is on top of a list that has this
/// number or a greater one.
#[derive(Clone, Copy)]
pub struct Window {
    pub count: usize,
    pub deep: u32,
}

// That of a list, if it is known.
fn window_at(windows: &List<Window>, n: u32) -> Window
    ensures is_window { (st : StacksOf) → AreWindows st windows.now → IsWindow st n result }
    ensures there { 0 < result.count → n < length windows.now }
{
    match windows.get(n as usize) {
        None => Window { count: 0, deep: n },
        Some(window) => *window,
    }
}

// That of a list with one more shape, where the variable of this is on top of no list from `below.deep` on.
fn wider(below: Window, n: u32) -> Window
    ensures count { result.count ≤ below.count + 1 }
    ensures deep { result.deep ≤ below.deep }
    ensures least { result.deep ≤ n }
{
    Window {
        count: if below.count < MOST {
            below.count + 1
        } else {
            below.count
        },
        deep: if n < below.deep { n } else { below.deep },
    }
}

// Whether no list from a number on is known that has the variable on top.
fn is_new(last: &BTreeMap<u32, u32>, variable: u32, deep: u32) -> bool
    ensures { result ≡ true → (m : ℕ) → get nat_cmp last.now variable ≡ Some m → m < deep }
{
    match last.get(&variable).copied() {
        None => true,
        Some(latest) => latest < deep,
    }
}

// The window of list n, which has this shape on top of another list.
fn next_window(
    windows: &List<Window>,
    last: &BTreeMap<u32, u32>,
    shape: Shape,
    below: u32,
    n: u32,
) -> Window
    ensures { (st : StacksOf) → AreFirstWindows st n windows.now last.now
        → list_of st n ≡ shape_of shape ∷ list_of st below → IsWindow st n result }
{
    let window = window_at(windows, below);
    match variable_of(shape) {
        None => wider(window, n),
        Some(x) => {
            if is_new(last, x, window.deep) {
                wider(window, n)
            } else {
                Window { count: 1, deep: n }
            }
        }
    }
}

// Puts that the variable of a shape, if it is an address, is on top of list n.
fn put_last(last: &mut BTreeMap<u32, u32>, shape: Shape, n: u32) -> Result<(), Memory>
    ensures { OnOk result ((st : StacksOf) → slice_get (list_of st n) 0 ≡ Some (shape_of shape)
        → AreLast st n last.old → AreLast st (n + 1) last.new) }
{
    match variable_of(shape) {
        None => Ok(()),
        Some(x) => {
            have!(last.insert(x, n));
            Ok(())
        }
    }
}

// Puts the window of list n.
fn put_window(
    windows: &mut List<Window>,
    last: &mut BTreeMap<u32, u32>,
    stacks: &Stacks,
    n: u32,
) -> Result<(), Memory>
    requires stacks { IsStacks stacks.now }
    requires there { IsListNumber stacks.now n }
    requires first { AreFirstWindows stacks.now n windows.old last.old }
    ensures { OnOk result (AreFirstWindows stacks.now (n + 1) windows.new last.new) }
{
    match stacks.top(n) {
        None => {
            have!(windows.push(Window { count: 0, deep: n }));
            Ok(())
        }
        Some((shape, below)) => {
            let window = next_window(windows, last, shape, below, n);
            have!(windows.push(window));
            put_last(last, shape, n)
        }
    }
}

// The greater one of a number and another one, if there is one.
fn greater(one: u32, other: Option<u32>) -> u32
    ensures { (n : ℕ) → one ≤ n → ((k : ℕ) → other ≡ Some k → k ≤ n) → result ≤ n }
{
    match other {
        None => one,
        Some(other) => if one < other { other } else { one },
    }
}

// The greatest number of a list that an instruction is reached with.
fn greatest_list(g: &PassContext) -> u32
    requires known { IsPassContext g.now }
    ensures { IsListNumber g.now.shapes.now.stacks result }
{
    let mut greatest = 0;
    for p in 0..g.code.parts().instrs.len() {
        greatest = greater(greatest, reached(g.shapes, p as u32));
    }
    greatest
}

// Whether a block takes a variable by reference.
fn takes_reference(layouts: &[Layout]) -> bool {
    for l in layouts {
        if some_reference(l.formals.items()) {
            return true;
        }
    }
    false
}

/// The windows of lists, by their numbers; of none, where no block takes a variable by reference.
pub(crate) fn windows_of(g: &PassContext) -> Result<List<Window>, Memory>
    requires known { IsPassContext g.now }
    ensures { IfOk result (AreWindows g.now.shapes.now.stacks) }
{
    let parts = g.code.parts();
    let mut windows = List::new(parts.instrs.alloc());
    if !takes_reference(parts.layouts.items()) {
        return Ok(windows);
    }
    let mut last = BTreeMap::new(parts.instrs.alloc());
    let count = greatest_list(g) as usize + 1;
    for n in 0..count {
        have!(put_window(&mut windows, &mut last, &g.shapes.stacks, n as u32));
    }
    Ok(windows)
}

/// Whether it is known that the topmost addresses among so many shapes of a list are those of different variables.
pub(crate) fn is_apart(windows: &List<Window>, list: u32, count: usize) -> bool
    ensures { result ≡ true → (st : StacksOf) → AreWindows st windows.now → AreApart count (list_of st list) }
{
    count <= window_at(windows, list).count
}
