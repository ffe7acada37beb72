//! Operands of calls that were gone over: of a block and a list of shapes, how many of the topmost ones. What is below
//! them is not gone over again, so that many calls with many operands take no time for each pair.

ghost use Rattle.std.specs.Prelude.{◌≡◌, ℕ, Bool, IfOk, OnOk, false, true};
ghost use Rattle.std.specs.List.{list_any};
ghost use Rattle.sp_verify_effects.specs.Walks.{AreWalks, NoneOfTop, walk_key};
ghost use Rattle.sp_verify_shapes.specs.declared.stacks.Stacks.{Stacks as StacksOf};
ghost use Rattle.sp_verify_shapes.specs.Stacks.{IsListNumber, IsStacks, list_of};

use crate::have;
use crate::own::push_shape;
use sp_base::{List, Memory};
use sp_verify_shapes::stacks::Stacks;
use std::alloc::Global;
use std::collections::BTreeMap;

// Fewer operands are gone over again: that is fast.
const FEW: usize = 8;

// It is kept of one list in so many on the way down.
const EACH: usize = 16;

/// How many of the topmost operands were gone over, by the block and the list.
pub(crate) type Walks = BTreeMap<u64, usize>;

/// None were.
pub(crate) fn no_walks(alloc: Global) -> Walks
    ensures { (st : StacksOf) (P : ℕ → ℕ → Bool) → AreWalks st result P }
{
    BTreeMap::new(alloc)
}

// A block, by its first instruction, and a list by one number.
fn walk_key(entry: u32, list: u32) -> u64
    ensures { result ≡ walk_key entry list }
{
    entry as u64 * 4_294_967_296 + list as u64
}

fn is_due(depth: usize) -> bool {
    depth % EACH == 0
}

// Whether it is kept that so many of a list, which is so deep among the operands, were gone over.
fn has_walk(walks: &Walks, entry: u32, list: u32, depth: usize, count: usize) -> bool
    ensures { result ≡ true → (st : StacksOf) (P : ℕ → ℕ → Bool) → AreWalks st walks.now P
        → NoneOfTop P entry count (list_of st list) }
{
    if !is_due(depth) {
        return false;
    }
    let key = walk_key(entry, list);
    match walks.get(&key).copied() {
        None => false,
        Some(most) => count <= most,
    }
}

/// The variables of the topmost operands, so many, that are addresses and were not gone over for this block.
pub(crate) fn addresses_left(
    alloc: Global,
    walks: &Walks,
    stacks: &Stacks,
    entry: u32,
    list: u32,
    count: usize,
) -> Result<List<u32>, Memory>
    requires stacks { IsStacks stacks.now }
    requires there { IsListNumber stacks.now list }
    ensures { IfOk result (λ xs. (P : ℕ → ℕ → Bool) → AreWalks stacks.now walks.now P → list_any (P entry) xs ≡ false
        → NoneOfTop P entry count (list_of stacks.now list)) }
{
    let mut left = List::new(alloc);
    let mut at = list;
    for depth in 0..count {
        if has_walk(walks, entry, at, depth, count - depth) {
            return Ok(left);
        }
        match stacks.top(at) {
            None => return Ok(left),
            Some((shape, below)) => {
                have!(push_shape(&mut left, shape));
                at = below;
            }
        }
    }
    Ok(left)
}

// Puts that so many of a list, which is so deep among the operands, were gone over, if it is kept of this one.
fn put(walks: &mut Walks, entry: u32, list: u32, depth: usize, count: usize) -> Result<(), Memory>
    ensures { OnOk result ((st : StacksOf) (P : ℕ → ℕ → Bool) → AreWalks st walks.old P
        → NoneOfTop P entry count (list_of st list) → AreWalks st walks.new P) }
{
    if is_due(depth) {
        let key = walk_key(entry, list);
        have!(walks.insert(key, count));
    }
    Ok(())
}

/// Puts that so many of the topmost operands were gone over for a block.
pub(crate) fn put_walk(
    walks: &mut Walks,
    stacks: &Stacks,
    entry: u32,
    list: u32,
    count: usize,
) -> Result<(), Memory>
    requires stacks { IsStacks stacks.now }
    requires there { IsListNumber stacks.now list }
    ensures { OnOk result ((P : ℕ → ℕ → Bool) → AreWalks stacks.now walks.old P
        → NoneOfTop P entry count (list_of stacks.now list) → AreWalks stacks.now walks.new P) }
{
    if count < FEW {
        return Ok(());
    }
    let mut at = list;
    for depth in 0..count {
        if has_walk(walks, entry, at, depth, count - depth) {
            return Ok(());
        }
        have!(put(walks, entry, at, depth, count - depth));
        match stacks.top(at) {
            None => return Ok(()),
            Some((_shape, below)) => {
                at = below;
            }
        }
    }
    Ok(())
}
