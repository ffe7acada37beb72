//! Lists of shapes whose jumps pass alike shapes have one name. So V5 knows operands again at another height.

ghost use Rattle.std.specs.Prelude.{◌≡◌, ◌<◌, ◌-◌, MatchOption, true};
ghost use Rattle.sp_verify_shapes.specs.Names.{AreLike, AreNames, PassAlike, kind_of};
ghost use Rattle.sp_verify_shapes.specs.Stacks.{IsListNumber, IsSmall, IsStacks, list_of};

use crate::stacks::{Cell, Shape, Stacks};
use sp_base::List;
use std::alloc::Global;
use std::collections::BTreeMap;

/// For lists by their numbers, from 1 on, the first list whose jump passes as many shapes that fit the same formals,
/// one by one. There are none before they are asked for, and fewer than lists if memory was refused.
#[derive(Drop)]
pub struct Names {
    of: List<u32>,
    are_made: bool,
}

// The formals that a shape fits, by a number.
fn kind_of(shape: Shape) -> u64
    ensures kind { result ≡ kind_of shape }
    ensures small { IsSmall shape }
{
    match shape {
        Shape::Ordinal => 1,
        Shape::Channel => 1,
        Shape::Cells(n) => n as u64,
        Shape::Address { variable: _, left } => 4_294_967_296 + left as u64,
    }
}

// Whether the jumps of two lists are known to pass alike shapes.
fn have_one_name(stacks: &Stacks, names: &List<u32>, one: u32, other: u32) -> bool
    requires names { AreNames stacks.now names.now }
    ensures { result ≡ true → PassAlike stacks.now one other }
{
    if one == 0 || other == 0 {
        return false;
    }
    match names.get(one as usize - 1) {
        None => false,
        Some(n) => match names.get(other as usize - 1) {
            None => false,
            Some(m) => *n == *m,
        },
    }
}

// The same of two jumps that are two jumps each, behind one shape.
fn are_alike_below(stacks: &Stacks, names: &List<u32>, one: Cell, other: Cell) -> bool
    requires stacks { IsStacks stacks.now }
    requires names { AreNames stacks.now names.now }
    ensures { result ≡ true
        → AreLike (one.jump.far - 1) (list_of stacks.now one.below) (list_of stacks.now other.below) }
{
    match stacks.cell(one.below) {
        None => false,
        Some(near) => match stacks.cell(other.below) {
            None => false,
            Some(over) => match stacks.cell(near.jump.to) {
                None => false,
                Some(next) => {
                    if one.jump.far as u64 != 1 + near.jump.far as u64 + next.jump.far as u64 {
                        return false;
                    }
                    if !have_one_name(stacks, names, one.below, other.below) {
                        return false;
                    }
                    have_one_name(stacks, names, near.jump.to, over.jump.to)
                }
            },
        },
    }
}

// Whether the jumps of two lists are seen to pass alike shapes, by the names of the lists below.
fn are_alike(stacks: &Stacks, names: &List<u32>, one: u32, other: u32) -> bool
    requires stacks { IsStacks stacks.now }
    requires names { AreNames stacks.now names.now }
    ensures { result ≡ true → PassAlike stacks.now one other }
{
    match stacks.cell(one) {
        None => false,
        Some(c) => match stacks.cell(other) {
            None => false,
            Some(d) => {
                if c.jump.far == 0 {
                    return false;
                }
                if c.jump.far != d.jump.far {
                    return false;
                }
                if kind_of(c.shape) != kind_of(d.shape) {
                    return false;
                }
                if c.jump.far == 1 {
                    return true;
                }
                are_alike_below(stacks, names, c, d)
            }
        },
    }
}

// The name of a list, 0 if it has none.
fn name_at(names: &List<u32>, n: u32) -> u32 {
    if n == 0 {
        return 0;
    }
    names.get(n as usize - 1).copied().unwrap_or(0)
}

// A number that lists of one name have in common, and no others. It has no contract: lists are compared before one gets
// the name of another one.
fn key_of(stacks: &Stacks, names: &List<u32>, n: u32) -> u128
    requires stacks { IsStacks stacks.now }
{
    match stacks.cell(n) {
        None => 0,
        Some(c) => {
            let kind = kind_of(c.shape) as u128 * 18_446_744_073_709_551_616;
            if c.jump.far == 1 {
                return kind;
            }
            match stacks.cell(c.below) {
                None => kind,
                Some(near) => {
                    let names_below = name_at(names, c.below) as u128 * 4_294_967_296
                        + name_at(names, near.jump.to) as u128;
                    kind + names_below
                }
            }
        }
    }
}

// The name of a list that has none so far, and a list of its own if no other one is alike.
fn name_of(stacks: &Stacks, names: &List<u32>, known: &mut BTreeMap<u128, u32>, n: u32) -> u32
    requires stacks { IsStacks stacks.now }
    requires names { AreNames stacks.now names.now }
    requires some { 0 < n }
    requires there { IsListNumber stacks.now n }
    ensures { PassAlike stacks.now n result }
{
    let key = key_of(stacks, names, n);
    match known.get(&key).copied() {
        Some(first) => {
            if are_alike(stacks, names, n, first) {
                first
            } else {
                n
            }
        }
        None => match known.insert(key, n) {
            Ok(_) => n,
            Err(_) => n,
        },
    }
}

// The names of all lists, each made after those below it; of the first ones alone where memory is refused.
fn name_all(alloc: Global, stacks: &Stacks) -> List<u32>
    requires stacks { IsStacks stacks.now }
    ensures { AreNames stacks.now result }
{
    let mut names = List::new(alloc);
    let mut known = BTreeMap::new(alloc);
    for i in 0..stacks.count() {
        let name = name_of(stacks, &names, &mut known, i + 1);
        if let Err(_) = names.push(name) {
            return names;
        }
    }
    names
}

impl Names {
    /// None were asked for.
    pub(crate) fn new(alloc: Global) -> Names
        ensures { (st : Stacks) → AreNames st result.of }
    {
        Names {
            of: List::new(alloc),
            are_made: false,
        }
    }

    /// Makes them, if they were not asked for before.
    pub(crate) fn make(&mut self, stacks: &Stacks)
        requires stacks { IsStacks stacks.now }
        requires names { AreNames stacks.now self.old.of }
        ensures { AreNames stacks.now self.new.of }
    {
        if self.are_made {
            return;
        }
        self.are_made = true;
        self.of = name_all(self.of.alloc(), stacks);
    }

    /// The name of a list, if it has one.
    pub(crate) fn get(&self, n: u32) -> Option<u32>
        ensures { (st : Stacks) → AreNames st self.now.of → MatchOption result (Unit {0}) (PassAlike st n) }
    {
        if n == 0 {
            return None;
        }
        self.of.get(n as usize - 1).copied()
    }
}
