//! Lists of shapes, each kept once: equal lists have equal numbers, and a deep one is not copied.

ghost use Rattle.std.specs.Prelude.{◌≡◌, ◌∷◌, [], ◌<◌, ◌≤◌, IfOk, MatchOption, Some, length, true};
ghost use Rattle.sp_verify_rules.specs.Rules.{fits_formal};
ghost use Rattle.sp_verify_shapes.specs.Names.{IsCell};
ghost use Rattle.sp_verify_shapes.specs.Stacks.{Extends, IsJump, IsListNumber, IsSmall, IsStacks, key_of, list_of};
ghost use Rattle.sp_verify_shapes.specs.Stacks.{number_at};
ghost use Rattle.sp_verify_shapes.specs.Stacks.{shape_of};

use crate::asks::lesser;
use crate::have;
use sp_base::{List, Memory};
use sp_code::Formal;
use std::alloc::Global;
use std::collections::BTreeMap;

/// The shape of an operand.
#[derive(Clone, Copy)]
pub enum Shape {
    Ordinal,
    Channel,
    /// A message of so many cells.
    Cells(u32),
    /// An address in a variable, with so many cells left from there on.
    Address { variable: u32, left: u32 },
}

/// A way to the list that is left behind the first shapes of a list, so many; and a formal that all of these fit, if
/// one is known.
#[derive(Clone, Copy)]
pub struct Jump {
    pub to: u32,
    pub far: u32,
    pub fits: Option<Formal>,
}

/// A list that is not empty: its first shape, the number of the rest, and a jump.
#[derive(Clone, Copy)]
pub struct Cell {
    pub shape: Shape,
    pub below: u32,
    pub jump: Jump,
}

/// Lists of shapes by their numbers. 0 is the empty list.
#[derive(Drop)]
pub struct Stacks {
    cells: List<Cell>,
    known: BTreeMap<u128, u32>,
}

// A list by one number.
fn key_of(shape: Shape, below: u32) -> u128
    ensures key { result ≡ key_of shape below }
    ensures small { IsSmall shape }
{
    let tagged: u128 = match shape {
        Shape::Ordinal => 0,
        Shape::Channel => 1,
        Shape::Cells(n) => 2 + n as u128,
        Shape::Address { variable, left } => 4_294_967_298
            + variable as u128 * 4_294_967_296
            + left as u128,
    };
    tagged * 4_294_967_296 + below as u128
}

// The greatest formal that a shape fits.
fn formal_of(shape: Shape) -> Formal
    ensures { fits_formal result (shape_of shape) ≡ true }
{
    match shape {
        Shape::Ordinal => Formal::Value(1),
        Shape::Channel => Formal::Value(1),
        Shape::Cells(n) => Formal::Value(n),
        Shape::Address { variable: _, left } => Formal::Reference(left),
    }
}

impl Stacks {
    /// Only the empty list.
    pub fn new(alloc: Global) -> Stacks
        ensures { IsStacks result }
    {
        Stacks {
            cells: List::new(alloc),
            known: BTreeMap::new(alloc),
        }
    }

    /// The jump of a list.
    pub(crate) fn jump_of(&self, n: u32) -> Jump
        requires stacks { IsStacks self.now }
        requires there { IsListNumber self.now n }
        ensures { IsJump self.now (list_of self.now n) result }
    {
        if n == 0 {
            return Jump {
                to: n,
                far: 0,
                fits: None,
            };
        }
        match self.cells.get(n as usize - 1) {
            None => Jump {
                to: n,
                far: 0,
                fits: None,
            },
            Some(cell) => cell.jump,
        }
    }

    // The jump of a list with one more shape: as far as both jumps behind it together, where they are equally far.
    fn jump_over(&self, shape: Shape, below: u32) -> Jump
        requires stacks { IsStacks self.now }
        requires there { IsListNumber self.now below }
        ensures { IsJump self.now (shape_of shape ∷ list_of self.now below) result }
    {
        let fits = Some(formal_of(shape));
        let near = self.jump_of(below);
        let next = self.jump_of(near.to);
        if 0 < near.far && near.far == next.far && near.far < 1_000_000_000 {
            let both = lesser(fits, near.fits);
            Jump {
                to: next.to,
                far: 1 + near.far + next.far,
                fits: lesser(both, next.fits),
            }
        } else {
            Jump {
                to: below,
                far: 1,
                fits,
            }
        }
    }

    // Adds a list that is not there.
    fn add(&mut self, shape: Shape, below: u32, key: u128) -> Result<u32, Memory>
        requires stacks { IsStacks self.old }
        requires below { IsListNumber self.old below }
        requires small { IsSmall shape }
        requires key { key ≡ key_of shape below }
        requires new { number_at self.old key ≡ None }
        ensures stacks { IsStacks self.new }
        ensures extends { Extends self.old self.new }
        ensures pushed { IfOk result
            (λ n. IsListNumber self.new n × (list_of self.new n ≡ shape_of shape ∷ list_of self.old below)) }
    {
        let n = self.cells.len() + 1;
        if n > 4_294_967_295 {
            return Err(Memory);
        }
        let jump = self.jump_over(shape, below);
        have!(self.cells.push(Cell { shape, below, jump }));
        match self.known.insert(key, n as u32) {
            Ok(_) => Ok(n as u32),
            Err(_) => {
                self.cells.pop();
                Err(Memory)
            }
        }
    }

    /// The number of a list with one more shape.
    ///
    /// # Errors
    /// Memory was refused, or there are 2^32 lists.
    pub fn push(&mut self, shape: Shape, below: u32) -> Result<u32, Memory>
        requires stacks { IsStacks self.old }
        requires below { IsListNumber self.old below }
        ensures stacks { IsStacks self.new }
        ensures extends { Extends self.old self.new }
        ensures pushed { IfOk result
            (λ n. IsListNumber self.new n × (list_of self.new n ≡ shape_of shape ∷ list_of self.old below)) }
    {
        let key = key_of(shape, below);
        match self.known.get(&key).copied() {
            Some(n) => Ok(n),
            None => self.add(shape, below, key),
        }
    }

    /// The first shape of a list and the number of the rest; nothing of the empty list.
    pub fn top(&self, n: u32) -> Option<(Shape, u32)>
        requires stacks { IsStacks self.now }
        requires there { IsListNumber self.now n }
        ensures { MatchOption result (list_of self.now n ≡ [])
            (λ r. (list_of self.now n ≡ shape_of r.0 ∷ list_of self.now r.1) × IsListNumber self.now r.1) }
    {
        if n == 0 {
            return None;
        }
        match self.cells.get(n as usize - 1) {
            None => None,
            Some(cell) => Some((cell.shape, cell.below)),
        }
    }

    /// How many lists there are, the empty one left out.
    pub(crate) fn count(&self) -> u32
        requires stacks { IsStacks self.now }
        ensures { result ≡ length self.now.cells }
    {
        self.cells.len() as u32
    }

    /// The first shape of a list, the rest and the jump; nothing of the empty list.
    pub(crate) fn cell(&self, n: u32) -> Option<Cell>
        ensures { MatchOption result (Unit {0}) (IsCell self.now n) }
    {
        if n == 0 {
            return None;
        }
        self.cells.get(n as usize - 1).copied()
    }

    /// A jump from a list, no farther than so many shapes; nothing from the empty list.
    pub(crate) fn skip(&self, n: u32, left: usize) -> Option<Jump>
        requires stacks { IsStacks self.now }
        requires there { IsListNumber self.now n }
        requires some { 0 < left }
        ensures { MatchOption result (list_of self.now n ≡ [])
            (λ j. (0 < j.far) × (j.far ≤ left) × IsJump self.now (list_of self.now n) j) }
    {
        match self.top(n) {
            None => None,
            Some((_shape, below)) => {
                let jump = self.jump_of(n);
                if 0 < jump.far && jump.far as usize <= left {
                    Some(jump)
                } else {
                    Some(Jump {
                        to: below,
                        far: 1,
                        fits: None,
                    })
                }
            }
        }
    }
}
