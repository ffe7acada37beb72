//! Code as data: instructions, the frames of blocks, what forks hand to their children, and texts.

ghost use Rattle.std.specs.Prelude.{◌≡◌, ◌↔◌, All, IsTrue, None, Some, slice_get};
ghost use Rattle.std.specs.Option.{option_copied};
ghost use Rattle.sp_code.specs.Sizes.{KeepsSizes, HasNumbers, HasSmallSizes, IsSize};
ghost use Rattle.sp_code.specs.Tables.{child_at, index_of};

use crate::instr::Instr;
use sp_base::{List, Text};
use std::marker::Model;

/// How many instructions, layouts, fork tables and texts a code may have, of each.
pub const MAX_CODE: usize = 1_048_576;

/// How many variables a frame may have.
pub const MAX_FRAME: usize = 4_294_967_294;

/// How a block takes a parameter, and the cells of the parameter's type.
#[derive(Clone, Copy)]
pub enum Formal {
    /// By value: so many cells.
    Value(u32),
    /// By reference, to a variable of so many cells.
    Reference(u32),
}

/// The frame of a block. It has the parameters first, in order, then the result where the block has one, then the local
/// variables. The program's frame begins with the input as variable 0 and the output as variable 1, which are not
/// listed.
#[derive(Drop)]
pub struct Layout {
    /// The number of the block.
    pub block: u32,
    /// The number of its first instruction.
    pub entry: u32,
    /// The number of the block around it.
    pub parent: Option<u32>,
    /// Whether it has a result.
    pub answer: bool,
    /// The cells of each variable of the frame. A variable parameter has one, which stays undefined.
    pub sizes: List<u32>,
    /// The number of each variable of the frame in the tree.
    pub variables: List<u32>,
    pub formals: List<Formal>,
}

/// The type of the numbers says that each is small.
fn are_small(sizes: &[u32])
    ensures { All IsSize sizes.now }
{}

impl Layout {
    /// Whether the variables are few enough that each has a number. That each has few enough cells, its type says.
    fn keeps_sizes(&self) -> bool
        ensures { IsTrue result ↔ (HasNumbers self.now × HasSmallSizes self.now) }
    {
        are_small(self.sizes.items());
        self.sizes.len() <= MAX_FRAME
    }
}

/// What one child of a fork begins with. Variables have their numbers in the tree.
pub struct ChildTable {
    /// The number of its first instruction.
    pub entry: u32,
    /// The variables that it may change.
    pub moved: List<u32>,
    /// The variables that it only reads.
    pub shared: List<u32>,
    /// The index of a `forall`.
    pub index: Option<u32>,
}

// By hand, so that it is proved once, here, and not in each crate that drops such a value.
impl Drop for ChildTable {
    fn drop(self) {
        let ChildTable {
            entry: _,
            moved: _,
            shared: _,
            index: _,
        } = self;
    }
}

/// The children of a `parallel`, or the one child that each value of a `forall` gets.
#[derive(Drop)]
pub struct ForkTable {
    pub children: List<ChildTable>,
}

impl ForkTable {
    /// The index of a `forall`, by its number in the tree; None for a `parallel`.
    pub fn index(&self) -> Option<u32>
        ensures { result ≡ index_of self.now }
    {
        match self.children.get(0) {
            None => None,
            Some(child) => child.index,
        }
    }

    /// What the child of this number, from 0, begins with. Every child of a `forall` begins with the one that its table
    /// has.
    pub fn child(&self, number: u64) -> Option<&ChildTable>
        ensures { option_copied result ≡ child_at self.now number }
    {
        match self.index() {
            None => self.children.get(number as usize),
            Some(_) => self.children.get(0),
        }
    }
}

/// The parts that code is made of.
#[derive(Drop)]
pub struct Parts {
    pub instrs: List<Instr>,
    pub layouts: List<Layout>,
    pub forks: List<ForkTable>,
    pub texts: List<Text>,
}

impl Parts {
    /// Whether the parts are no larger than code may be: at most `MAX_CODE` instructions, layouts, fork tables and
    /// texts, of each, at most `MAX_FRAME` variables in a frame, and a child in each fork table. The cells of a
    /// variable are a number of 32 bits, by their type.
    pub fn keeps_sizes(&self) -> bool
        ensures { IsTrue result ↔ KeepsSizes self.now }
    {
        self.instrs.len() <= MAX_CODE
            && self.layouts.len() <= MAX_CODE
            && self.forks.len() <= MAX_CODE
            && self.texts.len() <= MAX_CODE
            && self.layouts.items().iter().all(|l| l.keeps_sizes())
            && self.forks.items().iter().all(|t| t.children.len() >= 1)
    }
}

/// Code for the stack machine. It never is larger than `Parts::keeps_sizes` says.
pub struct Code {
    parts: Parts,
}

// By hand, so that it is proved once, here, and not in each crate that drops code.
impl Drop for Code {
    fn drop(self) {
        let Code { parts: _ } = self;
    }
}

impl Model for Code {
    ghost use Rattle.sp_code.specs.declared.code.Parts.{Parts};
    ghost use Rattle.sp_code.specs.Sizes.{KeepsSizes};

    ghost Value = { Parts };

    ghost view = { λ c. c.parts };

    ghost invariant = { λ c. KeepsSizes c.parts };
}

impl Code {
    /// The code of these parts.
    pub fn of(parts: Parts) -> Code
        requires { KeepsSizes parts }
        ensures { result ≡ parts }
    {
        Code { parts }
    }

    /// The parts of the code.
    pub fn parts(&self) -> &Parts
        ensures same { result.now ≡ self.now }
        ensures sizes { KeepsSizes self.now }
    {
        &self.parts
    }

    /// The instruction of this number, from 0.
    pub fn instr(&self, number: u32) -> Option<Instr>
        ensures { result ≡ slice_get self.now.instrs number }
    {
        self.parts.instrs.get(number as usize).copied()
    }

    /// The text of this number, from 0: its place in the list of texts.
    pub fn text(&self, number: u32) -> Option<&Text>
        ensures { option_copied result ≡ slice_get self.now.texts number }
    {
        self.parts.texts.get(number as usize)
    }

    /// The fork table of this number, from 0.
    pub fn table(&self, number: u32) -> Option<&ForkTable>
        ensures { option_copied result ≡ slice_get self.now.forks number }
    {
        self.parts.forks.get(number as usize)
    }
}
