//! What a name stands for where it is visible, and what is counted of declarations.

use crate::checked::Role;
use crate::operators::StandardFn;
use sp_base::List;

/// A procedure that every program may call.
#[derive(Clone, Copy)]
pub enum StandardProcedure {
    Read,
    Readln,
    Write,
    Writeln,
    Open,
    Send,
    Receive,
}

/// What a name is declared as, by its number in the tables of `Named`.
#[derive(Drop)]
pub enum Meaning {
    /// A constant.
    Constant(u32),
    /// A type.
    Kind(u32),
    /// A variable, a parameter or the index of a forall, and the block that declares it.
    Variable { number: u32, block: u32, role: Role },
    /// A procedure, and for each of its parameters whether it is a variable parameter.
    Procedure { block: u32, references: List<bool> },
    /// A function, as a procedure.
    Function { block: u32, references: List<bool> },
    StandardProcedure(StandardProcedure),
    StandardFunction(StandardFn),
}

/// The four kinds of declarations that are counted, each alone.
#[derive(Clone, Copy)]
pub enum Sort {
    Constant,
    Kind,
    Variable,
    Block,
}

/// How many of each sort were declared so far, and how many functions have a result.
#[derive(Clone, Copy)]
pub struct Counts {
    pub constants: u32,
    pub kinds: u32,
    pub variables: u32,
    pub results: u32,
    pub blocks: u32,
}

/// How an argument is passed.
#[derive(Clone, Copy)]
pub enum Passing {
    /// By its value.
    Value,
    /// To a variable parameter.
    Reference,
    /// To a standard procedure that assigns it.
    Target,
    /// To `write` or `writeln`, which take a width.
    Written,
}
