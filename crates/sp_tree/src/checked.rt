//! The tree of an accepted text, with numbers for names and the places of its parts. `For` has the place of its
//! variable's name and `ExprForm::Call` that of the called name, since rules are broken there.

ghost use Rattle.std.specs.Prelude.{◌≡◌, ◌<◌};
ghost use Rattle.sp_tree.specs.declared.checked.Expr.{size-Expr};
ghost use Rattle.sp_tree.specs.declared.checked.ExprForm.{size-ExprForm};
ghost use Rattle.sp_tree.specs.declared.checked.Form.{size-Form};
ghost use Rattle.sp_tree.specs.declared.checked.Stmt.{size-Stmt};

use crate::operators::{BinaryOp, StandardFn, UnaryOp};
use sp_base::{Boxed, List, Place, Text};

/// A program. Types, variables and blocks are named by their numbers, in order of declaration. Block 0 is the
/// program itself, and variables 0 and 1 are the input and the output.
pub struct Checked {
    pub kinds: List<KindOf>,
    pub variables: List<Variable>,
    pub blocks: List<Block>,
}

// By hand, so that it is proved once, here, and not in each crate that drops a tree.
impl Drop for Checked {
    fn drop(self) {
        let Checked {
            kinds: _,
            variables: _,
            blocks: _,
        } = self;
    }
}

/// A type.
#[derive(Drop)]
pub enum KindOf {
    Integer,
    Boolean,
    Char,
    /// So many constants, whose numbers rise from 0.
    Enumeration(u32),
    /// Its least and its greatest index, the type of its index and that of its elements.
    Array {
        low: i64,
        high: i64,
        index: u32,
        element: u32,
    },
    /// The fields of a record, each with its name and its type.
    Fields(List<(Text, u32)>),
    /// The message types of a channel.
    Channel(List<u32>),
}

/// What a variable is in its block.
#[derive(Clone, Copy)]
pub enum Role {
    /// The input or the output.
    Console,
    /// Declared in a `var` part.
    Local,
    /// A value parameter.
    Value,
    /// A variable parameter.
    Reference,
    /// The index of a forall.
    Index,
    /// The result of a function.
    Answer,
}

/// A variable: its name, its type, the block that declares it, its role, and where it is declared.
#[derive(Drop)]
pub struct Variable {
    pub name: Text,
    pub kind: u32,
    pub block: u32,
    pub role: Role,
    pub at: Place,
}

/// A program, procedure or function: its name, the block around it, the numbers of its parameters, the number of
/// the variable that has its result, its statement part, and the place of its heading's name.
#[derive(Drop)]
pub struct Block {
    pub name: Text,
    pub parent: Option<u32>,
    pub formals: List<u32>,
    pub answer: Option<u32>,
    pub body: Stmt,
    pub at: Place,
}

/// An expression, with the place of its first token and the number of its type. Chains of operators may be as
/// long as the text, so `drop` goes along their left operands in a loop.
#[cycle(checked_expr)]
pub struct Expr {
    pub at: Place,
    pub kind: u32,
    pub form: ExprForm,
}

/// What an expression is.
#[cycle(checked_expr)]
#[derive(Drop)]
pub enum ExprForm {
    /// A number or a constant, by its ordinal.
    Number(i64),
    Read(Var),
    Unary(UnaryOp, Boxed<Expr>),
    Binary(BinaryOp, Boxed<Expr>, Boxed<Expr>),
    /// A call of a function: its block, the place of its name, its parameters.
    Call(u32, Place, List<Actual>),
    Standard(StandardFn, List<Expr>),
}

/// A variable with its selectors, and the place of its name.
#[cycle(checked_expr)]
#[derive(Drop)]
pub struct Var {
    pub variable: u32,
    pub at: Place,
    pub selectors: List<Selector>,
}

/// An index of an array, or the number of a record's field, counted from 0.
#[cycle(checked_expr)]
#[derive(Drop)]
pub enum Selector {
    Index(Expr),
    Field(u32),
}

/// An actual parameter.
#[cycle(checked_expr)]
#[derive(Drop)]
pub enum Actual {
    Value(Expr),
    Reference(Var),
}

impl Expr {
    /// The place, the type and the form. A type with a `drop` of its own is taken apart in its own methods alone.
    pub fn parts(self) -> (Place, u32, ExprForm)
        ensures whole { self ≡ record { at = result.0; kind = result.1; form = result.2 } }
        ensures less { size-ExprForm result.2 < size-Expr self }
    {
        let Expr { at, kind, form } = self;
        (at, kind, form)
    }
}

impl Drop for Expr {
    #[cycle(drop_checked)]
    fn drop(mut self) {
        loop {
            let Expr {
                at: _,
                kind: _,
                form,
            } = self;
            match form {
                ExprForm::Binary(_, a, b) => {
                    let _right = b.into_inner();
                    self = a.into_inner();
                }
                form => {
                    drop(form);
                    return;
                }
            }
        }
    }
}

/// A statement, with its number in the order of the text and the place of its first token.
#[cycle(checked_stmt)]
pub struct Stmt {
    pub number: u32,
    pub at: Place,
    pub form: Form,
}

impl Stmt {
    /// The number, the place and the form. A type with a `drop` of its own is taken apart in its own methods alone.
    pub fn parts(self) -> (u32, Place, Form)
        ensures whole { self ≡ record { number = result.0; at = result.1; form = result.2 } }
        ensures less { size-Form result.2 < size-Stmt self }
    {
        let Stmt { number, at, form } = self;
        (number, at, form)
    }
}

// By hand, so that it is proved once, here, and not in each crate that drops a statement.
impl Drop for Stmt {
    #[cycle(drop_checked_stmt)]
    fn drop(self) {
        let Stmt {
            number: _,
            at: _,
            form,
        } = self;
        drop(form);
    }
}

/// What a statement is.
#[cycle(checked_stmt)]
#[derive(Drop)]
pub enum Form {
    Empty,
    Assign(Var, Expr),
    /// A call of a procedure: its block and its parameters.
    Call(u32, List<Actual>),
    Sequence(List<Stmt>),
    If(Expr, Boxed<Stmt>, Option<Boxed<Stmt>>),
    While(Expr, Boxed<Stmt>),
    Repeat(Boxed<Stmt>, Expr),
    /// `down` is true for `downto`, and `at` is the place of the variable's name.
    For {
        variable: u32,
        at: Place,
        from: Expr,
        down: bool,
        to: Expr,
        body: Boxed<Stmt>,
    },
    Case(Expr, List<Arm>),
    Parallel(List<Stmt>),
    Forall {
        index: u32,
        from: Expr,
        to: Expr,
        body: Boxed<Stmt>,
    },
    Assume(Expr),
    ReadValue(Var),
    ReadLine,
    /// A value and its width.
    WriteValue(Expr, Option<Expr>),
    WriteText(Text, Option<Expr>),
    WriteLine,
    Open(Var),
    /// A channel and a value.
    Send(Expr, Expr),
    /// A channel and a variable.
    Receive(Expr, Var),
    /// Several values on one channel: single statements at one place, numbered from a number on.
    SendEach {
        at: Place,
        number: u32,
        channel: Expr,
        values: List<Expr>,
    },
    /// Several variables from one channel: single statements at one place, numbered from a number on.
    ReceiveEach {
        at: Place,
        number: u32,
        channel: Expr,
        variables: List<Var>,
    },
}

/// One choice of a `case` statement: its constants and its statement.
#[cycle(checked_stmt)]
#[derive(Drop)]
pub struct Arm {
    pub constants: List<i64>,
    pub body: Stmt,
}
