//! The tree with numbers for names, before types are known. The standard constants, types and the input and output
//! stand first in the tables, at the place of the program's name. Statements have no numbers yet: one with several
//! arguments becomes several statements only with the checked tree.

ghost use Rattle.std.specs.Prelude.{◌≡◌, ◌<◌};
ghost use Rattle.sp_tree.specs.declared.named.NamedExpr.{size-NamedExpr};
ghost use Rattle.sp_tree.specs.declared.named.NamedExprForm.{size-NamedExprForm};
ghost use Rattle.sp_tree.specs.declared.named.NamedForm.{size-NamedForm};
ghost use Rattle.sp_tree.specs.declared.named.NamedStmt.{size-NamedStmt};

use crate::checked::Variable;
use crate::meaning::StandardProcedure;
use crate::operators::{BinaryOp, StandardFn, UnaryOp};
use sp_base::{Boxed, List, Place, Text};

/// A program whose names have numbers, each the position in its list. Constants 0 to 2 are `false`, `true` and
/// `maxint`, types 0 to 2 integer, boolean and char, variables 0 and 1 the input and the output, block 0 the program.
#[derive(Drop)]
pub struct Named {
    /// The constants, those of enumerations among them, in order of declaration.
    pub constants: List<NamedConstant>,
    /// The types, other names of a type among them, in order of declaration.
    pub kinds: List<NamedKind>,
    /// The variables in order of declaration, parameters, results and forall indices among them. The type of a forall
    /// index is not known yet, and is 0 here.
    pub variables: List<Variable>,
    /// The program, its procedures and its functions in order of their headings.
    pub blocks: List<NamedBlock>,
}

/// A declared constant.
#[derive(Drop)]
pub enum NamedConstant {
    /// Of a `const` part.
    Value(NamedConst),
    /// A constant of an enumeration: its type and its ordinal.
    Enumerated { kind: u32, ordinal: u32 },
}

/// A constant as it is written, with the place of its first token.
#[derive(Drop)]
pub struct NamedConst {
    pub at: Place,
    /// The sign before it: `Some(true)` for `-` and `Some(false)` for `+`.
    pub negative: Option<bool>,
    pub value: NamedValue,
}

/// What a constant is without its sign.
#[derive(Drop)]
pub enum NamedValue {
    Number(u64),
    Quoted(Text),
    /// A declared constant, by its number.
    Constant(u32),
}

/// A type, with the place of its name.
#[derive(Drop)]
pub struct NamedKind {
    pub at: Place,
    pub form: NamedKindForm,
}

/// The definition of a type.
#[derive(Drop)]
pub enum NamedKindForm {
    Integer,
    Boolean,
    Char,
    /// Another name of a type.
    Alias(u32),
    /// So many constants.
    Enumeration(u32),
    /// The bounds of the index, and the type of the elements.
    Array(NamedConst, NamedConst, u32),
    /// The fields of a record, each with its name and its type.
    Fields(List<(Text, u32)>),
    /// The message types of a channel.
    Channel(List<u32>),
}

/// A program, procedure or function: its name, the block around it, the numbers of its parameters, its result if it is
/// a function, its statement part, and the place of its heading's name.
#[derive(Drop)]
pub struct NamedBlock {
    pub name: Text,
    pub parent: Option<u32>,
    pub formals: List<u32>,
    pub answer: Option<NamedAnswer>,
    pub body: NamedStmt,
    pub at: Place,
}

/// The result of a function: the number of its variable, and the place of its type's name.
#[derive(Clone, Copy)]
pub struct NamedAnswer {
    pub variable: u32,
    pub at: Place,
}

/// An expression, with the place of its first token. Chains of operators may be as long as the text, so `drop` goes
/// along their left operands in a loop.
#[cycle(named_expr)]
pub struct NamedExpr {
    pub at: Place,
    pub form: NamedExprForm,
}

/// What an expression is.
#[cycle(named_expr)]
#[derive(Drop)]
pub enum NamedExprForm {
    Number(u64),
    Quoted(Text),
    /// A declared constant, by its number.
    Constant(u32),
    Read(NamedVar),
    /// A call of a function: its block, the place of its name, its arguments.
    Call(u32, Place, List<NamedArg>),
    /// A call of a standard function.
    Standard(StandardFn, List<NamedArg>),
    Unary(UnaryOp, Boxed<NamedExpr>),
    Binary(BinaryOp, Boxed<NamedExpr>, Boxed<NamedExpr>),
}

/// A variable with its selectors, and the place of its name.
#[cycle(named_expr)]
#[derive(Drop)]
pub struct NamedVar {
    pub variable: u32,
    pub at: Place,
    pub selectors: List<NamedSelector>,
}

/// An index or the name of a field.
#[cycle(named_expr)]
#[derive(Drop)]
pub enum NamedSelector {
    Index(NamedExpr),
    Field(Text),
}

/// An argument and its width, which only `write` and `writeln` take. It is written as a variable where it is a `Read`
/// whose place is that of its name.
#[cycle(named_expr)]
#[derive(Drop)]
pub struct NamedArg {
    pub value: NamedExpr,
    pub width: Option<NamedExpr>,
}

impl NamedExpr {
    /// The place and the form. A type with a `drop` of its own is taken apart in its own methods alone.
    pub fn parts(self) -> (Place, NamedExprForm)
        ensures whole { self ≡ record { at = result.0; form = result.1 } }
        ensures less { size-NamedExprForm result.1 < size-NamedExpr self }
    {
        let NamedExpr { at, form } = self;
        (at, form)
    }
}

impl Drop for NamedExpr {
    #[cycle(drop_named)]
    fn drop(mut self) {
        loop {
            let NamedExpr { at: _, form } = self;
            match form {
                NamedExprForm::Binary(_, a, b) => {
                    let _right = b.into_inner();
                    self = a.into_inner();
                }
                form => {
                    drop(form);
                    return;
                }
            }
        }
    }
}

/// A statement, with the place of its first token. An empty statement has the place of the token after it.
#[cycle(named_stmt)]
pub struct NamedStmt {
    pub at: Place,
    pub form: NamedForm,
}

impl NamedStmt {
    /// The place and the form. A type with a `drop` of its own is taken apart in its own methods alone.
    pub fn parts(self) -> (Place, NamedForm)
        ensures whole { self ≡ record { at = result.0; form = result.1 } }
        ensures less { size-NamedForm result.1 < size-NamedStmt self }
    {
        let NamedStmt { at, form } = self;
        (at, form)
    }
}

// By hand, so that it is proved once, here, and not in each crate that drops a statement.
impl Drop for NamedStmt {
    #[cycle(drop_named_stmt)]
    fn drop(self) {
        let NamedStmt { at: _, form } = self;
        drop(form);
    }
}

/// What a statement is.
#[cycle(named_stmt)]
#[derive(Drop)]
pub enum NamedForm {
    Empty,
    Assign(NamedVar, NamedExpr),
    /// A call of a procedure: its block and its arguments.
    Call(u32, List<NamedArg>),
    /// A call of a standard procedure.
    Standard(StandardProcedure, List<NamedArg>),
    Sequence(List<NamedStmt>),
    If(NamedExpr, Boxed<NamedStmt>, Option<Boxed<NamedStmt>>),
    While(NamedExpr, Boxed<NamedStmt>),
    Repeat(List<NamedStmt>, NamedExpr),
    Case(NamedExpr, List<NamedArm>),
    /// `down` is true for `downto`, and `at` is the place of the variable's name.
    For {
        variable: u32,
        at: Place,
        from: NamedExpr,
        down: bool,
        to: NamedExpr,
        body: Boxed<NamedStmt>,
    },
    /// The process statements.
    Parallel(List<NamedBranch>),
    Forall {
        index: u32,
        from: NamedExpr,
        to: NamedExpr,
        body: Boxed<NamedStmt>,
    },
    Assume(NamedExpr),
}

/// One choice of a `case` statement: its constants and its statement.
#[cycle(named_stmt)]
#[derive(Drop)]
pub struct NamedArm {
    pub constants: List<NamedConst>,
    pub body: NamedStmt,
}

/// A process statement of `parallel`: the statements that one process makes.
#[cycle(named_stmt)]
#[derive(Drop)]
pub struct NamedBranch {
    pub statements: List<NamedStmt>,
}
