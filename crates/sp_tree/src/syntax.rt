//! The tree that a program's tokens spell, with names as they are written (in lower case).

ghost use Rattle.std.specs.Prelude.{◌≡◌, ◌<◌};
ghost use Rattle.sp_tree.specs.declared.syntax.SynExpr.{size-SynExpr};
ghost use Rattle.sp_tree.specs.declared.syntax.SynExprForm.{size-SynExprForm};
ghost use Rattle.sp_tree.specs.declared.syntax.SynForm.{size-SynForm};
ghost use Rattle.sp_tree.specs.declared.syntax.SynStmt.{size-SynStmt};

use crate::operators::{BinaryOp, UnaryOp};
use sp_base::{Boxed, List, Place, Text};

/// A name in lower case, and where it stands.
#[derive(Drop)]
pub struct Name {
    pub text: Text,
    pub at: Place,
}

/// A program: its name, the names in its heading, its block.
pub struct Syntax {
    pub name: Name,
    pub heading: List<Name>,
    pub block: SynBlock,
}

impl Syntax {
    /// The name, the heading and the block. A type with a `drop` of its own is taken apart in its own methods alone.
    pub fn parts(self) -> (Name, List<Name>, SynBlock)
        ensures { self ≡ record { name = result.0; heading = result.1; block = result.2 } }
    {
        let Syntax {
            name,
            heading,
            block,
        } = self;
        (name, heading, block)
    }
}

// By hand, so that it is proved once, here, and not in each crate that drops a tree.
impl Drop for Syntax {
    fn drop(self) {
        let Syntax {
            name: _,
            heading: _,
            block: _,
        } = self;
    }
}

/// Declarations in their order, and a statement part.
#[cycle(syntax_block)]
#[derive(Drop)]
pub struct SynBlock {
    pub parts: List<SynPart>,
    pub body: SynStmt,
}

/// One declaration.
#[cycle(syntax_block)]
#[derive(Drop)]
pub enum SynPart {
    /// A constant and its value.
    Const(Name, SynConst),
    /// A type and its definition.
    Kind(Name, SynKind),
    /// Variables of one type.
    Var(List<Name>, Name),
    /// A procedure, or a function if it has an answer, the name of its result's type.
    Proc {
        name: Name,
        formals: List<SynFormal>,
        answer: Option<Name>,
        block: Boxed<SynBlock>,
    },
}

/// Formal parameters of one type.
#[derive(Drop)]
pub struct SynFormal {
    /// Whether they are variable parameters.
    pub by_reference: bool,
    pub names: List<Name>,
    pub kind: Name,
}

/// A constant, with the place of its first token.
#[derive(Drop)]
pub struct SynConst {
    pub at: Place,
    /// The sign before it: `Some(true)` for `-` and `Some(false)` for `+`.
    pub negative: Option<bool>,
    pub value: SynValue,
}

/// What a constant is without its sign.
#[derive(Drop)]
pub enum SynValue {
    Number(u64),
    Quoted(Text),
    Named(Name),
}

/// The definition of a type.
#[derive(Drop)]
pub enum SynKind {
    /// Another name of a type.
    Alias(Name),
    Enumeration(List<Name>),
    /// The bounds of the index, and the type of the elements.
    Array(SynConst, SynConst, Name),
    Record(List<SynGroup>),
    /// The message types.
    Channel(List<Name>),
}

/// Fields of one type.
#[derive(Drop)]
pub struct SynGroup {
    pub names: List<Name>,
    pub kind: Name,
}

/// A statement, with the place of its first token. An empty statement has the place of the token after it.
#[cycle(syntax_stmt)]
pub struct SynStmt {
    pub at: Place,
    pub form: SynForm,
}

impl SynStmt {
    /// The place and the form. A type with a `drop` of its own is taken apart in its own methods alone.
    pub fn parts(self) -> (Place, SynForm)
        ensures whole { self ≡ record { at = result.0; form = result.1 } }
        ensures less { size-SynForm result.1 < size-SynStmt self }
    {
        let SynStmt { at, form } = self;
        (at, form)
    }
}

// By hand, so that it is proved once, here, and not in each crate that drops a statement.
impl Drop for SynStmt {
    #[cycle(drop_syntax_stmt)]
    fn drop(self) {
        let SynStmt { at: _, form } = self;
        drop(form);
    }
}

/// What a statement is.
#[cycle(syntax_stmt)]
#[derive(Drop)]
pub enum SynForm {
    Empty,
    Assign(SynVar, SynExpr),
    Call(Name, List<SynArg>),
    Sequence(List<SynStmt>),
    If(SynExpr, Boxed<SynStmt>, Option<Boxed<SynStmt>>),
    While(SynExpr, Boxed<SynStmt>),
    Repeat(List<SynStmt>, SynExpr),
    Case(SynExpr, List<SynArm>),
    /// `down` is true for `downto`.
    For {
        name: Name,
        from: SynExpr,
        down: bool,
        to: SynExpr,
        body: Boxed<SynStmt>,
    },
    /// The process statements.
    Parallel(List<SynBranch>),
    Forall {
        name: Name,
        from: SynExpr,
        to: SynExpr,
        body: Boxed<SynStmt>,
    },
    Assume(SynExpr),
}

/// One choice of a `case` statement: its constants and its statement.
#[cycle(syntax_stmt)]
#[derive(Drop)]
pub struct SynArm {
    pub constants: List<SynConst>,
    pub body: SynStmt,
}

/// A process statement of `parallel`: the statements that one process makes.
#[cycle(syntax_stmt)]
#[derive(Drop)]
pub struct SynBranch {
    pub statements: List<SynStmt>,
}

/// An expression, with the place of its first token; in parentheses, of the outermost opening one. Chains of
/// operators may be as long as the text, so `drop` goes along their left operands in a loop.
#[cycle(syntax_expr)]
pub struct SynExpr {
    pub at: Place,
    pub form: SynExprForm,
}

/// What an expression is. A name without selectors and arguments is always `Read`, whatever its declaration is.
#[cycle(syntax_expr)]
#[derive(Drop)]
pub enum SynExprForm {
    Number(u64),
    Quoted(Text),
    Read(SynVar),
    Call(Name, List<SynArg>),
    Unary(UnaryOp, Boxed<SynExpr>),
    Binary(BinaryOp, Boxed<SynExpr>, Boxed<SynExpr>),
}

/// A name with selectors.
#[cycle(syntax_expr)]
#[derive(Drop)]
pub struct SynVar {
    pub name: Name,
    pub selectors: List<SynSelector>,
}

/// An index or a field. `a[i, j]` has two indices, as `a[i][j]`.
#[cycle(syntax_expr)]
#[derive(Drop)]
pub enum SynSelector {
    Index(SynExpr),
    Field(Name),
}

/// An argument and its width.
#[cycle(syntax_expr)]
#[derive(Drop)]
pub struct SynArg {
    pub value: SynExpr,
    pub width: Option<SynExpr>,
}

impl SynExpr {
    /// The place and the form. A type with a `drop` of its own is taken apart in its own methods alone.
    pub fn parts(self) -> (Place, SynExprForm)
        ensures whole { self ≡ record { at = result.0; form = result.1 } }
        ensures less { size-SynExprForm result.1 < size-SynExpr self }
    {
        let SynExpr { at, form } = self;
        (at, form)
    }
}

impl Drop for SynExpr {
    #[cycle(drop_syntax)]
    fn drop(mut self) {
        loop {
            let SynExpr { at: _, form } = self;
            match form {
                SynExprForm::Binary(_, a, b) => {
                    let _right = b.into_inner();
                    self = a.into_inner();
                }
                form => {
                    drop(form);
                    return;
                }
            }
        }
    }
}
