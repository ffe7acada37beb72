//! Constructors of expressions, from their parts.

ghost use Rattle.std.specs.Prelude.{◌≡◌};
ghost use Rattle.sp_tree.specs.Grammar.{binary_at_left as joined_of, with_place as moved_of};
ghost use Rattle.sp_tree.specs.PlainSyntax as tree;
ghost use Rattle.sp_tree.specs.SyntaxOf.{expression_of, arguments_of, variable_of, selector_of, argument_of};
ghost use Rattle.sp_parse.specs.Trees.{MakesTree, selectors_of, width_of};

use sp_base::{Boxed, List, Place, Text};
use sp_tree::{BinaryOp, Name, SynArg, SynExpr, SynExprForm, SynSelector, SynVar, UnaryOp};
use std::alloc::{AllocError, Global};

pub fn number_expression(at: Place, n: u64) -> SynExpr
    ensures { expression_of result ≡ tree.ExpressionAt at (tree.Number n) }
{
    SynExpr {
        at,
        form: SynExprForm::Number(n),
    }
}

pub fn quoted_expression(at: Place, text: Text) -> SynExpr
    ensures { expression_of result ≡ tree.ExpressionAt at (tree.Quoted text) }
{
    SynExpr {
        at,
        form: SynExprForm::Quoted(text),
    }
}

pub fn call_expression(at: Place, name: Name, args: List<SynArg>) -> SynExpr
    ensures { expression_of result ≡ tree.ExpressionAt at (tree.Apply name (arguments_of args)) }
{
    SynExpr {
        at,
        form: SynExprForm::Call(name, args),
    }
}

pub fn variable(name: Name, of: List<SynSelector>) -> SynVar
    ensures { variable_of result ≡ tree.Entire name (selectors_of of) }
{
    SynVar {
        name,
        selectors: of,
    }
}

pub fn read_expression(at: Place, v: SynVar) -> SynExpr
    ensures { expression_of result ≡ tree.ExpressionAt at (tree.Read (variable_of v)) }
{
    SynExpr {
        at,
        form: SynExprForm::Read(v),
    }
}

pub fn unary(alloc: Global, at: Place, op: UnaryOp, a: SynExpr) -> Result<SynExpr, AllocError>
    ensures { MakesTree expression_of (tree.ExpressionAt at (tree.Unary op (expression_of a))) result }
{
    let a = Boxed::new(alloc, a)?;
    Ok(SynExpr {
        at,
        form: SynExprForm::Unary(op, a),
    })
}

/// An operator between two operands, at the place of the left one.
pub fn binary(alloc: Global, op: BinaryOp, a: SynExpr, b: SynExpr) -> Result<SynExpr, AllocError>
    ensures { MakesTree expression_of (joined_of op (expression_of a) (expression_of b)) result }
{
    let at = a.at;
    let a = Boxed::new(alloc, a)?;
    let b = Boxed::new(alloc, b)?;
    Ok(SynExpr {
        at,
        form: SynExprForm::Binary(op, a, b),
    })
}

/// The same expression at another place.
pub fn moved(at: Place, e: SynExpr) -> SynExpr
    ensures { expression_of result ≡ moved_of at (expression_of e) }
{
    let (_, form) = e.parts();
    SynExpr { at, form }
}

pub fn index(e: SynExpr) -> SynSelector
    ensures { selector_of result ≡ tree.Index (expression_of e) }
{
    SynSelector::Index(e)
}

pub fn field(name: Name) -> SynSelector
    ensures { selector_of result ≡ tree.Field name }
{
    SynSelector::Field(name)
}

pub fn argument(value: SynExpr, width: Option<SynExpr>) -> SynArg
    ensures { argument_of result ≡ tree.Pass (expression_of value) (width_of width) }
{
    SynArg { value, width }
}
