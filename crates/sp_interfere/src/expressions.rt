//! The way through expressions, variables and arguments, to the rules at the calls in them. Each function takes the
//! first broken rule that is known so far, and gives the first of that and of what its part breaks.

ghost use Rattle.std.specs.Prelude.{◌≡◌, ◌∷◌, [], map};
ghost use Rattle.sp_tree.specs.CheckedOf.{expression_of, expression_form_of, variable_of, selector_of, actual_of};
ghost use Rattle.sp_tree.specs.CheckedOf.{expressions, selectors, actuals};
ghost use Rattle.sp_interfere.specs.BlockRules.{rules_in};
ghost use Rattle.sp_interfere.specs.Walk.{expression_first, form_first, parameter_first, variable_first};
ghost use Rattle.sp_interfere.specs.Walk.{selectors_first, actuals_first};

use crate::block_context::BlockContext;
use crate::sites::call_first;
use sp_base::{Boxed, List};
use sp_tree::{Actual, Expr, ExprForm, FirstRefusal, Selector, Var};

/// An expression in the block.
#[cycle(expression)]
pub fn expression_first(e: &Expr, block: &BlockContext, first: FirstRefusal) -> FirstRefusal
    ensures { result ≡ expression_first (rules_in block.now) (expression_of e.now)
        first }
{
    form_first(&e.form, block, first)
}

/// An operand.
#[cycle(expression)]
fn boxed_first(e: &Boxed<Expr>, block: &BlockContext, first: FirstRefusal) -> FirstRefusal
    ensures { result ≡ expression_first (rules_in block.now) (expression_of e.now)
        first }
{
    expression_first(e.get(), block, first)
}

/// An expression by its form.
#[cycle(expression)]
fn form_first(form: &ExprForm, block: &BlockContext, first: FirstRefusal) -> FirstRefusal
    ensures { result ≡ form_first (rules_in block.now) (expression_form_of form.now)
        first }
{
    match form {
        ExprForm::Number(_) => first,
        ExprForm::Read(v) => variable_first(v, block, first),
        ExprForm::Unary(_, a) => boxed_first(a, block, first),
        ExprForm::Binary(_, a, b) => {
            let first = boxed_first(a, block, first);
            boxed_first(b, block, first)
        }
        ExprForm::Call(f, at, args) => {
            let first = call_first(*f, *at, args, block, first);
            actuals_first(args, block, first)
        }
        ExprForm::Standard(_, args) => parameter_first(args.items(), block, first),
    }
}

/// The one argument of a standard function, if there is one.
#[cycle(expression)]
fn parameter_first(args: &[Expr], block: &BlockContext, first: FirstRefusal) -> FirstRefusal
    ensures { result ≡ parameter_first (rules_in block.now)
        (expressions (map expression_of args.now)) first }
{
    match args {
        [] => first,
        [a, ..] => expression_first(a, block, first),
    }
}

/// A variable, with the expressions that select a part of it.
#[cycle(expression)]
pub fn variable_first(v: &Var, block: &BlockContext, first: FirstRefusal) -> FirstRefusal
    ensures { result ≡ variable_first (rules_in block.now) (variable_of v.now) first }
{
    let mut first = first;
    for x in v.selectors.items() {
        first = selector_first(x, block, first);
    }
    first
}

/// An index or a field that selects a part of a variable.
#[cycle(expression)]
fn selector_first(x: &Selector, block: &BlockContext, first: FirstRefusal) -> FirstRefusal
    ensures { result ≡ selectors_first (rules_in block.now)
        (selectors (map selector_of (x.now ∷ []))) first }
{
    match x {
        Selector::Index(e) => expression_first(e, block, first),
        Selector::Field(_) => first,
    }
}

/// The arguments of a call, one after the other.
#[cycle(expression)]
pub fn actuals_first(args: &List<Actual>, block: &BlockContext, first: FirstRefusal) -> FirstRefusal
    ensures { result ≡ actuals_first (rules_in block.now)
        (actuals (map actual_of args.now)) first }
{
    let mut first = first;
    for x in args.items() {
        first = actual_first(x, block, first);
    }
    first
}

/// An argument of a call.
#[cycle(expression)]
fn actual_first(x: &Actual, block: &BlockContext, first: FirstRefusal) -> FirstRefusal
    ensures { result ≡ actuals_first (rules_in block.now)
        (actuals (map actual_of (x.now ∷ []))) first }
{
    match x {
        Actual::Value(e) => expression_first(e, block, first),
        Actual::Reference(v) => variable_first(v, block, first),
    }
}
