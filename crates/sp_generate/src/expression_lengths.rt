//! The lengths of expressions. Each function adds a part's length to what is given.

ghost use Rattle.std.specs.Prelude.{◌≡◌, ◌+◌};
ghost use Rattle.sp_tree.specs.PlainOf.{expr_of, form_of, var_of, selector_of, actuals_of, actual_of, width_of};
ghost use Rattle.sp_tree.specs.PlainOf.{standard_of, selectors_of};
ghost use Rattle.sp_tree.specs.Plain.{Pass, Nothing, Select, Whole};
ghost use Rattle.sp_code.specs.Lengths.{unary_length, standard_length, value_length, form_length, var_length};
ghost use Rattle.sp_code.specs.Lengths.{selectors_length, actuals_length, width_length};
ghost use Rattle.sp_generate.specs.CappedLength.{capped_length};

use crate::length_sum::sum;
use sp_base::List;
use sp_tree::{Actual, Expr, ExprForm, Selector, StandardFn, UnaryOp, Var};

fn unary_length(op: UnaryOp) -> u32
    ensures { result ≡ unary_length op }
{
    match op {
        UnaryOp::Plus => 0,
        UnaryOp::Minus | UnaryOp::Not => 1,
    }
}

fn standard_length(f: StandardFn) -> u32
    ensures { result ≡ standard_length f }
{
    match f {
        StandardFn::Ord | StandardFn::Eof | StandardFn::Eoln => 0,
        StandardFn::Abs
        | StandardFn::Sqr
        | StandardFn::Odd
        | StandardFn::Chr
        | StandardFn::Succ
        | StandardFn::Pred => 1,
    }
}

#[cycle(length)]
#[tactic(auto, using(crate::proofs::LengthSums::summed))]
pub fn value_length(e: &Expr, q: u32) -> u32
    ensures { result ≡ capped_length (q + value_length (expr_of e.now)) }
{
    form_length(&e.form, q)
}

#[cycle(length)]
#[tactic(auto, using(crate::proofs::LengthSums::summed))]
pub fn form_length(form: &ExprForm, q: u32) -> u32
    ensures { result ≡ capped_length (q + form_length (form_of form.now)) }
{
    match form {
        ExprForm::Number(_) => sum(q, 1),
        ExprForm::Read(v) => {
            let q = var_length(v, q);
            sum(q, 1)
        }
        ExprForm::Unary(op, a) => {
            let q = value_length(a.get(), q);
            sum(q, unary_length(*op))
        }
        ExprForm::Binary(_, a, b) => {
            let q = value_length(a.get(), q);
            let q = value_length(b.get(), q);
            sum(q, 1)
        }
        ExprForm::Call(_, _, args) => {
            let q = actuals_length(args, q);
            sum(q, 1)
        }
        ExprForm::Standard(f, args) => applied_length(*f, args, q),
    }
}

/// A standard function of an operand, or of the input.
#[cycle(length)]
#[tactic(auto, using(crate::proofs::LengthSums::summed))]
fn applied_length(f: StandardFn, args: &List<Expr>, q: u32) -> u32
    ensures { result ≡ capped_length (q + form_length (standard_of f args.now)) }
{
    match args.items() {
        [] => sum(q, 1),
        [a, ..] => {
            let q = value_length(a, q);
            sum(q, standard_length(f))
        }
    }
}

/// The address of a variable.
#[cycle(length)]
#[tactic(auto, using(crate::proofs::LengthSums::summed))]
pub fn var_length(v: &Var, q: u32) -> u32
    ensures { result ≡ capped_length (q + var_length (var_of v.now)) }
{
    let q = selectors_length(&v.selectors, q);
    sum(q, 1)
}

#[cycle(length)]
#[tactic(auto, using(crate::proofs::LengthSums::selected))]
fn selectors_length(ss: &List<Selector>, q: u32) -> u32
    ensures { result ≡ capped_length (q + selectors_length (selectors_of ss.now)) }
{
    let mut q = q;
    for s in ss.items() {
        q = selector_length(s, q);
    }
    q
}

#[cycle(length)]
#[tactic(auto, using(crate::proofs::LengthSums::summed))]
fn selector_length(s: &Selector, q: u32) -> u32
    ensures { result ≡ capped_length (q + selectors_length (Select (selector_of s.now) Whole)) }
{
    match s {
        Selector::Index(e) => {
            let q = value_length(e, q);
            sum(q, 1)
        }
        Selector::Field(_) => sum(q, 1),
    }
}

#[cycle(length)]
#[tactic(auto, using(crate::proofs::LengthSums::passed))]
pub fn actuals_length(args: &List<Actual>, q: u32) -> u32
    ensures { result ≡ capped_length (q + actuals_length (actuals_of args.now)) }
{
    let mut q = q;
    for a in args.items() {
        q = actual_length(a, q);
    }
    q
}

#[cycle(length)]
#[tactic(auto, using(crate::proofs::LengthSums::summed))]
fn actual_length(a: &Actual, q: u32) -> u32
    ensures { result ≡ capped_length (q + actuals_length (Pass (actual_of a.now) Nothing)) }
{
    match a {
        Actual::Value(e) => value_length(e, q),
        Actual::Reference(v) => var_length(v, q),
    }
}

#[tactic(auto, using(crate::proofs::LengthSums::summed))]
pub fn width_length(w: &Option<Expr>, q: u32) -> u32
    ensures { result ≡ capped_length (q + width_length (width_of w.now)) }
{
    match w {
        None => q,
        Some(e) => value_length(e, q),
    }
}
