//! The marks of expressions: each function puts those of a part last. `s` is the place where the statement begins.

ghost use Rattle.std.specs.Prelude.{◌∷◌, [], map};
ghost use Rattle.sp_tree.specs.CheckedOf.{expression_of, variable_of, selectors, selector_of, actuals, actual_of};
ghost use Rattle.sp_tree.specs.CheckedOf.{width_of};
ghost use Rattle.sp_lines.specs.Marks.{mark, standard_marks, value_marks, variable_marks, selectors_marks};
ghost use Rattle.sp_lines.specs.Marks.{actuals_marks, width_marks};
ghost use Rattle.sp_base.specs.Adds.{Adds};

use crate::mark::Mark;
use sp_base::{List, Place, Writer};
use sp_tree::{Actual, Expr, ExprForm, Selector, StandardFn, UnaryOp, Var};

/// One instruction more, of the part that begins at `part`.
pub fn put(out: &mut Writer<Mark>, statement: Place, part: Place)
    ensures { Adds out.old out.new (mark statement part ∷ []) }
{
    out.put(Mark { statement, part });
}

fn put_standard(out: &mut Writer<Mark>, s: Place, at: Place, f: StandardFn)
    ensures { Adds out.old out.new (standard_marks (mark s at) f) }
{
    match f {
        StandardFn::Ord | StandardFn::Eof | StandardFn::Eoln => {}
        StandardFn::Abs
        | StandardFn::Sqr
        | StandardFn::Odd
        | StandardFn::Chr
        | StandardFn::Succ
        | StandardFn::Pred => put(out, s, at),
    }
}

/// An expression: its operands in order, and then its operator.
#[cycle(value)]
pub fn put_value(out: &mut Writer<Mark>, s: Place, e: &Expr)
    ensures { Adds out.old out.new (value_marks s (expression_of e.now)) }
{
    match &e.form {
        ExprForm::Number(_) => put(out, s, e.at),
        ExprForm::Read(v) => {
            put_variable(out, s, v);
            put(out, s, e.at)
        }
        ExprForm::Unary(UnaryOp::Plus, a) => put_value(out, s, a.get()),
        ExprForm::Unary(UnaryOp::Minus | UnaryOp::Not, a) => {
            put_value(out, s, a.get());
            put(out, s, e.at)
        }
        ExprForm::Binary(_, a, b) => {
            put_value(out, s, a.get());
            put_value(out, s, b.get());
            put(out, s, e.at)
        }
        ExprForm::Call(_, name, args) => {
            put_actuals(out, s, args);
            put(out, s, *name)
        }
        ExprForm::Standard(f, args) => match args.items() {
            [] => put(out, s, e.at),
            [a, ..] => {
                put_value(out, s, a);
                put_standard(out, s, e.at, *f)
            }
        },
    }
}

/// The address of a variable with its selectors.
#[cycle(value)]
pub fn put_variable(out: &mut Writer<Mark>, s: Place, v: &Var)
    ensures { Adds out.old out.new (variable_marks s (variable_of v.now)) }
{
    put(out, s, v.at);
    put_selectors(out, s, v.at, &v.selectors)
}

#[cycle(value)]
fn put_selectors(out: &mut Writer<Mark>, s: Place, at: Place, ss: &List<Selector>)
    ensures { Adds out.old out.new (selectors_marks s at (selectors (map selector_of ss.now))) }
{
    for a in ss.items() {
        match a {
            Selector::Index(e) => {
                put_value(out, s, e);
                put(out, s, e.at)
            }
            Selector::Field(_) => put(out, s, at),
        }
    }
}

/// The parameters of a call, in order.
#[cycle(value)]
pub fn put_actuals(out: &mut Writer<Mark>, s: Place, args: &List<Actual>)
    ensures { Adds out.old out.new (actuals_marks s (actuals (map actual_of args.now))) }
{
    for a in args.items() {
        match a {
            Actual::Value(e) => put_value(out, s, e),
            Actual::Reference(v) => put_variable(out, s, v),
        }
    }
}

/// The width of an item that is written, if one is given.
pub fn put_width(out: &mut Writer<Mark>, s: Place, w: &Option<Expr>)
    ensures { Adds out.old out.new (width_marks s (width_of w.now)) }
{
    match w {
        None => {}
        Some(e) => put_value(out, s, e),
    }
}
