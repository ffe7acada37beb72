//! The code of expressions: each function puts the code of a part behind what stands there.

ghost use Rattle.std.specs.Prelude.{◌≡◌, map};
ghost use Rattle.sp_tree.specs.CheckedOf.{expression_of, expression_form_of, variable_of, selectors, selector_of};
ghost use Rattle.sp_tree.specs.CheckedOf.{actuals, actual_of, expressions, width_of};
ghost use Rattle.sp_tree.specs.PlainChecked as c;
ghost use Rattle.sp_tree.specs.Bare.{bare_expression, bare_form, bare_variable, bare_selectors, bare_actuals};
ghost use Rattle.sp_tree.specs.Bare.{bare_width};
ghost use Rattle.sp_code.specs.Scopes.{kind_at, selected_type, type_of};
ghost use Rattle.sp_code.specs.TreeCode.{unary_code, standard_code, value_code, form_code, var_code, selectors_code};
ghost use Rattle.sp_code.specs.TreeCode.{actuals_code, width_code};
ghost use Rattle.sp_base.specs.Adds.{Adds};
ghost use Rattle.sp_generate.specs.Views.{plain_program, scopes, call_code};

use crate::code_context::CodeContext;
use crate::levels::Scope;
use crate::single::{
    address, binary_instr, call_instr, element_type, field_instr, field_type, greatest,
    index_instr, input_instr, least, read_instr, variable_kind,
};
use sp_base::{Boxed, List, Writer};
use sp_code::Instr;
use sp_tree::{Actual, Expr, ExprForm, Selector, StandardFn, UnaryOp, Var};

fn put_unary(code: &mut Writer<Instr>, op: UnaryOp)
    ensures { Adds code.old code.new (unary_code op) }
{
    match op {
        UnaryOp::Plus => {}
        UnaryOp::Minus => code.put(Instr::Neg),
        UnaryOp::Not => code.put(Instr::Not),
    }
}

/// A standard function with a result of this type.
fn put_standard(g: &CodeContext, code: &mut Writer<Instr>, k: u32, f: StandardFn)
    ensures { Adds code.old code.new (standard_code f (kind_at (plain_program g.now) k)) }
{
    match f {
        StandardFn::Abs => code.put(Instr::Abs),
        StandardFn::Sqr => code.put(Instr::Sqr),
        StandardFn::Odd => code.put(Instr::Odd),
        StandardFn::Ord => {}
        StandardFn::Chr => code.put(Instr::Range { low: 0, high: 255 }),
        StandardFn::Succ => code.put(Instr::Succ(greatest(g, k))),
        StandardFn::Pred => code.put(Instr::Pred(least(g, k))),
        StandardFn::Eof | StandardFn::Eoln => {}
    }
}

/// An expression: its operands in order, and then its operator.
#[cycle(value)]
pub fn put_value(g: &CodeContext, sc: &[Scope], code: &mut Writer<Instr>, e: &Expr)
    ensures { Adds code.old code.new
        (value_code (plain_program g.now) (scopes sc.now) (bare_expression (expression_of e.now))) }
{
    put_form(g, sc, code, e.kind, &e.form)
}

#[cycle(value)]
fn put_boxed(g: &CodeContext, sc: &[Scope], code: &mut Writer<Instr>, e: &Boxed<Expr>)
    ensures { Adds code.old code.new
        (value_code (plain_program g.now) (scopes sc.now) (bare_expression (expression_of e.now))) }
{
    put_value(g, sc, code, e.get())
}

/// What an expression of this type is.
#[cycle(value)]
pub fn put_form(g: &CodeContext, sc: &[Scope], code: &mut Writer<Instr>, k: u32, form: &ExprForm)
    ensures { Adds code.old code.new
        (form_code (plain_program g.now) (scopes sc.now) k (bare_form (expression_form_of form.now))) }
{
    match form {
        ExprForm::Number(n) => code.put(Instr::Const(*n)),
        ExprForm::Read(v) => {
            put_var(g, sc, code, v);
            code.put(read_instr(g, k))
        }
        ExprForm::Unary(op, a) => {
            put_boxed(g, sc, code, a);
            put_unary(code, *op)
        }
        ExprForm::Binary(op, a, b) => {
            put_boxed(g, sc, code, a);
            put_boxed(g, sc, code, b);
            code.put(binary_instr(*op))
        }
        ExprForm::Call(f, _, args) => put_call(g, sc, code, *f, args),
        ExprForm::Standard(f, args) => put_applied(g, sc, code, k, *f, args),
    }
}

/// A call: its parameters in order, and then the call.
#[cycle(value)]
pub fn put_call(
    g: &CodeContext,
    sc: &[Scope],
    code: &mut Writer<Instr>,
    f: u32,
    args: &List<Actual>,
)
    ensures { Adds code.old code.new
        (call_code (plain_program g.now) (scopes sc.now) f (bare_actuals (actuals (map actual_of args.now)))) }
{
    put_actuals(g, sc, code, args);
    code.put_found(call_instr(g, sc, f));
}

/// A standard function of an operand, or of the input.
#[cycle(value)]
fn put_applied(
    g: &CodeContext,
    sc: &[Scope],
    code: &mut Writer<Instr>,
    k: u32,
    f: StandardFn,
    args: &List<Expr>,
)
    ensures { Adds code.old code.new (form_code (plain_program g.now) (scopes sc.now) k
        (bare_form (c.Standard f (expressions (map expression_of args.now))))) }
{
    match args.items() {
        [] => code.put(input_instr(f)),
        [a, ..] => {
            put_value(g, sc, code, a);
            put_standard(g, code, k, f)
        }
    }
}

/// The address of a variable with its selectors. The answer is its type.
#[cycle(value)]
pub fn put_var(g: &CodeContext, sc: &[Scope], code: &mut Writer<Instr>, v: &Var) -> u32
    ensures code { Adds code.old code.new
        (var_code (plain_program g.now) (scopes sc.now) (bare_variable (variable_of v.now))) }
    ensures kind { result ≡ type_of (plain_program g.now) (bare_variable (variable_of v.now)) }
{
    code.put_found(address(g, sc, v.variable));
    put_selectors(g, sc, code, variable_kind(g, v.variable), &v.selectors)
}

/// The selectors behind an address of this type. The answer is the type that they select.
#[cycle(value)]
fn put_selectors(
    g: &CodeContext,
    sc: &[Scope],
    code: &mut Writer<Instr>,
    k: u32,
    ss: &List<Selector>,
) -> u32
    ensures code { Adds code.old code.new (selectors_code (plain_program g.now) (scopes sc.now) k
        (bare_selectors (selectors (map selector_of ss.now)))) }
    ensures kind { result ≡ selected_type (plain_program g.now) k
        (bare_selectors (selectors (map selector_of ss.now))) }
{
    let mut k = k;
    for s in ss.items() {
        k = put_selector(g, sc, code, k, s);
    }
    k
}

#[cycle(value)]
fn put_selector(
    g: &CodeContext,
    sc: &[Scope],
    code: &mut Writer<Instr>,
    k: u32,
    s: &Selector,
) -> u32
    ensures code { Adds code.old code.new (selectors_code (plain_program g.now) (scopes sc.now) k
        (bare_selectors (c.Select (selector_of s.now) c.Whole))) }
    ensures kind { result ≡ selected_type (plain_program g.now) k
        (bare_selectors (c.Select (selector_of s.now) c.Whole)) }
{
    match s {
        Selector::Index(e) => {
            put_value(g, sc, code, e);
            code.put(index_instr(g, k));
            element_type(g, k)
        }
        Selector::Field(f) => {
            code.put_found(field_instr(g, k, *f));
            field_type(g, k, *f)
        }
    }
}

/// The parameters of a call, in order.
#[cycle(value)]
fn put_actuals(g: &CodeContext, sc: &[Scope], code: &mut Writer<Instr>, args: &List<Actual>)
    ensures { Adds code.old code.new
        (actuals_code (plain_program g.now) (scopes sc.now) (bare_actuals (actuals (map actual_of args.now)))) }
{
    for a in args.items() {
        put_actual(g, sc, code, a);
    }
}

#[cycle(value)]
fn put_actual(g: &CodeContext, sc: &[Scope], code: &mut Writer<Instr>, a: &Actual)
    ensures { Adds code.old code.new
        (actuals_code (plain_program g.now) (scopes sc.now) (bare_actuals (c.Pass (actual_of a.now) c.Nothing))) }
{
    match a {
        Actual::Value(e) => put_value(g, sc, code, e),
        Actual::Reference(v) => {
            put_var(g, sc, code, v);
        }
    }
}

/// The width of an item that is written, where one is given.
pub fn put_width(g: &CodeContext, sc: &[Scope], code: &mut Writer<Instr>, w: &Option<Expr>)
    ensures { Adds code.old code.new (width_code (plain_program g.now) (scopes sc.now) (bare_width (width_of w.now))) }
{
    match w {
        None => {}
        Some(e) => put_value(g, sc, code, e),
    }
}
