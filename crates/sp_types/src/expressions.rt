//! The pass over expressions, which consumes the tree and gives tree, type and first broken rule at once.

ghost use Rattle.std.specs.Prelude.{◌≡◌, map, None};
ghost use Rattle.sp_tree.specs.NamedOf.{expression_of, expression_form_of, variable_of, selector_of, argument_of};
ghost use Rattle.sp_tree.specs.NamedOf.{arguments, selectors};
ghost use Rattle.sp_tree.specs.PlainNamed.{Quoted};
ghost use Rattle.sp_tree.specs.Carried.{Keeps};
ghost use Rattle.sp_types.specs.Types.{Types};
ghost use Rattle.sp_types.specs.Tables.{Env};
ghost use Rattle.sp_tree.specs.CheckedOf as checked;
ghost use Rattle.sp_tree.specs.PlainChecked as c;
ghost use Rattle.sp_types.specs.Kinds.{expression_kind, form_kind, selected, selected_kind, selection, parameter_kind};
ghost use Rattle.sp_types.specs.Kinds.{argument_kind};
ghost use Rattle.sp_types.specs.Firsts.{expression_first, form_first, variable_first, selectors_first, selector_first};
ghost use Rattle.sp_types.specs.Firsts.{actuals_first, actual_first, standard_first, parameter_first};
ghost use Rattle.sp_types.specs.TypeFirst.{at_node};
ghost use Rattle.sp_types.specs.Expectations.{wanted_rule};
ghost use Rattle.sp_types.specs.CheckedTree.{checked_expression, checked_form, checked_variable, checked_selectors};
ghost use Rattle.sp_types.specs.CheckedTree.{checked_selector, checked_actuals, checked_actual, checked_arguments};
ghost use Rattle.sp_types.specs.CheckedTree.{checked_argument, actual_for_role};
ghost use Rattle.sp_types.specs.TypeWalk.{is_variable, place, formal, formals_behind, formal_role};

use crate::pass_results::Typed;
use crate::rules::{
    Wanted, actual_rule, binary_gives, element, index_rule, standard_gives, unary_takes,
    wanted_rule,
};
use crate::tables::{Tables, ordinal_kind};
use crate::values::{char_of, integer, number_or, or_zero, type_field};
use sp_base::{List, Place, Rule, Text};
use sp_tree::{
    Actual, BinaryOp, Expr, ExprForm, NamedArg, NamedExpr, NamedExprForm, NamedSelector, NamedVar,
    Role, Selector, StandardFn, UnaryOp, Var, Walk, breaks_if,
};
use std::alloc::Global;

/// An expression.
#[cycle(expression)]
pub fn type_expression(alloc: Global, t: &Tables, walk: &mut Walk, e: NamedExpr) -> Typed<Expr>
    ensures { Types checked.expression_of walk.old walk.new result (checked_expression t.now (expression_of e))
        (expression_kind t.now (expression_of e)) (expression_first t.now (expression_of e) walk.old.first) }
{
    let (at, form) = e.parts();
    let Typed { tree, kind } = type_form(alloc, t, walk, form, at);
    Typed {
        tree: Expr {
            at,
            kind: or_zero(kind),
            form: tree,
        },
        kind,
    }
}

/// An expression that has to be what its place asks for.
#[cycle(expression)]
pub fn type_wanted(
    alloc: Global,
    t: &Tables,
    walk: &mut Walk,
    e: NamedExpr,
    wanted: Wanted,
) -> Typed<Expr>
    ensures { Types checked.expression_of walk.old walk.new result (checked_expression t.now (expression_of e))
        (expression_kind t.now (expression_of e))
        (at_node (wanted_rule t.now wanted (place (expression_of e)) (expression_kind t.now (expression_of e)))
        (expression_first t.now (expression_of e) walk.old.first)) }
{
    let at = e.at;
    let e = type_expression(alloc, t, walk, e);
    walk.note(wanted_rule(t, wanted, at, e.kind));
    e
}

#[cycle(expression)]
fn type_form(
    alloc: Global,
    t: &Tables,
    walk: &mut Walk,
    form: NamedExprForm,
    at: Place,
) -> Typed<ExprForm>
    ensures { Types checked.expression_form_of walk.old walk.new result (checked_form t.now (expression_form_of form))
        (form_kind t.now (expression_form_of form)) (form_first t.now at (expression_form_of form) walk.old.first) }
{
    match form {
        NamedExprForm::Number(n) => Typed {
            tree: ExprForm::Number(walk.integer(integer(n))),
            kind: Some(0),
        },
        NamedExprForm::Quoted(text) => type_text(walk, &text, at),
        NamedExprForm::Constant(k) => {
            let o = t.constant(k);
            Typed {
                tree: ExprForm::Number(number_or(0, o)),
                kind: ordinal_kind(o),
            }
        }
        NamedExprForm::Read(v) => {
            let Typed { tree, kind } = type_variable(alloc, t, walk, v);
            Typed {
                tree: ExprForm::Read(tree),
                kind,
            }
        }
        NamedExprForm::Call(f, name, args) => Typed {
            tree: ExprForm::Call(f, name, type_actuals(alloc, t, walk, args, t.formals(f))),
            kind: t.answer_kind(f),
        },
        NamedExprForm::Standard(f, args) => {
            let Typed { tree, kind } = type_standard(alloc, t, walk, args, f);
            Typed {
                tree: ExprForm::Standard(f, tree),
                kind: standard_gives(t, f, kind),
            }
        }
        NamedExprForm::Unary(op, a) => {
            let a = type_wanted(alloc, t, walk, a.into_inner(), Wanted::Operand(op));
            Typed {
                tree: unary(alloc, walk, op, a.tree),
                kind: Some(unary_takes(op)),
            }
        }
        NamedExprForm::Binary(op, a, b) => {
            let a = a.into_inner();
            let b = b.into_inner();
            let left = type_wanted(alloc, t, walk, a, Wanted::Left(op));
            let right = type_wanted(alloc, t, walk, b, Wanted::Right(op, left.kind));
            Typed {
                tree: binary(alloc, walk, op, left.tree, right.tree),
                kind: Some(binary_gives(op)),
            }
        }
    }
}

/// An operand under its operator. Where there is no box for it, the walk is lost, and this is no answer.
fn unary(alloc: Global, walk: &mut Walk, op: UnaryOp, a: Expr) -> ExprForm
    ensures { Keeps walk.old walk.new walk.old.first
        (checked.expression_form_of result ≡ c.Unary op (checked.expression_of a)) }
{
    match walk.boxed(alloc, a) {
        Some(a) => ExprForm::Unary(op, a),
        None => ExprForm::Number(0),
    }
}

/// Both operands, in the same way.
fn binary(alloc: Global, walk: &mut Walk, op: BinaryOp, a: Expr, b: Expr) -> ExprForm
    ensures { Keeps walk.old walk.new walk.old.first
        (checked.expression_form_of result ≡ c.Binary op (checked.expression_of a) (checked.expression_of b)) }
{
    match walk.boxed(alloc, a) {
        Some(a) => match walk.boxed(alloc, b) {
            Some(b) => ExprForm::Binary(op, a, b),
            None => ExprForm::Unary(UnaryOp::Plus, a),
        },
        None => unary(alloc, walk, UnaryOp::Plus, b),
    }
}

fn type_text(walk: &mut Walk, text: &Text, at: Place) -> Typed<ExprForm>
    ensures { (env : Env) → Types checked.expression_form_of walk.old walk.new result
        (checked_form env (Quoted text.now)) (form_kind env (Quoted text.now))
        (form_first env at (Quoted text.now) walk.old.first) }
{
    let o = char_of(text);
    walk.note(breaks_if(Rule::Y14, at, text.bytes().len() != 1));
    Typed {
        tree: ExprForm::Number(number_or(0, o)),
        kind: ordinal_kind(o),
    }
}

/// A variable with its selectors.
#[cycle(expression)]
pub fn type_variable(alloc: Global, t: &Tables, walk: &mut Walk, v: NamedVar) -> Typed<Var>
    ensures { Types checked.variable_of walk.old walk.new result (checked_variable t.now (variable_of v))
        (selected t.now (variable_of v)) (variable_first t.now (variable_of v) walk.old.first) }
{
    let NamedVar {
        variable,
        at,
        selectors,
    } = v;
    let kind = t.variable_kind(variable);
    let Typed { tree, kind } = type_selectors(alloc, t, walk, selectors, at, kind);
    Typed {
        tree: Var {
            variable,
            at,
            selectors: tree,
        },
        kind,
    }
}

#[cycle(expression)]
fn type_selectors(
    alloc: Global,
    t: &Tables,
    walk: &mut Walk,
    xs: List<NamedSelector>,
    at: Place,
    kind: Option<u32>,
) -> Typed<List<Selector>>
    ensures { Types (map checked.selector_of) walk.old walk.new result
        (checked_selectors t.now kind (selectors (map selector_of xs)))
        (selected_kind t.now kind (selectors (map selector_of xs)))
        (selectors_first t.now at kind (selectors (map selector_of xs)) walk.old.first) }
{
    let mut out = Vec::new(alloc);
    let mut kind = kind;
    for x in xs.into_vec() {
        let y = type_selector(alloc, t, walk, x, at, kind);
        kind = y.kind;
        walk.push(&mut out, y.tree);
    }
    Typed {
        tree: List::of(out),
        kind,
    }
}

/// A selector of a variable that has a type so far.
#[cycle(expression)]
fn type_selector(
    alloc: Global,
    t: &Tables,
    walk: &mut Walk,
    s: NamedSelector,
    at: Place,
    kind: Option<u32>,
) -> Typed<Selector>
    ensures { Types checked.selector_of walk.old walk.new result (checked_selector t.now kind (selector_of s))
        (selection t.now kind (selector_of s)) (selector_first t.now at kind (selector_of s) walk.old.first) }
{
    match s {
        NamedSelector::Index(e) => {
            let e_at = e.at;
            let e = type_expression(alloc, t, walk, e);
            walk.note(index_rule(t, at, kind, e_at, e.kind));
            Typed {
                kind: element(t, kind, e.kind),
                tree: Selector::Index(e.tree),
            }
        }
        NamedSelector::Field(name) => {
            let Typed { tree, kind } = type_field(t, walk, at, kind, &name);
            Typed {
                tree: Selector::Field(tree),
                kind,
            }
        }
    }
}

fn formal(xs: &[u32]) -> Option<u32>
    ensures { result ≡ formal xs.now }
{
    match xs.first() {
        None => None,
        Some(x) => Some(*x),
    }
}

fn others(xs: &[u32]) -> &[u32]
    ensures { result.now ≡ formals_behind xs.now }
{
    match xs.split_first() {
        Some((_, rest)) => rest,
        None => xs,
    }
}

/// The actual parameters of a call, by its formals.
#[cycle(expression)]
pub fn type_actuals(
    alloc: Global,
    t: &Tables,
    walk: &mut Walk,
    xs: List<NamedArg>,
    formals: &[u32],
) -> List<Actual>
    ensures { Keeps walk.old walk.new
        (actuals_first t.now formals.now (arguments (map argument_of xs)) walk.old.first)
        (map checked.actual_of result ≡ checked_actuals t.now formals.now (arguments (map argument_of xs))) }
{
    let mut out = Vec::new(alloc);
    let mut formals = formals;
    for x in xs.into_vec() {
        let y = type_actual(alloc, t, walk, x, formal(formals));
        formals = others(formals);
        walk.push(&mut out, y);
    }
    List::of(out)
}

fn is_variable(e: &NamedExpr) -> bool
    ensures { result ≡ is_variable (expression_of e.now) }
{
    match &e.form {
        NamedExprForm::Read(v) => e.at == v.at,
        _ => false,
    }
}

/// An actual parameter, by the role of the formal.
fn passed(role: Option<Role>, e: Expr) -> Actual
    ensures { checked.actual_of result ≡ actual_for_role role (checked.expression_of e) }
{
    match role {
        Some(Role::Reference) => {
            let (at, kind, form) = e.parts();
            match form {
                ExprForm::Read(v) => Actual::Reference(v),
                form => Actual::Value(Expr { at, kind, form }),
            }
        }
        _ => Actual::Value(e),
    }
}

#[cycle(expression)]
fn type_actual(alloc: Global, t: &Tables, walk: &mut Walk, a: NamedArg, x: Option<u32>) -> Actual
    ensures { Keeps walk.old walk.new (actual_first t.now x (argument_of a) walk.old.first)
        (checked.actual_of result ≡ checked_actual t.now (formal_role t.now x) (argument_of a)) }
{
    let NamedArg { value, width: _ } = a;
    let at = value.at;
    let written = is_variable(&value);
    let role = t.formal_role(x);
    let e = type_expression(alloc, t, walk, value);
    walk.note(actual_rule(role, at, written, t.formal_kind(x), e.kind));
    passed(role, e.tree)
}

/// The parameters of a standard function, and the type of its parameter.
#[cycle(expression)]
fn type_standard(
    alloc: Global,
    t: &Tables,
    walk: &mut Walk,
    xs: List<NamedArg>,
    f: StandardFn,
) -> Typed<List<Expr>>
    ensures { Types (map checked.expression_of) walk.old walk.new result
        (checked_arguments t.now (arguments (map argument_of xs)))
        (parameter_kind t.now None (arguments (map argument_of xs)))
        (standard_first t.now f (arguments (map argument_of xs)) walk.old.first) }
{
    let mut out = Vec::new(alloc);
    let mut kind = None;
    for x in xs.into_vec() {
        let y = type_parameter(alloc, t, walk, x, f);
        kind = y.kind;
        walk.push(&mut out, y.tree);
    }
    Typed {
        tree: List::of(out),
        kind,
    }
}

#[cycle(expression)]
fn type_parameter(
    alloc: Global,
    t: &Tables,
    walk: &mut Walk,
    a: NamedArg,
    f: StandardFn,
) -> Typed<Expr>
    ensures { Types checked.expression_of walk.old walk.new result (checked_argument t.now (argument_of a))
        (argument_kind t.now (argument_of a)) (parameter_first t.now f (argument_of a) walk.old.first) }
{
    let NamedArg { value, width: _ } = a;
    type_wanted(alloc, t, walk, value, Wanted::Parameter(f))
}
