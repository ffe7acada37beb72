//! The walk through expressions, with numbers for names.

ghost use Rattle.std.specs.Prelude.{◌≡◌, map, option_map};
ghost use Rattle.std.specs.Option.{option_copied};
ghost use Rattle.sp_scope.specs.Walks.{width_of};
ghost use Rattle.sp_tree.specs.Carried.{Keeps};
ghost use Rattle.sp_tree.specs.PhaseResults.{earlier_refusal};
ghost use Rattle.sp_tree.specs.NameRules.{broken_rule, Operand};
ghost use Rattle.sp_tree.specs.Scopes.{find, Env};
ghost use Rattle.sp_tree.specs.NameWalk.{is_whole};
ghost use Rattle.sp_tree.specs.NamedTree.{named_expression, named_form, named_operand, named_selectors, named_selector};
ghost use Rattle.sp_tree.specs.NamedTree.{named_arguments, named_argument, named_width, operand_named, function_named};
ghost use Rattle.sp_tree.specs.NamedTree.{variable_number, variable_read};
ghost use Rattle.sp_tree.specs.NamedOf as named;
ghost use Rattle.sp_tree.specs.PlainNamed as n;
ghost use Rattle.sp_tree.specs.SyntaxOf.{expression_of, expression_form_of, variable_of, selector_of, selectors};
ghost use Rattle.sp_tree.specs.SyntaxOf.{argument_of, arguments, width};
ghost use Rattle.sp_scope.specs.Firsts.{expression_first, form_first, operand_first, selector_first, selectors_first};
ghost use Rattle.sp_scope.specs.Firsts.{arguments_first, argument_first, passed_first, passed_name_first, width_first};
ghost use Rattle.sp_tree.specs.PlainSyntax.{ExpressionAt, Read, Apply};
ghost use Rattle.sp_tree.specs.declared.syntax.Name.{Name};

use crate::calls::{count, is_whole, next_passing, others, references_of, rest_of};
use crate::rules::{
    bare_rule, function_rule, needs_variable, operand_rule, target_rule, width_rule,
};
use crate::scopes::Scopes;
use sp_base::{List, Place};
use sp_tree::{
    BinaryOp, FirstRefusal, Meaning, Name, NamedArg, NamedExpr, NamedExprForm, NamedSelector,
    NamedVar, Passing, SynArg, SynExpr, SynExprForm, SynSelector, SynVar, UnaryOp, Walk,
    earlier_refusal,
};
use std::alloc::Global;

/// An expression.
#[cycle(expression)]
pub fn name_expression(alloc: Global, scopes: &Scopes, walk: &mut Walk, e: SynExpr) -> NamedExpr
    ensures { Keeps walk.old walk.new (expression_first scopes.now (expression_of e) walk.old.first)
        (named.expression_of result ≡ named_expression scopes.now (expression_of e)) }
{
    let (at, form) = e.parts();
    let form = name_form(alloc, scopes, walk, form);
    NamedExpr { at, form }
}

#[cycle(expression)]
fn name_form(alloc: Global, scopes: &Scopes, walk: &mut Walk, form: SynExprForm) -> NamedExprForm
    ensures { Keeps walk.old walk.new (form_first scopes.now (expression_form_of form) walk.old.first)
        (named.expression_form_of result ≡ named_form scopes.now (expression_form_of form)) }
{
    match form {
        SynExprForm::Number(n) => NamedExprForm::Number(n),
        SynExprForm::Quoted(t) => NamedExprForm::Quoted(t),
        SynExprForm::Read(v) => name_operand(alloc, scopes, walk, v),
        SynExprForm::Call(f, args) => name_function(alloc, scopes, walk, f, args),
        SynExprForm::Unary(op, a) => {
            let a = name_expression(alloc, scopes, walk, a.into_inner());
            unary_form(alloc, walk, op, a)
        }
        SynExprForm::Binary(op, a, b) => {
            let a = name_expression(alloc, scopes, walk, a.into_inner());
            let b = name_expression(alloc, scopes, walk, b.into_inner());
            binary_form(alloc, walk, op, a, b)
        }
    }
}

/// An operand under its operator. Where there is no box for it, the walk is lost, and this is no answer.
fn unary_form(alloc: Global, walk: &mut Walk, op: UnaryOp, a: NamedExpr) -> NamedExprForm
    ensures { Keeps walk.old walk.new walk.old.first
        (named.expression_form_of result ≡ n.Unary op (named.expression_of a)) }
{
    match walk.boxed(alloc, a) {
        Some(a) => NamedExprForm::Unary(op, a),
        None => NamedExprForm::Number(0),
    }
}

/// Both operands, in the same way.
fn binary_form(
    alloc: Global,
    walk: &mut Walk,
    op: BinaryOp,
    a: NamedExpr,
    b: NamedExpr,
) -> NamedExprForm
    ensures { Keeps walk.old walk.new walk.old.first
        (named.expression_form_of result ≡ n.Binary op (named.expression_of a) (named.expression_of b)) }
{
    match walk.boxed(alloc, a) {
        Some(a) => match walk.boxed(alloc, b) {
            Some(b) => NamedExprForm::Binary(op, a, b),
            None => NamedExprForm::Unary(UnaryOp::Plus, a),
        },
        None => unary_form(alloc, walk, UnaryOp::Plus, b),
    }
}

#[cycle(expression)]
fn name_operand(alloc: Global, scopes: &Scopes, walk: &mut Walk, v: SynVar) -> NamedExprForm
    ensures { Keeps walk.old walk.new (operand_first scopes.now (variable_of v) walk.old.first)
        (named.expression_form_of result ≡ named_operand scopes.now (variable_of v)) }
{
    let SynVar { name, selectors } = v;
    let m = scopes.find(&name.text);
    let whole = is_whole(selectors.items());
    walk.first = operand_name(name.at, whole, m, walk.first);
    let selectors = name_selectors(alloc, scopes, walk, selectors);
    operand_form(alloc, m, &name, selectors)
}

/// The first broken rule up to the end of the name of an operand, which stands for `m`.
fn operand_name(at: Place, whole: bool, m: Option<&Meaning>, first: FirstRefusal) -> FirstRefusal
    ensures { (env : Env) (x : Name) → x.at ≡ at → option_copied m.entry ≡ find env x.text
        → result ≡ earlier_refusal first (broken_rule env (Operand x whole)) }
{
    earlier_refusal(first, operand_rule(at, whole, m))
}

fn operand_form(
    alloc: Global,
    m: Option<&Meaning>,
    x: &Name,
    xs: List<NamedSelector>,
) -> NamedExprForm
    ensures { named.expression_form_of result
        ≡ operand_named (option_copied m.entry) x.now (named.selectors (map named.selector_of xs)) }
{
    match m {
        Some(Meaning::Constant(k)) => NamedExprForm::Constant(*k),
        Some(Meaning::Function { block, .. }) => {
            NamedExprForm::Call(*block, x.at, List::new(alloc))
        }
        Some(Meaning::StandardFunction(f)) => NamedExprForm::Standard(*f, List::new(alloc)),
        m => variable_read(variable_number(m), x, xs),
    }
}

fn variable_read(number: u32, x: &Name, xs: List<NamedSelector>) -> NamedExprForm
    ensures { named.expression_form_of result
        ≡ variable_read number x.now (named.selectors (map named.selector_of xs)) }
{
    NamedExprForm::Read(NamedVar {
        variable: number,
        at: x.at,
        selectors: xs,
    })
}

/// The number of a variable, and 0 where the name is none.
pub fn variable_number(m: Option<&Meaning>) -> u32
    ensures { result ≡ variable_number (option_copied m.entry) }
{
    match m {
        Some(Meaning::Variable { number, .. }) => *number,
        _ => 0,
    }
}

#[cycle(expression)]
fn name_function(
    alloc: Global,
    scopes: &Scopes,
    walk: &mut Walk,
    f: Name,
    args: List<SynArg>,
) -> NamedExprForm
    ensures { Keeps walk.old walk.new
        (form_first scopes.now (Apply f (arguments (map argument_of args))) walk.old.first)
        (named.expression_form_of result ≡ named_form scopes.now (Apply f (arguments (map argument_of args)))) }
{
    let m = scopes.find(&f.text);
    walk.note(function_rule(f.at, count(args.items()), m));
    let args = name_arguments(alloc, scopes, walk, args, references_of(m), rest_of(m));
    function_form(m, f.at, args)
}

fn function_form(m: Option<&Meaning>, at: Place, args: List<NamedArg>) -> NamedExprForm
    ensures { (f : Name) → f.at ≡ at → named.expression_form_of result
        ≡ function_named (option_copied m.entry) f (named.arguments (map named.argument_of args)) }
{
    match m {
        Some(Meaning::Function { block, .. }) => NamedExprForm::Call(*block, at, args),
        Some(Meaning::StandardFunction(f)) => NamedExprForm::Standard(*f, args),
        _ => NamedExprForm::Call(0, at, args),
    }
}

/// The arguments of a call, passed by the flags of its parameters and then as the rest.
#[cycle(expression)]
pub fn name_arguments(
    alloc: Global,
    scopes: &Scopes,
    walk: &mut Walk,
    xs: List<SynArg>,
    flags: &[bool],
    rest: Passing,
) -> List<NamedArg>
    ensures { Keeps walk.old walk.new
        (arguments_first scopes.now flags.now rest (arguments (map argument_of xs)) walk.old.first)
        (map named.argument_of result ≡ named_arguments scopes.now (arguments (map argument_of xs))) }
{
    let mut out = Vec::new(alloc);
    let mut flags = flags;
    for x in xs.into_vec() {
        let y = name_argument(alloc, scopes, walk, x, next_passing(flags, rest));
        walk.push(&mut out, y);
        flags = others(flags);
    }
    List::of(out)
}

#[cycle(expression)]
fn name_argument(alloc: Global, scopes: &Scopes, walk: &mut Walk, a: SynArg, p: Passing) -> NamedArg
    ensures { Keeps walk.old walk.new (argument_first scopes.now p (argument_of a) walk.old.first)
        (named.argument_of result ≡ named_argument scopes.now (argument_of a)) }
{
    let SynArg { value, width } = a;
    let width = name_width(alloc, scopes, walk, width, value.at, p);
    let value = name_passed(alloc, scopes, walk, value, p);
    NamedArg { value, width }
}

#[cycle(expression)]
fn name_width(
    alloc: Global,
    scopes: &Scopes,
    walk: &mut Walk,
    w: Option<SynExpr>,
    at: Place,
    p: Passing,
) -> Option<NamedExpr>
    ensures { Keeps walk.old walk.new
        (width_first scopes.now p at (width (option_map expression_of w)) walk.old.first)
        (width_of result ≡ named_width scopes.now (width (option_map expression_of w))) }
{
    match w {
        None => None,
        Some(e) => {
            walk.note(width_rule(at, p));
            Some(name_expression(alloc, scopes, walk, e))
        }
    }
}

#[cycle(expression)]
fn name_passed(alloc: Global, scopes: &Scopes, walk: &mut Walk, e: SynExpr, p: Passing) -> NamedExpr
    ensures { Keeps walk.old walk.new (passed_first scopes.now p (expression_of e) walk.old.first)
        (named.expression_of result ≡ named_expression scopes.now (expression_of e)) }
{
    let (at, form) = e.parts();
    let form = name_passed_form(alloc, scopes, walk, form, at, p);
    NamedExpr { at, form }
}

#[cycle(expression)]
fn name_passed_form(
    alloc: Global,
    scopes: &Scopes,
    walk: &mut Walk,
    form: SynExprForm,
    at: Place,
    p: Passing,
) -> NamedExprForm
    ensures { Keeps walk.old walk.new
        (passed_first scopes.now p (ExpressionAt at (expression_form_of form)) walk.old.first)
        (named.expression_form_of result ≡ named_form scopes.now (expression_form_of form)) }
{
    match form {
        SynExprForm::Read(v) => name_passed_variable(alloc, scopes, walk, v, at, p),
        form => {
            walk.note(bare_rule(at, p));
            name_form(alloc, scopes, walk, form)
        }
    }
}

#[cycle(expression)]
fn name_passed_variable(
    alloc: Global,
    scopes: &Scopes,
    walk: &mut Walk,
    v: SynVar,
    at: Place,
    p: Passing,
) -> NamedExprForm
    ensures { Keeps walk.old walk.new
        (passed_first scopes.now p (ExpressionAt at (Read (variable_of v))) walk.old.first)
        (named.expression_form_of result ≡ named_operand scopes.now (variable_of v)) }
{
    let SynVar { name, selectors } = v;
    let m = scopes.find(&name.text);
    let whole = is_whole(selectors.items());
    walk.first = passed_name(p, at, name.at, whole, m, walk.first);
    let selectors = name_selectors(alloc, scopes, walk, selectors);
    operand_form(alloc, m, &name, selectors)
}

/// The first broken rule up to the end of the name of an argument, which stands for `m`.
fn passed_name(
    p: Passing,
    at: Place,
    name_at: Place,
    whole: bool,
    m: Option<&Meaning>,
    first: FirstRefusal,
) -> FirstRefusal
    ensures { (env : Env) (x : Name) → x.at ≡ name_at → option_copied m.entry ≡ find env x.text
        → result ≡ passed_name_first env p at x whole first }
{
    if needs_variable(p) && at == name_at {
        earlier_refusal(first, target_rule(name_at, m))
    } else {
        let first = earlier_refusal(first, bare_rule(at, p));
        earlier_refusal(first, operand_rule(name_at, whole, m))
    }
}

#[cycle(expression)]
fn name_selector(alloc: Global, scopes: &Scopes, walk: &mut Walk, s: SynSelector) -> NamedSelector
    ensures { Keeps walk.old walk.new (selector_first scopes.now (selector_of s) walk.old.first)
        (named.selector_of result ≡ named_selector scopes.now (selector_of s)) }
{
    match s {
        SynSelector::Index(e) => { NamedSelector::Index(name_expression(alloc, scopes, walk, e)) }
        SynSelector::Field(name) => NamedSelector::Field(name.text),
    }
}

/// The selectors of a variable.
#[cycle(expression)]
pub fn name_selectors(
    alloc: Global,
    scopes: &Scopes,
    walk: &mut Walk,
    xs: List<SynSelector>,
) -> List<NamedSelector>
    ensures { Keeps walk.old walk.new (selectors_first scopes.now (selectors (map selector_of xs)) walk.old.first)
        (map named.selector_of result ≡ named_selectors scopes.now (selectors (map selector_of xs))) }
{
    let mut out = Vec::new(alloc);
    for x in xs.into_vec() {
        let y = name_selector(alloc, scopes, walk, x);
        walk.push(&mut out, y);
    }
    List::of(out)
}
