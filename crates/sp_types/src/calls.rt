//! The arguments of `read`, `write` and `open`, as the single statements that they stand for.

ghost use Rattle.std.specs.Prelude.{◌≡◌, map, option_map};
ghost use Rattle.sp_tree.specs.NamedOf.{expression_of, argument_of, arguments, width};
ghost use Rattle.sp_tree.specs.Carried.{Keeps};
ghost use Rattle.sp_tree.specs.CheckedOf as checked;
ghost use Rattle.sp_tree.specs.PlainChecked as c;
ghost use Rattle.sp_types.specs.Kinds.{expression_kind};
ghost use Rattle.sp_types.specs.Tables.{char_of};
ghost use Rattle.sp_types.specs.TypeFirst.{at_node};
ghost use Rattle.sp_types.specs.TypeRules.{write_rule};
ghost use Rattle.sp_types.specs.TypeWalk.{place};
ghost use Rattle.sp_types.specs.Firsts.{expression_first, written_first, width_first, write_first, each_first};
ghost use Rattle.sp_types.specs.CheckedTree.{checked_expression, target, checked_width};
ghost use Rattle.sp_types.specs.CheckedTree.{write_text_form, write_value_form, write_form};
ghost use Rattle.sp_types.specs.Expectations.{part_form, part_forms, part_first};

use crate::expressions::{type_expression, type_wanted};
use crate::rules::{Wanted, width_rule};
use crate::tables::Tables;
use crate::values::char_of;
use sp_base::{List, Place, Text};
use sp_tree::{Expr, ExprForm, Form, NamedArg, NamedExpr, NamedExprForm, Var, Walk};
use std::alloc::Global;

/// The variable that an argument is.
pub fn target(alloc: Global, e: Expr) -> Var
    ensures { checked.variable_of result ≡ target (checked.expression_of e) }
{
    let (at, _, form) = e.parts();
    match form {
        ExprForm::Read(v) => v,
        _ => Var {
            variable: 0,
            at,
            selectors: List::new(alloc),
        },
    }
}

fn type_width_of(
    alloc: Global,
    t: &Tables,
    walk: &mut Walk,
    w: Option<NamedExpr>,
    at: Place,
) -> Option<Expr>
    ensures { Keeps walk.old walk.new (width_first t.now at (width (option_map expression_of w)) walk.old.first)
        (checked.width_of result ≡ checked_width t.now (width (option_map expression_of w))) }
{
    match w {
        None => None,
        Some(e) => {
            let e = type_expression(alloc, t, walk, e);
            walk.note(width_rule(at, e.kind));
            Some(e.tree)
        }
    }
}

fn written_text(at: Place, text: Text, w: Option<Expr>) -> Form
    ensures { checked.statement_form_of result ≡ write_text_form at text (char_of text) (checked.width_of w) }
{
    match char_of(&text) {
        None => Form::WriteText(text, w),
        Some(o) => Form::WriteValue(
            Expr {
                at,
                kind: o.kind,
                form: ExprForm::Number(o.number),
            },
            w,
        ),
    }
}

fn written_value(alloc: Global, t: &Tables, walk: &mut Walk, e: NamedExpr, w: Option<Expr>) -> Form
    ensures { Keeps walk.old walk.new
        (at_node (write_rule (place (expression_of e)) (expression_kind t.now (expression_of e)))
        (expression_first t.now (expression_of e) walk.old.first))
        (checked.statement_form_of result
        ≡ c.WriteValue (checked_expression t.now (expression_of e)) (checked.width_of w)) }
{
    let e = type_wanted(alloc, t, walk, e, Wanted::Written);
    Form::WriteValue(e.tree, w)
}

fn type_written(alloc: Global, t: &Tables, walk: &mut Walk, e: NamedExpr, w: Option<Expr>) -> Form
    ensures { Keeps walk.old walk.new (written_first t.now (expression_of e) walk.old.first)
        (checked.statement_form_of result ≡ write_value_form t.now (expression_of e) (checked.width_of w)) }
{
    let (at, form) = e.parts();
    match form {
        NamedExprForm::Quoted(text) => written_text(at, text, w),
        form => written_value(alloc, t, walk, NamedExpr { at, form }, w),
    }
}

fn type_write(alloc: Global, t: &Tables, walk: &mut Walk, a: NamedArg) -> Form
    ensures { Keeps walk.old walk.new (write_first t.now (argument_of a) walk.old.first)
        (checked.statement_form_of result ≡ write_form t.now (argument_of a)) }
{
    let NamedArg { value, width } = a;
    let at = value.at;
    let w = type_width_of(alloc, t, walk, width, at);
    type_written(alloc, t, walk, value, w)
}

/// What a call does with each of its arguments.
#[derive(Clone, Copy)]
pub enum Part {
    Read,
    Write,
    Open,
}

fn type_part(alloc: Global, t: &Tables, walk: &mut Walk, part: Part, a: NamedArg) -> Form
    ensures { Keeps walk.old walk.new (part_first t.now part (argument_of a) walk.old.first)
        (checked.statement_form_of result ≡ part_form t.now part (argument_of a)) }
{
    match part {
        Part::Read => {
            let NamedArg { value, width: _ } = a;
            let e = type_wanted(alloc, t, walk, value, Wanted::Read);
            Form::ReadValue(target(alloc, e.tree))
        }
        Part::Write => type_write(alloc, t, walk, a),
        Part::Open => {
            let NamedArg { value, width: _ } = a;
            let e = type_wanted(alloc, t, walk, value, Wanted::Channel);
            Form::Open(target(alloc, e.tree))
        }
    }
}

/// What is read, written or opened.
pub fn type_parts(
    alloc: Global,
    t: &Tables,
    walk: &mut Walk,
    part: Part,
    xs: List<NamedArg>,
) -> List<Form>
    ensures { Keeps walk.old walk.new
        (each_first t.now (part_first t.now part) (arguments (map argument_of xs)) walk.old.first)
        (map checked.statement_form_of result ≡ part_forms t.now part (arguments (map argument_of xs))) }
{
    let mut out = Vec::new(alloc);
    for x in xs.into_vec() {
        let y = type_part(alloc, t, walk, part, x);
        walk.push(&mut out, y);
    }
    List::of(out)
}
