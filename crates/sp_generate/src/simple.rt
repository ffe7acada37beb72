//! The code of statements that have no statement inside.

ghost use Rattle.std.specs.Prelude.{◌++◌, ◌∷◌, [], map, if◌then◌else◌};
ghost use Rattle.sp_tree.specs.CheckedOf.{expression_of, expression_form_of, variable_of, width_of};
ghost use Rattle.sp_tree.specs.Bare.{bare_expression, bare_form, bare_variable, bare_width};
ghost use Rattle.sp_code.specs.declared.instr.Instr.TheVariants as i;
ghost use Rattle.sp_code.specs.Scopes.{Many, kind_at, kind_of, type_of, is_given};
ghost use Rattle.sp_code.specs.TreeCode.{value_code, var_code, width_code, right_code, write_instr};
ghost use Rattle.sp_code.specs.TreeCode.{reading_instr};
ghost use Rattle.sp_base.specs.Adds.{Adds};
ghost use Rattle.sp_generate.specs.Views.{plain_program, scopes};
ghost use Rattle.sp_generate.specs.CodeBuffers.{assign_code, right_side, sends_code, receives_code};

use crate::code_context::CodeContext;
use crate::expressions::{put_form, put_value, put_var, put_width};
use crate::levels::Scope;
use crate::single::{assign_instr, is_many, reading_instr, write_instr};
use sp_base::{List, Writer};
use sp_code::Instr;
use sp_tree::{Expr, ExprForm, Var};

/// The right side of an assignment of an array or record: of a variable its address alone.
fn put_many(g: &CodeContext, sc: &[Scope], code: &mut Writer<Instr>, k: u32, form: &ExprForm)
    ensures { Adds code.old code.new
        (right_code (plain_program g.now) (scopes sc.now) k Many (bare_form (expression_form_of form.now))) }
{
    match form {
        ExprForm::Read(v) => {
            put_var(g, sc, code, v);
        }
        form => put_form(g, sc, code, k, form),
    }
}

/// The right side of an assignment.
#[tactic(auto, using(crate::proofs::PartCode::one_cell, crate::proofs::PartCode::many_cells))]
fn put_right(g: &CodeContext, sc: &[Scope], code: &mut Writer<Instr>, e: &Expr)
    ensures { Adds code.old code.new
        (right_side (plain_program g.now) (scopes sc.now) (bare_expression (expression_of e.now))) }
{
    if is_many(g, e.kind) {
        put_many(g, sc, code, e.kind, &e.form)
    } else {
        put_form(g, sc, code, e.kind, &e.form)
    }
}

pub fn put_assign(g: &CodeContext, sc: &[Scope], code: &mut Writer<Instr>, v: &Var, e: &Expr)
    ensures { Adds code.old code.new
        (assign_code (plain_program g.now) (scopes sc.now) (bare_variable (variable_of v.now))
        (bare_expression (expression_of e.now))) }
{
    put_var(g, sc, code, v);
    put_right(g, sc, code, e);
    code.put(assign_instr(g, e.kind))
}

pub fn put_assume(g: &CodeContext, sc: &[Scope], code: &mut Writer<Instr>, e: &Expr)
    ensures { Adds code.old code.new
        (value_code (plain_program g.now) (scopes sc.now) (bare_expression (expression_of e.now)) ++ i.Assume
        ∷ []) }
{
    put_value(g, sc, code, e);
    code.put(Instr::Assume)
}

pub fn put_read(g: &CodeContext, sc: &[Scope], code: &mut Writer<Instr>, v: &Var)
    ensures { Adds code.old code.new (var_code (plain_program g.now) (scopes sc.now) (bare_variable (variable_of v.now))
        ++ reading_instr
        (kind_at (plain_program g.now) (type_of (plain_program g.now) (bare_variable (variable_of v.now)))) ∷ []) }
{
    let k = put_var(g, sc, code, v);
    code.put(reading_instr(g, k))
}

pub fn put_write(
    g: &CodeContext,
    sc: &[Scope],
    code: &mut Writer<Instr>,
    e: &Expr,
    w: &Option<Expr>,
)
    ensures { Adds code.old code.new
        (value_code (plain_program g.now) (scopes sc.now) (bare_expression (expression_of e.now))
        ++ (width_code (plain_program g.now) (scopes sc.now) (bare_width (width_of w.now)) ++ write_instr
        (kind_at (plain_program g.now) (kind_of (bare_expression (expression_of e.now))))
        (is_given (bare_width (width_of w.now))) ∷ [])) }
{
    put_value(g, sc, code, e);
    put_width(g, sc, code, w);
    code.put(write_instr(g, e.kind, w.is_some()))
}

/// The writing of the text of this number.
pub fn put_text(
    g: &CodeContext,
    sc: &[Scope],
    code: &mut Writer<Instr>,
    number: u32,
    w: &Option<Expr>,
)
    ensures { Adds code.old code.new (width_code (plain_program g.now) (scopes sc.now) (bare_width (width_of w.now))
        ++ (if is_given (bare_width (width_of w.now)) then i.WritewText number else i.WriteText number) ∷ []) }
{
    put_width(g, sc, code, w);
    if w.is_some() {
        code.put(Instr::WritewText(number))
    } else {
        code.put(Instr::WriteText(number))
    }
}

pub fn put_open(g: &CodeContext, sc: &[Scope], code: &mut Writer<Instr>, v: &Var)
    ensures { Adds code.old code.new
        (var_code (plain_program g.now) (scopes sc.now) (bare_variable (variable_of v.now)) ++ i.Open ∷ []) }
{
    put_var(g, sc, code, v);
    code.put(Instr::Open)
}

pub fn put_send(g: &CodeContext, sc: &[Scope], code: &mut Writer<Instr>, channel: &Expr, e: &Expr)
    ensures { Adds code.old code.new
        (value_code (plain_program g.now) (scopes sc.now) (bare_expression (expression_of channel.now))
        ++ (value_code (plain_program g.now) (scopes sc.now) (bare_expression (expression_of e.now)) ++ i.Send
        (kind_of (bare_expression (expression_of e.now))) ∷ [])) }
{
    put_value(g, sc, code, channel);
    put_value(g, sc, code, e);
    code.put(Instr::Send(e.kind))
}

pub fn put_receive(g: &CodeContext, sc: &[Scope], code: &mut Writer<Instr>, channel: &Expr, v: &Var)
    ensures { Adds code.old code.new
        (value_code (plain_program g.now) (scopes sc.now) (bare_expression (expression_of channel.now))
        ++ (var_code (plain_program g.now) (scopes sc.now) (bare_variable (variable_of v.now)) ++ i.Receive
        (type_of (plain_program g.now) (bare_variable (variable_of v.now))) ∷ [])) }
{
    put_value(g, sc, code, channel);
    let k = put_var(g, sc, code, v);
    code.put(Instr::Receive(k))
}

/// Several values on one channel, each with the channel before it.
pub fn put_sends(
    g: &CodeContext,
    sc: &[Scope],
    code: &mut Writer<Instr>,
    channel: &Expr,
    values: &List<Expr>,
)
    ensures { Adds code.old code.new
        (sends_code (plain_program g.now) (scopes sc.now) (bare_expression (expression_of channel.now))
        (map expression_of values.now)) }
{
    for e in values.items() {
        put_send(g, sc, code, channel, e);
    }
}

/// Several variables from one channel, each with the channel before it.
pub fn put_receives(
    g: &CodeContext,
    sc: &[Scope],
    code: &mut Writer<Instr>,
    channel: &Expr,
    variables: &List<Var>,
)
    ensures { Adds code.old code.new
        (receives_code (plain_program g.now) (scopes sc.now) (bare_expression (expression_of channel.now))
        (map variable_of variables.now)) }
{
    for v in variables.items() {
        put_receive(g, sc, code, channel, v);
    }
}
