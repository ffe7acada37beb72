//! The lengths of statements. Each function adds a part's length to what is given.

ghost use Rattle.std.specs.Prelude.{◌≡◌, ◌+◌, length, map, option_map, slice_get};
ghost use Rattle.sp_tree.specs.PlainOf.{expr_of, form_of, var_of, stmt_of, sends, receives, arms_of, program_of};
ghost use Rattle.sp_tree.specs.PlainOf.{stmt_form_of, stmts_of};
ghost use Rattle.sp_tree.specs.Plain.{Send, Receive, Case, Parallel, Sequence};
ghost use Rattle.sp_code.specs.Scopes.{sort_by, Many};
ghost use Rattle.sp_code.specs.Lengths.{right_length, stmt_length, all_length, children_length, arms_length};
ghost use Rattle.sp_code.specs.Lengths.{tests_length};
ghost use Rattle.sp_generate.specs.CappedLength.{capped_length};
ghost use Rattle.sp_generate.specs.TreeLengths.{is_many, right_side, else_length};

use crate::expression_lengths::{
    actuals_length, form_length, value_length, var_length, width_length,
};
use crate::length_sum::{sum, sum_count};
use sp_base::{Boxed, List};
use sp_tree::{Arm, Checked, Expr, ExprForm, Form, KindOf, Stmt, Var};

/// Whether values of a type are many cells.
fn is_many(kinds: &[KindOf], k: u32) -> bool
    ensures { result ≡ is_many (sort_by (slice_get kinds.now k)) }
{
    matches!(
        kinds.get(k as usize),
        Some(KindOf::Array { .. } | KindOf::Fields(_))
    )
}

/// The right side of an assignment of an array or record.
#[tactic(auto, using(crate::proofs::LengthSums::summed))]
fn many_length(form: &ExprForm, q: u32) -> u32
    ensures { result ≡ capped_length (q + right_length Many (form_of form.now)) }
{
    match form {
        ExprForm::Read(v) => var_length(v, q),
        form => form_length(form, q),
    }
}

/// The right side of an assignment.
#[tactic(auto, using(crate::proofs::LengthSums::one_cell, crate::proofs::LengthSums::many_cells))]
fn right_length(program: &Checked, e: &Expr, q: u32) -> u32
    ensures { result ≡ capped_length (q + right_side (program_of program.now) (expr_of e.now)) }
{
    if is_many(program.kinds.items(), e.kind) {
        many_length(&e.form, q)
    } else {
        form_length(&e.form, q)
    }
}

#[cycle(stmt)]
#[tactic(auto, using(crate::proofs::LengthSums::summed))]
pub fn stmt_length(program: &Checked, s: &Stmt, q: u32) -> u32
    ensures { result ≡ capped_length (q + stmt_length (program_of program.now) (stmt_of s.now)) }
{
    stmt_form_length(program, &s.form, q)
}

#[cycle(stmt)]
#[tactic(auto, using(crate::proofs::LengthSums::summed))]
fn stmt_form_length(program: &Checked, form: &Form, q: u32) -> u32
    ensures { result ≡ capped_length (q + stmt_length (program_of program.now) (stmt_form_of form.now)) }
{
    match form {
        Form::Empty => q,
        Form::Assign(v, e) => {
            let q = var_length(v, q);
            let q = right_length(program, e, q);
            sum(q, 1)
        }
        Form::Call(_, args) => {
            let q = actuals_length(args, q);
            sum(q, 1)
        }
        Form::Sequence(ss) => all_length(program, ss, q),
        Form::If(e, a, b) => {
            let q = value_length(e, q);
            let q = stmt_length(program, a.get(), q);
            else_length(program, b, q)
        }
        Form::While(e, s) => {
            let q = value_length(e, q);
            let q = stmt_length(program, s.get(), q);
            sum(q, 3)
        }
        Form::Repeat(s, e) => {
            let q = stmt_length(program, s.get(), q);
            let q = value_length(e, q);
            sum(q, 2)
        }
        Form::For { from, to, body, .. } => {
            let q = value_length(from, q);
            let q = value_length(to, q);
            let q = stmt_length(program, body.get(), q);
            sum(q, 3)
        }
        Form::Case(e, arms) => {
            let q = value_length(e, q);
            let q = tests_length(arms, q);
            let q = arms_length(program, arms, q);
            sum(q, 1)
        }
        Form::Parallel(ss) => {
            let q = children_length(program, ss, q);
            sum(q, 2)
        }
        Form::Forall { from, to, body, .. } => {
            let q = value_length(from, q);
            let q = value_length(to, q);
            let q = stmt_length(program, body.get(), q);
            sum(q, 3)
        }
        Form::Assume(e) => {
            let q = value_length(e, q);
            sum(q, 1)
        }
        Form::ReadValue(v) => {
            let q = var_length(v, q);
            sum(q, 1)
        }
        Form::ReadLine => sum(q, 1),
        Form::WriteValue(e, w) => {
            let q = value_length(e, q);
            let q = width_length(w, q);
            sum(q, 1)
        }
        Form::WriteText(_, w) => {
            let q = width_length(w, q);
            sum(q, 1)
        }
        Form::WriteLine => sum(q, 1),
        Form::Open(v) => {
            let q = var_length(v, q);
            sum(q, 1)
        }
        Form::Send(c, e) => {
            let q = value_length(c, q);
            let q = value_length(e, q);
            sum(q, 1)
        }
        Form::Receive(c, v) => {
            let q = value_length(c, q);
            let q = var_length(v, q);
            sum(q, 1)
        }
        Form::SendEach {
            channel,
            values,
            ..
        } => sends_length(program, channel, values, q),
        Form::ReceiveEach {
            channel,
            variables,
            ..
        } => receives_length(program, channel, variables, q),
    }
}

/// What an `if` has behind its first statement.
#[cycle(stmt)]
#[tactic(auto, using(crate::proofs::LengthSums::summed))]
fn else_length(program: &Checked, b: &Option<Boxed<Stmt>>, q: u32) -> u32
    ensures { result ≡ capped_length (q + else_length (program_of program.now) (option_map stmt_of b.now)) }
{
    match b {
        None => sum(q, 1),
        Some(b) => {
            let q = stmt_length(program, b.get(), q);
            sum(q, 2)
        }
    }
}

#[cycle(stmt)]
#[tactic(auto, using(crate::proofs::LengthSums::summed))]
fn all_length(program: &Checked, ss: &List<Stmt>, q: u32) -> u32
    ensures { result ≡ capped_length (q + all_length (program_of program.now) (stmts_of ss.now)) }
{
    let mut q = q;
    for s in ss.items() {
        q = stmt_length(program, s, q);
    }
    q
}

/// The processes of a `parallel`, with an `end` behind each.
#[cycle(stmt)]
#[tactic(auto, using(crate::proofs::LengthSums::summed))]
fn children_length(program: &Checked, ss: &List<Stmt>, q: u32) -> u32
    ensures { result ≡ capped_length (q + children_length (program_of program.now) (stmts_of ss.now)) }
{
    let mut q = q;
    for s in ss.items() {
        q = stmt_length(program, s, q);
        q = sum(q, 1);
    }
    q
}

/// The statements of a `case`, with a jump behind each.
#[cycle(stmt)]
#[tactic(auto, using(crate::proofs::LengthSums::summed))]
fn arms_length(program: &Checked, arms: &List<Arm>, q: u32) -> u32
    ensures { result ≡ capped_length (q + arms_length (program_of program.now) (arms_of arms.now)) }
{
    let mut q = q;
    for a in arms.items() {
        q = stmt_length(program, &a.body, q);
        q = sum(q, 1);
    }
    q
}

/// The tests of a `case`, one for each constant.
#[tactic(auto, using(crate::proofs::LengthSums::summed))]
fn tests_length(arms: &List<Arm>, q: u32) -> u32
    ensures { result ≡ capped_length (q + tests_length (arms_of arms.now)) }
{
    let mut q = q;
    for a in arms.items() {
        q = sum_count(q, a.constants.len());
    }
    q
}

/// Several values on one channel, whose length is counted once.
#[tactic(auto, using(crate::proofs::LengthSums::each))]
fn sends_length(program: &Checked, channel: &Expr, values: &List<Expr>, q: u32) -> u32
    ensures { result ≡ capped_length (q + all_length (program_of program.now)
        (sends (expr_of channel.now) (map expr_of values.now))) }
{
    let each = value_length(channel, 1);
    let mut q = q;
    for e in values.items() {
        q = sum(q, each);
        q = value_length(e, q);
    }
    q
}

/// Several variables from one channel, whose length is counted once.
#[tactic(auto, using(crate::proofs::LengthSums::each))]
fn receives_length(program: &Checked, channel: &Expr, variables: &List<Var>, q: u32) -> u32
    ensures { result ≡ capped_length (q + all_length (program_of program.now)
        (receives (expr_of channel.now) (map var_of variables.now))) }
{
    let each = value_length(channel, 1);
    let mut q = q;
    for v in variables.items() {
        q = sum(q, each);
        q = var_length(v, q);
    }
    q
}
