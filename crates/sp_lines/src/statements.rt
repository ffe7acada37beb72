//! The marks of statements: each function puts those of a part last. `s` is the place where the statement begins to
//! which a part belongs.

ghost use Rattle.std.specs.Prelude.{◌≡◌, ◌++◌, ◌∷◌, [], map, slice_get};
ghost use Rattle.sp_tree.specs.CheckedOf.{expression_of, variable_of, statement_of, statements, sends, receives};
ghost use Rattle.sp_tree.specs.CheckedOf.{arms, arm_of};
ghost use Rattle.sp_lines.specs.Marks.{own, is_many, right_marks, test_marks, tests_marks, statement_marks};
ghost use Rattle.sp_lines.specs.Marks.{all_marks, child_marks, children_marks, arms_marks};
ghost use Rattle.sp_base.specs.Adds.{Adds};

use crate::expressions::{put, put_actuals, put_value, put_variable, put_width};
use crate::mark::Mark;
use sp_base::{List, Place, Writer};
use sp_tree::{Arm, Expr, ExprForm, Form, KindOf, Stmt, Var};

/// Whether values of a type are many cells.
fn is_many(kinds: &[KindOf], k: u32) -> bool
    ensures { result ≡ is_many (slice_get kinds.now k) }
{
    matches!(
        kinds.get(k as usize),
        Some(KindOf::Array { .. } | KindOf::Fields(_))
    )
}

/// The right side of an assignment. Of a variable that is an array or a record it is the address alone.
fn put_right(kinds: &[KindOf], out: &mut Writer<Mark>, s: Place, e: &Expr)
    ensures { Adds out.old out.new (right_marks kinds.now s (expression_of e.now)) }
{
    if is_many(kinds, e.kind) {
        match &e.form {
            ExprForm::Read(v) => put_variable(out, s, v),
            _ => put_value(out, s, e),
        }
    } else {
        put_value(out, s, e)
    }
}

/// Several values on one channel: single statements at one place.
fn put_sends(
    kinds: &[KindOf],
    out: &mut Writer<Mark>,
    at: Place,
    number: u32,
    channel: &Expr,
    values: &List<Expr>,
)
    ensures { Adds out.old out.new
        (all_marks kinds.now (sends number at (expression_of channel.now) (map expression_of values.now))) }
{
    for e in values.items() {
        put_value(out, at, channel);
        put_value(out, at, e);
        put(out, at, at);
    }
}

/// Several variables from one channel: single statements at one place.
fn put_receives(
    kinds: &[KindOf],
    out: &mut Writer<Mark>,
    at: Place,
    number: u32,
    channel: &Expr,
    variables: &List<Var>,
)
    ensures { Adds out.old out.new
        (all_marks kinds.now (receives number at (expression_of channel.now) (map variable_of variables.now))) }
{
    for v in variables.items() {
        put_value(out, at, channel);
        put_variable(out, at, v);
        put(out, at, at);
    }
}

/// A statement.
#[cycle(statement)]
pub fn put_statement(kinds: &[KindOf], out: &mut Writer<Mark>, a: &Stmt)
    ensures { Adds out.old out.new (statement_marks kinds.now (statement_of a.now)) }
{
    let s = a.at;
    match &a.form {
        Form::Empty => {}
        Form::Assign(v, e) => {
            put_variable(out, s, v);
            put_right(kinds, out, s, e);
            put(out, s, s)
        }
        Form::Call(_, args) => {
            put_actuals(out, s, args);
            put(out, s, s)
        }
        Form::Sequence(ss) => put_all(kinds, out, ss),
        Form::If(e, a, None) => {
            put_value(out, s, e);
            put(out, s, s);
            put_statement(kinds, out, a.get())
        }
        Form::If(e, a, Some(b)) => {
            put_value(out, s, e);
            put(out, s, s);
            put_statement(kinds, out, a.get());
            put(out, s, s);
            put_statement(kinds, out, b.get())
        }
        Form::While(e, a) => {
            put_value(out, s, e);
            put_loop(kinds, out, s, a.get())
        }
        Form::Repeat(a, e) => {
            put(out, s, s);
            put_statement(kinds, out, a.get());
            put_value(out, s, e);
            put(out, s, s)
        }
        Form::For { from, to, body, .. } => {
            put_value(out, s, from);
            put_value(out, s, to);
            put_loop(kinds, out, s, body.get())
        }
        Form::Case(e, arms) => {
            put_value(out, s, e);
            put_tests(out, s, arms);
            put(out, s, s);
            put_arms(kinds, out, s, arms)
        }
        Form::Parallel(ss) => {
            put(out, s, s);
            put(out, s, s);
            put_children(kinds, out, ss)
        }
        Form::Forall { from, to, body, .. } => {
            put_value(out, s, from);
            put_value(out, s, to);
            put(out, s, s);
            put(out, s, s);
            put_child(kinds, out, body.get())
        }
        Form::Assume(e) => {
            put_value(out, s, e);
            put(out, s, s)
        }
        Form::ReadValue(v) | Form::Open(v) => {
            put_variable(out, s, v);
            put(out, s, s)
        }
        Form::ReadLine | Form::WriteLine => put(out, s, s),
        Form::WriteValue(e, w) => {
            put_value(out, s, e);
            put_width(out, s, w);
            put(out, s, s)
        }
        Form::WriteText(_, w) => {
            put_width(out, s, w);
            put(out, s, s)
        }
        Form::Send(channel, e) => {
            put_value(out, s, channel);
            put_value(out, s, e);
            put(out, s, s)
        }
        Form::Receive(channel, v) => {
            put_value(out, s, channel);
            put_variable(out, s, v);
            put(out, s, s)
        }
        Form::SendEach {
            at,
            number,
            channel,
            values,
        } => put_sends(kinds, out, *at, *number, channel, values),
        Form::ReceiveEach {
            at,
            number,
            channel,
            variables,
        } => put_receives(kinds, out, *at, *number, channel, variables),
    }
}

/// A loop after its test or its limits.
#[cycle(statement)]
fn put_loop(kinds: &[KindOf], out: &mut Writer<Mark>, s: Place, a: &Stmt)
    ensures { Adds out.old out.new
        (own s ∷ own s ∷ (statement_marks kinds.now (statement_of a.now) ++ own s ∷ [])) }
{
    put(out, s, s);
    put(out, s, s);
    put_statement(kinds, out, a);
    put(out, s, s)
}

#[cycle(statement)]
fn put_all(kinds: &[KindOf], out: &mut Writer<Mark>, ss: &List<Stmt>)
    ensures { Adds out.old out.new (all_marks kinds.now (statements (map statement_of ss.now))) }
{
    for a in ss.items() {
        put_statement(kinds, out, a);
    }
}

/// A process statement, with its `end`.
#[cycle(statement)]
fn put_child(kinds: &[KindOf], out: &mut Writer<Mark>, a: &Stmt)
    ensures { Adds out.old out.new (child_marks kinds.now (statement_of a.now)) }
{
    put_statement(kinds, out, a);
    put(out, a.at, a.at)
}

#[cycle(statement)]
fn put_children(kinds: &[KindOf], out: &mut Writer<Mark>, ss: &List<Stmt>)
    ensures { Adds out.old out.new (children_marks kinds.now (statements (map statement_of ss.now))) }
{
    for a in ss.items() {
        put_child(kinds, out, a);
    }
}

/// A test for each constant.
fn put_test(out: &mut Writer<Mark>, s: Place, constants: &[i64])
    ensures { Adds out.old out.new (test_marks (own s) constants.now) }
{
    for constant in constants {
        let _value = *constant;
        put(out, s, s);
    }
}

/// The tests of a `case`.
fn put_tests(out: &mut Writer<Mark>, s: Place, xs: &List<Arm>)
    ensures { Adds out.old out.new (tests_marks (own s) (arms (map arm_of xs.now))) }
{
    for a in xs.items() {
        put_test(out, s, a.constants.items());
    }
}

/// The choices of a `case`, each with the jump after it.
#[cycle(statement)]
fn put_arms(kinds: &[KindOf], out: &mut Writer<Mark>, s: Place, xs: &List<Arm>)
    ensures { Adds out.old out.new (arms_marks kinds.now s (arms (map arm_of xs.now))) }
{
    for a in xs.items() {
        put_statement(kinds, out, &a.body);
        put(out, s, s);
    }
}
