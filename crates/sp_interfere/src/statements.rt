//! The way through the statements of a block, to the rules at each of them. Each function takes the first broken rule
//! that is known so far, and gives the first of that and of what its part breaks.

ghost use Rattle.std.specs.Prelude.{◌≡◌, map, option_map};
ghost use Rattle.sp_tree.specs.CheckedOf.{expression_of, variable_of, width_of, statement_of, statement_form_of};
ghost use Rattle.sp_tree.specs.CheckedOf.{statements, arms, arm_of, else_part, sends, receives};
ghost use Rattle.sp_interfere.specs.BlockRules.{rules_in};
ghost use Rattle.sp_interfere.specs.Walk.{statement_first, statement_form_first, statements_first, arms_first};
ghost use Rattle.sp_interfere.specs.Walk.{other_first, width_first, each_first, expression_first, variable_first};

use crate::block_context::BlockContext;
use crate::expressions::{actuals_first, expression_first, variable_first};
use crate::sites::{call_first, loop_first, split_first, spread_first, stop_first};
use sp_base::{Boxed, List, Place};
use sp_tree::{Arm, Expr, FirstRefusal, Form, Stmt, Var};

/// The width of a written value, if it has one.
fn width_first(w: &Option<Expr>, block: &BlockContext, first: FirstRefusal) -> FirstRefusal
    ensures { result ≡ width_first (rules_in block.now) (width_of w.now) first }
{
    match w {
        None => first,
        Some(e) => expression_first(e, block, first),
    }
}

/// Expressions, one after the other.
fn values_first(es: &[Expr], block: &BlockContext, first: FirstRefusal) -> FirstRefusal
    ensures { result ≡ each_first (expression_first (rules_in block.now))
        (map expression_of es.now) first }
{
    let mut first = first;
    for e in es {
        first = expression_first(e, block, first);
    }
    first
}

/// Variables, one after the other.
fn variables_first(vs: &[Var], block: &BlockContext, first: FirstRefusal) -> FirstRefusal
    ensures { result ≡ each_first (variable_first (rules_in block.now))
        (map variable_of vs.now) first }
{
    let mut first = first;
    for v in vs {
        first = variable_first(v, block, first);
    }
    first
}

/// Values on one channel, whose expression is walked once.
fn sends_first(
    at: Place,
    n: u32,
    channel: &Expr,
    es: &[Expr],
    block: &BlockContext,
    first: FirstRefusal,
) -> FirstRefusal
    ensures { result ≡ statements_first (rules_in block.now)
        (sends n at (expression_of channel.now) (map expression_of es.now)) first }
{
    if es.is_empty() {
        return first;
    }
    let first = stop_first(at, block, first);
    let first = expression_first(channel, block, first);
    values_first(es, block, first)
}

/// Variables from one channel, whose expression is walked once.
fn receives_first(
    at: Place,
    n: u32,
    channel: &Expr,
    vs: &[Var],
    block: &BlockContext,
    first: FirstRefusal,
) -> FirstRefusal
    ensures { result ≡ statements_first (rules_in block.now)
        (receives n at (expression_of channel.now) (map variable_of vs.now)) first }
{
    if vs.is_empty() {
        return first;
    }
    let first = stop_first(at, block, first);
    let first = expression_first(channel, block, first);
    variables_first(vs, block, first)
}

/// A statement of the block.
#[cycle(statement)]
pub fn statement_first(x: &Stmt, block: &BlockContext, first: FirstRefusal) -> FirstRefusal
    ensures { result ≡ statement_first (rules_in block.now) (statement_of x.now) first }
{
    form_first(&x.form, x.at, block, first)
}

/// A statement inside another one.
#[cycle(statement)]
fn boxed_first(x: &Boxed<Stmt>, block: &BlockContext, first: FirstRefusal) -> FirstRefusal
    ensures { result ≡ statement_first (rules_in block.now) (statement_of x.now) first }
{
    statement_first(x.get(), block, first)
}

/// The `else` part of an `if` statement, if it has one.
#[cycle(statement)]
fn other_first(x: &Option<Boxed<Stmt>>, block: &BlockContext, first: FirstRefusal) -> FirstRefusal
    ensures { result ≡ other_first (rules_in block.now)
        (else_part (option_map statement_of x.now)) first }
{
    match x {
        None => first,
        Some(x) => statement_first(x.get(), block, first),
    }
}

/// Statements, one after the other.
#[cycle(statement)]
fn statements_first(xs: &List<Stmt>, block: &BlockContext, first: FirstRefusal) -> FirstRefusal
    ensures { result ≡ statements_first (rules_in block.now)
        (statements (map statement_of xs.now)) first }
{
    let mut first = first;
    for x in xs.items() {
        first = statement_first(x, block, first);
    }
    first
}

/// The statements of a `case` statement, one after the other.
#[cycle(statement)]
fn arms_first(xs: &List<Arm>, block: &BlockContext, first: FirstRefusal) -> FirstRefusal
    ensures { result ≡ arms_first (rules_in block.now) (arms (map arm_of xs.now)) first }
{
    let mut first = first;
    for x in xs.items() {
        first = statement_first(&x.body, block, first);
    }
    first
}

/// A statement by its form: the rules at the statement itself, then those at its parts.
#[cycle(statement)]
fn form_first(x: &Form, at: Place, block: &BlockContext, first: FirstRefusal) -> FirstRefusal
    ensures { result ≡ statement_form_first (rules_in block.now) at
        (statement_form_of x.now) first }
{
    match x {
        Form::Empty => first,
        Form::Assign(v, e) => {
            let first = variable_first(v, block, first);
            expression_first(e, block, first)
        }
        Form::Call(f, args) => {
            let first = call_first(*f, at, args, block, first);
            actuals_first(args, block, first)
        }
        Form::Sequence(xs) => statements_first(xs, block, first),
        Form::If(e, a, b) => {
            let first = expression_first(e, block, first);
            let first = boxed_first(a, block, first);
            other_first(b, block, first)
        }
        Form::While(e, a) => {
            let first = expression_first(e, block, first);
            boxed_first(a, block, first)
        }
        Form::Repeat(a, e) => {
            let first = expression_first(e, block, first);
            boxed_first(a, block, first)
        }
        Form::For {
            variable,
            at,
            from,
            down: _,
            to,
            body,
        } => {
            let first = loop_first(*variable, *at, body.get(), block, first);
            let first = expression_first(from, block, first);
            let first = expression_first(to, block, first);
            boxed_first(body, block, first)
        }
        Form::Case(e, xs) => {
            let first = expression_first(e, block, first);
            arms_first(xs, block, first)
        }
        Form::Parallel(xs) => {
            let first = split_first(xs, block, first);
            let first = stop_first(at, block, first);
            statements_first(xs, block, first)
        }
        Form::Forall {
            index,
            from,
            to,
            body,
        } => {
            let first = spread_first(at, *index, body.get(), block, first);
            let first = stop_first(at, block, first);
            let first = expression_first(from, block, first);
            let first = expression_first(to, block, first);
            boxed_first(body, block, first)
        }
        Form::Assume(e) => expression_first(e, block, first),
        Form::ReadValue(v) => {
            let first = stop_first(at, block, first);
            variable_first(v, block, first)
        }
        Form::ReadLine => stop_first(at, block, first),
        Form::WriteValue(e, w) => {
            let first = stop_first(at, block, first);
            let first = expression_first(e, block, first);
            width_first(w, block, first)
        }
        Form::WriteText(_, w) => {
            let first = stop_first(at, block, first);
            width_first(w, block, first)
        }
        Form::WriteLine => stop_first(at, block, first),
        Form::Open(v) => {
            let first = stop_first(at, block, first);
            variable_first(v, block, first)
        }
        Form::Send(channel, e) => {
            let first = stop_first(at, block, first);
            let first = expression_first(channel, block, first);
            expression_first(e, block, first)
        }
        Form::Receive(channel, v) => {
            let first = stop_first(at, block, first);
            let first = expression_first(channel, block, first);
            variable_first(v, block, first)
        }
        Form::SendEach {
            at,
            number,
            channel,
            values,
        } => sends_first(*at, *number, channel, values.items(), block, first),
        Form::ReceiveEach {
            at,
            number,
            channel,
            variables,
        } => receives_first(*at, *number, channel, variables.items(), block, first),
    }
}
