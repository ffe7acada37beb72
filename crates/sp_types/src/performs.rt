//! Assignments, calls of procedures, and calls of standard procedures as the single statements that they stand for.

ghost use Rattle.std.specs.Prelude.{◌≡◌, false, map};
ghost use Rattle.std.specs.Vec.Iter.{into_iter_items};
ghost use Rattle.sp_tree.specs.NamedOf.{argument_of, arguments};
ghost use Rattle.sp_tree.specs.PlainNamed.{Perform};
ghost use Rattle.sp_tree.specs.Carried.{Keeps};
ghost use Rattle.sp_types.specs.Types.{Types};
ghost use Rattle.sp_tree.specs.CheckedOf as checked;
ghost use Rattle.sp_types.specs.Firsts.{channel_first, statement_form_first, perform_first, each_first, message_first};
ghost use Rattle.sp_types.specs.Firsts.{messages_first};
ghost use Rattle.sp_types.specs.Kinds.{argument_kind};
ghost use Rattle.sp_types.specs.TypeWalk.{form_after};
ghost use Rattle.sp_types.specs.CheckedTree.{argument_variables, checked_argument};
ghost use Rattle.sp_types.specs.CheckedTree.{checked_arguments, checked_statement_form, receive_forms, send_forms};
ghost use Rattle.sp_types.specs.CheckedTree.{singles, numbered_statements, expanded_form};
ghost use Rattle.sp_types.specs.Expectations.{part_forms, part_first};
ghost use Rattle.sp_tree.specs.declared.meaning.StandardProcedure.TheVariants as procedure;

use crate::calls::{Part, target, type_parts};
use crate::expressions::type_wanted;
use crate::pass_results::Typed;
use crate::rules::Wanted;
use crate::statement_counts::{parts_count, sum};
use crate::tables::Tables;
use sp_base::{List, Place};
use sp_tree::{Expr, Form, NamedArg, StandardProcedure, Stmt, Var, Walk};
use std::alloc::Global;
use std::vec::IntoIter;

/// What is sent on a channel of a type, or received.
fn type_value(alloc: Global, t: &Tables, walk: &mut Walk, a: NamedArg, kind: Option<u32>) -> Expr
    ensures { Keeps walk.old walk.new (message_first t.now kind (argument_of a) walk.old.first)
        (checked.expression_of result ≡ checked_argument t.now (argument_of a)) }
{
    let NamedArg { value, width: _ } = a;
    let e = type_wanted(alloc, t, walk, value, Wanted::Message(kind));
    e.tree
}

/// All that is sent on a channel of a type.
fn type_values(
    alloc: Global,
    t: &Tables,
    walk: &mut Walk,
    xs: IntoIter<NamedArg>,
    kind: Option<u32>,
) -> List<Expr>
    ensures { Keeps walk.old walk.new
        (each_first t.now (message_first t.now kind) (arguments (map argument_of (into_iter_items xs))) walk.old.first)
        (map checked.expression_of result
        ≡ checked_arguments t.now (arguments (map argument_of (into_iter_items xs)))) }
{
    let mut out = Vec::new(alloc);
    for x in xs {
        let y = type_value(alloc, t, walk, x, kind);
        walk.push(&mut out, y);
    }
    List::of(out)
}

/// All that is received on a channel of a type.
fn type_variables(
    alloc: Global,
    t: &Tables,
    walk: &mut Walk,
    xs: IntoIter<NamedArg>,
    kind: Option<u32>,
) -> List<Var>
    ensures { Keeps walk.old walk.new
        (each_first t.now (message_first t.now kind) (arguments (map argument_of (into_iter_items xs))) walk.old.first)
        (map checked.variable_of result
        ≡ argument_variables t.now (arguments (map argument_of (into_iter_items xs)))) }
{
    let mut out = Vec::new(alloc);
    for x in xs {
        let y = type_value(alloc, t, walk, x, kind);
        walk.push(&mut out, target(alloc, y));
    }
    List::of(out)
}

/// The channel of `send` or `receive`.
fn type_channel(alloc: Global, t: &Tables, walk: &mut Walk, a: NamedArg) -> Typed<Expr>
    ensures { Types checked.expression_of walk.old walk.new result (checked_argument t.now (argument_of a))
        (argument_kind t.now (argument_of a)) (channel_first t.now (argument_of a) walk.old.first) }
{
    let NamedArg { value, width: _ } = a;
    type_wanted(alloc, t, walk, value, Wanted::Channel)
}

/// Values sent on one channel: one alone is a single statement, of several the channel stands once in memory.
#[tactic(auto, using(crate::proofs::SeveralOnChannel::each_sent))]
fn sent(n: u32, at: Place, channel: Expr, values: List<Expr>) -> Form
    ensures { checked.statement_form_of result
        ≡ expanded_form n at (send_forms (checked.expression_of channel) (map checked.expression_of values)) }
{
    let mut values = values;
    if values.len() == 1 {
        match values.pop() {
            None => Form::Empty,
            Some(value) => Form::Send(channel, value),
        }
    } else {
        Form::SendEach {
            at,
            number: n,
            channel,
            values,
        }
    }
}

/// Variables received on one channel: one alone is a single statement, of several the channel stands once in memory.
#[tactic(auto, using(crate::proofs::SeveralOnChannel::each_received))]
fn received(n: u32, at: Place, channel: Expr, variables: List<Var>) -> Form
    ensures { checked.statement_form_of result
        ≡ expanded_form n at (receive_forms (checked.expression_of channel) (map checked.variable_of variables)) }
{
    let mut variables = variables;
    if variables.len() == 1 {
        match variables.pop() {
            None => Form::Empty,
            Some(variable) => Form::Receive(channel, variable),
        }
    } else {
        Form::ReceiveEach {
            at,
            number: n,
            channel,
            variables,
        }
    }
}

/// A call of `send`: its channel, and what is sent on it.
fn type_send(alloc: Global, t: &Tables, walk: &mut Walk, args: List<NamedArg>, at: Place) -> Form
    ensures { Keeps walk.old walk.new (messages_first t.now (arguments (map argument_of args)) walk.old.first)
        (checked.statement_form_of result
        ≡ expanded_form t.now.next at (singles t.now procedure.Send (arguments (map argument_of args)))) }
{
    let mut xs = args.into_vec().into_iter();
    match xs.next() {
        None => Form::Sequence(List::new(alloc)),
        Some(a) => {
            let channel = type_channel(alloc, t, walk, a);
            let values = type_values(alloc, t, walk, xs, channel.kind);
            sent(t.next, at, channel.tree, values)
        }
    }
}

/// A call of `receive`: its channel, and what is received on it.
fn type_receive(alloc: Global, t: &Tables, walk: &mut Walk, args: List<NamedArg>, at: Place) -> Form
    ensures { Keeps walk.old walk.new (messages_first t.now (arguments (map argument_of args)) walk.old.first)
        (checked.statement_form_of result
        ≡ expanded_form t.now.next at (singles t.now procedure.Receive (arguments (map argument_of args)))) }
{
    let mut xs = args.into_vec().into_iter();
    match xs.next() {
        None => Form::Sequence(List::new(alloc)),
        Some(a) => {
            let channel = type_channel(alloc, t, walk, a);
            let variables = type_variables(alloc, t, walk, xs, channel.kind);
            received(t.next, at, channel.tree, variables)
        }
    }
}

/// Statements at one place, numbered from a number on.
fn numbered(alloc: Global, walk: &mut Walk, n: u32, at: Place, forms: List<Form>) -> List<Stmt>
    ensures { Keeps walk.old walk.new walk.old.first (map checked.statement_of result
        ≡ numbered_statements n at (map checked.statement_form_of forms)) }
{
    let mut out = Vec::new(alloc);
    let mut n = n;
    for form in forms.into_vec() {
        walk.push(
            &mut out,
            Stmt {
                number: n,
                at,
                form,
            },
        );
        n = sum(walk, n, 1);
    }
    List::of(out)
}

/// Statements at one place as one: a single one is itself, several stand in a sequence.
#[tactic(auto, using(crate::proofs::SeveralOnChannel::several_of))]
fn expanded(alloc: Global, walk: &mut Walk, n: u32, at: Place, forms: List<Form>) -> Form
    ensures { Keeps walk.old walk.new walk.old.first
        (checked.statement_form_of result ≡ expanded_form n at (map checked.statement_form_of forms)) }
{
    let mut forms = forms;
    if forms.len() == 1 {
        match forms.pop() {
            None => Form::Empty,
            Some(form) => form,
        }
    } else {
        Form::Sequence(numbered(alloc, walk, n, at, forms))
    }
}

/// A call of `read`, `write` or `open`.
fn type_each(
    alloc: Global,
    t: &Tables,
    walk: &mut Walk,
    part: Part,
    args: List<NamedArg>,
    at: Place,
) -> Form
    ensures { Keeps walk.old walk.new
        (each_first t.now (part_first t.now part) (arguments (map argument_of args)) walk.old.first)
        (checked.statement_form_of result
        ≡ expanded_form t.now.next at (part_forms t.now part (arguments (map argument_of args)))) }
{
    let forms = type_parts(alloc, t, walk, part, args);
    expanded(alloc, walk, t.next, at, forms)
}

/// A call of `readln`.
fn type_readln(alloc: Global, t: &Tables, walk: &mut Walk, args: List<NamedArg>, at: Place) -> Form
    ensures { Keeps walk.old walk.new
        (perform_first t.now procedure.Readln (arguments (map argument_of args)) walk.old.first)
        (checked.statement_form_of result
        ≡ expanded_form t.now.next at (singles t.now procedure.Readln (arguments (map argument_of args)))) }
{
    let mut forms = type_parts(alloc, t, walk, Part::Read, args).into_vec();
    walk.push(&mut forms, Form::ReadLine);
    expanded(alloc, walk, t.next, at, List::of(forms))
}

/// A call of `writeln`.
fn type_writeln(alloc: Global, t: &Tables, walk: &mut Walk, args: List<NamedArg>, at: Place) -> Form
    ensures { Keeps walk.old walk.new
        (perform_first t.now procedure.Writeln (arguments (map argument_of args)) walk.old.first)
        (checked.statement_form_of result
        ≡ expanded_form t.now.next at (singles t.now procedure.Writeln (arguments (map argument_of args)))) }
{
    let mut forms = type_parts(alloc, t, walk, Part::Write, args).into_vec();
    walk.push(&mut forms, Form::WriteLine);
    expanded(alloc, walk, t.next, at, List::of(forms))
}

/// A call of a standard procedure. Its single statements have the next numbers, unless there is one alone.
pub fn type_perform(
    alloc: Global,
    t: &mut Tables,
    walk: &mut Walk,
    p: StandardProcedure,
    args: List<NamedArg>,
    at: Place,
) -> Form
    ensures tree { Keeps walk.old walk.new
        (statement_form_first t.old (Perform p (arguments (map argument_of args))) walk.old.first)
        (checked.statement_form_of result
        ≡ checked_statement_form t.old at (Perform p (arguments (map argument_of args)))) }
    ensures after { walk.new.is_lost ≡ false → t.new ≡ form_after t.old (Perform p (arguments (map argument_of args))) }
{
    let count = parts_count(walk, p, args.items());
    let form = match p {
        StandardProcedure::Read => type_each(alloc, t, walk, Part::Read, args, at),
        StandardProcedure::Readln => type_readln(alloc, t, walk, args, at),
        StandardProcedure::Write => type_each(alloc, t, walk, Part::Write, args, at),
        StandardProcedure::Writeln => type_writeln(alloc, t, walk, args, at),
        StandardProcedure::Open => type_each(alloc, t, walk, Part::Open, args, at),
        StandardProcedure::Send => type_send(alloc, t, walk, args, at),
        StandardProcedure::Receive => type_receive(alloc, t, walk, args, at),
    };
    walk.after(t.count(count));
    form
}
