//! The code of statements: each function writes a part behind what is written.

ghost use Rattle.std.specs.Prelude.{◌≡◌, ◌+◌, ◌∷◌, ℕ, map, length, IfOk};
ghost use Rattle.sp_base.specs.declared.place.Place.{Place as APlace};
ghost use Rattle.sp_tree.specs.CheckedOf.{expression_of, variable_of, width_of, statement_of, statement_form_of};
ghost use Rattle.sp_tree.specs.CheckedOf.{statements, sends, receives, arms, arm_of};
ghost use Rattle.sp_tree.specs.PlainChecked as c;
ghost use Rattle.sp_tree.specs.Bare.{bare_arms};
ghost use Rattle.sp_code.specs.declared.instr.Instr.TheVariants as i;
ghost use Rattle.sp_generate.specs.declared.levels.Scope.TheVariants as scope;
ghost use Rattle.sp_generate.specs.Steps.{for_instr, next_instr};
ghost use Rattle.sp_generate.specs.Views.{plain_program};
ghost use Rattle.sp_generate.specs.CodeBuffers.{starts_of, ends_of};
ghost use Rattle.sp_base.specs.Adds.{Keeps};
ghost use Rattle.sp_generate.specs.BuffersAfter.{Wrote, written, with_statement, with_form, with_children, with_arms};
ghost use Rattle.sp_generate.specs.BuffersAfter.{with_branch, with_passed, with_loop, with_spread, with_choices};
ghost use Rattle.sp_generate.specs.BuffersAfter.{with_inside, child_of, children_of, index_table};

use crate::choices::{fill_ends, fill_tests, put_blanks};
use crate::code_buffer::{
    CodeBuffer, count, mark, mend_branch, mend_jump, patch_table, place, set,
};
use crate::expressions::{put_call, put_value};
use crate::handings::{but_index, moved, shared};
use crate::levels::Scope;
use crate::numbers::{narrow, sum};
use crate::simple::{
    put_assign, put_assume, put_open, put_read, put_receive, put_receives, put_send, put_sends,
    put_text, put_write,
};
use crate::single::slot;
use crate::statement_context::StatementContext;
use sp_base::{List, Memory, Text, Writer};
use sp_code::{ChildTable, ForkTable, Instr};
use sp_tree::{Arm, Expr, Form, Stmt, Var};

/// A statement.
#[cycle(statement)]
pub fn put_statement(context: &StatementContext, d: &mut CodeBuffer, s: &Stmt)
    ensures { Wrote d.old d.new (with_statement context.now d.old (statement_of s.now)) }
{
    put_statement_form(context, d, &s.form)
}

#[cycle(statement)]
fn put_statement_form(context: &StatementContext, d: &mut CodeBuffer, form: &Form)
    ensures { Wrote d.old d.new (with_form context.now d.old (statement_form_of form.now)) }
{
    let g = context.program;
    let sc = context.scopes;
    match form {
        Form::Empty => {}
        Form::Assign(v, e) => put_assign(g, sc, &mut d.instrs, v, e),
        Form::Call(f, args) => put_call(g, sc, &mut d.instrs, *f, args),
        Form::Sequence(ss) => put_sequence(context, d, ss),
        Form::If(e, a, None) => put_if(context, d, a.get(), e),
        Form::If(e, a, Some(b)) => {
            put_value(g, sc, &mut d.instrs, e);
            put_branch(context, d, a.get(), 1);
            put_passed(context, d, b.get());
        }
        Form::While(e, s) => put_while(context, d, s.get(), e),
        Form::Repeat(s, e) => put_repeat(context, d, s.get(), e),
        Form::For {
            variable,
            from,
            down,
            to,
            body,
            ..
        } => {
            put_value(g, sc, &mut d.instrs, from);
            put_value(g, sc, &mut d.instrs, to);
            put_for_body(context, d, body.get(), *down, slot(g, *variable))
        }
        Form::Case(e, arms) => put_case(context, d, arms, e),
        Form::Parallel(ss) => put_parallel(context, d, ss),
        Form::Forall {
            index,
            from,
            to,
            body,
        } => put_forall(context, d, body.get(), *index, from, to),
        Form::Assume(e) => put_assume(g, sc, &mut d.instrs, e),
        Form::ReadValue(v) => put_read(g, sc, &mut d.instrs, v),
        Form::ReadLine => d.instrs.put(Instr::Readln),
        Form::WriteValue(e, w) => put_write(g, sc, &mut d.instrs, e, w),
        Form::WriteText(text, w) => put_written(context, d, text, w),
        Form::WriteLine => d.instrs.put(Instr::Writeln),
        Form::Open(v) => put_open(g, sc, &mut d.instrs, v),
        Form::Send(channel, e) => put_send(g, sc, &mut d.instrs, channel, e),
        Form::Receive(channel, v) => put_receive(g, sc, &mut d.instrs, channel, v),
        Form::SendEach {
            channel,
            values,
            ..
        } => put_send_each(context, d, channel, values),
        Form::ReceiveEach {
            channel,
            variables,
            ..
        } => put_receive_each(context, d, channel, variables),
    }
}

/// Several values on one channel: the code of single statements, wherever they stand and whatever their numbers.
fn put_send_each(
    context: &StatementContext,
    d: &mut CodeBuffer,
    channel: &Expr,
    values: &List<Expr>,
)
    ensures { (at : APlace) (number : ℕ) → Wrote d.old d.new (with_form context.now d.old
        (c.Sequence (sends number at (expression_of channel.now) (map expression_of values.now)))) }
{
    put_sends(
        context.program,
        context.scopes,
        &mut d.instrs,
        channel,
        values,
    );
}

/// Several variables from one channel: the code of single statements, wherever they stand and whatever their numbers.
fn put_receive_each(
    context: &StatementContext,
    d: &mut CodeBuffer,
    channel: &Expr,
    variables: &List<Var>,
)
    ensures { (at : APlace) (number : ℕ) → Wrote d.old d.new (with_form context.now d.old
        (c.Sequence (receives number at (expression_of channel.now) (map variable_of variables.now)))) }
{
    put_receives(
        context.program,
        context.scopes,
        &mut d.instrs,
        channel,
        variables,
    );
}

/// A text that is written gets the next number.
fn put_written(context: &StatementContext, d: &mut CodeBuffer, text: &Text, w: &Option<Expr>)
    ensures { Wrote d.old d.new (with_form context.now d.old (c.WriteText text.now (width_of w.now))) }
{
    let number = d.instrs.number(narrow(d.texts.len()));
    put_text(context.program, context.scopes, &mut d.instrs, number, w);
    d.instrs
        .push_to(&mut d.texts, text.duplicate(context.program.alloc));
}

/// Several statements.
#[cycle(statement)]
fn put_sequence(context: &StatementContext, d: &mut CodeBuffer, ss: &List<Stmt>)
    ensures { Wrote d.old d.new (with_form context.now d.old
        (c.Sequence (statements (map statement_of ss.now)))) }
{
    for s in ss.items() {
        put_statement(context, d, s);
    }
}

/// A statement that is left out where the condition on the stack is false. The jump goes so many instructions beyond.
#[cycle(statement)]
fn put_branch(context: &StatementContext, d: &mut CodeBuffer, s: &Stmt, beyond: u32)
    ensures { Wrote d.old d.new (with_branch context.now d.old (statement_of s.now) beyond) }
{
    let at = count(&d.instrs);
    d.instrs.put(Instr::Jumpf(0));
    put_statement(context, d, s);
    mend_branch(&mut d.instrs, at, beyond);
}

/// A statement that is passed over by a jump.
#[cycle(statement)]
fn put_passed(context: &StatementContext, d: &mut CodeBuffer, s: &Stmt)
    ensures { Wrote d.old d.new (with_passed context.now d.old (statement_of s.now)) }
{
    let at = count(&d.instrs);
    d.instrs.put(Instr::Jump(0));
    put_statement(context, d, s);
    mend_jump(&mut d.instrs, at);
}

#[cycle(statement)]
fn put_if(context: &StatementContext, d: &mut CodeBuffer, a: &Stmt, e: &Expr)
    ensures { Wrote d.old d.new (with_form context.now d.old
        (c.If (expression_of e.now) (statement_of a.now) c.NoElse)) }
{
    put_value(context.program, context.scopes, &mut d.instrs, e);
    put_branch(context, d, a, 0)
}

/// The statement of a `while` behind its condition, which stands at `start`.
#[cycle(statement)]
fn put_while_body(context: &StatementContext, d: &mut CodeBuffer, s: &Stmt, start: u32)
    ensures { Wrote d.old d.new (with_loop context.now d.old (statement_of s.now) i.Jumpf (i.Jump start)) }
{
    let at = count(&d.instrs);
    d.instrs.put(Instr::Jumpf(0));
    d.instrs.put(Instr::Tick);
    put_statement(context, d, s);
    d.instrs.put(Instr::Jump(start));
    mend_branch(&mut d.instrs, at, 0);
}

#[cycle(statement)]
fn put_while(context: &StatementContext, d: &mut CodeBuffer, s: &Stmt, e: &Expr)
    ensures { Wrote d.old d.new (with_form context.now d.old
        (c.While (expression_of e.now) (statement_of s.now))) }
{
    let start = place(&mut d.instrs);
    put_value(context.program, context.scopes, &mut d.instrs, e);
    put_while_body(context, d, s, start)
}

#[cycle(statement)]
fn put_repeat(context: &StatementContext, d: &mut CodeBuffer, s: &Stmt, e: &Expr)
    ensures { Wrote d.old d.new (with_form context.now d.old
        (c.Repeat (statement_of s.now) (expression_of e.now))) }
{
    let start = place(&mut d.instrs);
    d.instrs.put(Instr::Tick);
    put_statement(context, d, s);
    put_value(context.program, context.scopes, &mut d.instrs, e);
    d.instrs.put(Instr::Jumpf(start))
}

fn for_instr(down: bool, var: u32, to: u32) -> Instr
    ensures { result ≡ for_instr down var to }
{
    if down {
        Instr::Fordown { var, to }
    } else {
        Instr::Forup { var, to }
    }
}

fn next_instr(down: bool, var: u32, to: u32) -> Instr
    ensures { result ≡ next_instr down var to }
{
    if down {
        Instr::Nextdown { var, to }
    } else {
        Instr::Nextup { var, to }
    }
}

/// The statement of a `for` loop behind its limits, whose variable has this number in its frame.
#[cycle(statement)]
fn put_for_body(context: &StatementContext, d: &mut CodeBuffer, s: &Stmt, down: bool, var: u32)
    ensures { Wrote d.old d.new (with_loop context.now d.old (statement_of s.now) (for_instr down var)
        (next_instr down var (length d.old.instrs.items.items + 1))) }
{
    let at = count(&d.instrs);
    d.instrs.put(for_instr(down, var, 0));
    let tick = place(&mut d.instrs);
    d.instrs.put(Instr::Tick);
    put_statement(context, d, s);
    d.instrs.put(next_instr(down, var, tick));
    let end = place(&mut d.instrs);
    set(&mut d.instrs.items, at, for_instr(down, var, end));
}

/// The processes of a `parallel`, with an `end` behind each. The answer is their lines of the fork table.
#[cycle(statement)]
fn put_children(context: &StatementContext, d: &mut CodeBuffer, ss: &List<Stmt>) -> List<ChildTable>
    ensures { Keeps d.old.instrs d.new.instrs
        ((written d.new ≡ with_children context.now d.old (statements (map statement_of ss.now)))
        × (result ≡ children_of context.now (length d.old.instrs.items.items)
        (statements (map statement_of ss.now)))) }
{
    let mut lines = List::new(context.program.alloc);
    for s in ss.items() {
        let entry = place(&mut d.instrs);
        d.instrs.push_to(&mut lines, child_line(context, s, entry));
        put_statement(context, d, s);
        d.instrs.put(Instr::End);
    }
    lines
}

/// The line of a fork table for a process that begins at `entry`.
fn child_line(context: &StatementContext, s: &Stmt, entry: u32) -> Result<ChildTable, Memory>
    ensures { IfOk result (λ x. x ≡ child_of context.now entry (statement_of s.now)) }
{
    let moved = moved(context.program.alloc, context.sets, s.number)?;
    let shared = shared(context.program.alloc, context.sets, s.number)?;
    Ok(ChildTable {
        entry,
        moved,
        shared,
        index: None,
    })
}

#[cycle(statement)]
fn put_parallel(context: &StatementContext, d: &mut CodeBuffer, ss: &List<Stmt>)
    ensures { Wrote d.old d.new (with_form context.now d.old
        (c.Parallel (statements (map statement_of ss.now)))) }
{
    let table = d.forks.len();
    let number = d.instrs.number(narrow(table));
    let blank = ForkTable {
        children: List::new(context.program.alloc),
    };
    d.instrs.push_to(&mut d.forks, Ok(blank));
    d.instrs.put(Instr::Fork(number));
    let at = count(&d.instrs);
    d.instrs.put(Instr::Jump(0));
    let children = put_children(context, d, ss);
    mend_jump(&mut d.instrs, at);
    patch_table(&mut d.forks, table, ForkTable { children });
}

/// The fork table of a forall whose element statement begins at `entry`.
fn index_table(
    context: &StatementContext,
    x: u32,
    s: &Stmt,
    entry: u32,
) -> Result<ForkTable, Memory>
    ensures { IfOk result (λ t. t ≡ index_table context.now x entry (statement_of s.now)) }
{
    let moved = moved(context.program.alloc, context.sets, s.number)?;
    let seen = shared(context.program.alloc, context.sets, s.number)?;
    let shared = but_index(context.program.alloc, x, &seen)?;
    let line = ChildTable {
        entry,
        moved,
        shared,
        index: Some(x),
    };
    let mut children = List::new(context.program.alloc);
    children.push(line)?;
    Ok(ForkTable { children })
}

fn inside(context: &StatementContext, x: u32) -> Result<Vec<Scope>, Memory>
    ensures { IfOk result (λ inner. inner.items ≡ scope.Index x ∷ context.now.scopes.now) }
{
    let mut inner = Writer::new(context.program.alloc);
    inner.put(Scope::Index(x));
    inner.extend(context.scopes);
    inner.finish()
}

/// The element statement of a forall, inside the scope of its index.
#[cycle(statement)]
fn put_inside(context: &StatementContext, d: &mut CodeBuffer, s: &Stmt, x: u32)
    ensures { Wrote d.old d.new (with_inside context.now d.old x (statement_of s.now)) }
{
    match inside(context, x) {
        Err(Memory) => d.instrs.lose(),
        Ok(inner) => {
            let within = StatementContext {
                program: context.program,
                sets: context.sets,
                scopes: inner.as_slice(),
            };
            put_statement(&within, d, s)
        }
    }
}

/// A forall behind its limits.
#[cycle(statement)]
fn put_spread(context: &StatementContext, d: &mut CodeBuffer, s: &Stmt, x: u32)
    ensures { Wrote d.old d.new (with_spread context.now d.old x (statement_of s.now)) }
{
    let number = d.instrs.number(narrow(d.forks.len()));
    let first = place(&mut d.instrs);
    let entry = d.instrs.number(sum(first, 2));
    d.instrs
        .push_to(&mut d.forks, index_table(context, x, s, entry));
    d.instrs.put(Instr::Forall(number));
    let at = count(&d.instrs);
    d.instrs.put(Instr::Jump(0));
    put_inside(context, d, s, x);
    d.instrs.put(Instr::End);
    mend_jump(&mut d.instrs, at);
}

#[cycle(statement)]
fn put_forall(
    context: &StatementContext,
    d: &mut CodeBuffer,
    s: &Stmt,
    x: u32,
    from: &Expr,
    to: &Expr,
)
    ensures { Wrote d.old d.new (with_form context.now d.old
        (c.Forall x (expression_of from.now) (expression_of to.now) (statement_of s.now))) }
{
    put_value(context.program, context.scopes, &mut d.instrs, from);
    put_value(context.program, context.scopes, &mut d.instrs, to);
    put_spread(context, d, s, x)
}

/// The statements of a `case`, with a jump behind each that is mended later. The answer is where each begins, and where
/// the jumps stand.
#[cycle(statement)]
fn put_arms(
    context: &StatementContext,
    d: &mut CodeBuffer,
    xs: &List<Arm>,
) -> (List<u32>, List<u32>)
    ensures { Keeps d.old.instrs d.new.instrs
        ((written d.new ≡ with_arms context.now d.old (arms (map arm_of xs.now)) 0)
        × (result.0 ≡ starts_of (plain_program context.now.program.now) (length d.old.instrs.items.items)
        (bare_arms (arms (map arm_of xs.now))))
        × (result.1 ≡ ends_of (plain_program context.now.program.now) (length d.old.instrs.items.items)
        (bare_arms (arms (map arm_of xs.now))))) }
{
    let mut starts = List::new(context.program.alloc);
    let mut ends = List::new(context.program.alloc);
    for a in xs.items() {
        mark(&mut d.instrs, &mut starts);
        put_statement(context, d, &a.body);
        mark(&mut d.instrs, &mut ends);
        d.instrs.put(Instr::Jump(0));
    }
    (starts, ends)
}

/// The tests and the statements of a `case` behind its selector.
#[cycle(statement)]
fn put_choices(context: &StatementContext, d: &mut CodeBuffer, xs: &List<Arm>)
    ensures { Wrote d.old d.new (with_choices context.now d.old (arms (map arm_of xs.now))) }
{
    let first = count(&d.instrs);
    put_blanks(&mut d.instrs, xs);
    d.instrs.put(Instr::Nocase);
    let (starts, ends) = put_arms(context, d, xs);
    let end = place(&mut d.instrs);
    fill_ends(&mut d.instrs.items, ends.items(), end);
    let filled = fill_tests(&mut d.instrs.items, first, xs, starts.items());
    d.instrs.note(filled);
}

#[cycle(statement)]
fn put_case(context: &StatementContext, d: &mut CodeBuffer, xs: &List<Arm>, e: &Expr)
    ensures { Wrote d.old d.new (with_form context.now d.old
        (c.Case (expression_of e.now) (arms (map arm_of xs.now)))) }
{
    put_value(context.program, context.scopes, &mut d.instrs, e);
    put_choices(context, d, xs)
}
