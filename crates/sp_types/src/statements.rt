//! The pass over statements: with types, numbered, each call of a standard procedure as single statements.

ghost use Rattle.std.specs.Prelude.{◌≡◌, false, map, option_map};
ghost use Rattle.sp_tree.specs.NamedOf.{expression_of, statement_of, statement_form_of, statements, arms, arm_of};
ghost use Rattle.sp_tree.specs.NamedOf.{branches, branch_of, else_part};
ghost use Rattle.sp_tree.specs.PlainNamed.{Repeat, Case, For, Forall};
ghost use Rattle.sp_tree.specs.Carried.{Keeps};
ghost use Rattle.sp_tree.specs.CheckedOf as checked;
ghost use Rattle.sp_tree.specs.PlainChecked as c;
ghost use Rattle.sp_types.specs.Tables.{with_next_number, with_index_type};
ghost use Rattle.sp_types.specs.Kinds.{expression_kind};
ghost use Rattle.sp_types.specs.TypeWalk.{statement_after, form_after, statements_after, arms_after, arm_after};
ghost use Rattle.sp_types.specs.TypeWalk.{branches_after, other_after};
ghost use Rattle.sp_types.specs.Firsts.{statement_first, statement_form_first, statements_first, arms_first, arm_first};
ghost use Rattle.sp_types.specs.Firsts.{branches_first, other_first};
ghost use Rattle.sp_types.specs.CheckedTree.{checked_expression, checked_statement, checked_statement_form};
ghost use Rattle.sp_types.specs.CheckedTree.{checked_statements, checked_arms, checked_arm, checked_branches};
ghost use Rattle.sp_types.specs.CheckedTree.{first_place, in_sequence, checked_other};

use crate::choices::{check_choices, constant_numbers};
use crate::expressions::{type_actuals, type_variable, type_wanted};
use crate::performs::type_perform;
use crate::rules::{Wanted, wanted_rule};
use crate::tables::Tables;
use sp_base::{Boxed, List, Place};
use sp_tree::{
    Arm, Expr, Form, NamedArm, NamedBranch, NamedExpr, NamedForm, NamedStmt, Stmt, Walk,
};
use std::alloc::Global;

/// A statement. Its number is the next one; afterwards the tables have the number behind it, and the types of the
/// indices in it.
#[cycle(statement)]
pub fn type_statement(s: NamedStmt, alloc: Global, t: &mut Tables, walk: &mut Walk) -> Stmt
    ensures tree { Keeps walk.old walk.new (statement_first t.old (statement_of s) walk.old.first)
        (checked.statement_of result ≡ checked_statement t.old (statement_of s)) }
    ensures after { walk.new.is_lost ≡ false → t.new ≡ statement_after t.old (statement_of s) }
{
    let (at, form) = s.parts();
    let number = t.next;
    walk.after(t.count(1));
    let form = type_form(form, alloc, t, walk, at);
    Stmt { number, at, form }
}

/// The form of a statement. Where there is no box for a statement inside, the walk is lost, and what stands in its
/// place is no answer.
#[cycle(statement)]
fn type_form(form: NamedForm, alloc: Global, t: &mut Tables, walk: &mut Walk, at: Place) -> Form
    ensures tree { Keeps walk.old walk.new (statement_form_first t.old (statement_form_of form) walk.old.first)
        (checked.statement_form_of result ≡ checked_statement_form t.old at (statement_form_of form)) }
    ensures after { walk.new.is_lost ≡ false → t.new ≡ form_after t.old (statement_form_of form) }
{
    match form {
        NamedForm::Empty => Form::Empty,
        NamedForm::Assign(v, e) => {
            let v = type_variable(alloc, t, walk, v);
            let e = type_wanted(alloc, t, walk, e, Wanted::Assigned(v.kind));
            Form::Assign(v.tree, e.tree)
        }
        NamedForm::Call(f, args) => {
            Form::Call(f, type_actuals(alloc, t, walk, args, t.formals(f)))
        }
        NamedForm::Standard(p, args) => type_perform(alloc, t, walk, p, args, at),
        NamedForm::Sequence(ss) => Form::Sequence(type_statements(ss, alloc, t, walk)),
        NamedForm::If(e, s, o) => {
            let e = type_wanted(alloc, t, walk, e, Wanted::Condition);
            let s = type_statement(s.into_inner(), alloc, t, walk);
            let o = type_else(o, alloc, t, walk);
            match walk.boxed(alloc, s) {
                Some(s) => Form::If(e.tree, s, o),
                None => Form::Assume(e.tree),
            }
        }
        NamedForm::While(e, s) => {
            let e = type_wanted(alloc, t, walk, e, Wanted::Condition);
            let s = type_statement(s.into_inner(), alloc, t, walk);
            match walk.boxed(alloc, s) {
                Some(s) => Form::While(e.tree, s),
                None => Form::Assume(e.tree),
            }
        }
        NamedForm::Repeat(ss, e) => type_repeat(ss, alloc, t, walk, at, e),
        NamedForm::Case(e, choices) => type_choices(choices, alloc, t, walk, e),
        NamedForm::For {
            variable,
            at,
            from,
            down,
            to,
            body,
        } => type_for(body, alloc, t, walk, variable, at, from, down, to),
        NamedForm::Parallel(bs) => Form::Parallel(type_branches(bs, alloc, t, walk, at)),
        NamedForm::Forall {
            index,
            from,
            to,
            body,
        } => type_forall(body, alloc, t, walk, index, from, to),
        NamedForm::Assume(e) => {
            let e = type_wanted(alloc, t, walk, e, Wanted::Condition);
            Form::Assume(e.tree)
        }
    }
}

/// The statement of an `else`, if there is one.
#[cycle(statement)]
fn type_else(
    o: Option<Boxed<NamedStmt>>,
    alloc: Global,
    t: &mut Tables,
    walk: &mut Walk,
) -> Option<Boxed<Stmt>>
    ensures tree { Keeps walk.old walk.new (other_first t.old (else_part (option_map statement_of o)) walk.old.first)
        (checked.else_part (option_map checked.statement_of result)
        ≡ checked_other t.old (else_part (option_map statement_of o))) }
    ensures after { walk.new.is_lost ≡ false → t.new ≡ other_after t.old (else_part (option_map statement_of o)) }
{
    match o {
        None => None,
        Some(s) => {
            let s = type_statement(s.into_inner(), alloc, t, walk);
            walk.boxed(alloc, s)
        }
    }
}

/// A repeated statement, and the condition behind it.
#[cycle(statement)]
fn type_repeat(
    ss: List<NamedStmt>,
    alloc: Global,
    t: &mut Tables,
    walk: &mut Walk,
    at: Place,
    e: NamedExpr,
) -> Form
    ensures tree { Keeps walk.old walk.new (statement_form_first t.old
        (Repeat (statements (map statement_of ss)) (expression_of e)) walk.old.first)
        (checked.statement_form_of result
        ≡ checked_statement_form t.old at (Repeat (statements (map statement_of ss)) (expression_of e))) }
    ensures after { walk.new.is_lost ≡ false → t.new ≡ statements_after (with_next_number t.old)
        (statements (map statement_of ss)) }
{
    let s = type_sequence(ss, alloc, t, walk, at);
    let e = type_wanted(alloc, t, walk, e, Wanted::Condition);
    repeat_form(alloc, walk, s, e.tree)
}

fn repeat_form(alloc: Global, walk: &mut Walk, s: Stmt, e: Expr) -> Form
    ensures { Keeps walk.old walk.new walk.old.first
        (checked.statement_form_of result ≡ c.Repeat (checked.statement_of s) (checked.expression_of e)) }
{
    match walk.boxed(alloc, s) {
        Some(s) => Form::Repeat(s, e),
        None => Form::Assume(e),
    }
}

/// A `case` statement: its selector, the constants of all choices, then their statements.
#[cycle(statement)]
fn type_choices(
    choices: List<NamedArm>,
    alloc: Global,
    t: &mut Tables,
    walk: &mut Walk,
    e: NamedExpr,
) -> Form
    ensures tree { Keeps walk.old walk.new (statement_form_first t.old (Case (expression_of e) (arms
        (map arm_of choices))) walk.old.first)
        (checked.statement_form_of result ≡ c.Case (checked_expression t.old (expression_of e))
        (checked.arms (checked_arms t.old (arms (map arm_of choices))))) }
    ensures after { walk.new.is_lost ≡ false → t.new ≡ arms_after t.old (arms (map arm_of choices)) }
{
    let e = type_wanted(alloc, t, walk, e, Wanted::Selector);
    check_choices(alloc, t, walk, e.kind, choices.items());
    let choices = type_arms(choices, alloc, t, walk);
    Form::Case(e.tree, choices)
}

/// A forall, whose index gets the type of its first limit.
#[cycle(statement)]
fn type_forall(
    body: Boxed<NamedStmt>,
    alloc: Global,
    t: &mut Tables,
    walk: &mut Walk,
    index: u32,
    from: NamedExpr,
    to: NamedExpr,
) -> Form
    ensures tree { Keeps walk.old walk.new (statement_form_first t.old
        (Forall index (expression_of from) (expression_of to) (statement_of body)) walk.old.first)
        (checked.statement_form_of result
        ≡ c.Forall index (checked_expression t.old (expression_of from)) (checked_expression t.old (expression_of to))
        (checked_statement (with_index_type t.old index (expression_kind t.old (expression_of from)))
        (statement_of body))) }
    ensures after { walk.new.is_lost ≡ false → t.new ≡ form_after t.old
        (Forall index (expression_of from) (expression_of to) (statement_of body)) }
{
    let from = type_wanted(alloc, t, walk, from, Wanted::Range);
    let to = type_wanted(alloc, t, walk, to, Wanted::Limit(from.kind));
    t.index(index, from.kind);
    let body = type_statement(body.into_inner(), alloc, t, walk);
    match walk.boxed(alloc, body) {
        Some(body) => Form::Forall {
            index,
            from: from.tree,
            to: to.tree,
            body,
        },
        None => Form::Assume(from.tree),
    }
}

/// A `for` statement, whose limits have the type of its variable.
#[cycle(statement)]
fn type_for(
    body: Boxed<NamedStmt>,
    alloc: Global,
    t: &mut Tables,
    walk: &mut Walk,
    variable: u32,
    at: Place,
    from: NamedExpr,
    down: bool,
    to: NamedExpr,
) -> Form
    ensures tree { Keeps walk.old walk.new (statement_form_first t.old
        (For variable at (expression_of from) down (expression_of to) (statement_of body)) walk.old.first)
        (checked.statement_form_of result
        ≡ c.For variable at (checked_expression t.old (expression_of from)) down
        (checked_expression t.old (expression_of to)) (checked_statement t.old (statement_of body))) }
    ensures after { walk.new.is_lost ≡ false → t.new ≡ statement_after t.old (statement_of body) }
{
    let kind = t.variable_kind(variable);
    walk.note(wanted_rule(t, Wanted::Range, at, kind));
    let from = type_wanted(alloc, t, walk, from, Wanted::Limit(kind));
    let to = type_wanted(alloc, t, walk, to, Wanted::Limit(kind));
    let body = type_statement(body.into_inner(), alloc, t, walk);
    match walk.boxed(alloc, body) {
        Some(body) => Form::For {
            variable,
            at,
            from: from.tree,
            down,
            to: to.tree,
            body,
        },
        None => Form::Assume(from.tree),
    }
}

#[cycle(statement)]
fn type_statements(
    ss: List<NamedStmt>,
    alloc: Global,
    t: &mut Tables,
    walk: &mut Walk,
) -> List<Stmt>
    ensures tree { Keeps walk.old walk.new (statements_first t.old (statements (map statement_of ss)) walk.old.first)
        (map checked.statement_of result
        ≡ checked_statements t.old (statements (map statement_of ss))) }
    ensures after { walk.new.is_lost ≡ false → t.new ≡ statements_after t.old (statements (map statement_of ss)) }
{
    let mut out = Vec::new(alloc);
    for s in ss.into_vec() {
        let y = type_statement(s, alloc, t, walk);
        walk.push(&mut out, y);
    }
    List::of(out)
}

/// The place of the first of some statements.
fn first_place(at: Place, ss: &[NamedStmt]) -> Place
    ensures { result ≡ first_place at (statements (map statement_of ss.now)) }
{
    match ss.first() {
        None => at,
        Some(s) => s.at,
    }
}

/// Statements as one, which has the number before theirs.
#[cycle(statement)]
fn type_sequence(
    ss: List<NamedStmt>,
    alloc: Global,
    t: &mut Tables,
    walk: &mut Walk,
    at: Place,
) -> Stmt
    ensures tree { Keeps walk.old walk.new (statements_first (with_next_number t.old) (statements
        (map statement_of ss)) walk.old.first)
        (checked.statement_of result
        ≡ in_sequence t.old.next (first_place at (statements (map statement_of ss)))
        (checked_statements (with_next_number t.old) (statements (map statement_of ss)))) }
    ensures after { walk.new.is_lost ≡ false → t.new ≡ statements_after (with_next_number t.old)
        (statements (map statement_of ss)) }
{
    let number = t.next;
    let at = first_place(at, ss.items());
    walk.after(t.count(1));
    let ss = type_statements(ss, alloc, t, walk);
    Stmt {
        number,
        at,
        form: Form::Sequence(ss),
    }
}

#[cycle(statement)]
fn type_branches(
    bs: List<NamedBranch>,
    alloc: Global,
    t: &mut Tables,
    walk: &mut Walk,
    at: Place,
) -> List<Stmt>
    ensures tree { Keeps walk.old walk.new (branches_first t.old (branches (map branch_of bs)) walk.old.first)
        (map checked.statement_of result
        ≡ checked_branches t.old at (branches (map branch_of bs))) }
    ensures after { walk.new.is_lost ≡ false → t.new ≡ branches_after t.old (branches (map branch_of bs)) }
{
    let mut out = Vec::new(alloc);
    for b in bs.into_vec() {
        let NamedBranch { statements } = b;
        let y = type_sequence(statements, alloc, t, walk, at);
        walk.push(&mut out, y);
    }
    List::of(out)
}

#[cycle(statement)]
fn type_arms(xs: List<NamedArm>, alloc: Global, t: &mut Tables, walk: &mut Walk) -> List<Arm>
    ensures tree { Keeps walk.old walk.new (arms_first t.old (arms (map arm_of xs)) walk.old.first)
        (map checked.arm_of result
        ≡ checked_arms t.old (arms (map arm_of xs))) }
    ensures after { walk.new.is_lost ≡ false → t.new ≡ arms_after t.old (arms (map arm_of xs)) }
{
    let mut out = Vec::new(alloc);
    for x in xs.into_vec() {
        let y = type_arm(x, alloc, t, walk);
        walk.push(&mut out, y);
    }
    List::of(out)
}

#[cycle(statement)]
fn type_arm(a: NamedArm, alloc: Global, t: &mut Tables, walk: &mut Walk) -> Arm
    ensures tree { Keeps walk.old walk.new (arm_first t.old (arm_of a) walk.old.first)
        (checked.arm_of result ≡ checked_arm t.old (arm_of a)) }
    ensures after { walk.new.is_lost ≡ false → t.new ≡ arm_after t.old (arm_of a) }
{
    let NamedArm { constants, body } = a;
    let constants = constant_numbers(alloc, t, walk, constants.items());
    let body = type_statement(body, alloc, t, walk);
    Arm { constants, body }
}
