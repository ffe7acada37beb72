//! The walk through statements, with numbers for names.

ghost use Rattle.std.specs.Prelude.{◌≡◌, map, false, option_map};
ghost use Rattle.std.specs.Option.{option_copied};
ghost use Rattle.sp_tree.specs.Carried.{Keeps};
ghost use Rattle.sp_tree.specs.Scopes.{find, inner_env, local_of_outer};
ghost use Rattle.sp_tree.specs.NameWalk.{statement_local, form_local, statements_local, arms_local};
ghost use Rattle.sp_tree.specs.NameWalk.{arm_local, branches_local};
ghost use Rattle.sp_tree.specs.NameWalk.{local_of_index, blocks_around, other_local};
ghost use Rattle.sp_tree.specs.NamedTree.{named_target, named_statement, named_statement_form};
ghost use Rattle.sp_tree.specs.NamedTree.{named_statements, named_arms, named_arm, named_branches, named_other};
ghost use Rattle.sp_tree.specs.NamedTree.{named_arguments, procedure_named, assigned_number};
ghost use Rattle.sp_tree.specs.NamedOf as named;
ghost use Rattle.sp_tree.specs.PlainSyntax.{Repeat, For, Forall};
ghost use Rattle.sp_tree.specs.PlainNamed as n;
ghost use Rattle.sp_tree.specs.SyntaxOf.{expression_of, variable_of, arguments_of, statement_of, statement_form_of};
ghost use Rattle.sp_tree.specs.SyntaxOf.{statements, statements_of, arms, arm_of, branches, branch_of};
ghost use Rattle.sp_tree.specs.SyntaxOf.{else_part};
ghost use Rattle.sp_scope.specs.Firsts.{assigned_first, call_first, statement_first, other_first};
ghost use Rattle.sp_scope.specs.Firsts.{statement_form_first, statements_first, arms_first, arm_first};
ghost use Rattle.sp_scope.specs.Firsts.{branches_first, element_first};

use crate::calls::{count, is_whole, references_of, rest_of};
use crate::constants::name_constants;
use crate::declarations::check_declares;
use crate::expressions::{name_arguments, name_expression, name_selectors, variable_number};
use crate::numbers::next_variable;
use crate::rules::{assign_rule, loop_rule, procedure_rule};
use crate::scopes::Scopes;
use crate::variables::declare_variable;
use sp_base::{Boxed, List, Place};
use sp_tree::{
    Meaning, Name, NamedArg, NamedArm, NamedBranch, NamedExpr, NamedForm, NamedStmt, NamedVar,
    Role, Sort, SynArg, SynArm, SynBranch, SynExpr, SynForm, SynStmt, SynVar, Walk,
};
use std::alloc::Global;

fn assigned_number(answer: u32, m: Option<&Meaning>) -> u32
    ensures { result ≡ assigned_number answer (option_copied m.entry) }
{
    match m {
        Some(Meaning::Function { .. }) => answer,
        Some(Meaning::Variable { number, .. }) => *number,
        _ => 0,
    }
}

/// The left side of an assignment.
fn name_assigned(alloc: Global, scopes: &Scopes, walk: &mut Walk, v: SynVar) -> NamedVar
    ensures { Keeps walk.old walk.new (assigned_first scopes.now (variable_of v) walk.old.first)
        (named.variable_of result ≡ named_target scopes.now (variable_of v)) }
{
    let SynVar { name, selectors } = v;
    let m = scopes.find(&name.text);
    let whole = is_whole(selectors.items());
    walk.note(assign_rule(scopes.block(), name.at, whole, m));
    let variable = assigned_number(scopes.answer(), m);
    let selectors = name_selectors(alloc, scopes, walk, selectors);
    NamedVar {
        variable,
        at: name.at,
        selectors,
    }
}

fn procedure_form(m: Option<&Meaning>, args: List<NamedArg>) -> NamedForm
    ensures { named.statement_form_of result ≡ procedure_named (option_copied m.entry) (named.arguments_of args) }
{
    match m {
        Some(Meaning::Procedure { block, .. }) => NamedForm::Call(*block, args),
        Some(Meaning::StandardProcedure(p)) => NamedForm::Standard(*p, args),
        _ => NamedForm::Call(0, args),
    }
}

/// A call as a statement.
fn name_call(
    alloc: Global,
    scopes: &Scopes,
    walk: &mut Walk,
    f: Name,
    args: List<SynArg>,
) -> NamedForm
    ensures { Keeps walk.old walk.new (call_first scopes.now f (arguments_of args) walk.old.first)
        (named.statement_form_of result ≡ procedure_named (find scopes.now f.text)
        (named.arguments (named_arguments scopes.now (arguments_of args)))) }
{
    let m = scopes.find(&f.text);
    walk.note(procedure_rule(f.at, count(args.items()), m));
    let args = name_arguments(alloc, scopes, walk, args, references_of(m), rest_of(m));
    procedure_form(m, args)
}

/// A statement. The blocks of its foralls are left again, but their indices are counted.
#[cycle(statement)]
pub fn name_statement(alloc: Global, scopes: &mut Scopes, walk: &mut Walk, s: SynStmt) -> NamedStmt
    ensures found { Keeps walk.old walk.new (statement_first scopes.old.around scopes.old.local
        (statement_of s) walk.old.first)
        (named.statement_of result ≡ named_statement scopes.old.around scopes.old.local (statement_of s)) }
    ensures after { walk.new.is_lost ≡ false → scopes.new ≡ inner_env scopes.old.around
        (statement_local scopes.old.local (statement_of s)) }
{
    let (at, form) = s.parts();
    let form = name_statement_form(alloc, scopes, walk, form);
    NamedStmt { at, form }
}

/// The form of a statement. Where there is no box for a statement inside, the walk is lost, and what stands in its
/// place is no answer.
#[cycle(statement)]
fn name_statement_form(
    alloc: Global,
    scopes: &mut Scopes,
    walk: &mut Walk,
    form: SynForm,
) -> NamedForm
    ensures found { Keeps walk.old walk.new (statement_form_first scopes.old.around scopes.old.local
        (statement_form_of form) walk.old.first)
        (named.statement_form_of result ≡ named_statement_form scopes.old.around scopes.old.local
        (statement_form_of form)) }
    ensures after { walk.new.is_lost ≡ false → scopes.new ≡ inner_env scopes.old.around
        (form_local scopes.old.local (statement_form_of form)) }
{
    match form {
        SynForm::Empty => NamedForm::Empty,
        SynForm::Assign(v, e) => {
            let v = name_assigned(alloc, scopes, walk, v);
            NamedForm::Assign(v, name_expression(alloc, scopes, walk, e))
        }
        SynForm::Call(f, args) => name_call(alloc, scopes, walk, f, args),
        SynForm::Sequence(ss) => NamedForm::Sequence(name_statements(alloc, scopes, walk, ss)),
        SynForm::If(e, a, b) => {
            let e = name_expression(alloc, scopes, walk, e);
            let a = name_statement(alloc, scopes, walk, a.into_inner());
            let b = name_else(alloc, scopes, walk, b);
            match walk.boxed(alloc, a) {
                Some(a) => NamedForm::If(e, a, b),
                None => NamedForm::Assume(e),
            }
        }
        SynForm::While(e, a) => {
            let e = name_expression(alloc, scopes, walk, e);
            let a = name_statement(alloc, scopes, walk, a.into_inner());
            match walk.boxed(alloc, a) {
                Some(a) => NamedForm::While(e, a),
                None => NamedForm::Assume(e),
            }
        }
        SynForm::Repeat(ss, e) => name_repeat(alloc, scopes, walk, ss, e),
        SynForm::Case(e, choices) => {
            let e = name_expression(alloc, scopes, walk, e);
            NamedForm::Case(e, name_arms(alloc, scopes, walk, choices))
        }
        SynForm::For {
            name,
            from,
            down,
            to,
            body,
        } => name_for(alloc, scopes, walk, body, name, from, down, to),
        SynForm::Parallel(bs) => NamedForm::Parallel(name_branches(alloc, scopes, walk, bs)),
        SynForm::Forall {
            name,
            from,
            to,
            body,
        } => name_forall(alloc, scopes, walk, body, name, from, to),
        SynForm::Assume(e) => NamedForm::Assume(name_expression(alloc, scopes, walk, e)),
    }
}

/// The statement of an `else`, if there is one.
#[cycle(statement)]
fn name_else(
    alloc: Global,
    scopes: &mut Scopes,
    walk: &mut Walk,
    b: Option<Boxed<SynStmt>>,
) -> Option<Boxed<NamedStmt>>
    ensures found { Keeps walk.old walk.new (other_first scopes.old.around scopes.old.local (else_part
        (option_map statement_of b)) walk.old.first)
        (named.else_part (option_map named.statement_of result)
        ≡ named_other scopes.old.around scopes.old.local (else_part (option_map statement_of b))) }
    ensures after { walk.new.is_lost ≡ false → scopes.new ≡ inner_env scopes.old.around
        (other_local scopes.old.local (else_part (option_map statement_of b))) }
{
    match b {
        None => None,
        Some(b) => {
            let s = name_statement(alloc, scopes, walk, b.into_inner());
            walk.boxed(alloc, s)
        }
    }
}

fn repeat_form(ss: List<NamedStmt>, e: NamedExpr) -> NamedForm
    ensures { named.statement_form_of result ≡ n.Repeat (named.statements_of ss) (named.expression_of e) }
{
    NamedForm::Repeat(ss, e)
}

#[cycle(statement)]
fn name_repeat(
    alloc: Global,
    scopes: &mut Scopes,
    walk: &mut Walk,
    ss: List<SynStmt>,
    e: SynExpr,
) -> NamedForm
    ensures found { Keeps walk.old walk.new (statement_form_first scopes.old.around scopes.old.local (Repeat
        (statements_of ss) (expression_of e)) walk.old.first)
        (named.statement_form_of result ≡ named_statement_form scopes.old.around scopes.old.local (Repeat
        (statements_of ss) (expression_of e))) }
    ensures after { walk.new.is_lost ≡ false → scopes.new ≡ inner_env scopes.old.around
        (form_local scopes.old.local (Repeat (statements_of ss) (expression_of e))) }
{
    let ss = name_statements(alloc, scopes, walk, ss);
    let e = name_expression(alloc, scopes, walk, e);
    repeat_form(ss, e)
}

#[cycle(statement)]
fn name_for(
    alloc: Global,
    scopes: &mut Scopes,
    walk: &mut Walk,
    body: Boxed<SynStmt>,
    name: Name,
    from: SynExpr,
    down: bool,
    to: SynExpr,
) -> NamedForm
    ensures found { Keeps walk.old walk.new (statement_form_first scopes.old.around scopes.old.local
        (For name (expression_of from) down (expression_of to) (statement_of body)) walk.old.first)
        (named.statement_form_of result ≡ named_statement_form scopes.old.around scopes.old.local
        (For name (expression_of from) down (expression_of to) (statement_of body))) }
    ensures after { walk.new.is_lost ≡ false → scopes.new ≡ inner_env scopes.old.around
        (form_local scopes.old.local (For name (expression_of from) down (expression_of to) (statement_of body))) }
{
    let m = scopes.find(&name.text);
    let variable = variable_number(m);
    walk.note(loop_rule(scopes.block(), name.at, m));
    let from = name_expression(alloc, scopes, walk, from);
    let to = name_expression(alloc, scopes, walk, to);
    let body = name_statement(alloc, scopes, walk, body.into_inner());
    match walk.boxed(alloc, body) {
        Some(body) => NamedForm::For {
            variable,
            at: name.at,
            from,
            down,
            to,
            body,
        },
        None => NamedForm::Assume(from),
    }
}

#[cycle(statement)]
fn name_forall(
    alloc: Global,
    scopes: &mut Scopes,
    walk: &mut Walk,
    body: Boxed<SynStmt>,
    name: Name,
    from: SynExpr,
    to: SynExpr,
) -> NamedForm
    ensures found { Keeps walk.old walk.new (statement_form_first scopes.old.around scopes.old.local
        (Forall name (expression_of from) (expression_of to) (statement_of body)) walk.old.first)
        (named.statement_form_of result ≡ named_statement_form scopes.old.around scopes.old.local
        (Forall name (expression_of from) (expression_of to) (statement_of body))) }
    ensures after { walk.new.is_lost ≡ false → scopes.new ≡ inner_env scopes.old.around
        (form_local scopes.old.local (Forall name (expression_of from) (expression_of to) (statement_of body))) }
{
    let index = next_variable(walk, scopes.counts());
    let from = name_expression(alloc, scopes, walk, from);
    let to = name_expression(alloc, scopes, walk, to);
    let body = name_element(alloc, scopes, walk, body.into_inner(), &name);
    match walk.boxed(alloc, body) {
        Some(body) => NamedForm::Forall {
            index,
            from,
            to,
            body,
        },
        None => NamedForm::Assume(from),
    }
}

/// The element statement of a forall, in a block of its own with the index.
#[cycle(statement)]
fn name_element(
    alloc: Global,
    scopes: &mut Scopes,
    walk: &mut Walk,
    body: SynStmt,
    x: &Name,
) -> NamedStmt
    ensures found { Keeps walk.old walk.new (element_first scopes.old.around scopes.old.local x.now
        (statement_of body) walk.old.first)
        (named.statement_of result ≡ named_statement (blocks_around scopes.old.around scopes.old.local)
        (local_of_index scopes.old.local x.now) (statement_of body)) }
    ensures after { walk.new.is_lost ≡ false → scopes.new ≡ inner_env scopes.old.around
        (local_of_outer scopes.old.local (statement_local (local_of_index scopes.old.local x.now)
        (statement_of body))) }
{
    let block = scopes.block();
    let answer = scopes.answer();
    scopes.open(alloc, walk, block, answer);
    walk.note(check_declares(scopes, x, Sort::Variable));
    declare_variable(alloc, scopes, walk, x, Role::Index);
    let body = name_statement(alloc, scopes, walk, body);
    scopes.leave(block, answer);
    body
}

#[cycle(statement)]
fn name_statements(
    alloc: Global,
    scopes: &mut Scopes,
    walk: &mut Walk,
    ss: List<SynStmt>,
) -> List<NamedStmt>
    ensures found { Keeps walk.old walk.new (statements_first scopes.old.around scopes.old.local (statements
        (map statement_of ss)) walk.old.first)
        (map named.statement_of result ≡ named_statements scopes.old.around scopes.old.local (statements
        (map statement_of ss))) }
    ensures after { walk.new.is_lost ≡ false → scopes.new ≡ inner_env scopes.old.around
        (statements_local scopes.old.local (statements (map statement_of ss))) }
{
    let mut out = Vec::new(alloc);
    for s in ss.into_vec() {
        let t = name_statement(alloc, scopes, walk, s);
        walk.push(&mut out, t);
    }
    List::of(out)
}

#[cycle(statement)]
fn name_arm(alloc: Global, scopes: &mut Scopes, walk: &mut Walk, a: SynArm) -> NamedArm
    ensures found { Keeps walk.old walk.new (arm_first scopes.old.around scopes.old.local (arm_of a) walk.old.first)
        (named.arm_of result ≡ named_arm scopes.old.around scopes.old.local (arm_of a)) }
    ensures after { walk.new.is_lost ≡ false → scopes.new ≡ inner_env scopes.old.around
        (arm_local scopes.old.local (arm_of a)) }
{
    let SynArm { constants, body } = a;
    let constants = name_constants(alloc, scopes, walk, constants.items());
    let body = name_statement(alloc, scopes, walk, body);
    NamedArm { constants, body }
}

#[cycle(statement)]
fn name_arms(
    alloc: Global,
    scopes: &mut Scopes,
    walk: &mut Walk,
    choices: List<SynArm>,
) -> List<NamedArm>
    ensures found { Keeps walk.old walk.new (arms_first scopes.old.around scopes.old.local (arms
        (map arm_of choices)) walk.old.first)
        (map named.arm_of result ≡ named_arms scopes.old.around scopes.old.local (arms (map arm_of choices))) }
    ensures after { walk.new.is_lost ≡ false → scopes.new ≡ inner_env scopes.old.around
        (arms_local scopes.old.local (arms (map arm_of choices))) }
{
    let mut out = Vec::new(alloc);
    for a in choices.into_vec() {
        let t = name_arm(alloc, scopes, walk, a);
        walk.push(&mut out, t);
    }
    List::of(out)
}

#[cycle(statement)]
fn name_branch(alloc: Global, scopes: &mut Scopes, walk: &mut Walk, b: SynBranch) -> NamedBranch
    ensures found { Keeps walk.old walk.new (statements_first scopes.old.around scopes.old.local
        (branch_of b) walk.old.first)
        (named.branch_of result ≡ named.statements (named_statements scopes.old.around scopes.old.local
        (branch_of b))) }
    ensures after { walk.new.is_lost ≡ false → scopes.new ≡ inner_env scopes.old.around
        (statements_local scopes.old.local (branch_of b)) }
{
    let SynBranch { statements } = b;
    NamedBranch {
        statements: name_statements(alloc, scopes, walk, statements),
    }
}

#[cycle(statement)]
fn name_branches(
    alloc: Global,
    scopes: &mut Scopes,
    walk: &mut Walk,
    bs: List<SynBranch>,
) -> List<NamedBranch>
    ensures found { Keeps walk.old walk.new (branches_first scopes.old.around scopes.old.local (branches
        (map branch_of bs)) walk.old.first)
        (map named.branch_of result ≡ named_branches scopes.old.around scopes.old.local (branches (map branch_of bs))) }
    ensures after { walk.new.is_lost ≡ false → scopes.new ≡ inner_env scopes.old.around
        (branches_local scopes.old.local (branches (map branch_of bs))) }
{
    let mut out = Vec::new(alloc);
    for b in bs.into_vec() {
        let t = name_branch(alloc, scopes, walk, b);
        walk.push(&mut out, t);
    }
    List::of(out)
}
