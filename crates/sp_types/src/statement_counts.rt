//! How many numbers a statement takes: the number behind a statement whose own number is given.

ghost use Rattle.std.specs.Prelude.{◌≡◌, ◌+◌, map};
ghost use Rattle.sp_tree.specs.Carried.{Keeps};
ghost use Rattle.sp_tree.specs.NamedOf.{statement_of, statement_form_of, statements, arms, arm_of, branches, branch_of};
ghost use Rattle.sp_tree.specs.NamedOf.{argument_of, arguments};
ghost use Rattle.sp_types.specs.TypeWalk.{statement_counted, form_counted, statements_counted};
ghost use Rattle.sp_types.specs.TypeWalk.{arms_counted, branches_counted, single_count, parts_count};

use sp_base::List;
use sp_tree::{NamedArg, NamedArm, NamedBranch, NamedForm, NamedStmt, StandardProcedure, Walk};

/// The sum. One that is no `u32` loses the walk.
pub fn sum(walk: &mut Walk, a: u32, b: u32) -> u32
    ensures { Keeps walk.old walk.new walk.old.first (result ≡ a + b) }
{
    match a.checked_add(b) {
        Some(n) => n,
        None => {
            walk.is_lost = true;
            0
        }
    }
}

/// A count as a `u32`. One that is none loses the walk.
pub fn narrow(walk: &mut Walk, n: usize) -> u32
    ensures { Keeps walk.old walk.new walk.old.first (result ≡ n) }
{
    if n < 4_294_967_296 {
        n as u32
    } else {
        walk.is_lost = true;
        0
    }
}

/// How many arguments of a standard procedure are evaluated beside the channel, and whether a line is read or written.
#[tactic(auto, using(crate::proofs::Counts::count_is, crate::proofs::Counts::count_behind_is))]
fn single_count(p: StandardProcedure, args: &[NamedArg]) -> usize
    ensures { result ≡ single_count p (arguments (map argument_of args.now)) }
{
    match p {
        StandardProcedure::Read | StandardProcedure::Write | StandardProcedure::Open => args.len(),
        StandardProcedure::Readln | StandardProcedure::Writeln => args.len() + 1,
        StandardProcedure::Send | StandardProcedure::Receive => args.len().saturating_sub(1),
    }
}

/// How many numbers a call of a standard procedure takes beside its own.
pub fn parts_count(walk: &mut Walk, p: StandardProcedure, args: &[NamedArg]) -> u32
    ensures { Keeps walk.old walk.new walk.old.first
        (result ≡ parts_count (single_count p (arguments (map argument_of args.now)))) }
{
    let n = single_count(p, args);
    if n == 1 { 0 } else { narrow(walk, n) }
}

/// The number behind a statement whose own number is given.
#[cycle(count)]
pub fn statement_counted(walk: &mut Walk, s: &NamedStmt, k: u32) -> u32
    ensures { Keeps walk.old walk.new walk.old.first (result ≡ statement_counted k (statement_of s.now)) }
{
    let k = sum(walk, k, 1);
    form_counted(walk, &s.form, k)
}

#[cycle(count)]
fn form_counted(walk: &mut Walk, form: &NamedForm, k: u32) -> u32
    ensures { Keeps walk.old walk.new walk.old.first (result ≡ form_counted k (statement_form_of form.now)) }
{
    match form {
        NamedForm::Empty | NamedForm::Assign(_, _) | NamedForm::Call(_, _) | NamedForm::Assume(_) =>
            k,
        NamedForm::Standard(p, args) => {
            let n = parts_count(walk, *p, args.items());
            sum(walk, k, n)
        }
        NamedForm::Sequence(ss) => statements_counted(walk, ss, k),
        NamedForm::If(_, s, o) => {
            let k = statement_counted(walk, s.get(), k);
            match o {
                None => k,
                Some(o) => statement_counted(walk, o.get(), k),
            }
        }
        NamedForm::Repeat(ss, _) => {
            let k = sum(walk, k, 1);
            statements_counted(walk, ss, k)
        }
        NamedForm::Case(_, choices) => arms_counted(walk, choices, k),
        NamedForm::Parallel(bs) => branches_counted(walk, bs, k),
        NamedForm::While(_, body) | NamedForm::For { body, .. } | NamedForm::Forall { body, .. } =>
            statement_counted(walk, body.get(), k),
    }
}

#[cycle(count)]
fn statements_counted(walk: &mut Walk, ss: &List<NamedStmt>, k: u32) -> u32
    ensures { Keeps walk.old walk.new walk.old.first
        (result ≡ statements_counted k (statements (map statement_of ss.now))) }
{
    let mut k = k;
    for s in ss.items() {
        k = statement_counted(walk, s, k);
    }
    k
}

#[cycle(count)]
fn arms_counted(walk: &mut Walk, xs: &List<NamedArm>, k: u32) -> u32
    ensures { Keeps walk.old walk.new walk.old.first (result ≡ arms_counted k (arms (map arm_of xs.now))) }
{
    let mut k = k;
    for x in xs.items() {
        k = statement_counted(walk, &x.body, k);
    }
    k
}

#[cycle(count)]
fn branches_counted(walk: &mut Walk, xs: &List<NamedBranch>, k: u32) -> u32
    ensures { Keeps walk.old walk.new walk.old.first
        (result ≡ branches_counted k (branches (map branch_of xs.now))) }
{
    let mut k = k;
    for x in xs.items() {
        k = sum(walk, k, 1);
        k = statements_counted(walk, &x.statements, k);
    }
    k
}
