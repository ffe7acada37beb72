//! How much the forks of a tree hand over (`hands_too_much`), seen before any of it is written.

use sp_base::Boxed;
use sp_tree::{Arm, Checked, Form, Stmt};
use sp_varsets::{Sets, VarSet};

/// The most variables that all forks hand over together. A code file with more would be longer than one may be: each
/// takes two bytes or more there.
const MOST_HANDED: u32 = 33_554_432;

// What is left of so many variables behind those of a set.
fn behind_set(set: &VarSet, left: u32) -> u32 {
    let mut from = 0;
    'left: for k in 0..left {
        match set.next(from) {
            Some(x) => from = x.saturating_add(1),
            None => return left - k,
        }
    }
    0
}

// What is left behind the sets that a process is handed.
fn behind_process(s: &Stmt, sets: &Sets, left: u32) -> u32 {
    let left = behind_set(sets.targets(s.number), left);
    behind_set(sets.expressions(s.number), left)
}

fn behind_processes(ss: &[Stmt], sets: &Sets, left: u32) -> u32 {
    let mut left = left;
    for s in ss {
        left = behind_process(s, sets, left);
    }
    left
}

#[cycle(behind)]
fn behind_statement(s: &Stmt, sets: &Sets, left: u32) -> u32 {
    behind_form(&s.form, sets, left)
}

#[cycle(behind)]
fn behind_other(s: &Option<Boxed<Stmt>>, sets: &Sets, left: u32) -> u32 {
    match s {
        None => left,
        Some(s) => behind_statement(s.get(), sets, left),
    }
}

#[cycle(behind)]
fn behind_statements(ss: &[Stmt], sets: &Sets, left: u32) -> u32 {
    let mut left = left;
    for s in ss {
        left = behind_statement(s, sets, left);
    }
    left
}

#[cycle(behind)]
fn behind_arms(arms: &[Arm], sets: &Sets, left: u32) -> u32 {
    let mut left = left;
    for arm in arms {
        left = behind_statement(&arm.body, sets, left);
    }
    left
}

// What is left behind all forks in a statement.
#[cycle(behind)]
fn behind_form(form: &Form, sets: &Sets, left: u32) -> u32 {
    match form {
        Form::Sequence(ss) => behind_statements(ss.items(), sets, left),
        Form::If(_, a, b) => {
            let left = behind_statement(a.get(), sets, left);
            behind_other(b, sets, left)
        }
        Form::While(_, s) => behind_statement(s.get(), sets, left),
        Form::Repeat(s, _) => behind_statement(s.get(), sets, left),
        Form::For { body, .. } => behind_statement(body.get(), sets, left),
        Form::Case(_, arms) => behind_arms(arms.items(), sets, left),
        Form::Parallel(ss) => {
            let left = behind_processes(ss.items(), sets, left);
            behind_statements(ss.items(), sets, left)
        }
        Form::Forall { body, .. } => {
            let left = behind_process(body.get(), sets, left);
            behind_statement(body.get(), sets, left)
        }
        _ => left,
    }
}

/// Whether all forks together hand over more variables than there is room for.
pub fn hands_too_much(checked: &Checked, sets: &Sets) -> bool {
    let mut left = MOST_HANDED;
    for block in checked.blocks.items() {
        left = behind_statement(&block.body, sets, left);
    }
    left == 0
}
