//! The indices of the foralls in a statement part.

ghost use Rattle.std.specs.Prelude.{◌≡◌, ◌++◌, map};
ghost use Rattle.sp_tree.specs.Carried.{Keeps};
ghost use Rattle.sp_tree.specs.NamedTree.{indices, form_indices, statements_indices, arms_indices, branches_indices};
ghost use Rattle.sp_tree.specs.SyntaxOf.{statement_of, statement_form_of, statements, arms, arm_of, branches};
ghost use Rattle.sp_tree.specs.SyntaxOf.{branch_of};

use sp_base::List;
use sp_tree::{Role, SynArm, SynBranch, SynForm, SynStmt, Variable, Walk};
use std::alloc::Global;

/// The indices of the foralls in a statement of a block.
pub fn indices(alloc: Global, walk: &mut Walk, s: &SynStmt, block: u32) -> List<Variable>
    ensures { Keeps walk.old walk.new walk.old.first (result ≡ indices block (statement_of s.now)) }
{
    let mut out = Vec::new(alloc);
    push_indices(alloc, walk, s, block, &mut out);
    List::of(out)
}

/// Puts the indices of the foralls in a statement of a block behind the variables.
#[cycle(indices)]
fn push_indices(alloc: Global, walk: &mut Walk, s: &SynStmt, block: u32, out: &mut Vec<Variable>)
    ensures { Keeps walk.old walk.new walk.old.first
        (out.new.items ≡ out.old.items ++ indices block (statement_of s.now)) }
{
    push_form(alloc, walk, &s.form, block, out);
}

#[cycle(indices)]
fn push_form(alloc: Global, walk: &mut Walk, form: &SynForm, block: u32, out: &mut Vec<Variable>)
    ensures { Keeps walk.old walk.new walk.old.first
        (out.new.items ≡ out.old.items ++ form_indices block (statement_form_of form.now)) }
{
    match form {
        SynForm::Empty => {}
        SynForm::Assign(_, _) => {}
        SynForm::Call(_, _) => {}
        SynForm::Sequence(ss) => push_statements(alloc, walk, ss.items(), block, out),
        SynForm::If(_, a, b) => {
            push_indices(alloc, walk, a.get(), block, out);
            match b {
                None => {}
                Some(b) => push_indices(alloc, walk, b.get(), block, out),
            }
        }
        SynForm::While(_, a) => push_indices(alloc, walk, a.get(), block, out),
        SynForm::Repeat(ss, _) => push_statements(alloc, walk, ss.items(), block, out),
        SynForm::Case(_, choices) => push_arms(alloc, walk, choices.items(), block, out),
        SynForm::For { body, .. } => push_indices(alloc, walk, body.get(), block, out),
        SynForm::Parallel(bs) => push_branches(alloc, walk, bs.items(), block, out),
        SynForm::Forall { name, body, .. } => {
            let text = walk.text(alloc, &name.text);
            walk.push(
                out,
                Variable {
                    name: text,
                    kind: 0,
                    block,
                    role: Role::Index,
                    at: name.at,
                },
            );
            push_indices(alloc, walk, body.get(), block, out);
        }
        SynForm::Assume(_) => {}
    }
}

#[cycle(indices)]
fn push_statements(
    alloc: Global,
    walk: &mut Walk,
    ss: &[SynStmt],
    block: u32,
    out: &mut Vec<Variable>,
)
    ensures { Keeps walk.old walk.new walk.old.first
        (out.new.items ≡ out.old.items ++ statements_indices block (statements (map statement_of ss.now))) }
{
    for s in ss {
        push_indices(alloc, walk, s, block, out);
    }
}

#[cycle(indices)]
fn push_arms(
    alloc: Global,
    walk: &mut Walk,
    choices: &[SynArm],
    block: u32,
    out: &mut Vec<Variable>,
)
    ensures { Keeps walk.old walk.new walk.old.first
        (out.new.items ≡ out.old.items ++ arms_indices block (arms (map arm_of choices.now))) }
{
    for a in choices {
        push_indices(alloc, walk, &a.body, block, out);
    }
}

#[cycle(indices)]
fn push_branches(
    alloc: Global,
    walk: &mut Walk,
    bs: &[SynBranch],
    block: u32,
    out: &mut Vec<Variable>,
)
    ensures { Keeps walk.old walk.new walk.old.first
        (out.new.items ≡ out.old.items ++ branches_indices block (branches (map branch_of bs.now))) }
{
    for b in bs {
        push_statements(alloc, walk, b.statements.items(), block, out);
    }
}
