//! The lines that a tree has in the text of the sets, gathered and sorted.

ghost use Rattle.std.specs.Prelude.{◌≡◌, [], ◌∷◌, None, IfOk, map, option_map};
ghost use Rattle.sp_varsets.specs.Parts.{number_of};
ghost use Rattle.sp_varsets.specs.LineForks.{arms_lines, form_lines, other_lines, process_lines, statement_lines};
ghost use Rattle.sp_varsets.specs.LineForks.{statements_lines, tree_lines};
ghost use Rattle.sp_varsets.specs.TextOrders.{IsInOrder, line_cmp};
ghost use Rattle.sp_tree.specs.CheckedOf.{arm_of, arms, else_part, program_of, statement_form_of, statement_of};
ghost use Rattle.sp_tree.specs.CheckedOf.{statements};
ghost use Rattle.sp_base.specs.Adds.{Adds};

use crate::have;
use crate::sets_line::{SetsLine, line_cmp};
use sp_base::{Boxed, List, Memory, Place, Writer};
use sp_tree::{Arm, Checked, Form, Stmt};
use std::alloc::Global;

/// Puts a line for each process statement of a parallel statement at this place.
fn process_lines(lines: &mut Writer<SetsLine>, at: Place, ss: &[Stmt])
    ensures { Adds lines.old lines.new (process_lines at 0 (statements (map statement_of ss.now))) }
{
    if ss.len() > 4_294_967_296 {
        lines.lose();
        return;
    }
    for (k, s) in ss.iter().enumerate() {
        lines.put(SetsLine {
            at,
            part: Some(k as u32),
            statement: s.number,
        });
    }
}

/// Puts the line of an element statement.
fn element_line(lines: &mut Writer<SetsLine>, at: Place, s: &Stmt)
    ensures { Adds lines.old lines.new
        (record { at = at; part = None; statement = number_of (statement_of s.now) } ∷ []) }
{
    lines.put(SetsLine {
        at,
        part: None,
        statement: s.number,
    });
}

#[cycle(lines)]
fn statement_lines(lines: &mut Writer<SetsLine>, s: &Stmt)
    ensures { Adds lines.old lines.new (statement_lines (statement_of s.now)) }
{
    form_lines(lines, s.at, &s.form)
}

#[cycle(lines)]
fn other_lines(lines: &mut Writer<SetsLine>, s: &Option<Boxed<Stmt>>)
    ensures { Adds lines.old lines.new (other_lines (else_part (option_map statement_of s.now))) }
{
    match s {
        None => {}
        Some(s) => statement_lines(lines, s.get()),
    }
}

#[cycle(lines)]
fn statements_lines(lines: &mut Writer<SetsLine>, ss: &List<Stmt>)
    ensures { Adds lines.old lines.new (statements_lines (statements (map statement_of ss.now))) }
{
    for s in ss.items() {
        statement_lines(lines, s);
    }
}

#[cycle(lines)]
fn arms_lines(lines: &mut Writer<SetsLine>, choices: &List<Arm>)
    ensures { Adds lines.old lines.new (arms_lines (arms (map arm_of choices.now))) }
{
    for arm in choices.items() {
        statement_lines(lines, &arm.body);
    }
}

#[cycle(lines)]
#[tactic(auto, using(crate::proofs::StatementLines::no_sends, crate::proofs::StatementLines::no_receives))]
fn form_lines(lines: &mut Writer<SetsLine>, at: Place, form: &Form)
    ensures { Adds lines.old lines.new (form_lines at (statement_form_of form.now)) }
{
    match form {
        Form::Sequence(ss) => statements_lines(lines, ss),
        Form::If(_, a, b) => {
            statement_lines(lines, a.get());
            other_lines(lines, b)
        }
        Form::While(_, s) => statement_lines(lines, s.get()),
        Form::Repeat(s, _) => statement_lines(lines, s.get()),
        Form::For { body, .. } => statement_lines(lines, body.get()),
        Form::Case(_, choices) => arms_lines(lines, choices),
        Form::Parallel(ss) => {
            process_lines(lines, at, ss.items());
            statements_lines(lines, ss)
        }
        Form::Forall { body, .. } => {
            element_line(lines, at, body.get());
            statement_lines(lines, body.get())
        }
        Form::Empty => {}
        Form::Assign(_, _) => {}
        Form::Call(_, _) => {}
        Form::Assume(_) => {}
        Form::ReadValue(_) => {}
        Form::ReadLine => {}
        Form::WriteValue(_, _) => {}
        Form::WriteText(_, _) => {}
        Form::WriteLine => {}
        Form::Open(_) => {}
        Form::Send(_, _) => {}
        Form::Receive(_, _) => {}
        Form::SendEach { .. } => {}
        Form::ReceiveEach { .. } => {}
    }
}

/// The lines of all blocks, in no order.
fn tree_lines(alloc: Global, checked: &Checked) -> Result<Vec<SetsLine>, Memory>
    ensures { IfOk result (λ lines. lines.items ≡ tree_lines (program_of checked.now)) }
{
    let mut lines = Writer::new(alloc);
    for block in checked.blocks.items() {
        statement_lines(&mut lines, &block.body);
    }
    lines.finish()
}

/// The lines of the tree, in order.
pub(crate) fn ordered_lines(alloc: Global, checked: &Checked) -> Result<Vec<SetsLine>, Memory>
    ensures { IfOk result (λ lines. IsInOrder line_cmp (tree_lines (program_of checked.now)) lines.items) }
{
    let mut lines = have!(tree_lines(alloc, checked));
    lines.sort_unstable_by(|a, b| line_cmp(a, b));
    Ok(lines)
}
