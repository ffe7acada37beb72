//! What is told of a run and of a replay: their ends, notes and outputs.

ghost use Rattle.std.specs.Prelude.{◌≡◌, ◌++◌, IfOk, codes};
ghost use Rattle.sp_base.specs.Adds.{Adds};
ghost use Rattle.sp_execute.specs.Witnesses.{IsReadyRun};
ghost use Rattle.sp_print.specs.OutcomeLines.{HasLines, end_text};
ghost use Rattle.sp_report.specs.WatcherReports.{AreFresh, reports};
ghost use Rattle.superpascal.specs.AnswerParts.{HasEndLines, IsTellable, lines_of_replay};
ghost use Rattle.superpascal.specs.Replays.{ending_of_replay};
ghost use Rattle.superpascal.specs.Runs.{end_lines, ending_of, generated_output, is_journal, run_notes, witness_text};

use crate::ending::Ending;
use sp_base::{Memory, Show, Writer};
use sp_execute::{Ran, witness};
use sp_journal::{End, print_journal};
use sp_print::{end_lines, verdict_line};
use sp_report::{Watcher, tell};
use std::alloc::Global;

/// What the end of a run is for the call.
pub(crate) fn ending_of(end: &End) -> Ending
    ensures { result ≡ ending_of end.now }
{
    match end {
        End::Done => Ending::Done,
        End::Deadlock(_) => Ending::Deadlock,
        End::Fault { .. } => Ending::Fault,
        End::Memory => Ending::OutOfMemory,
    }
}

fn is_journal(show: Show) -> bool
    ensures { result ≡ is_journal show }
{
    matches!(show, Show::Journal)
}

// Puts the lines of an end.
fn put_end(out: &mut Writer<u8>, alloc: Global, end: &End)
    requires { HasLines end.now }
    ensures { Adds out.old out.new (end_text end.now) }
{
    match end_lines(alloc, end) {
        Ok(lines) => out.extend(lines.as_slice()),
        Err(_) => out.lose(),
    }
}

/// Puts the lines of the end and of the verdict.
pub(crate) fn put_end_lines(out: &mut Writer<u8>, alloc: Global, ran: &Ran)
    requires { HasLines ran.now.closed.end }
    ensures { Adds out.old out.new (end_lines ran.now) }
{
    put_end(out, alloc, ran.closed.end());
    match verdict_line(alloc, &ran.verdict) {
        Ok(line) => out.extend(line.as_slice()),
        Err(_) => out.lose(),
    }
}

// Puts the end, the verdict and the chosen reports.
fn put_told(
    out: &mut Writer<u8>,
    alloc: Global,
    watchers: Vec<Box<dyn Watcher>>,
    show: Show,
    ran: &Ran,
)
    requires fresh { AreFresh told watchers.items }
    requires tellable { IsTellable ran.now }
    ensures { Adds out.old out.new
        (end_lines ran.now ++ reports text title watchers.items show ran.now.closed.journal.entries) }
{
    put_end_lines(out, alloc, ran);
    match tell(alloc, watchers, ran.closed.journal(), show) {
        Ok(reports) => out.extend(reports.as_slice()),
        Err(_) => out.lose(),
    }
}

/// The notes of `run`: the journal, or the end, the verdict and the chosen reports.
pub(crate) fn run_notes(
    alloc: Global,
    watchers: Vec<Box<dyn Watcher>>,
    show: Show,
    ran: &Ran,
) -> Result<Vec<u8>, Memory>
    requires fresh { AreFresh told watchers.items }
    requires tellable { IsTellable ran.now }
    ensures { IfOk result (λ notes. notes.items
        ≡ run_notes (reports text title watchers.items) show ran.now) }
{
    if is_journal(show) {
        return print_journal(alloc, ran.closed.journal());
    }
    let mut out = Writer::new(alloc);
    put_told(&mut out, alloc, watchers, show, ran);
    out.finish()
}

/// The text of the witness of the run's race; where there is no race, nothing.
pub(crate) fn witness_text(alloc: Global, ran: &Ran) -> Result<Vec<u8>, Memory>
    requires { IsReadyRun ran.now }
    ensures { IfOk result (λ text. text.items ≡ witness_text ran.now) }
{
    match witness(alloc, ran) {
        Ok(Some(journal)) => print_journal(alloc, &journal),
        Ok(None) => Ok(Vec::new(alloc)),
        Err(_) => Err(Memory),
    }
}

/// The output of `gen`: the size, the output of the run, the number of its entries, its end and its verdict.
pub(crate) fn generated_output(alloc: Global, size: u32, ran: &Ran) -> Result<Vec<u8>, Memory>
    requires { IsTellable ran.now }
    ensures { IfOk result (λ text. text.items ≡ generated_output size ran.now) }
{
    let mut out = Writer::new(alloc);
    out.extend(b"size ");
    out.decimal(size as u64);
    out.extend(b"\noutput ");
    out.extend(ran.closed.output().bytes());
    out.extend(b"\nentries ");
    out.decimal(ran.closed.journal().entries.len() as u64);
    out.extend(b"\n");
    put_end_lines(&mut out, alloc, ran);
    out.finish()
}

/// What the end of a replay is for the call; where there is none the run goes on.
pub(crate) fn ending_of_replay(end: &Option<End>) -> Ending
    ensures { result ≡ ending_of_replay end.now }
{
    match end {
        None => Ending::NoEnd,
        Some(end) => ending_of(end),
    }
}

// Puts the lines of the end, or that there is none.
fn put_last(out: &mut Writer<u8>, alloc: Global, end: &Option<End>)
    requires { HasEndLines end.now }
    ensures { Adds out.old out.new (lines_of_replay end.now) }
{
    match end {
        None => out.extend(b"no end\n"),
        Some(end) => put_end(out, alloc, end),
    }
}

/// The notes of `replay`.
pub(crate) fn replay_notes(alloc: Global, end: &Option<End>) -> Result<Vec<u8>, Memory>
    requires { HasEndLines end.now }
    ensures { IfOk result (λ text. text.items ≡ codes "replayed\n" ++ lines_of_replay end.now) }
{
    let mut out = Writer::new(alloc);
    out.extend(b"replayed\n");
    put_last(&mut out, alloc, end);
    out.finish()
}
