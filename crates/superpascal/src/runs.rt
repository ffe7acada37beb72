//! The run of a program's code and what is told of it, for `run` and `witness`; and the command `gen`.

ghost use Rattle.std.specs.Prelude.{ℕ, ◌≤◌, List, IfOk};
ghost use Rattle.sp_execute.specs.Witnesses.{IsReadyRun};
ghost use Rattle.sp_report.specs.WatcherReports.{AreFresh, reports};
ghost use Rattle.sp_tree.specs.PlainChecked.{Program as Checked};
ghost use Rattle.sp_words.specs.Ranges.{IsInRange};
ghost use Rattle.sp_words.specs.declared.command.Command.TheVariants.{Gen};
ghost use Rattle.sp_words.specs.declared.requests.Telling.TheVariants.{Reports, Witness};
ghost use Rattle.superpascal.specs.AnswerParts.{HasCode};
ghost use Rattle.superpascal.specs.Causes.{Files, IsUntouched, Stream};
ghost use Rattle.superpascal.specs.Runs.{IsRunOf, Reports as AReports};
ghost use Rattle.superpascal.specs.Steps.{AnswersCommand, ReportsGenerated, ReportsRun};

use crate::ending::{Answer, Ending};
use crate::have;
use crate::host::Host;
use crate::notes::{ending_of, generated_output, put_end_lines, run_notes, witness_text};
use crate::prepare::compile;
use sp_base::{Limits, Memory, Show, Text, Writer};
use sp_code::Code;
use sp_execute::{Ran, accepted_programs_are_ready, races_are_shown, run_program};
use sp_gen::generated;
use sp_outside::Gate;
use sp_report::Watcher;
use sp_words::{Telling, accepted_options_are_in_range, default_limits};
use std::alloc::Global;
use std::sync::{Arc, Wait};
use std::thread::Threads;

/// Runs the code of a text that breaks no rule, with the verdict on the run.
pub(crate) fn run_prepared<R: Threads + Wait + Sync, G: Gate>(
    host: &Host<R, G>,
    code: Code,
    input: Text,
    workers: u32,
    limits: &Limits,
) -> Result<Ran, Memory>
    requires range { IsInRange workers limits.now }
    requires code { (program : List ℕ) × (tree : Checked) × HasCode program tree code }
    ensures ready { IfOk result IsReadyRun }
    ensures run { IfOk result (λ r. (program : List ℕ) (tree : Checked) → HasCode program tree code
        → IsRunOf program input workers limits.now r) }
{
    accepted_programs_are_ready();
    races_are_shown();
    let Ok(code) = Arc::new(host.alloc, code) else {
        return Err(Memory);
    };
    let Ok(input) = Arc::new(host.alloc, input) else {
        return Err(Memory);
    };
    run_program(host.rt, host.alloc, code, input, workers, limits, host.gate)
}

// Tells of a run by its output and its end, its verdict and these reports, or by its journal.
fn reported(
    alloc: Global,
    watchers: Vec<Box<dyn Watcher>>,
    show: Show,
    ran: Ran,
) -> Result<Answer, Ending>
    requires fresh { AreFresh told watchers.items }
    requires run { IsReadyRun ran }
    ensures { ReportsRun (reports text title watchers.items) (Reports show) ran result }
{
    let notes = have!(run_notes(alloc, watchers, show, &ran));
    Ok(Answer {
        ending: ending_of(ran.closed.end()),
        ran: Some(ran),
        executed: None,
        output: None,
        notes: Text::of(notes),
    })
}

// Tells of a run by the witness of its race, its end and its verdict.
fn witnessed(alloc: Global, ran: Ran) -> Result<Answer, Ending>
    requires run { IsReadyRun ran }
    ensures { (made : AReports) → ReportsRun made Witness ran result }
{
    let output = have!(witness_text(alloc, &ran));
    let mut notes = Writer::new(alloc);
    put_end_lines(&mut notes, alloc, &ran);
    let notes = have!(notes.finish());
    Ok(Answer {
        ending: ending_of(ran.closed.end()),
        ran: Some(ran),
        executed: None,
        output: Some(Text::of(output)),
        notes: Text::of(notes),
    })
}

/// Tells of a run.
pub(crate) fn tell_run(
    alloc: Global,
    watchers: Vec<Box<dyn Watcher>>,
    telling: Telling,
    ran: Ran,
) -> Result<Answer, Ending>
    requires fresh { AreFresh told watchers.items }
    requires run { IsReadyRun ran }
    ensures { ReportsRun (reports text title watchers.items) telling ran result }
{
    match telling {
        Telling::Reports(show) => reported(alloc, watchers, show, ran),
        Telling::Witness => witnessed(alloc, ran),
    }
}

// Tells of a run of the generated program of this size.
fn tell_generated(alloc: Global, size: u32, ran: Ran) -> Result<Answer, Ending>
    requires run { IsReadyRun ran }
    ensures { ReportsGenerated size ran result }
{
    let output = have!(generated_output(alloc, size, &ran));
    Ok(Answer {
        ending: ending_of(ran.closed.end()),
        ran: Some(ran),
        executed: None,
        output: Some(Text::of(output)),
        notes: Text::of(Vec::new(alloc)),
    })
}

/// Makes the program of this size, runs it on no input, and tells of the run.
pub(crate) fn run_generated<R: Threads + Wait + Sync, G: Gate>(
    host: &Host<R, G>,
    size: u32,
    workers: u32,
) -> Result<Answer, Ending>
    requires size { (1 ≤ size) × (size ≤ 2000) }
    requires workers { (1 ≤ workers) × (workers ≤ 64) }
    ensures { (f : Files) (s : Stream) (made : AReports) → IsUntouched s
        → AnswersCommand f s made (Gen size workers) result }
{
    accepted_options_are_in_range();
    let text = have!(generated(host.alloc, size));
    let code = compile(host.rt, host.alloc, text.as_slice())?;
    let input = Text::of(Vec::new(host.alloc));
    let ran = have!(run_prepared(host, code, input, workers, &default_limits()));
    tell_generated(host.alloc, size, ran)
}
