//! The command that runs a code file: `exec`.

ghost use Rattle.std.specs.Prelude.{List, ℕ, IfOk};
ghost use Rattle.sp_print.specs.OutcomeLines.{HasLines};
ghost use Rattle.sp_words.specs.Ranges.{IsInRange};
ghost use Rattle.sp_words.specs.declared.command.Command.TheVariants.{Exec};
ghost use Rattle.superpascal.specs.Causes.{files_of, stream_of};
ghost use Rattle.superpascal.specs.Executions.{IsExecutionOf};
ghost use Rattle.superpascal.specs.Runs.{Reports};
ghost use Rattle.superpascal.specs.Steps.{AnswersCommand, TellsExecution};
ghost use Rattle.superpascal.specs.Texts.{IsFileOf};

use crate::ending::{Answer, Ending};
use crate::have;
use crate::host::Host;
use crate::notes::ending_of;
use crate::prepare::{prepare_file, read_input};
use sp_base::{Limits, Memory, Text};
use sp_code::Code;
use sp_codefile::laws::a_text_is_of_one_code;
use sp_execute::{accepted_programs_are_ready, run_code_file};
use sp_kernel::Closed;
use sp_outside::{Gate, Library, Source};
use sp_print::end_lines;
use sp_verify_rules::laws::verified_code_is_sound;
use sp_words::ExecRequest;
use std::alloc::Global;
use std::sync::{Arc, Wait};
use std::thread::Threads;

// Runs the code of a file that breaks no rule.
fn run_file<R: Threads + Wait + Sync, G: Gate>(
    host: &Host<R, G>,
    code: Code,
    input: Text,
    workers: u32,
    limits: &Limits,
) -> Result<Closed, Memory>
    requires range { IsInRange workers limits.now }
    requires file { (bytes : List ℕ) × IsFileOf code bytes }
    ensures { IfOk result (λ r. (bytes : List ℕ) → IsFileOf code bytes
        → IsExecutionOf bytes input limits.now r) }
{
    verified_code_is_sound();
    accepted_programs_are_ready();
    a_text_is_of_one_code();
    let Ok(code) = Arc::new(host.alloc, code) else {
        return Err(Memory);
    };
    let Ok(input) = Arc::new(host.alloc, input) else {
        return Err(Memory);
    };
    run_code_file(host.rt, host.alloc, code, input, workers, limits, host.gate)
}

// Tells of a run by its output and its end.
fn tell_execution(alloc: Global, closed: Closed) -> Result<Answer, Ending>
    requires { HasLines closed.end }
    ensures { TellsExecution closed result }
{
    let notes = have!(end_lines(alloc, closed.end()));
    Ok(Answer {
        ending: ending_of(closed.end()),
        ran: None,
        executed: Some(closed),
        output: None,
        notes: Text::of(notes),
    })
}

/// Runs the code file that is asked for on the input, where its code breaks no rule, and tells of the run.
pub(crate) fn exec_file<R: Threads + Wait + Sync, L: Library, I: Source, G: Gate>(
    host: &Host<R, G>,
    asked: &ExecRequest,
    library: &mut L,
    input: &mut I,
) -> Result<Answer, Ending>
    requires range { IsInRange asked.now.workers asked.now.limits }
    ensures { (reports : Reports)
        → AnswersCommand (files_of L.held L.faults library.old library.new)
        (stream_of I.left I.faults input.old input.new) reports
        (Exec asked.now) result }
{
    let code = prepare_file(host.alloc, library, &asked.file)?;
    let input = read_input(host.alloc, input)?;
    let closed = have!(run_file(host, code, input, asked.workers, &asked.limits));
    tell_execution(host.alloc, closed)
}
