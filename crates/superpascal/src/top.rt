//! The top call, and its order of work by commands.

ghost use Rattle.std.specs.Prelude.{◌≡◌, List, ℕ, Some, map};
ghost use Rattle.std.specs.String.{string_bytes};
ghost use Rattle.sp_report.specs.WatcherReports.{AreFresh, reports};
ghost use Rattle.sp_words.specs.Ranges.{IsInRange};
ghost use Rattle.sp_words.specs.Words.{command_of};
ghost use Rattle.sp_words.specs.declared.command.Command.TheVariants.{Run};
ghost use Rattle.superpascal.specs.Calls.{call, sink_of};
ghost use Rattle.superpascal.specs.Causes.{Cause, files_of, stream_of};
ghost use Rattle.superpascal.specs.Promise.{Promise};
ghost use Rattle.superpascal.specs.Steps.{AnswersCommand, AnswersWords, ReadsCommand};

use crate::answers::ended;
use crate::ending::{Answer, Ending};
use crate::executions::exec_file;
use crate::have;
use crate::host::Host;
use crate::outcome::Outcome;
use crate::prepare::{prepare, read_input};
use crate::replays::replay;
use crate::runs::{run_generated, run_prepared, tell_run};
use crate::texts::{build, check, lay_out, list, one_code_text, tell_sets};
use crate::writer::write;
use sp_codefile::laws::a_text_is_of_one_code;
use sp_execute::one_unfit_entry;
use sp_format::one_layout;
use sp_front::{accepted_texts_are_disjoint, one_answer, one_compilation, one_listing};
use sp_journal::one_journal_of_a_text;
use sp_outside::{Gate, Library, Sink, Source};
use sp_report::Watcher;
use sp_varsets::one_sets_text;
use sp_words::{Command, RunRequest, WordsError, accepted_options_are_in_range, read_words};
use std::alloc::Global;
use std::sync::Wait;
use std::thread::Threads;

// The command that the words ask for.
fn read_command(alloc: Global, words: &[String]) -> Result<Command, Ending>
    ensures { ReadsCommand (command_of (map string_bytes words.now)) result }
{
    match read_words(alloc, words) {
        Ok(command) => Ok(command),
        Err(WordsError::Refused) => Err(Ending::BadWords),
        Err(WordsError::Memory) => Err(Ending::OutOfMemory),
    }
}

// Does what `run` or `witness` asks: the way of a text, as the table of docs/ARCHITECTURE.md has it.
fn run<R: Threads + Wait + Sync, L: Library, I: Source, G: Gate>(
    host: &Host<R, G>,
    asked: &RunRequest,
    library: &mut L,
    input: &mut I,
    watchers: Vec<Box<dyn Watcher>>,
) -> Result<Answer, Ending>
    requires fresh { AreFresh told watchers.items }
    requires range { IsInRange asked.now.workers asked.now.limits }
    ensures { AnswersCommand (files_of L.held L.faults library.old library.new)
        (stream_of I.left I.faults input.old input.new)
        (reports text title watchers.items) (Run asked.now) result }
{
    let code = prepare(host.rt, host.alloc, library, &asked.file)?;
    let input = read_input(host.alloc, input)?;
    let ran = have!(run_prepared(host, code, input, asked.workers, &asked.limits));
    tell_run(host.alloc, watchers, asked.telling, ran)
}

// Does what the command asks.
fn dispatch<R: Threads + Wait + Sync, L: Library, I: Source, G: Gate>(
    host: &Host<R, G>,
    command: Command,
    library: &mut L,
    input: &mut I,
    watchers: Vec<Box<dyn Watcher>>,
) -> Result<Answer, Ending>
    requires fresh { AreFresh told watchers.items }
    requires asked { (words : List (List ℕ)) × (command_of words ≡ Some command) }
    ensures { AnswersCommand (files_of L.held L.faults library.old library.new)
        (stream_of I.left I.faults input.old input.new)
        (reports text title watchers.items) command result }
{
    accepted_options_are_in_range();
    match command {
        Command::Check(file) => check(host.rt, host.alloc, library, &file),
        Command::Code(file) => list(host.rt, host.alloc, library, &file),
        Command::Build(file) => build(host.rt, host.alloc, library, &file),
        Command::Sets(file) => tell_sets(host.rt, host.alloc, library, &file),
        Command::Format(file) => lay_out(host.alloc, library, &file),
        Command::Run(asked) => run(host, &asked, library, input, watchers),
        Command::Gen { size, workers } => run_generated(host, size, workers),
        Command::Replay(asked) => replay(host.rt, host.alloc, &asked, library, input),
        Command::Exec(asked) => exec_file(host, &asked, library, input),
    }
}

// Does what the words ask.
fn answer_words<R: Threads + Wait + Sync, L: Library, I: Source, G: Gate>(
    host: &Host<R, G>,
    words: &[String],
    library: &mut L,
    input: &mut I,
    watchers: Vec<Box<dyn Watcher>>,
) -> Result<Answer, Ending>
    requires fresh { AreFresh told watchers.items }
    ensures { AnswersWords (files_of L.held L.faults library.old library.new)
        (stream_of I.left I.faults input.old input.new)
        (reports text title watchers.items)
        (command_of (map string_bytes words.now)) result }
{
    let command = read_command(host.alloc, words)?;
    dispatch(host, command, library, input, watchers)
}

// The answer to the words, whatever ended what they ask.
fn answer<R: Threads + Wait + Sync, L: Library, I: Source, G: Gate>(
    host: &Host<R, G>,
    words: &[String],
    library: &mut L,
    input: &mut I,
    watchers: Vec<Box<dyn Watcher>>,
) -> Answer
    requires fresh { AreFresh told watchers.items }
    ensures { Cause (files_of L.held L.faults library.old library.new)
        (stream_of I.left I.faults input.old input.new)
        (reports text title watchers.items)
        (command_of (map string_bytes words.now)) result }
{
    match answer_words(host, words, library, input, watchers) {
        Ok(answer) => answer,
        Err(ending) => ended(host.alloc, ending),
    }
}

/// The top call. `words` are those behind the program's own name, as `docs/COMMANDS.md` says. `run` runs the program of
/// the text: its output goes to `output`, and the end, the verdict and the chosen reports, or the journal alone, go to
/// `notes`. The watchers make the reports; they have been told nothing before. Each worker enters the gate before each
/// turn that it makes.
///
/// The table of statuses stands in `docs/COMMANDS.md`: which status comes when, with which line of the notes. Of the
/// answers inside a call `status_of` and `line_of` of `specs/Answers.antt` say the same; 6 comes where the count of
/// faults of a sink rose, and displaces the status that was due. 5 comes where the library's count of faults under a
/// name that was loaded rose, or the source's.
///
/// `witness` runs as `run` does, and writes to `output`, in place of what the program wrote, the witness of the race
/// that its verdict names: a journal that `replay` follows to the fault F6. Where there is no race, it writes nothing
/// there. Its notes are the end and the verdict.
///
/// `build` writes the code of the text to `output`, as a text that can be read again. `exec` runs what such a text
/// says, also one that no `build` wrote, where its code breaks no rule of code files: its output goes to `output`, and
/// the lines of its end to `notes`. There is no verdict, since there is no program.
///
/// `gen` runs the program that it generates on no input, reads no file and no input, and writes the size, the output,
/// the number of entries, the end and the verdict to `output`; its status is that of the run.
///
/// `replay` runs the program of the text along a journal, on the calling thread, and gives no run back. `trace` and
/// `where` do so too, and write to `output`, in place of what the program wrote, a line for each entry with its place
/// and its message, or the state after the last entry: the processes with their places, calls and variables. `exec`
/// gives its run back apart, without a verdict.
///
/// The order of work is: the words; the load; the rules of the text and its code, or for `exec` those of the code file;
/// for `replay`, `trace` and `where` the load of the journal and its text; the input, for these three, `run`, `witness`
/// and `exec` alone; the run; the verdict; the texts; writing `output`; writing `notes`. The first step that ends the
/// call decides the status. Where the words, a load, the text, the journal, the code file, the input or memory end the
/// call, nothing is written to `output`. After a failed write to `output` nothing is written to `notes`. A text is
/// compiled by a thread of `rt` with a large stack, so a chain of operators may be as long as the text; the workers are
/// threads of `rt` too.
pub fn superpascal<R: Threads + Wait + Sync, L: Library, I: Source, O: Sink, N: Sink, G: Gate>(
    rt: &R,
    alloc: Global,
    words: &[String],
    library: &mut L,
    input: &mut I,
    output: &mut O,
    notes: &mut N,
    gate: &G,
    watchers: Vec<Box<dyn Watcher>>,
) -> Outcome
    requires fresh { AreFresh told watchers.items }
    ensures { Promise (call (map string_bytes words.now)
        (files_of L.held L.faults library.old library.new)
        (stream_of I.left I.faults input.old input.new)
        (reports text title watchers.items)
        (sink_of O.written O.faults output.old output.new)
        (sink_of N.written N.faults notes.old notes.new) result) }
{
    one_answer();
    one_compilation();
    one_layout();
    one_listing();
    one_code_text();
    a_text_is_of_one_code();
    one_sets_text();
    one_journal_of_a_text();
    one_unfit_entry();
    accepted_texts_are_disjoint();
    let host = Host { rt, alloc, gate };
    let answer = answer(&host, words, library, input, watchers);
    write(answer, output, notes)
}
