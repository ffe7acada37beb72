//! Calls over a library, a source and sinks in memory.

ghost use Rattle.std.specs.Prelude.{◌≤◌};
ghost use Rattle.sp_report.specs.WatcherReports.{AreFresh};

use sp_base::{List, Text};
use sp_outside::{Gate, MemoryLibrary, MemorySink, MemorySource, OpenGate};
use sp_report::{Census, ProcessTree, Timeline, Waiting, Watcher, in_order};
use std::alloc::{AllocError, Global};
use std::process::Abort;
use std::sync::Wait;
use std::thread::Threads;
use superpascal::{Outcome, superpascal};

/// A text that writes 42.
pub const ANSWER: &str = "program a; var x: integer; begin x := 6; write(x * 7) end.";

/// The notes of a run that is done and ordered.
pub const ORDERED: &str = "done\nordered\n";

/// The words of a run with one worker.
pub const RUN: [&str; 4] = ["run", "--workers", "1", "a.sp"];

/// These bytes. Where no memory is left there are none.
pub fn copy(alloc: Global, bytes: &[u8]) -> Vec<u8> {
    let mut all = Vec::new(alloc);
    let _ = all.extend_from_slice(bytes);
    all
}

// So many zeros. Where no memory is left there are none.
fn zeros(alloc: Global, count: usize) -> Vec<u8> {
    match vec![in alloc; 0u8; count] {
        Ok(bytes) => bytes,
        Err(_) => Vec::new(alloc),
    }
}

// A file of this name.
fn file(alloc: Global, name: &str, bytes: &[u8]) -> (Text, Text) {
    (
        Text::of(copy(alloc, name.as_bytes())),
        Text::of(copy(alloc, bytes)),
    )
}

// This text under two names, and this journal.
fn files(alloc: Global, text: &str, journal: &[u8]) -> List<(Text, Text)> {
    let mut files = List::new(alloc);
    let _ = files.push(file(alloc, "a.sp", text.as_bytes()));
    let _ = files.push(file(alloc, "-a", text.as_bytes()));
    let _ = files.push(file(alloc, "j", journal));
    files
}

// The calls that fail.
fn calls(alloc: Global, failing: &[u32]) -> List<u32> {
    match List::from_slice(alloc, failing) {
        Ok(calls) => calls,
        Err(_) => List::new(alloc),
    }
}

/// A source that gives at most so many of these bytes a call, of which these calls fail.
pub fn source_of(alloc: Global, input: Vec<u8>, most: usize, failing: &[u32]) -> MemorySource
    requires { 1 ≤ most }
{
    MemorySource::new(input, most, calls(alloc, failing))
}

/// A source that gives all that is asked for.
pub fn source(alloc: Global, input: Vec<u8>) -> MemorySource {
    source_of(alloc, input, 4096, &[])
}

// A sink that takes a byte a call, of which these calls fail.
fn sink(alloc: Global, failing: &[u32]) -> MemorySink {
    MemorySink::new(zeros(alloc, 1024), 1, calls(alloc, failing))
}

fn words_of(alloc: Global, words: &[&str]) -> Vec<String> {
    let mut all = Vec::new(alloc);
    for word in words {
        if let Ok(word) = String::from_str(alloc, word) {
            let _ = all.push(word);
        }
    }
    all
}

// The status of a call, and whether it told of the run of a program, and of a code file.
type Ended = (u8, bool, bool);

// How the call with these watchers ended.
fn call_watched<R: Threads + Wait + Sync, G: Gate>(
    rt: &R,
    alloc: Global,
    words: &[String],
    library: &mut MemoryLibrary,
    input: &mut MemorySource,
    output: &mut MemorySink,
    notes: &mut MemorySink,
    gate: &G,
    watchers: Vec<Box<dyn Watcher>>,
) -> Ended
    requires fresh { AreFresh told watchers.items }
{
    let outcome = superpascal(
        rt, alloc, words, library, input, output, notes, gate, watchers,
    );
    let ended = (
        outcome.status,
        outcome.ran.is_some(),
        outcome.executed.is_some(),
    );
    drop(outcome);
    ended
}

// The same of the call with the four watchers.
fn call_over<R: Threads + Wait + Sync, G: Gate>(
    rt: &R,
    alloc: Global,
    words: &[String],
    library: &mut MemoryLibrary,
    input: &mut MemorySource,
    output: &mut MemorySink,
    notes: &mut MemorySink,
    gate: &G,
) -> Result<Ended, AllocError> {
    let timeline: Box<dyn Watcher> = Box::new(alloc, Timeline::new(alloc))?;
    let census: Box<dyn Watcher> = Box::new(alloc, Census::new(alloc))?;
    let tree: Box<dyn Watcher> = Box::new(alloc, ProcessTree::new(alloc))?;
    let waiting: Box<dyn Watcher> = Box::new(alloc, Waiting::new(alloc))?;
    let watchers = in_order(alloc, timeline, census, tree, waiting)?;
    Ok(call_watched(
        rt, alloc, words, library, input, output, notes, gate, watchers,
    ))
}

/// The calls of the library and of the sinks that fail.
#[derive(Clone, Copy)]
pub struct Failing<'a> {
    pub library: &'a [u32],
    pub output: &'a [u32],
    pub notes: &'a [u32],
}

pub const NONE: Failing<'static> = Failing {
    library: &[],
    output: &[],
    notes: &[],
};

/// What a call has given.
#[derive(Drop)]
pub struct Given {
    pub status: u8,
    /// Whether it told of a run.
    pub ran: bool,
    /// Whether it told of the run of a code file.
    pub executed: bool,
    pub output: Vec<u8>,
    pub notes: Vec<u8>,
}

// What such a call has given. Where no memory is left for it, the status is none of the program's.
fn given_by(
    alloc: Global,
    ended: Result<Ended, AllocError>,
    output: &MemorySink,
    notes: &MemorySink,
) -> Given {
    let (status, ran, executed) = match ended {
        Ok(ended) => ended,
        Err(_) => (255, false, false),
    };
    Given {
        status,
        ran,
        executed,
        output: copy(alloc, output.bytes()),
        notes: copy(alloc, notes.bytes()),
    }
}

// The call over this library.
fn call_on<R: Threads + Wait + Sync, G: Gate>(
    rt: &R,
    alloc: Global,
    words: &[String],
    library: &mut MemoryLibrary,
    input: &mut MemorySource,
    failing: Failing,
    gate: &G,
) -> Given {
    let mut output = sink(alloc, failing.output);
    let mut notes = sink(alloc, failing.notes);
    let ended = call_over(
        rt,
        alloc,
        words,
        library,
        input,
        &mut output,
        &mut notes,
        gate,
    );
    let given = given_by(alloc, ended, &output, &notes);
    drop(output);
    drop(notes);
    given
}

// The call on this text, this journal and this input through this gate.
fn call_with<R: Threads + Wait + Sync, G: Gate>(
    rt: &R,
    alloc: Global,
    words: &[&str],
    text: &str,
    journal: &[u8],
    input: &mut MemorySource,
    failing: Failing,
    gate: &G,
) -> Given {
    let words = words_of(alloc, words);
    let mut library = MemoryLibrary::new(
        files(alloc, text, journal),
        calls(alloc, failing.library),
    );
    let given = call_on(rt, alloc, &words, &mut library, input, failing, gate);
    drop(words);
    drop(library);
    given
}

/// The call on this text and this input through this gate.
pub fn call<R: Threads + Wait + Sync, G: Gate>(
    rt: &R,
    alloc: Global,
    words: &[&str],
    text: &str,
    input: &mut MemorySource,
    failing: Failing,
    gate: &G,
) -> Given {
    call_with(rt, alloc, words, text, b"", input, failing, gate)
}

/// The call on this text without input, of which these calls fail.
pub fn call_failing<R: Threads + Wait + Sync>(
    rt: &R,
    alloc: Global,
    words: &[&str],
    text: &str,
    failing: Failing,
) -> Given {
    let mut input = source(alloc, Vec::new(alloc));
    let given = call(rt, alloc, words, text, &mut input, failing, &OpenGate);
    drop(input);
    given
}

/// The call on this text and this input that follows this journal, which is `j` in the library.
pub fn call_along<R: Threads + Wait + Sync>(
    rt: &R,
    alloc: Global,
    words: &[&str],
    text: &str,
    journal: &[u8],
    input: &mut MemorySource,
    failing: Failing,
) -> Given {
    call_with(rt, alloc, words, text, journal, input, failing, &OpenGate)
}

// Asserts what a call has written.
fn expect_written(rt: &impl Abort, given: &Given, output: &str, notes: &str, message: &str) {
    assert_eq!(rt; given.notes.as_slice(), notes.as_bytes(), "{message}");
    assert_eq!(rt; given.output.as_slice(), output.as_bytes(), "{message}");
}

/// Asserts what a call has given. The message says for which text or which words.
pub fn expect_given(
    rt: &impl Abort,
    given: Given,
    status: u8,
    ran: bool,
    output: &str,
    notes: &str,
    message: &str,
) {
    expect_written(rt, &given, output, notes, message);
    assert_eq!(rt; (given.status, given.ran), (status, ran), "{message}");
    drop(given);
}
