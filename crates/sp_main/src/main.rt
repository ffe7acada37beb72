//! The program: the top call over the files of the system and the standard streams, with the watchers timeline, census,
//! tree and waiting in this order.
//!
//! To know:
//! - It runs the words after the program's name, and ends with the status of the call. The contract of `called` is the
//!   `Promise` of the top call.
//! - Before the call, a lack of memory gives status 8 with the line `out of memory`, and any other error status 2 with
//!   `bad words`, since words are text; where that line cannot be written, the status is 6. No contract says this.
//! - The gate that it hands in does nothing.
//!
//! To change:
//! - Which program is run, compiled and kept: the script `superpascal` (`docs/COMMANDS.md` says how); how it is proved
//!   alone: the script `prove`. A command or option has a line in `launcher/commands.txt`, too.
#![tactic(auto)]

ghost use Rattle.std.specs.Prelude.{◌≡◌, map};
ghost use Rattle.std.specs.String.{string_bytes};
ghost use Rattle.sp_report.specs.WatcherReports.{AreFresh, reports};
ghost use Rattle.superpascal.specs.declared.outcome.Outcome.{Outcome};
ghost use Rattle.superpascal.specs.Calls.{call, sink_of};
ghost use Rattle.superpascal.specs.Causes.{files_of, stream_of};
ghost use Rattle.superpascal.specs.Promise.{Promise};

use sp_outside::{FileLibrary, Library, OpenGate, Sink, Source, StreamSink, StreamSource, put_all};
use sp_report::{Census, ProcessTree, Timeline, Waiting, Watcher, in_order};
use std::alloc::Global;
use std::io::ErrorKind;
use std::process::ExitCode;
use std::sync::Wait;
use std::thread::Threads;
use std::{env, io};
use superpascal::superpascal;

/// Runs the words after the program's name, and ends with the status of the call.
fn main(rt: HostRuntime) -> ExitCode {
    let mut notes = StreamSink::new(rt.stderr());
    match run(&rt, &rt, &mut notes) {
        Ok(status) => ExitCode::from(status),
        Err(error) => {
            // Words are text, so others are refused.
            let (status, line) = if error.kind() == ErrorKind::OutOfMemory {
                (8, "out of memory\n")
            } else {
                (2, "bad words\n")
            };
            match put_all(&mut notes, line.as_bytes()) {
                Ok(()) => ExitCode::from(status),
                Err(_) => ExitCode::from(6),
            }
        }
    }
}

// Makes the call over the files and streams of the system, and gives its status.
fn run<R: Threads + Wait + Sync, N: Sink>(
    rt: &HostRuntime,
    threads: &R,
    notes: &mut N,
) -> io::Result<u8> {
    let words = words(rt)?;
    let alloc = rt.alloc();
    let timeline = Box::new(alloc, Timeline::new(alloc))?;
    let census = Box::new(alloc, Census::new(alloc))?;
    let tree = Box::new(alloc, ProcessTree::new(alloc))?;
    let waiting = Box::new(alloc, Waiting::new(alloc))?;
    let watchers = in_order(alloc, timeline, census, tree, waiting)?;
    let mut library = FileLibrary::new(rt);
    let mut input = StreamSource::new(rt.stdin());
    let mut output = StreamSink::new(rt.stdout());
    Ok(called(
        threads,
        alloc,
        words.as_slice(),
        &mut library,
        &mut input,
        &mut output,
        notes,
        watchers,
    ))
}

// The call with these watchers, and its status.
fn called<R: Threads + Wait + Sync, L: Library, I: Source, O: Sink, N: Sink>(
    threads: &R,
    alloc: Global,
    words: &[String],
    library: &mut L,
    input: &mut I,
    output: &mut O,
    notes: &mut N,
    watchers: Vec<Box<dyn Watcher>>,
) -> u8
    requires fresh { AreFresh told watchers.items }
    ensures { (outcome : Outcome) × (outcome.status ≡ result) × Promise (call (map string_bytes words.now)
        (files_of L.held L.faults library.old library.new)
        (stream_of I.left I.faults input.old input.new)
        (reports text title watchers.items)
        (sink_of O.written O.faults output.old output.new)
        (sink_of N.written N.faults notes.old notes.new) outcome) }
{
    let outcome = superpascal(
        threads, alloc, words, library, input, output, notes, &OpenGate, watchers,
    );
    outcome.status
}

// The words after the program's name.
fn words(rt: &HostRuntime) -> io::Result<Vec<String>> {
    let mut words = Vec::new(rt.alloc());
    for word in env::args(rt)?.skip(1) {
        words.push(word)?;
    }
    Ok(words)
}
