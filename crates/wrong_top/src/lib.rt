//! Mutants of the top call. The function here repeats its contract word for word and calls it, so the contract
//! here follows from that of the top call. An edit of `must-fail` turns what the call answers or does; the contract
//! must refuse it, and so would that of the top call. No program uses this crate: it makes such tries cheap, since its
//! proof is short.
#![tactic(auto)]

ghost use Rattle.std.specs.Prelude.{map};
ghost use Rattle.std.specs.String.{string_bytes};
ghost use Rattle.sp_report.specs.WatcherReports.{AreFresh, reports};
ghost use Rattle.superpascal.specs.Calls.{call, sink_of};
ghost use Rattle.superpascal.specs.Causes.{files_of, stream_of};
ghost use Rattle.superpascal.specs.Promise.{Promise};

use sp_outside::{Gate, Library, Sink, Source};
use sp_report::Watcher;
use std::alloc::Global;
use std::sync::Wait;
use std::thread::Threads;
use superpascal::{Outcome, superpascal};

/// `superpascal::superpascal`.
pub fn answer<R: Threads + Wait + Sync, L: Library, I: Source, O: Sink, N: Sink, G: Gate>(
    rt: &R,
    alloc: Global,
    words: &[String],
    library: &mut L,
    input: &mut I,
    output: &mut O,
    notes: &mut N,
    gate: &G,
    watchers: Vec<Box<dyn Watcher>>,
) -> Outcome
    requires fresh { AreFresh told watchers.items }
    ensures { Promise (call (map string_bytes words.now)
        (files_of L.held L.faults library.old library.new)
        (stream_of I.left I.faults input.old input.new)
        (reports text title watchers.items)
        (sink_of O.written O.faults output.old output.new)
        (sink_of N.written N.faults notes.old notes.new) result) }
{
    let outcome = superpascal(
        rt, alloc, words, library, input, output, notes, gate, watchers,
    );
    outcome
}
