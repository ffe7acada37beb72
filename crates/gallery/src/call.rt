//! The top call over a library, with an input and sinks in memory, and what it gives beside what is expected.

use sp_base::{List, Memory};
use sp_outside::{Library, MemorySink, MemorySource, OpenGate};
use sp_report::{Census, ProcessTree, Timeline, Waiting, in_order};
use std::alloc::Global;
use std::sync::Wait;
use std::thread::Threads;
use superpascal::superpascal;

/// What a call has given.
#[derive(Drop)]
pub struct Given {
    pub ended: Ended,
    pub output: MemorySink,
    pub notes: MemorySink,
}

/// How a call has ended.
#[derive(Clone, Copy)]
pub struct Ended {
    pub status: u8,
    /// Whether it told of the run of a program.
    pub ran: bool,
    /// Whether it told of the run of a code file.
    pub executed: bool,
}

/// What a call is to give. It tells of a run exactly where one came to its end.
#[derive(Clone, Copy)]
pub struct Expected<'a> {
    /// The status in decimal.
    pub status: &'a str,
    pub output: &'a [u8],
    /// Whether any other output will do too.
    pub is_any: bool,
    pub notes: &'a [u8],
}

/// What is said of a call that gives what it is to give.
pub const AS_EXPECTED: &str = "as expected";

/// What is said of a call that could not be made.
pub const NO_MEMORY: &str = "out of memory";

impl Given {
    /// What is not as expected of a call with these words.
    pub fn beside(&self, words: &str, expected: &Expected) -> &'static str {
        if expected.status.parse::<u8>().ok() != Some(self.ended.status) {
            return "another status";
        }
        let command = words.split_whitespace().next().unwrap_or("");
        let ended = ["0", "3", "4"].contains(&expected.status);
        let runs = ["run", "gen", "witness"].contains(&command);
        if self.ended.ran != (ended && runs)
            || self.ended.executed != (ended && command == "exec")
        {
            return "another run";
        }
        if !expected.is_any && self.output.bytes() != expected.output {
            return "another output";
        }
        if self.notes.bytes() != expected.notes {
            return "other notes";
        }
        AS_EXPECTED
    }
}

/// The call with these words, those that stand in `more` behind them, this input and the watchers of the program. A
/// sink takes one byte a call.
pub fn call<R: Threads + Wait + Sync, L: Library>(
    alloc: Global,
    threads: &R,
    words: &str,
    more: &str,
    library: &mut L,
    input: Vec<u8>,
) -> Result<Given, Memory> {
    let mut input = MemorySource::new(input, 4096, List::new(alloc));
    let mut output = sink(alloc)?;
    let mut notes = sink(alloc)?;
    let words = words_of(alloc, words, more)?;
    let words = words.as_slice();
    let ended = called(
        alloc,
        threads,
        words,
        library,
        &mut input,
        &mut output,
        &mut notes,
    )?;
    Ok(Given {
        ended,
        output,
        notes,
    })
}

// The words of these two texts.
fn words_of(alloc: Global, words: &str, more: &str) -> Result<Vec<String>, Memory> {
    let mut all = Vec::new(alloc);
    for text in [words, more] {
        for word in text.split_whitespace() {
            all.push(String::from_str(alloc, word)?)?;
        }
    }
    Ok(all)
}

// A sink that has room for what any call here writes.
fn sink(alloc: Global) -> Result<MemorySink, Memory> {
    let bytes = vec![in alloc; 0; 4096]?;
    Ok(MemorySink::new(bytes, 1, List::new(alloc)))
}

// The call with the watchers of the program.
fn called<R: Threads + Wait + Sync, L: Library>(
    alloc: Global,
    threads: &R,
    words: &[String],
    library: &mut L,
    input: &mut MemorySource,
    output: &mut MemorySink,
    notes: &mut MemorySink,
) -> Result<Ended, Memory> {
    let timeline = Box::new(alloc, Timeline::new(alloc))?;
    let census = Box::new(alloc, Census::new(alloc))?;
    let tree = Box::new(alloc, ProcessTree::new(alloc))?;
    let waiting = Box::new(alloc, Waiting::new(alloc))?;
    let watchers = in_order(alloc, timeline, census, tree, waiting)?;
    let outcome = superpascal(
        threads, alloc, words, library, input, output, notes, &OpenGate, watchers,
    );
    Ok(Ended {
        status: outcome.status,
        ran: outcome.ran.is_some(),
        executed: outcome.executed.is_some(),
    })
}
