//! The outside of a run: where its text and its input come from, where its output goes, and what watches it.
//!
//! Each of `Library`, `Source` and `Sink` has a count of faults that never falls, and fails only where that count
//! rose in the call or stands at the last value of a counter. What it holds, has left or has got is told where it is
//! known, and the clauses speak of that.
//!
//! Calls:
//! - `Library::load`: all bytes under the name, at most `limit`, where they are told; `TooLong` comes exactly where
//!   they are more and the call did not fail. What the library holds stays.
//! - `Source::take`: moves the next bytes into the front of the buffer, leaves the rest of the buffer, and says how
//!   many; none into a buffer that is not empty means that nothing is left. Where it fails, no byte was moved.
//! - `Sink::put`: takes the first bytes of the piece, at least one where it has any, and says how many. Where it
//!   fails, nothing was taken.
//! - `Gate::enter`: is called by a worker before each turn; no contract speaks of it. `OpenGate` returns at once.
//! - `read_all`: all bytes that the source has left, which are at most `limit`; the source is then at its end.
//!   `TooLong` comes only where they are more.
//! - `put_all`: puts all bytes; where it fails, the sink has got a first part of them.
//! - `MemoryLibrary`, `MemorySource`, `MemorySink`: tell their bytes; exactly the calls with the given numbers fail,
//!   and of a library those with a name that is not there.
//! - `SureLibrary`, `SureSource`, `SureSink`: tell their bytes; none of their calls answers `Failed`.
//! - `FileLibrary`, `StreamSource`, `StreamSink`: files of the system, and readers and writers of std.
//! - `Failed`, `LoadError`, `ReadError`: what a call answers that gives or takes no bytes.
//!
//! To know:
//! - A call number above 4,294,967,295 is in no list of failing calls. So the counter of calls stays at its last
//!   value without making a call fail that is not to fail.
//! - A put of no bytes into a `StreamSink` writes nothing.
//! - `FileLibrary`, `StreamSource` and `StreamSink` tell no bytes, so a caller of the traits learns nothing of them
//!   but counts and faults. For readers and writers of std whose bytes are known, as those over memory, the streams'
//!   own clauses say that exactly these bytes are moved. What a file holds no contract can say.
//! - `read_all` and `put_all` stand here, since every caller needs them: a source gives and a sink takes as many
//!   bytes a call as it likes.
//!
//! To change:
//! - A new kind of outside: an `impl` of one of the traits, whose clauses it repeats.
#![tactic(auto)]

mod count;
mod failures;
mod files;
mod gate;
mod input_buffer;
mod library;
mod memory_library;
mod memory_sink;
mod memory_source;
mod output_buffer;
mod plan;
mod reader;
mod sink;
mod source;
mod streams;

pub use failures::{Failed, LoadError, ReadError};
pub use files::FileLibrary;
pub use gate::{Gate, OpenGate};
pub use library::Library;
pub use memory_library::{MemoryLibrary, SureLibrary};
pub use memory_sink::{MemorySink, SureSink};
pub use memory_source::{MemorySource, SureSource};
pub use reader::read_all;
pub use sink::{Sink, put_all};
pub use source::Source;
pub use streams::{StreamSink, StreamSource};
