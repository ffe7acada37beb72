//! The tests of `superpascal` that need streams that fail, or workers. They stand above it, so that it is proved once.
//!
//! To know:
//! - `src/calls.rt` makes the top call over a library, a source and sinks in memory; the other files are tests of it.
//! - `src/outside.rt`: libraries, sources and sinks that fail, and what is left of the input.
//! - `src/bad_texts.rt`: texts that are cut or have a byte of no text, an input byte by byte, and outputs that fail at
//!   each byte.
//! - `src/files.rt`: code files and journals with streams that fail, and damaged code files.
//! - `src/workers.rt`: turns of several workers at once. `src/journals.rt`: journals and witnesses of runs with
//!   several workers, which are followed.
//! - All other calls on texts, code files and journals are rows of `gallery/data/rows/`.
#![tactic(auto)]

#[cfg(test)]
mod bad_texts;
#[cfg(test)]
mod calls;
#[cfg(test)]
mod files;
#[cfg(test)]
mod journals;
#[cfg(test)]
mod outside;
#[cfg(test)]
mod workers;
