//! Mutants of what reads and writes texts: words, lines, reports, journals, traces, states, code files, listings, sets,
//! canonical texts and streams. Each function here repeats the contract of a call word for word and makes it, so the
//! contract here follows from that of the call. An edit of `must-fail` turns what the call answers or does; the
//! contract must refuse it, and so would that of the call. No program uses this crate: it makes such tries cheap,
//! since its proof is short.
#![tactic(auto)]

mod codes;
mod journals;
mod lines;
mod streams;
mod traces;

pub use codes::{decode, encode, format, listing, print_sets, verify};
pub use journals::{name, print_journal, read_journal, tell};
pub use lines::{default_limits, end_lines, generated, read_words, refusal_line, verdict_line};
pub use streams::{put_all, read_all};
pub use traces::{trace_text, where_text};
