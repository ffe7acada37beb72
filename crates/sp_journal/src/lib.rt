//! The journal of a run: its entries, the names that they give to processes and channels, and its text. The
//! definitions of what a process knows of a journal and of ordered journals stand here too.
//!
//! Calls:
//! - `print_journal`: exactly the text of a nameable journal, in version 2.
//! - `read_journal`: a nameable journal of which these bytes are the text, in version 1 (without `pause`) or 2, and
//!   no other has it; or the number of the first bad line, and then they are the text of no journal.
//! - `Journal::push`: puts an entry last, or leaves the journal as it was where memory is refused.
//! - `Journal::birth`: how a process came to be; none exactly for the root and for a number that no entry gave.
//!   `Journal::name`: its name, which no other process of the journal has. Both go over the journal.
//! - `Ledger`: a journal with the tables of its names, by `new` or by `of` (a nameable journal). `can_follow` says
//!   exactly whether an entry can come next; `add` takes such a one in, or the journal stays the same.
//! - `Ledger::processes`, `channels`: how many there are. `birth`, `name`, `channel`: exactly what the journal gives
//!   to a number that is there. `into_journal`: the journal alone.
//! - `Ledger::put_entry`: puts exactly the text of an entry that can come next last, or leaves the bytes as before.
//!   `put_entry_text`: the same into a writer. `Way::word`: the way's text.
//! - `split_first`: what stands before and after the first of a byte. `text_of`: ASCII bytes as a text. Both are for
//!   readers of texts, that of code files too.
//! - Types: `Entry`, `Event`, `Way`, `Birth`, `Opening`; `Note` (what one call of the kernel did); `End`, `Waiter`
//!   (how a run ends) and `Verdict`.
//!
//! Laws:
//! - `one_journal_of_a_text`: no two journals have one text, in whatever versions.
//!
//! To know:
//! - A journal is nameable where each entry can follow those before it: its process and its channel are there, and
//!   numbers below 4,294,967,296 are left for what it gives.
//! - `specs/Births.antt` has numbers, births and names; `specs/Names.antt` names as definitions use them;
//!   `specs/Past.antt` what each process knows, and ordered; `specs/Queue.antt` first in, first out;
//!   `specs/Texts.antt` and `specs/ReadAnswers.antt` the text.
//! - `Ledger` keeps names in tables, so that printing and the reports find each in the time of its length and the
//!   logarithm of the forks.
//! - The reader finds an entry by the parts of its line and takes only what prints as it was read. So its parts may
//!   give any answer to other bytes.
//!
//! Lemmas for others, in `proofs`:
//! - `BirthLaws`: laws of what a nameable journal gives.
//! - `EntryText`: the text of an entry has no line feed.
//! - `Facts`: tests on numbers as statements: what a test that is true says.
//! - `NameLaws`: different names stay different in the form in which the program keeps them.
//! - `SplitLaws`: laws of cutting a text at a byte.
//! - `TextLaws`: laws of the texts of names: what they are made of, and that different names have different texts.
//! - `Walk`: going over the entries of a journal, one after another.
//!
//! To change:
//! - An event: `Event` in `src/entry.rt`; its texts in `specs/Texts.antt`, `src/print.rt` and `src/reader.rt`; what
//!   it gives in `specs/Births.antt`; what it teaches in `specs/Past.antt`.
#![tactic(auto)]

mod byte_parts;
mod entry;
mod journal;
mod journal_reader;
mod law;
mod ledger;
mod outcome;
mod print;
mod reader;
mod version;

pub use byte_parts::{split_first, text_of};
pub use entry::{Birth, Entry, Event, Journal, Note, Opening, Way};
pub use journal_reader::{ReadError, read_journal};
pub use law::one_journal_of_a_text;
pub use ledger::Ledger;
pub use outcome::{End, Verdict, Waiter};
pub use print::{print_journal, put_entry_text};
