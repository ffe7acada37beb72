//! The watcher `Census`: how many entries of each kind a journal has.

ghost use Rattle.std.specs.Prelude.{◌≡◌, [], codes};
ghost use Rattle.std.specs.List.{flat_map};
ghost use Rattle.sp_report.specs.Census.{census_text, count_line, count_of, is_counted, kind_name, kinds};
ghost use Rattle.sp_base.specs.Adds.{Adds};

use crate::have;
use crate::watcher::{Watcher, put_text};
use sp_base::{List, Memory, Writer};
use sp_journal::{Entry, Event};
use std::alloc::Global;

/// What is counted.
#[derive(Clone, Copy)]
pub(crate) enum EntryKind {
    Forks,
    Opens,
    Sends,
    Receives,
    Ends,
    Faults,
    Laid,
}

impl EntryKind {
    fn name(self) -> &'static str
        ensures { result.now ≡ kind_name self }
    {
        match self {
            EntryKind::Forks => "forks",
            EntryKind::Opens => "opens",
            EntryKind::Sends => "sends",
            EntryKind::Receives => "receives",
            EntryKind::Ends => "ends",
            EntryKind::Faults => "faults",
            EntryKind::Laid => "laid",
        }
    }

    fn counts(self, event: Event) -> bool
        ensures { result ≡ is_counted self event }
    {
        match (self, event) {
            (EntryKind::Forks, Event::Fork(_)) => true,
            (EntryKind::Opens, Event::Open) => true,
            (EntryKind::Sends, Event::Send(_)) => true,
            (EntryKind::Receives, Event::Receive(_)) => true,
            (EntryKind::Ends, Event::End) => true,
            (EntryKind::Faults, Event::Fault(_)) => true,
            (EntryKind::Laid, Event::Laid) => true,
            _ => false,
        }
    }

    fn count(self, entries: &[Entry]) -> usize
        ensures { result ≡ count_of self entries.now }
    {
        entries
            .iter()
            .filter(|entry| self.counts(entry.event))
            .count()
    }

    fn put(self, out: &mut Writer<u8>, entries: &[Entry])
        ensures { Adds out.old out.new (count_line entries.now self) }
    {
        out.extend(self.name().as_bytes());
        out.extend(b" ");
        out.decimal(self.count(entries) as u64);
        out.extend(b"\n");
    }
}

/// Counts the entries of each kind. A pause is of no kind.
#[derive(Drop)]
pub struct Census {
    alloc: Global,
    entries: List<Entry>,
}

impl Census {
    /// A census that was told nothing. It takes no memory, and keeps the allocator.
    pub fn new(alloc: Global) -> Census
        ensures { result.entries ≡ [] }
    {
        Census {
            alloc,
            entries: List::new(alloc),
        }
    }
}

/// Puts a line for each kind.
fn put_kinds(out: &mut Writer<u8>, entries: &[Entry])
    ensures { Adds out.old out.new (flat_map (count_line entries.now) kinds) }
{
    EntryKind::Forks.put(out, entries);
    EntryKind::Opens.put(out, entries);
    EntryKind::Sends.put(out, entries);
    EntryKind::Receives.put(out, entries);
    EntryKind::Ends.put(out, entries);
    EntryKind::Faults.put(out, entries);
    EntryKind::Laid.put(out, entries);
}

impl Watcher for Census {
    ghost told = { λ c. c.entries };

    ghost text = { λ c es. census_text es };

    ghost title = { λ c. codes "census" };

    fn name(&self) -> &str {
        "census"
    }

    fn see(&mut self, entry: &Entry) -> Result<(), Memory> {
        have!(self.entries.push(*entry));
        Ok(())
    }

    fn finish(&mut self, out: &mut Vec<u8>) -> Result<(), Memory> {
        let mut text = Writer::new(self.alloc);
        text.extend(b"census\n");
        put_kinds(&mut text, self.entries.items());
        put_text(out, text)
    }
}
