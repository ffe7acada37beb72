//! The watcher `Timeline`: the entries of a journal with their indices.

ghost use Rattle.std.specs.Prelude.{◌≡◌, ◌++◌, [], codes, decimal, true};
ghost use Rattle.sp_journal.specs.Births.{IsNameable, first_births};
ghost use Rattle.sp_report.specs.Nameable.{nameable_prop};
ghost use Rattle.sp_report.specs.Timeline.{numbered_lines, timeline_text};
ghost use Rattle.sp_base.specs.Adds.{Adds};

use crate::have;
use crate::watcher::{Watcher, put_text};
use sp_base::{List, Memory, Writer};
use sp_journal::{Entry, Journal, print_journal};
use std::alloc::Global;

/// Tells the entries in their order, each after its index.
#[derive(Drop)]
pub struct Timeline {
    alloc: Global,
    journal: Journal,
    ghost nameable: { IsNameable journal } by { nameable_prop first_births journal.entries },
}

impl Timeline {
    /// A timeline that was told nothing. It takes no memory, and keeps the allocator.
    pub fn new(alloc: Global) -> Timeline
        ensures { result.journal.entries ≡ [] }
    {
        Timeline {
            alloc,
            journal: Journal {
                entries: List::new(alloc),
            },
        }
    }
}

fn put_number(out: &mut Writer<u8>, number: u64)
    ensures { Adds out.old out.new (decimal number ++ codes " ") }
{
    out.decimal(number);
    out.extend(b" ");
}

/// Puts the lines last into `out`, each after its number, which counts from 0.
fn put_numbered(out: &mut Writer<u8>, lines: &[u8])
    ensures { Adds out.old out.new (numbered_lines true 0 lines.now) }
{
    let mut next = 0u64;
    let mut begins = true;
    for byte in lines {
        if begins {
            put_number(out, next);
            next += 1;
        }
        out.put(*byte);
        begins = *byte == b'\n';
    }
}

impl Watcher for Timeline {
    ghost told = { λ t. t.journal.entries };

    ghost text = { λ t es. timeline_text es };

    ghost title = { λ t. codes "timeline" };

    fn name(&self) -> &str {
        "timeline"
    }

    fn see(&mut self, entry: &Entry) -> Result<(), Memory> {
        self.journal.push(*entry)
    }

    fn finish(&mut self, out: &mut Vec<u8>) -> Result<(), Memory> {
        let printed = have!(print_journal(self.alloc, &self.journal));
        let lines = &printed.as_slice()[b"superpascal journal 2\n".len()..];
        let mut text = Writer::new(self.alloc);
        text.extend(b"timeline\n");
        put_numbered(&mut text, lines);
        put_text(out, text)
    }
}
