//! The text of a journal, and of one entry of a ledger.

ghost use Rattle.std.specs.Prelude.{◌≡◌, ◌++◌, ◌<◌, IfOk, OnErr, OnOk};
ghost use Rattle.sp_base.specs.Names.{name_text};
ghost use Rattle.sp_journal.specs.Births.{births, CanFollow, IsNameable};
ghost use Rattle.sp_journal.specs.Names.{proc_name};
ghost use Rattle.sp_journal.specs.Texts.{entry_text, event_text, offer_text, way_text, journal_text};
ghost use Rattle.sp_journal.specs.Ledger.{IsLedger};
ghost use Rattle.sp_journal.specs.declared.version.Version.TheVariants as version;
ghost use Rattle.sp_base.specs.Adds.{Adds};

use crate::entry::{Entry, Event, Journal, Way};
use crate::ledger::Ledger;
use sp_base::{Memory, Writer};
use std::alloc::Global;

impl Way {
    /// The way as a word: `send` or `receive`.
    pub fn word(self) -> &'static str
        ensures { result.now ≡ way_text self }
    {
        match self {
            Way::Send => "send",
            Way::Receive => "receive",
        }
    }
}

impl Ledger {
    /// Puts the text of an entry that can come next last into `out`, without a line feed. Where memory is refused
    /// `out` is as before.
    pub fn put_entry(&self, out: &mut Vec<u8>, entry: Entry) -> Result<(), Memory>
        requires ledger { IsLedger self.now }
        requires next { CanFollow (births self.now.journal.entries) entry }
        ensures ok { OnOk result (out.new.items ≡ out.old.items ++ entry_text (births self.now.journal.entries) entry) }
        ensures err { OnErr result (out.new.items ≡ out.old.items) }
    {
        // The text is made apart, so that `out` is changed by one call, which changes all of it or nothing.
        let mut text = Writer::new(self.alloc);
        put_entry_text(&mut text, self, entry);
        let bytes = text.finish()?;
        out.extend_from_slice(bytes.as_slice())?;
        Ok(())
    }
}

fn put_name(out: &mut Writer<u8>, ledger: &Ledger, process: u32)
    requires ledger { IsLedger ledger.now }
    requires there { process < (births ledger.now.journal.entries).processes }
    ensures { Adds out.old out.new (name_text (proc_name ((births ledger.now.journal.entries).name process))) }
{
    match ledger.name(process) {
        Ok(name) => out.name(&name),
        Err(Memory) => out.lose(),
    }
}

fn put_offer(out: &mut Writer<u8>, ledger: &Ledger, way: Way, number: u32)
    requires ledger { IsLedger ledger.now }
    requires there { number < (births ledger.now.journal.entries).channels }
    ensures { Adds out.old out.new (offer_text (births ledger.now.journal.entries) way number) }
{
    out.extend(way.word().as_bytes());
    out.extend(b" ");
    match ledger.channel(number) {
        Ok(channel) => out.channel(&channel),
        Err(Memory) => out.lose(),
    }
}

fn put_event(out: &mut Writer<u8>, ledger: &Ledger, entry: Entry)
    requires ledger { IsLedger ledger.now }
    requires next { CanFollow (births ledger.now.journal.entries) entry }
    ensures { Adds out.old out.new (event_text (births ledger.now.journal.entries) entry.event) }
{
    match entry.event {
        Event::Fork(count) => {
            out.extend(b"fork ");
            out.decimal(u64::from(count));
        }
        Event::Open => out.extend(b"open"),
        Event::Send(channel) => put_offer(out, ledger, Way::Send, channel),
        Event::Receive(channel) => put_offer(out, ledger, Way::Receive, channel),
        Event::End => out.extend(b"end"),
        Event::Fault(fault) => {
            out.extend(b"fault ");
            out.extend(fault.name().as_bytes());
        }
        Event::Laid => out.extend(b"laid"),
        Event::Pause => out.extend(b"pause"),
    }
}

/// Puts the text of an entry that can come next in the ledger, without a line feed. A writer that is refused memory
/// keeps that in mind.
pub fn put_entry_text(out: &mut Writer<u8>, ledger: &Ledger, entry: Entry)
    requires ledger { IsLedger ledger.now }
    requires next { CanFollow (births ledger.now.journal.entries) entry }
    ensures { Adds out.old out.new (entry_text (births ledger.now.journal.entries) entry) }
{
    put_name(out, ledger, entry.process);
    out.extend(b" ");
    put_event(out, ledger, entry);
}

/// The text of a journal in version 2: a first line, and then each entry on a line of its own.
pub fn print_journal(alloc: Global, journal: &Journal) -> Result<Vec<u8>, Memory>
    requires { IsNameable journal.now }
    ensures { IfOk result (λ text. text.items ≡ journal_text version.Two journal.now) }
{
    let mut out = Writer::new(alloc);
    out.extend(b"superpascal journal 2\n");
    let mut ledger = Ledger::new(alloc);
    for entry in journal.entries.items() {
        put_entry_text(&mut out, &ledger, *entry);
        out.put(b'\n');
        ledger.add(*entry)?;
    }
    out.finish()
}
