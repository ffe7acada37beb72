//! A journal as it is read from its text, line by line. The reader finds an entry by the parts of its line, and takes
//! only what prints as it was read.

ghost use Rattle.std.specs.Prelude.{◌≡◌, ◌+◌, ◌++◌, ◌∷◌, [], ◌<◌, ◌^◌, ◌↔◌, ℕ, IsTrue, Some, IfOk, OnOk, codes};
ghost use Rattle.std.specs.Prelude.{decimal};
ghost use Rattle.sp_base.specs.declared.fault.Fault.{Fault};
ghost use Rattle.sp_base.specs.Faults.{fault_name};
ghost use Rattle.sp_base.specs.Names.{name_text, channel_text};
ghost use Rattle.sp_journal.specs.declared.entry.Entry.{Entry};
ghost use Rattle.sp_journal.specs.declared.entry.Event.{Event};
ghost use Rattle.sp_journal.specs.declared.entry.Event.TheVariants as event;
ghost use Rattle.sp_journal.specs.Names.{proc_name, chan_name};
ghost use Rattle.sp_journal.specs.Births.{channel, CanFollow, GivesNumbers};
ghost use Rattle.sp_journal.specs.Texts.{entry_text, event_text};
ghost use Rattle.sp_journal.specs.Reader.{IsReader, CanCome, IsEntryOfLine, births_read};

use crate::byte_parts::{fault, number, split_first, split_last, text_of};
use crate::entry::{Entry, Event, Journal};
use crate::ledger::{Ledger, NUMBERS};
use crate::version::Version;
use sp_base::Memory;
use std::alloc::Global;
use std::collections::HashMap;

/// What has been read so far, and how the names of it are found by their texts.
pub(crate) struct Reader {
    alloc: Global,
    version: Version,
    ledger: Ledger,
    /// By the text of each fork the number of its first child.
    families: HashMap<String, u64>,
    /// By the name of each channel its number.
    channels: HashMap<String, u32>,
}

// By hand, so that it is one call on each way out of `read_journal`.
impl Drop for Reader {
    fn drop(self) {
        let Reader {
            alloc: _,
            version: _,
            ledger: _,
            families: _,
            channels: _,
        } = self;
    }
}

impl Reader {
    /// Nothing has been read.
    pub(crate) fn new(alloc: Global, version: Version) -> Reader
        ensures reader { IsReader result }
        ensures empty { result.ledger.journal.entries ≡ [] }
        ensures version { result.version ≡ version }
    {
        Reader {
            alloc,
            version,
            ledger: Ledger::new(alloc),
            families: HashMap::new(alloc),
            channels: HashMap::new(alloc),
        }
    }

    /// What has been read.
    pub(crate) fn into_journal(self) -> Journal
        ensures { result ≡ self.ledger.journal }
    {
        let Reader {
            alloc: _,
            version: _,
            ledger,
            families: _,
            channels: _,
        } = self;
        ledger.into_journal()
    }

    /// The process of this name. Bytes that are no name may give any answer.
    fn process(&self, name: &[u8]) -> Option<u32>
        requires { IsReader self.now }
        ensures { (q : ℕ) → q < (births_read self.now).processes
            → name.now ≡ name_text (proc_name ((births_read self.now).name q)) → result ≡ Some q }
    {
        match split_last(name, b'.') {
            None => Some(0),
            Some((family, child)) => {
                let first = self.families.get(text_of(family)).copied()?;
                let child = number(child)?;
                numbered(first, child)
            }
        }
    }

    /// The channel of this name. Bytes that are no name may give any answer.
    fn channel(&self, name: &[u8]) -> Option<u32>
        requires { IsReader self.now }
        ensures { (c : ℕ) → c < (births_read self.now).channels
            → name.now ≡ channel_text (chan_name (channel (births_read self.now) c)) → result ≡ Some c }
    {
        self.channels.get(text_of(name)).copied()
    }

    /// The event that these words tell. Other bytes may give any answer.
    fn told(&self, word: &[u8], of: &[u8]) -> Option<Event>
        requires { IsReader self.now }
        ensures fork { (n : ℕ) → n < 2 ^ 32 → word.now ≡ codes "fork" → of.now ≡ decimal n
            → result ≡ Some (event.Fork n) }
        ensures send { (c : ℕ) → c < (births_read self.now).channels → word.now ≡ codes "send"
            → of.now ≡ channel_text (chan_name (channel (births_read self.now) c)) → result ≡ Some (event.Send c) }
        ensures receive { (c : ℕ) → c < (births_read self.now).channels → word.now ≡ codes "receive"
            → of.now ≡ channel_text (chan_name (channel (births_read self.now) c)) → result ≡ Some (event.Receive c) }
        ensures fault { (f : Fault) → word.now ≡ codes "fault" → of.now ≡ fault_name f → result ≡ Some (event.Fault f) }
    {
        if word == "fork".as_bytes() {
            Some(Event::Fork(number(of)?))
        } else if word == "send".as_bytes() {
            Some(Event::Send(self.channel(of)?))
        } else if word == "receive".as_bytes() {
            Some(Event::Receive(self.channel(of)?))
        } else {
            Some(Event::Fault(fault(of)?))
        }
    }

    /// The event of this text. Other bytes may give any answer.
    fn event(&self, text: &[u8]) -> Option<Event>
        requires { IsReader self.now }
        ensures { (p : ℕ) (e : Event) → GivesNumbers (births_read self.now) p e
            → text.now ≡ event_text (births_read self.now) e → result ≡ Some e }
    {
        match split_first(text, b' ') {
            None => plain_event(text),
            Some((word, of)) => self.told(word, of),
        }
    }

    /// The entry of this text. Other bytes may give any answer.
    fn entry(&self, line: &[u8]) -> Option<Entry>
        requires { IsReader self.now }
        ensures { (e : Entry) → CanFollow (births_read self.now) e → line.now ≡ entry_text (births_read self.now) e
            → result ≡ Some e }
    {
        let (name, rest) = split_first(line, b' ')?;
        let process = self.process(name)?;
        let event = self.event(rest)?;
        Some(Entry { process, event })
    }

    /// Whether this entry can come next in this version.
    fn can_come(&self, entry: Entry) -> bool
        requires { IsReader self.now }
        ensures { IsTrue result ↔ CanCome self.now.version (births_read self.now) entry }
    {
        self.ledger.can_follow(entry) && self.version.can_hold(entry.event)
    }

    /// Takes the next entry in. After `Memory` the reader is of no more use.
    pub(crate) fn add(&mut self, entry: Entry) -> Result<(), Memory>
        requires reader { IsReader self.old }
        requires next { CanFollow (births_read self.old) entry }
        ensures reader { OnOk result (IsReader self.new) }
        ensures added { OnOk result (self.new.ledger.journal.entries ≡ self.old.ledger.journal.entries ++ entry ∷ []) }
        ensures version { OnOk result (self.new.version ≡ self.old.version) }
    {
        match entry.event {
            Event::Fork(count) => self.add_fork(entry.process, count),
            Event::Open => self.add_open(entry.process),
            Event::Send(_)
            | Event::Receive(_)
            | Event::End
            | Event::Fault(_)
            | Event::Laid
            | Event::Pause => self.ledger.add(entry),
        }
    }

    fn add_fork(&mut self, process: u32, count: u32) -> Result<(), Memory>
        requires reader { IsReader self.old }
        requires next { CanFollow (births_read self.old) (record { process = process; event = event.Fork count }) }
        ensures reader { OnOk result (IsReader self.new) }
        ensures added { OnOk result (self.new.ledger.journal.entries
            ≡ self.old.ledger.journal.entries ++ record { process = process; event = event.Fork count } ∷ []) }
        ensures version { OnOk result (self.new.version ≡ self.old.version) }
    {
        let name = self.ledger.name(process)?;
        let forks = self.ledger.made(process).forks;
        let first = self.ledger.processes();
        let family = format!(in self.alloc; "{name}/{forks}")?;
        self.families.insert(family, first)?;
        self.ledger.add(Entry {
            process,
            event: Event::Fork(count),
        })
    }

    fn add_open(&mut self, process: u32) -> Result<(), Memory>
        requires reader { IsReader self.old }
        requires next { CanFollow (births_read self.old) (record { process = process; event = event.Open }) }
        ensures reader { OnOk result (IsReader self.new) }
        ensures added { OnOk result (self.new.ledger.journal.entries
            ≡ self.old.ledger.journal.entries ++ record { process = process; event = event.Open } ∷ []) }
        ensures version { OnOk result (self.new.version ≡ self.old.version) }
    {
        let name = self.ledger.name(process)?;
        let opens = self.ledger.made(process).opens;
        let number = self.ledger.channels() as u32;
        let channel = format!(in self.alloc; "{name}#{opens}")?;
        self.channels.insert(channel, number)?;
        self.ledger.add(Entry {
            process,
            event: Event::Open,
        })
    }

    /// The next entry, where the line is the text of one.
    pub(crate) fn next(&self, line: &[u8]) -> Result<Option<Entry>, Memory>
        requires { IsReader self.now }
        ensures { IfOk result (IsEntryOfLine self.now.version (births_read self.now) line.now) }
    {
        let Some(entry) = self.entry(line) else {
            return Ok(None);
        };
        if !self.can_come(entry) {
            return Ok(None);
        }
        let mut text = Vec::new(self.alloc);
        self.ledger.put_entry(&mut text, entry)?;
        if text.as_slice() == line {
            Ok(Some(entry))
        } else {
            Ok(None)
        }
    }
}

/// The number of this child of the fork whose first child has number `first`.
fn numbered(first: u64, child: u32) -> Option<u32>
    ensures { (q : ℕ) → first + child ≡ q → q < 2 ^ 32 → result ≡ Some q }
{
    let number = first.saturating_add(u64::from(child));
    if number < NUMBERS {
        Some(number as u32)
    } else {
        None
    }
}

/// The event of this one word. Other bytes may give any answer.
fn plain_event(word: &[u8]) -> Option<Event>
    ensures open { word.now ≡ codes "open" → result ≡ Some event.Open }
    ensures ends { word.now ≡ codes "end" → result ≡ Some event.End }
    ensures laid { word.now ≡ codes "laid" → result ≡ Some event.Laid }
    ensures pause { word.now ≡ codes "pause" → result ≡ Some event.Pause }
{
    if word == "open".as_bytes() {
        Some(Event::Open)
    } else if word == "end".as_bytes() {
        Some(Event::End)
    } else if word == "laid".as_bytes() {
        Some(Event::Laid)
    } else {
        Some(Event::Pause)
    }
}
