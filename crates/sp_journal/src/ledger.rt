//! A journal with the tables of the names that its entries give (`Ledger`). Printing and the reports go by it.

ghost use Rattle.std.specs.Prelude.{◌≡◌, ◌++◌, ◌∷◌, [], ◌<◌, ◌≤◌, ◌^◌, ◌↔◌, IsTrue, IfOk, OnErr, OnOk};
ghost use Rattle.sp_journal.specs.Births.{births, channel, CanFollow, IsNameable};
ghost use Rattle.sp_journal.specs.Names.{proc_name, chan_name};
ghost use Rattle.sp_journal.specs.Ledger.{IsLedger};

use crate::entry::{Birth, Entry, Event, Journal, Opening};
use sp_base::{ChanName, List, Memory, Pair, ProcName};
use std::alloc::Global;
use std::collections::HashMap;

/// How many numbers there are.
pub(crate) const NUMBERS: u64 = 4_294_967_296;

/// The children of one fork. They have the numbers from `first` on.
#[derive(Clone, Copy)]
pub(crate) struct Family {
    first: u64,
    parent: u32,
    fork: u32,
}

/// How many forks and opens a process has made.
#[derive(Clone, Copy)]
pub(crate) struct Made {
    pub(crate) forks: u64,
    pub(crate) opens: u64,
}

/// A journal that grows entry by entry, with the tables of what its entries have given so far. Every name of it is
/// found in time of the name's length and the logarithm of the forks, so who needs many names of a journal asks a
/// ledger. A fork takes one place however many children it has.
pub struct Ledger {
    journal: Journal,
    processes: u64,
    families: List<Family>,
    openings: List<Opening>,
    made: HashMap<u32, Made>,
    pub(crate) alloc: Global,
}

// By hand, so that it is proved once, here, and not at each place that drops a ledger.
impl Drop for Ledger {
    fn drop(self) {
        let Ledger {
            journal: _,
            processes: _,
            families: _,
            openings: _,
            made: _,
            alloc: _,
        } = self;
    }
}

impl Ledger {
    /// The ledger of the empty journal.
    pub fn new(alloc: Global) -> Ledger
        ensures ledger { IsLedger result }
        ensures empty { result.journal.entries ≡ [] }
    {
        Ledger {
            journal: Journal {
                entries: List::new(alloc),
            },
            processes: 1,
            families: List::new(alloc),
            openings: List::new(alloc),
            made: HashMap::new(alloc),
            alloc,
        }
    }

    /// The ledger of this journal.
    pub fn of(alloc: Global, journal: &Journal) -> Result<Ledger, Memory>
        requires { IsNameable journal.now }
        ensures { IfOk result (λ ledger. IsLedger ledger × (ledger.journal ≡ journal.now)) }
    {
        let mut ledger = Ledger::new(alloc);
        for entry in journal.entries.items() {
            ledger.add(*entry)?;
        }
        Ok(ledger)
    }

    /// The journal as far as it has grown, without the tables.
    pub fn into_journal(self) -> Journal
        ensures { result ≡ self.journal }
    {
        let Ledger {
            journal,
            processes: _,
            families: _,
            openings: _,
            made: _,
            alloc: _,
        } = self;
        journal
    }

    /// How many processes there are, the root among them: from 1 to 4,294,967,296.
    pub fn processes(&self) -> u64
        requires { IsLedger self.now }
        ensures value { result ≡ (births self.now.journal.entries).processes }
        ensures some { 0 < result }
        ensures few { result ≤ 2 ^ 32 }
    {
        self.processes
    }

    /// How many channels there are, at most 4,294,967,296.
    pub fn channels(&self) -> u64
        requires { IsLedger self.now }
        ensures value { result ≡ (births self.now.journal.entries).channels }
        ensures few { result ≤ 2 ^ 32 }
    {
        self.openings.len() as u64
    }

    /// How many forks and opens this process has made.
    pub(crate) fn made(&self, process: u32) -> Made
        requires { IsLedger self.now }
        ensures forks { result.forks ≡ (births self.now.journal.entries).forks process }
        ensures opens { result.opens ≡ (births self.now.journal.entries).opens process }
    {
        self.made
            .get(&process)
            .copied()
            .unwrap_or(Made { forks: 0, opens: 0 })
    }

    /// Whether this entry can come next: it speaks of what is there, and numbers are left for what it gives.
    pub fn can_follow(&self, entry: Entry) -> bool
        requires { IsLedger self.now }
        ensures { IsTrue result ↔ CanFollow (births self.now.journal.entries) entry }
    {
        let made = self.made(entry.process);
        if u64::from(entry.process) >= self.processes() {
            return false;
        }
        match entry.event {
            Event::Fork(count) => {
                self.processes().saturating_add(u64::from(count)) <= NUMBERS && made.forks < NUMBERS
            }
            Event::Open => self.channels() < NUMBERS && made.opens < NUMBERS,
            Event::Send(channel) => u64::from(channel) < self.channels(),
            Event::Receive(channel) => u64::from(channel) < self.channels(),
            Event::End | Event::Fault(_) | Event::Laid | Event::Pause => true,
        }
    }

    /// Takes the next entry in. Where memory is refused it is the ledger of the same journal as before.
    pub fn add(&mut self, entry: Entry) -> Result<(), Memory>
        requires ledger { IsLedger self.old }
        requires next { CanFollow (births self.old.journal.entries) entry }
        ensures ledger { IsLedger self.new }
        ensures added { OnOk result (self.new.journal.entries ≡ self.old.journal.entries ++ entry ∷ []) }
        ensures kept { OnErr result (self.new.journal ≡ self.old.journal) }
    {
        match entry.event {
            Event::Fork(count) => self.add_fork(entry.process, count),
            Event::Open => self.add_open(entry.process),
            Event::Send(_)
            | Event::Receive(_)
            | Event::End
            | Event::Fault(_)
            | Event::Laid
            | Event::Pause => {
                self.journal.entries.push(entry)?;
                Ok(())
            }
        }
    }

    fn add_fork(&mut self, process: u32, count: u32) -> Result<(), Memory>
        requires ledger { IsLedger self.old }
        requires next { CanFollow (births self.old.journal.entries)
            (record { process = process; event = Event.Fork count }) }
        ensures ledger { IsLedger self.new }
        ensures added { OnOk result (self.new.journal.entries ≡ self.old.journal.entries
            ++ record { process = process; event = Event.Fork count } ∷ []) }
        ensures kept { OnErr result (self.new.journal ≡ self.old.journal) }
    {
        let made = self.made(process);
        let family = Family {
            first: self.processes,
            parent: process,
            fork: made.forks as u32,
        };
        let made = Made {
            forks: made.forks + 1,
            opens: made.opens,
        };
        self.journal.entries.push(Entry {
            process,
            event: Event::Fork(count),
        })?;
        if self.families.push(family).is_err() {
            self.journal.entries.pop();
            return Err(Memory);
        }
        if self.made.insert(process, made).is_err() {
            self.families.pop();
            self.journal.entries.pop();
            return Err(Memory);
        }
        self.processes += u64::from(count);
        Ok(())
    }

    fn add_open(&mut self, process: u32) -> Result<(), Memory>
        requires ledger { IsLedger self.old }
        requires next { CanFollow (births self.old.journal.entries) (record { process = process; event = Event.Open }) }
        ensures ledger { IsLedger self.new }
        ensures added { OnOk result (self.new.journal.entries ≡ self.old.journal.entries
            ++ record { process = process; event = Event.Open } ∷ []) }
        ensures kept { OnErr result (self.new.journal ≡ self.old.journal) }
    {
        let made = self.made(process);
        let opening = Opening {
            owner: process,
            nth: made.opens as u32,
        };
        let made = Made {
            forks: made.forks,
            opens: made.opens + 1,
        };
        self.journal.entries.push(Entry {
            process,
            event: Event::Open,
        })?;
        if self.openings.push(opening).is_err() {
            self.journal.entries.pop();
            return Err(Memory);
        }
        if self.made.insert(process, made).is_err() {
            self.openings.pop();
            self.journal.entries.pop();
            return Err(Memory);
        }
        Ok(())
    }

    /// How this process came to be, which is there. None for the root.
    pub fn birth(&self, process: u32) -> Option<Birth>
        requires ledger { IsLedger self.now }
        requires there { process < (births self.now.journal.entries).processes }
        ensures { result ≡ (births self.now.journal.entries).birth process }
    {
        let families = self.families.items();
        let after = families.partition_point(|family| family.first <= u64::from(process));
        if after == 0 {
            return None;
        }
        let family = &families[after - 1];
        Some(Birth {
            parent: family.parent,
            fork: family.fork,
            child: (u64::from(process) - family.first) as u32,
        })
    }

    /// The name of this process, which is there.
    pub fn name(&self, process: u32) -> Result<ProcName, Memory>
        requires ledger { IsLedger self.now }
        requires there { process < (births self.now.journal.entries).processes }
        ensures { IfOk result (λ name. name ≡ proc_name ((births self.now.journal.entries).name process)) }
    {
        let mut pairs = Vec::new(self.alloc);
        let mut at = process;
        while let Some(birth) = self.birth(at) {
            pairs.push(Pair {
                fork: birth.fork,
                child: birth.child,
            })?;
            at = birth.parent;
        }
        pairs.reverse();
        Ok(ProcName {
            pairs: List::of(pairs),
        })
    }

    /// The name of this channel, which is there.
    pub fn channel(&self, number: u32) -> Result<ChanName, Memory>
        requires ledger { IsLedger self.now }
        requires there { number < (births self.now.journal.entries).channels }
        ensures { IfOk result (λ name. name ≡ chan_name (channel (births self.now.journal.entries) number)) }
    {
        let opening = self.openings.items()[number as usize];
        let owner = self.name(opening.owner)?;
        Ok(ChanName {
            owner,
            nth: opening.nth,
        })
    }
}
