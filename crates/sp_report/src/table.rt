//! What each process of a journal does after its entries, followed entry by entry for `Waiting`.

ghost use Rattle.std.specs.Prelude.{◌≡◌, false};
ghost use Rattle.sp_journal.specs.Births.{CanFollow, births};
ghost use Rattle.sp_journal.specs.Ledger.{IsLedger};
ghost use Rattle.sp_report.specs.Conditions.{conditions_after, with_condition, conditions_after_event};
ghost use Rattle.sp_report.specs.Conditions.{first_conditions, conditions_after_fork, less_left};
ghost use Rattle.sp_report.specs.Conditions.{conditions_after_offer};
ghost use Rattle.sp_report.specs.Conditions.{conditions_after_end};
ghost use Rattle.sp_report.specs.Fits.{Becomes, table_conditions};

use crate::condition::{Condition, Pending, is_fault, is_timely};
use sp_journal::{Birth, Entry, Event, Ledger, Way};
use std::alloc::Global;
use std::collections::HashMap;

/// The conditions of the processes that were started, and the offers that wait, by their channels. A table that was
/// refused memory is lost, and what it has is no answer.
pub(crate) struct Table {
    of: HashMap<u32, Condition>,
    pending: HashMap<u32, Pending>,
    faulted: bool,
    pub(crate) is_lost: bool,
}

// By hand, so that it is one call where a table is dropped.
impl Drop for Table {
    fn drop(self) {
        let Table {
            of: _,
            pending: _,
            faulted: _,
            is_lost: _,
        } = self;
    }
}

impl Table {
    /// Before the first entry the root runs.
    pub(crate) fn new(alloc: Global) -> Table
        ensures { result.is_lost ≡ false → table_conditions result ≡ first_conditions }
    {
        let mut of = HashMap::new(alloc);
        let is_lost = of.insert(0, Condition::Running).is_err();
        Table {
            of,
            pending: HashMap::new(alloc),
            faulted: false,
            is_lost,
        }
    }

    /// What this process does.
    pub(crate) fn of(&self, process: u32) -> Condition
        ensures { result ≡ (table_conditions self.now).of process }
    {
        self.of
            .get(&process)
            .copied()
            .unwrap_or(Condition::Unstarted)
    }

    fn becomes(&mut self, process: u32, condition: Condition)
        ensures { Becomes self.old self.new (with_condition (table_conditions self.old) process condition) }
    {
        if self.of.insert(process, condition).is_err() {
            self.is_lost = true;
        }
    }

    fn fork(&mut self, ledger: &Ledger, process: u32, count: u32)
        requires ledger { IsLedger ledger.now }
        requires next { CanFollow (births ledger.now.journal.entries)
            (record { process = process; event = Event.Fork count }) }
        ensures { Becomes self.old self.new
            (conditions_after_fork (births ledger.now.journal.entries) (table_conditions self.old) process count) }
    {
        let first = ledger.processes();
        let joining = Condition::Joining {
            first,
            count,
            left: count,
        };
        self.becomes(process, joining);
        for child in first..first + u64::from(count) {
            self.becomes(child as u32, Condition::Running);
        }
    }

    fn offer(&mut self, process: u32, way: Way, channel: u32)
        ensures { Becomes self.old self.new (conditions_after_offer (table_conditions self.old) way process channel
            ((table_conditions self.old).pending channel)) }
    {
        match self.pending.get(&channel).copied() {
            None => {
                if self
                    .pending
                    .insert(channel, Pending { way, process })
                    .is_err()
                {
                    self.is_lost = true;
                }
                self.becomes(process, Condition::Offering { way, channel })
            }
            Some(other) => {
                if !other.is(way) {
                    self.pending.remove(&channel);
                    self.becomes(other.process, Condition::Running)
                }
            }
        }
    }

    /// One child of this process has ended.
    fn report(&mut self, birth: Option<Birth>)
        ensures { Becomes self.old self.new (conditions_after_end (table_conditions self.old) birth) }
    {
        if let Some(birth) = birth {
            let parent = self.of(birth.parent);
            if let Condition::Joining { first, count, left } = parent {
                self.becomes(birth.parent, less_left(first, count, left))
            }
        }
    }

    fn change(&mut self, ledger: &Ledger, entry: Entry)
        requires ledger { IsLedger ledger.now }
        requires next { CanFollow (births ledger.now.journal.entries) entry }
        ensures { Becomes self.old self.new
            (conditions_after_event (births ledger.now.journal.entries) (table_conditions self.old) entry.process
            entry.event) }
    {
        let process = entry.process;
        match entry.event {
            Event::Fork(count) => self.fork(ledger, process, count),
            Event::Send(channel) => self.offer(process, Way::Send, channel),
            Event::Receive(channel) => self.offer(process, Way::Receive, channel),
            Event::End => {
                self.becomes(process, Condition::Ended);
                self.report(ledger.birth(process))
            }
            Event::Fault(_) | Event::Laid => self.becomes(process, Condition::Laid),
            Event::Open | Event::Pause => {}
        }
    }

    /// Takes the next entry in, which the ledger does not have yet.
    pub(crate) fn tell(&mut self, ledger: &Ledger, entry: Entry)
        requires ledger { IsLedger ledger.now }
        requires next { CanFollow (births ledger.now.journal.entries) entry }
        ensures { Becomes self.old self.new
            (conditions_after (births ledger.now.journal.entries) (table_conditions self.old) entry) }
    {
        if self.of(entry.process).is_running() && is_timely(self.faulted, entry.event) {
            self.change(ledger, entry);
        }
        if is_fault(entry.event) {
            self.faulted = true;
        }
    }
}

fn less_left(first: u64, count: u32, left: u32) -> Condition
    ensures { result ≡ less_left first count left }
{
    if left == 1 {
        Condition::Running
    } else {
        Condition::Joining {
            first,
            count,
            left: left.saturating_sub(1),
        }
    }
}
