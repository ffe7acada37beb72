//! The third pass, forwards: the marked entries of a run, with numbers of their own.

ghost use Rattle.std.specs.Prelude.{◌≡◌, ◌+◌, ◌<◌, ◌≤◌, ◌++◌, ◌∷◌, [], IfOk, OnOk, ℕ, cond, length, map};
ghost use Rattle.sp_base.specs.declared.fault.Fault.TheVariants as fault;
ghost use Rattle.sp_journal.specs.Births.{Births, first_births, births_after_event, NameableFrom};
ghost use Rattle.sp_witness.specs.TableNumbers.{first_table, table_after, renumbered_entry, renumbered_entries};
ghost use Rattle.sp_witness.specs.TableNumbers.{table_of};
ghost use Rattle.sp_witness.specs.Passes.{table_in, CanAdd};

use crate::ties::children;
use sp_base::{Fault, List, Memory};
use sp_journal::{Entry, Event, Journal};
use std::alloc::Global;
use std::collections::HashMap;

/// The new numbers of processes and channels, by those of the run, and how many have been given.
#[derive(Drop)]
pub(crate) struct Numbers {
    processes: HashMap<u32, u32>,
    channels: HashMap<u32, u32>,
    next_process: u64,
    next_channel: u64,
}

/// The marked entries of these, then the earlier offer, and then the fault of the process `last`, with numbers of their
/// own.
pub(crate) fn renumbered(
    alloc: Global,
    front: &[Entry],
    marks: &[bool],
    offer: Entry,
    last: u32,
) -> Result<Journal, Memory>
    requires nameable { NameableFrom first_births front.now }
    requires marks { length marks.now ≡ length front.now }
    ensures { IfOk result (λ it. it.entries ≡ renumbered_entries first_births first_table front.now marks.now
        ++ map (renumbered_entry (table_of first_births first_table front.now marks.now))
        (offer ∷ record { process = last; event = Event.Fault fault.F6 } ∷ [])) }
{
    let mut numbers = Numbers::new(alloc);
    let mut entries = List::new(alloc);
    let mut process: u64 = 1;
    let mut channel: u64 = 0;
    for at in 0..front.len() {
        let entry = front[at];
        numbers.take(&mut entries, entry, marks[at], process, channel)?;
        process += children(entry.event);
        channel += channels(entry.event);
    }
    entries.push(numbers.entry(offer))?;
    entries.push(numbers.entry(Entry {
        process: last,
        event: Event::Fault(Fault::F6),
    }))?;
    Ok(Journal { entries })
}

/// How many channels an event opens.
fn channels(event: Event) -> u64
    ensures value { (s : Births) (p : ℕ) → (births_after_event s p event).channels ≡ s.channels + result }
    ensures few { result ≤ 1 }
{
    match event {
        Event::Open => 1,
        Event::Fork(_)
        | Event::Send(_)
        | Event::Receive(_)
        | Event::End
        | Event::Fault(_)
        | Event::Laid
        | Event::Pause => 0,
    }
}

impl Numbers {
    /// The root alone has a number. Who has none stands under 0.
    fn new(alloc: Global) -> Numbers
        ensures { table_in result ≡ first_table }
    {
        Numbers {
            processes: HashMap::new(alloc),
            channels: HashMap::new(alloc),
            next_process: 1,
            next_channel: 0,
        }
    }

    /// The new number of a process.
    fn process(&self, process: u32) -> u32
        ensures { result ≡ (table_in self.now).process process }
    {
        self.processes.get(&process).copied().unwrap_or(0)
    }

    /// The new number of a channel.
    fn channel(&self, channel: u32) -> u32
        ensures { result ≡ (table_in self.now).channel channel }
    {
        self.channels.get(&channel).copied().unwrap_or(0)
    }

    /// The entry by the new numbers.
    fn entry(&self, entry: Entry) -> Entry
        ensures { result ≡ renumbered_entry (table_in self.now) entry }
    {
        let process = self.process(entry.process);
        let event = match entry.event {
            Event::Send(channel) => Event::Send(self.channel(channel)),
            Event::Receive(channel) => Event::Receive(self.channel(channel)),
            other => other,
        };
        Entry { process, event }
    }

    /// Takes in the next entry of the run: where it is marked it is put last, and gets and gives new numbers. In the
    /// run it gives the next numbers from `process` and `channel` on.
    fn take(
        &mut self,
        entries: &mut List<Entry>,
        entry: Entry,
        is_marked: bool,
        process: u64,
        channel: u64,
    ) -> Result<(), Memory>
        requires { CanAdd entry.event process channel self.old.next_process self.old.next_channel }
        ensures entries { OnOk result (entries.new
            ≡ entries.old ++ cond is_marked (renumbered_entry (table_in self.old) entry ∷ []) []) }
        ensures table { (s : Births) → s.processes ≡ process → s.channels ≡ channel
            → OnOk result (table_in self.new
            ≡ cond is_marked (table_after s (table_in self.old) entry.event) (table_in self.old)) }
    {
        if is_marked {
            entries.push(self.entry(entry))?;
            self.add(entry.event, process, channel)
        } else {
            Ok(())
        }
    }

    /// Gives numbers to the children or the channel of an event. In the run they have the next numbers from `process`
    /// and `channel` on.
    fn add(&mut self, event: Event, process: u64, channel: u64) -> Result<(), Memory>
        requires { CanAdd event process channel self.old.next_process self.old.next_channel }
        ensures { (s : Births) → s.processes ≡ process → s.channels ≡ channel
            → OnOk result (table_in self.new ≡ table_after s (table_in self.old) event) }
    {
        match event {
            Event::Fork(count) => self.add_children(process, count),
            Event::Open => {
                self.channels
                    .insert(channel as u32, self.next_channel as u32)?;
                self.next_channel += 1;
                Ok(())
            }
            Event::Send(_)
            | Event::Receive(_)
            | Event::End
            | Event::Fault(_)
            | Event::Laid
            | Event::Pause => Ok(()),
        }
    }

    fn add_children(&mut self, first: u64, count: u32) -> Result<(), Memory>
        requires { CanAdd (Event.Fork count) first 0 self.old.next_process self.old.next_channel }
        ensures { (s : Births) → s.processes ≡ first
            → OnOk result (table_in self.new ≡ table_after s (table_in self.old) (Event.Fork count)) }
    {
        let count = u64::from(count);
        for child in 0..count {
            let number = (first + child) as u32;
            let new = (self.next_process + child) as u32;
            self.processes.insert(number, new)?;
        }
        self.next_process += count;
        Ok(())
    }
}
