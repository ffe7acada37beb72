//! The judge's tables, and what each entry does to them. They have a clock and a count of counted entries for each
//! process, a line for each channel (the offer that waits, the last offer of each way), and a place for each entry.

ghost use Rattle.std.specs.Prelude.{◌≡◌, ◌<◌, ◌+◌, ◌++◌, ◌∷◌, ◌↔◌, [], Some, IsTrue, OnOk, IfOk};
ghost use Rattle.std.specs.Prelude.{length, slice_get, slice_set, take};
ghost use Rattle.sp_journal.specs.Births.{births};
ghost use Rattle.sp_journal.specs.Ledger.{IsLedger};
ghost use Rattle.sp_race.specs.Clocks.{number_at};
ghost use Rattle.sp_race.specs.JudgeTables.{last_of, channel_offers_with, offer_event};
ghost use Rattle.sp_race.specs.JudgeTables.{IsNameableAndSilent, IsPlain, IsBlank, TablesHold};

use crate::clock::Clock;
use crate::have;
use crate::table::{Met, learn, meet, raise, share};
use sp_base::Memory;
use sp_journal::{Entry, Event, Ledger, Way};
use std::alloc::Global;

/// An offer: its process, and how many counted entries that one had made before.
#[derive(Clone, Copy)]
pub(crate) struct Offer {
    pub(crate) process: u32,
    pub(crate) place: u64,
}

/// Of one channel: the offer that waits, and the last offer of each way.
#[derive(Clone, Copy)]
pub(crate) struct ChannelOffers {
    pub(crate) waiting: Option<Offer>,
    pub(crate) sent: Option<Offer>,
    pub(crate) received: Option<Offer>,
}

impl ChannelOffers {
    pub(crate) fn last(self, way: Way) -> Option<Offer>
        ensures { result ≡ last_of way self }
    {
        match way {
            Way::Send => self.sent,
            Way::Receive => self.received,
        }
    }

    /// The line with this last offer of the way, and this offer that waits.
    fn then(self, way: Way, offer: Offer, waiting: Option<Offer>) -> ChannelOffers
        ensures { result ≡ channel_offers_with way offer waiting self }
    {
        match way {
            Way::Send => ChannelOffers {
                waiting,
                sent: Some(offer),
                received: self.received,
            },
            Way::Receive => ChannelOffers {
                waiting,
                sent: self.sent,
                received: Some(offer),
            },
        }
    }
}

/// A clock and a count of entries for each process, a line for each channel, and how many counted entries the process
/// of each entry had made before. So far there are `next` processes.
#[derive(Drop)]
pub(crate) struct JudgeTables {
    pub(crate) clocks: Vec<Clock>,
    pub(crate) made: Vec<u64>,
    pub(crate) lines: Vec<ChannelOffers>,
    pub(crate) places: Vec<u64>,
    pub(crate) next: u64,
    pub(crate) alloc: Global,
}

/// The next entry's process, way and channel, where it is an offer that races.
#[derive(Clone, Copy)]
pub(crate) struct RacingOffer {
    pub(crate) process: u32,
    pub(crate) way: Way,
    pub(crate) channel: u32,
}

impl JudgeTables {
    /// The tables of a journal with so many processes and channels, before its first entry.
    pub(crate) fn new(alloc: Global, processes: u64, channels: u64) -> Result<JudgeTables, Memory>
        ensures { IfOk result (λ tables. IsBlank tables processes channels) }
    {
        let mut clocks = Vec::new(alloc);
        let mut made = Vec::new(alloc);
        for _ in 0..processes {
            have!(clocks.push(Clock::new(alloc)));
            have!(made.push(0));
        }
        let mut lines = Vec::new(alloc);
        for _ in 0..channels {
            have!(lines.push(ChannelOffers {
                waiting: None,
                sent: None,
                received: None,
            }));
        }
        Ok(JudgeTables {
            clocks,
            made,
            lines,
            places: Vec::new(alloc),
            next: 1,
            alloc,
        })
    }

    /// Takes down an entry of this process that is counted, and says how many it has made now.
    fn note(&mut self, process: u32) -> Result<u64, Memory>
        requires { process < length self.old.made.items }
        ensures count { IfOk result (λ after. after ≡ number_at self.old.made.items process + 1) }
        ensures made { OnOk result (self.new.made.items
            ≡ slice_set self.old.made.items process (number_at self.old.made.items process + 1)) }
        ensures places { OnOk result (self.new.places.items ≡ self.old.places.items
            ++ number_at self.old.made.items process ∷ []) }
        ensures clocks { self.new.clocks.items ≡ self.old.clocks.items }
        ensures lines { self.new.lines.items ≡ self.old.lines.items }
        ensures next { self.new.next ≡ self.old.next }
    {
        let place = self.made[process as usize];
        let after = have!(one_more(place));
        have!(self.places.push(place));
        self.made[process as usize] = after;
        Ok(after)
    }

    /// Takes down an entry of this process that is not counted.
    fn pass(&mut self, process: u32) -> Result<(), Memory>
        requires { process < length self.old.made.items }
        ensures places { OnOk result (self.new.places.items ≡ self.old.places.items
            ++ number_at self.old.made.items process ∷ []) }
        ensures made { self.new.made.items ≡ self.old.made.items }
        ensures clocks { self.new.clocks.items ≡ self.old.clocks.items }
        ensures lines { self.new.lines.items ≡ self.old.lines.items }
        ensures next { self.new.next ≡ self.old.next }
    {
        have!(self.places.push(self.made[process as usize]));
        Ok(())
    }

    fn opens(
        &mut self,
        entries: &[Entry],
        until: &[u64],
        at: usize,
        process: u32,
    ) -> Result<(), Memory>
        requires tame { IsNameableAndSilent entries.now }
        requires holds { TablesHold (births entries.now) until.now (take at entries.now) self.old }
        requires here { slice_get entries.now at ≡ Some (record { process = process; event = Event.Open }) }
        ensures { OnOk result (TablesHold (births entries.now) until.now (take (at + 1) entries.now) self.new) }
    {
        let after = have!(self.note(process));
        have!(raise(&mut self.clocks, until, at as u64 + 1, process, after));
        Ok(())
    }

    fn forks(
        &mut self,
        entries: &[Entry],
        until: &[u64],
        at: usize,
        process: u32,
        count: u32,
    ) -> Result<(), Memory>
        requires tame { IsNameableAndSilent entries.now }
        requires holds { TablesHold (births entries.now) until.now (take at entries.now) self.old }
        requires here { slice_get entries.now at ≡ Some (record { process = process; event = Event.Fork count }) }
        ensures { OnOk result (TablesHold (births entries.now) until.now (take (at + 1) entries.now) self.new) }
    {
        let after = have!(self.note(process));
        have!(raise(&mut self.clocks, until, at as u64 + 1, process, after));
        have!(share(self.alloc, &mut self.clocks, process, self.next, count));
        self.next += u64::from(count);
        Ok(())
    }

    fn ends(
        &mut self,
        ledger: &Ledger,
        entries: &[Entry],
        until: &[u64],
        at: usize,
        process: u32,
    ) -> Result<(), Memory>
        requires tame { IsNameableAndSilent entries.now }
        requires ledger { IsLedger ledger.now }
        requires its_journal { ledger.now.journal.entries ≡ entries.now }
        requires holds { TablesHold (births entries.now) until.now (take at entries.now) self.old }
        requires here { slice_get entries.now at ≡ Some (record { process = process; event = Event.End }) }
        ensures { OnOk result (TablesHold (births entries.now) until.now (take (at + 1) entries.now) self.new) }
    {
        let after = have!(self.note(process));
        have!(raise(&mut self.clocks, until, at as u64 + 1, process, after));
        match ledger.birth(process) {
            None => Ok(()),
            Some(birth) => learn(self.alloc, &mut self.clocks, birth.parent, process),
        }
    }

    fn offers(
        &mut self,
        entries: &[Entry],
        until: &[u64],
        at: usize,
        process: u32,
        way: Way,
        channel: u32,
    ) -> Result<(), Memory>
        requires tame { IsNameableAndSilent entries.now }
        requires holds { TablesHold (births entries.now) until.now (take at entries.now) self.old }
        requires here { slice_get entries.now at
            ≡ Some (record { process = process; event = offer_event way channel }) }
        ensures { OnOk result (TablesHold (births entries.now) until.now (take (at + 1) entries.now) self.new) }
    {
        let after = have!(self.note(process));
        let offer = Offer {
            process,
            place: after - 1,
        };
        let line = self.lines[channel as usize];
        match line.waiting {
            None => {
                self.lines[channel as usize] = line.then(way, offer, Some(offer));
            }
            Some(other) => {
                let theirs = have!(one_more(other.place));
                have!(meet(
                    self.alloc,
                    &mut self.clocks,
                    until,
                    at as u64 + 1,
                    Met {
                        process,
                        count: after,
                    },
                    Met {
                        process: other.process,
                        count: theirs,
                    },
                ));
                self.lines[channel as usize] = line.then(way, offer, None);
            }
        }
        Ok(())
    }

    fn passes(
        &mut self,
        entries: &[Entry],
        until: &[u64],
        at: usize,
        process: u32,
        event: Event,
    ) -> Result<(), Memory>
        requires tame { IsNameableAndSilent entries.now }
        requires holds { TablesHold (births entries.now) until.now (take at entries.now) self.old }
        requires here { slice_get entries.now at ≡ Some (record { process = process; event = event }) }
        requires plain { IsPlain event }
        ensures { OnOk result (TablesHold (births entries.now) until.now (take (at + 1) entries.now) self.new) }
    {
        self.pass(process)
    }

    /// Takes the next entry in. After `Memory` the tables are of no more use.
    pub(crate) fn see(
        &mut self,
        ledger: &Ledger,
        entries: &[Entry],
        until: &[u64],
        at: usize,
    ) -> Result<(), Memory>
        requires tame { IsNameableAndSilent entries.now }
        requires ledger { IsLedger ledger.now }
        requires its_journal { ledger.now.journal.entries ≡ entries.now }
        requires inside { at < length entries.now }
        requires holds { TablesHold (births entries.now) until.now (take at entries.now) self.old }
        ensures { OnOk result (TablesHold (births entries.now) until.now (take (at + 1) entries.now) self.new) }
    {
        let Entry { process, event } = entries[at];
        match event {
            Event::Open => self.opens(entries, until, at, process),
            Event::Fork(count) => self.forks(entries, until, at, process, count),
            Event::Send(channel) => self.offers(entries, until, at, process, Way::Send, channel),
            Event::Receive(channel) => self.offers(
                entries,
                until,
                at,
                process,
                Way::Receive,
                channel,
            ),
            Event::End => self.ends(ledger, entries, until, at, process),
            Event::Fault(_) | Event::Laid | Event::Pause => self.passes(
                entries, until, at, process, event,
            ),
        }
    }
}

/// Whether the event is an offer of this way on this channel.
pub(crate) fn is_offer(event: Event, way: Way, channel: u32) -> bool
    ensures { IsTrue result ↔ (event ≡ offer_event way channel) }
{
    match (event, way) {
        (Event::Send(c), Way::Send) => c == channel,
        (Event::Receive(c), Way::Receive) => c == channel,
        _ => false,
    }
}

/// One more, of a count of entries in memory. It always fits.
fn one_more(count: u64) -> Result<u64, Memory>
    ensures { IfOk result (λ more. more ≡ count + 1) }
{
    count.checked_add(1).ok_or(Memory)
}
