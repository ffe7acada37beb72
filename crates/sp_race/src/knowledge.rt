//! What the process of the next entry knows of the offers before it. Which counts are asked for is found beforehand;
//! the first unknown offer is sought once, when a race is found.

ghost use Rattle.std.specs.Prelude.{◌≡◌, ◌<◌, ◌≤◌, ◌↔◌, ℕ, Some, IsTrue, IfOk, MatchOption, length, slice_get, take};
ghost use Rattle.sp_journal.specs.Births.{births};
ghost use Rattle.sp_journal.specs.Ledger.{IsLedger};
ghost use Rattle.sp_race.specs.OfferOrder.{AreKnown};
ghost use Rattle.sp_race.specs.Clocks.{number_at};
ghost use Rattle.sp_race.specs.JudgeTables.{entries_by_names, offer_event, IsNameableAndSilent, TablesHold, IsOfferAt};
ghost use Rattle.sp_race.specs.JudgeTables.{IsLastOffer, KnowsAll};
ghost use Rattle.sp_race.specs.JudgeTables.{count_before, IsFirstUnknownOffer};

use crate::clock::is_asked;
use crate::have;
use crate::judge_tables::{JudgeTables, Offer, RacingOffer, is_offer};
use sp_base::Memory;
use sp_journal::{Entry, Event, Ledger, Way};
use std::alloc::Global;

/// Of one channel: the process of the last send, and that of the last receive.
#[derive(Clone, Copy)]
struct Users {
    sender: Option<u32>,
    receiver: Option<u32>,
}

/// For each process the index after the last entry that asks for its count. An offer asks for the count of the process
/// that made the last one before it of its way on its channel, if that is another process. A channel that nobody takes
/// over from anybody is never asked about, and no clock keeps a count for it. (Where this said less than it should, the
/// judge would say the same and be slower.)
pub(crate) fn questions(
    alloc: Global,
    entries: &[Entry],
    processes: u64,
    channels: u64,
) -> Result<Vec<u64>, Memory> {
    let mut until = Vec::new(alloc);
    for _ in 0..processes {
        have!(until.push(0));
    }
    let mut users = Vec::new(alloc);
    for _ in 0..channels {
        have!(users.push(Users {
            sender: None,
            receiver: None,
        }));
    }
    let mut end: u64 = 0;
    for entry in entries {
        end = end.saturating_add(1);
        ask(&mut until, &mut users, *entry, end);
    }
    Ok(until)
}

/// Takes down what the entry before this index asks for.
fn ask(until: &mut Vec<u64>, users: &mut Vec<Users>, entry: Entry, end: u64) {
    let Entry { process, event } = entry;
    let asked = match event {
        Event::Send(channel) => match users.get_mut(channel as usize) {
            Some(user) => user.sender.replace(process),
            None => None,
        },
        Event::Receive(channel) => match users.get_mut(channel as usize) {
            Some(user) => user.receiver.replace(process),
            None => None,
        },
        Event::Fork(_) | Event::Open | Event::End | Event::Fault(_) | Event::Laid | Event::Pause =>
            None,
    };
    if let Some(other) = asked {
        if other != process {
            if let Some(last) = until.get_mut(other as usize) {
                *last = end;
            }
        }
    }
}

/// Whether the process of this offer, the next entry, knows of all offers of its way on its channel so far. All of them
/// were in order.
pub(crate) fn knows_offers(
    tables: &JudgeTables,
    ledger: &Ledger,
    entries: &[Entry],
    until: &[u64],
    at: usize,
    offer: RacingOffer,
) -> Result<bool, Memory>
    requires tame { IsNameableAndSilent entries.now }
    requires ledger { IsLedger ledger.now }
    requires its_journal { ledger.now.journal.entries ≡ entries.now }
    requires holds { TablesHold (births entries.now) until.now (take at entries.now) tables.now }
    requires here { slice_get entries.now at
        ≡ Some (record { process = offer.process; event = offer_event offer.way offer.channel }) }
    requires in_order { AreKnown (entries_by_names (births entries.now) (take at entries.now)) }
    ensures { IfOk result (λ knows. IsTrue knows ↔ KnowsAll entries.now at offer.process offer.way offer.channel) }
{
    match tables.lines[offer.channel as usize].last(offer.way) {
        None => Ok(true),
        Some(last) => {
            if last.process == offer.process {
                Ok(true)
            } else if is_asked(until, last.process, at as u64) {
                Ok(tables.clocks[offer.process as usize].knows(last.process, last.place))
            } else {
                knows_entry(tables.alloc, ledger, entries, at, offer.process, last)
            }
        }
    }
}

/// For each process where to stop asking for its count: `end` for this one, and 0 for the others.
fn one_question(alloc: Global, processes: u64, process: u32, end: u64) -> Result<Vec<u64>, Memory>
    requires { process < processes }
    ensures { IfOk result (λ until. number_at until.items process ≡ end) }
{
    let mut until = Vec::new(alloc);
    for i in 0..processes {
        have!(until.push(if i == u64::from(process) { end } else { 0 }));
    }
    Ok(until)
}

/// Whether a process knows of an offer before the entry of this index, by the count of that offer's process alone. It
/// goes once through all entries before.
fn knows_entry(
    alloc: Global,
    ledger: &Ledger,
    entries: &[Entry],
    at: usize,
    process: u32,
    offer: Offer,
) -> Result<bool, Memory>
    requires tame { IsNameableAndSilent entries.now }
    requires ledger { IsLedger ledger.now }
    requires its_journal { ledger.now.journal.entries ≡ entries.now }
    requires inside { at < length entries.now }
    requires process { process < (births entries.now).processes }
    requires other { offer.process < (births entries.now).processes }
    ensures { IfOk result (λ known. IsTrue known ↔ (offer.place < count_before entries.now at process offer.process)) }
{
    let until = have!(one_question(alloc, ledger.processes(), offer.process, at as u64 + 1));
    let mut tables = have!(JudgeTables::new(alloc, ledger.processes(), ledger.channels()));
    for i in 0..at {
        have!(tables.see(ledger, entries, &until, i));
    }
    Ok(tables.clocks[process as usize].knows(offer.process, offer.place))
}

/// The last offer of this way on this channel before an index.
fn last_offer(entries: &[Entry], before: usize, way: Way, channel: u32) -> Option<usize>
    requires { before ≤ length entries.now }
    ensures { MatchOption result ((k : ℕ) → k < before → IsOfferAt entries.now way channel k → ⊥)
        (λ i. IsLastOffer entries.now before way channel i) }
{
    let mut i = before;
    while i > 0 {
        i -= 1;
        if is_offer(entries[i].event, way, channel) {
            return Some(i);
        }
    }
    None
}

/// The first earlier offer of the racing offer's way on its channel of which its process, that of the next entry, does
/// not know. Who knows of an offer knows of the ones before it, so the first one is found by halves.
pub(crate) fn first_unknown(
    ledger: &Ledger,
    tables: &JudgeTables,
    entries: &[Entry],
    until: &[u64],
    at: usize,
    racing_offer: RacingOffer,
) -> Result<Option<u64>, Memory>
    requires tame { IsNameableAndSilent entries.now }
    requires ledger { IsLedger ledger.now }
    requires its_journal { ledger.now.journal.entries ≡ entries.now }
    requires holds { TablesHold (births entries.now) until.now (take at entries.now) tables.now }
    requires here { slice_get entries.now at
        ≡ Some (record { process = racing_offer.process; event = offer_event racing_offer.way racing_offer.channel }) }
    requires in_order { AreKnown (entries_by_names (births entries.now) (take at entries.now)) }
    ensures { IfOk result (λ first. IsFirstUnknownOffer entries.now at racing_offer first) }
{
    let mut known = 0;
    let mut first = at;
    while known < first {
        let middle = first - (first - known) / 2;
        match last_offer(entries, middle, racing_offer.way, racing_offer.channel) {
            None => known = middle,
            Some(i) => {
                let offer = Offer {
                    process: entries[i].process,
                    place: tables.places[i],
                };
                let process = racing_offer.process;
                let knows = have!(knows_entry(tables.alloc, ledger, entries, at, process, offer));
                if knows {
                    known = middle;
                } else {
                    first = i;
                }
            }
        }
    }
    Ok(if first < at { Some(first as u64) } else { None })
}
