//! The verdict on a run, by its journal and its end.

ghost use Rattle.std.specs.Prelude.{◌≡◌, ◌<◌, ◌↔◌, Some, IsTrue, IfOk, length, slice_get, take};
ghost use Rattle.sp_journal.specs.Births.{births, occurrences, IsNameable};
ghost use Rattle.sp_journal.specs.Ledger.{IsLedger};
ghost use Rattle.sp_race.specs.Prefixes.{WaitersAreSilent};
ghost use Rattle.sp_race.specs.OfferOrder.{AreKnown};
ghost use Rattle.sp_race.specs.JudgeTables.{entries_by_names, offer_event, IsNameableAndSilent, TablesHold, IsRacing};
ghost use Rattle.sp_race.specs.Races.{IsFault, IsJudged, IsVerdict};

use crate::have;
use crate::judge_tables::{JudgeTables, RacingOffer};
use crate::knowledge::{first_unknown, knows_offers, questions};
use sp_base::Memory;
use sp_journal::{End, Entry, Event, Journal, Ledger, Verdict, Way};
use std::alloc::Global;

/// Whether the result of a run depends on the schedule. It is unjudged exactly where the run ended by a fault. Else it
/// is ordered exactly where of any two sends on one channel, and of any two receives on one channel, the earlier one
/// was completed, and the later one's process knew that just before it offered. Else the verdict has the least pair of
/// indices of which this does not hold, by the later and then the earlier one, with its way and its channel. The
/// journal gives names, and no process of it makes an entry while its own offer waits, as in every run.
pub fn verdict_of(alloc: Global, journal: &Journal, end: &End) -> Result<Verdict, Memory>
    requires nameable { IsNameable journal.now }
    requires silent { WaitersAreSilent (occurrences journal.now) }
    ensures { IfOk result (λ verdict. IsVerdict (occurrences journal.now) end.now verdict) }
{
    if is_fault(end) {
        Ok(Verdict::Unjudged)
    } else {
        judged_entries(alloc, journal)
    }
}

fn is_fault(end: &End) -> bool
    ensures { IsTrue result ↔ IsFault end.now }
{
    match end {
        End::Fault { .. } => true,
        End::Done | End::Deadlock(_) | End::Memory => false,
    }
}

/// Ordered, or the least race, by all entries.
fn judged_entries(alloc: Global, journal: &Journal) -> Result<Verdict, Memory>
    requires nameable { IsNameable journal.now }
    requires silent { WaitersAreSilent (occurrences journal.now) }
    ensures { IfOk result (λ verdict. IsJudged (occurrences journal.now) verdict) }
{
    let ledger = have!(Ledger::of(alloc, journal));
    let entries = journal.entries.items();
    let until = have!(questions(alloc, entries, ledger.processes(), ledger.channels()));
    let mut tables = have!(JudgeTables::new(alloc, ledger.processes(), ledger.channels()));
    for at in 0..entries.len() {
        let found = have!(racing(&tables, &ledger, entries, &until, at));
        if let Some(racing_offer) = found {
            return race(&ledger, &tables, entries, &until, at, racing_offer);
        }
        have!(tables.see(&ledger, entries, &until, at));
    }
    Ok(Verdict::Ordered)
}

/// The next entry's offer, where its process does not know of an earlier one of its way on its channel.
fn racing(
    tables: &JudgeTables,
    ledger: &Ledger,
    entries: &[Entry],
    until: &[u64],
    at: usize,
) -> Result<Option<RacingOffer>, Memory>
    requires tame { IsNameableAndSilent entries.now }
    requires ledger { IsLedger ledger.now }
    requires its_journal { ledger.now.journal.entries ≡ entries.now }
    requires inside { at < length entries.now }
    requires holds { TablesHold (births entries.now) until.now (take at entries.now) tables.now }
    requires in_order { AreKnown (entries_by_names (births entries.now) (take at entries.now)) }
    ensures { IfOk result (λ racing_offer. IsRacing entries.now at racing_offer) }
{
    let Entry { process, event } = entries[at];
    match event {
        Event::Send(channel) => offer_racing(
            tables,
            ledger,
            entries,
            until,
            at,
            RacingOffer {
                process,
                way: Way::Send,
                channel,
            },
        ),
        Event::Receive(channel) => offer_racing(
            tables,
            ledger,
            entries,
            until,
            at,
            RacingOffer {
                process,
                way: Way::Receive,
                channel,
            },
        ),
        Event::Fork(_) | Event::Open | Event::End | Event::Fault(_) | Event::Laid | Event::Pause =>
            Ok(None),
    }
}

/// This offer, where its process does not know of an earlier one.
fn offer_racing(
    tables: &JudgeTables,
    ledger: &Ledger,
    entries: &[Entry],
    until: &[u64],
    at: usize,
    offer: RacingOffer,
) -> Result<Option<RacingOffer>, Memory>
    requires tame { IsNameableAndSilent entries.now }
    requires ledger { IsLedger ledger.now }
    requires its_journal { ledger.now.journal.entries ≡ entries.now }
    requires holds { TablesHold (births entries.now) until.now (take at entries.now) tables.now }
    requires here { slice_get entries.now at
        ≡ Some (record { process = offer.process; event = offer_event offer.way offer.channel }) }
    requires in_order { AreKnown (entries_by_names (births entries.now) (take at entries.now)) }
    ensures { IfOk result (λ racing_offer. IsRacing entries.now at racing_offer) }
{
    let knows = have!(knows_offers(tables, ledger, entries, until, at, offer));
    if knows { Ok(None) } else { Ok(Some(offer)) }
}

/// The race of the next entry with the first earlier offer that its process does not know.
fn race(
    ledger: &Ledger,
    tables: &JudgeTables,
    entries: &[Entry],
    until: &[u64],
    at: usize,
    racing_offer: RacingOffer,
) -> Result<Verdict, Memory>
    requires tame { IsNameableAndSilent entries.now }
    requires ledger { IsLedger ledger.now }
    requires its_journal { ledger.now.journal.entries ≡ entries.now }
    requires holds { TablesHold (births entries.now) until.now (take at entries.now) tables.now }
    requires in_order { AreKnown (entries_by_names (births entries.now) (take at entries.now)) }
    requires racing { IsRacing entries.now at (Some racing_offer) }
    ensures { IfOk result (λ verdict. IsJudged (entries_by_names (births entries.now) entries.now) verdict) }
{
    let first = have!(first_unknown(ledger, tables, entries, until, at, racing_offer));
    match first {
        None => Ok(Verdict::Ordered),
        Some(earlier) => {
            let channel = have!(ledger.channel(racing_offer.channel));
            Ok(Verdict::Race {
                way: racing_offer.way,
                channel,
                earlier,
                later: at as u64,
            })
        }
    }
}
