//! The first pass, forwards: whom the offers of a run meet.

ghost use Rattle.std.specs.Prelude.{◌≡◌, ◌+◌, ◌<◌, ◌^◌, IfOk, OnOk, ℕ};
ghost use Rattle.sp_journal.specs.Births.{Births, first_births, births_after_event, births, NameableFrom};
ghost use Rattle.sp_witness.specs.Flags.{line_by, lines_after, partner_of};
ghost use Rattle.sp_witness.specs.Passes.{waiters, ArePartners};

use sp_base::Memory;
use sp_journal::{Entry, Event};
use std::alloc::Global;
use std::collections::HashMap;

/// Of each of some first entries of a run whom its offer meets, and how many processes there are after them.
#[derive(Drop)]
pub(crate) struct Ties {
    pub(crate) partners: Vec<Option<u32>>,
    pub(crate) processes: u64,
}

/// One pass forwards over the first entries of a run.
pub(crate) fn ties_of(alloc: Global, front: &[Entry]) -> Result<Ties, Memory>
    requires { NameableFrom first_births front.now }
    ensures partners { IfOk result (λ ties. ArePartners front.now ties.partners.items) }
    ensures processes { IfOk result (λ ties. ties.processes ≡ (births front.now).processes) }
{
    let mut waiting = HashMap::new(alloc);
    let mut partners = Vec::new(alloc);
    let mut processes: u64 = 1;
    for entry in front {
        let partner = met(&mut waiting, *entry)?;
        partners.push(partner)?;
        processes += children(entry.event);
    }
    Ok(Ties {
        partners,
        processes,
    })
}

/// How many processes an event starts.
pub(crate) fn children(event: Event) -> u64
    ensures value { (s : Births) (p : ℕ) → (births_after_event s p event).processes ≡ s.processes + result }
    ensures few { result < 2 ^ 32 }
{
    match event {
        Event::Fork(count) => u64::from(count),
        Event::Open
        | Event::Send(_)
        | Event::Receive(_)
        | Event::End
        | Event::Fault(_)
        | Event::Laid
        | Event::Pause => 0,
    }
}

/// Whom the offer of this entry meets. It waits where nobody does.
fn met(waiting: &mut HashMap<u32, u32>, entry: Entry) -> Result<Option<u32>, Memory>
    ensures partner { IfOk result (λ partner. partner ≡ partner_of (waiters waiting.old) entry.event) }
    ensures after { (c : ℕ) → OnOk result (waiters waiting.new c
        ≡ lines_after (waiters waiting.old) entry.process entry.event c) }
{
    match entry.event {
        Event::Send(channel) => offered(waiting, entry.process, channel),
        Event::Receive(channel) => offered(waiting, entry.process, channel),
        Event::Fork(_) | Event::Open | Event::End | Event::Fault(_) | Event::Laid | Event::Pause =>
            Ok(None),
    }
}

/// Whom an offer of this process on this channel meets.
fn offered(
    waiting: &mut HashMap<u32, u32>,
    process: u32,
    channel: u32,
) -> Result<Option<u32>, Memory>
    ensures partner { IfOk result (λ partner. partner ≡ waiters waiting.old channel) }
    ensures after { (c : ℕ) → OnOk result (waiters waiting.new c
        ≡ line_by (waiters waiting.old) process channel (waiters waiting.old channel) c) }
{
    let other = waiting.remove(&channel);
    if other.is_none() {
        waiting.insert(channel, process)?;
    }
    Ok(other)
}
