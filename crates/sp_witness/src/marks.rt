//! The second pass, backwards: which entries of a run are in the first part of a witness.

ghost use Rattle.std.specs.Prelude.{◌≡◌, ◌+◌, ◌<◌, ◌≤◌, ◌^◌, IfOk, OnOk, ℕ, None, length, take};
ghost use Rattle.sp_journal.specs.Births.{first_births, births, NameableFrom};
ghost use Rattle.sp_journal.specs.Ledger.{IsLedger};
ghost use Rattle.sp_witness.specs.Flags.{any_flag, marks};
ghost use Rattle.sp_witness.specs.Passes.{flags_of_set, partner_flag, own_flag, with_flag, with_partner, ArePartners};
ghost use Rattle.sp_witness.specs.Passes.{HasFlags, IsFront, IsMark};

use crate::ties::{Ties, children};
use sp_base::Memory;
use sp_journal::{Entry, Event, Ledger};
use std::alloc::Global;
use std::collections::HashSet;

/// Of each entry before the later offer whether it is in the first part. One pass backwards, with the set of the
/// processes that are needed: `last`, the process of the later offer, and from the entry of index `earlier` on the one
/// of the earlier offer.
pub(crate) fn marks_of(
    alloc: Global,
    ledger: &Ledger,
    front: &[Entry],
    ties: &Ties,
    earlier: u64,
    last: u32,
) -> Result<Vec<bool>, Memory>
    requires ledger { IsLedger ledger.now }
    requires its_front { IsFront front.now ledger.now.journal.entries }
    requires nameable { NameableFrom first_births front.now }
    requires partners { ArePartners front.now ties.now.partners.items }
    requires processes { ties.now.processes ≡ (births front.now).processes }
    ensures { IfOk result (λ them. them.items ≡ marks earlier last first_births (λ c. None) 0 front.now) }
{
    let mut needed = HashSet::new(alloc);
    needed.insert(last)?;
    let mut marked = Vec::new(alloc);
    let mut first = ties.processes;
    let mut at = front.len();
    while at > 0 {
        at -= 1;
        first -= children(front[at].event);
        let mark = pass(&mut needed, ledger, front, ties, at, first, earlier)?;
        marked.push(mark)?;
    }
    marked.reverse();
    Ok(marked)
}

/// Goes back over the entry of this index, whose first child would have the number `first`, and says whether it is in
/// the first part.
fn pass(
    needed: &mut HashSet<u32>,
    ledger: &Ledger,
    front: &[Entry],
    ties: &Ties,
    at: usize,
    first: u64,
    earlier: u64,
) -> Result<bool, Memory>
    requires ledger { IsLedger ledger.now }
    requires its_front { IsFront front.now ledger.now.journal.entries }
    requires nameable { NameableFrom first_births front.now }
    requires partners { ArePartners front.now ties.now.partners.items }
    requires inside { at < length front.now }
    requires first { first ≡ (births (take at front.now)).processes }
    ensures mark { (last : ℕ) → HasFlags earlier last front.now (at + 1) needed.old
        → IfOk result (λ mark. IsMark earlier last front.now at mark) }
    ensures flags { (last : ℕ) → HasFlags earlier last front.now (at + 1) needed.old
        → OnOk result (HasFlags earlier last front.now at needed.new) }
{
    let entry = front[at];
    let partner = ties.partners[at];
    let mark = is_needed(needed, ledger, entry, partner, first);
    flag(needed, mark, entry.process)?;
    flag_partner(needed, mark, partner)?;
    flag(needed, at as u64 == earlier, entry.process)?;
    Ok(mark)
}

/// Adds the process that an offer meets, if it meets one, to those that are needed, where it is.
fn flag_partner(
    needed: &mut HashSet<u32>,
    is_needed: bool,
    partner: Option<u32>,
) -> Result<(), Memory>
    ensures { (q : ℕ) → OnOk result (flags_of_set needed.new q
        ≡ with_partner is_needed partner (flags_of_set needed.old) q) }
{
    match partner {
        Some(other) => flag(needed, is_needed, other),
        None => Ok(()),
    }
}

/// Adds the process to those that are needed, where it is.
fn flag(needed: &mut HashSet<u32>, is_needed: bool, process: u32) -> Result<(), Memory>
    ensures { (q : ℕ) → OnOk result
        (flags_of_set needed.new q ≡ with_flag is_needed process (flags_of_set needed.old) q) }
{
    if is_needed {
        needed.insert(process)?;
    }
    Ok(())
}

/// Whether the process of this entry is needed before it: it is needed after it, or the entry is a fork and one of its
/// children is needed, or an offer and the process that it meets is, or an end and the parent is.
fn is_needed(
    needed: &HashSet<u32>,
    ledger: &Ledger,
    entry: Entry,
    partner: Option<u32>,
    first: u64,
) -> bool
    requires ledger { IsLedger ledger.now }
    requires there { entry.process < (births ledger.now.journal.entries).processes }
    requires few { (count : ℕ) → entry.event ≡ Event.Fork count → first + count ≤ 2 ^ 32 }
    ensures { result ≡ own_flag (flags_of_set needed.now) entry.process entry.event first partner
        ((births ledger.now.journal.entries).birth entry.process) }
{
    let own = needed.contains(&entry.process);
    match entry.event {
        Event::Fork(count) => own || is_any_needed(needed, first, count),
        Event::Send(_) => own || is_partner_needed(needed, partner),
        Event::Receive(_) => own || is_partner_needed(needed, partner),
        Event::End => match ledger.birth(entry.process) {
            Some(birth) => own || needed.contains(&birth.parent),
            None => own,
        },
        Event::Open | Event::Fault(_) | Event::Laid | Event::Pause => own,
    }
}

fn is_partner_needed(needed: &HashSet<u32>, partner: Option<u32>) -> bool
    ensures { result ≡ partner_flag (flags_of_set needed.now) partner }
{
    match partner {
        Some(other) => needed.contains(&other),
        None => false,
    }
}

/// Whether one of the `count` processes from number `first` on is needed.
fn is_any_needed(needed: &HashSet<u32>, first: u64, count: u32) -> bool
    requires { first + count ≤ 2 ^ 32 }
    ensures { result ≡ any_flag (flags_of_set needed.now) first count }
{
    let mut any = false;
    for child in 0..count {
        let number = (first + u64::from(child)) as u32;
        any = needed.contains(&number) || any;
    }
    any
}
