//! What a process knows of the others, as a count for each process that it knows of.

ghost use Rattle.std.specs.Prelude.{◌≡◌, ◌<◌, ◌↔◌, ◌==◌, cond, max, nat_lt, ℕ, IsTrue, OnErr, OnOk};
ghost use Rattle.sp_race.specs.Clocks.{count_of, clock_with_raised, number_at, HasPair, IsAsked};

use crate::have;
use sp_base::Memory;
use std::alloc::Global;
use std::collections::BTreeMap;

/// Whether the count of this process is asked for by an entry of index `now` or later. `until` has for each process the
/// index after the last entry that asks for it.
pub(crate) fn is_asked(until: &[u64], process: u32, now: u64) -> bool
    ensures { result ≡ nat_lt now (number_at until.now process) }
{
    match until.get(process as usize) {
        Some(end) => now < *end,
        None => false,
    }
}

/// A count for each process that has one, in order of their numbers. A process without a pair has the count 0. The
/// count n of a process stands for its first n entries of the kinds fork, open, send, receive and end.
#[derive(Drop)]
pub struct Clock {
    counts: BTreeMap<u32, u64>,
}

impl Clock {
    /// The clock without pairs. It takes no memory, and keeps the allocator.
    pub fn new(alloc: Global) -> Clock
        ensures { (q : ℕ) → count_of result q ≡ 0 }
    {
        Clock {
            counts: BTreeMap::new(alloc),
        }
    }

    fn count(&self, process: u32) -> u64
        ensures { result ≡ count_of self.now process }
    {
        self.counts.get(&process).copied().unwrap_or(0)
    }

    /// Whether it has no pair: then each count is 0.
    pub(crate) fn is_empty(&self) -> bool
        ensures { IsTrue result → (q : ℕ) → count_of self.now q ≡ 0 }
    {
        self.counts.is_empty()
    }

    /// The process's count becomes the greater of its old one and `count`. The other pairs stay. Only a process without
    /// a pair takes memory, and after `Memory` the counts are as before.
    pub fn raise(&mut self, process: u32, count: u64) -> Result<(), Memory>
        ensures ok { OnOk result ((q : ℕ) → count_of self.new q
            ≡ cond (process == q) (max (count_of self.old q) count) (count_of self.old q)) }
        ensures err { OnErr result ((q : ℕ) → count_of self.new q ≡ count_of self.old q) }
        ensures absent { OnErr result (HasPair self.old process → ⊥) }
        ensures pairs { (q : ℕ) → HasPair self.old q → HasPair self.new q }
    {
        if self.count(process) < count {
            have!(self.counts.insert(process, count));
        }
        Ok(())
    }

    /// Whether the count of this process is above `place`: the entry of that place, from 0 on, is known.
    pub fn knows(&self, process: u32, place: u64) -> bool
        ensures { IsTrue result ↔ (place < count_of self.now process) }
    {
        self.count(process) > place
    }

    /// Each count becomes the greater of both clocks'. After `Memory` the counts are as before.
    pub fn merge(&mut self, other: &Clock) -> Result<(), Memory>
        ensures ok { OnOk result ((q : ℕ) → count_of self.new q ≡ max (count_of self.old q) (count_of other.now q)) }
        ensures err { OnErr result ((q : ℕ) → count_of self.new q ≡ count_of self.old q) }
    {
        have!(self.admit(other));
        for (process, count) in other.counts.iter() {
            have!(self.raise(*process, *count));
        }
        Ok(())
    }

    /// Takes the memory for the other clock's pairs: a process that has one there and none here gets the count 0, which
    /// is what it has without a pair.
    fn admit(&mut self, other: &Clock) -> Result<(), Memory>
        ensures counts { (q : ℕ) → count_of self.new q ≡ count_of self.old q }
        ensures pairs { OnOk result ((q : ℕ) → HasPair other.now q → HasPair self.new q) }
    {
        for (process, _) in other.counts.iter() {
            if !self.counts.contains_key(process) {
                have!(self.counts.insert(*process, 0));
            }
        }
        Ok(())
    }

    /// Drops the counts that nobody asks for from the entry of index `now` on.
    pub(crate) fn forget(&mut self, until: &[u64], now: u64)
        ensures { (q : ℕ) → IsAsked until.now now q → count_of self.new q ≡ count_of self.old q }
    {
        self.counts
            .retain(|process, _count| is_asked(until, *process, now));
    }

    /// Drops what nobody asks for from the entry of index `now` on, and raises the count of this process where somebody
    /// does.
    pub(crate) fn renew(
        &mut self,
        until: &[u64],
        now: u64,
        process: u32,
        count: u64,
    ) -> Result<(), Memory>
        ensures { OnOk result ((q : ℕ) → IsAsked until.now now q
            → count_of self.new q ≡ clock_with_raised (count_of self.old) process count q) }
    {
        self.forget(until, now);
        if is_asked(until, process, now) {
            have!(self.raise(process, count));
        }
        Ok(())
    }
}
