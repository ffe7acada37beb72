//! The clocks of all processes, by their numbers.

ghost use Rattle.std.specs.Prelude.{◌≡◌, ◌<◌, ◌≤◌, ◌+◌, ◌&&◌, ◌==◌, ◌≢◌, ◌^◌, nat_le, nat_lt, cond, max, ℕ, OnOk};
ghost use Rattle.std.specs.Prelude.{length};
ghost use Rattle.sp_race.specs.Clocks.{clock_at, IsAsked, AreRaised, AreMet};

use crate::clock::Clock;
use crate::have;
use sp_base::Memory;
use std::alloc::Global;
use std::mem;

/// A process that meets another one, and its count with the offer by which it does.
#[derive(Clone, Copy)]
pub(crate) struct Met {
    pub(crate) process: u32,
    pub(crate) count: u64,
}

/// The learner's clock takes in the teacher's, which has nothing where no count is asked for.
pub(crate) fn learn(
    alloc: Global,
    clocks: &mut Vec<Clock>,
    learner: u32,
    teacher: u32,
) -> Result<(), Memory>
    requires learner { learner < length clocks.old.items }
    requires teacher { teacher < length clocks.old.items }
    ensures len { OnOk result (length clocks.new.items ≡ length clocks.old.items) }
    ensures clocks { OnOk result ((p q : ℕ) → clock_at clocks.new.items p q
        ≡ cond (learner == p) (max (clock_at clocks.old.items learner q) (clock_at clocks.old.items teacher q))
        (clock_at clocks.old.items p q)) }
{
    if clocks[teacher as usize].is_empty() {
        return Ok(());
    }
    let mut clock = mem::replace(&mut clocks[learner as usize], Clock::new(alloc));
    let merged = clock.merge(&clocks[teacher as usize]);
    clocks[learner as usize] = clock;
    merged
}

/// The count of this process in its own clock becomes the greater of the old one and `count`, where an entry of index
/// `now` or later asks for it. The counts of its clock that are asked for no more are dropped.
pub(crate) fn raise(
    clocks: &mut Vec<Clock>,
    until: &[u64],
    now: u64,
    process: u32,
    count: u64,
) -> Result<(), Memory>
    requires { process < length clocks.old.items }
    ensures len { OnOk result (length clocks.new.items ≡ length clocks.old.items) }
    ensures clocks { OnOk result (AreRaised (IsAsked until.now now) process count
        (clock_at clocks.old.items) (clock_at clocks.new.items)) }
{
    clocks[process as usize].renew(until, now, process, count)
}

/// The next `count` processes from `first` on learn what this process knows, which is none of them.
pub(crate) fn share(
    alloc: Global,
    clocks: &mut Vec<Clock>,
    process: u32,
    first: u64,
    count: u32,
) -> Result<(), Memory>
    requires before { process < first }
    requires there { first + count ≤ length clocks.old.items }
    requires few { first + count ≤ 2 ^ 32 }
    ensures len { OnOk result (length clocks.new.items ≡ length clocks.old.items) }
    ensures clocks { OnOk result ((p q : ℕ) → clock_at clocks.new.items p q
        ≡ cond (nat_le first p && nat_lt p (first + count))
        (max (clock_at clocks.old.items p q) (clock_at clocks.old.items process q)) (clock_at clocks.old.items p q)) }
{
    for child in 0..count {
        have!(learn(alloc, clocks, (first + u64::from(child)) as u32, process));
    }
    Ok(())
}

/// Two different processes meet: each one's own count is raised, and then both know what both know.
pub(crate) fn meet(
    alloc: Global,
    clocks: &mut Vec<Clock>,
    until: &[u64],
    now: u64,
    comes: Met,
    waits: Met,
) -> Result<(), Memory>
    requires comes { comes.process < length clocks.old.items }
    requires waits { waits.process < length clocks.old.items }
    requires apart { comes.process ≢ waits.process }
    ensures len { OnOk result (length clocks.new.items ≡ length clocks.old.items) }
    ensures clocks { OnOk result (AreMet (IsAsked until.now now) comes.process comes.count waits.process waits.count
        (clock_at clocks.old.items) (clock_at clocks.new.items)) }
{
    have!(raise(clocks, until, now, comes.process, comes.count));
    have!(raise(clocks, until, now, waits.process, waits.count));
    have!(learn(alloc, clocks, comes.process, waits.process));
    have!(learn(alloc, clocks, waits.process, comes.process));
    Ok(())
}
