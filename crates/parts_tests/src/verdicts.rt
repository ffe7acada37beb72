//! Tests of clocks, and of the verdicts on journals written by hand.

ghost use Rattle.sp_journal.specs.Births.{occurrences, IsNameable};
ghost use Rattle.sp_race.specs.Prefixes.{WaitersAreSilent};

use sp_base::{ChanName, Fault, List, Memory, Pair, ProcName};
use sp_journal::{End, Entry, Event, Journal, Verdict, Way};
use sp_race::{
    Clock, clocks_say_what_is_known, runs_are_silent, runs_without_a_fault_are_clean, verdict_of,
    verdicts_are_exact, verdicts_hold_of_runs,
};
use std::alloc::Global;
use std::test::Fail;

#[test]
fn laws(_rt: HostRuntime) {
    clocks_say_what_is_known();
    runs_are_silent();
    runs_without_a_fault_are_clean();
    verdicts_are_exact();
    verdicts_hold_of_runs();
}

#[test]
fn a_new_clock_knows_nothing(rt: HostRuntime) -> Result<(), Fail> {
    let clock = Clock::new(rt.alloc());
    assert!(rt; !clock.knows(3, 0));
    Ok(())
}

// A clock with two entries of process 3.
fn raised(alloc: Global) -> Result<Clock, Memory> {
    let mut clock = Clock::new(alloc);
    clock.raise(3, 2)?;
    clock.raise(3, 1)?;
    Ok(clock)
}

// A clock with four entries of process 3 and one of process 1.
fn other(alloc: Global) -> Result<Clock, Memory> {
    let mut clock = Clock::new(alloc);
    clock.raise(3, 4)?;
    clock.raise(1, 1)?;
    Ok(clock)
}

fn merged(alloc: Global) -> Result<Clock, Memory> {
    let other = other(alloc)?;
    let mut clock = raised(alloc)?;
    clock.merge(&other)?;
    Ok(clock)
}

#[test]
fn a_clock_keeps_the_greatest_count(rt: HostRuntime) -> Result<(), Fail> {
    let clock = raised(rt.alloc())?;
    assert!(rt; clock.knows(3, 1));
    assert!(rt; !clock.knows(3, 2));
    Ok(())
}

#[test]
fn a_clock_merged_has_the_greater_counts(rt: HostRuntime) -> Result<(), Fail> {
    let clock = merged(rt.alloc())?;
    assert!(rt; clock.knows(3, 3));
    assert!(rt; clock.knows(1, 0));
    assert!(rt; !clock.knows(1, 1));
    Ok(())
}

// An entry of a journal. No function, so that the prover reads each journal as it stands.
macro_rules! entry {
    ($process:expr, $event:expr) => {
        Entry { process: $process, event: $event }
    };
}

// Whether this is the verdict on a journal and an end.
fn is_judged(alloc: Global, journal: &Journal, end: &End, wanted: &Verdict) -> Result<bool, Memory>
    requires nameable { IsNameable journal.now }
    requires silent { WaitersAreSilent (occurrences journal.now) }
{
    let verdict = verdict_of(alloc, journal, end)?;
    Ok(verdict == *wanted)
}

// Whether the journal of a run that was done is ordered.
fn is_ordered(alloc: Global, journal: Journal) -> Result<bool, Memory>
    requires nameable { IsNameable journal }
    requires silent { WaitersAreSilent (occurrences journal) }
{
    is_judged(alloc, &journal, &End::Done, &Verdict::Ordered)
}

// A race on the root's first channel.
fn race(alloc: Global, way: Way, earlier: u64, later: u64) -> Verdict {
    let owner = ProcName {
        pairs: List::new(alloc),
    };
    Verdict::Race {
        way,
        channel: ChanName { owner, nth: 0 },
        earlier,
        later,
    }
}

// Whether the journal of a run that was done has this race.
fn is_race(
    alloc: Global,
    journal: Journal,
    way: Way,
    earlier: u64,
    later: u64,
) -> Result<bool, Memory>
    requires nameable { IsNameable journal }
    requires silent { WaitersAreSilent (occurrences journal) }
{
    let wanted = race(alloc, way, earlier, later);
    is_judged(alloc, &journal, &End::Done, &wanted)
}

// Whether the journal of a run that ended in a deadlock is ordered.
fn is_ordered_in_deadlock(alloc: Global, journal: Journal) -> Result<bool, Memory>
    requires nameable { IsNameable journal }
    requires silent { WaitersAreSilent (occurrences journal) }
{
    let waits = End::Deadlock(List::new(alloc));
    is_judged(alloc, &journal, &waits, &Verdict::Ordered)
}

// Whether the journal of a run that ended by a fault of this process is not judged.
fn is_unjudged(alloc: Global, journal: Journal, process: &[Pair]) -> Result<bool, Memory>
    requires nameable { IsNameable journal }
    requires silent { WaitersAreSilent (occurrences journal) }
{
    let process = ProcName {
        pairs: List::from_slice(alloc, process)?,
    };
    let fault = End::Fault {
        process,
        fault: Fault::F6,
    };
    is_judged(alloc, &journal, &fault, &Verdict::Unjudged)
}

// A program that forks no process: `0 end`.
#[test]
fn nothing_to_order(rt: HostRuntime) -> Result<(), Fail> {
    let entries = vec![in rt.alloc(); entry!(0, Event::End)]?;
    let journal = Journal {
        entries: List::of(entries),
    };
    assert!(rt; is_ordered(rt.alloc(), journal)?);
    Ok(())
}

// A process that receives and waits forever: `0 open`, `0 receive 0#0`.
#[test]
fn one_offer(rt: HostRuntime) -> Result<(), Fail> {
    let entries = vec![in rt.alloc(); entry!(0, Event::Open), entry!(0, Event::Receive(0))]?;
    let journal = Journal {
        entries: List::of(entries),
    };
    assert!(rt; is_ordered_in_deadlock(rt.alloc(), journal)?);
    Ok(())
}

// The same journal of a run that ended by a fault, which is not judged.
#[test]
fn one_offer_and_a_fault(rt: HostRuntime) -> Result<(), Fail> {
    let entries = vec![in rt.alloc(); entry!(0, Event::Open), entry!(0, Event::Receive(0))]?;
    let journal = Journal {
        entries: List::of(entries),
    };
    assert!(rt; is_unjudged(rt.alloc(), journal, &[])?);
    Ok(())
}

// Two senders, and one that receives twice: the second sender does not know of the first rendezvous.
#[test]
fn two_senders(rt: HostRuntime) -> Result<(), Fail> {
    let entries = vec![in rt.alloc();
        entry!(0, Event::Open),
        entry!(0, Event::Fork(3)),
        entry!(1, Event::Receive(0)),
        entry!(2, Event::Send(0)),
        entry!(3, Event::Send(0)),
        entry!(1, Event::Receive(0)),
        entry!(2, Event::End),
        entry!(3, Event::End),
        entry!(1, Event::End),
        entry!(0, Event::End),
    ]?;
    let journal = Journal {
        entries: List::of(entries),
    };
    assert!(rt; is_race(rt.alloc(), journal, Way::Send, 3, 4)?);
    Ok(())
}

// One sender and two receivers: the rendezvous are in order, and the second receiver does not know of the first.
#[test]
fn two_receivers(rt: HostRuntime) -> Result<(), Fail> {
    let entries = vec![in rt.alloc();
        entry!(0, Event::Open),
        entry!(0, Event::Fork(3)),
        entry!(1, Event::Send(0)),
        entry!(2, Event::Receive(0)),
        entry!(3, Event::Receive(0)),
        entry!(1, Event::Send(0)),
        entry!(2, Event::End),
        entry!(3, Event::End),
        entry!(1, Event::End),
        entry!(0, Event::End),
    ]?;
    let journal = Journal {
        entries: List::of(entries),
    };
    assert!(rt; is_race(rt.alloc(), journal, Way::Receive, 3, 4)?);
    Ok(())
}

// One channel used twice, one after the other: the join orders the second use after the first. Pauses change nothing.
#[test]
fn used_twice(rt: HostRuntime) -> Result<(), Fail> {
    let entries = vec![in rt.alloc();
        entry!(0, Event::Open),
        entry!(0, Event::Fork(2)),
        entry!(1, Event::Send(0)),
        entry!(2, Event::Receive(0)),
        entry!(1, Event::Pause),
        entry!(1, Event::End),
        entry!(2, Event::End),
        entry!(0, Event::Pause),
        entry!(0, Event::Fork(2)),
        entry!(3, Event::Send(0)),
        entry!(4, Event::Receive(0)),
        entry!(3, Event::End),
        entry!(4, Event::End),
        entry!(0, Event::End),
    ]?;
    let journal = Journal {
        entries: List::of(entries),
    };
    assert!(rt; is_ordered(rt.alloc(), journal)?);
    Ok(())
}

// The second use stands in a process statement inside the first: the sender knows of the first use by its fork.
#[test]
fn used_inside(rt: HostRuntime) -> Result<(), Fail> {
    let entries = vec![in rt.alloc();
        entry!(0, Event::Open),
        entry!(0, Event::Fork(2)),
        entry!(1, Event::Send(0)),
        entry!(2, Event::Receive(0)),
        entry!(1, Event::End),
        entry!(2, Event::Fork(2)),
        entry!(3, Event::Send(0)),
        entry!(4, Event::Receive(0)),
        entry!(3, Event::End),
        entry!(4, Event::End),
        entry!(2, Event::End),
        entry!(0, Event::End),
    ]?;
    let journal = Journal {
        entries: List::of(entries),
    };
    assert!(rt; is_ordered(rt.alloc(), journal)?);
    Ok(())
}

// A second sender meets a first one that still waits: the run ends by a fault, and is not judged.
#[test]
fn a_second_sender_faults(rt: HostRuntime) -> Result<(), Fail> {
    let entries = vec![in rt.alloc();
        entry!(0, Event::Open),
        entry!(0, Event::Fork(3)),
        entry!(1, Event::Send(0)),
        entry!(2, Event::Fault(Fault::F6)),
    ]?;
    let journal = Journal {
        entries: List::of(entries),
    };
    assert!(rt; is_unjudged(rt.alloc(), journal, &[Pair { fork: 0, child: 1 }])?);
    Ok(())
}

// A value goes from the first process to the second by one channel, and from that to the third by another.
#[test]
fn handed_on(rt: HostRuntime) -> Result<(), Fail> {
    let entries = vec![in rt.alloc();
        entry!(0, Event::Open),
        entry!(0, Event::Open),
        entry!(0, Event::Fork(3)),
        entry!(1, Event::Send(0)),
        entry!(2, Event::Receive(0)),
        entry!(3, Event::Receive(1)),
        entry!(1, Event::End),
        entry!(2, Event::Send(1)),
        entry!(3, Event::End),
        entry!(2, Event::End),
        entry!(0, Event::End),
    ]?;
    let journal = Journal {
        entries: List::of(entries),
    };
    assert!(rt; is_ordered(rt.alloc(), journal)?);
    Ok(())
}

// A pipeline of three nodes between a sender and a receiver: each channel has one sender and one receiver.
#[test]
fn pipeline(rt: HostRuntime) -> Result<(), Fail> {
    let entries = vec![in rt.alloc();
        entry!(0, Event::Open),
        entry!(0, Event::Open),
        entry!(0, Event::Open),
        entry!(0, Event::Open),
        entry!(0, Event::Fork(3)),
        entry!(1, Event::Send(0)),
        entry!(2, Event::Fork(3)),
        entry!(3, Event::Receive(3)),
        entry!(4, Event::Receive(0)),
        entry!(5, Event::Receive(1)),
        entry!(6, Event::Receive(2)),
        entry!(1, Event::End),
        entry!(4, Event::Send(1)),
        entry!(5, Event::Send(2)),
        entry!(4, Event::End),
        entry!(6, Event::Send(3)),
        entry!(5, Event::End),
        entry!(3, Event::End),
        entry!(6, Event::End),
        entry!(2, Event::End),
        entry!(0, Event::End),
    ]?;
    let journal = Journal {
        entries: List::of(entries),
    };
    assert!(rt; is_ordered(rt.alloc(), journal)?);
    Ok(())
}

// The same with one node, and with pauses: nobody comes to know of a pause.
#[test]
fn pipeline_with_pauses(rt: HostRuntime) -> Result<(), Fail> {
    let entries = vec![in rt.alloc();
        entry!(0, Event::Pause),
        entry!(0, Event::Open),
        entry!(0, Event::Open),
        entry!(0, Event::Pause),
        entry!(0, Event::Fork(3)),
        entry!(1, Event::Send(0)),
        entry!(2, Event::Fork(1)),
        entry!(3, Event::Receive(1)),
        entry!(4, Event::Receive(0)),
        entry!(4, Event::Pause),
        entry!(1, Event::Pause),
        entry!(1, Event::End),
        entry!(4, Event::Pause),
        entry!(4, Event::Send(1)),
        entry!(3, Event::End),
        entry!(4, Event::End),
        entry!(2, Event::End),
        entry!(0, Event::End),
    ]?;
    let journal = Journal {
        entries: List::of(entries),
    };
    assert!(rt; is_ordered(rt.alloc(), journal)?);
    Ok(())
}

// A tree of processes with two leaves, each of which sends to its parent by a channel that this one opened.
#[test]
fn tree(rt: HostRuntime) -> Result<(), Fail> {
    let entries = vec![in rt.alloc();
        entry!(0, Event::Open),
        entry!(0, Event::Fork(2)),
        entry!(1, Event::Open),
        entry!(2, Event::Receive(0)),
        entry!(1, Event::Open),
        entry!(1, Event::Fork(3)),
        entry!(3, Event::Send(1)),
        entry!(4, Event::Send(2)),
        entry!(5, Event::Receive(1)),
        entry!(3, Event::End),
        entry!(5, Event::Receive(2)),
        entry!(4, Event::End),
        entry!(5, Event::Send(0)),
        entry!(2, Event::End),
        entry!(5, Event::End),
        entry!(1, Event::End),
        entry!(0, Event::End),
    ]?;
    let journal = Journal {
        entries: List::of(entries),
    };
    assert!(rt; is_ordered(rt.alloc(), journal)?);
    Ok(())
}

// Two senders, with pauses: the indices count pauses, and a pause orders nothing.
#[test]
fn two_senders_with_pauses(rt: HostRuntime) -> Result<(), Fail> {
    let entries = vec![in rt.alloc();
        entry!(0, Event::Open),
        entry!(0, Event::Fork(3)),
        entry!(1, Event::Receive(0)),
        entry!(2, Event::Pause),
        entry!(2, Event::Send(0)),
        entry!(3, Event::Pause),
        entry!(2, Event::Pause),
        entry!(3, Event::Send(0)),
        entry!(1, Event::Receive(0)),
        entry!(2, Event::End),
        entry!(3, Event::End),
        entry!(1, Event::End),
        entry!(0, Event::End),
    ]?;
    let journal = Journal {
        entries: List::of(entries),
    };
    assert!(rt; is_race(rt.alloc(), journal, Way::Send, 4, 7)?);
    Ok(())
}

// A channel is used before a fork, and after it by one sender twice and then by another, who knows of the first use
// alone: the pair has the first use that is not known.
#[test]
fn the_first_that_is_not_known(rt: HostRuntime) -> Result<(), Fail> {
    let entries = vec![in rt.alloc();
        entry!(0, Event::Open),
        entry!(0, Event::Fork(2)),
        entry!(1, Event::Send(0)),
        entry!(2, Event::Receive(0)),
        entry!(1, Event::End),
        entry!(2, Event::End),
        entry!(0, Event::Fork(3)),
        entry!(3, Event::Send(0)),
        entry!(4, Event::Receive(0)),
        entry!(3, Event::Send(0)),
        entry!(4, Event::Receive(0)),
        entry!(5, Event::Send(0)),
        entry!(4, Event::Receive(0)),
        entry!(3, Event::End),
        entry!(5, Event::End),
        entry!(4, Event::End),
        entry!(0, Event::End),
    ]?;
    let journal = Journal {
        entries: List::of(entries),
    };
    assert!(rt; is_race(rt.alloc(), journal, Way::Send, 7, 11)?);
    Ok(())
}
