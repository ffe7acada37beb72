//! Verdicts, what the judge keeps of processes, and witnesses.

ghost use Rattle.std.specs.Prelude.{◌≡◌, ◌<◌, ℕ, max, IfOk, IfSome, OnOk, OnErr, length, slice_get};
ghost use Rattle.sp_journal.specs.Births.{occurrences, IsNameable};
ghost use Rattle.sp_meaning.specs.Along.{IsClean};
ghost use Rattle.sp_race.specs.Clocks.{count_of};
ghost use Rattle.sp_race.specs.Prefixes.{WaitersAreSilent};
ghost use Rattle.sp_race.specs.Races.{IsVerdict};
ghost use Rattle.sp_witness.specs.TableNumbers.{IsPlain};
ghost use Rattle.sp_witness.specs.OccurrenceNumbers.{witness_journal};
ghost use Rattle.sp_witness.specs.Witness.{witness as shown};
ghost use Rattle.sp_execute.specs.Witnesses.{IsReadyRun, witness_of};

use sp_base::Memory;
use sp_execute::Ran;
use sp_journal::{End, Journal, Verdict};
use sp_race::Clock;
use std::alloc::Global;

/// `Clock::merge`.
pub fn merge(clock: &mut Clock, other: &Clock) -> Result<(), Memory>
    ensures ok { OnOk result ((q : ℕ) → count_of clock.new q ≡ max (count_of clock.old q) (count_of other.now q)) }
    ensures err { OnErr result ((q : ℕ) → count_of clock.new q ≡ count_of clock.old q) }
{
    let merged = clock.merge(other);
    merged
}

/// `sp_race::verdict_of`.
pub fn verdict_of(alloc: Global, journal: &Journal, end: &End) -> Result<Verdict, Memory>
    requires nameable { IsNameable journal.now }
    requires silent { WaitersAreSilent (occurrences journal.now) }
    ensures { IfOk result (λ verdict. IsVerdict (occurrences journal.now) end.now verdict) }
{
    let judged = sp_race::verdict_of(alloc, journal, end);
    judged
}

/// `sp_witness::witness`.
pub fn witness(
    alloc: Global,
    journal: &Journal,
    earlier: u64,
    later: u64,
) -> Result<Journal, Memory>
    requires nameable { IsNameable journal.now }
    requires silent { WaitersAreSilent (occurrences journal.now) }
    requires clean { IsClean (occurrences journal.now) }
    requires order { earlier < later }
    requires inside { later < length journal.now.entries }
    requires offer { IfSome (slice_get journal.now.entries earlier) (λ e. IsPlain e.event) }
    requires a_journal { IsNameable (witness_journal journal.now earlier later) }
    requires its_names { occurrences (witness_journal journal.now earlier later)
        ≡ shown (occurrences journal.now) earlier later }
    ensures { IfOk result (λ it. (it ≡ witness_journal journal.now earlier later) × IsNameable it) }
{
    let witnessed = sp_witness::witness(alloc, journal, earlier, later);
    witnessed
}

/// `sp_execute::witness`.
pub fn witness_of_run(alloc: Global, ran: &Ran) -> Result<Option<Journal>, Memory>
    requires { IsReadyRun ran.now }
    ensures { IfOk result (λ w. (w ≡ witness_of ran.now.verdict ran.now.closed.journal) × IfSome w IsNameable) }
{
    let found = sp_execute::witness(alloc, ran);
    found
}
