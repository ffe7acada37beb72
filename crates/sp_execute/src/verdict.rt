//! The call `judge`: the verdict on a run of a program.

ghost use Rattle.std.specs.Prelude.{IfOk};
ghost use Rattle.sp_journal.specs.Births.{occurrences};
ghost use Rattle.sp_tree.specs.Interference.{IsFreeOfInterference};
ghost use Rattle.sp_meaning.specs.LocalWork.{RunInput};
ghost use Rattle.sp_race.specs.Races.{IsVerdict};
ghost use Rattle.sp_execute.specs.Runs.{IsAbout, Promises};

use crate::conclusion::Concluded;
use sp_base::Memory;
use sp_journal::Verdict;
use sp_race::{runs_are_silent, verdict_of, verdicts_hold_of_runs};
use std::alloc::Global;

/// Whether the result of a run of a program depends on the schedule. The verdict is exactly that of the journal and the
/// end: unjudged where the run ended by a fault, else ordered where the order condition holds, else the least race.
/// Where it is ordered and the program keeps the rules of interference, every lawful schedule of the program on the
/// input with the limits ends alike.
///
/// The error is want of memory alone.
pub fn judge(alloc: Global, concluded: &Concluded) -> Result<Verdict, Memory>
    requires about { (g : RunInput) × IsAbout g concluded.now.closed }
    ensures exact { IfOk result (λ v. IsVerdict (occurrences concluded.now.closed.journal) concluded.now.closed.end v) }
    ensures promise { IfOk result (λ v. (g : RunInput) → IsFreeOfInterference g.program → IsAbout g concluded.now.closed
        → Promises g concluded.now.closed v) }
{
    runs_are_silent();
    verdicts_hold_of_runs();
    verdict_of(alloc, concluded.closed.journal(), concluded.closed.end())
}
