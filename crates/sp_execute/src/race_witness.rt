//! The call `witness`: the witness of a run's race.

ghost use Rattle.std.specs.Prelude.{◌≡◌, IfOk, IfSome};
ghost use Rattle.sp_journal.specs.Births.{IsNameable};
ghost use Rattle.sp_execute.specs.Witnesses.{IsReadyRun, witness_of};

use crate::execution::Ran;
use crate::numbering_laws::witnesses_are_journals;
use sp_base::Memory;
use sp_journal::{Journal, Verdict};
use sp_race::{runs_are_silent, runs_without_a_fault_are_clean};
use sp_witness::races_have_offers;
use std::alloc::Global;

/// The witness of the run's race: a journal of the program that ends where the two offers of the verdict contend.
/// `None` where the verdict is no race. The run is one that `run_program` gave.
///
/// The error is want of memory alone.
pub fn witness(alloc: Global, ran: &Ran) -> Result<Option<Journal>, Memory>
    requires { IsReadyRun ran.now }
    ensures { IfOk result (λ w. (w ≡ witness_of ran.now.verdict ran.now.closed.journal) × IfSome w IsNameable) }
{
    runs_are_silent();
    runs_without_a_fault_are_clean();
    witnesses_are_journals();
    races_have_offers();
    match &ran.verdict {
        Verdict::Race { earlier, later, .. } => {
            let journal = sp_witness::witness(alloc, ran.closed.journal(), *earlier, *later)?;
            Ok(Some(journal))
        }
        Verdict::Ordered | Verdict::Unjudged => Ok(None),
    }
}
