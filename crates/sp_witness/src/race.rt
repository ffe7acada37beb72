//! The witness of the two offers of a race, by the three passes.

ghost use Rattle.std.specs.Prelude.{◌≡◌, ◌<◌, IfOk, IfSome, length, slice_get};
ghost use Rattle.sp_journal.specs.Births.{occurrences, IsNameable};
ghost use Rattle.sp_race.specs.Prefixes.{WaitersAreSilent};
ghost use Rattle.sp_meaning.specs.Along.{IsClean};
ghost use Rattle.sp_witness.specs.Witness.{witness as shown};
ghost use Rattle.sp_witness.specs.OccurrenceNumbers.{witness_journal};
ghost use Rattle.sp_witness.specs.TableNumbers.{IsPlain};

use crate::laws::tables_number_the_witness;
use crate::marks::marks_of;
use crate::numbers::renumbered;
use crate::ties::ties_of;
use sp_base::Memory;
use sp_journal::{Journal, Ledger};
use std::alloc::Global;

/// The witness of the two offers of these indices: a journal of the entries that the process of either knew just before
/// its offer, with the pauses on the way, then the earlier offer, and then the fault F6 of the later one's process.
/// Processes and channels keep their names, and have the numbers that this journal gives them. The run is one without a
/// fault, in which no process makes an entry while its own offer waits, and its witness is a journal, as that of the
/// least race of a program's run is.
pub fn witness(
    alloc: Global,
    journal: &Journal,
    earlier: u64,
    later: u64,
) -> Result<Journal, Memory>
    requires nameable { IsNameable journal.now }
    requires silent { WaitersAreSilent (occurrences journal.now) }
    requires clean { IsClean (occurrences journal.now) }
    requires order { earlier < later }
    requires inside { later < length journal.now.entries }
    requires offer { IfSome (slice_get journal.now.entries earlier) (λ e. IsPlain e.event) }
    requires a_journal { IsNameable (witness_journal journal.now earlier later) }
    requires its_names { occurrences (witness_journal journal.now earlier later)
        ≡ shown (occurrences journal.now) earlier later }
    ensures { IfOk result (λ it. (it ≡ witness_journal journal.now earlier later) × IsNameable it) }
{
    tables_number_the_witness();
    let ledger = Ledger::of(alloc, journal)?;
    let entries = journal.entries.items();
    let offer = entries[earlier as usize];
    let last = entries[later as usize].process;
    let front = &entries[..later as usize];
    let ties = ties_of(alloc, front)?;
    let marks = marks_of(alloc, &ledger, front, &ties, earlier, last)?;
    renumbered(alloc, front, &marks, offer, last)
}
