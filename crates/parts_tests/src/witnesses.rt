//! The test of the witness of a journal written by hand.

ghost use Rattle.std.specs.Prelude.{◌≡◌, ◌<◌, IfSome, length, slice_get};
ghost use Rattle.sp_journal.specs.Births.{occurrences, IsNameable};
ghost use Rattle.sp_race.specs.Prefixes.{WaitersAreSilent};
ghost use Rattle.sp_meaning.specs.Along.{IsClean};
ghost use Rattle.sp_witness.specs.Witness.{witness as shown};
ghost use Rattle.sp_witness.specs.OccurrenceNumbers.{witness_journal};
ghost use Rattle.sp_witness.specs.TableNumbers.{IsPlain};

use sp_base::{Fault, List, Memory};
use sp_journal::{Entry, Event, Journal};
use sp_witness::{
    flags_pick_the_first_part, numbers_are_found, one_pass_takes_the_first_part,
    ordered_runs_never_contend, races_are_real, races_have_offers, runs_are_ordered_alike,
    tables_number_the_witness, witness,
};
use std::alloc::Global;
use std::test::Fail;

#[test]
fn laws(_rt: HostRuntime) {
    races_are_real();
    ordered_runs_never_contend();
    races_have_offers();
    runs_are_ordered_alike();
    one_pass_takes_the_first_part();
    flags_pick_the_first_part();
    numbers_are_found();
    tables_number_the_witness();
}

fn entry(process: u32, event: Event) -> Entry
    ensures { result ≡ record { process = process; event = event } }
{
    Entry { process, event }
}

// Whether the witness of these two offers of a run has these entries.
fn is_witness(
    alloc: Global,
    run: Journal,
    earlier: u64,
    later: u64,
    wanted: Vec<Entry>,
) -> Result<bool, Memory>
    requires nameable { IsNameable run }
    requires silent { WaitersAreSilent (occurrences run) }
    requires clean { IsClean (occurrences run) }
    requires order { earlier < later }
    requires inside { later < length run.entries }
    requires offer { IfSome (slice_get run.entries earlier) (λ e. IsPlain e.event) }
    requires a_journal { IsNameable (witness_journal run earlier later) }
    requires its_names { occurrences (witness_journal run earlier later) ≡ shown (occurrences run) earlier later }
{
    let it = witness(alloc, &run, earlier, later)?;
    Ok(
        it == Journal {
            entries: List::of(wanted),
        },
    )
}

// Two senders and no receiver: the witness is the run up to the second offer, and then the contention.
#[test]
fn two_senders(rt: HostRuntime) -> Result<(), Fail> {
    let run = vec![in rt.alloc();
        entry(0, Event::Open),
        entry(0, Event::Fork(2)),
        entry(1, Event::Send(0)),
        entry(2, Event::Send(0)),
    ]?;
    let shown = vec![in rt.alloc();
        entry(0, Event::Open),
        entry(0, Event::Fork(2)),
        entry(1, Event::Send(0)),
        entry(2, Event::Fault(Fault::F6)),
    ]?;
    let run = Journal {
        entries: List::of(run),
    };
    assert!(rt; is_witness(rt.alloc(), run, 2, 3, shown)?);
    Ok(())
}
