//! What is promised of witnesses and of the passes that find them. These functions do nothing but call one another:
//! what counts is their contracts.

ghost use Rattle.std.specs.Prelude.{◌≡◌, ◌<◌, ◌↔◌, ◌++◌, ◌∷◌, [], ℕ, IfSome, List, Some, None, length, map, slice_get};
ghost use Rattle.std.specs.Prelude.{take};
ghost use Rattle.sp_base.specs.declared.fault.Fault.TheVariants as fault;
ghost use Rattle.sp_tree.specs.Interference.{IsFreeOfInterference};
ghost use Rattle.sp_journal.specs.declared.entry.Way.{Way};
ghost use Rattle.sp_journal.specs.declared.entry.Entry.{Entry};
ghost use Rattle.sp_journal.specs.declared.entry.Event.TheVariants as event;
ghost use Rattle.sp_journal.specs.declared.entry.Journal.{Journal};
ghost use Rattle.sp_journal.specs.declared.outcome.End.{End};
ghost use Rattle.sp_journal.specs.declared.outcome.Verdict.{Verdict};
ghost use Rattle.sp_journal.specs.declared.outcome.Verdict.TheVariants as verdict;
ghost use Rattle.sp_journal.specs.Names.{Channel, Occurrence};
ghost use Rattle.sp_journal.specs.Births.{first_births, births, occurrence, occurrences, IsNameable};
ghost use Rattle.sp_meaning.specs.LocalWork.{RunInput};
ghost use Rattle.sp_meaning.specs.Runs.{StateOf};
ghost use Rattle.sp_meaning.specs.Along.{IsAlong, IsClean};
ghost use Rattle.sp_meaning.specs.Ends.{EndIs};
ghost use Rattle.sp_race.specs.Prefixes.{WaitersAreSilent};
ghost use Rattle.sp_race.specs.Races.{IsFault, IsLeastRace, IsVerdict, Race};
ghost use Rattle.sp_witness.specs.Witness.{first_part, witness};
ghost use Rattle.sp_witness.specs.Contention.{NeverContends, Shows};
ghost use Rattle.sp_witness.specs.NeededEntries.{backward_pass};
ghost use Rattle.sp_witness.specs.Flags.{picked_first_part, marks};
ghost use Rattle.sp_witness.specs.OccurrenceNumbers.{entries_by_numbers, witness_journal};
ghost use Rattle.sp_witness.specs.TableNumbers.{first_table, renumbered_entry, renumbered_entries, table_of, IsPlain};

use sp_race::{runs_are_silent, runs_without_a_fault_are_clean, verdicts_hold_of_runs};

/// The race is real. A program keeps the rules of interference; a run of it, along a journal without a fault, has a
/// race, and this is its least pair. Then the witness of the two offers is the journal of a run of the same program,
/// input and limits, and that run ends as the later offer's process meets the pending earlier offer, which has the same
/// way and channel: with the fault F6.
pub fn races_are_real()
    ensures { (g : RunInput) (turn : ℕ) (es : List Occurrence) (n : ℕ) (t : StateOf g)
        → IsFreeOfInterference g.program → IsAlong g turn es n t → IsClean es
        → (w : Way) (c : Channel) (earlier later : ℕ)
        → IsLeastRace es w c earlier later → Shows g turn es w c earlier later }
{
    runs_are_silent();
}

/// A verdict is `ordered` exactly where no schedule contends. A program keeps the rules of interference, and a run of
/// it along a journal has an end that is no fault. Then the verdict on the run is ordered exactly where no lawful
/// schedule of the program, on this input and with these limits, meets contention.
pub fn ordered_runs_never_contend()
    ensures { (g : RunInput) (turn : ℕ) (es : List Occurrence) (n : ℕ) (t : StateOf g) (e : End) (v : Verdict)
        → IsFreeOfInterference g.program → IsAlong g turn es n t → EndIs g t e → (IsFault e → ⊥) → IsVerdict es e v
        → (v ≡ verdict.Ordered) ↔ NeverContends g }
{
    runs_without_a_fault_are_clean();
    races_are_real();
    verdicts_hold_of_runs();
}

/// So two runs of one program on one input with the same limits, each with an end that is no fault, are both ordered,
/// or neither is.
pub fn runs_are_ordered_alike()
    ensures { (g : RunInput) (turn : ℕ) (es : List Occurrence) (n : ℕ) (t : StateOf g) (e : End) (v : Verdict)
        (turn2 : ℕ) (es2 : List Occurrence) (n2 : ℕ) (t2 : StateOf g) (e2 : End) (v2 : Verdict)
        → IsFreeOfInterference g.program
        → IsAlong g turn es n t → EndIs g t e → (IsFault e → ⊥) → IsVerdict es e v
        → IsAlong g turn2 es2 n2 t2 → EndIs g t2 e2 → (IsFault e2 → ⊥) → IsVerdict es2 e2 v2
        → v ≡ verdict.Ordered → v2 ≡ verdict.Ordered }
{
    ordered_runs_never_contend();
}

/// One pass backwards over the entries before the later offer, with a flag for each process, takes exactly the first
/// part of the witness: the entries that the processes of the two offers knew, and the pauses on the way to them.
pub fn one_pass_takes_the_first_part()
    ensures { (es : List Occurrence) (earlier later : ℕ) → WaitersAreSilent es → IsClean es
        → earlier < later → later < length es → backward_pass es earlier later ≡ first_part es earlier later }
{}

/// The same pass by the numbers of a nameable journal, with a flag for each process number and who waits on each
/// channel number, picks the entries of the first part.
pub fn flags_pick_the_first_part()
    ensures { (j : Journal) → IsNameable j → WaitersAreSilent (occurrences j) → IsClean (occurrences j)
        → (earlier later : ℕ) → earlier < later → (two : Entry) → slice_get j.entries later ≡ Some two
        → map (occurrence (births j.entries)) (picked_first_part earlier two.process (take later j.entries))
        ≡ first_part (occurrences j) earlier later }
{}

/// The two entries of a race are there, the earlier one gives no number (it is no fork and no open), and it stands
/// before the later one.
pub fn races_have_offers()
    ensures { (j : Journal) (w : Way) (c : Channel) (earlier later : ℕ) → Race (occurrences j) w c earlier later
        → (earlier < later) × (later < length j.entries)
        × IfSome (slice_get j.entries earlier) (λ e. IsPlain e.event) }
{}

/// The entries of a nameable journal are found again by its names: so a list of occurrences is that of one nameable
/// journal at most.
pub fn numbers_are_found()
    ensures { (j : Journal) → IsNameable j → entries_by_numbers (occurrences j) ≡ j.entries }
{}

/// Tables of new numbers, filled forwards over the marked entries, give the entries of the witness: these, then the
/// earlier offer, and then the fault of the later one's process.
pub fn tables_number_the_witness()
    ensures { (j : Journal) → IsNameable j → WaitersAreSilent (occurrences j) → IsClean (occurrences j)
        → (earlier later : ℕ) → earlier < later → (one two : Entry)
        → slice_get j.entries earlier ≡ Some one → slice_get j.entries later ≡ Some two → IsPlain one.event
        → IsNameable (witness_journal j earlier later)
        → occurrences (witness_journal j earlier later) ≡ witness (occurrences j) earlier later
        → (witness_journal j earlier later).entries
        ≡ renumbered_entries first_births first_table (take later j.entries)
        (marks earlier two.process first_births (λ c. None) 0 (take later j.entries))
        ++ map (renumbered_entry (table_of first_births first_table (take later j.entries)
        (marks earlier two.process first_births (λ c. None) 0 (take later j.entries))))
        (one ∷ record { process = two.process; event = event.Fault fault.F6 } ∷ []) }
{}
