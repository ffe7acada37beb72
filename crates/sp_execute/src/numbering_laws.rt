//! The laws of journals by numbers: that of a run, and that of a witness. These functions do nothing: what counts is
//! their contracts.

ghost use Rattle.std.specs.Prelude.{◌≡◌, ℕ, ◌++◌, ◌∷◌, [], List, Option, Some};
ghost use Rattle.sp_base.specs.declared.fault.Fault.TheVariants as fault;
ghost use Rattle.sp_tree.specs.Plain.{Stmt};
ghost use Rattle.sp_journal.specs.declared.entry.Way.{Way};
ghost use Rattle.sp_journal.specs.declared.entry.Journal.{Journal};
ghost use Rattle.sp_journal.specs.declared.outcome.End.{End};
ghost use Rattle.sp_journal.specs.declared.outcome.End.TheVariants as end;
ghost use Rattle.sp_journal.specs.Names.{Channel, Occurrence, proc_name};
ghost use Rattle.sp_journal.specs.Births.{occurrences};
ghost use Rattle.sp_meaning.specs.LocalWork.{RunInput};
ghost use Rattle.sp_meaning.specs.Runs.{StateOf};
ghost use Rattle.sp_meaning.specs.Along.{IsAlong, IsClean};
ghost use Rattle.sp_meaning.specs.Ends.{EndsSo};
ghost use Rattle.sp_race.specs.Races.{IsLeastRace};
ghost use Rattle.sp_link.specs.Premises.{IsReady};
ghost use Rattle.sp_witness.specs.Witness.{who_at};
ghost use Rattle.sp_witness.specs.OccurrenceNumbers.{witness_journal};
ghost use Rattle.sp_execute.specs.NumberedRuns.{Numbered};
ghost use Rattle.sp_execute.specs.NumberedJournals.{IsWitness};

use sp_meaning::done_is_idle;
use sp_witness::races_are_real;

/// Where the meaning of a program is defined along some occurrences, of which none but the last is a fault, there is a
/// nameable journal of entries with these occurrences.
pub fn runs_can_be_numbered()
    ensures { (g : RunInput) (moves shares : Stmt → List ℕ) (pause : ℕ) → IsReady g moves shares
        → (os : List Occurrence) (o : Occurrence) → IsClean os
        → (n : ℕ) (s : StateOf g) → IsAlong g pause (os ++ o ∷ []) n s → Numbered (os ++ o ∷ []) }
{}

/// The witness is a journal. Of a program that is ready, with a run along a journal without a fault and its least race,
/// the witness by numbers is nameable, its names are those of the definition, and it shows the race.
pub fn witnesses_are_journals()
    ensures { (g : RunInput) (moves shares : Stmt → List ℕ) (turn : ℕ) → IsReady g moves shares
        → (j : Journal) (n : ℕ) (t : StateOf g) → IsAlong g turn (occurrences j) n t → IsClean (occurrences j)
        → (w : Way) (c : Channel) (earlier later : ℕ)
        → IsLeastRace (occurrences j) w c earlier later → IsWitness g turn j w c earlier later }
{
    runs_can_be_numbered();
    races_are_real();
}

/// What a program that is ready does along that witness is one thing: it ends there, with the fault F6 of the later
/// offer's process.
pub fn witnesses_end_in_contention()
    ensures { (g : RunInput) (moves shares : Stmt → List ℕ) (turn : ℕ) → IsReady g moves shares
        → (j : Journal) (n : ℕ) (t : StateOf g) → IsAlong g turn (occurrences j) n t → IsClean (occurrences j)
        → (w : Way) (c : Channel) (earlier later : ℕ) → IsLeastRace (occurrences j) w c earlier later
        → (m : ℕ) (u : StateOf g) → IsAlong g turn (occurrences (witness_journal j earlier later)) m u
        → (e : Option End) → EndsSo g u e
        → e ≡ Some (end.Fault (proc_name (who_at (occurrences j) later)) fault.F6) }
{
    witnesses_are_journals();
    done_is_idle();
}
