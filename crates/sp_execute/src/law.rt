//! Laws of programs that are accepted, of journals that are followed, and of races. These functions do nothing: what
//! counts is their contracts.

ghost use Rattle.std.specs.Prelude.{◌≡◌, ℕ, List};
ghost use Rattle.sp_base.specs.declared.limits.Limits.{Limits};
ghost use Rattle.sp_tree.specs.Bare.{without_places};
ghost use Rattle.sp_tree.specs.PlainChecked.{Program as Checked};
ghost use Rattle.sp_code.specs.Shares.{SetsAre};
ghost use Rattle.sp_code.specs.declared.code.Parts.{Parts};
ghost use Rattle.sp_code.specs.Sound.{AreLimits, run_of};
ghost use Rattle.sp_front.specs.AcceptedTree.{IsAccepted};
ghost use Rattle.sp_base.specs.declared.name.ChanName.{ChanName as AChanName};
ghost use Rattle.sp_journal.specs.declared.entry.Entry.{Entry};
ghost use Rattle.sp_journal.specs.declared.entry.Way.{Way as AWay};
ghost use Rattle.sp_journal.specs.declared.outcome.Verdict.TheVariants as verdict;
ghost use Rattle.sp_meaning.specs.LocalWork.{RunInput};
ghost use Rattle.sp_execute.specs.declared.execution.Ran.{Ran as ARan};
ghost use Rattle.sp_execute.specs.Follows.{IsMeant, IsUnfitAt};
ghost use Rattle.sp_execute.specs.Runs.{Executes, IsCodeOf, run_input};
ghost use Rattle.sp_execute.specs.TextTold.{IsToldInText};
ghost use Rattle.sp_replay.specs.declared.trace.Traced.{Traced as ATraced};
ghost use Rattle.sp_replay.specs.TraceAnswers.{TracedTo};
ghost use Rattle.sp_execute.specs.Witnesses.{IsFollowedToFault, ShowsRace};
ghost use Rattle.sp_link.specs.Premises.{IsReady};
ghost use Rattle.sp_tree.specs.Plain.{Stmt};

use crate::numbering_laws::{witnesses_are_journals, witnesses_end_in_contention};
use sp_lines::{landings_have_marks, waiting_processes_are_shown};
use sp_race::runs_without_a_fault_are_clean;
use sp_witness::ordered_runs_never_contend;

/// The program of a text that breaks no rule is ready: where its forks take over and share exactly what the sets of its
/// statements say, its code runs as it means, on every input with all limits within their types.
pub fn accepted_programs_are_ready()
    ensures { (text : List ℕ) (c : Checked) → IsAccepted text c → (moves shares : Stmt → List ℕ)
        → SetsAre (without_places c) moves shares
        → (input : List ℕ) (lim : Limits) → AreLimits lim
        → IsReady (record { program = without_places c; input = input; limits = lim }) moves shares }
{}

/// What is told of a journal that was followed with the code of a text's tree, and the state behind it, is of the text:
/// an entry that forks, opens, sends or receives is told where a statement of the text begins that does so, and a
/// process that waits, or joins, is shown where one begins that does so; a fault, and a process that runs, have a mark.
pub fn journals_are_told_in_the_text()
    ensures { (p : Checked) (moves shares : Stmt → List ℕ) (input : List ℕ) (lim : Limits) (code : Parts)
        → IsCodeOf (run_input (without_places p) input lim) moves shares code
        → (es : List Entry) (r : ATraced) → TracedTo (run_of code input lim) es r
        → IsToldInText p (run_of code input lim) es r }
{
    landings_have_marks();
    waiting_processes_are_shown();
}

/// A journal along which the meaning is defined is unfit at no entry, and any other one at one entry alone.
pub fn one_unfit_entry()
    ensures first { (g : RunInput) (es : List Entry) (m n : ℕ) → IsUnfitAt g es m → IsUnfitAt g es n → m ≡ n }
    ensures not_both { (g : RunInput) (es : List Entry) (n : ℕ) → IsMeant g es → IsUnfitAt g es n → ⊥ }
{}

/// The race of a run of a program that is ready is shown by its witness: a journal along which the meaning of the same
/// program, on the same input and with the same limits, is defined, and which ends with the fault F6 of the later offer
/// as it meets the pending earlier one. So it is followed, to that fault. A run that ends without a fault is ordered
/// exactly where no lawful schedule meets contention.
pub fn races_are_shown()
    ensures shown { (g : RunInput) (moves shares : Stmt → List ℕ) (workers : ℕ) (r : ARan)
        → IsReady g moves shares → Executes g workers r → ShowsRace g r }
    ensures followed { (g : RunInput) (moves shares : Stmt → List ℕ) (workers : ℕ) (r : ARan)
        → IsReady g moves shares → Executes g workers r
        → (w : AWay) (c : AChanName) (earlier later : ℕ) → r.verdict ≡ verdict.Race w c earlier later
        → IsFollowedToFault g r.closed.journal earlier later }
{
    runs_without_a_fault_are_clean();
    witnesses_are_journals();
    witnesses_end_in_contention();
    ordered_runs_never_contend();
}
