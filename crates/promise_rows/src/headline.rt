//! Runs of a program: which texts are refused, and what a run prints.

ghost use Rattle.std.specs.Prelude.{◌≡◌, ◌≤◌, ℕ, List, [], ◌∷◌, ◌++◌, None, Some, codes, length, take};
ghost use Rattle.sp_base.specs.declared.limits.Show.TheVariants as show;
ghost use Rattle.sp_execute.specs.declared.execution.Ran.{Ran as ARan};
ghost use Rattle.sp_execute.specs.Runs.{run_input};
ghost use Rattle.sp_front.specs.Checks.{IsProgramOf};
ghost use Rattle.sp_journal.specs.declared.entry.Entry.{Entry};
ghost use Rattle.sp_journal.specs.declared.outcome.Verdict.TheVariants as verdict;
ghost use Rattle.sp_meaning.specs.LocalWork.{RunInput};
ghost use Rattle.sp_meaning.specs.Model.{Name};
ghost use Rattle.sp_meaning.specs.Runs.{IsDisjointRun, Lawful, StateOf, start};
ghost use Rattle.sp_tree.specs.Breaches.{IsTree};
ghost use Rattle.sp_tree.specs.Plain.{Program};
ghost use Rattle.sp_words.specs.Ranges.{default_limits};
ghost use Rattle.superpascal.specs.Calls.{Call};
ghost use Rattle.promise_rows.specs.Observations.{Ends, Holds, IsQuiet, Observed};
ghost use Rattle.promise_rows.specs.Programs.{calls_unknown, waits, writes_42};

use sp_tree::one_verdict;

/// `run` of `program p; begin q end.`: status 1, the line of N1 at `q`, and no output.
pub fn unknown_names_are_refused()
    ensures { (c : Call) (input out notes text : List ℕ) → Observed c (codes "run" ∷ codes "a" ∷ []) input out notes
        → IsQuiet c → input ≡ [] → Holds c (codes "a") text → IsTree text calls_unknown
        → Ends c 1 ((out ≡ []) × (notes ≡ codes "refused N1 1:18\n")) }
{}

/// `run` of `program p; begin write('42') end.` never refuses it.
pub fn kept_rules_are_not_refused()
    ensures { (c : Call) (input out notes text : List ℕ) → Observed c (codes "run" ∷ codes "a" ∷ []) input out notes
        → Holds c (codes "a") text → IsTree text writes_42 → c.outcome.status ≡ 1 → ⊥ }
{
    one_verdict();
}

/// `run` of `program p; begin write('42') end.`: status 0, this output, and the lines of its end and its verdict.
pub fn a_run_writes_42()
    ensures { (c : Call) (out notes text : List ℕ) → Observed c (codes "run" ∷ codes "a" ∷ []) [] out notes
        → IsQuiet c → ((es : List Entry) → c.reports show.End es ≡ []) → Holds c (codes "a") text
        → IsTree text writes_42
        → Ends c 0 ((out ≡ codes "42") × (notes ≡ codes "done\nordered\n")) }
{
    one_verdict();
}

/// `run` of `program r; type ch = *(integer); var c: ch; x: integer; begin open(c); receive(c, x) end.`: status 4, no
/// output, and the lines of the deadlock and of the verdict.
pub fn a_run_waits()
    ensures { (c : Call) (out notes text : List ℕ) → Observed c (codes "run" ∷ codes "a" ∷ []) [] out notes
        → IsQuiet c → ((es : List Entry) → c.reports show.End es ≡ []) → Holds c (codes "a") text → IsTree text waits
        → Ends c 4 ((out ≡ []) × (notes ≡ codes "deadlock\nwaits 0 receive 0#0\nordered\n")) }
{
    one_verdict();
}

/// With status 6 a first part of the output of the same program is written.
pub fn a_part_is_written()
    ensures { (c : Call) (out notes text : List ℕ) (r : ARan)
        → Observed c (codes "run" ∷ codes "a" ∷ []) [] out notes → Holds c (codes "a") text → IsTree text writes_42
        → c.outcome.ran ≡ Some r → c.outcome.status ≡ 6 → (n : ℕ) × (out ≡ take n (codes "42")) }
{
    one_verdict();
}

/// No run is given back of a program in which, on some input and in some schedule, a process writes what a parallel one
/// uses.
pub fn other_programs_are_not_run()
    ensures { (c : Call) (input out notes text : List ℕ) (r : ARan) (g : RunInput)
        → Observed c (codes "run" ∷ codes "a" ∷ []) input out notes → Holds c (codes "a") text
        → IsProgramOf text g.program → (IsDisjointRun g → ⊥) → c.outcome.ran ≡ Some r → ⊥ }
{}

/// Of an ordered run: there is a number of steps, which no lawful schedule of the program exceeds; each meets no fault,
/// and is the front of one with so many steps.
pub fn ordered_runs_end_alike()
    ensures { (c : Call) (input out notes text : List ℕ) (r : ARan)
        → Observed c (codes "run" ∷ codes "a" ∷ []) input out notes → Holds c (codes "a") text
        → c.outcome.ran ≡ Some r → r.verdict ≡ verdict.Ordered
        → (p : Program) × IsProgramOf text p × (n : ℕ)
        × ((qs : List Name) (u : StateOf (run_input p input default_limits))
        → Lawful (run_input p input default_limits) (start (run_input p input default_limits)) qs u
        → (length qs ≤ n) × (u.fault ≡ None) × (rest : List Name) × (length (qs ++ rest) ≡ n)) }
{}
