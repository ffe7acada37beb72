//! What is written.

ghost use Rattle.std.specs.Prelude.{◌≡◌, ◌≢◌, ℕ, List, [], ◌∷◌, Some, codes, length};
ghost use Rattle.sp_execute.specs.declared.execution.Ran.{Ran as ARan};
ghost use Rattle.sp_base.specs.declared.limits.Show.TheVariants as show;
ghost use Rattle.sp_journal.specs.declared.entry.Entry.{Entry};
ghost use Rattle.sp_journal.specs.declared.outcome.End.TheVariants as end;
ghost use Rattle.sp_journal.specs.declared.outcome.Verdict.TheVariants as verdict;
ghost use Rattle.superpascal.specs.Calls.{Call};
ghost use Rattle.promise_rows.specs.Files.{one_end, root_waits};
ghost use Rattle.promise_rows.specs.Observations.{Observed};

/// `gen` writes the size, the output, the number of entries, the end and the verdict to its output, and no notes.
pub fn a_generated_run_is_told()
    ensures { (c : Call) (input out notes : List ℕ) (r : ARan)
        → Observed c (codes "gen" ∷ codes "7" ∷ []) input out notes
        → c.outcome.ran ≡ Some r → r.closed.output ≡ codes "42" → length r.closed.journal.entries ≡ 3
        → r.closed.end ≡ end.Done → r.verdict ≡ verdict.Ordered → c.outcome.status ≢ 6
        → (out ≡ codes "size 7\noutput 42\nentries 3\ndone\nordered\n") × (notes ≡ []) }
{}

/// `run --show journal` writes the journal alone to its notes.
pub fn a_journal_is_shown()
    ensures { (c : Call) (input out notes : List ℕ) (r : ARan)
        → Observed c (codes "run" ∷ codes "--show" ∷ codes "journal" ∷ codes "a" ∷ []) input out notes
        → c.outcome.ran ≡ Some r → r.closed.journal ≡ one_end → c.outcome.status ≢ 6
        → (out ≡ r.closed.output) × (notes ≡ codes "superpascal journal 2\n0 end\n") }
{}

/// A read fault is told by its line, and nothing is put to the output.
pub fn a_read_fault_is_told()
    ensures { (c : Call) (words : List (List ℕ)) (input out notes : List ℕ)
        → Observed c words input out notes → c.outcome.status ≡ 5
        → (out ≡ []) × (notes ≡ codes "read fault\n") }
{}

/// A run that ends in a deadlock, as `open(c); receive(c, x)` does: status 4, and the lines of its end with who waits.
pub fn a_deadlock_is_told()
    ensures { (c : Call) (input out notes : List ℕ) (r : ARan)
        → Observed c (codes "run" ∷ codes "a" ∷ []) input out notes
        → ((es : List Entry) → c.reports show.End es ≡ [])
        → c.outcome.ran ≡ Some r → r.closed.end ≡ end.Deadlock (root_waits ∷ []) → r.verdict ≡ verdict.Ordered
        → c.outcome.status ≢ 6
        → (c.outcome.status ≡ 4) × (notes ≡ codes "deadlock\nwaits 0 receive 0#0\nordered\n") }
{}
