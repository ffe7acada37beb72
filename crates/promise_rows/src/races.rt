//! Races, and what shows them.

ghost use Rattle.std.specs.Prelude.{◌≡◌, ◌≢◌, ℕ, List, [], ◌∷◌, Some, codes};
ghost use Rattle.sp_base.specs.declared.name.ChanName.{ChanName as AChanName};
ghost use Rattle.sp_execute.specs.declared.execution.Ran.{Ran as ARan};
ghost use Rattle.sp_execute.specs.Follows.{IsMeant};
ghost use Rattle.sp_execute.specs.Runs.{run_input};
ghost use Rattle.sp_front.specs.Checks.{IsProgramOf};
ghost use Rattle.sp_journal.specs.declared.entry.Way.{Way as AWay};
ghost use Rattle.sp_journal.specs.declared.outcome.End.TheVariants as end;
ghost use Rattle.sp_journal.specs.declared.outcome.Verdict.TheVariants as verdict;
ghost use Rattle.sp_journal.specs.declared.version.Version.TheVariants as version;
ghost use Rattle.sp_journal.specs.Texts.{journal_text};
ghost use Rattle.sp_tree.specs.Plain.{Program};
ghost use Rattle.sp_witness.specs.Contention.{NeverContends};
ghost use Rattle.sp_witness.specs.OccurrenceNumbers.{witness_journal};
ghost use Rattle.sp_words.specs.Ranges.{default_limits};
ghost use Rattle.superpascal.specs.Calls.{Call};
ghost use Rattle.promise_rows.specs.Observations.{Holds, Observed};

/// `witness` of a run with a race writes the text of its witness, along which the meaning of the program is defined.
pub fn a_race_is_shown()
    ensures { (c : Call) (input out notes text : List ℕ) (r : ARan) (w : AWay) (channel : AChanName) (i k : ℕ)
        → Observed c (codes "witness" ∷ codes "a" ∷ []) input out notes → Holds c (codes "a") text
        → c.outcome.ran ≡ Some r → r.verdict ≡ verdict.Race w channel i k → c.outcome.status ≢ 6
        → (out ≡ journal_text version.Two (witness_journal r.closed.journal i k))
        × ((p : Program) × IsProgramOf text p
        × IsMeant (run_input p input default_limits) (witness_journal r.closed.journal i k).entries) }
{}

/// `witness` of a run without a race writes nothing.
pub fn no_race_is_shown()
    ensures { (c : Call) (input out notes : List ℕ) (r : ARan)
        → Observed c (codes "witness" ∷ codes "a" ∷ []) input out notes
        → c.outcome.ran ≡ Some r → r.verdict ≡ verdict.Ordered → c.outcome.status ≢ 6 → out ≡ [] }
{}

/// A run that is done and has a race is not one of a program that never contends, and one that is ordered is.
pub fn races_contend()
    ensures race { (c : Call) (input out notes text : List ℕ) (r : ARan) (w : AWay) (channel : AChanName) (i k : ℕ)
        → Observed c (codes "run" ∷ codes "a" ∷ []) input out notes → Holds c (codes "a") text
        → c.outcome.ran ≡ Some r → r.closed.end ≡ end.Done → r.verdict ≡ verdict.Race w channel i k
        → (p : Program) × IsProgramOf text p × (NeverContends (run_input p input default_limits) → ⊥) }
    ensures ordered { (c : Call) (input out notes text : List ℕ) (r : ARan)
        → Observed c (codes "run" ∷ codes "a" ∷ []) input out notes → Holds c (codes "a") text
        → c.outcome.ran ≡ Some r → r.closed.end ≡ end.Done → r.verdict ≡ verdict.Ordered
        → (p : Program) × IsProgramOf text p × NeverContends (run_input p input default_limits) }
{}
