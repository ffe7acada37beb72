//! What stands of an answer that a failed write displaced.

ghost use Rattle.std.specs.Prelude.{◌≡◌, ◌≢◌, ℕ, List, [], take};
ghost use Rattle.superpascal.specs.declared.ending.Answer.{Answer as AnAnswer};
ghost use Rattle.superpascal.specs.Answers.{notes_of, output_of, status_of};
ghost use Rattle.superpascal.specs.Calls.{Call};
ghost use Rattle.promise_rows.specs.Observations.{Observed};

/// With status 6 a first part of the output and of the notes of the answer that was due is written; all of the output
/// where its count of faults did not rise.
pub fn parts_are_written()
    ensures { (c : Call) (words : List (List ℕ)) (input out notes : List ℕ)
        → Observed c words input out notes → c.outcome.status ≡ 6
        → (a : AnAnswer) × (c.outcome.ran ≡ a.ran) × (c.outcome.executed ≡ a.executed)
        × ((n : ℕ) × (out ≡ take n (output_of a))) × ((n : ℕ) × (notes ≡ take n (notes_of a)))
        × (c.output.after ≡ 0 → out ≡ output_of a)
        × (out ≢ output_of a → notes ≡ []) }
{}

/// Status 6 does not come where no count rose, and no other status displaces the one that was due.
pub fn nothing_else_displaces()
    ensures quiet { (c : Call) (words : List (List ℕ)) (input out notes : List ℕ)
        → Observed c words input out notes → c.outcome.status ≡ 6 → c.output.after ≡ 0 → c.notes.after ≡ 0 → ⊥ }
    ensures due { (c : Call) (words : List (List ℕ)) (input out notes : List ℕ)
        → Observed c words input out notes → c.outcome.status ≢ 6
        → (a : AnAnswer) × (c.outcome.status ≡ status_of a.ending) × (out ≡ output_of a) × (notes ≡ notes_of a) }
{}
