//! When each status comes.

ghost use Rattle.std.specs.Prelude.{◌≡◌, ◌<◌, ℕ, List, [], ◌∷◌, codes, length};
ghost use Rattle.sp_tree.specs.Breaches.{IsTree};
ghost use Rattle.superpascal.specs.Calls.{Call};
ghost use Rattle.promise_rows.specs.Observations.{Ends, Holds, IsQuiet, Observed};
ghost use Rattle.promise_rows.specs.Programs.{writes_42};

/// No command has this name: status 2, a line, and no output.
pub fn refused_words_are_told()
    ensures { (c : Call) (input out notes : List ℕ) → Observed c (codes "walk" ∷ codes "a" ∷ []) input out notes
        → IsQuiet c → Ends c 2 ((out ≡ []) × (notes ≡ codes "bad words\n")) }
{}

/// Words that ask for a command are never refused.
pub fn other_words_are_accepted()
    ensures { (c : Call) (input out notes : List ℕ) → Observed c (codes "check" ∷ codes "a" ∷ []) input out notes
        → c.outcome.status ≡ 2 → ⊥ }
{}

/// `check` of `program p; begin write('42') end.`: status 0, and a line.
pub fn accepted_texts_are_told()
    ensures { (c : Call) (input out notes text : List ℕ) → Observed c (codes "check" ∷ codes "a" ∷ []) input out notes
        → IsQuiet c → Holds c (codes "a") text → IsTree text writes_42
        → Ends c 0 ((out ≡ []) × (notes ≡ codes "accepted\n")) }
{}

/// `check` reads no input, so it is never too long for it.
pub fn checks_read_nothing()
    ensures unread { (c : Call) (input out notes : List ℕ) → Observed c (codes "check" ∷ codes "a" ∷ []) input out notes
        → c.source.left' ≡ c.source.left }
    ensures never { (c : Call) (input out notes : List ℕ) → Observed c (codes "check" ∷ codes "a" ∷ []) input out notes
        → c.outcome.status ≡ 7 → ⊥ }
{}

/// `run` of the same program with more input than is read: status 7, a line, and no output.
pub fn long_inputs_are_refused()
    ensures { (c : Call) (input out notes text : List ℕ) → Observed c (codes "run" ∷ codes "a" ∷ []) input out notes
        → IsQuiet c → Holds c (codes "a") text → IsTree text writes_42 → 16777216 < length input
        → Ends c 7 ((out ≡ []) × (notes ≡ codes "input too long\n")) }
{}
