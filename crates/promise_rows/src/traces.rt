//! Journals that are told by their entries, and by the state behind them.

ghost use Rattle.std.specs.Prelude.{◌≡◌, ℕ, List, [], ◌∷◌, ◌++◌, codes};
ghost use Rattle.sp_base.specs.Places.{place_text};
ghost use Rattle.sp_base.specs.declared.place.Place.{Place};
ghost use Rattle.sp_journal.specs.Texts.{journal_text};
ghost use Rattle.sp_journal.specs.declared.version.Version.TheVariants as version;
ghost use Rattle.superpascal.specs.Calls.{Call};
ghost use Rattle.promise_rows.specs.Observations.{Holds, Observed};
ghost use Rattle.promise_rows.specs.Files.{one_end};

use sp_journal::one_journal_of_a_text;

/// `trace` along a journal in which the root ends: the heading, and the line of the entry with its place.
pub fn an_end_is_told()
    ensures { (c : Call) (out notes text bytes : List ℕ)
        → Observed c (codes "trace" ∷ codes "a" ∷ codes "j" ∷ []) [] out notes
        → Holds c (codes "a") text → Holds c (codes "j") bytes → bytes ≡ journal_text version.Two one_end
        → c.outcome.status ≡ 0
        → (at : Place) × (out ≡ codes "trace\n0 " ++ place_text at ++ codes " 0 end\n") }
{
    one_journal_of_a_text();
}

/// `trace` does not write what the program wrote.
pub fn no_output_is_told()
    ensures { (c : Call) (out notes text bytes : List ℕ)
        → Observed c (codes "trace" ∷ codes "a" ∷ codes "j" ∷ []) [] out notes
        → Holds c (codes "a") text → Holds c (codes "j") bytes → bytes ≡ journal_text version.Two one_end
        → c.outcome.status ≡ 0 → out ≡ codes "42" → ⊥ }
{
    one_journal_of_a_text();
}

/// `where` tells no process behind the end of the root.
pub fn nobody_is_anywhere()
    ensures { (c : Call) (out notes text bytes : List ℕ)
        → Observed c (codes "where" ∷ codes "a" ∷ codes "j" ∷ []) [] out notes
        → Holds c (codes "a") text → Holds c (codes "j") bytes → bytes ≡ journal_text version.Two one_end
        → c.outcome.status ≡ 0 → out ≡ codes "where\n" }
{
    one_journal_of_a_text();
}
