//! Journals that are followed.

ghost use Rattle.std.specs.Prelude.{◌≡◌, ◌<◌, ◌≤◌, ℕ, List, [], ◌∷◌, ◌++◌, codes, length};
ghost use Rattle.sp_journal.specs.Texts.{journal_text};
ghost use Rattle.sp_journal.specs.declared.version.Version.TheVariants as version;
ghost use Rattle.sp_tree.specs.Breaches.{IsTree};
ghost use Rattle.superpascal.specs.Calls.{Call};
ghost use Rattle.promise_rows.specs.Observations.{Ends, Holds, IsQuiet, Observed};
ghost use Rattle.promise_rows.specs.Programs.{writes_42};
ghost use Rattle.promise_rows.specs.Files.{one_end, two_ends};

use sp_journal::one_journal_of_a_text;
use sp_tree::one_verdict;

/// `replay` of `program p; begin write('42') end.` along a journal in which the root ends: status 0, the output of the
/// program, and the lines of its end.
pub fn an_end_is_followed()
    ensures { (c : Call) (out notes text bytes : List ℕ)
        → Observed c (codes "replay" ∷ codes "a" ∷ codes "j" ∷ []) [] out notes
        → IsQuiet c → Holds c (codes "a") text → IsTree text writes_42
        → Holds c (codes "j") bytes → bytes ≡ journal_text version.Two one_end → length bytes ≤ 67108864
        → Ends c 0 ((out ≡ codes "42") × (notes ≡ codes "replayed\ndone\n")) }
{
    one_verdict();
    one_journal_of_a_text();
}

/// The root does not end twice: status 9, and the entry with index 1 is named.
pub fn a_second_end_is_unfit()
    ensures { (c : Call) (out notes text bytes : List ℕ)
        → Observed c (codes "replay" ∷ codes "a" ∷ codes "j" ∷ []) [] out notes
        → IsQuiet c → Holds c (codes "a") text → IsTree text writes_42
        → Holds c (codes "j") bytes → bytes ≡ journal_text version.Two two_ends → length bytes ≤ 67108864
        → Ends c 9 ((out ≡ []) × (notes ≡ codes "journal unfit 1\n")) }
{}

/// A journal without its first line: status 9, and the first line is named.
pub fn a_heading_is_missing()
    ensures { (c : Call) (out notes text rest : List ℕ)
        → Observed c (codes "replay" ∷ codes "a" ∷ codes "j" ∷ []) [] out notes
        → IsQuiet c → Holds c (codes "a") text → IsTree text writes_42
        → Holds c (codes "j") (codes "0 end\n" ++ rest) → length (codes "0 end\n" ++ rest) ≤ 67108864
        → Ends c 9 ((out ≡ []) × (notes ≡ codes "bad journal 1\n")) }
{}

/// A journal that is too long: status 9, and a line.
pub fn long_journals_are_refused()
    ensures { (c : Call) (out notes text bytes : List ℕ)
        → Observed c (codes "replay" ∷ codes "a" ∷ codes "j" ∷ []) [] out notes
        → IsQuiet c → Holds c (codes "a") text → IsTree text writes_42
        → Holds c (codes "j") bytes → 67108864 < length bytes
        → Ends c 9 ((out ≡ []) × (notes ≡ codes "journal too long\n")) }
{}

/// A journal that is followed is at no fault, and neither is one of a text that is run.
pub fn fit_journals_are_not_refused()
    ensures followed { (c : Call) (out notes text bytes : List ℕ)
        → Observed c (codes "replay" ∷ codes "a" ∷ codes "j" ∷ []) [] out notes
        → Holds c (codes "a") text → IsTree text writes_42
        → Holds c (codes "j") bytes → bytes ≡ journal_text version.Two one_end → length bytes ≤ 67108864
        → c.outcome.status ≡ 9 → ⊥ }
    ensures run { (c : Call) (input out notes : List ℕ)
        → Observed c (codes "run" ∷ codes "a" ∷ []) input out notes → c.outcome.status ≡ 9 → ⊥ }
{
    one_verdict();
    one_journal_of_a_text();
}
