//! Rows of the promise for `exec`: what it answers to a code file that is wrong, too long, or sound.

ghost use Rattle.std.specs.Prelude.{◌≡◌, ◌⊎◌, ◌<◌, ◌≤◌, ℕ, List, [], ◌∷◌, ◌++◌, Some, codes, length};
ghost use Rattle.sp_codefile.specs.CodeText.{IsTextOf, code_text};
ghost use Rattle.sp_code.specs.declared.code.Parts.{Parts};
ghost use Rattle.sp_kernel.specs.declared.closed.Closed.{Closed as AClosed};
ghost use Rattle.sp_verify_rules.specs.Verdict.{IsVerified};
ghost use Rattle.superpascal.specs.Calls.{Call};
ghost use Rattle.promise_rows.specs.Observations.{Ends, Holds, IsQuiet, Observed};
ghost use Rattle.promise_rows.specs.Files.{no_variable};

use sp_codefile::laws::a_text_is_of_one_code;

/// `exec` of bytes that do not begin as a code file does: status 10, the first line is named, and no output.
pub fn a_first_line_is_missing()
    ensures { (c : Call) (input out notes rest : List ℕ) → Observed c (codes "exec" ∷ codes "a" ∷ []) input out notes
        → IsQuiet c → input ≡ [] → Holds c (codes "a") (codes "layout 0 0 - none sizes 1 variables 2 formals\n" ++ rest)
        → length (codes "layout 0 0 - none sizes 1 variables 2 formals\n" ++ rest) ≤ 67108864
        → Ends c 10 ((out ≡ []) × (notes ≡ codes "bad code 1\n")) }
{}

/// `exec` of code that names a variable which is not there: status 10, V1 at the first instruction, and no output.
pub fn an_unknown_variable_is_rejected()
    ensures { (c : Call) (input out notes bytes : List ℕ) → Observed c (codes "exec" ∷ codes "a" ∷ []) input out notes
        → IsQuiet c → input ≡ [] → Holds c (codes "a") bytes → bytes ≡ code_text no_variable → length bytes ≤ 67108864
        → Ends c 10 ((out ≡ []) × (notes ≡ codes "rejected V1 0\n")) }
{}

/// `exec` of a file that is too long: status 10, a line, and no output.
pub fn long_files_are_refused()
    ensures { (c : Call) (input out notes bytes : List ℕ) → Observed c (codes "exec" ∷ codes "a" ∷ []) input out notes
        → IsQuiet c → input ≡ [] → Holds c (codes "a") bytes → 67108864 < length bytes
        → Ends c 10 ((out ≡ []) × (notes ≡ codes "code file too long\n")) }
{}

/// `exec` of code that breaks no rule is not refused, neither as a code file nor as a text.
pub fn sound_files_are_not_refused()
    ensures file { (c : Call) (input out notes bytes : List ℕ) (code : Parts)
        → Observed c (codes "exec" ∷ codes "a" ∷ []) input out notes
        → Holds c (codes "a") bytes → IsTextOf code bytes → length bytes ≤ 67108864 → IsVerified code
        → c.outcome.status ≡ 10 → ⊥ }
    ensures text { (c : Call) (input out notes bytes : List ℕ)
        → Observed c (codes "exec" ∷ codes "a" ∷ []) input out notes
        → Holds c (codes "a") bytes → c.outcome.status ≡ 1 → ⊥ }
{
    a_text_is_of_one_code();
}

/// `exec` of code that breaks no rule: the run is the answer, and its output is written, except if memory is lacking.
pub fn sound_files_are_run()
    ensures { (c : Call) (out notes bytes : List ℕ) (code : Parts)
        → Observed c (codes "exec" ∷ codes "a" ∷ []) [] out notes
        → IsQuiet c → Holds c (codes "a") bytes → IsTextOf code bytes → length bytes ≤ 67108864 → IsVerified code
        → ((r : AClosed) × (c.outcome.executed ≡ Some r) × (out ≡ r.output)) ⊎ (c.outcome.status ≡ 8) }
{}
