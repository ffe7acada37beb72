//! The law that a text is that of one code. The function does nothing: its contract is the law.

ghost use Rattle.std.specs.Prelude.{◌≡◌, List, ℕ};
ghost use Rattle.sp_code.specs.declared.code.Parts.{Parts};
ghost use Rattle.sp_codefile.specs.CodeText.{IsTextOf};

/// A text is that of one code, so no two codes have the same.
pub fn a_text_is_of_one_code()
    ensures { (p q : Parts) (bytes : List ℕ) → IsTextOf p bytes → IsTextOf q bytes → p ≡ q }
{}
