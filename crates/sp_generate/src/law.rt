//! The law that a program has one code.

ghost use Rattle.std.specs.Prelude.{◌≡◌};
ghost use Rattle.sp_tree.specs.Plain.{Program};
ghost use Rattle.sp_code.specs.declared.code.Parts.{Parts};
ghost use Rattle.sp_generate.specs.GeneratorAnswers.{IsCodeOf};

/// A program has one code.
pub fn one_code()
    ensures { (p : Program) (a b : Parts) → IsCodeOf p a → IsCodeOf p b → a ≡ b }
{}
