//! The law that a tree has one text of its sets. The function does nothing: its contract is the law.

ghost use Rattle.std.specs.Prelude.{◌≡◌, ℕ, List};
ghost use Rattle.sp_varsets.specs.SetsText.{IsSetsText};
ghost use Rattle.sp_tree.specs.PlainChecked.{Program};
ghost use Rattle.sp_varsets.specs.AreSets.{AreSets};
ghost use Rattle.sp_varsets.specs.declared.sets.Sets.{Sets};

/// A tree has one text of its sets.
pub fn one_sets_text()
    ensures { (p : Program) (s t : Sets) (a b : List ℕ) → AreSets p s → AreSets p t → IsSetsText p s a
        → IsSetsText p t b → a ≡ b }
{}
