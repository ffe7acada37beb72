//! The law that no two journals have one text. The function does nothing: what counts is its contract.

ghost use Rattle.std.specs.Prelude.{◌≡◌, List, ℕ};
ghost use Rattle.sp_journal.specs.declared.entry.Journal.{Journal};
ghost use Rattle.sp_journal.specs.declared.version.Version.{Version};
ghost use Rattle.sp_journal.specs.Texts.{IsTextOf};

/// No two journals have one text, in whatever versions.
pub fn one_journal_of_a_text()
    ensures { (v w : Version) (j k : Journal) (bytes : List ℕ) → IsTextOf v j bytes → IsTextOf w k bytes → j ≡ k }
{}
