//! Whether a set has variables from a number on.

ghost use Rattle.std.specs.Prelude.{◌≡◌, ◌↔◌, ℕ, ◌^◌, ◌≤◌, true, IsTrue};
ghost use Rattle.sp_varsets.specs.Members.{has};

use crate::var_set::{MOST_WORDS, VarSet};

impl VarSet {
    /// Whether the set has a variable of this number or of a greater one.
    pub fn has_from(&self, from: u32) -> bool
        ensures { IsTrue result ↔ ((x : ℕ) × (from ≤ x) × (has self.now x ≡ true)) }
    {
        match self.next(from) {
            Some(_) => true,
            None => self.has_past(),
        }
    }

    // Whether the set has a variable whose number is no u32.
    fn has_past(&self) -> bool
        ensures { IsTrue result ↔ ((x : ℕ) × (2 ^ 32 ≤ x) × (has self.now x ≡ true)) }
    {
        let words = self.words.items();
        'words: for k in MOST_WORDS..words.len() {
            if words[k] != 0 {
                return true;
            }
        }
        false
    }
}
