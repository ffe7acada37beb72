//! Unions of sets without memory (`VarUnion`).

ghost use Rattle.std.specs.Prelude.{◌≡◌, ◌↔◌, ℕ, true, false, ◌||◌, IsTrue};
ghost use Rattle.sp_varsets.specs.Members.{has, InWindow, union_has};

use crate::var_set::VarSet;

/// The union of the sets that were added, of the 8,256 variables from number `64 * first` on. It takes no memory.
pub struct VarUnion {
    pub(crate) first: u32,
    pub(crate) words: [u64; 129],
}

impl Drop for VarUnion {
    fn drop(self) {
        let VarUnion { first: _, words: _ } = self;
    }
}

impl VarUnion {
    /// The empty union, of the variables from number `64 * first` on.
    pub fn new(first: u32) -> VarUnion
        ensures first { result.first ≡ first }
        ensures empty { (x : ℕ) → union_has result x ≡ false }
    {
        VarUnion {
            first,
            words: [0; 129],
        }
    }

    /// Adds the variables of the set.
    pub fn add(&mut self, set: &VarSet)
        ensures first { self.new.first ≡ self.old.first }
        ensures added { (x : ℕ) → InWindow self.old.first x → union_has self.new x ≡ union_has self.old x || has
            set.now x }
    {
        let first = self.first as usize;
        let others = set.words.items();
        let count = others.len().saturating_sub(first).min(129);
        'words: for k in 0..count {
            self.words[k] |= others[first + k];
        }
    }

    /// Whether the union and the set have a variable in common, of those in the union's window.
    pub fn meets(&self, set: &VarSet) -> bool
        ensures { IsTrue result ↔ ((x : ℕ) × InWindow self.now.first x × (union_has self.now x ≡ true)
            × (has set.now x ≡ true)) }
    {
        let first = self.first as usize;
        let others = set.words.items();
        let count = others.len().saturating_sub(first).min(129);
        'words: for k in 0..count {
            if self.words[k] & others[first + k] != 0 {
                return true;
            }
        }
        false
    }
}
