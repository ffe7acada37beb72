//! Sets of variables, as bits of words (`VarSet`).

ghost use Rattle.std.specs.Prelude.{◌≡◌, ◌↔◌, ℕ, ◌+◌, ◌*◌, ◌^◌, ◌<◌, ◌≤◌, true, false, not, ◌||◌, ◌&&◌, ◌==◌, IsTrue};
ghost use Rattle.std.specs.Prelude.{IfOk, OnOk, MatchOption, length, get_or};
ghost use Rattle.sp_varsets.specs.Members.{has, IsNextMember};

use sp_base::{List, Memory};
use std::alloc::Global;
use std::mem;

/// How many words hold all numbers of 32 bits. A variable in a word behind them has no number.
pub const MOST_WORDS: usize = 67_108_864;

/// A set of variables, by their numbers. Its bits stand in words of 64, none where it is empty.
pub struct VarSet {
    pub(crate) words: List<u64>,
}

impl Drop for VarSet {
    fn drop(self) {
        let VarSet { words: _ } = self;
    }
}

impl VarSet {
    /// The empty set. It takes no memory, and keeps the allocator.
    #[tactic(auto, using(crate::proofs::Words::in_none))]
    pub fn new(alloc: Global) -> VarSet
        ensures { (x : ℕ) → has result x ≡ false }
    {
        VarSet {
            words: List::new(alloc),
        }
    }

    /// How many words the set has. All of its variables are below 64 times that.
    #[tactic(auto, using(crate::proofs::Words::below_words))]
    pub fn words(&self) -> usize
        ensures { (x : ℕ) → has self.now x ≡ true → x < 64 * result }
    {
        self.words.len()
    }

    /// Whether the set has the variable.
    #[tactic(auto, using(crate::proofs::Words::test_is, crate::proofs::Words::past_is))]
    pub fn contains(&self, variable: u32) -> bool
        ensures { result ≡ has self.now variable }
    {
        match self.words.get((variable / 64) as usize) {
            Some(word) => (*word >> (variable % 64)) & 1 == 1,
            None => false,
        }
    }

    /// Whether two sets have a variable in common.
    pub fn meets(&self, other: &VarSet) -> bool
        ensures { IsTrue result ↔ ((x : ℕ) × (has self.now x ≡ true) × (has other.now x ≡ true)) }
    {
        let words = self.words.items();
        let others = other.words.items();
        let count = words.len().min(others.len());
        'words: for k in 0..count {
            if words[k] & others[k] != 0 {
                return true;
            }
        }
        false
    }

    /// Whether the set has no variable.
    pub fn is_empty(&self) -> bool
        ensures { IsTrue result ↔ ((x : ℕ) → has self.now x ≡ false) }
    {
        let words = self.words.items();
        'words: for k in 0..words.len() {
            if words[k] != 0 {
                return false;
            }
        }
        true
    }

    /// The least variable of the set that is `from` or above.
    pub fn next(&self, from: u32) -> Option<u32>
        ensures { MatchOption result ((x : ℕ) → from ≤ x → x < 2 ^ 32 → has self.now x ≡ false)
            (λ y. IsNextMember self.now from y) }
    {
        let at = (from / 64) as usize;
        if let Some(word) = self.words.get(at) {
            let rest = *word >> (from % 64);
            if rest != 0 {
                return Some(from + rest.trailing_zeros());
            }
        }
        self.next_after(at as u32)
    }

    // The least variable that stands in a word after this one.
    fn next_after(&self, at: u32) -> Option<u32>
        ensures { MatchOption result ((x : ℕ) → 64 * at + 64 ≤ x → x < 2 ^ 32 → has self.now x ≡ false)
            (λ y. IsNextMember self.now (64 * at + 64) y) }
    {
        let words = self.words.items();
        'words: for k in at as usize + 1..words.len() {
            if words[k] != 0 {
                if k >= MOST_WORDS {
                    return None;
                }
                return Some(k as u32 * 64 + words[k].trailing_zeros());
            }
        }
        None
    }

    // Whether every variable of the other set is one of this set.
    pub(crate) fn includes(&self, other: &VarSet) -> bool
        ensures { IsTrue result ↔ ((x : ℕ) → has other.now x ≡ true → has self.now x ≡ true) }
    {
        let others = other.words.items();
        'words: for k in 0..others.len() {
            if others[k] & !self.word(k) != 0 {
                return false;
            }
        }
        true
    }

    // Puts empty words last until there are so many.
    fn grow(&mut self, count: usize) -> Result<(), Memory>
        ensures same { OnOk result ((x : ℕ) → has self.new x ≡ has self.old x) }
        ensures words { OnOk result (count ≤ length self.new.words) }
    {
        'words: for _k in self.words.len()..count {
            self.words.push(0)?;
        }
        Ok(())
    }

    // Puts the variable in.
    pub(crate) fn insert(&mut self, variable: u32) -> Result<(), Memory>
        ensures { OnOk result ((x : ℕ) → has self.new x ≡ (variable == x) || has self.old x) }
    {
        let at = (variable / 64) as usize;
        self.grow(at + 1)?;
        let word = self.words.items()[at];
        let _old = self.words.replace(at, word | 1 << (variable % 64));
        Ok(())
    }

    // Takes the variable out.
    pub(crate) fn remove(&mut self, variable: u32)
        ensures { (x : ℕ) → has self.new x ≡ has self.old x && not (variable == x) }
    {
        let at = (variable / 64) as usize;
        if at < self.words.len() {
            let word = self.words.items()[at];
            let _old = self.words.replace(at, word & !(1 << (variable % 64)));
        }
    }

    // Puts in the variables of the other set but for the hidden ones, and says whether one of them is new.
    pub(crate) fn add(&mut self, other: &VarSet, hidden: &VarSet) -> Result<bool, Memory>
        ensures added { OnOk result ((x : ℕ)
            → has self.new x ≡ has self.old x || (has other.now x && not (has hidden.now x))) }
        ensures same { IfOk result (λ changed. changed ≡ false → (x : ℕ) → has self.new x ≡ has self.old x) }
        ensures changed { IfOk result (λ changed. changed ≡ true → (x : ℕ) × (has self.new x ≡ true)
            × (has self.old x ≡ false)) }
    {
        let others = other.words.items();
        self.grow(others.len())?;
        let mut changed = false;
        'words: for k in 0..others.len() {
            let word = self.words.items()[k];
            let more = others[k] & !hidden.word(k) & !word;
            changed |= more != 0;
            let _old = self.words.replace(k, word | more);
        }
        Ok(changed)
    }

    // Puts in the variables of the other set.
    pub(crate) fn join(&mut self, other: &VarSet) -> Result<(), Memory>
        ensures { OnOk result ((x : ℕ) → has self.new x ≡ has self.old x || has other.now x) }
    {
        let nothing = VarSet::new(self.words.alloc());
        let _grew = self.add(other, &nothing)?;
        Ok(())
    }

    // Takes all variables out, and gives them.
    pub(crate) fn take(&mut self) -> VarSet
        ensures { result ≡ self.old }
    {
        let empty = VarSet::new(self.words.alloc());
        mem::replace(self, empty)
    }

    // The word of this number, 0 where there is none.
    #[tactic(auto, using(crate::proofs::Items::read_or, crate::proofs::Items::none_or))]
    fn word(&self, k: usize) -> u64
        ensures { result ≡ get_or self.now.words k 0 }
    {
        match self.words.get(k) {
            Some(word) => *word,
            None => 0,
        }
    }
}
