//! The pool of sets: an equal set that is found again is not put a second time, so that many statements with the same
//! sets take no more memory than one.

ghost use Rattle.std.specs.Prelude.{◌≡◌, true, false, IfSome};
ghost use Rattle.sp_varsets.specs.Members.{has};
ghost use Rattle.sp_varsets.specs.Records.{Extends, IsSetOfIndex};

use crate::var_set::VarSet;
use crate::walk::Walk;
use sp_base::List;
use std::alloc::Global;

/// A guess at where an equal set stands: for each sum of words the index of the set that was put last with this sum,
/// and for each set the index of the one before it that has the same sum. 0 stands for none.
pub(crate) struct Known {
    newest: List<u32>,
    before: List<u32>,
}

impl Drop for Known {
    fn drop(self) {
        let Known {
            newest: _,
            before: _,
        } = self;
    }
}

// Puts zeros last until there is a place of this number, or memory is refused.
fn grow(places: &mut List<u32>, number: usize) {
    'places: for _k in places.len()..=number {
        if places.push(0).is_err() {
            return;
        }
    }
}

impl Known {
    pub(crate) fn new(alloc: Global) -> Known {
        Known {
            newest: List::new(alloc),
            before: List::new(alloc),
        }
    }

    // The index of the set that was put last with this sum.
    fn newest(&self, sum: usize) -> u32 {
        match self.newest.get(sum) {
            Some(index) => *index,
            None => 0,
        }
    }

    // The index of the set before the one of this index.
    fn before(&self, index: u32) -> u32 {
        match self.before.get(index as usize) {
            Some(before) => *before,
            None => 0,
        }
    }

    // Notes that the set of this index has this sum. If memory is refused, no equal set is found there later.
    fn note(&mut self, sum: usize, index: u32) {
        grow(&mut self.newest, sum);
        grow(&mut self.before, index as usize);
        if let Some(newest) = self.newest.get_mut(sum) {
            let before = *newest;
            *newest = index;
            if let Some(place) = self.before.get_mut(index as usize) {
                *place = before;
            }
        }
    }
}

impl VarSet {
    // A sum of the words below 16,384. Equal sets have the same.
    fn sum(&self) -> usize {
        let words = self.words.items();
        let mut sum = 0u64;
        'words: for k in 0..words.len() {
            if words[k] != 0 {
                let mixed = sum.wrapping_add(k as u64) ^ words[k];
                sum = mixed.wrapping_mul(0x9e37_79b9_7f4a_7c15).rotate_left(29);
            }
        }
        (sum.wrapping_mul(0x9e37_79b9_7f4a_7c15) >> 50) as usize
    }
}

impl Walk {
    // Whether the set of this index has the same variables.
    fn stands_at(&self, index: u32, set: &VarSet) -> bool
        ensures { result ≡ true → IsSetOfIndex self.now.pool index (λ x. has set.now x ≡ true) }
    {
        if index == 0 {
            return false;
        }
        match self.pool.get(index as usize - 1) {
            Some(other) => other.includes(set) && set.includes(other),
            None => false,
        }
    }

    // The index of an equal set. Of the sets with its sum the eight that were put last are looked at.
    fn find(&self, set: &VarSet, sum: usize) -> Option<u32>
        ensures { IfSome result (λ i. IsSetOfIndex self.now.pool i (λ x. has set.now x ≡ true)) }
    {
        let mut index = self.known.newest(sum);
        'tries: for _k in 0..8 {
            if self.stands_at(index, set) {
                return Some(index);
            }
            index = self.known.before(index);
        }
        None
    }

    // Puts a set last into the pool.
    fn append(&mut self, set: VarSet, sum: usize) -> u32
        ensures kept { self.new.is_lost ≡ false → self.old.is_lost ≡ false }
        ensures slots { self.new.slots ≡ self.old.slots }
        ensures pool { self.new.is_lost ≡ false → Extends self.old.pool self.new.pool }
        ensures set { self.new.is_lost ≡ false → IsSetOfIndex self.new.pool result (λ x. has set x ≡ true) }
    {
        let count = self.pool.len();
        if count > 4_294_967_294 {
            self.is_lost = true;
            return 0;
        }
        match self.pool.push(set) {
            Ok(()) => {
                let index = count as u32 + 1;
                self.known.note(sum, index);
                index
            }
            Err(_) => {
                self.is_lost = true;
                0
            }
        }
    }

    // The index of this set, which is put into the pool if no equal one is found there. Where memory is refused the
    // walk is lost.
    pub(crate) fn put(&mut self, set: VarSet) -> u32
        ensures kept { self.new.is_lost ≡ false → self.old.is_lost ≡ false }
        ensures slots { self.new.slots ≡ self.old.slots }
        ensures pool { self.new.is_lost ≡ false → Extends self.old.pool self.new.pool }
        ensures set { self.new.is_lost ≡ false → IsSetOfIndex self.new.pool result (λ x. has set x ≡ true) }
    {
        if set.is_empty() {
            return 0;
        }
        let sum = set.sum();
        match self.find(&set, sum) {
            Some(index) => index,
            None => self.append(set, sum),
        }
    }
}
