//! What a walk carries from part to part: the first broken rule so far, and whether memory was refused.

ghost use Rattle.std.specs.Prelude.{◌≡◌, ◌++◌, ◌∷◌, [], ℕ, ℤ, List, Ok, Some};
ghost use Rattle.sp_tree.specs.PhaseResults.{Answers, FirstRefusal, earlier_refusal};
ghost use Rattle.sp_tree.specs.Carried.{Keeps};

use crate::breach_order::{FirstRefusal, earlier_refusal};
use sp_base::{Boxed, Halt, List, Text};
use std::alloc::Global;

/// The first broken rule so far, and whether memory was refused. A walk that was refused memory is lost: what it gives
/// is no answer. So no part of it needs to end at once, and let go what it holds.
#[derive(Clone, Copy)]
pub struct Walk {
    pub first: FirstRefusal,
    pub is_lost: bool,
}

impl Walk {
    /// One more rule, if it is broken.
    pub fn note(&mut self, broken: FirstRefusal)
        ensures { self.new ≡ record { first = earlier_refusal self.old.first broken; is_lost = self.old.is_lost } }
    {
        self.first = earlier_refusal(self.first, broken);
    }

    /// Loses the walk if this call was refused memory.
    pub fn after(&mut self, done: Result<(), Halt>)
        ensures { Keeps self.old self.new self.old.first (done ≡ Ok tt) }
    {
        if done.is_err() {
            self.is_lost = true;
        }
    }

    /// The first broken rule is this one from here on. If there is no answer it loses the walk.
    pub fn take(&mut self, found: Result<FirstRefusal, Halt>)
        ensures { (first : FirstRefusal) → Answers found (Ok first) → Keeps self.old self.new first (found ≡ Ok first) }
    {
        match found {
            Ok(first) => self.first = first,
            Err(_) => self.is_lost = true,
        }
    }

    /// The number. If there is none it loses the walk and gives 0.
    pub fn number(&mut self, found: Result<u32, Halt>) -> u32
        ensures { (n : ℕ) → Answers found (Ok n) → Keeps self.old self.new self.old.first (result ≡ n) }
    {
        match found {
            Ok(number) => number,
            Err(_) => {
                self.is_lost = true;
                0
            }
        }
    }

    /// The number, in the same way.
    pub fn integer(&mut self, found: Result<i64, Halt>) -> i64
        ensures { (n : ℤ) → Answers found (Ok n) → Keeps self.old self.new self.old.first (result ≡ n) }
    {
        match found {
            Ok(number) => number,
            Err(_) => {
                self.is_lost = true;
                0
            }
        }
    }

    /// Puts an item last.
    pub fn push<T: Drop>(&mut self, out: &mut Vec<T>, item: T)
        ensures { Keeps self.old self.new self.old.first (out.new.items ≡ out.old.items ++ item ∷ []) }
    {
        if out.push(item).is_err() {
            self.is_lost = true;
        }
    }

    /// A part in a box.
    pub fn boxed<T: Drop>(&mut self, alloc: Global, part: T) -> Option<Boxed<T>>
        ensures { Keeps self.old self.new self.old.first (result ≡ Some part) }
    {
        match Boxed::new(alloc, part) {
            Ok(part) => Some(part),
            Err(_) => {
                self.is_lost = true;
                None
            }
        }
    }

    /// A list and what stands behind it.
    pub fn join<T: Drop>(&mut self, alloc: Global, xs: List<T>, ys: List<T>) -> List<T>
        ensures { Keeps self.old self.new self.old.first (result ≡ xs ++ ys) }
    {
        match xs.join(ys) {
            Ok(list) => list,
            Err(_) => {
                self.is_lost = true;
                List::new(alloc)
            }
        }
    }

    /// The list. If there is none it loses the walk and gives an empty one.
    pub fn list<T: Drop>(&mut self, alloc: Global, found: Result<List<T>, Halt>) -> List<T>
        ensures { (xs : List T) → Answers found (Ok xs) → Keeps self.old self.new self.old.first (result ≡ xs) }
    {
        match found {
            Ok(list) => list,
            Err(_) => {
                self.is_lost = true;
                List::new(alloc)
            }
        }
    }

    /// A copy of a text.
    pub fn text(&mut self, alloc: Global, text: &Text) -> Text
        ensures { Keeps self.old self.new self.old.first (result ≡ text.now) }
    {
        match text.duplicate(alloc) {
            Ok(copy) => copy,
            Err(_) => {
                self.is_lost = true;
                Text::of(Vec::new(alloc))
            }
        }
    }
}
