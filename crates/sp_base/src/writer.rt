//! Writers, and what all of them write.

ghost use Rattle.std.specs.Prelude.{◌≡◌, ◌++◌, ◌∷◌, [], IfOk, OnOk, Ok, ℕ, true, false};
ghost use Rattle.sp_base.specs.Adds.{Adds, Keeps};

use crate::halt::Memory;
use crate::list::List;
use std::alloc::Global;

/// A list that is written piece by piece. A writer that was refused memory is lost: it writes nothing more, and what it
/// has is no answer.
#[derive(Drop)]
pub struct Writer<T> {
    /// What is written so far.
    pub items: Vec<T>,
    /// Whether memory was refused.
    pub is_lost: bool,
}

impl<T> Writer<T> {
    /// A writer that has nothing yet. It takes no memory, and keeps the allocator.
    pub fn new(alloc: Global) -> Writer<T>
        ensures items { result.items.items ≡ [] }
        ensures kept { result.is_lost ≡ false }
    {
        Writer {
            items: Vec::new(alloc),
            is_lost: false,
        }
    }

    /// A writer that has these items and goes on behind them.
    pub fn behind(items: Vec<T>) -> Writer<T>
        ensures items { result.items ≡ items }
        ensures kept { result.is_lost ≡ false }
    {
        Writer {
            items,
            is_lost: false,
        }
    }

    /// Loses the writer, as if memory had been refused.
    pub fn lose(&mut self)
        ensures { self.new.is_lost ≡ true }
    {
        self.is_lost = true;
    }

    /// Loses the writer if this call was refused memory. It may have written into `items`.
    pub fn note(&mut self, done: Result<(), Memory>)
        ensures { Keeps self.old self.new ((self.new.items.items ≡ self.old.items.items) × (done ≡ Ok tt)) }
    {
        if done.is_err() {
            self.is_lost = true;
        }
    }

    /// The number. If there is none it loses the writer and gives 0.
    pub fn number(&mut self, found: Result<u32, Memory>) -> u32
        ensures { (n : ℕ) → IfOk found (λ m. m ≡ n)
            → Keeps self.old self.new ((self.new.items.items ≡ self.old.items.items) × (result ≡ n)) }
    {
        match found {
            Ok(number) => number,
            Err(Memory) => {
                self.is_lost = true;
                0
            }
        }
    }

    /// Puts the item last into another list. If there is no item, or memory is refused, it loses the writer.
    pub fn push_to<U: Drop>(&mut self, list: &mut List<U>, item: Result<U, Memory>)
        ensures { (x : U) → IfOk item (λ y. y ≡ x)
            → Keeps self.old self.new
            ((self.new.items.items ≡ self.old.items.items) × (list.new ≡ list.old ++ x ∷ [])) }
    {
        match item {
            Ok(item) => {
                if list.push(item).is_err() {
                    self.is_lost = true;
                }
            }
            Err(Memory) => self.is_lost = true,
        }
    }
}

impl<T: Drop> Writer<T> {
    /// What is written, or want of memory if the writer is lost.
    pub fn finish(self) -> Result<Vec<T>, Memory>
        ensures kept { OnOk result (self.is_lost ≡ false) }
        ensures items { IfOk result (λ xs. xs ≡ self.items) }
    {
        let Writer { items, is_lost } = self;
        if is_lost { Err(Memory) } else { Ok(items) }
    }

    /// Puts the item last. If there is none it loses the writer.
    pub fn put_found(&mut self, found: Result<T, Memory>)
        ensures { (x : T) → IfOk found (λ y. y ≡ x) → Adds self.old self.new (x ∷ []) }
    {
        match found {
            Ok(item) => self.put(item),
            Err(Memory) => self.is_lost = true,
        }
    }

    /// Puts the item last.
    pub fn put(&mut self, item: T)
        ensures { Adds self.old self.new (item ∷ []) }
    {
        if !self.is_lost && self.items.push(item).is_err() {
            self.is_lost = true;
        }
    }
}

impl<T: Copy> Writer<T> {
    /// Puts the items last.
    pub fn extend(&mut self, items: &[T])
        ensures { Adds self.old self.new items.now }
    {
        if !self.is_lost && self.items.extend_from_slice(items).is_err() {
            self.is_lost = true;
        }
    }
}
