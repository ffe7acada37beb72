//! Lists that contracts see as plain lists of their items.

ghost use Rattle.std.specs.Prelude.{◌≡◌, ◌<◌, ◌++◌, ◌∷◌, [], length, slice_get, slice_set, swap, take};
ghost use Rattle.std.specs.Option.{option_copied};
ghost use Rattle.std.specs.Prelude.{IfOk, IfErr, OnOk, OnErr, IsTrue, ◌↔◌, MatchOption, Some, None};
ghost use Rattle.std.specs.Borrow.{sem};
ghost use Rattle.sp_base.specs.Lends.{lends_item};
ghost use Rattle.std.specs.Cmp.Lexicographic.{pointwise, slice_cmp, slice_partial_cmp, lists_per, lists_equiv};
ghost use Rattle.std.specs.Cmp.Lexicographic.{lists_po, lists_total, lists_agrees, lists_ties};

use std::alloc::{AllocError, AllocFailed, Global};
use std::cmp::Ordering;
use std::marker::Model;
use std::mem;

/// A `Vec` that contracts see as the list of its items.
#[derive(Drop)]
pub struct List<T> {
    inner: Vec<T>,
}

impl<T> Model for List<T> {
    ghost use Rattle.std.specs.Prelude.{List};
    ghost use Rattle.std.specs.Coded.{coded_list};

    ghost Value = { List T };

    ghost coded = { coded_list T.code };

    ghost view = { λ it. it.inner.items };
}

impl<T> List<T> {
    pub fn of(items: Vec<T>) -> List<T>
        ensures { result ≡ items.items }
    {
        List { inner: items }
    }

    pub fn items(&self) -> &[T]
        ensures { result.now ≡ self.now }
    {
        self.inner.as_slice()
    }

    pub fn len(&self) -> usize
        ensures { result ≡ length self.now }
    {
        self.inner.len()
    }

    pub fn get(&self, at: usize) -> Option<&T>
        ensures { option_copied result ≡ slice_get self.now at }
    {
        self.inner.get(at)
    }

    pub fn get_mut(&mut self, at: usize) -> Option<&mut T>
        ensures* writes_back { sem 𝓛 (lends_item T.row self.entry at result) }
        ensures value { MatchOption result (slice_get self.old at ≡ None) (λ x. slice_get self.old at ≡ Some x.now) }
    {
        self.inner.get_mut(at)
    }

    pub fn is_empty(&self) -> bool
        ensures { IsTrue result ↔ (self.now ≡ []) }
    {
        self.inner.is_empty()
    }

    /// The allocator that the list keeps.
    pub fn alloc(&self) -> Global {
        *self.inner.allocator()
    }

    /// An empty list. It takes no memory, and keeps the allocator for `push`.
    pub fn new(alloc: Global) -> List<T>
        ensures { result ≡ [] }
    {
        List {
            inner: Vec::new(alloc),
        }
    }

    /// Puts the item last. Where memory is refused the list is unchanged and the item comes back.
    pub fn push(&mut self, item: T) -> Result<(), AllocFailed<T>>
        ensures ok { OnOk result (self.new ≡ self.old ++ item ∷ []) }
        ensures err { OnErr result (self.new ≡ self.old) }
        ensures returned { IfErr result (λ e. e.value ≡ item) }
    {
        self.inner.push(item)
    }

    /// Takes the last item away and gives it. Undoes `push`.
    pub fn pop(&mut self) -> Option<T>
        ensures { MatchOption result ((self.old ≡ []) × (self.new ≡ [])) (λ item. self.old ≡ self.new ++ item ∷ []) }
    {
        self.inner.pop()
    }

    /// Puts the item where another one stands, and gives that one.
    pub fn replace(&mut self, at: usize, item: T) -> T
        requires { at < length self.old }
        ensures list { self.new ≡ slice_set self.old at item }
        ensures replaced { slice_get self.old at ≡ Some result }
    {
        mem::replace(&mut self.inner[at], item)
    }

    /// Exchanges two items.
    pub fn swap(&mut self, i: usize, j: usize)
        requires first { i < length self.old }
        requires second { j < length self.old }
        ensures { self.new ≡ swap self.old i j }
    {
        self.inner.swap(i, j);
    }

    /// Gives the `Vec` back.
    pub fn into_vec(self) -> Vec<T>
        ensures { result.items ≡ self }
    {
        let List { inner } = self;
        inner
    }
}

impl<T: Drop> List<T> {
    /// Drops all items but the first `count`. Undoes what was put last.
    pub fn truncate(&mut self, count: usize)
        ensures { self.new ≡ take count self.old }
    {
        self.inner.truncate(count);
    }

    /// The items of both lists, those of `other` last. Where memory is refused both are dropped.
    pub fn join(self, other: List<T>) -> Result<List<T>, AllocFailed<T>>
        ensures { IfOk result (λ all. all ≡ self ++ other) }
    {
        let mut all = self.into_vec();
        for item in other.into_vec() {
            all.push(item)?;
        }
        Ok(List::of(all))
    }
}

impl<T: Copy> List<T> {
    /// Puts the items last, all of them or, where memory is refused, none.
    pub fn extend_from_slice(&mut self, items: &[T]) -> Result<(), AllocError>
        ensures ok { OnOk result (self.new ≡ self.old ++ items.now) }
        ensures err { OnErr result (self.new ≡ self.old) }
    {
        self.inner.extend_from_slice(items)
    }

    pub fn from_slice(alloc: Global, items: &[T]) -> Result<List<T>, AllocError>
        ensures { IfOk result (λ it. it ≡ items.now) }
    {
        let items = Vec::from_slice(alloc, items)?;
        Ok(List { inner: items })
    }
}

impl<T: PartialEq> PartialEq for List<T> {
    ghost eq = { λ v w. pointwise T.eq v w };

    ghost laws = { lists_per T.laws };

    fn eq(&self, other: &Self) -> bool {
        self.items() == other.items()
    }
}

impl<T: Eq> Eq for List<T> {
    ghost laws = { lists_equiv T.Eq.laws };
}

impl<T: PartialOrd> PartialOrd for List<T> {
    ghost partial_cmp = { λ v w. slice_partial_cmp T.partial_cmp v w };

    ghost laws = { lists_po T.PartialOrd.laws };

    fn partial_cmp(&self, other: &Self) -> Option<Ordering> {
        self.items().partial_cmp(&other.items())
    }
}

impl<T: Ord> Ord for List<T> {
    ghost cmp = { λ v w. slice_cmp T.cmp v w };

    ghost total = { lists_total T.total };

    ghost matches_partial_cmp = { λ v w. lists_agrees T.matches_partial_cmp v w };

    ghost matches_eq = { λ v w. lists_ties T.cmp T.matches_eq v w };

    fn cmp(&self, other: &Self) -> Ordering {
        self.items().cmp(&other.items())
    }
}
