//! Operands and formals that were seen to fit: a call is compared only down to where it is as an earlier one.

ghost use Rattle.std.specs.Prelude.{◌≡◌, ℕ, true};
ghost use Rattle.sp_verify_shapes.specs.Memos.{AddsFit, has_fit};

use std::alloc::Global;
use std::collections::BTreeSet;

// No more than this is kept.
const MOST: usize = 1_000_000;

/// For layouts by their places, how many of their first formals, and lists of shapes by their numbers: the first shapes
/// of this list were seen to fit these formals.
#[derive(Drop)]
pub struct Memo {
    fits: BTreeSet<(usize, usize, u32)>,
}

impl Memo {
    /// Nothing was seen.
    pub(crate) fn new(alloc: Global) -> Memo
        ensures { (p k n : ℕ) → has_fit result p k n ≡ true → ⊥ }
    {
        Memo {
            fits: BTreeSet::new(alloc),
        }
    }

    /// Whether they were seen to fit. It answers no if it is not asked in earnest. If it is, they are kept from now on,
    /// unless memory is refused: so the caller has to see whether they fit.
    pub(crate) fn meets(&mut self, is_due: bool, layout: usize, count: usize, list: u32) -> bool
        ensures known { result ≡ true → has_fit self.old layout count list ≡ true }
        ensures adds { AddsFit self.old self.new layout count list }
    {
        if !is_due {
            return false;
        }
        let key = (layout, count, list);
        if self.fits.contains(&key) {
            return true;
        }
        if self.fits.len() >= MOST {
            return false;
        }
        match self.fits.insert(key) {
            Ok(_) => false,
            Err(_) => false,
        }
    }
}
