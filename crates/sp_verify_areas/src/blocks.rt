//! The layouts by the numbers of their blocks.

ghost use Rattle.std.specs.Prelude.{◌≡◌, ◌≤◌, IfOk, length};
ghost use Rattle.sp_verify_areas.specs.Blocks.{IsNumbered, number_of};
ghost use Rattle.sp_verify_areas.specs.Owners.{entry_at};
ghost use Rattle.std.specs.Option.{is_some, option_copied};
ghost use Rattle.sp_code.specs.Machine.{layout_of};

use crate::have;
use sp_base::{List, Memory};
use sp_code::Layout;
use std::alloc::Global;
use std::collections::BTreeMap;

/// The first layout of each block, by its place among the layouts.
#[derive(Drop)]
pub struct Blocks {
    first: BTreeMap<u32, u32>,
}

impl Blocks {
    /// The blocks of these layouts.
    pub fn of(alloc: Global, layouts: &[Layout]) -> Result<Blocks, Memory>
        requires { length layouts.now ≤ 1048576 }
        ensures { IfOk result (λ blocks. IsNumbered blocks.first layouts.now) }
    {
        let mut first = BTreeMap::new(alloc);
        let mut place = 0;
        for l in layouts {
            if !first.contains_key(&l.block) {
                have!(first.insert(l.block, place));
            }
            place += 1;
        }
        Ok(Blocks { first })
    }

    /// The place of the first layout of a block.
    pub fn place(&self, block: u32) -> Option<u32>
        ensures { result ≡ number_of self.now.first block }
    {
        self.first.get(&block).copied()
    }

    /// The layout of a block.
    pub fn find<'a>(&self, layouts: &'a List<Layout>, block: u32) -> Option<&'a Layout>
        requires { IsNumbered self.now.first layouts.now }
        ensures { option_copied result ≡ layout_of layouts.now block }
    {
        match self.place(block) {
            None => None,
            Some(place) => layouts.get(place as usize),
        }
    }

    /// Where a block begins.
    pub fn entry_of(&self, layouts: &List<Layout>, block: u32) -> Option<u32>
        requires { IsNumbered self.now.first layouts.now }
        ensures { result ≡ entry_at (layout_of layouts.now block) }
    {
        match self.find(layouts, block) {
            None => None,
            Some(l) => Some(l.entry),
        }
    }

    /// Whether a block has a layout.
    pub fn has(&self, block: u32) -> bool
        ensures { result ≡ is_some (number_of self.now.first block) }
    {
        self.first.contains_key(&block)
    }
}
