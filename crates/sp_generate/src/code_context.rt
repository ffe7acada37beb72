//! What the generator keeps of a tree while it writes.

ghost use Rattle.std.specs.Prelude.{◌≡◌};
ghost use Rattle.sp_tree.specs.CheckedOf.{program_of};
ghost use Rattle.sp_tree.specs.Bare.{without_places};
ghost use Rattle.sp_tree.specs.Cells.{sizes};
ghost use Rattle.sp_generate.specs.CodeTables.{slots_of, offsets_of};

use sp_base::List;
use sp_tree::Checked;
use std::alloc::Global;

/// A tree, and by their numbers: the cells of its types, where the fields of a record type begin, and where its
/// variables stand in their frames.
#[derive(Drop)]
pub struct CodeContext<'a> {
    pub alloc: Global,
    pub checked: &'a Checked,
    pub cells: List<u32>,
    pub offsets: List<List<u32>>,
    pub slots: List<u32>,
    ghost sized: { cells ≡ sizes checked.now.kinds },
    ghost shifted: { offsets ≡ offsets_of (without_places (program_of checked.now)) },
    ghost placed: { slots ≡ slots_of (without_places (program_of checked.now)) },
}
