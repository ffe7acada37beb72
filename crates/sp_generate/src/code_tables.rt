//! The tables of a tree that the generator keeps, made in one call (`CodeContext`).

ghost use Rattle.std.specs.Prelude.{◌≡◌, IfOk};

use crate::cells::{sizes_of, table_offsets};
use crate::code_context::CodeContext;
use crate::frames::slots_of;
use sp_base::Memory;
use sp_tree::Checked;
use std::alloc::Global;

/// The tables of a tree.
pub fn survey(alloc: Global, checked: &Checked) -> Result<CodeContext<'_>, Memory>
    ensures { IfOk result (λ g. g.checked.now ≡ checked.now) }
{
    let cells = sizes_of(alloc, checked.kinds.items())?;
    let offsets = table_offsets(alloc, &cells, checked.kinds.items())?;
    let slots = slots_of(alloc, checked)?;
    Ok(CodeContext {
        alloc,
        checked,
        cells,
        offsets,
        slots,
    })
}
