//! The marks of a whole program (`marks`).

ghost use Rattle.std.specs.Prelude.{◌≡◌, IfOk};
ghost use Rattle.sp_tree.specs.CheckedOf.{program_of};
ghost use Rattle.sp_lines.specs.Marks.{marks};

use crate::expressions::put;
use crate::mark::Mark;
use crate::statements::put_statement;
use sp_base::{List, Memory, Writer};
use sp_tree::Checked;
use std::alloc::Global;

/// The marks of a checked tree: one for each instruction of its code, in order. What is made in this call takes its
/// memory from `alloc`. It recurses as deep as the tree is.
///
/// The one error is that memory was refused.
pub fn marks(alloc: Global, checked: &Checked) -> Result<List<Mark>, Memory>
    ensures { IfOk result (λ xs. xs ≡ marks (program_of checked.now)) }
{
    let mut out = Writer::new(alloc);
    for b in checked.blocks.items() {
        put_statement(checked.kinds.items(), &mut out, &b.body);
        put(&mut out, b.at, b.at);
    }
    let marks = out.finish()?;
    Ok(List::of(marks))
}
