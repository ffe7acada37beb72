//! Lists that are written piece by piece.

ghost use Rattle.std.specs.Prelude.{◌≡◌, false, IfOk};

use sp_base::{List, Memory, Writer};

/// What is written, as a list, or want of memory if the writer is lost.
pub fn list_of<T: Drop>(out: Writer<T>) -> Result<List<T>, Memory>
    ensures { IfOk result (λ xs. (out.is_lost ≡ false) × (xs ≡ out.items.items)) }
{
    let items = out.finish()?;
    Ok(List::of(items))
}
