//! The names of constants by the numbers of types (`by_kind`).

ghost use Rattle.std.specs.Prelude.{◌≡◌, IfOk};
ghost use Rattle.std.specs.Vec.Iter.{into_iter_items};
ghost use Rattle.sp_lines.specs.Constants.{by_kind, first_of, kind_names, rest_of, rest_behind};

use sp_base::{List, Memory, Text};
use sp_tree::KindOf;
use std::alloc::Global;
use std::vec::IntoIter;

/// The next names, or none.
fn next_of(alloc: Global, rest: &mut IntoIter<List<Text>>) -> List<Text>
    ensures first { result ≡ first_of (into_iter_items rest.old) }
    ensures rest { into_iter_items rest.new ≡ rest_of (into_iter_items rest.old) }
{
    match rest.next() {
        Some(names) => names,
        None => List::new(alloc),
    }
}

/// The names of the constants of a type: the next ones, if it is an enumeration.
fn kind_names(alloc: Global, kind: &KindOf, rest: &mut IntoIter<List<Text>>) -> List<Text>
    ensures names { result ≡ kind_names kind.now (into_iter_items rest.old) }
    ensures rest { into_iter_items rest.new ≡ rest_behind kind.now (into_iter_items rest.old) }
{
    match kind {
        KindOf::Enumeration(_) => next_of(alloc, rest),
        _ => List::new(alloc),
    }
}

/// The names of the constants of each type, of none where it is no enumeration: `constants` has those of the
/// enumerations among the types, in order. What is made in this call takes its memory from `alloc`.
///
/// The one error is that memory was refused.
pub fn by_kind(
    alloc: Global,
    kinds: &[KindOf],
    constants: List<List<Text>>,
) -> Result<List<List<Text>>, Memory>
    ensures { IfOk result (λ table. table ≡ by_kind kinds.now constants) }
{
    let mut rest = constants.into_vec().into_iter();
    let mut out = List::new(alloc);
    for kind in kinds {
        out.push(kind_names(alloc, kind, &mut rest))?;
    }
    Ok(out)
}
