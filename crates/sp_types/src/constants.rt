//! The declared constants, each with its type.

ghost use Rattle.std.specs.Prelude.{◌≡◌, []};
ghost use Rattle.sp_tree.specs.Carried.{Keeps};
ghost use Rattle.sp_types.specs.Tables.{constant_by, constants_from};

use crate::numbers::type_number;
use crate::signed_constants::const_value;
use crate::tables::Ordinal;
use sp_base::List;
use sp_tree::{NamedConstant, Walk};
use std::alloc::Global;

fn constant_by(
    walk: &mut Walk,
    numbers: &[u32],
    known: &[Option<Ordinal>],
    c: &NamedConstant,
) -> Option<Ordinal>
    ensures { Keeps walk.old walk.new walk.old.first (result ≡ constant_by numbers.now known.now c.now) }
{
    match c {
        NamedConstant::Value(c) => const_value(walk, known, c).value,
        NamedConstant::Enumerated { kind, ordinal } => Some(Ordinal {
            kind: type_number(numbers, *kind),
            number: *ordinal as i64,
        }),
    }
}

/// The type and the number of each declared constant, and none where it is a text that is no char.
pub fn constants_of(
    alloc: Global,
    walk: &mut Walk,
    numbers: &[u32],
    constants: &[NamedConstant],
) -> List<Option<Ordinal>>
    ensures { Keeps walk.old walk.new walk.old.first (result ≡ constants_from numbers.now [] constants.now) }
{
    let mut known = Vec::new(alloc);
    for c in constants {
        let o = constant_by(walk, numbers, known.as_slice(), c);
        walk.push(&mut known, o);
    }
    List::of(known)
}
