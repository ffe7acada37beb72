//! Single values: chars, numbers, and the fields of a variable that has a type so far.

ghost use Rattle.std.specs.Prelude.{◌≡◌, ℕ, pos, Ok};
ghost use Rattle.sp_tree.specs.PhaseResults.{Answers};
ghost use Rattle.sp_types.specs.Tables.{char_of, number_or};
ghost use Rattle.sp_types.specs.TypeRules.{field_rule};
ghost use Rattle.sp_types.specs.Kinds.{field};
ghost use Rattle.sp_types.specs.TypeFirst.{at_node};
ghost use Rattle.sp_types.specs.Types.{Types};
ghost use Rattle.sp_types.specs.CheckedTree.{or_zero, numbered_field};

use crate::pass_results::Typed;
use crate::statement_counts::narrow;
use crate::tables::{Ordinal, Tables};
use sp_base::{Halt, Place, Rule, Text};
use sp_tree::{Walk, breaks};

/// The char that a text of length 1 is.
pub fn char_of(t: &Text) -> Option<Ordinal>
    ensures { result ≡ char_of t.now }
{
    match t.bytes() {
        [c] => Some(Ordinal {
            kind: 2,
            number: *c as i64,
        }),
        _ => None,
    }
}

/// A number of a text. One that is no `i64` is answered as want of memory.
pub fn integer(n: u64) -> Result<i64, Halt>
    ensures { Answers result (Ok (pos n)) }
{
    if n <= 9_223_372_036_854_775_807 {
        Ok(n as i64)
    } else {
        Err(Halt::Memory)
    }
}

/// An ordinal's number, or another one where there is none.
pub fn number_or(other: i64, o: Option<Ordinal>) -> i64
    ensures { result ≡ number_or other o }
{
    match o {
        None => other,
        Some(o) => o.number,
    }
}

/// A type, 0 where it is missing.
pub fn or_zero(k: Option<u32>) -> u32
    ensures { result ≡ or_zero k }
{
    match k {
        None => 0,
        Some(k) => k,
    }
}

/// A field of a variable that has a type so far: its number and its type, and Y3. A number that is no `u32` loses the
/// walk.
pub fn type_field(
    t: &Tables,
    walk: &mut Walk,
    at: Place,
    kind: Option<u32>,
    name: &Text,
) -> Typed<u32>
    ensures { Types (λ (n : ℕ). n) walk.old walk.new result (numbered_field t.now kind name.now)
        (field t.now kind name.now) (at_node (field_rule t.now at kind name.now) walk.old.first) }
{
    match kind {
        None => {
            walk.note(None);
            Typed {
                tree: 0,
                kind: None,
            }
        }
        Some(k) => match t.field(k, name) {
            None => {
                walk.note(breaks(Rule::Y3, at));
                Typed {
                    tree: 0,
                    kind: None,
                }
            }
            Some((number, kind)) => {
                walk.note(None);
                Typed {
                    tree: narrow(walk, number),
                    kind: Some(kind),
                }
            }
        },
    }
}
