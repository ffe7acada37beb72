//! Constants as they are written: type and number of each, with its sign.

ghost use Rattle.std.specs.Prelude.{◌≡◌, ◌||◌};
ghost use Rattle.sp_tree.specs.Carried.{Keeps};
ghost use Rattle.sp_types.specs.Tables.{value_by, signed_value, const_value, is_long, has_wrong_sign};

use crate::tables::Ordinal;
use crate::values::{char_of, integer};
use sp_tree::{NamedConst, NamedValue, Walk};

/// The type and the number of a written constant, none where it is a text that is no char; and whether it breaks Y14.
#[derive(Clone, Copy)]
pub struct ConstValue {
    pub value: Option<Ordinal>,
    pub is_wrong: bool,
}

/// A constant without its sign.
fn value_by(walk: &mut Walk, known: &[Option<Ordinal>], v: &NamedValue) -> Option<Ordinal>
    ensures { Keeps walk.old walk.new walk.old.first (result ≡ value_by known.now v.now) }
{
    match v {
        NamedValue::Number(n) => Some(Ordinal {
            kind: 0,
            number: walk.integer(integer(*n)),
        }),
        NamedValue::Quoted(t) => char_of(t),
        NamedValue::Constant(k) => match known.get(*k as usize) {
            None => None,
            Some(o) => *o,
        },
    }
}

/// A constant with its sign. A sign before what is no integer changes nothing. The least `i64` has no number of the
/// other sign, and is no integer: it loses the walk.
fn signed(walk: &mut Walk, sign: Option<bool>, o: Option<Ordinal>) -> Option<Ordinal>
    ensures { Keeps walk.old walk.new walk.old.first (result ≡ signed_value sign o) }
{
    match sign {
        None | Some(false) => o,
        Some(true) => match o {
            None => None,
            Some(o) => {
                if o.kind != 0 {
                    Some(o)
                } else if o.number >= -9_223_372_036_854_775_807 {
                    Some(Ordinal {
                        kind: 0,
                        number: -o.number,
                    })
                } else {
                    walk.is_lost = true;
                    None
                }
            }
        },
    }
}

/// A text that is no char.
fn is_long(v: &NamedValue) -> bool
    ensures { result ≡ is_long v.now }
{
    match v {
        NamedValue::Quoted(t) => t.bytes().len() != 1,
        NamedValue::Number(_) | NamedValue::Constant(_) => false,
    }
}

/// A sign before what is no integer.
fn has_wrong_sign(sign: Option<bool>, o: Option<Ordinal>) -> bool
    ensures { result ≡ has_wrong_sign sign o }
{
    match sign {
        None => false,
        Some(_) => match o {
            None => false,
            Some(o) => o.kind != 0,
        },
    }
}

/// A constant as it is written.
pub fn const_value(walk: &mut Walk, known: &[Option<Ordinal>], c: &NamedConst) -> ConstValue
    ensures { Keeps walk.old walk.new walk.old.first ((result.value ≡ const_value known.now c.now)
        × (result.is_wrong
        ≡ (is_long c.now.value || has_wrong_sign c.now.negative (value_by known.now c.now.value)))) }
{
    let bare = value_by(walk, known, &c.value);
    let is_wrong = is_long(&c.value) || has_wrong_sign(c.negative, bare);
    let value = signed(walk, c.negative, bare);
    ConstValue { value, is_wrong }
}
