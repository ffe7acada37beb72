//! Values as texts: the walk over a value's type and its cells, side by side, as far as the cut.

ghost use Rattle.std.specs.Prelude.{◌≡◌, ◌≤◌, ◌+◌, ◌^◌, ◌++◌, ℕ, nat_le, List, [], ◌∷◌, map, replicate, take, length};
ghost use Rattle.sp_journal.specs.Births.{births};
ghost use Rattle.sp_journal.specs.Ledger.{IsLedger};
ghost use Rattle.sp_tree.specs.Cells.{count};
ghost use Rattle.sp_where.specs.Shorts.{Fills, forms};
ghost use Rattle.sp_where.specs.Values.{CellOf, comma, cut, field_in, form, form_in, parts_from, value_text};
ghost use Rattle.sp_base.specs.Adds.{Adds, Keeps};

use crate::cells::{put_cell, put_short};
use crate::symbols::Symbols;
use sp_base::{Text, Writer};
use sp_cell::Cell;
use sp_journal::Ledger;
use sp_tree::KindOf;

/// A value has no more bytes than these, but for the `..` behind a longer one.
const LONGEST: usize = 120;

/// So many bytes tell whether a value is longer.
const COUNTED: usize = 121;

/// What values are written with, and how many bytes count of all that is written.
#[derive(Drop)]
struct Shown<'a> {
    ledger: &'a Ledger,
    symbols: &'a Symbols,
    most: usize,
}

impl Shown<'_> {
    /// Whether all bytes that count are there.
    fn is_full(&self, out: &Writer<u8>) -> bool
        ensures { result ≡ nat_le self.now.most (length out.now.items.items) }
    {
        out.items.len() >= self.most
    }
}

/// How many elements an array has.
fn count(low: i64, high: i64) -> u128
    ensures { result ≡ count low high }
{
    (high as i128 - low as i128 + 1).unsigned_abs()
}

/// Puts what stands before a part with this number.
fn put_comma(out: &mut Writer<u8>, number: u128)
    ensures { Adds out.old out.new (comma number) }
{
    if number > 0 {
        out.extend(b", ");
    }
}

/// Puts the next cell, of this type, if there is one. The answer is the cells that are left.
fn put_next<'c>(out: &mut Writer<u8>, shown: &Shown, kind: u32, cells: &'c [Cell]) -> &'c [Cell]
    requires { IsLedger shown.now.ledger.now }
    ensures { Fills shown.now out.old cells.now out.new result.now (CellOf kind ∷ []) }
{
    match cells.split_first() {
        Some((cell, rest)) => {
            put_cell(out, shown.most, shown.ledger, shown.symbols, kind, *cell);
            rest
        }
        None => cells,
    }
}

/// Puts a value of this type. The answer is the cells that are left.
#[cycle(form)]
fn put_form<'c>(out: &mut Writer<u8>, shown: &Shown, kind: u32, cells: &'c [Cell]) -> &'c [Cell]
    requires { IsLedger shown.now.ledger.now }
    ensures { Fills shown.now out.old cells.now out.new result.now (form_in (forms shown.now) kind) }
{
    match shown.symbols.checked.kinds.get(kind as usize) {
        None => cells,
        Some(
            KindOf::Array {
                low,
                high,
                element,
                ..
            },
        ) => {
            out.extend(b"[");
            let left = put_elements(out, shown, kind, *element, count(*low, *high), cells);
            out.extend(b"]");
            left
        }
        Some(KindOf::Fields(fields)) => {
            out.extend(b"(");
            let left = put_fields(out, shown, kind, fields.items(), cells);
            out.extend(b")");
            left
        }
        Some(KindOf::Integer) => put_next(out, shown, kind, cells),
        Some(KindOf::Boolean) => put_next(out, shown, kind, cells),
        Some(KindOf::Char) => put_next(out, shown, kind, cells),
        Some(KindOf::Enumeration(_)) => put_next(out, shown, kind, cells),
        Some(KindOf::Channel(_)) => put_next(out, shown, kind, cells),
    }
}

/// Puts a value of this type, if it is a type before `bound`. The answer is the cells that are left.
#[cycle(form)]
fn put_before<'c>(
    out: &mut Writer<u8>,
    shown: &Shown,
    bound: u32,
    kind: u32,
    cells: &'c [Cell],
) -> &'c [Cell]
    requires { IsLedger shown.now.ledger.now }
    ensures { Fills shown.now out.old cells.now out.new result.now (form_in (take bound (forms shown.now)) kind) }
{
    if kind < bound {
        put_form(out, shown, kind, cells)
    } else {
        cells
    }
}

/// Puts so many elements of an array whose type is `bound`. The answer is the cells that are left.
#[cycle(form)]
fn put_elements<'c>(
    out: &mut Writer<u8>,
    shown: &Shown,
    bound: u32,
    element: u32,
    count: u128,
    cells: &'c [Cell],
) -> &'c [Cell]
    requires { IsLedger shown.now.ledger.now }
    ensures { Fills shown.now out.old cells.now out.new result.now
        (parts_from 0 (replicate count (form_in (take bound (forms shown.now)) element))) }
{
    let mut left = cells;
    'elements: for i in 0..count {
        if shown.is_full(out) {
            return left;
        }
        put_comma(out, i);
        left = put_before(out, shown, bound, element, left);
    }
    left
}

/// Puts the fields of a record whose type is `bound`. The answer is the cells that are left.
#[cycle(form)]
fn put_fields<'c>(
    out: &mut Writer<u8>,
    shown: &Shown,
    bound: u32,
    fields: &[(Text, u32)],
    cells: &'c [Cell],
) -> &'c [Cell]
    requires { IsLedger shown.now.ledger.now }
    ensures { Fills shown.now out.old cells.now out.new result.now
        (parts_from 0 (map (field_in (take bound (forms shown.now))) fields.now)) }
{
    let mut left = cells;
    'fields: for (i, field) in fields.iter().enumerate() {
        if shown.is_full(out) {
            return left;
        }
        put_comma(out, i as u128);
        put_short(out, shown.most, field.0.bytes());
        out.extend(b": ");
        left = put_before(out, shown, bound, field.1, left);
    }
    left
}

/// Cuts what is written from byte `start` on: if that is longer than a value may be, `..` stands for the rest.
fn cut_from(out: &mut Writer<u8>, start: usize)
    requires { start ≤ 2 ^ 63 }
    ensures { Keeps out.old out.new ((before t : List ℕ) → length before ≡ start
        → take (start + 121) out.old.items.items ≡ take (start + 121) (before ++ t)
        → out.new.items.items ≡ before ++ cut 120 t) }
{
    if out.items.len() > start + LONGEST {
        out.items.truncate(start + LONGEST);
        out.extend(b"..");
    }
}

/// Puts the value of this type that these cells are, cut. A large one is written no further than to the cut.
pub(crate) fn put_value(
    out: &mut Writer<u8>,
    ledger: &Ledger,
    symbols: &Symbols,
    kind: u32,
    cells: &[Cell],
)
    requires { IsLedger ledger.now }
    ensures { Adds out.old out.new (value_text symbols.now.checked.kinds symbols.now.constants
        (births ledger.now.journal.entries) kind cells.now) }
{
    let start = out.items.len();
    let shown = Shown {
        ledger,
        symbols,
        most: start + COUNTED,
    };
    let _left = put_form(out, &shown, kind, cells);
    cut_from(out, start);
}
