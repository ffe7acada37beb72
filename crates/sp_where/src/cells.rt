//! One cell as text.

ghost use Rattle.std.specs.Prelude.{slice_get};
ghost use Rattle.sp_journal.specs.Births.{births};
ghost use Rattle.sp_journal.specs.Ledger.{IsLedger};
ghost use Rattle.sp_tree.specs.Items.{truth_text};
ghost use Rattle.sp_where.specs.Shorts.{AddsShort};
ghost use Rattle.sp_where.specs.Values.{cell_channel_text, cell_text, char_text, constant_text, names_of, ordinal_text};
ghost use Rattle.sp_base.specs.Adds.{Adds};

use crate::symbols::Symbols;
use sp_base::{Memory, Writer};
use sp_cell::Cell;
use sp_journal::Ledger;
use sp_tree::KindOf;

/// Puts the bytes, as far as there are no more than `most` then.
pub(crate) fn put_short(out: &mut Writer<u8>, most: usize, bytes: &[u8])
    ensures { AddsShort most out.old out.new bytes.now }
{
    let room = most.saturating_sub(out.items.len());
    out.extend(&bytes[..room.min(bytes.len())]);
}

fn put_truth(out: &mut Writer<u8>, number: i64)
    ensures { Adds out.old out.new (truth_text number) }
{
    if number <= 0 {
        out.extend(b"false");
    } else {
        out.extend(b"true");
    }
}

fn put_char(out: &mut Writer<u8>, number: i64)
    ensures { Adds out.old out.new (char_text number) }
{
    if number >= 32 && number <= 126 {
        out.extend(b"'");
        out.put(number as u8);
        out.extend(b"'");
    } else {
        out.extend(b"chr(");
        out.signed(number);
        out.extend(b")");
    }
}

fn put_constant(out: &mut Writer<u8>, most: usize, symbols: &Symbols, kind: u32, number: i64)
    ensures { AddsShort most out.old out.new (constant_text (names_of symbols.now.constants kind) number) }
{
    match symbols.constant(kind, number) {
        Some(name) => put_short(out, most, name.bytes()),
        None => out.signed(number),
    }
}

fn put_ordinal(out: &mut Writer<u8>, most: usize, symbols: &Symbols, kind: u32, number: i64)
    ensures { AddsShort most out.old out.new (ordinal_text (names_of symbols.now.constants kind)
        (slice_get symbols.now.checked.kinds kind) number) }
{
    match symbols.checked.kinds.get(kind as usize) {
        Some(KindOf::Boolean) => put_truth(out, number),
        Some(KindOf::Char) => put_char(out, number),
        Some(KindOf::Enumeration(_)) => put_constant(out, most, symbols, kind, number),
        _ => out.signed(number),
    }
}

/// Puts the name of the channel with this number, or the number if no entry has opened it.
pub(crate) fn put_channel(out: &mut Writer<u8>, ledger: &Ledger, channel: u32)
    requires { IsLedger ledger.now }
    ensures { Adds out.old out.new (cell_channel_text (births ledger.now.journal.entries) channel) }
{
    if u64::from(channel) < ledger.channels() {
        match ledger.channel(channel) {
            Ok(name) => out.channel(&name),
            Err(Memory) => out.lose(),
        }
    } else {
        out.decimal(u64::from(channel));
    }
}

/// Puts a cell of this type, as far as there are no more than `most` bytes then; of a number or a channel all.
pub(crate) fn put_cell(
    out: &mut Writer<u8>,
    most: usize,
    ledger: &Ledger,
    symbols: &Symbols,
    kind: u32,
    cell: Cell,
)
    requires { IsLedger ledger.now }
    ensures { AddsShort most out.old out.new (cell_text symbols.now.checked.kinds symbols.now.constants
        (births ledger.now.journal.entries) kind cell) }
{
    match cell {
        Cell::Undefined => out.extend(b"undefined"),
        Cell::Ordinal(number) => put_ordinal(out, most, symbols, kind, number),
        Cell::Channel(channel) => put_channel(out, ledger, channel),
    }
}
