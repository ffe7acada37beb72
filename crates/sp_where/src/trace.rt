//! The text of `trace`.

ghost use Rattle.std.specs.Prelude.{◌≡◌, IfOk};
ghost use Rattle.sp_journal.specs.Births.{births, CanFollow, IsNameable};
ghost use Rattle.sp_journal.specs.Ledger.{IsLedger};
ghost use Rattle.sp_base.specs.Places.{place_text};
ghost use Rattle.sp_where.specs.Traces.{message_text, passed, place_of_event, trace_line, trace_text};
ghost use Rattle.sp_base.specs.Adds.{Adds};

use crate::symbols::Symbols;
use crate::values::put_value;
use sp_base::{List, Memory, Writer};
use sp_cell::Cell;
use sp_journal::{Entry, Event, Journal, Ledger, put_entry_text};
use sp_lines::Told;
use std::alloc::Global;

/// Puts the place that an event has whose turn ended at this instruction.
fn put_event_place(out: &mut Writer<u8>, symbols: &Symbols, event: Event, instruction: u32)
    ensures { Adds out.old out.new (place_text (place_of_event symbols.now.marks event instruction)) }
{
    match event {
        Event::Fault(_) => out.place(symbols.part(instruction)),
        Event::Fork(_)
        | Event::Open
        | Event::Send(_)
        | Event::Receive(_)
        | Event::End
        | Event::Laid
        | Event::Pause => out.place(symbols.statement(instruction)),
    }
}

/// Puts a message, if there is one, behind a space.
fn put_message(
    out: &mut Writer<u8>,
    ledger: &Ledger,
    symbols: &Symbols,
    message: &Option<(u32, List<Cell>)>,
)
    requires { IsLedger ledger.now }
    ensures { Adds out.old out.new (message_text symbols.now.checked.kinds symbols.now.constants
        (births ledger.now.journal.entries) message.now) }
{
    if let Some((kind, cells)) = message {
        out.extend(b" ");
        put_value(out, ledger, symbols, *kind, cells.items());
    }
}

/// Puts what passes at an event whose turn came to this message, if it does, behind a space.
fn put_passed(
    out: &mut Writer<u8>,
    ledger: &Ledger,
    symbols: &Symbols,
    event: Event,
    message: &Option<(u32, List<Cell>)>,
)
    requires { IsLedger ledger.now }
    ensures { Adds out.old out.new (message_text symbols.now.checked.kinds symbols.now.constants
        (births ledger.now.journal.entries) (passed event message.now)) }
{
    match event {
        Event::Send(_) => put_message(out, ledger, symbols, message),
        Event::Receive(_) => put_message(out, ledger, symbols, message),
        Event::Fork(_) | Event::Open | Event::End | Event::Fault(_) | Event::Laid | Event::Pause =>
            {}
    }
}

/// Puts the line of an entry that can come next in the ledger, under this index, with what is told of it: the place of
/// its statement, or for a fault that of its part, the entry, and the value that passes.
pub fn put_line(
    out: &mut Writer<u8>,
    ledger: &Ledger,
    symbols: &Symbols,
    index: u64,
    entry: Entry,
    told: &Told,
)
    requires ledger { IsLedger ledger.now }
    requires next { CanFollow (births ledger.now.journal.entries) entry }
    ensures { Adds out.old out.new (trace_line symbols.now.checked.kinds symbols.now.constants symbols.now.marks index
        (births ledger.now.journal.entries) entry told.now) }
{
    out.decimal(index);
    out.extend(b" ");
    put_event_place(out, symbols, entry.event, told.instruction);
    out.extend(b" ");
    put_entry_text(out, ledger, entry);
    put_passed(out, ledger, symbols, entry.event, &told.message);
    out.extend(b"\n");
}

/// The text of `trace`: a first line, and then the line of each entry of the journal of which something is told. The
/// only other answer is want of memory.
pub fn trace_text(
    alloc: Global,
    symbols: &Symbols,
    journal: &Journal,
    tolds: &[Told],
) -> Result<Vec<u8>, Memory>
    requires { IsNameable journal.now }
    ensures { IfOk result (λ text. text.items ≡ trace_text symbols.now.checked.kinds symbols.now.constants
        symbols.now.marks journal.now.entries tolds.now) }
{
    let mut out = Writer::new(alloc);
    out.extend(b"trace\n");
    let mut ledger = Ledger::new(alloc);
    let entries = journal.entries.items();
    'entries: for i in 0..entries.len().min(tolds.len()) {
        put_line(&mut out, &ledger, symbols, i as u64, entries[i], &tolds[i]);
        ledger.add(entries[i])?;
    }
    out.finish()
}
