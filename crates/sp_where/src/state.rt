//! The text of `where`: the processes behind the last entry of a journal.

ghost use Rattle.std.specs.Prelude.{◌≡◌, ◌++◌, IfOk, codes, slice_get};
ghost use Rattle.std.specs.List.{flat_map};
ghost use Rattle.sp_base.specs.Faults.{fault_name};
ghost use Rattle.sp_code.specs.Sound.{HasDistinctBlocks};
ghost use Rattle.sp_code.specs.System.{Condition};
ghost use Rattle.sp_cell.specs.Map.{Plain};
ghost use Rattle.sp_journal.specs.Births.{IsNameable, births};
ghost use Rattle.sp_journal.specs.Ledger.{IsLedger};
ghost use Rattle.sp_kernel.specs.Kernels.{system_of};
ghost use Rattle.sp_kernel.specs.Views.{IsSeen};
ghost use Rattle.sp_lines.specs.EntryPlaces.{lasts_after};
ghost use Rattle.sp_machine.specs.Procs.{config_of};
ghost use Rattle.sp_replay.specs.FollowInvariant.{HoldsAllReady};
ghost use Rattle.sp_replay.specs.TraceAnswers.{last_in, never};
ghost use Rattle.sp_report.specs.InOrder.{sorted_by_name};
ghost use Rattle.sp_where.specs.KnownOf.{IsKnown, known_by, known_of};
ghost use Rattle.sp_where.specs.States.{fault_in, first_line, is_end, is_live, laid_line, lines_below};
ghost use Rattle.sp_where.specs.States.{line_start, live_processes, named_text, where_text, working_line};
ghost use Rattle.sp_where.specs.Values.{cell_channel_text};
ghost use Rattle.sp_base.specs.Adds.{Adds};

use crate::cells::put_channel;
use crate::state_calls::put_frames;
use crate::state_variables::Known;
use crate::symbols::Symbols;
use sp_base::{Fault, Memory, Place, ProcName, Writer};
use sp_code::{Code, Instr};
use sp_journal::{Entry, Event, Journal, Ledger};
use sp_kernel::Seen;
use sp_lines::landing;
use sp_machine::Proc;
use sp_replay::{FollowedRun, Traced, lasts};
use std::alloc::Global;
use std::collections::BTreeMap;

// Puts the first line of a process up to what it does.
fn put_start(out: &mut Writer<u8>, name: &ProcName, at: Place)
    ensures { Adds out.old out.new (line_start name.now at) }
{
    out.name(name);
    out.extend(b" ");
    out.place(at);
    out.extend(b" ");
}

// Whether nothing but its end is left of what a process is in that goes on there.
fn is_end(code: &Code, at: u32) -> bool
    ensures { result ≡ is_end (slice_get code.now.instrs at) }
{
    match code.instr(at) {
        Some(Instr::End | Instr::Return) => true,
        _ => false,
    }
}

// Puts the first line of a process that works, at its next instruction.
fn put_working(out: &mut Writer<u8>, known: &Known, name: &ProcName, next: u32)
    ensures { Adds out.old out.new (working_line (known_of known.now) name.now next) }
{
    let at = landing(known.code, next);
    put_start(out, name, known.symbols.statement(at));
    if is_end(known.code, at) {
        out.extend(b"runs to its end\n");
    } else {
        out.extend(b"runs\n");
    }
}

// Puts the word of an offer and its channel.
fn put_offer(out: &mut Writer<u8>, known: &Known, word: &[u8], channel: u32)
    requires { IsLedger known.now.ledger.now }
    ensures { Adds out.old out.new
        (word.now ++ cell_channel_text (births known.now.ledger.now.journal.entries) channel ++ codes "\n") }
{
    out.extend(word);
    put_channel(out, known.ledger, channel);
    out.extend(b"\n");
}

// Puts the first line of a process that waits at an offer on this channel.
fn put_waiting(
    out: &mut Writer<u8>,
    known: &Known,
    name: &ProcName,
    at: Place,
    word: &[u8],
    channel: u32,
)
    requires { IsLedger known.now.ledger.now }
    ensures { Adds out.old out.new (line_start name.now at
        ++ (word.now ++ cell_channel_text (births known.now.ledger.now.journal.entries) channel ++ codes "\n")) }
{
    put_start(out, name, at);
    put_offer(out, known, word, channel);
}

// Puts the first line of a process that was laid: it met the fault, or was stopped behind it.
fn put_laid(
    out: &mut Writer<u8>,
    known: &Known,
    fault: Option<(u32, Fault)>,
    name: &ProcName,
    process: u32,
    last: u32,
)
    ensures { Adds out.old out.new (laid_line (known_of known.now) name.now process last fault) }
{
    if let Some((faulted, fault)) = fault {
        if faulted == process {
            put_faulted(out, name, known.symbols.part(last), fault);
            return;
        }
    }
    put_start(out, name, known.symbols.statement(last));
    out.extend(b"laid\n");
}

// Puts the fault that a process met.
fn put_fault(out: &mut Writer<u8>, fault: Fault)
    ensures { Adds out.old out.new (codes "fault " ++ fault_name fault ++ codes "\n") }
{
    out.extend(b"fault ");
    out.extend(fault.name().as_bytes());
    out.extend(b"\n");
}

// Puts the first line of the process that met this fault.
fn put_faulted(out: &mut Writer<u8>, name: &ProcName, at: Place, fault: Fault)
    ensures { Adds out.old out.new (line_start name.now at ++ (codes "fault " ++ fault_name fault ++ codes "\n")) }
{
    put_start(out, name, at);
    put_fault(out, fault);
}

// Puts the first line of a process that waits for its children.
fn put_joining(out: &mut Writer<u8>, name: &ProcName, at: Place)
    ensures { Adds out.old out.new (line_start name.now at ++ codes "join\n") }
{
    put_start(out, name, at);
    out.extend(b"join\n");
}

// Puts the first line of a process that does this and goes on at `next`. Its last turn ended at instruction `last`.
fn put_first_line(
    out: &mut Writer<u8>,
    known: &Known,
    fault: Option<(u32, Fault)>,
    name: &ProcName,
    process: u32,
    last: u32,
    proc: &Proc,
    seen: Seen,
)
    requires { IsKnown known.now }
    ensures { (x : Condition Plain) → IsSeen x (config_of proc.now) seen
        → Adds out.old out.new (first_line (known_of known.now) fault name.now process last x) }
{
    let at = known.symbols.statement(last);
    match seen {
        Seen::Running => put_working(out, known, name, proc.next()),
        Seen::Sending(channel) => put_waiting(out, known, name, at, b"send ", channel),
        Seen::Receiving(channel) => put_waiting(out, known, name, at, b"receive ", channel),
        Seen::Joining => put_joining(out, name, at),
        Seen::Laid => put_laid(out, known, fault, name, process, last),
        Seen::Over => {}
    }
}

// Puts the frames of a process that does this.
fn put_below(out: &mut Writer<u8>, known: &Known, process: u32, proc: &Proc, seen: Seen)
    requires { IsKnown known.now }
    ensures { (x : Condition Plain) → IsSeen x (config_of proc.now) seen
        → Adds out.old out.new (lines_below (known_of known.now) process x) }
{
    match seen {
        Seen::Over => {}
        Seen::Running | Seen::Sending(_) | Seen::Receiving(_) | Seen::Joining | Seen::Laid => {
            put_frames(out, known, process, proc)
        }
    }
}

// The instruction at which the last turn of this process ended.
fn last_in(lasts: &[u32], process: u32) -> u32
    ensures { result ≡ last_in lasts.now process }
{
    match lasts.get(process as usize) {
        Some(last) => *last,
        None => 0,
    }
}

// Puts the process with this name and number.
fn put_named(
    out: &mut Writer<u8>,
    known: &Known,
    fault: Option<(u32, Fault)>,
    state: &FollowedRun,
    lasts: &[u32],
    name: &ProcName,
    process: u32,
)
    requires known { IsKnown known.now }
    requires stands { HoldsAllReady state.now }
    ensures { Adds out.old out.new (named_text (known_of known.now) fault (last_in lasts.now)
        (system_of state.now.kernel).condition (name.now, process)) }
{
    if let Some((proc, seen)) = state.seen(process) {
        let last = last_in(lasts, process);
        put_first_line(out, known, fault, name, process, last, proc, seen);
        put_below(out, known, process, proc, seen);
    }
}

// Puts these processes.
fn put_all(
    out: &mut Writer<u8>,
    known: &Known,
    fault: Option<(u32, Fault)>,
    state: &FollowedRun,
    lasts: &[u32],
    names: &BTreeMap<ProcName, u32>,
)
    requires known { IsKnown known.now }
    requires stands { HoldsAllReady state.now }
    ensures { Adds out.old out.new (flat_map (named_text (known_of known.now) fault (last_in lasts.now)
        (system_of state.now.kernel).condition) names.now.entries) }
{
    for (name, process) in names {
        put_named(out, known, fault, state, lasts, name, *process);
    }
}

// Whether a process has not ended.
fn is_live(state: &FollowedRun, process: u32) -> bool
    requires { HoldsAllReady state.now }
    ensures { result ≡ is_live ((system_of state.now.kernel).condition process) }
{
    match state.seen(process) {
        None | Some((_, Seen::Over)) => false,
        Some(_) => true,
    }
}

// The processes that have not ended, in the order of their names.
fn live_names(
    alloc: Global,
    ledger: &Ledger,
    state: &FollowedRun,
) -> Result<BTreeMap<ProcName, u32>, Memory>
    requires ledger { IsLedger ledger.now }
    requires stands { HoldsAllReady state.now }
    ensures { IfOk result (λ m. m.entries ≡ sorted_by_name (births ledger.now.journal.entries)
        (live_processes (births ledger.now.journal.entries) (system_of state.now.kernel).condition)) }
{
    let mut names = BTreeMap::new(alloc);
    for process in 0..ledger.processes() {
        let process = process as u32;
        if is_live(state, process) {
            let name = ledger.name(process)?;
            names.insert(name, process)?;
        }
    }
    Ok(names)
}

// The process that met the fault, and the fault.
fn fault_in(entries: &[Entry]) -> Option<(u32, Fault)>
    ensures { result ≡ fault_in entries.now }
{
    for entry in entries {
        if let Event::Fault(fault) = entry.event {
            return Some((entry.process, fault));
        }
    }
    None
}

// The text of these processes.
fn text_of(
    alloc: Global,
    known: &Known,
    fault: Option<(u32, Fault)>,
    state: &FollowedRun,
    lasts: &[u32],
    names: &BTreeMap<ProcName, u32>,
) -> Result<Vec<u8>, Memory>
    requires known { IsKnown known.now }
    requires stands { HoldsAllReady state.now }
    ensures { IfOk result (λ text. text.items ≡ codes "where\n" ++ flat_map (named_text (known_of known.now) fault
        (last_in lasts.now) (system_of state.now.kernel).condition) names.now.entries) }
{
    let mut out = Writer::new(alloc);
    out.extend(b"where\n");
    put_all(&mut out, known, fault, state, lasts, names);
    out.finish()
}

/// The text of `where`: the processes that have not ended behind the last entry of a journal that was followed, with
/// their places in the text, their calls and their variables. What is made in this call takes its memory from `alloc`.
///
/// The one error is that memory was refused.
pub fn where_text(
    alloc: Global,
    symbols: &Symbols,
    code: &Code,
    journal: &Journal,
    traced: &Traced,
) -> Result<Vec<u8>, Memory>
    requires nameable { IsNameable journal.now }
    requires stands { HoldsAllReady traced.now.state }
    requires blocks { HasDistinctBlocks code.now.layouts }
    ensures { IfOk result (λ text. text.items ≡ where_text
        (known_by symbols.now code.now journal.now.entries) journal.now.entries
        (lasts_after journal.now.entries traced.now.told never) (system_of traced.now.state.kernel).condition) }
{
    let ledger = Ledger::of(alloc, journal)?;
    let lasts = lasts(alloc, journal.entries.items(), traced.told.items())?;
    let names = live_names(alloc, &ledger, &traced.state)?;
    let fault = fault_in(journal.entries.items());
    let known = Known {
        ledger: &ledger,
        symbols,
        code,
    };
    text_of(alloc, &known, fault, &traced.state, lasts.items(), &names)
}
