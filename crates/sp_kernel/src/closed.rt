//! A run that is over: its end, its journal and its output.

ghost use Rattle.std.specs.Prelude.{◌≡◌, ◌≢◌, ◌<◌, ◌++◌, ◌∷◌, ℕ, List, [], Some, None, MatchOption, IfOk, OnOk, length};
ghost use Rattle.std.specs.Prelude.{slice_get};
ghost use Rattle.std.specs.List.Sorted.{IsPermutation};
ghost use Rattle.sp_journal.specs.Births.{births};
ghost use Rattle.sp_journal.specs.Ledger.{IsLedger};
ghost use Rattle.sp_kernel.specs.declared.slot.Slot.{Slot};
ghost use Rattle.sp_code.specs.Control.{standing, IsDeadlock, IsFault, entries_of};
ghost use Rattle.sp_code.specs.Agreement.{phase_in, Running};
ghost use Rattle.sp_code.specs.OutputHolder.{IsOutputOf};
ghost use Rattle.sp_room.specs.Ends.{object_of, notes_of};
ghost use Rattle.sp_kernel.specs.Faults.{fault_in};
ghost use Rattle.sp_kernel.specs.FirstFaults.{first_fault as first_fault_entry, first_fault_end as end_of_first_fault};
ghost use Rattle.sp_kernel.specs.Outputs.{first_output};
ghost use Rattle.sp_kernel.specs.Kernels.{control_of, system_of};
ghost use Rattle.sp_kernel.specs.Closes.{AreByName, waiter_of, waiters_from, with_waiter, SpeaksBelow, EndIs};
ghost use Rattle.sp_kernel.specs.Closes.{KernelEndsAs};
ghost use Rattle.sp_kernel.specs.Closes.{IsNameableKernel, HeldHere, RanFrom, or_empty};

use crate::first_fault::{first_fault, first_fault_end};
use crate::have;
use crate::kernel::{Kernel, Standing};
use crate::slot::{Slot, State};
use sp_base::{Fault, List, Memory, Text};
use sp_journal::{End, Entry, Event, Journal, Ledger, Waiter, Way};
use sp_room::Settled;
use std::alloc::Global;

/// A run that came to its end. `Kernel::close` makes one, and `Closed::too_large` that of a program which never begins.
pub struct Closed {
    end: End,
    journal: Journal,
    output: Text,
}

// By hand, so that it is proved once, here, and not in each crate that drops a run.
impl Drop for Closed {
    fn drop(self) {
        let Closed {
            end: _,
            journal: _,
            output: _,
        } = self;
    }
}

impl Closed {
    /// The run of a program whose frame has more cells than the limit: process 0 has F12 before its first instruction,
    /// and nothing is written. The only error is want of memory.
    pub fn too_large(alloc: Global) -> Result<Closed, Memory>
        ensures end { IfOk result (λ c. c.end ≡ end_of_first_fault) }
        ensures journal { IfOk result (λ c. c.journal.entries ≡ first_fault_entry ∷ []) }
        ensures output { IfOk result (λ c. c.output ≡ []) }
    {
        let mut journal = Journal {
            entries: List::new(alloc),
        };
        have!(journal.push(first_fault()));
        Ok(Closed {
            end: first_fault_end(alloc),
            journal,
            output: Text::of(Vec::new(alloc)),
        })
    }

    /// How the run came to its end.
    pub fn end(&self) -> &End
        ensures { result.now ≡ self.now.end }
    {
        &self.end
    }

    /// Its journal.
    pub fn journal(&self) -> &Journal
        ensures { result.now ≡ self.now.journal }
    {
        &self.journal
    }

    /// What it wrote; nothing where a worker gave up.
    pub fn output(&self) -> &Text
        ensures { result.now ≡ self.now.output }
    {
        &self.output
    }
}

// The first fault, and whose it is.
fn fault_in(entries: &[Entry]) -> Option<(u32, Fault)>
    ensures { result ≡ fault_in entries.now }
{
    for entry in entries {
        if let Event::Fault(fault) = entry.event {
            return Some((entry.process, fault));
        }
    }
    None
}

// The first output that one of these holds.
fn written(slots: &[Slot]) -> Option<&[u8]>
    ensures { MatchOption result (first_output slots.now ≡ None) (λ bs. first_output slots.now ≡ Some bs.now) }
{
    for slot in slots {
        if let Slot::Here(proc, _) = slot {
            let found = proc.store().output();
            if found.is_some() {
                return found;
            }
        }
    }
    None
}

// A process that waits so.
fn waiter(ledger: &Ledger, number: u32, way: Way, channel: u32) -> Result<Waiter, Memory>
    requires ledger { IsLedger ledger.now }
    requires there { number < (births ledger.now.journal.entries).processes }
    requires channel { channel < (births ledger.now.journal.entries).channels }
    ensures { IfOk result (λ w. w ≡ waiter_of (births ledger.now.journal.entries) number way channel) }
{
    let process = have!(ledger.name(number));
    let channel = have!(ledger.channel(channel));
    Ok(Waiter {
        process,
        way,
        channel,
    })
}

// The process in this slot, if it waits, stands last.
fn put_waiter(
    ledger: &Ledger,
    number: u32,
    slot: &Slot,
    waiters: &mut Vec<Waiter>,
) -> Result<(), Memory>
    requires ledger { IsLedger ledger.now }
    requires there { number < (births ledger.now.journal.entries).processes }
    requires spoken { SpeaksBelow (births ledger.now.journal.entries).channels slot.now }
    ensures { OnOk result (waiters.new.items ≡ waiters.old.items
        ++ with_waiter (births ledger.now.journal.entries) number slot.now []) }
{
    let (way, channel) = match slot {
        Slot::Here(_, State::Sending(channel, _, _)) => (Way::Send, *channel),
        Slot::Here(_, State::Receiving(channel, _)) => (Way::Receive, *channel),
        _ => return Ok(()),
    };
    let waiter = have!(waiter(ledger, number, way, channel));
    have!(waiters.push(waiter));
    Ok(())
}

// Those that wait, by their numbers.
fn waiters_in(alloc: Global, ledger: &Ledger, slots: &[Slot]) -> Result<Vec<Waiter>, Memory>
    requires ledger { IsLedger ledger.now }
    requires there { length slots.now ≡ (births ledger.now.journal.entries).processes }
    requires spoken { (q : ℕ) (s : Slot) → slice_get slots.now q ≡ Some s
        → SpeaksBelow (births ledger.now.journal.entries).channels s }
    ensures { IfOk result (λ ws. ws.items ≡ waiters_from (births ledger.now.journal.entries) 0 slots.now) }
{
    let _few = ledger.processes();
    let mut waiters = Vec::new(alloc);
    for (number, slot) in slots.iter().enumerate() {
        have!(put_waiter(ledger, number as u32, slot, &mut waiters));
    }
    Ok(waiters)
}

// In order of names.
fn sorted(waiters: Vec<Waiter>) -> Result<List<Waiter>, Memory>
    ensures all { IfOk result (λ ws. IsPermutation waiters.items ws) }
    ensures sorted { IfOk result (λ ws. AreByName ws) }
{
    let mut waiters = waiters;
    have!(waiters.sort_by(|a, b| a.process.order(&b.process)));
    Ok(List::of(waiters))
}

impl Kernel {
    /// The output of a process that is not out; none exactly where no such process holds it.
    pub fn output(&self) -> Option<&[u8]>
        ensures { MatchOption result ((bs : List ℕ) → HeldHere self.now bs → ⊥) (λ bs. HeldHere self.now bs.now) }
    {
        written(self.slots())
    }

    // The fault that a run ended with.
    fn fault_end(&self) -> Result<End, Memory>
        requires named { IsNameableKernel self.now }
        requires faulted { standing (control_of self.now) ≡ IsFault }
        ensures { IfOk result (λ e. EndIs self.now e) }
    {
        match fault_in(self.entries()) {
            Some((process, fault)) => {
                let ledger = have!(Ledger::of(self.slots.alloc(), &self.journal));
                let process = have!(ledger.name(process));
                Ok(End::Fault { process, fault })
            }
            None => unreachable!(),
        }
    }

    // Who waits at a deadlock.
    fn deadlock_end(&self) -> Result<End, Memory>
        requires named { IsNameableKernel self.now }
        requires deadlock { standing (control_of self.now) ≡ IsDeadlock }
        ensures { IfOk result (λ e. EndIs self.now e) }
    {
        let alloc = self.slots.alloc();
        let ledger = have!(Ledger::of(alloc, &self.journal));
        let waiters = have!(waiters_in(alloc, &ledger, self.slots()));
        let waiters = have!(sorted(waiters));
        Ok(End::Deadlock(waiters))
    }

    /// How the run ended; none exactly where it goes on.
    pub fn end(&self) -> Result<Option<End>, Memory>
        requires { IsNameableKernel self.now }
        ensures { IfOk result (λ o. KernelEndsAs self.now o) }
    {
        match self.standing() {
            Standing::Running => Ok(None),
            Standing::Done => Ok(Some(End::Done)),
            Standing::Memory => Ok(Some(End::Memory)),
            Standing::Fault => Ok(Some(have!(self.fault_end()))),
            Standing::Deadlock => Ok(Some(have!(self.deadlock_end()))),
        }
    }

    // What was written; nothing where a worker gave up.
    fn text(&self, alloc: Global) -> Result<Text, Memory>
        ensures kept { IfOk result (λ text. self.now.abandons ≡ 0 → or_empty (first_output self.now.slots) ≡ text) }
        ensures none { IfOk result (λ text. 0 < self.now.abandons → text ≡ []) }
    {
        if self.abandons > 0 {
            return Ok(Text::of(Vec::new(alloc)));
        }
        match written(self.slots()) {
            Some(bytes) => match Vec::from_slice(alloc, bytes) {
                Ok(text) => Ok(Text::of(text)),
                Err(_) => Err(Memory),
            },
            None => Ok(Text::of(Vec::new(alloc))),
        }
    }

    /// The run that a room has brought to its end. Its output is that of the one process that holds it, and empty where
    /// a worker gave up. At a deadlock no process of it can go on.
    pub fn close(alloc: Global, settled: Settled<Kernel>) -> Result<Closed, Memory>
        requires ran { RanFrom (notes_of settled) (object_of settled) }
        ensures end { IfOk result (λ c. EndIs (object_of settled) c.end) }
        ensures idle { standing (control_of (object_of settled)) ≡ IsDeadlock → (q : ℕ)
            → phase_in ((system_of (object_of settled)).condition q) ≢ Running }
        ensures journal { IfOk result (λ c. c.journal.entries ≡ entries_of (notes_of settled)) }
        ensures output { IfOk result (λ c. (object_of settled).abandons ≡ 0 → (q : ℕ)
            × IsOutputOf (system_of (object_of settled)) q c.output) }
        ensures none { IfOk result (λ c. 0 < (object_of settled).abandons → c.output ≡ []) }
    {
        let kernel = settled.into_object();
        match have!(kernel.end()) {
            Some(end) => {
                let output = have!(kernel.text(alloc));
                let journal = kernel.into_journal();
                Ok(Closed {
                    end,
                    journal,
                    output,
                })
            }
            None => unreachable!(),
        }
    }
}
