//! The processes of a run, its channels and its journal, with the calls `new`, `take`, `give` and `abandon`.

ghost use Rattle.std.specs.Prelude.{◌≡◌, ◌+◌, ◌-◌, ◌<◌, nat_lt, true, false, IfSome, Some, None, [], ◌∷◌, ◌++◌, length};
ghost use Rattle.std.specs.Prelude.{slice_get, slice_set, OnOk, OnErr, IfErr, IfOk};
ghost use Rattle.sp_journal.specs.declared.entry.Event.TheVariants as event;
ghost use Rattle.sp_kernel.specs.declared.slot.Slot.TheVariants as slot;
ghost use Rattle.sp_kernel.specs.declared.slot.State.TheVariants as st;
ghost use Rattle.sp_code.specs.Control.{has_ended, Out};
ghost use Rattle.sp_code.specs.Sound.{IsSound, AreLimits, run_of};
ghost use Rattle.sp_machine.specs.Procs.{config_of, start_of};
ghost use Rattle.sp_kernel.specs.Kernels.{with_entry, kernel_after_give, with_process_out};
ghost use Rattle.sp_kernel.specs.Kernels.{kernel_after_loss, doing_in, condition_in, IsReady};
ghost use Rattle.sp_kernel.specs.Kernels.{IsKernel, IsAfterGive, Takes, is_over, control_of, system_of};
ghost use Rattle.sp_kernel.specs.Kernels.{code_run_of, stands_as};
ghost use Rattle.sp_kernel.specs.Kernels.{Abandons};
ghost use Rattle.sp_lines.specs.EntryPlaces.{sent_by};
ghost use Rattle.sp_kernel.specs.Views.{IsSeen, IsUnseen};
ghost use Rattle.sp_code.specs.System.{pending_stop};
ghost use Rattle.std.specs.Prelude.{MatchOption};
ghost use Rattle.sp_kernel.specs.Fits.{FitsHanded};
ghost use Rattle.sp_kernel.specs.Asks.{IsOpening};
ghost use Rattle.sp_machine.specs.declared.state.Stop.TheVariants as stop;
ghost use Rattle.sp_kernel.specs.Procs.{number_in};

use crate::handed::Handed;
use crate::have;
use crate::ready_queue::ReadyQueue;
use crate::slot::{Slot, State, put};
use sp_base::{Fault, Limits, List, Memory};
use sp_cell::Cell;
use sp_channel::Channels;
use sp_code::Code;
use sp_journal::{Entry, Event, Journal};
use sp_machine::{Proc, Stop};
use std::alloc::Global;
use std::snapshot::Snapshot;
use std::sync::Arc;

/// How a run stands.
#[derive(Clone, Copy)]
pub enum Standing {
    Running,
    /// The root has ended.
    Done,
    /// No process is ready and none is out, the root has not ended, and no process met a fault.
    Deadlock,
    /// A process met a fault.
    Fault,
    /// A worker gave up. This stands before the others.
    Memory,
}

/// What a process does that the kernel has.
#[derive(Clone, Copy)]
pub enum Seen {
    Running,
    /// It waits to send, or to receive, on this channel.
    Sending(u32),
    Receiving(u32),
    /// It waits for its children.
    Joining,
    /// It was laid down.
    Laid,
    /// The root has ended.
    Over,
}

/// The processes of a run by their numbers, the queue of those that are ready, the channels and the journal.
pub struct Kernel {
    pub(crate) slots: List<Slot>,
    // The parent of each process; the first has none.
    pub(crate) parents: List<Option<u32>>,
    pub(crate) ready: ReadyQueue,
    pub(crate) out: u64,
    pub(crate) channels: Channels,
    pub(crate) journal: Journal,
    // How many entries fork, open, send and receive.
    pub(crate) entries: u64,
    pub(crate) faulted: bool,
    pub(crate) abandons: u64,
    pub(crate) code: Arc<Code>,
    pub(crate) limits: Limits,
    // The first process at its start, for contracts alone.
    pub(crate) root: Snapshot<Proc>,
}

// By hand, so that it is proved once, here, and not in each crate that drops a kernel.
impl Drop for Kernel {
    fn drop(self) {
        let Kernel {
            slots: _,
            parents: _,
            ready: _,
            out: _,
            channels: _,
            journal: _,
            entries: _,
            faulted: _,
            abandons: _,
            code: _,
            limits: _,
            root: _,
        } = self;
    }
}

impl Kernel {
    /// A run of the code that begins with this process: it is ready, and the journal is empty. What the kernel needs
    /// later it takes from `alloc`.
    pub fn new(alloc: Global, root: Proc, code: Arc<Code>, limits: Limits) -> Result<Kernel, Memory>
        requires root { (config_of root ≡ start_of code.value root.input.value) × (root.number ≡ 0) }
        requires sound { IsSound code.value }
        requires limits { AreLimits limits }
        ensures opening { IfOk result (λ k. IsOpening k) }
        ensures code_run { IfOk result (λ k. code_run_of k ≡ run_of code.value root.input.value limits) }
    {
        let first = Snapshot::of(&root);
        let mut kernel = Kernel {
            slots: List::new(alloc),
            parents: List::new(alloc),
            ready: ReadyQueue::new(alloc),
            out: 0,
            channels: Channels::new(alloc),
            journal: Journal {
                entries: List::new(alloc),
            },
            entries: 0,
            faulted: false,
            abandons: 0,
            code,
            limits,
            root: first,
        };
        kernel.slots.push(Slot::Here(root, State::Ready))?;
        have!(kernel.parents.push(None));
        have!(kernel.ready.push(0));
        Ok(kernel)
    }

    /// A process that the kernel has, and what it does. None of one that is out, has ended, or was not started.
    pub fn seen(&self, process: u32) -> Option<(&Proc, Seen)>
        ensures { MatchOption result (IsUnseen ((system_of self.now).condition process))
            (λ r. IsSeen ((system_of self.now).condition process) (config_of r.0.now) r.1) }
    {
        match self.slots.get(process as usize) {
            Some(Slot::Here(proc, State::Ready)) => Some((proc, Seen::Running)),
            Some(Slot::Here(proc, State::Sending(channel, _, _))) => {
                Some((proc, Seen::Sending(*channel)))
            }
            Some(Slot::Here(proc, State::Receiving(channel, _))) => {
                Some((proc, Seen::Receiving(*channel)))
            }
            Some(Slot::Here(proc, State::Joining(_))) => Some((proc, Seen::Joining)),
            Some(Slot::Here(proc, State::Laid)) => Some((proc, Seen::Laid)),
            Some(Slot::Here(proc, State::Over)) => Some((proc, Seen::Over)),
            _ => None,
        }
    }

    /// What waits to be taken from a channel, if something does.
    pub fn message(&self, channel: u32) -> Option<&[Cell]>
        requires whole { IsKernel self.now }
        requires there { channel < length self.now.channels }
        ensures { MatchOption result
            (sent_by (pending_stop (system_of self.now) ((system_of self.now).pending channel)) ≡ None)
            (λ cs. sent_by (pending_stop (system_of self.now) ((system_of self.now).pending channel)) ≡ Some cs.now) }
    {
        match self.channels.pending(channel) {
            None => None,
            Some(pending) => match self.slots.get(pending.process as usize) {
                Some(Slot::Here(_, State::Sending(_, _, cells))) => Some(cells.items()),
                _ => None,
            },
        }
    }

    /// How the run stands.
    pub fn standing(&self) -> Standing
        ensures { result ≡ stands_as (control_of self.now) }
    {
        if self.abandons > 0 {
            return Standing::Memory;
        }
        if self.faulted {
            return Standing::Fault;
        }
        if self.has_ended() {
            return Standing::Done;
        }
        if self.ready.is_empty() && self.out == 0 {
            return Standing::Deadlock;
        }
        Standing::Running
    }

    /// How many processes are out with workers.
    pub fn out(&self) -> u64
        ensures { result ≡ self.now.out }
    {
        self.out
    }

    /// The journal: an entry for each event so far.
    pub fn journal(&self) -> &Journal
        ensures { result.now ≡ self.now.journal }
    {
        &self.journal
    }

    /// Whether a worker gave up.
    pub fn gave_up(&self) -> bool
        ensures { result ≡ nat_lt 0 self.now.abandons }
    {
        self.abandons > 0
    }

    /// The oldest ready process goes out with the worker; none exactly where none is ready, or the run does not stand
    /// as running.
    pub fn take(&mut self, worker: u32) -> Option<Proc>
        requires whole { IsKernel self.old }
        requires out { self.old.out + 1 < 18446744073709551616 }
        ensures { Takes self.old worker self.new result }
    {
        if self.is_over() {
            return None;
        }
        match self.ready.take() {
            None => None,
            Some(number) => Some(self.hand_out(worker, number)),
        }
    }

    /// Does the one event of what is handed in, and appends its entry. Where memory is refused, nothing has changed,
    /// and what was handed in comes back.
    pub fn give(&mut self, worker: u32, handed: Handed) -> Result<(), Handed>
        requires whole { IsKernel self.old }
        requires fits { FitsHanded self.old worker handed }
        ensures ok { OnOk result (IsAfterGive self.old handed.proc.number handed self.new) }
        ensures err { OnErr result (self.new ≡ self.old) }
        ensures returned { IfErr result (λ h. h ≡ handed) }
    {
        if self.faulted {
            return self.lay(handed);
        }
        let Handed { proc, stop } = handed;
        match stop {
            Stop::Fork { count, .. } => self.fork(worker, proc, stop, count),
            Stop::Open => self.open(worker, proc),
            Stop::Send {
                channel,
                message,
                cells,
            } => self.send(worker, proc, channel, message, cells),
            Stop::Receive { channel, message } => self.receive(worker, proc, channel, message),
            Stop::End => self.end_of(worker, proc),
            Stop::Pause => self.pause(worker, proc),
            Stop::Fault(fault) => self.fail(
                Handed {
                    proc,
                    stop: Stop::Fault(fault),
                },
                fault,
            ),
            Stop::Memory => unreachable!(),
        }
    }

    /// Counts an abandon of the worker. The process that it had, if any, is out no more.
    pub fn abandon(&mut self, worker: u32, proc: Option<Proc>)
        requires whole { IsKernel self.old }
        requires few { self.old.abandons + 1 < 18446744073709551616 }
        requires out { IfSome proc (λ p. (control_of self.old).doing p.number ≡ Out worker) }
        ensures { Abandons self.old (number_in proc) self.new }
    {
        match proc {
            None => self.abandons += 1,
            Some(proc) => {
                let number = proc.number();
                self.lose(worker, number);
            }
        }
    }
}

impl Kernel {
    // One entry more.
    pub(crate) fn note(&mut self, process: u32, event: Event) -> Result<(), Memory>
        ensures ok { OnOk result (self.new ≡ with_entry process event self.old) }
        ensures err { OnErr result (self.new ≡ self.old) }
    {
        have!(self.journal.entries.push(Entry { process, event }));
        Ok(())
    }

    // One entry more, and a process at the back of the queue.
    #[tactic(auto, using(crate::proofs::ListEnds::last_gone))]
    pub(crate) fn note_ready(
        &mut self,
        ready: u32,
        process: u32,
        event: Event,
    ) -> Result<(), Memory>
        ensures ok { OnOk result (self.new ≡ record (with_entry process event self.old)
            { ready = self.old.ready ++ ready ∷ [] }) }
        ensures err { OnErr result (self.new ≡ self.old) }
    {
        have!(self.ready.push(ready));
        if self.note(process, event).is_err() {
            self.ready.untake();
            return Err(Memory);
        }
        Ok(())
    }

    // One entry more, and two processes at the back of the queue.
    #[tactic(auto, using(crate::proofs::ListEnds::last_gone))]
    pub(crate) fn note_both(&mut self, other: u32, process: u32, event: Event) -> Result<(), Memory>
        ensures ok { OnOk result (self.new ≡ record (with_entry process event self.old)
            { ready = (self.old.ready ++ other ∷ []) ++ process ∷ [] }) }
        ensures err { OnErr result (self.new ≡ self.old) }
    {
        have!(self.ready.push(other));
        if self.note_ready(process, process, event).is_err() {
            self.ready.untake();
            return Err(Memory);
        }
        Ok(())
    }

    // A process that comes back is in this slot.
    pub(crate) fn place(&mut self, number: u32, slot: Slot)
        requires there { number < length self.old.slots }
        ensures { self.new ≡ record self.old { slots = slice_set self.old.slots number slot; out = self.old.out - 1 } }
    {
        put(&mut self.slots, number, slot);
        self.out = self.out.saturating_sub(1);
    }

    // A process that came back after a fault is laid down.
    fn lay(&mut self, handed: Handed) -> Result<(), Handed>
        requires there { handed.proc.number < length self.old.slots }
        ensures ok { OnOk result
            (self.new ≡ kernel_after_give handed.proc.number event.Laid (slot.Here handed.proc st.Laid)
            self.old) }
        ensures err { OnErr result (self.new ≡ self.old) }
        ensures returned { IfErr result (λ h. h ≡ handed) }
    {
        let number = handed.proc.number();
        if self.note(number, Event::Laid).is_err() {
            return Err(handed);
        }
        self.place(number, Slot::Here(handed.into_proc(), State::Laid));
        Ok(())
    }

    // A process meets a fault.
    pub(crate) fn fail(&mut self, handed: Handed, fault: Fault) -> Result<(), Handed>
        requires there { handed.proc.number < length self.old.slots }
        ensures ok { OnOk result (self.new ≡ record (kernel_after_give handed.proc.number (event.Fault fault)
            (slot.Here handed.proc st.Laid) self.old) { faulted = true }) }
        ensures err { OnErr result (self.new ≡ self.old) }
        ensures returned { IfErr result (λ h. h ≡ handed) }
    {
        let number = handed.proc.number();
        if self.note(number, Event::Fault(fault)).is_err() {
            return Err(handed);
        }
        self.place(number, Slot::Here(handed.into_proc(), State::Laid));
        self.faulted = true;
        Ok(())
    }

    // A pause: the process goes to the back of the queue.
    fn pause(&mut self, _worker: u32, mut proc: Proc) -> Result<(), Handed>
        requires whole { IsKernel self.old }
        requires no_fault { self.old.faulted ≡ false }
        requires fits { FitsHanded self.old _worker (record { proc = proc; stop = stop.Pause }) }
        ensures ok { OnOk result (IsAfterGive self.old proc.number (record { proc = proc; stop = stop.Pause })
            self.new) }
        ensures err { OnErr result (self.new ≡ self.old) }
        ensures returned { IfErr result (λ h. h ≡ record { proc = proc; stop = stop.Pause }) }
    {
        let number = proc.number();
        if self.note_ready(number, number, Event::Pause).is_err() {
            return Err(Handed {
                proc,
                stop: Stop::Pause,
            });
        }
        proc.enter();
        self.place(number, Slot::Here(proc, State::Ready));
        Ok(())
    }

    // Whether the root has ended.
    pub(crate) fn has_ended(&self) -> bool
        ensures { result ≡ has_ended (doing_in (slice_get self.now.slots 0)) }
    {
        match self.slots.get(0) {
            Some(Slot::Ended) => true,
            Some(Slot::Here(_, State::Over)) => true,
            _ => false,
        }
    }

    // Whether the run has come to an end.
    pub(crate) fn is_over(&self) -> bool
        ensures { result ≡ is_over (control_of self.now) }
    {
        self.abandons > 0 || self.faulted || self.has_ended()
    }

    // A ready process goes out with the worker.
    fn hand_out(&mut self, worker: u32, number: u32) -> Proc
        requires ready { IsReady (slice_get self.old.slots number) }
        requires out { self.old.out + 1 < 18446744073709551616 }
        ensures proc { slice_get self.old.slots number ≡ Some (slot.Here result st.Ready) }
        ensures out { (p : _) × (p.value ≡ result) × (self.new ≡ with_process_out number (slot.Out worker p) self.old) }
    {
        match self.slots.replace(number as usize, Slot::Ended) {
            Slot::Here(proc, State::Ready) => {
                put(
                    &mut self.slots,
                    number,
                    Slot::Out(worker, Snapshot::of(&proc)),
                );
                self.out += 1;
                proc
            }
            _ => unreachable!(),
        }
    }

    // A process that a worker had is lost with it.
    fn lose(&mut self, _worker: u32, number: u32)
        requires out { doing_in (slice_get self.old.slots number) ≡ Out _worker }
        requires abandons { self.old.abandons + 1 < 18446744073709551616 }
        ensures { (p : _) × (condition_in (Some (slot.Gone p)) ≡ (system_of self.old).condition number)
            × (self.new ≡ kernel_after_loss number (slot.Gone p) self.old) }
    {
        match self.slots.replace(number as usize, Slot::Ended) {
            Slot::Out(_, left) => put(&mut self.slots, number, Slot::Gone(left)),
            _ => unreachable!(),
        }
        self.out = self.out.saturating_sub(1);
        self.abandons += 1;
    }

    // Its processes.
    pub(crate) fn slots(&self) -> &[Slot]
        ensures { result.now ≡ self.now.slots }
    {
        self.slots.items()
    }

    // The entries of its journal.
    pub(crate) fn entries(&self) -> &[Entry]
        ensures { result.now ≡ self.now.journal.entries }
    {
        self.journal.entries.items()
    }

    // What is left of it is the journal.
    pub(crate) fn into_journal(self) -> Journal
        ensures { result ≡ self.journal }
    {
        let Kernel {
            slots: _,
            parents: _,
            ready: _,
            out: _,
            channels: _,
            journal,
            entries: _,
            faulted: _,
            abandons: _,
            code: _,
            limits: _,
            root: _,
        } = self;
        journal
    }
}
