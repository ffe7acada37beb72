//! The event of an offer to send: it waits, it meets an offer to receive, or it is a fault.

ghost use Rattle.std.specs.Prelude.{◌≡◌, ◌+◌, ◌<◌, false, Some, None, length, slice_get, slice_index_or};
ghost use Rattle.std.specs.Prelude.{OnOk, OnErr, IfErr};
ghost use Rattle.sp_journal.specs.declared.entry.Way.TheVariants as way;
ghost use Rattle.sp_kernel.specs.declared.slot.Slot.TheVariants as slot;
ghost use Rattle.sp_kernel.specs.declared.slot.State.TheVariants as st;
ghost use Rattle.sp_machine.specs.declared.state.Stop.TheVariants as stop;
ghost use Rattle.sp_kernel.specs.Kernels.{IsKernel, IsAfterGive, with_slot};
ghost use Rattle.sp_kernel.specs.Fits.{FitsHanded};
ghost use Rattle.sp_kernel.specs.Sends.{waits_to_send, IsReceiver, Receives, HasSent};
ghost use Rattle.sp_kernel.specs.Procs.{EntersAs};

use crate::handed::Handed;
use crate::kernel::Kernel;
use crate::slot::{Slot, State, put};
use sp_base::{Fault, List};
use sp_cell::Cell;
use sp_channel::Way;
use sp_journal::Event;
use sp_machine::{Answer, Proc};

impl Kernel {
    // An offer to send that finds nothing pending.
    fn send_first(
        &mut self,
        mut proc: Proc,
        channel: u32,
        message: u32,
        cells: List<Cell>,
    ) -> Result<(), Handed>
        requires there { proc.number < length self.old.slots }
        requires few { self.old.entries + 1 < 18446744073709551616 }
        requires channel { channel < length self.old.channels }
        requires free { slice_index_or self.old.channels channel None ≡ None }
        ensures ok { OnOk result ((p : _) × EntersAs proc p
            × (self.new ≡ waits_to_send p channel message cells self.old)) }
        ensures err { OnErr result (self.new ≡ self.old) }
        ensures returned { IfErr result (λ h. h ≡ record { proc = proc; stop = stop.Send channel message cells }) }
    {
        let number = proc.number();
        if self.note(number, Event::Send(channel)).is_err() {
            return Err(Handed::sending(proc, channel, message, cells));
        }
        let _ = self.channels.offer(Way::Send, channel, number, message);
        proc.enter();
        self.place(
            number,
            Slot::Here(proc, State::Sending(channel, message, cells)),
        );
        self.entries += 1;
        Ok(())
    }

    // A process that waits to receive has the message, and is ready.
    fn deliver(&mut self, other: u32, cells: List<Cell>)
        requires there { other < length self.old.slots }
        requires receiver { IsReceiver (slice_get self.old.slots other) cells }
        ensures { (r : _) × Receives (slice_get self.old.slots other) cells r
            × (self.new ≡ with_slot other (slot.Here r st.Ready) self.old) }
    {
        match self.slots.replace(other as usize, Slot::Ended) {
            Slot::Here(mut receiver, State::Receiving(_, _)) => {
                receiver.resume(Answer::Received(cells));
                put(&mut self.slots, other, Slot::Here(receiver, State::Ready));
            }
            _ => unreachable!(),
        }
    }

    // An offer to send that meets one to receive, of the same message type: the message goes over, and both are ready.
    fn send_second(
        &mut self,
        mut proc: Proc,
        channel: u32,
        cells: List<Cell>,
        other: u32,
        message: u32,
    ) -> Result<(), Handed>
        requires there { (proc.number < length self.old.slots) × (other < length self.old.slots) }
        requires few { self.old.entries + 1 < 18446744073709551616 }
        requires channel { channel < length self.old.channels }
        requires pending { slice_index_or self.old.channels channel None
            ≡ Some (record { way = way.Receive; process = other; message = message }) }
        requires receiver { IsReceiver (slice_get self.old.slots other) cells }
        ensures ok { OnOk result (HasSent self.old proc cells channel other self.new) }
        ensures err { OnErr result (self.new ≡ self.old) }
        ensures returned { IfErr result (λ h. h ≡ record { proc = proc; stop = stop.Send channel message cells }) }
    {
        let number = proc.number();
        if self.note_both(other, number, Event::Send(channel)).is_err() {
            return Err(Handed::sending(proc, channel, message, cells));
        }
        let _ = self.channels.offer(Way::Send, channel, number, message);
        self.deliver(other, cells);
        proc.enter();
        self.place(number, Slot::Here(proc, State::Ready));
        self.entries += 1;
        Ok(())
    }

    // An offer to send.
    pub(crate) fn send(
        &mut self,
        _worker: u32,
        proc: Proc,
        channel: u32,
        message: u32,
        cells: List<Cell>,
    ) -> Result<(), Handed>
        requires whole { IsKernel self.old }
        requires no_fault { self.old.faulted ≡ false }
        requires fits { FitsHanded self.old _worker (record { proc = proc; stop = stop.Send channel message cells }) }
        ensures ok { OnOk result (IsAfterGive self.old proc.number
            (record { proc = proc; stop = stop.Send channel message cells }) self.new) }
        ensures err { OnErr result (self.new ≡ self.old) }
        ensures returned { IfErr result (λ h. h ≡ record { proc = proc; stop = stop.Send channel message cells }) }
    {
        if self.entries >= u64::from(self.limits.entries) {
            return self.fail(Handed::sending(proc, channel, message, cells), Fault::F15);
        }
        match self.channels.pending(channel) {
            None => self.send_first(proc, channel, message, cells),
            Some(first) => match first.way {
                Way::Send => self.fail(Handed::sending(proc, channel, message, cells), Fault::F6),
                Way::Receive => {
                    if first.message != message {
                        return self.fail(Handed::sending(proc, channel, message, cells), Fault::F7);
                    }
                    self.send_second(proc, channel, cells, first.process, message)
                }
            },
        }
    }
}
