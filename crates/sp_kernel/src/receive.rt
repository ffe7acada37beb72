//! The event of an offer to receive: it waits, it meets an offer to send, or it is a fault.

ghost use Rattle.std.specs.Prelude.{◌≡◌, ◌+◌, ◌<◌, false, Some, None, length, slice_get, slice_index_or};
ghost use Rattle.std.specs.Prelude.{OnOk, OnErr, IfErr};
ghost use Rattle.sp_journal.specs.declared.entry.Way.TheVariants as way;
ghost use Rattle.sp_kernel.specs.declared.slot.Slot.TheVariants as slot;
ghost use Rattle.sp_kernel.specs.declared.slot.State.TheVariants as st;
ghost use Rattle.sp_machine.specs.declared.state.Stop.TheVariants as stop;
ghost use Rattle.sp_kernel.specs.Kernels.{IsKernel, IsAfterGive, with_slot};
ghost use Rattle.sp_kernel.specs.Fits.{FitsHanded};
ghost use Rattle.sp_kernel.specs.Receives.{waits_to_receive, IsSender, IsSenderWith, HasReceived};
ghost use Rattle.sp_kernel.specs.Procs.{CanTake, EntersAs};

use crate::handed::Handed;
use crate::kernel::Kernel;
use crate::slot::{Slot, State, put};
use sp_base::{Fault, List};
use sp_cell::Cell;
use sp_channel::Way;
use sp_journal::Event;
use sp_machine::{Answer, Proc};

impl Kernel {
    // An offer to receive that finds nothing pending.
    fn receive_first(&mut self, mut proc: Proc, channel: u32, message: u32) -> Result<(), Handed>
        requires there { proc.number < length self.old.slots }
        requires few { self.old.entries + 1 < 18446744073709551616 }
        requires channel { channel < length self.old.channels }
        requires free { slice_index_or self.old.channels channel None ≡ None }
        ensures ok { OnOk result ((p : _) × EntersAs proc p
            × (self.new ≡ waits_to_receive p channel message self.old)) }
        ensures err { OnErr result (self.new ≡ self.old) }
        ensures returned { IfErr result (λ h. h ≡ record { proc = proc; stop = stop.Receive channel message }) }
    {
        let number = proc.number();
        if self.note(number, Event::Receive(channel)).is_err() {
            return Err(Handed::receiving(proc, channel, message));
        }
        let _ = self.channels.offer(Way::Receive, channel, number, message);
        proc.enter();
        self.place(number, Slot::Here(proc, State::Receiving(channel, message)));
        self.entries += 1;
        Ok(())
    }

    // A process that waits to send gives its message, and is ready.
    fn fetch(&mut self, other: u32, _receiver: &Proc) -> List<Cell>
        requires there { other < length self.old.slots }
        requires sender { IsSender (slice_get self.old.slots other) _receiver.now }
        ensures given { (q : _) × IsSenderWith (slice_get self.old.slots other) q result
            × (self.new ≡ with_slot other (slot.Here q st.Ready) self.old) }
        ensures fits { CanTake _receiver.now result }
    {
        match self.slots.replace(other as usize, Slot::Ended) {
            Slot::Here(sender, state) => match state {
                State::Sending(_, _, cells) => {
                    put(&mut self.slots, other, Slot::Here(sender, State::Ready));
                    cells
                }
                _ => unreachable!(),
            },
            _ => unreachable!(),
        }
    }

    // An offer to receive that meets one to send, of the same message type: the message goes over, and both are ready.
    fn receive_second(
        &mut self,
        mut proc: Proc,
        channel: u32,
        other: u32,
        message: u32,
    ) -> Result<(), Handed>
        requires there { (proc.number < length self.old.slots) × (other < length self.old.slots) }
        requires few { self.old.entries + 1 < 18446744073709551616 }
        requires channel { channel < length self.old.channels }
        requires pending { slice_index_or self.old.channels channel None
            ≡ Some (record { way = way.Send; process = other; message = message }) }
        requires sender { IsSender (slice_get self.old.slots other) proc }
        ensures ok { OnOk result (HasReceived self.old proc channel other self.new) }
        ensures err { OnErr result (self.new ≡ self.old) }
        ensures returned { IfErr result (λ h. h ≡ record { proc = proc; stop = stop.Receive channel message }) }
    {
        let number = proc.number();
        if self
            .note_both(other, number, Event::Receive(channel))
            .is_err()
        {
            return Err(Handed::receiving(proc, channel, message));
        }
        let _ = self.channels.offer(Way::Receive, channel, number, message);
        let cells = self.fetch(other, &proc);
        proc.enter();
        proc.resume(Answer::Received(cells));
        self.place(number, Slot::Here(proc, State::Ready));
        self.entries += 1;
        Ok(())
    }

    // An offer to receive.
    pub(crate) fn receive(
        &mut self,
        _worker: u32,
        proc: Proc,
        channel: u32,
        message: u32,
    ) -> Result<(), Handed>
        requires whole { IsKernel self.old }
        requires no_fault { self.old.faulted ≡ false }
        requires fits { FitsHanded self.old _worker (record { proc = proc; stop = stop.Receive channel message }) }
        ensures ok { OnOk result (IsAfterGive self.old proc.number
            (record { proc = proc; stop = stop.Receive channel message }) self.new) }
        ensures err { OnErr result (self.new ≡ self.old) }
        ensures returned { IfErr result (λ h. h ≡ record { proc = proc; stop = stop.Receive channel message }) }
    {
        if self.entries >= u64::from(self.limits.entries) {
            return self.fail(Handed::receiving(proc, channel, message), Fault::F15);
        }
        match self.channels.pending(channel) {
            None => self.receive_first(proc, channel, message),
            Some(first) => match first.way {
                Way::Receive => self.fail(Handed::receiving(proc, channel, message), Fault::F6),
                Way::Send => {
                    if first.message != message {
                        return self.fail(Handed::receiving(proc, channel, message), Fault::F7);
                    }
                    self.receive_second(proc, channel, first.process, message)
                }
            },
        }
    }
}
