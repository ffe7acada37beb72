//! The event of a process that ends: the first process is over, or a parent takes back what moved to its child.

ghost use Rattle.std.specs.Prelude.{◌≡◌, ◌≢◌, ◌<◌, false, Some, length, slice_get, slice_set, OnOk, OnErr, IfErr};
ghost use Rattle.sp_journal.specs.declared.entry.Event.TheVariants as event;
ghost use Rattle.sp_kernel.specs.declared.slot.Slot.TheVariants as slot;
ghost use Rattle.sp_kernel.specs.declared.slot.State.TheVariants as st;
ghost use Rattle.sp_machine.specs.declared.state.Stop.TheVariants as stop;
ghost use Rattle.sp_kernel.specs.Kernels.{IsKernel, IsAfterGive, kernel_after_give, parent_in};
ghost use Rattle.sp_kernel.specs.Fits.{FitsHanded};
ghost use Rattle.sp_kernel.specs.Ends.{left_in, one_fewer, noted_end, ends_child, IsJoiner, JoinedSlot};
ghost use Rattle.sp_kernel.specs.Procs.{EntersAs};

use crate::handed::Handed;
use crate::kernel::Kernel;
use crate::slot::{Slot, State, put};
use sp_base::Memory;
use sp_journal::Event;
use sp_machine::{Proc, Stop};

// One child fewer is awaited.
fn one_fewer(left: u32) -> State
    ensures { result ≡ one_fewer left }
{
    if left == 1 {
        State::Ready
    } else {
        State::Joining(left.saturating_sub(1))
    }
}

impl Kernel {
    // How many children a process still waits for.
    fn left(&self, process: u32) -> u32
        ensures { result ≡ left_in (slice_get self.now.slots process) }
    {
        match self.slots.get(process as usize) {
            Some(Slot::Here(_, State::Joining(left))) => *left,
            _ => 0,
        }
    }

    // The parent of a process.
    fn parent(&self, process: u32) -> Option<u32>
        ensures { result ≡ parent_in (slice_get self.now.parents process) }
    {
        match self.parents.get(process as usize) {
            Some(parent) => *parent,
            None => None,
        }
    }

    // The first process ends.
    fn end_root(&mut self, mut proc: Proc) -> Result<(), Handed>
        requires there { proc.number < length self.old.slots }
        ensures ok { OnOk result ((p : _) × EntersAs proc p
            × (self.new ≡ kernel_after_give proc.number event.End (slot.Here p st.Over) self.old)) }
        ensures err { OnErr result (self.new ≡ self.old) }
        ensures returned { IfErr result (λ h. h ≡ record { proc = proc; stop = stop.End }) }
    {
        let number = proc.number();
        if self.note(number, Event::End).is_err() {
            return Err(Handed {
                proc,
                stop: Stop::End,
            });
        }
        proc.enter();
        self.place(number, Slot::Here(proc, State::Over));
        Ok(())
    }

    // A process that joins takes back what moved to a child. After its last child it is ready.
    fn rejoin(&mut self, parent: u32, child: Proc)
        requires there { parent < length self.old.slots }
        requires joiner { IsJoiner (slice_get self.old.slots parent) child }
        ensures { (t : _) × JoinedSlot (slice_get self.old.slots parent) child t
            × (self.new ≡ record self.old { slots = slice_set self.old.slots parent t }) }
    {
        match self.slots.replace(parent as usize, Slot::Ended) {
            Slot::Here(mut process, state) => match state {
                State::Joining(left) => {
                    process.join(child);
                    put(
                        &mut self.slots,
                        parent,
                        Slot::Here(process, one_fewer(left)),
                    );
                }
                _ => unreachable!(),
            },
            _ => unreachable!(),
        }
    }

    // The entry of a child's end; after the last one its parent is ready.
    fn note_end(&mut self, process: u32, parent: u32) -> Result<(), Memory>
        ensures ok { OnOk result (self.new ≡ noted_end process parent self.old) }
        ensures err { OnErr result (self.new ≡ self.old) }
    {
        if self.left(parent) == 1 {
            self.note_ready(parent, process, Event::End)
        } else {
            self.note(process, Event::End)
        }
    }

    // A child ends.
    fn end_child(&mut self, proc: Proc, parent: u32) -> Result<(), Handed>
        requires there { (proc.number < length self.old.slots) × (parent < length self.old.slots) }
        requires apart { proc.number ≢ parent }
        requires joiner { IsJoiner (slice_get self.old.slots parent) proc }
        ensures ok { OnOk result ((t : _) × JoinedSlot (slice_get self.old.slots parent) proc t
            × (self.new ≡ ends_child proc.number parent t self.old)) }
        ensures err { OnErr result (self.new ≡ self.old) }
        ensures returned { IfErr result (λ h. h ≡ record { proc = proc; stop = stop.End }) }
    {
        let number = proc.number();
        if self.note_end(number, parent).is_err() {
            return Err(Handed {
                proc,
                stop: Stop::End,
            });
        }
        self.place(number, Slot::Ended);
        self.rejoin(parent, proc);
        Ok(())
    }

    // An end.
    pub(crate) fn end_of(&mut self, _worker: u32, proc: Proc) -> Result<(), Handed>
        requires whole { IsKernel self.old }
        requires no_fault { self.old.faulted ≡ false }
        requires fits { FitsHanded self.old _worker (record { proc = proc; stop = stop.End }) }
        ensures ok { OnOk result (IsAfterGive self.old proc.number (record { proc = proc; stop = stop.End }) self.new) }
        ensures err { OnErr result (self.new ≡ self.old) }
        ensures returned { IfErr result (λ h. h ≡ record { proc = proc; stop = stop.End }) }
    {
        match self.parent(proc.number()) {
            None => self.end_root(proc),
            Some(parent) => self.end_child(proc, parent),
        }
    }
}
