//! The event of a process that forks: room for the children first, then the children in their slots.

ghost use Rattle.std.specs.Prelude.{ℕ, ◌≡◌, ◌+◌, ◌<◌, true, false, length, MatchOption, IfSome, OnOk, OnErr, IfErr};
ghost use Rattle.sp_code.specs.Sound.{HasDistinctBlocks, CanSplit};
ghost use Rattle.sp_machine.specs.Procs.{IsAtFork};
ghost use Rattle.sp_machine.specs.Children.{plan_by};
ghost use Rattle.sp_kernel.specs.Kernels.{IsKernel, IsAfterGive};
ghost use Rattle.sp_kernel.specs.Fits.{FitsHanded};
ghost use Rattle.sp_kernel.specs.Forks.{with_room_for, exceeds, HasForked, IsForkOf};
ghost use Rattle.sp_kernel.specs.declared.kernel.Kernel.{Kernel};

use crate::handed::Handed;
use crate::have;
use crate::kernel::Kernel;
use crate::slot::{Slot, State, add_parents, add_slots, drop_last, seat};
use sp_base::{Fault, Memory};
use sp_journal::Event;
use sp_machine::{Proc, Stop};

impl Kernel {
    // The number of children, where there is room for them.
    fn room(&self, count: u64) -> Option<u32>
        ensures room { MatchOption result (exceeds self.now count ≡ true) (λ _. exceeds self.now count ≡ false) }
        ensures fits { IfSome result (λ n. (n ≡ count) × (length self.now.slots + n < 4294967296)) }
    {
        let limit = u64::from(self.limits.processes);
        let processes = self.slots.len() as u64;
        if processes > limit || count > limit - processes {
            return None;
        }
        Some(count as u32)
    }

    // There is room for the children of a process: in the queue, where they stand, and in the tables. The entry is
    // made.
    fn admit(&mut self, process: u32, count: u32) -> Result<(), Memory>
        requires { length self.old.slots + count < 4294967296 }
        ensures ok { OnOk result (self.new ≡ with_room_for process count self.old) }
        ensures err { OnErr result (self.new ≡ self.old) }
    {
        let first = self.slots.len();
        have!(self.ready.extend(first as u32, count));
        if add_slots(&mut self.slots, count).is_err() {
            self.ready.shorten(count);
            return Err(Memory);
        }
        let families = self.parents.len();
        if add_parents(&mut self.parents, process, count).is_err() {
            self.ready.shorten(count);
            self.slots.truncate(first);
            return Err(Memory);
        }
        if self.note(process, Event::Fork(count)).is_err() {
            self.ready.shorten(count);
            self.slots.truncate(first);
            self.parents.truncate(families);
            return Err(Memory);
        }
        Ok(())
    }

    // The children are not there after all.
    fn dismiss(&mut self, first: u32, families: usize, count: u32)
        ensures { (x : Kernel) (p : ℕ) → length x.slots ≡ first → length x.parents ≡ families
            → self.old ≡ with_room_for p count x → self.new ≡ x }
    {
        self.ready.shorten(count);
        self.slots.truncate(first as usize);
        self.parents.truncate(families);
        drop_last(&mut self.journal.entries);
    }

    // The children are there, and the process waits for them.
    fn fork_now(&mut self, mut proc: Proc, count: u32) -> Result<(), Proc>
        requires there { proc.number < length self.old.slots }
        requires few { self.old.entries + 1 < 18446744073709551616 }
        requires numbers { length self.old.slots + count < 4294967296 }
        requires blocks { HasDistinctBlocks self.old.code.value.layouts }
        requires fork { IsAtFork proc proc.table proc.first count }
        requires can { CanSplit proc.store (plan_by self.old.code.value proc count) }
        ensures ok { OnOk result (HasForked self.old proc count self.new) }
        ensures err { OnErr result (self.new ≡ self.old) }
        ensures returned { IfErr result (λ p. p ≡ proc) }
    {
        let number = proc.number();
        let first = self.slots.len() as u32;
        let families = self.parents.len();
        if self.admit(number, count).is_err() {
            return Err(proc);
        }
        match proc.split(&self.code, count, first) {
            Err(_) => {
                self.dismiss(first, families, count);
                Err(proc)
            }
            Ok(children) => {
                seat(&mut self.slots, first, children);
                proc.enter();
                self.place(number, Slot::Here(proc, State::Joining(count)));
                self.entries += 1;
                Ok(())
            }
        }
    }

    // A fork.
    pub(crate) fn fork(
        &mut self,
        _worker: u32,
        proc: Proc,
        stop: Stop,
        count: u64,
    ) -> Result<(), Handed>
        requires whole { IsKernel self.old }
        requires no_fault { self.old.faulted ≡ false }
        requires forks { IsForkOf stop count }
        requires fits { FitsHanded self.old _worker (record { proc = proc; stop = stop }) }
        ensures ok { OnOk result (IsAfterGive self.old proc.number (record { proc = proc; stop = stop }) self.new) }
        ensures err { OnErr result (self.new ≡ self.old) }
        ensures returned { IfErr result (λ h. h ≡ record { proc = proc; stop = stop }) }
    {
        if self.entries >= u64::from(self.limits.entries) {
            return self.fail(Handed { proc, stop }, Fault::F15);
        }
        match self.room(count) {
            None => self.fail(Handed { proc, stop }, Fault::F13),
            Some(children) => match self.fork_now(proc, children) {
                Ok(()) => Ok(()),
                Err(proc) => Err(Handed { proc, stop }),
            },
        }
    }
}
