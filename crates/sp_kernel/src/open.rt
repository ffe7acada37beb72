//! The event of a process that opens a channel.

ghost use Rattle.std.specs.Prelude.{◌≡◌, ◌+◌, ◌<◌, false, [], ◌∷◌, length, OnOk, OnErr, IfErr};
ghost use Rattle.sp_cell.specs.declared.cell.Cell.TheVariants as cell;
ghost use Rattle.sp_machine.specs.declared.state.Stop.TheVariants as stop;
ghost use Rattle.sp_kernel.specs.Kernels.{IsKernel, IsAfterGive};
ghost use Rattle.sp_kernel.specs.Fits.{FitsHanded};
ghost use Rattle.sp_kernel.specs.ListEnds.{without_last};
ghost use Rattle.sp_kernel.specs.Opens.{kernel_after_open, EntersAt};
ghost use Rattle.sp_kernel.specs.Procs.{CanTake};

use crate::handed::Handed;
use crate::kernel::Kernel;
use crate::slot::{Slot, State, drop_last};
use sp_base::Fault;
use sp_journal::Event;
use sp_machine::{Answer, Proc, Stop};

impl Kernel {
    // The last entry goes, and who is last in the queue.
    fn unnote(&mut self)
        ensures { self.new ≡ record self.old {
          journal = record { entries = without_last self.old.journal.entries };
          ready = without_last self.old.ready;
        } }
    {
        drop_last(&mut self.journal.entries);
        self.ready.untake();
    }

    // A channel more, whose number goes to the process.
    #[tactic(auto, using(crate::proofs::ListEnds::last_gone))]
    fn open_now(&mut self, mut proc: Proc) -> Result<(), Handed>
        requires there { proc.number < length self.old.slots }
        requires few { self.old.entries + 1 < 18446744073709551616 }
        requires channels { length self.old.channels < 4294967295 }
        requires target { CanTake proc (cell.Channel (length self.old.channels) ∷ []) }
        ensures ok { OnOk result ((p : _) × EntersAt proc (length self.old.channels) p
            × (self.new ≡ kernel_after_open p self.old)) }
        ensures err { OnErr result (self.new ≡ self.old) }
        ensures returned { IfErr result (λ h. h ≡ record { proc = proc; stop = stop.Open }) }
    {
        let number = proc.number();
        if self.note_ready(number, number, Event::Open).is_err() {
            return Err(Handed {
                proc,
                stop: Stop::Open,
            });
        }
        match self.channels.open(number) {
            Err(_) => {
                self.unnote();
                Err(Handed {
                    proc,
                    stop: Stop::Open,
                })
            }
            Ok(channel) => {
                proc.enter();
                proc.resume(Answer::Opened(channel));
                self.place(number, Slot::Here(proc, State::Ready));
                self.entries += 1;
                Ok(())
            }
        }
    }

    // An open.
    pub(crate) fn open(&mut self, _worker: u32, proc: Proc) -> Result<(), Handed>
        requires whole { IsKernel self.old }
        requires no_fault { self.old.faulted ≡ false }
        requires fits { FitsHanded self.old _worker (record { proc = proc; stop = stop.Open }) }
        ensures ok { OnOk result (IsAfterGive self.old proc.number (record { proc = proc; stop = stop.Open })
            self.new) }
        ensures err { OnErr result (self.new ≡ self.old) }
        ensures returned { IfErr result (λ h. h ≡ record { proc = proc; stop = stop.Open }) }
    {
        if self.entries >= u64::from(self.limits.entries) {
            return self.fail(
                Handed {
                    proc,
                    stop: Stop::Open,
                },
                Fault::F15,
            );
        }
        if self.channels.count() >= self.limits.channels {
            return self.fail(
                Handed {
                    proc,
                    stop: Stop::Open,
                },
                Fault::F14,
            );
        }
        self.open_now(proc)
    }
}
