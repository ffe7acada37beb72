//! A process that a worker hands in after a turn.

ghost use Rattle.std.specs.Prelude.{◌≡◌};
ghost use Rattle.sp_machine.specs.declared.state.Stop.TheVariants as stop;

use sp_base::List;
use sp_cell::Cell;
use sp_machine::{Proc, Stop};

/// A process after a turn, and why the turn ended.
#[derive(Drop)]
pub struct Handed {
    pub proc: Proc,
    pub stop: Stop,
}

impl Handed {
    pub(crate) fn into_proc(self) -> Proc
        ensures { result ≡ self.proc }
    {
        let Handed { proc, stop: _ } = self;
        proc
    }

    pub(crate) fn sending(proc: Proc, channel: u32, message: u32, cells: List<Cell>) -> Handed
        ensures { result ≡ record { proc = proc; stop = stop.Send channel message cells } }
    {
        Handed {
            proc,
            stop: Stop::Send {
                channel,
                message,
                cells,
            },
        }
    }

    pub(crate) fn receiving(proc: Proc, channel: u32, message: u32) -> Handed
        ensures { result ≡ record { proc = proc; stop = stop.Receive channel message } }
    {
        Handed {
            proc,
            stop: Stop::Receive { channel, message },
        }
    }
}
