//! How a run ends, and the verdict on it. The drops are by hand, so that each is proved once, here, and not in each
//! crate that drops such a value.

use crate::entry::Way;
use sp_base::{ChanName, Fault, List, ProcName};

/// A process that waits at the end of a run, and for what.
pub struct Waiter {
    pub process: ProcName,
    pub way: Way,
    pub channel: ChanName,
}

impl Drop for Waiter {
    fn drop(self) {
        let Waiter {
            process: _,
            way: _,
            channel: _,
        } = self;
    }
}

/// How a run ends.
pub enum End {
    /// The root ended.
    Done,
    /// Nothing can go on. These processes wait, in order of names.
    Deadlock(List<Waiter>),
    /// A process broke a rule of execution.
    Fault { process: ProcName, fault: Fault },
    /// A worker gave up for want of memory.
    Memory,
}

impl Drop for End {
    fn drop(self) {
        match self {
            End::Done | End::Memory => {}
            End::Deadlock(_) => {}
            End::Fault {
                process: _,
                fault: _,
            } => {}
        }
    }
}

/// Whether the result of a run depends on the schedule.
#[derive(PartialEq, Eq)]
pub enum Verdict {
    /// It does not.
    Ordered,
    /// Two offers of one way on one channel, by their indices in the journal, of which the later one's process
    /// did not know that the earlier one was completed.
    Race {
        way: Way,
        channel: ChanName,
        earlier: u64,
        later: u64,
    },
    /// The run ended by a fault and was not judged.
    Unjudged,
}

impl Drop for Verdict {
    fn drop(self) {
        match self {
            Verdict::Ordered | Verdict::Unjudged => {}
            Verdict::Race {
                way: _,
                channel: _,
                earlier: _,
                later: _,
            } => {}
        }
    }
}
