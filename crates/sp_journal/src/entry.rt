//! What a journal is made of: entries, their events, and what these give to processes and channels.

use sp_base::{Fault, List};

/// The direction of an offer on a channel.
#[derive(Clone, Copy, Debug, PartialEq, Eq)]
pub enum Way {
    Send,
    Receive,
}

/// What one process did at one moment. A channel stands under its number: the channel of the entry `Open` has
/// the number of `Open` entries before it.
#[derive(Clone, Copy, Debug, PartialEq, Eq)]
pub enum Event {
    /// The process started so many children and waits for them. They have the next numbers of processes.
    Fork(u32),
    /// The process opened a channel, which has the next number of a channel.
    Open,
    /// The process offered to send on this channel.
    Send(u32),
    /// The process offered to receive on this channel.
    Receive(u32),
    /// The process ended.
    End,
    /// The process broke a rule of execution, which ends the run.
    Fault(Fault),
    /// The process came back after a fault, and was laid down where it was.
    Laid,
    /// The process had computed for long and went back to the end of the queue.
    Pause,
}

/// One event and the number of its process. The root is process 0.
#[derive(Clone, Copy, Debug, PartialEq, Eq)]
pub struct Entry {
    pub process: u32,
    pub event: Event,
}

/// The one record of a run: its events in their order.
#[derive(PartialEq, Eq)]
pub struct Journal {
    pub entries: List<Entry>,
}

// By hand, so that it is proved once, here, and not in each crate that drops a journal.
impl Drop for Journal {
    fn drop(self) {
        let Journal { entries: _ } = self;
    }
}

/// How a process came to be: by which process, which of that one's forks, and as which child of it. Forks and
/// children count from 0.
#[derive(Clone, Copy)]
pub struct Birth {
    pub parent: u32,
    pub fork: u32,
    pub child: u32,
}

/// How a channel came to be: by which process, and how many channels that one had opened before.
#[derive(Clone, Copy)]
pub struct Opening {
    pub owner: u32,
    pub nth: u32,
}

/// What happened while the kernel was asked once: the worker that asked, the process that it gave back, the event
/// that this made, and the process that it got. A note with neither an event nor a process got is an abandon.
#[derive(Clone, Copy)]
pub struct Note {
    pub worker: u32,
    pub given: Option<u32>,
    pub event: Option<Event>,
    pub got: Option<u32>,
}
