//! What a process does at some moment of a run.

ghost use Rattle.std.specs.Prelude.{◌≡◌};
ghost use Rattle.sp_journal.specs.Names.{same_way};
ghost use Rattle.sp_report.specs.Conditions.{is_fault, is_running, is_timely};
ghost use Rattle.sp_report.specs.WaitingText.{has_ended, is_waiting};

use sp_journal::{Event, Way};

/// What a process does.
#[derive(Clone, Copy)]
pub(crate) enum Condition {
    /// It was not started: the entry that gave its number changed nothing.
    Unstarted,
    /// It is ready, or out with a worker.
    Running,
    /// It waits for the other side of its offer on this channel.
    Offering { way: Way, channel: u32 },
    /// It waits for its children. They are `count` from number `first` on, of which `left` have not ended.
    Joining { first: u64, count: u32, left: u32 },
    Ended,
    /// A fault stands, and it goes on no more.
    Laid,
}

/// An offer that waits on a channel.
#[derive(Clone, Copy)]
pub(crate) struct Pending {
    pub(crate) way: Way,
    pub(crate) process: u32,
}

impl Condition {
    pub(crate) fn is_running(self) -> bool
        ensures { result ≡ is_running self }
    {
        matches!(self, Condition::Running)
    }

    /// Whether it sends, receives or joins.
    pub(crate) fn is_waiting(self) -> bool
        ensures { result ≡ is_waiting self }
    {
        matches!(self, Condition::Offering { .. } | Condition::Joining { .. })
    }

    pub(crate) fn has_ended(self) -> bool
        ensures { result ≡ has_ended self }
    {
        matches!(self, Condition::Ended)
    }
}

impl Pending {
    pub(crate) fn is(self, way: Way) -> bool
        ensures { result ≡ same_way way self.way }
    {
        match (way, self.way) {
            (Way::Send, Way::Send) | (Way::Receive, Way::Receive) => true,
            (Way::Send, Way::Receive) | (Way::Receive, Way::Send) => false,
        }
    }
}

pub(crate) fn is_fault(event: Event) -> bool
    ensures { result ≡ is_fault event }
{
    matches!(event, Event::Fault(_))
}

/// Whether the event stands at the right side of a fault: only `laid` follows one, and it follows nothing else.
pub(crate) fn is_timely(faulted: bool, event: Event) -> bool
    ensures { result ≡ is_timely faulted event }
{
    match event {
        Event::Laid => faulted,
        Event::Fork(_)
        | Event::Open
        | Event::Send(_)
        | Event::Receive(_)
        | Event::End
        | Event::Fault(_)
        | Event::Pause => !faulted,
    }
}
