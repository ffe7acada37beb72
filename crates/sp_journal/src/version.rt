//! The versions of a journal's text, and which events each can hold.

ghost use Rattle.std.specs.Prelude.{◌↔◌, IsTrue};
ghost use Rattle.sp_journal.specs.Texts.{CanHold};

use crate::entry::Event;

/// A version of the text. Version 1 has no `pause`.
#[derive(Clone, Copy)]
pub enum Version {
    One,
    Two,
}

impl Version {
    /// Whether this version has this event.
    pub(crate) fn can_hold(self, event: Event) -> bool
        ensures { IsTrue result ↔ CanHold self event }
    {
        match self {
            Version::One => match event {
                Event::Pause => false,
                _ => true,
            },
            Version::Two => true,
        }
    }
}
