//! Channels by their numbers, with at most one pending offer each.

ghost use Rattle.std.specs.Prelude.{◌≡◌, ◌<◌, IfOk, OnOk, OnErr, length, slice_index_or, slice_set, [], ◌∷◌, ◌++◌};
ghost use Rattle.std.specs.Prelude.{Some, None};
ghost use Rattle.sp_channel.specs.Offers.{answer, pending_after};

use sp_base::Memory;
use sp_journal::Way;
use std::alloc::Global;
use std::marker::Model;

/// What an offer meets.
#[derive(Clone, Copy, Debug, PartialEq, Eq)]
pub enum Offer {
    /// Nothing was pending. The offer is pending now.
    Waits,
    /// The other direction and the same message type of this process were pending. Both go on.
    Meets(u32),
    /// The same direction was pending, by this process.
    Contends(u32),
    /// The other direction was pending by this process, with another message type.
    TypeDiffers(u32),
}

/// An offer that waits for its partner.
#[derive(Clone, Copy, Debug, PartialEq, Eq)]
pub struct Pending {
    pub way: Way,
    /// The number of the process that offered.
    pub process: u32,
    /// The number of its message type.
    pub message: u32,
}

/// The channels of a run by their numbers, from 0. Contracts see the list of what is pending on each.
#[derive(Drop)]
pub struct Channels {
    pending: Vec<Option<Pending>>,
}

impl Model for Channels {
    ghost use Rattle.std.specs.Prelude.{List, Option, length, ◌<◌};
    ghost use Rattle.sp_channel.specs.declared.channels.Pending.{Pending};

    ghost Value = { List (Option Pending) };

    ghost view = { λ it. it.pending.items };

    ghost invariant = { λ it. length it.pending.items < 4294967296 };
}

impl Channels {
    /// No channel yet. It takes no memory, and keeps the allocator for `open`.
    pub fn new(alloc: Global) -> Channels
        ensures { result ≡ [] }
    {
        Channels {
            pending: Vec::new(alloc),
        }
    }

    /// Opens a channel, and gives its number, which is the count of channels before. Nothing is pending on it. Whose it
    /// is makes no difference. Where memory is refused, the channels are unchanged.
    pub fn open(&mut self, _owner: u32) -> Result<u32, Memory>
        requires { length self.old < 4294967295 }
        ensures number { IfOk result (λ n. n ≡ length self.old) }
        ensures opened { OnOk result (self.new ≡ self.old ++ None ∷ []) }
        ensures err { OnErr result (self.new ≡ self.old) }
    {
        let number = self.pending.len() as u32;
        self.pending.push(None)?;
        Ok(number)
    }

    /// How many channels there are.
    pub fn count(&self) -> u32
        ensures { result ≡ length self.now }
    {
        self.pending.len() as u32
    }

    /// The offer that is pending on a channel.
    pub fn pending(&self, channel: u32) -> Option<Pending>
        requires { channel < length self.now }
        ensures { result ≡ slice_index_or self.now channel None }
    {
        self.pending[channel as usize]
    }

    /// Offers to send or to receive on a channel. The offer waits where nothing is pending, and meets what it fits;
    /// nothing is pending after that. An offer that contends or differs in its type changes nothing. No offer changes
    /// another channel.
    pub fn offer(&mut self, way: Way, channel: u32, process: u32, message: u32) -> Offer
        requires { channel < length self.old }
        ensures answer { result ≡ answer (slice_index_or self.old channel None) way message }
        ensures after { self.new ≡ slice_set self.old channel
            (pending_after (slice_index_or self.old channel None) way process message) }
    {
        let at = channel as usize;
        match self.pending[at] {
            None => {
                self.pending[at] = Some(Pending {
                    way,
                    process,
                    message,
                });
                Offer::Waits
            }
            Some(first) => {
                if first.way == way {
                    return Offer::Contends(first.process);
                }
                if first.message != message {
                    return Offer::TypeDiffers(first.process);
                }
                self.pending[at] = None;
                Offer::Meets(first.process)
            }
        }
    }
}
