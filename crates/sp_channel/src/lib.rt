//! The channels of a run by number, and the one offer that may be pending on each.
//!
//! Calls:
//! - `Channels::new`, `count`: no channel; how many there are.
//! - `Channels::open`: one channel more, with nothing pending on it; its number is the count of channels before. Where
//!   memory is refused nothing changes.
//! - `Channels::pending`: the offer that is pending on a channel that is there, if there is one.
//! - `Channels::offer`: what an offer on a channel that is there meets (`Offer`): it `Waits` where nothing is pending,
//!   `Contends` with an offer of the same way, else `Meets` it or `TypeDiffers`, by the message types.
//! - `Channels::offer`, what is pending after it: one that waits, and no more the one that is met; any other offer
//!   changes nothing, and none changes another channel.
//! - `Pending`, `Way`: an offer that waits; to send or to receive.
//!
//! To know:
//! - `Way` stands in `sp_journal` and is passed on from here.
//!
//! To change:
//! - The table of offers: `specs/Offers.antt` and `offer` in `src/channels.rt`.
#![tactic(auto)]

mod channels;

pub use channels::{Channels, Offer, Pending};
pub use sp_journal::Way;
