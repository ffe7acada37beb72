//! The variables of one process: what a child may change moves to it, what it only reads is shared, and a join gives
//! back. Shared pieces are copied only at the first write while others hold them.
//!
//! Calls:
//! - `Store::root`: the store of a run's first process: frame 0 with the input's position 0, the empty output, and an
//!   undefined piece for each size. `Store::empty`: a store that holds nothing.
//! - `Store::push_frame`: makes a frame with the next number (`next_frame`) and an undefined piece for each size, and
//!   gives the number; where memory is refused, the store is unchanged.
//! - `Store::pop_frame`: drops the newest own frame with its pieces.
//! - `Store::load`, `cells`: the cell at an address, and as many cells from it on.
//! - `Store::store`: writes one cell. `Store::make_own`: makes a piece an own one with the same cells. Where memory is
//!   refused, the store is unchanged; a write to an own piece succeeds.
//! - `Store::put`: writes cells over those of an own piece; it cannot fail.
//! - `Store::copy`: copies cells from one address to another, also where both ranges overlap; where memory is refused,
//!   the store is unchanged.
//! - `Store::append`: puts bytes after the output; where memory is refused, the store is unchanged. `Store::output`:
//!   what was written so far; none exactly where the output is not held.
//! - `Store::split`: a child for each handing of a plan, with the moved spots as they are, the shared ones as shared,
//!   and an index in a frame of its own. Where memory is refused, the store is unchanged.
//! - `Store::join`: takes back what moved to the child when it was made. Children of `split` that are joined as they
//!   were made give all back, the shared pieces as shared.
//! - `Store::has_cells`, `is_own`, `has_gone`, `len`: exactly whether cells are held, whether a piece is own, whether a
//!   spot has moved to a child, and how many cells the piece at a spot has.
//!
//! To know:
//! - Contracts see a store as its plain map from spots to what is own, shared, the output or away, which `sp_cell`
//!   defines. `specs/Layout.antt` leads to it from memory.
//! - `src/store.rt` has the calls, `src/slots.rt` the map in memory, `src/entry.rt` the work on one entry,
//!   `src/frame.rt` that on a frame; `src/fork.rt` makes ready what a fork needs, `src/hand.rt` moves entries.
//! - A spot of the newest frame, of the oldest spots or, in a recursion, of the frame before the newest stands mostly
//!   where it is guessed; another one is found in time of the logarithm of the spots. A frame is pushed and popped at
//!   the end, in time of the frame.
//! - An own piece of one cell stands in its entry, so it takes no memory of its own, and a load or store of it no step
//!   more. Once it was shared it is a piece like others.
//! - A fork adds spots in their order, as a spot that goes between others moves all behind it. Lists that come in
//!   another order are sorted first.
//! - A piece that is shared already is only counted once more by a fork. After a join the parent's piece stays shared;
//!   its first write takes it back without a copy where all other holders are gone.
//! - Two questions (`has_cells`, `is_own`) are public for callers that do not know by proof what they hold, as tests
//!   are.
//!
//! To change:
//! - The map in memory: `src/slots.rt`.
//! - One entry: `src/entry.rt`.
//! - A fork: `src/fork.rt` and `split` in `src/store.rt`.
//! - The calls: `src/store.rt`.
//! - What a caller may ask: `src/asks.rt`.
#![tactic(auto)]

mod asks;
mod entry;
mod fork;
mod frame;
mod hand;
mod have;
mod slots;
mod store;

pub use store::Store;
