//! The small types on which every crate stands: lists, texts, places, rules, faults, names, limits and writers. A
//! `Writer` is a list that is written piece by piece. If memory is refused it keeps that in mind, writes nothing more,
//! and says so at the end: what writes needs no `?`, and its proofs have no branch for each call.
//!
//! Calls:
//! - `List`: a `Vec` that contracts see as the list of its items: `of`, `new`, `from_slice`, `items`, `into_vec`,
//!   `len`, `is_empty`, `get`, `get_mut`, `pop`, `replace`, `swap`, `truncate`, `join`, each on the list exactly.
//! - `List::push` puts an item last, `List::extend_from_slice` several; where memory is refused the list is as
//!   before, and `push` gives the item back.
//! - `Boxed`: a `Box` that contracts see as its value (`new`, `get`, `into_inner`).
//! - `Text`, `Word`: a `Vec<u8>` and a `String` that contracts see as their bytes (`of`, `bytes`, `text`); a `Text`
//!   can be duplicated, and is compared and hashed by its bytes.
//! - `put_decimal`, `put_signed`: put exactly the number in decimal last; where memory is refused the bytes are as
//!   before.
//! - `ProcName`, `ChanName`: `put` puts exactly the text of the name last, or leaves the bytes as before; `duplicate`
//!   gives the same name. `Pair` is one step of a name.
//! - `order` of both: the order of `specs/Order.antt`, which is total and in which only equal names tie;
//!   `ProcName::is` says whether two tie.
//! - `Fault::name`, `Rule::name`: exactly the names in `specs/Faults.antt` and `specs/Rules.antt`.
//! - Types that all crates share: `Place`, `Rule`, `Refusal`, `Fault`, `Halt` (a broken rule, or want of memory),
//!   `Memory`, `Limits`, `Show` (what is told of a run); and the numbers `MAXINT` and `TURN_TICKS`.
//! - `Writer::new`, `Writer::behind`: a writer that has nothing, or these items; `Writer::finish`: what it has, or want
//!   of memory.
//! - `Writer::put` one item, `extend` by a slice, `put_found` an item or want of memory; for bytes also `decimal`,
//!   `signed`, `name`, `channel`, `place`: each adds exactly its items (`Adds` of `specs/Adds.antt`), or loses the
//!   writer.
//! - `Writer::note`: of a call that was made on `items`, whether it was refused memory. `number`, `push_to`: the same
//!   for a number that may be missing, and for an item that goes into another list. `lose`: loses the writer.
//!
//! To know:
//! - No contract says when memory is refused.
//! - `Adds old new xs`: if the new writer is not lost, the old one was not, and `xs` stands behind the old items. A
//!   function that writes promises it; straight-line code of many calls and the end by `finish` are then proved with no
//!   answer.
//! - A loop that writes has `Covers l.fn.out l.out REST WHOLE` as its invariant, what is still to come and what there
//!   is to write, and mostly no answer. `Keeps` says any other fact of that kind.
//! - `proofs/Additions.antt` has lemmas for answers by hand: take the last fact at `k`, that the writer is not lost,
//!   and the one before at the first part of it.
//! - `items` and `is_lost` of a writer are public: another call may write into `items`, and `note` takes what it
//!   answers.
//!
//! Lemmas for others, in `proofs`:
//! - `Facts`: small facts of numbers, booleans, options and lists that many proofs use and the standard library has
//!   not.
//! - `Additions`: for answers by hand: what stands after two parts, and in a loop.
//!
//! To change:
//! - Anything: it is checked again with every crate above, so rarely.
//! - A rule or a fault: the files are in its row of `docs/ARCHITECTURE.md`.
//! - One more kind of item for a writer of bytes: `src/writer_text.rt`.
#![tactic(auto)]

mod boxed;
mod decimal;
mod fault;
mod halt;
mod limits;
mod list;
mod name;
mod place;
mod rule;
mod text;
mod writer;
mod writer_text;

pub use boxed::Boxed;
pub use decimal::{put_decimal, put_signed};
pub use fault::Fault;
pub use halt::{Halt, Memory, Refusal};
pub use limits::{Limits, MAXINT, Show, TURN_TICKS};
pub use list::List;
pub use name::{ChanName, Pair, ProcName};
pub use place::Place;
pub use rule::Rule;
pub use text::{Text, Word};
pub use writer::Writer;
