//! Reports of a run: watchers that are told the entries of its journal and make a text of them.
//!
//! Calls:
//! - `Watcher`: the trait. What a watcher was told is a list of entries (`told`), its text is a function of every such
//!   list (`text`), and `title` is its name: `name` gives it, `see` tells one entry more, `finish` puts the text.
//! - `Timeline`, `Census`, `ProcessTree`, `Waiting`: the watchers. `new` gives one that was told nothing; its text is
//!   exactly that of its file in `specs/`.
//! - `sorted_by_name`: four watchers that were told nothing and have these names, in the order timeline, census, tree,
//!   waiting.
//! - `tell`: the texts of the chosen watchers over the journal, in the order in which they are handed in (`reports`);
//!   the error is want of memory alone.
//!
//! To know:
//! - `src/watcher.rt` is what every watcher promises; each watcher has a file of its own. `src/telling.rt` has `tell`,
//!   over boxed watchers that are handed in, and `src/order.rt` puts the watchers of the program in their order.
//! - `src/table.rt` follows what each process does, entry by entry, for `Waiting`.
//! - Those that wait are put in order by an ordered map under their names.
//! - A name chooses a watcher, so several watchers of one name are all told.
//! - The processes of a tree are put in order by a walk through it (`src/preorder.rt`): no two names are compared but
//!   neighbours, so the text takes time near linear in its bytes.
//! - In `waiting` a fault counts from its entry on, whoever made it.
//!
//! Lemmas for others, in `proofs`:
//! - `Orders`: processes that are put in the order of their names, one after another.
//!
//! To change:
//! - A watcher: a file of its own with an `impl Watcher`, its text in `specs/`, its name in `is_chosen`, its place in
//!   `sorted_by_name`.
//! - What an event does to a process: `specs/Conditions.antt` and `src/table.rt`.
#![tactic(auto)]

mod census;
mod condition;
mod have;
mod order;
mod preorder;
mod table;
mod telling;
mod timeline;
mod tree;
mod waiting;
mod watcher;

pub use census::Census;
pub use order::in_order;
pub use telling::tell;
pub use timeline::Timeline;
pub use tree::ProcessTree;
pub use waiting::Waiting;
pub use watcher::Watcher;
