//! The judge: whether the result of a run depends on the schedule, by its journal and its end alone; and the law that
//! it rests on: where one run of a program is ordered, every schedule ends as it does.
//!
//! Calls:
//! - `verdict_of`: `Unjudged` exactly where the end is a fault, else `Ordered` exactly where the order condition
//!   holds, else the least race, by the later and then the earlier index. What it asks of the journal is told below.
//! - `Clock`: a count for each process, 0 where it has no pair. `new` has none; `raise` and `merge` take the greater
//!   counts, or leave all as they were; `knows` says whether the count is above a place.
//!
//! Laws:
//! - `ordered_runs_end_alike`: where a run along an ordered journal without a fault, of a program that keeps the
//!   rules of interference, is done or in a deadlock, every lawful schedule meets no fault and can end so too.
//! - `order_conditions_agree`: to know the completion of each earlier offer of its way on its channel is the same as
//!   to know the offer itself, in every journal.
//! - `order_is_decided`: the order condition can be computed (`order_test`).
//! - `knows_prefixes`: where no process makes an entry while its own offer waits, who knows a counted entry of a
//!   process knows all earlier counted ones of that process, and only counted entries are known. So a count for each
//!   known process says all that a process knows.
//! - `clocks_say_what_is_known`: where no process makes an entry while its own offer waits, a counted entry is known
//!   exactly where the count of its process is above the number of that one's counted entries before it.
//! - `waiters_are_silent`: in every run along a journal no process makes an entry while its own offer waits.
//! - `runs_without_a_fault_are_clean`: a run whose end is no fault has a journal without a fault.
//! - `verdicts_are_exact`: a journal and an end have at most one verdict.
//! - `verdicts_hold_of_runs`: where the verdict on a run of a program that keeps the rules of interference is
//!   ordered, every lawful schedule ends as the run does; else it says what it says of the journal.
//!
//! To know:
//! - `ordered_runs_end_alike` says more exactly that each lawful schedule has at most as many names as the run has
//!   steps, and is the front of one with so many names that leads to the same state: so output and end are those of
//!   the run.
//! - `specs/Notes.antt` is what is noted beside a run; no step reads it.
//! - `proofs/Exchanges.antt` and `Rendezvous.antt` exchange two steps, `Diamond.antt` counts the steps of any system
//!   with such exchanges, `NoteLaws.antt` ties the notes to the journal's pasts, and `OrderedSchedules.antt` joins them
//!   along a journal.
//! - Fork, open, send, receive and end are counted; a fault, a laid process and a pause are not
//!   (`specs/Prefixes.antt`). `proofs/PrefixLaws.antt` keeps `knows_prefixes` from entry to entry.
//! - The tables (`src/judge_tables.rt`) have a clock and a count of counted entries for each process, a line for each
//!   channel (the offer that waits, the last offer of each way) and a place for each entry.
//! - An offer is in order exactly where its process knows the last earlier offer of its way on its channel: while all
//!   was in order, who knows an offer knows all earlier ones of its way there (`proofs/Chains.antt`). So one look-up
//!   decides an entry.
//! - `src/knowledge.rt` says which counts are asked for, and seeks the first unknown offer once, when a race is found.
//!   Clocks keep no other counts; `docs/MEANING.md` says when they are large.
//! - `verdict_of` asks of a journal that it is nameable and that no process makes an entry while its own offer waits.
//!   Every run's journal keeps the second, since a process that waits makes no step.
//! - What a verdict promises of a run along a journal is proved in `proofs/SilentWaiters.antt` and
//!   `proofs/RunVerdicts.antt`.
//!
//! Lemmas for others, in `proofs`:
//! - `Exchanges`: the exchange of two steps that are not both offers on one channel.
//! - `NotesFrames`: what a step's notes are of, that all else stays, and that notes of two steps commute.
//! - `Partners`: who takes part in a step, what they write and access, and that those of two steps are apart.
//! - `GoodSteps`: a step that is made in a state that a schedule comes to, sets no fault and is ordered: such steps
//!   can be exchanged.
//! - `NoteLaws`: each step, and each entry that it makes, keep what a journal's pasts and the notes beside the run
//!   say of each other.
//! - `LinkedSteps`: each kind of step keeps the link between a journal and the notes beside its run.
//! - `Completion`: the order condition by completions and that by the earlier offer's own index are the same.
//! - `OrderedSchedules`: along an ordered journal goes an ordered schedule, so each schedule ends as it does.
//! - `Keys`: the tests of names and channels, as equalities.
//! - `PrefixLaws`: what a process knows is closed under earlier entries: the law kept from entry to entry.
//! - `Numbers`: from the numbers of a nameable journal to the names that its entries give in the end.
//! - `Fronts`: what is judged of the front of a journal and of one more entry.
//!
//! To change:
//! - The order condition: `sp_journal/specs/Past.antt`, `specs/Notes.antt` and `proofs/NoteLaws.antt`.
//! - What an entry teaches: `sp_journal`'s `specs/Past.antt`, and `one_entry` in `proofs/PrefixLaws.antt`.
//! - A clock: `src/clock.rt`.
//! - The work of an entry: `src/judge_tables.rt`.
//! - The verdict: `specs/Races.antt`, `src/verdict.rt`.
#![tactic(auto)]

mod clock;
mod have;
mod judge_laws;
mod judge_tables;
mod knowledge;
mod laws;
mod table;
mod verdict;

pub use clock::Clock;
pub use judge_laws::{
    clocks_say_what_is_known, knows_prefixes, runs_are_silent, runs_without_a_fault_are_clean,
    verdicts_are_exact, verdicts_hold_of_runs,
};
pub use laws::{order_conditions_agree, order_is_decided, ordered_runs_end_alike};
pub use verdict::verdict_of;
