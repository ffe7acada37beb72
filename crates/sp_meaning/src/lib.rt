//! The meaning of programs: what a run is, step by step, in every schedule. The crate has definitions, and laws that
//! hold for every program, input and limits.
//!
//! Laws:
//! - `steps_end`: what a step evaluates comes to its end within the bound of the step.
//! - `fronts_are_lawful`: the front of a lawful schedule is lawful.
//! - `longest_fronts_are_exact`: each schedule has exactly one longest lawful front; `longest` gives its length and
//!   state.
//! - `journals_have_schedules`: along a journal without a fault the names of the steps are a lawful schedule, as long
//!   as the run has steps.
//! - `ticks_never_fall`: a process that has not ended never has fewer ticks than before.
//! - `unwritten_stays`: a step changes no location that nobody writes in it.
//! - `steps_are_local`: a step gives the same in two stores that agree on what it reads and writes.
//! - `own_parts_agree`: a process's own part has its name and its count of forks.
//! - `states_are_sound`: a pending offer's process waits on its channel, children of a fork not made yet are absent,
//!   and the parent of a child that lives joins it.
//! - `active_are_parallel`: two processes that run or wait for a message are parallel.
//! - `done_is_idle`: where the root has ended, no process is running.
//! - `rule_keepers_are_disjoint`: a program that keeps the rules of interference is disjoint: in no lawful schedule
//!   does a process write what a parallel one reads or writes.
//!
//! To know:
//! - `specs/Model.antt` and `Steps` are the processes, whatever their language; `LocalWork`, `EffectTree`, `Eval`,
//!   `Actions`, `Turn` and `SuperPascal` are one process; `Runs`, `Along`, `Ends`, `Disjoint` are what is said of a
//!   run.
//! - `Owning` is what each process has the right to, which `proofs/RuleKeepers.antt`, `ActionRights`, `Children` and
//!   `RightsInvariant` keep along a run. `proofs/SilentActions.antt`: what a step that forks, offers, ends or fails
//!   leaves as it was, where expressions are pure (`Pure`).
//! - Names have the newest step first, so that a parent is the tail. Texts have the oldest first, and the order of
//!   names is by the oldest first.
//! - The ticks that a process had made at its last entry are those after the operands of that step, functions called
//!   there included.
//! - `succ` tests the greatest number of its type alone and `pred` the least, as the instructions do: a value in
//!   range is what either is given.
//! - Disjointness needs I1, I2, I4 and I5 and what names and types give of the tree (blocks stand after the block
//!   around them, consoles are the first two variables, a function's result is its own). I3 and I6 to I9 are rules of
//!   the language that it does without.
//!
//! Lemmas for others, in `proofs`:
//! - `Maps`: maps as functions: look-ups after an update, and updates at different keys.
//! - `Keys`: numbers, names and channels are told apart by their tests.
//! - `EffectTree`: locality of work that is a tree of reads and writes, once for all trees.
//! - `Instance`: the language keeps the laws of the model: locations are told apart, and a step goes by what it
//!   touches alone.
//! - `Frames`: what a step changes, and that all else stays.
//! - `Status`: what each condition of a process says of the others: who is running, who waits, whom a step meets.
//! - `Meeting`: an offer that met another's, and one that waits.
//! - `StepInvariants`: each step keeps what is known of the state: a pending offer's process waits, unborn children are
//!   absent, and the parent of a child that lives joins it.
//! - `Parallel`: two processes that do not wait for one another are parallel.
//! - `Run`: computations run on a store one after the other: the only place where the trees of reads and writes are
//!   seen.
//! - `Weights`: how much stands between two ticks of what is left to do: no more than in the statement that it
//!   comes from.
//! - `EnoughSteps`: the bound of a step never runs out: each tick pays for what stands between two ticks.
//! - `LocalSteps`: a local step of the model is the run of the process's own step on the store.
//! - `Sound`: every step keeps what is known of the state, a faulting one too.
//! - `StepLaws`: what every step keeps: names, counts of forks, light items; and ticks never fall.
//! - `TurnWalks`: what each local step keeps, a turn keeps; and who makes a turn is running.
//! - `JournalSchedules`: along a journal without a fault goes a lawful schedule of that length.
//! - `LawProofs`: the laws, as the contracts of `laws.rt` state them.
//! - `Static`: static links: what is visible from a frame is the same seen from the frames inside it.
//! - `Within`: what the evaluation of an expression reads and writes is the process's to read and write.
//! - `CallRights`: a call keeps the invariant behind disjointness: what is sound for the call in the caller's
//!   frames makes the body sound in the new one.
//! - `Rights`: rights by names: a process has its own locations and those that its fork gave it; what one of two
//!   parallel ones may write the other has not.
//! - `SoundParts`: what is sound of a statement is so of its parts, of what it leaves to do and of the children
//!   that it begins.
//! - `ActionRights`: what a step of statements, calls and items reads and writes is the process's to read and
//!   write, and what it comes to is fair.
//! - `Children`: a fork hands over rights: each child gets those of its statement's variables, and keeps the
//!   invariant behind disjointness with them.
//! - `RightsInvariant`: the invariant behind disjointness holds along every lawful schedule.
//! - `RuleKeepers`: a program that keeps the rules is disjoint.
//! - `Pure`: expressions are pure: what they call is functions alone, with values alone, and a function changes
//!   nothing outside itself.
//! - `SilentActions`: what a step that forks, offers, ends or fails leaves as it was, where expressions are pure.
//!
//! To change:
//! - A statement: `specs/Actions.antt` (`start`, `push`) and a line in `proofs/EnoughSteps.antt`.
//! - An operator: `sp_tree/specs/Operators.antt`, which `specs/Operators.antt` passes on.
#![tactic(auto)]

mod laws;

pub use laws::{
    active_are_parallel, done_is_idle, fronts_are_lawful, journals_have_schedules,
    longest_fronts_are_exact, own_parts_agree, rule_keepers_are_disjoint, states_are_sound,
    steps_are_local, steps_end, ticks_never_fall, unwritten_stays,
};
