//! The calls `follow` and `follow_told`: a journal followed with the code of a program.

ghost use Rattle.std.specs.Prelude.{ℕ, List};
ghost use Rattle.sp_tree.specs.Plain.{Program, Stmt};
ghost use Rattle.sp_journal.specs.Births.{IsNameable};
ghost use Rattle.sp_code.specs.Sound.{IsSound, run_of};
ghost use Rattle.sp_replay.specs.TraceAnswers.{Traces, replayed_of};
ghost use Rattle.sp_execute.specs.Follows.{FollowsTo};
ghost use Rattle.sp_execute.specs.Runs.{run_input, IsCodeOf};

use sp_base::{Limits, Text};
use sp_code::Code;
use sp_journal::Journal;
use sp_replay::{ReplayError, Replayed, Traced, replay, replay_told};
use std::alloc::Global;
use std::sync::Arc;

/// Runs the code of a program on an input along a journal, on this thread. What is made in this call takes its memory
/// from `alloc`. The code is that of a program that is ready for it, and the journal gives names.
///
/// For every program that has this code: the journal is followed exactly where the meaning of the program is defined
/// along it, and then the output and the end are those of its state there; where the run goes on there, it has no end.
/// `Unfit` tells the first entry with which the meaning is not defined. Where memory is refused, neither is told.
pub fn follow(
    alloc: Global,
    code: Arc<Code>,
    input: Arc<Text>,
    limits: &Limits,
    journal: &Journal,
) -> Result<Replayed, ReplayError>
    requires program { (p : Program) × (moves : Stmt → List ℕ) × (shares : Stmt → List ℕ)
        × IsCodeOf (run_input p input.value limits.now) moves shares code.value }
    requires nameable { IsNameable journal.now }
    ensures { (p : Program) (moves shares : Stmt → List ℕ)
        → IsCodeOf (run_input p input.value limits.now) moves shares code.value
        → FollowsTo (run_input p input.value limits.now) journal.now result }
{
    replay(alloc, code, input, limits, journal)
}

/// The same, with what is told of each entry and the state after the last one: end and output are those that `follow`
/// gives, and what is told is that of the machine along the journal.
pub fn follow_told(
    alloc: Global,
    code: Arc<Code>,
    input: Arc<Text>,
    limits: &Limits,
    journal: &Journal,
) -> Result<Traced, ReplayError>
    requires program { (p : Program) × (moves : Stmt → List ℕ) × (shares : Stmt → List ℕ)
        × IsCodeOf (run_input p input.value limits.now) moves shares code.value }
    requires nameable { IsNameable journal.now }
    ensures follows { (p : Program) (moves shares : Stmt → List ℕ)
        → IsCodeOf (run_input p input.value limits.now) moves shares code.value
        → FollowsTo (run_input p input.value limits.now) journal.now (replayed_of result) }
    ensures traces { Traces (run_of code.value input.value limits.now) journal.now.entries result }
    ensures sound { IsSound code.value }
{
    replay_told(alloc, code, input, limits, journal)
}
