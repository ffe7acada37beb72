//! Runs by workers, and runs along a journal.

ghost use Rattle.std.specs.Prelude.{◌<◌, ◌≤◌, ℕ, List, IfOk};
ghost use Rattle.sp_tree.specs.Plain.{Program, Stmt};
ghost use Rattle.sp_code.specs.Sound.{IsSound, AreLimits, run_of};
ghost use Rattle.sp_journal.specs.Births.{IsNameable};
ghost use Rattle.sp_runner.specs.Runs.{IsRun};
ghost use Rattle.sp_replay.specs.Replays.{Replays};
ghost use Rattle.sp_replay.specs.TraceAnswers.{Traces, replayed_of};
ghost use Rattle.sp_execute.specs.Follows.{FollowsTo};
ghost use Rattle.sp_execute.specs.Runs.{run_input, IsCodeOf, Executes};

use sp_base::{Limits, Memory, Text};
use sp_code::Code;
use sp_execute::Ran;
use sp_journal::Journal;
use sp_kernel::Closed;
use sp_outside::Gate;
use sp_replay::{ReplayError, Replayed, Traced};
use std::alloc::Global;
use std::sync::{Arc, Wait};
use std::thread::Threads;

/// `sp_runner::run`.
pub fn run<R: Threads + Wait + Sync, G: Gate>(
    rt: &R,
    alloc: Global,
    code: Arc<Code>,
    input: Arc<Text>,
    workers: u32,
    limits: &Limits,
    gate: &G,
) -> Result<Closed, Memory>
    requires workers { (0 < workers) × (workers ≤ 64) }
    requires sound { IsSound code.value }
    requires limits { AreLimits limits.now }
    ensures { IfOk result (λ c. IsRun (run_of code.value input.value limits.now) workers c) }
{
    let closed = sp_runner::run(rt, alloc, code, input, workers, limits, gate);
    closed
}

/// `sp_replay::replay`.
pub fn replay(
    alloc: Global,
    code: Arc<Code>,
    input: Arc<Text>,
    limits: &Limits,
    journal: &Journal,
) -> Result<Replayed, ReplayError>
    requires sound { IsSound code.value }
    requires limits { AreLimits limits.now }
    ensures { Replays (run_of code.value input.value limits.now) journal.now.entries result }
{
    let replayed = sp_replay::replay(alloc, code, input, limits, journal);
    replayed
}

/// `sp_replay::replay_told`.
pub fn replay_told(
    alloc: Global,
    code: Arc<Code>,
    input: Arc<Text>,
    limits: &Limits,
    journal: &Journal,
) -> Result<Traced, ReplayError>
    requires sound { IsSound code.value }
    requires limits { AreLimits limits.now }
    ensures traces { Traces (run_of code.value input.value limits.now) journal.now.entries result }
    ensures replays { Replays (run_of code.value input.value limits.now) journal.now.entries (replayed_of result) }
{
    let traced = sp_replay::replay_told(alloc, code, input, limits, journal);
    traced
}

/// `sp_execute::run_program`.
pub fn run_program<R: Threads + Wait + Sync, G: Gate>(
    rt: &R,
    alloc: Global,
    code: Arc<Code>,
    input: Arc<Text>,
    workers: u32,
    limits: &Limits,
    gate: &G,
) -> Result<Ran, Memory>
    requires workers { (0 < workers) × (workers ≤ 64) }
    requires program { (p : Program) × (moves : Stmt → List ℕ) × (shares : Stmt → List ℕ)
        × IsCodeOf (run_input p input.value limits.now) moves shares code.value }
    ensures run { IfOk result (λ e. IsRun (run_of code.value input.value limits.now) workers e.closed) }
    ensures program { IfOk result (λ e. (p : Program) (moves shares : Stmt → List ℕ)
        → IsCodeOf (run_input p input.value limits.now) moves shares code.value
        → Executes (run_input p input.value limits.now) workers e) }
{
    let executed = sp_execute::run_program(rt, alloc, code, input, workers, limits, gate);
    executed
}

/// `sp_execute::follow`.
pub fn follow(
    alloc: Global,
    code: Arc<Code>,
    input: Arc<Text>,
    limits: &Limits,
    journal: &Journal,
) -> Result<Replayed, ReplayError>
    requires program { (p : Program) × (moves : Stmt → List ℕ) × (shares : Stmt → List ℕ)
        × IsCodeOf (run_input p input.value limits.now) moves shares code.value }
    requires nameable { IsNameable journal.now }
    ensures { (p : Program) (moves shares : Stmt → List ℕ)
        → IsCodeOf (run_input p input.value limits.now) moves shares code.value
        → FollowsTo (run_input p input.value limits.now) journal.now result }
{
    let followed = sp_execute::follow(alloc, code, input, limits, journal);
    followed
}
