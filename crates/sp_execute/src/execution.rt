//! The call `run_program`: a program's code from its start to the verdict.

ghost use Rattle.std.specs.Prelude.{◌<◌, ◌≤◌, ℕ, List, IfOk};
ghost use Rattle.sp_tree.specs.Plain.{Program, Stmt};
ghost use Rattle.sp_code.specs.Sound.{run_of};
ghost use Rattle.sp_runner.specs.Runs.{IsRun};
ghost use Rattle.sp_execute.specs.Runs.{run_input, IsCodeOf, Executes};

use crate::conclusion::{Concluded, conclude};
use crate::verdict::judge;
use sp_base::{Limits, Memory, Text};
use sp_code::Code;
use sp_journal::Verdict;
use sp_kernel::Closed;
use sp_outside::Gate;
use sp_runner::run;
use std::alloc::Global;
use std::sync::{Arc, Wait};
use std::thread::Threads;

/// A run of a program with the verdict on it, as `run_program` gives it.
pub struct Ran {
    /// The run: its end, its journal and its output.
    pub closed: Closed,
    /// Whether its result depends on the schedule.
    pub verdict: Verdict,
}

// By hand, so that it is proved once, here, and not in each crate that drops a run.
impl Drop for Ran {
    fn drop(self) {
        let Ran {
            closed: _,
            verdict: _,
        } = self;
    }
}

/// Runs the code of a program on an input, with so many workers, and judges the run. What is made in this call takes
/// its memory from `alloc`. `workers` is from 1 to 64, and the code is that of a program that is ready for it.
///
/// The run is one of the workers over the room, and for every program that has this code one of the program: the
/// meaning along the journal is defined, with that output and that end. The verdict is exactly that of the journal and
/// the end; where it is ordered, every lawful schedule ends alike. The journal of one worker is first in, first out.
///
/// The error is want of memory alone.
pub fn run_program<R: Threads + Wait + Sync, G: Gate>(
    rt: &R,
    alloc: Global,
    code: Arc<Code>,
    input: Arc<Text>,
    workers: u32,
    limits: &Limits,
    gate: &G,
) -> Result<Ran, Memory>
    requires workers { (0 < workers) × (workers ≤ 64) }
    requires program { (p : Program) × (moves : Stmt → List ℕ) × (shares : Stmt → List ℕ)
        × IsCodeOf (run_input p input.value limits.now) moves shares code.value }
    ensures run { IfOk result (λ e. IsRun (run_of code.value input.value limits.now) workers e.closed) }
    ensures program { IfOk result (λ e. (p : Program) (moves shares : Stmt → List ℕ)
        → IsCodeOf (run_input p input.value limits.now) moves shares code.value
        → Executes (run_input p input.value limits.now) workers e) }
{
    let closed = run(rt, alloc, code, input, workers, limits, gate)?;
    let concluded = conclude(closed);
    let verdict = judge(alloc, &concluded)?;
    let Concluded { closed } = concluded;
    Ok(Ran { closed, verdict })
}
