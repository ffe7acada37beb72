//! The call `run_code_file`: code of any origin from its start to its end, without a verdict.

ghost use Rattle.std.specs.Prelude.{◌<◌, ◌≤◌, IfOk};
ghost use Rattle.sp_code.specs.Sound.{AreLimits, IsSound};
ghost use Rattle.sp_execute.specs.Machines.{RunsCode};

use crate::conclusion::{Concluded, conclude};
use sp_base::{Limits, Memory, Text};
use sp_code::Code;
use sp_kernel::Closed;
use sp_outside::Gate;
use sp_runner::run;
use std::alloc::Global;
use std::sync::{Arc, Wait};
use std::thread::Threads;

/// Runs sound code on an input, with so many workers, and judges nothing: there need be no program that the code is of.
/// What is made in this call takes its memory from `alloc`. `workers` is from 1 to 64.
///
/// The run is one of the workers over the room: its end and its output are those of the machine along its journal. For
/// every program that has this code and is ready for it, they are those of its meaning along that journal too.
///
/// The error is want of memory alone.
pub fn run_code_file<R: Threads + Wait + Sync, G: Gate>(
    rt: &R,
    alloc: Global,
    code: Arc<Code>,
    input: Arc<Text>,
    workers: u32,
    limits: &Limits,
    gate: &G,
) -> Result<Closed, Memory>
    requires workers { (0 < workers) × (workers ≤ 64) }
    requires sound { IsSound code.value }
    requires limits { AreLimits limits.now }
    ensures { IfOk result (RunsCode code.value input.value limits.now workers) }
{
    let closed = run(rt, alloc, code, input, workers, limits, gate)?;
    let Concluded { closed } = conclude(closed);
    Ok(closed)
}
