//! A run: all workers, from the first process to the end.

ghost use Rattle.std.specs.Prelude.{◌≡◌, ◌<◌, ◌≤◌, [], IfOk};
ghost use Rattle.sp_code.specs.Sound.{IsSound, AreLimits, run_of};
ghost use Rattle.sp_code.specs.WorkerHistory.{OneByOne};
ghost use Rattle.sp_room.specs.Seats.{IsSeatOf, SamePlace, claims_of_seat, opening_of, number_of, seen_by, own_of};
ghost use Rattle.sp_room.specs.Ends.{object_of, notes_of};
ghost use Rattle.sp_runner.specs.Works.{IsRunOf, AreOwnNotes, LeftAfter, RanBy};
ghost use Rattle.sp_runner.specs.Runs.{IsRun};

use crate::worker::work;
use sp_base::{Limits, List, Memory, Text};
use sp_code::Code;
use sp_kernel::{Closed, Kernel};
use sp_machine::{Proc, first_fits};
use sp_outside::Gate;
use sp_room::{Room, RoomSeat, Settled};
use std::alloc::Global;
use std::sync::{Arc, Wait};
use std::thread::{Threads, map_vec};

// Runs the kernel to the end of the run, with a worker on each of so many seats of a room.
fn run_all<R: Threads + Wait + Sync, G: Gate>(
    rt: &R,
    alloc: Global,
    kernel: Kernel,
    workers: u32,
    code: &Code,
    limits: &Limits,
    gate: &G,
) -> Result<Settled<Kernel>, Memory>
    requires workers { (0 < workers) × (workers ≤ 64) }
    requires run { IsRunOf kernel code.now limits.now }
    ensures { IfOk result (λ s. RanBy workers kernel (notes_of s) (object_of s)) }
{
    let Ok((room, seats)) = Room::new(alloc, kernel, workers) else {
        return Err(Memory);
    };
    let done = map_vec(
        rt,
        seats.into_vec(),
        &|seat: RoomSeat<Kernel>| -> RoomSeat<Kernel>
            requires { IsSeatOf room seat × IsRunOf (opening_of room) code.now limits.now
                × AreOwnNotes (seen_by seat) (own_of seat) (number_of seat) × (own_of seat ≡ [])
                × (0 < claims_of_seat seat) }
            ensures { SamePlace seat result × LeftAfter (seen_by result) × OneByOne None (own_of result) }
        { work(rt, &room, seat, code, limits, gate) },
    );
    let Ok(seats) = done else {
        return Err(Memory);
    };
    let settled = room.close(List::of(seats));
    if settled.object().gave_up() {
        return Err(Memory);
    }
    Ok(settled)
}

// Runs it from its first process on.
fn run_fitting<R: Threads + Wait + Sync, G: Gate>(
    rt: &R,
    alloc: Global,
    code: Arc<Code>,
    input: Arc<Text>,
    workers: u32,
    limits: &Limits,
    gate: &G,
) -> Result<Closed, Memory>
    requires workers { (0 < workers) × (workers ≤ 64) }
    requires sound { IsSound code.value }
    requires limits { AreLimits limits.now }
    ensures { IfOk result (λ c. IsRun (run_of code.value input.value limits.now) workers c) }
{
    let root = Proc::root(alloc, &code, input)?;
    let kernel = Kernel::new(alloc, root, Arc::try_clone(&code)?, *limits)?;
    let settled = run_all(rt, alloc, kernel, workers, &code, limits, gate)?;
    Kernel::close(alloc, settled)
}

/// Runs the code on an input with so many workers, to the end of the run: it is done, in a deadlock, or it met a fault.
/// What is made in this call takes its memory from `alloc`. `workers` is from 1 to 64, and the code is sound.
///
/// Each worker serves the room with what it holds, enters the gate and runs one turn. It rests where nothing can be
/// taken. The journal depends on the workers; the end and the output are those of the machine along that journal.
///
/// Cells of the program's frame are taken only if all fit the limit. If they do not, the run is F12 alone.
///
/// The error is want of memory alone.
pub fn run<R: Threads + Wait + Sync, G: Gate>(
    rt: &R,
    alloc: Global,
    code: Arc<Code>,
    input: Arc<Text>,
    workers: u32,
    limits: &Limits,
    gate: &G,
) -> Result<Closed, Memory>
    requires workers { (0 < workers) × (workers ≤ 64) }
    requires sound { IsSound code.value }
    requires limits { AreLimits limits.now }
    ensures { IfOk result (λ c. IsRun (run_of code.value input.value limits.now) workers c) }
{
    if first_fits(&code, limits) {
        return run_fitting(rt, alloc, code, input, workers, limits, gate);
    }
    Closed::too_large(alloc)
}
