//! Channels, one process, and the kernel of a run.

ghost use Rattle.std.specs.Prelude.{◌≡◌, ◌+◌, ◌<◌, ◌≤◌, ◌∷◌, ◌++◌, [], length, slice_get, slice_index_or, slice_set};
ghost use Rattle.std.specs.Prelude.{None, IfErr, IfOk, OnOk, OnErr};
ghost use Rattle.sp_code.specs.Formals.{HaveFormals};
ghost use Rattle.sp_code.specs.PlainStore.{plain};
ghost use Rattle.sp_code.specs.Sound.{HasDistinctBlocks, CanSplit, CanJoin};
ghost use Rattle.sp_code.specs.System.{table_or};
ghost use Rattle.sp_channel.specs.Offers.{answer, pending_after};
ghost use Rattle.sp_machine.specs.Answers.{CanResume, state_after_answer};
ghost use Rattle.sp_machine.specs.Children.{AreNewborn, plan_by};
ghost use Rattle.sp_machine.specs.Procs.{KeepsNumberAndInput, CanTurn, IsAtFork, IsRankedFrom, IsTurnOf};
ghost use Rattle.sp_kernel.specs.Fits.{FitsHanded};
ghost use Rattle.sp_kernel.specs.Kernels.{IsKernel, IsAfterGive, Takes, control_of, stands_as};

use sp_base::{Limits, List, Memory};
use sp_channel::{Channels, Offer, Way};
use sp_code::Code;
use sp_kernel::{Handed, Kernel, Standing};
use sp_machine::{Answer, Proc, Stop};

/// `Channels::open`.
pub fn open(channels: &mut Channels, owner: u32) -> Result<u32, Memory>
    requires { length channels.old < 4294967295 }
    ensures number { IfOk result (λ n. n ≡ length channels.old) }
    ensures opened { OnOk result (channels.new ≡ channels.old ++ None ∷ []) }
    ensures err { OnErr result (channels.new ≡ channels.old) }
{
    let opened = channels.open(owner);
    opened
}

/// `Channels::offer`.
pub fn offer(channels: &mut Channels, way: Way, channel: u32, process: u32, message: u32) -> Offer
    requires { channel < length channels.old }
    ensures answer { result ≡ answer (slice_index_or channels.old channel None) way message }
    ensures after { channels.new ≡ slice_set channels.old channel
        (pending_after (slice_index_or channels.old channel None) way process message) }
{
    let offered = channels.offer(way, channel, process, message);
    offered
}

/// `Proc::turn`.
pub fn turn(proc: &mut Proc, code: &Code, limits: &Limits) -> Stop
    requires ranked { IsRankedFrom proc.old code.now limits.now }
    requires blocks { HasDistinctBlocks code.now.layouts }
    requires formals { HaveFormals code.now.layouts }
    requires safe { CanTurn proc.old code.now limits.now }
    ensures turn { IsTurnOf proc.old code.now limits.now proc.new result }
    ensures same { KeepsNumberAndInput proc.old proc.new }
{
    let stop = proc.turn(code, limits);
    stop
}

/// `Proc::resume`.
pub fn resume(proc: &mut Proc, answer: Answer)
    requires { CanResume answer proc.old }
    ensures { proc.new ≡ state_after_answer answer proc.old }
{
    proc.resume(answer);
}

/// `Proc::split`.
pub fn split_process(
    proc: &mut Proc,
    code: &Code,
    count: u32,
    number: u32,
) -> Result<List<Proc>, Memory>
    requires blocks { HasDistinctBlocks code.now.layouts }
    requires fork { IsAtFork proc.old proc.old.table proc.old.first count }
    requires numbers { number + count ≤ 4294967295 }
    requires can { CanSplit proc.old.store (plan_by code.now proc.old count) }
    ensures children { IfOk result (λ cs. AreNewborn code.now proc.old
        (table_or (slice_get code.now.forks proc.old.table)) number count cs) }
    ensures parent { OnOk result (proc.new
        ≡ record proc.old { store = plain.handed proc.old.store (plan_by code.now proc.old count) }) }
    ensures err { OnErr result (proc.new ≡ proc.old) }
{
    let children = proc.split(code, count, number);
    children
}

/// `Proc::join`.
pub fn join_child(proc: &mut Proc, child: Proc)
    requires { CanJoin proc.old.store child.store }
    ensures { proc.new ≡ record proc.old { store = plain.joined proc.old.store child.store } }
{
    proc.join(child);
}

/// `Kernel::standing`.
pub fn standing(kernel: &Kernel) -> Standing
    ensures { result ≡ stands_as (control_of kernel.now) }
{
    let stands = kernel.standing();
    stands
}

/// `Kernel::take`.
pub fn take(kernel: &mut Kernel, worker: u32) -> Option<Proc>
    requires whole { IsKernel kernel.old }
    requires out { kernel.old.out + 1 < 18446744073709551616 }
    ensures { Takes kernel.old worker kernel.new result }
{
    let taken = kernel.take(worker);
    taken
}

/// `Kernel::give`.
pub fn give(kernel: &mut Kernel, worker: u32, handed: Handed) -> Result<(), Handed>
    requires whole { IsKernel kernel.old }
    requires fits { FitsHanded kernel.old worker handed }
    ensures ok { OnOk result (IsAfterGive kernel.old handed.proc.number handed kernel.new) }
    ensures err { OnErr result (kernel.new ≡ kernel.old) }
    ensures returned { IfErr result (λ h. h ≡ handed) }
{
    let given = kernel.give(worker, handed);
    given
}
