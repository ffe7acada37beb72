//! A run that follows a journal, entry by entry.

ghost use Rattle.std.specs.Prelude.{◌≡◌, ◌≢◌, ℕ, [], MatchBool, MatchOption, IfOk, OnOk};
ghost use Rattle.sp_code.specs.Sound.{IsSound};
ghost use Rattle.sp_code.specs.OutputHolder.{IsOutputOf};
ghost use Rattle.sp_kernel.specs.Asks.{IsOpening};
ghost use Rattle.sp_kernel.specs.Kernels.{code_run_of, system_of};
ghost use Rattle.sp_kernel.specs.Views.{IsSeen};
ghost use Rattle.sp_machine.specs.Procs.{CanTurn, IsRankedFrom, config_of};
ghost use Rattle.sp_replay.specs.HeldProcesses.{held_at};
ghost use Rattle.sp_replay.specs.FollowInvariant.{IsReplayKernel, HoldsAllReady, SameRun, RunsOn, WasTurned, IsInHand};
ghost use Rattle.sp_replay.specs.FollowInvariant.{Exchanged, EventMade};
ghost use Rattle.sp_replay.specs.FollowInvariant.{CannotCome, with_taken};
ghost use Rattle.sp_replay.specs.Replays.{Replays, ReplayLeadsTo};
ghost use Rattle.sp_replay.specs.TraceAnswers.{IsAt, IsNowhere};

use crate::have;
use crate::held::{find, hold, output, pick};
use crate::replayer::{ReplayError, Replayed};
use sp_base::{Limits, List, Memory, Text};
use sp_code::Code;
use sp_journal::{Entry, Event};
use sp_kernel::{Handed, Kernel, Seen};
use sp_machine::{Proc, Stop};
use std::alloc::Global;

/// A run that has followed a journal up to here: the kernel, and by its number each process that can run.
pub struct FollowedRun {
    pub(crate) kernel: Kernel,
    pub(crate) held: List<Option<Proc>>,
}

// By hand, so that it is proved once, here, and not in each crate that drops a run.
impl Drop for FollowedRun {
    fn drop(self) {
        let FollowedRun { kernel: _, held: _ } = self;
    }
}

// One turn of a process.
pub(crate) fn turned(proc: Proc, code: &Code, limits: &Limits) -> Result<Handed, Memory>
    requires sound { IsSound code.now }
    requires ranked { IsRankedFrom proc code.now limits.now }
    requires safe { CanTurn proc code.now limits.now }
    ensures { IfOk result (λ h. WasTurned proc code.now limits.now h) }
{
    let mut proc = proc;
    match proc.turn(code, limits) {
        Stop::Memory => Err(Memory),
        stop => Ok(Handed { proc, stop }),
    }
}

// Whether two events are one.
pub(crate) fn is_same(event: Event, other: Event) -> bool
    ensures { MatchBool result (event ≡ other) (event ≢ other) }
{
    event == other
}

impl FollowedRun {
    /// The run at its start, where the first process is held.
    pub(crate) fn start(alloc: Global, kernel: Kernel) -> Result<FollowedRun, Memory>
        requires { IsOpening kernel }
        ensures { IfOk result (λ f. HoldsAllReady f × SameRun kernel f.kernel) }
    {
        let mut followed = FollowedRun {
            kernel,
            held: List::new(alloc),
        };
        have!(followed.take_ready());
        Ok(followed)
    }

    // Takes and holds all that are ready.
    fn take_ready(&mut self) -> Result<(), Memory>
        requires { IsReplayKernel self.old.kernel (held_at self.old.held) }
        ensures { OnOk result (HoldsAllReady self.new × SameRun self.old.kernel self.new.kernel) }
    {
        while let Some(proc) = self.kernel.take(0) {
            have!(hold(&mut self.held, proc.number(), proc));
        }
        Ok(())
    }

    // Hands a process in after its turn, for its event, and takes the one that is ready for longest then.
    fn exchange(
        &mut self,
        code: &Code,
        limits: &Limits,
        handed: Handed,
    ) -> Result<Option<Proc>, Memory>
        requires run { RunsOn self.old.kernel code.now limits.now }
        requires hand { IsInHand self.old code.now limits.now handed }
        ensures held { self.new.held ≡ self.old.held }
        ensures exchanged { IfOk result (λ r. Exchanged self.old.kernel handed.proc.number self.old.held r
            self.new.kernel) }
    {
        let Ok(()) = self.kernel.give(0, handed) else {
            return Err(Memory);
        };
        Ok(self.kernel.take(0))
    }

    // Holds the process that was taken, if any.
    fn keep(&mut self, taken: Option<Proc>) -> Result<(), Memory>
        ensures kernel { self.new.kernel ≡ self.old.kernel }
        ensures held { OnOk result ((q : ℕ) → held_at self.new.held q ≡ with_taken taken (held_at self.old.held) q) }
    {
        match taken {
            Some(proc) => hold(&mut self.held, proc.number(), proc),
            None => Ok(()),
        }
    }

    // Hands a process in after its turn, for its event, and holds all that are ready then.
    pub(crate) fn hand_in(
        &mut self,
        code: &Code,
        limits: &Limits,
        handed: Handed,
    ) -> Result<(), Memory>
        requires run { RunsOn self.old.kernel code.now limits.now }
        requires hand { IsInHand self.old code.now limits.now handed }
        ensures { OnOk result (HoldsAllReady self.new
            × ((e : _) × EventMade self.old.kernel handed.proc.number e self.new.kernel)) }
    {
        let taken = have!(self.exchange(code, limits, handed));
        have!(self.keep(taken));
        self.take_ready()
    }

    // The next turn of the entry's process. The answer says whether its event is the entry's.
    fn follow(&mut self, code: &Code, limits: &Limits, entry: Entry) -> Result<bool, Memory>
        requires sound { IsSound code.now }
        requires run { RunsOn self.old.kernel code.now limits.now }
        requires stands { HoldsAllReady self.old }
        ensures { IfOk result (λ fits. MatchBool fits
            (HoldsAllReady self.new × EventMade self.old.kernel entry.process entry.event self.new.kernel)
            (CannotCome self.old.kernel entry)) }
    {
        let Some(proc) = pick(&mut self.held, entry.process) else {
            return Ok(false);
        };
        let handed = have!(turned(proc, code, limits));
        have!(self.hand_in(code, limits, handed));
        Ok(is_same(self.kernel.newest(), entry.event))
    }

    /// Follows all entries from the start on, up to the first that can't come next: the end and the output after them.
    pub(crate) fn follow_all(
        &mut self,
        alloc: Global,
        code: &Code,
        limits: &Limits,
        entries: &[Entry],
    ) -> Result<Replayed, ReplayError>
        requires sound { IsSound code.now }
        requires run { RunsOn self.old.kernel code.now limits.now }
        requires stands { HoldsAllReady self.old }
        requires start { self.old.kernel.journal.entries ≡ [] }
        ensures { Replays (code_run_of self.old.kernel) entries.now result }
    {
        for (index, entry) in entries.iter().enumerate() {
            let Ok(fits) = self.follow(code, limits, *entry) else {
                return Err(ReplayError::Memory);
            };
            if !fits {
                return Err(ReplayError::Unfit(index as u64));
            }
        }
        match self.finish(alloc) {
            Ok(replayed) => Ok(replayed),
            Err(_) => Err(ReplayError::Memory),
        }
    }

    /// A process that was started and has not ended, or the root, and what it does: who runs is held here, and the
    /// kernel has the others.
    pub fn seen(&self, process: u32) -> Option<(&Proc, Seen)>
        requires { HoldsAllReady self.now }
        ensures { MatchOption result (IsNowhere ((system_of self.now.kernel).condition process))
            (λ r. IsSeen ((system_of self.now.kernel).condition process) (config_of r.0.now) r.1) }
    {
        match find(self.held.items(), process) {
            Some(proc) => Some((proc, Seen::Running)),
            None => self.kernel.seen(process),
        }
    }

    // What was written so far.
    fn output(&self) -> &[u8]
        requires { HoldsAllReady self.now }
        ensures { (q : ℕ) × IsOutputOf (system_of self.now.kernel) q result.now }
    {
        match self.kernel.output() {
            Some(bytes) => bytes,
            None => match output(self.held.items()) {
                Some(bytes) => bytes,
                None => unreachable!(),
            },
        }
    }

    /// The end and the output after the entries that were followed.
    pub(crate) fn finish(&self, alloc: Global) -> Result<Replayed, Memory>
        requires { HoldsAllReady self.now }
        ensures leads { IfOk result
            (λ r. ReplayLeadsTo (code_run_of self.now.kernel) self.now.kernel.journal.entries r) }
        ensures at { IfOk result (λ r. IsAt self.now.kernel.journal.entries (system_of self.now.kernel) r) }
    {
        let end = have!(self.kernel.end());
        let output = have!(Vec::from_slice(alloc, self.output()));
        Ok(Replayed {
            end,
            output: Text::of(output),
        })
    }
}
