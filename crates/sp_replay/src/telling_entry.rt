//! What is told of each entry while a journal is followed: where its turn ended, and the message that passes.

ghost use Rattle.std.specs.Prelude.{◌≡◌, [], ◌++◌, ◌∷◌, Err, None, Some, MatchOption, IfOk, IfErr, OnOk};
ghost use Rattle.std.specs.Prelude.{if◌then◌else◌};
ghost use Rattle.sp_code.specs.Sound.{IsSound};
ghost use Rattle.sp_kernel.specs.Kernels.{code_run_of, system_of};
ghost use Rattle.sp_lines.specs.EntryPlaces.{DescribesEntries, told_of, passes};
ghost use Rattle.sp_machine.specs.Procs.{turn_by};
ghost use Rattle.sp_replay.specs.FollowInvariant.{CannotCome, HoldsAllReady, IsInHand, RunsOn};
ghost use Rattle.sp_replay.specs.Tellings.{ToldMade};
ghost use Rattle.sp_replay.specs.Replays.{Replays};

use crate::follow::{FollowedRun, is_same, turned};
use crate::have;
use crate::held::pick;
use crate::replayer::ReplayError;
use sp_base::{Limits, List, Memory};
use sp_cell::Cell;
use sp_code::Code;
use sp_journal::Entry;
use sp_kernel::Handed;
use sp_lines::Told;
use sp_machine::Stop;
use std::alloc::Global;

// A message of this type with a copy of these cells, if there are some.
fn message_of(
    alloc: Global,
    kind: u32,
    cells: Option<&[Cell]>,
) -> Result<Option<(u32, List<Cell>)>, Memory>
    ensures { IfOk result (λ m. MatchOption cells.entry (m ≡ None) (λ cs. m ≡ Some (kind, cs.now))) }
{
    match cells {
        None => Ok(None),
        Some(cells) => {
            let copy = List::from_slice(alloc, cells)?;
            Ok(Some((kind, copy)))
        }
    }
}

// What is told, if the events are one.
fn told_if(same: bool, told: Told) -> Option<Told>
    ensures { result ≡ (if same then Some told else None) }
{
    if same { Some(told) } else { None }
}

// One entry more.
fn keep(out: &mut List<Told>, told: Told) -> Result<(), Memory>
    ensures { OnOk result (out.new ≡ out.old ++ told ∷ []) }
{
    out.push(told)?;
    Ok(())
}

impl FollowedRun {
    // The message that passes where a process stopped so.
    fn message(
        &self,
        code: &Code,
        limits: &Limits,
        handed: &Handed,
    ) -> Result<Option<(u32, List<Cell>)>, Memory>
        requires run { RunsOn self.now.kernel code.now limits.now }
        requires hand { IsInHand self.now code.now limits.now handed.now }
        ensures { IfOk result (λ m. m ≡ passes (system_of self.now.kernel) (turn_by handed.now.stop handed.now.proc)) }
    {
        match &handed.stop {
            Stop::Send { message, cells, .. } => {
                message_of(self.held.alloc(), *message, Some(cells.items()))
            }
            Stop::Receive { channel, message } => {
                message_of(self.held.alloc(), *message, self.kernel.message(*channel))
            }
            Stop::Fork { .. } | Stop::Open | Stop::End | Stop::Pause => Ok(None),
            Stop::Fault(_) | Stop::Memory => Ok(None),
        }
    }

    // What is told of the entry that comes of the turn.
    fn told(&self, code: &Code, limits: &Limits, handed: &Handed) -> Result<Told, Memory>
        requires run { RunsOn self.now.kernel code.now limits.now }
        requires hand { IsInHand self.now code.now limits.now handed.now }
        ensures { IfOk result (λ w. w ≡ told_of (system_of self.now.kernel)
            (turn_by handed.now.stop handed.now.proc)) }
    {
        let message = have!(self.message(code, limits, handed));
        let instruction = handed.proc.at(&handed.stop);
        Ok(Told {
            instruction,
            message,
        })
    }

    // The next turn of the entry's process. If its event is the entry's, the answer is what is told of the entry.
    fn follow_told(
        &mut self,
        code: &Code,
        limits: &Limits,
        entry: Entry,
    ) -> Result<Option<Told>, Memory>
        requires sound { IsSound code.now }
        requires run { RunsOn self.old.kernel code.now limits.now }
        requires stands { HoldsAllReady self.old }
        ensures { IfOk result (λ o. MatchOption o (CannotCome self.old.kernel entry)
            (λ w. HoldsAllReady self.new × ToldMade self.old.kernel entry w self.new.kernel)) }
    {
        let Some(proc) = pick(&mut self.held, entry.process) else {
            return Ok(None);
        };
        let handed = have!(turned(proc, code, limits));
        let told = have!(self.told(code, limits, &handed));
        have!(self.hand_in(code, limits, handed));
        let same = is_same(self.kernel.newest(), entry.event);
        Ok(told_if(same, told))
    }

    /// Follows all entries from the start on, up to the first that cannot come next, and puts what is told of each.
    pub(crate) fn follow_all_told(
        &mut self,
        code: &Code,
        limits: &Limits,
        entries: &[Entry],
        out: &mut List<Told>,
    ) -> Result<(), ReplayError>
        requires sound { IsSound code.now }
        requires run { RunsOn self.old.kernel code.now limits.now }
        requires stands { HoldsAllReady self.old }
        requires start { self.old.kernel.journal.entries ≡ [] }
        requires empty { out.old ≡ [] }
        ensures stands { OnOk result (HoldsAllReady self.new) }
        ensures code_run { OnOk result (code_run_of self.new.kernel ≡ code_run_of self.old.kernel) }
        ensures entries { OnOk result (self.new.kernel.journal.entries ≡ entries.now) }
        ensures told { OnOk result (DescribesEntries (code_run_of self.old.kernel) self.new.kernel.journal.entries
            out.new (system_of self.new.kernel)) }
        ensures err { IfErr result (λ e. Replays (code_run_of self.old.kernel) entries.now (Err e)) }
    {
        for (index, entry) in entries.iter().enumerate() {
            let Ok(told) = self.follow_told(code, limits, *entry) else {
                return Err(ReplayError::Memory);
            };
            let Some(told) = told else {
                return Err(ReplayError::Unfit(index as u64));
            };
            let Ok(()) = keep(out, told) else {
                return Err(ReplayError::Memory);
            };
        }
        Ok(())
    }
}
