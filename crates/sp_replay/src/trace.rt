//! The call `replay_told`: a run along a given journal, with what is told of each entry, and the state behind it.

ghost use Rattle.std.specs.Prelude.{◌≡◌, ◌==◌, ◌<◌, ℕ, IfOk, OnOk, length};
ghost use Rattle.sp_code.specs.Sound.{IsSound, AreLimits, run_of};
ghost use Rattle.sp_journal.specs.Maps.{at_key};
ghost use Rattle.sp_lines.specs.EntryPlaces.{lasts_after};
ghost use Rattle.sp_replay.specs.Replays.{Replays};
ghost use Rattle.sp_replay.specs.TraceAnswers.{Traces, last_in, never, replayed_of};

use crate::follow::FollowedRun;
use crate::replayer::{ReplayError, Replayed, begin};
use sp_base::{Limits, List, Memory, Text};
use sp_code::Code;
use sp_journal::{Entry, Journal};
use sp_lines::Told;
use std::alloc::Global;
use std::sync::Arc;

/// What a journal leads to, with what is told of its entries.
#[derive(Drop)]
pub struct Traced {
    /// The end after its last entry and what was written up to there, as `replay` gives them.
    pub replayed: Replayed,
    /// What is told of each entry.
    pub told: List<Told>,
    /// The state after its last entry.
    pub state: FollowedRun,
}

/// Runs the code on an input along a journal, as `replay` does, and tells each entry: where its turn ended, and the
/// message that passes. What is made in this call takes its memory from `alloc`. The code is sound.
///
/// The state is that of the machine after the whole journal, and end and output are those there. `Unfit` comes only
/// where the machine is not defined along the journal, with the first entry that does not fit; there nothing else
/// comes, but where memory is refused.
pub fn replay_told(
    alloc: Global,
    code: Arc<Code>,
    input: Arc<Text>,
    limits: &Limits,
    journal: &Journal,
) -> Result<Traced, ReplayError>
    requires sound { IsSound code.value }
    requires limits { AreLimits limits.now }
    ensures traces { Traces (run_of code.value input.value limits.now) journal.now.entries result }
    ensures replays { Replays (run_of code.value input.value limits.now) journal.now.entries (replayed_of result) }
{
    let Ok(mut state) = begin(alloc, &code, input, limits) else {
        return Err(ReplayError::Memory);
    };
    let mut told = List::new(alloc);
    match state.follow_all_told(&code, limits, journal.entries.items(), &mut told) {
        Ok(()) => {}
        Err(error) => return Err(error),
    }
    let Ok(replayed) = state.finish(alloc) else {
        return Err(ReplayError::Memory);
    };
    Ok(Traced {
        replayed,
        told,
        state,
    })
}

// The process has a place in the list.
fn reach(lasts: &mut List<u32>, process: u32) -> Result<(), Memory>
    ensures same { OnOk result ((q : ℕ) → last_in lasts.new q ≡ last_in lasts.old q) }
    ensures there { OnOk result (process < length lasts.new) }
{
    while lasts.len() <= process as usize {
        lasts.push(0)?;
    }
    Ok(())
}

// The process's last turn ended at this instruction.
fn put_last(lasts: &mut List<u32>, process: u32, at: u32) -> Result<(), Memory>
    ensures { OnOk result ((q : ℕ) → last_in lasts.new q ≡ at_key ◌==◌ process at (last_in lasts.old) q) }
{
    reach(lasts, process)?;
    let _ = lasts.replace(process as usize, at);
    Ok(())
}

/// For each process the instruction at which its last turn ended, by what is told of the entries; 0 where it has made
/// none. A process whose number is beyond the list has made none.
///
/// The one error is that memory was refused.
pub fn lasts(alloc: Global, entries: &[Entry], told: &[Told]) -> Result<List<u32>, Memory>
    ensures { IfOk result (λ ls. (q : ℕ) → last_in ls q ≡ lasts_after entries.now told.now never q) }
{
    let mut out = List::new(alloc);
    for (index, entry) in entries.iter().enumerate() {
        let Some(told) = told.get(index) else {
            return Ok(out);
        };
        put_last(&mut out, entry.process, told.instruction)?;
    }
    Ok(out)
}
