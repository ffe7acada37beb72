//! The call `replay`: a run along a given journal, and what it answers.

ghost use Rattle.std.specs.Prelude.{◌≡◌, ℕ, List, [], false, IfOk};
ghost use Rattle.sp_base.specs.declared.limits.Limits.{Limits as AllLimits};
ghost use Rattle.sp_code.specs.declared.code.Parts.{Parts};
ghost use Rattle.sp_code.specs.Sound.{IsSound, AreLimits, run_of};
ghost use Rattle.sp_kernel.specs.Kernels.{code_run_of};
ghost use Rattle.sp_machine.specs.FirstFrames.{first_fits as fits_first};
ghost use Rattle.sp_replay.specs.FollowInvariant.{HoldsAllReady, RunsOn};
ghost use Rattle.sp_replay.specs.Replays.{Replays};

use crate::follow::FollowedRun;
use crate::have;
use sp_base::{Limits, Memory, Text};
use sp_code::Code;
use sp_journal::{End, Entry, Journal};
use sp_kernel::{Kernel, first_fault_end, is_first_fault};
use sp_machine::{Proc, first_fits};
use std::alloc::Global;
use std::sync::Arc;
use thiserror::Error;

/// What a journal leads to.
#[derive(Drop)]
pub struct Replayed {
    /// The end after its last entry; none where the run goes on there.
    pub end: Option<End>,
    /// What was written up to there.
    pub output: Text,
}

/// Why a journal is not followed.
#[derive(Clone, Copy, Debug, Error)]
pub enum ReplayError {
    /// The entry with this index, counted from 0, is the first that cannot come next: its process does not run there,
    /// or its turn makes another event.
    #[error("entry {0} cannot come next")]
    Unfit(u64),
    /// Memory was refused.
    #[error("out of memory")]
    Memory,
}

// The run at its start.
pub(crate) fn begin(
    alloc: Global,
    code: &Arc<Code>,
    input: Arc<Text>,
    limits: &Limits,
) -> Result<FollowedRun, Memory>
    requires sound { IsSound code.now.value }
    requires limits { AreLimits limits.now }
    ensures stands { IfOk result (λ f. HoldsAllReady f) }
    ensures code_run { IfOk result (λ f. code_run_of f.kernel ≡ run_of code.now.value input.value limits.now) }
    ensures run { IfOk result (λ f. RunsOn f.kernel code.now.value limits.now) }
    ensures start { IfOk result (λ f. f.kernel.journal.entries ≡ []) }
{
    let code_again = have!(Arc::try_clone(code));
    let root = have!(Proc::root(alloc, code, input));
    let kernel = have!(Kernel::new(alloc, root, code_again, *limits));
    FollowedRun::start(alloc, kernel)
}

// What is answered where the program's frame is larger than the limit: only F12 of the first process can come.
#[tactic(auto, using(crate::proofs::TooLarge::no_first))]
fn follow_too_large(alloc: Global, entries: &[Entry]) -> Result<Replayed, ReplayError>
    ensures { (code : Parts) (input : List ℕ) (lim : AllLimits) → fits_first code lim ≡ false
        → Replays (run_of code input lim) entries.now result }
{
    let output = Text::of(Vec::new(alloc));
    let Some((first, rest)) = entries.split_first() else {
        return Ok(Replayed { end: None, output });
    };
    if !is_first_fault(*first) {
        return Err(ReplayError::Unfit(0));
    }
    if !rest.is_empty() {
        return Err(ReplayError::Unfit(1));
    }
    let end = Some(first_fault_end(alloc));
    Ok(Replayed { end, output })
}

// Follows a journal from the first process on.
fn replay_fitting(
    alloc: Global,
    code: Arc<Code>,
    input: Arc<Text>,
    limits: &Limits,
    journal: &Journal,
) -> Result<Replayed, ReplayError>
    requires sound { IsSound code.value }
    requires limits { AreLimits limits.now }
    ensures { Replays (run_of code.value input.value limits.now) journal.now.entries result }
{
    let Ok(mut followed) = begin(alloc, &code, input, limits) else {
        return Err(ReplayError::Memory);
    };
    followed.follow_all(alloc, &code, limits, journal.entries.items())
}

/// Runs the code on an input along a journal: each entry is the event of the next turn of its process. Each process
/// that can run is held here, and is turned only when an entry names it. What is made in this call takes its memory
/// from `alloc`. The code is sound.
///
/// The end and the output are those of the machine after the whole journal. `Unfit` comes only where the machine is not
/// defined along it, with the first entry that does not fit; there nothing else comes, but where memory is refused.
///
/// Cells of the program's frame are taken only if all fit the limit.
pub fn replay(
    alloc: Global,
    code: Arc<Code>,
    input: Arc<Text>,
    limits: &Limits,
    journal: &Journal,
) -> Result<Replayed, ReplayError>
    requires sound { IsSound code.value }
    requires limits { AreLimits limits.now }
    ensures { Replays (run_of code.value input.value limits.now) journal.now.entries result }
{
    if first_fits(&code, limits) {
        return replay_fitting(alloc, code, input, limits, journal);
    }
    follow_too_large(alloc, journal.entries.items())
}
