//! Processes that are held, by their numbers.

ghost use Rattle.std.specs.Prelude.{◌≡◌, ◌==◌, ◌<◌, ℕ, List, Some, None, MatchOption, OnOk, length};
ghost use Rattle.sp_journal.specs.Maps.{at_key};
ghost use Rattle.sp_replay.specs.HeldProcesses.{held_at, outputs};

use sp_base::{List, Memory};
use sp_machine::Proc;

// The number has a place in the list.
fn reach(held: &mut List<Option<Proc>>, number: u32) -> Result<(), Memory>
    ensures same { OnOk result ((q : ℕ) → held_at held.new q ≡ held_at held.old q) }
    ensures there { OnOk result (number < length held.new) }
{
    while held.len() <= number as usize {
        held.push(None)?;
    }
    Ok(())
}

/// A process is held under this number.
pub(crate) fn hold(held: &mut List<Option<Proc>>, number: u32, proc: Proc) -> Result<(), Memory>
    ensures { OnOk result ((q : ℕ) → held_at held.new q ≡ at_key ◌==◌ number (Some proc) (held_at held.old) q) }
{
    reach(held, number)?;
    let _ = held.replace(number as usize, Some(proc));
    Ok(())
}

/// The process that is held under this number, if there is one, is held no more.
pub(crate) fn pick(held: &mut List<Option<Proc>>, number: u32) -> Option<Proc>
    ensures proc { result ≡ held_at held.old number }
    ensures others { (q : ℕ) → held_at held.new q ≡ at_key ◌==◌ number None (held_at held.old) q }
{
    if held.len() <= number as usize {
        return None;
    }
    held.replace(number as usize, None)
}

/// The process that is held under this number, if there is one.
pub(crate) fn find(held: &[Option<Proc>], number: u32) -> Option<&Proc>
    ensures { MatchOption result (held_at held.now number ≡ None) (λ p. held_at held.now number ≡ Some p.now) }
{
    match held.get(number as usize) {
        Some(Some(proc)) => Some(proc),
        _ => None,
    }
}

/// The first output that one of these processes has.
pub(crate) fn output(held: &[Option<Proc>]) -> Option<&[u8]>
    ensures { MatchOption result (outputs held.now ≡ None) (λ bs. outputs held.now ≡ Some bs.now) }
{
    for proc in held {
        if let Some(proc) = proc {
            let found = proc.store().output();
            if found.is_some() {
                return found;
            }
        }
    }
    None
}
