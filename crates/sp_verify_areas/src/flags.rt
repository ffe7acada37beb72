//! Flags by their numbers.

ghost use Rattle.std.specs.Prelude.{◌≡◌, IfOk, false, replicate};
ghost use Rattle.sp_verify_areas.specs.Alone.{Marks, flag_at};

use crate::have;
use sp_base::{List, Memory};
use std::alloc::Global;

/// So many flags, none of which is set. The only other answer is want of memory.
pub fn no_flags(alloc: Global, count: usize) -> Result<List<bool>, Memory>
    ensures { IfOk result (λ flags. flags ≡ replicate count false) }
{
    Ok(List::of(have!(vec![in alloc; false; count])))
}

/// Whether the flag of this number is there and set.
pub fn flag_at(flags: &List<bool>, number: usize) -> bool
    ensures { result ≡ flag_at flags.now number }
{
    match flags.get(number) {
        None => false,
        Some(flag) => *flag,
    }
}

/// Sets the flag of this number, if it is there.
pub fn mark(flags: &mut List<bool>, number: usize)
    ensures { Marks flags.old flags.new number }
{
    if number < flags.len() {
        let _old = flags.replace(number, true);
    }
}
