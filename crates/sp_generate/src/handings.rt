//! What the processes of a fork are handed.

ghost use Rattle.std.specs.Prelude.{◌≡◌, Some, IfOk};
ghost use Rattle.sp_code.specs.TreeCode.{but_index};
ghost use Rattle.sp_generate.specs.Handings.{members, is_shared, moved_of, shared_of};

use crate::lists::list_of;
use crate::numbers::sum;
use sp_base::{List, Memory, Writer};
use sp_varsets::{MOST_WORDS, Sets, VarSet};
use std::alloc::Global;

/// The variables of a set, in order of their numbers.
fn members(alloc: Global, set: &VarSet) -> Result<List<u32>, Memory>
    ensures { IfOk result (λ xs. xs ≡ members set.now) }
{
    if set.words() > MOST_WORDS {
        return Err(Memory);
    }
    let mut out = Writer::new(alloc);
    let mut from = 0;
    while let Some(x) = set.next(from) {
        out.put(x);
        from = sum(x, 1)?;
    }
    list_of(out)
}

/// The variables that a process statement may change, by the statement's number.
pub fn moved(alloc: Global, sets: &Sets, number: u32) -> Result<List<u32>, Memory>
    ensures { IfOk result (λ xs. xs ≡ moved_of sets.now number) }
{
    members(alloc, sets.targets(number))
}

fn is_shared(sets: &Sets, number: u32, x: u32) -> bool
    ensures { result ≡ is_shared sets.now number x }
{
    !sets.targets(number).contains(x)
}

/// The variables that it only reads.
pub fn shared(alloc: Global, sets: &Sets, number: u32) -> Result<List<u32>, Memory>
    ensures { IfOk result (λ xs. xs ≡ shared_of sets.now number) }
{
    let seen = members(alloc, sets.expressions(number))?;
    let mut out = Writer::new(alloc);
    for x in seen.items() {
        if is_shared(sets, number, *x) {
            out.put(*x);
        }
    }
    list_of(out)
}

/// These variables without the index of a forall, which its processes have of their own.
pub fn but_index(alloc: Global, index: u32, xs: &List<u32>) -> Result<List<u32>, Memory>
    ensures { IfOk result (λ ys. ys ≡ but_index (Some index) xs.now) }
{
    let mut out = Writer::new(alloc);
    for y in xs.items() {
        if *y != index {
            out.put(*y);
        }
    }
    list_of(out)
}
