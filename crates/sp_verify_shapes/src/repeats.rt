//! Calls that say nothing new: an earlier call of the same area calls the same block with the same list of shapes. The
//! passes that go over the operands of calls leave them out, so that many calls with many operands take no time for
//! each pair.

ghost use Rattle.std.specs.Prelude.{◌≡◌, ℕ, IfOk, Some, true, slice_get};
ghost use Rattle.sp_verify_rules.specs.Areas.{instr_at};
ghost use Rattle.sp_verify_shapes.specs.Repeats.{AreRepeats, Repeats, called_block};

use crate::have;
use crate::reach::reached;
use crate::shapes::Shapes;
use sp_base::{List, Memory};
use sp_code::{Code, Instr};
use sp_verify_areas::owners::{Owner, is_same};
use std::collections::BTreeMap;

/// The block that the instruction at p calls.
pub fn called_block(code: &Code, p: u32) -> Option<u32>
    ensures { result ≡ called_block (instr_at code.now p) }
{
    match code.instr(p) {
        Some(Instr::Call { block, up: _ }) => Some(block),
        _ => None,
    }
}

// Whether both are there and the same.
fn are_same(one: Option<u32>, other: Option<u32>) -> bool
    ensures { result ≡ true → (n : ℕ) × (one ≡ Some n) × (other ≡ Some n) }
{
    match one {
        None => false,
        Some(n) => match other {
            None => false,
            Some(m) => n == m,
        },
    }
}

// Whether two instructions have one owner.
fn have_one_owner(owners: &List<Owner>, p: u32, q: u32) -> bool
    ensures { result ≡ true → slice_get owners.now p ≡ slice_get owners.now q }
{
    match owners.get(p as usize) {
        None => false,
        Some(o) => match owners.get(q as usize) {
            None => false,
            Some(w) => is_same(*o, *w),
        },
    }
}

// Whether the call at p repeats the one at q.
fn is_repeat(code: &Code, owners: &List<Owner>, shapes: &Shapes, p: u32, q: u32) -> bool
    ensures { result ≡ true → Repeats code.now owners.now shapes.now p q }
{
    if q >= p {
        return false;
    }
    if !are_same(called_block(code, p), called_block(code, q)) {
        return false;
    }
    if !are_same(reached(shapes, p), reached(shapes, q)) {
        return false;
    }
    have_one_owner(owners, p, q)
}

// No child has this number.
const NO_CHILD: usize = 4_294_967_295;

// What calls are known by: the block, the list and the owner.
type Key = (u32, u32, u32, usize);

// Whether the instruction at p is a call that repeats an earlier one. If none is known that it may repeat, it is known
// from now on; whether it does repeat one is seen afterwards.
fn repeats(
    code: &Code,
    owners: &List<Owner>,
    shapes: &Shapes,
    known: &mut BTreeMap<Key, u32>,
    p: u32,
) -> Result<bool, Memory>
    ensures { IfOk result (λ b. b ≡ true → (q : ℕ) × Repeats code.now owners.now shapes.now p q) }
{
    let (Some(block), Some(list)) = (called_block(code, p), reached(shapes, p)) else {
        return Ok(false);
    };
    let key = match owners.get(p as usize) {
        None => return Ok(false),
        Some(Owner::Child { at, child }) => (block, list, *at, *child),
        Some(Owner::Block(b)) => (block, list, *b, NO_CHILD),
        Some(_) => (block, list, 0, NO_CHILD),
    };
    match known.get(&key).copied() {
        None => {
            have!(known.insert(key, p));
            Ok(false)
        }
        Some(q) => Ok(is_repeat(code, owners, shapes, p, q)),
    }
}

/// Of each instruction, whether it is a call that repeats an earlier one. The only other answer is want of memory.
pub fn repeats_of(code: &Code, owners: &List<Owner>, shapes: &Shapes) -> Result<List<bool>, Memory>
    ensures { IfOk result (λ flags. AreRepeats code.now owners.now shapes.now flags) }
{
    let instrs = &code.parts().instrs;
    let mut flags = List::new(instrs.alloc());
    let mut known = BTreeMap::new(instrs.alloc());
    for p in 0..instrs.len() {
        let flag = have!(repeats(code, owners, shapes, &mut known, p as u32));
        have!(flags.push(flag));
    }
    Ok(flags)
}
