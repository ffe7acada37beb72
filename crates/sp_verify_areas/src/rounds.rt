//! Rule V9: ways of an instruction back to itself with no tick and no call. The numbers that `components` guesses are
//! checked by a loop, and then spare nearly all searches.

ghost use Rattle.std.specs.Prelude.{◌≡◌, ◌↔◌, ◌<◌, ℕ, IfOk, IsTrue, MatchOption, Some, false, length, true};
ghost use Rattle.sp_verify_rules.specs.Areas.{instr_at};
ghost use Rattle.sp_verify_rules.specs.Reach.{IsMember};
ghost use Rattle.sp_verify_rules.specs.Rules.{BreaksV9, free_nexts};
ghost use Rattle.sp_verify_areas.specs.Alone.{flag_at};
ghost use Rattle.sp_verify_areas.specs.LeastPlaces.{IsLeast};
ghost use Rattle.sp_verify_areas.specs.Owners.{AreOwners};
ghost use Rattle.sp_verify_areas.specs.Rounds.{AreFlagged, AreFlagsReached, Falls, FallsFrom, HasFreePath};
ghost use Rattle.sp_verify_areas.specs.Rounds.{HasGoneOn, RiseNowhere, Widens, with_flag};

use crate::components::{components, has_owner, number_at};
use crate::flags::{flag_at, no_flags};
use crate::have;
use crate::owners::Owner;
use crate::ways::free_ways;
use sp_base::{List, Memory, Writer};
use sp_code::Code;

// ---- numbers that fall

// Whether the number of an instruction falls or stays on the way to another, and falls from those before the limit.
fn falls_to(numbers: &List<u32>, limit: usize, p: u32, to: Option<u32>) -> bool
    ensures { result ≡ true → (q : ℕ) → to ≡ Some q → Falls numbers.now limit p q }
{
    match to {
        None => true,
        Some(q) => {
            let here = number_at(numbers, p);
            let there = number_at(numbers, q);
            there < here || (there == here && limit <= p as usize)
        }
    }
}

fn falls_from(code: &Code, numbers: &List<u32>, limit: usize, p: u32) -> bool
    ensures { result ≡ true → FallsFrom code.now numbers.now limit p }
{
    let ways = free_ways(code, p);
    falls_to(numbers, limit, p, ways.first) && falls_to(numbers, limit, p, ways.second)
}

// Whether the numbers rise on no way.
fn never_rise(code: &Code, owners: &List<Owner>, numbers: &List<u32>) -> bool
    requires { AreOwners code.now owners.now }
    ensures { result ≡ true → RiseNowhere code.now numbers.now }
{
    let count = code.parts().instrs.len();
    for p in 0..count {
        if has_owner(owners, p as u32) && !falls_from(code, numbers, 0, p as u32) {
            return false;
        }
    }
    true
}

// ---- a search from an instruction

// An instruction to which a way from another leads, and that has no flag.
fn open_way(flags: &List<bool>, to: Option<u32>) -> Option<u32>
    ensures { MatchOption result ((q : ℕ) → to ≡ Some q → q < length flags.now → flag_at flags.now q ≡ true)
        (λ q. (to ≡ Some q) × (q < length flags.now) × (flag_at flags.now q ≡ false)) }
{
    match to {
        None => None,
        Some(q) => {
            if (q as usize) < flags.len() && !flag_at(flags, q as usize) {
                Some(q)
            } else {
                None
            }
        }
    }
}

fn open_way_from(code: &Code, flags: &List<bool>, p: u32) -> Option<u32>
    ensures { MatchOption result (AreFlagged code.now flags.now p)
        (λ q. IsMember q (free_nexts p (instr_at code.now p)) × (q < length flags.now)
        × (flag_at flags.now q ≡ false)) }
{
    let ways = free_ways(code, p);
    match open_way(flags, ways.first) {
        None => open_way(flags, ways.second),
        Some(q) => Some(q),
    }
}

// An instruction without a flag to which the search leads.
fn open_end(code: &Code, start: u32, flags: &List<bool>) -> Option<u32>
    requires { AreFlagsReached code.now start flags.now }
    ensures { MatchOption result (HasGoneOn code.now start flags.now)
        (λ q. HasFreePath code.now start q × (q < length flags.now) × (flag_at flags.now q ≡ false)) }
{
    let count = code.parts().instrs.len();
    for p in 0..count {
        if p as u32 == start || flag_at(flags, p) {
            match open_way_from(code, flags, p as u32) {
                None => {}
                Some(q) => return Some(q),
            }
        }
    }
    None
}

// Flags the instruction at the end of a way, if there is one. What is new waits to be gone on from.
fn flag(flags: &mut List<bool>, waiting: &mut Writer<u32>, to: Option<u32>)
    ensures { flags.new ≡ with_flag flags.old to }
{
    let q = match to {
        None => return,
        Some(q) => q,
    };
    if flags.len() <= q as usize {
        return;
    }
    if flag_at(flags, q as usize) {
        return;
    }
    let _old = flags.replace(q as usize, true);
    waiting.put(q);
}

// Goes on from an instruction that has a flag.
fn visit(code: &Code, flags: &mut List<bool>, waiting: &mut Writer<u32>, p: u32)
    ensures { (s : ℕ) → AreFlagsReached code.now s flags.old → Widens code.now s flags.old flags.new }
{
    if !flag_at(flags, p as usize) {
        return;
    }
    let ways = free_ways(code, p);
    flag(flags, waiting, ways.first);
    flag(flags, waiting, ways.second);
}

// Goes on from all that wait.
fn hurry(code: &Code, flags: &mut List<bool>, waiting: &mut Writer<u32>)
    ensures { (s : ℕ) → AreFlagsReached code.now s flags.old → Widens code.now s flags.old flags.new }
{
    for _step in 0..2_097_152 {
        let p = match waiting.items.pop() {
            None => return,
            Some(p) => p,
        };
        visit(code, flags, waiting, p);
    }
}

// What an instruction leads to in one or more steps.
fn reach(code: &Code, start: u32) -> Result<List<bool>, Memory>
    ensures { IfOk result (λ flags. AreFlagsReached code.now start flags × HasGoneOn code.now start flags) }
{
    let instrs = &code.parts().instrs;
    let alloc = instrs.alloc();
    let mut flags = have!(no_flags(alloc, instrs.len()));
    let mut waiting = Writer::new(alloc);
    'rounds: loop {
        let q = match open_end(code, start, &flags) {
            None => return Ok(flags),
            Some(q) => q,
        };
        flag(&mut flags, &mut waiting, Some(q));
        hurry(code, &mut flags, &mut waiting);
        if waiting.is_lost {
            return Err(Memory);
        }
    }
}

// Whether V9 is broken at an instruction: not where its number falls on each way, and else a search says it.
fn breaks(code: &Code, owners: &List<Owner>, numbers: &List<u32>, p: u32) -> Result<bool, Memory>
    requires owners { AreOwners code.now owners.now }
    requires numbers { RiseNowhere code.now numbers.now }
    ensures { IfOk result (λ b. IsTrue b ↔ BreaksV9 code.now p) }
{
    if !has_owner(owners, p) {
        return Ok(false);
    }
    if falls_from(code, numbers, p as usize + 1, p) {
        return Ok(false);
    }
    let flags = have!(reach(code, p));
    Ok(flag_at(&flags, p as usize))
}

// The least instruction at which V9 is broken.
fn first_broken(
    code: &Code,
    owners: &List<Owner>,
    numbers: &List<u32>,
) -> Result<Option<u32>, Memory>
    requires owners { AreOwners code.now owners.now }
    requires numbers { RiseNowhere code.now numbers.now }
    ensures { IfOk result (λ first. IsLeast (BreaksV9 code.now) first) }
{
    let count = code.parts().instrs.len();
    for p in 0..count {
        let broken = have!(breaks(code, owners, numbers, p as u32));
        if broken {
            return Ok(Some(p as u32));
        }
    }
    Ok(None)
}

/// The least instruction that lies in the code of a block or a child, and on a way back to itself that passes no `tick`
/// and no `call`; None where there is none. The owners say whose code each instruction is. The only error is want of
/// memory.
pub fn first_round(code: &Code, owners: &List<Owner>) -> Result<Option<u32>, Memory>
    requires { AreOwners code.now owners.now }
    ensures { IfOk result (λ first. IsLeast (BreaksV9 code.now) first) }
{
    // By the numbers of components one search is enough: the number falls at each instruction before the first one.
    // They are a guess. Without numbers each instruction is searched from.
    let mut numbers = have!(components(code, owners));
    if !never_rise(code, owners, &numbers) {
        numbers.truncate(0);
    }
    first_broken(code, owners, &numbers)
}
