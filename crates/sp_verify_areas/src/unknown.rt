//! The variables that forks hand to their children, where nothing around the fork has one: a point of rule V1.

ghost use Rattle.std.specs.Prelude.{◌≡◌, ◌+◌, ◌<◌, ◌⊎◌, ◌++◌, true, IfOk, length};
ghost use Rattle.sp_verify_rules.specs.Areas.{Area, homes as homes_of};
ghost use Rattle.sp_verify_rules.specs.NameRules.{has_variable, is_in, some_has};
ghost use Rattle.sp_verify_areas.specs.Homes.{AreHomes};
ghost use Rattle.sp_verify_areas.specs.LeastPlaces.{IsLeast, Upto};
ghost use Rattle.sp_verify_areas.specs.WrongNames.{Decides};
ghost use Rattle.sp_verify_areas.specs.Only.{LiesOnlyIn};
ghost use Rattle.sp_verify_areas.specs.Owners.{AreOwners, Owns};
ghost use Rattle.sp_verify_areas.specs.Tree.{IsFrame, home_of};
ghost use Rattle.sp_verify_areas.specs.Unknown.{ChildUnknown, HasUnknown, IsBelow, IsBetter, OneUnknown, UnknownBy};
ghost use Rattle.sp_verify_areas.specs.Unknown.{UnknownOnly};

use crate::have;
use crate::hints::{Hint, Hints, find_hints};
use crate::homes::Homes;
use crate::owners::{Owner, table_number};
use crate::placement::owner_at;
use crate::tree::{Frame, node_at};
use sp_base::{List, Memory};
use sp_code::{ChildTable, Code, Layout};

fn is_in(x: u32, xs: &[u32]) -> bool
    ensures { result ≡ is_in x xs.now }
{
    for y in xs {
        if x == *y {
            return true;
        }
    }
    false
}

// Whether a frame has a variable.
fn has_variable(layouts: &List<Layout>, frame: Frame, x: u32) -> bool
    ensures { IsFrame layouts.now frame → result ≡ has_variable layouts.now x (home_of frame) }
{
    match frame {
        Frame::Block { block: _, place } => match layouts.get(place as usize) {
            None => false,
            Some(l) => is_in(x, l.variables.items()),
        },
        Frame::Index(y) => x == y,
    }
}

// Whether a frame has it at a place.
fn has_at(layouts: &List<Layout>, frame: Frame, place: usize, x: u32) -> bool
    ensures { IsFrame layouts.now frame → result ≡ true → has_variable layouts.now x (home_of frame) ≡ true }
{
    match frame {
        Frame::Block { block: _, place: j } => match layouts.get(j as usize) {
            None => false,
            Some(l) => match l.variables.get(place) {
                None => false,
                Some(y) => x == *y,
            },
        },
        Frame::Index(y) => x == y,
    }
}

// Whether a variable is where a hint says, around an instruction of this depth.
fn is_there(code: &Code, homes: &Homes, hint: Hint, depth: usize, q: u32, x: u32) -> bool
    requires homes { AreHomes code.now homes.now }
    requires there { q < length code.now.instrs }
    ensures { (a : Area) → LiesOnlyIn code.now q a → result ≡ true
        → some_has code.now.layouts x (homes_of code.now a) ≡ true }
{
    if depth < hint.depth {
        return false;
    }
    match homes.frame(q, depth - hint.depth) {
        None => false,
        Some(frame) => has_at(&code.parts().layouts, frame, hint.place, x),
    }
}

// Whether a variable is where one of its last hints says.
fn is_near(code: &Code, homes: &Homes, hints: &Hints, q: u32, x: u32) -> bool
    requires homes { AreHomes code.now homes.now }
    requires there { q < length code.now.instrs }
    ensures { (a : Area) → LiesOnlyIn code.now q a → result ≡ true
        → some_has code.now.layouts x (homes_of code.now a) ≡ true }
{
    let depth = hints.depth(node_at(&homes.at, q as usize));
    let mut next = hints.last(x);
    for _try in 0..16 {
        let hint = match hints.hints.items.get(next as usize) {
            None => return false,
            Some(hint) => *hint,
        };
        if is_there(code, homes, hint, depth, q, x) {
            return true;
        }
        next = hint.before;
    }
    false
}

// Whether one of the frames around an instruction has a variable: looks at each.
fn is_around(code: &Code, homes: &Homes, q: u32, x: u32) -> bool
    requires homes { AreHomes code.now homes.now }
    requires there { q < length code.now.instrs }
    ensures { (a : Area) → LiesOnlyIn code.now q a → result ≡ some_has code.now.layouts x (homes_of code.now a) }
{
    let layouts = &code.parts().layouts;
    for up in 0..homes.nodes.len() {
        match homes.frame(q, up) {
            None => return false,
            Some(frame) => {
                if has_variable(layouts, frame, x) {
                    return true;
                }
            }
        }
    }
    false
}

// Whether a variable other than the input and the output is unknown around an instruction: looks first where it is
// likely to be.
fn is_unknown(code: &Code, homes: &Homes, hints: &Hints, q: u32, x: u32) -> bool
    requires homes { AreHomes code.now homes.now }
    requires there { q < length code.now.instrs }
    ensures { (a : Area) → LiesOnlyIn code.now q a
        → Decides result (OneUnknown code.now.layouts x (homes_of code.now a)) }
{
    if x < 2 || is_near(code, homes, hints, q, x) {
        return false;
    }
    !is_around(code, homes, q, x)
}

// Whether one of these variables, other than the input and the output, is unknown around an instruction.
fn has_unknown(code: &Code, homes: &Homes, hints: &Hints, q: u32, xs: &[u32]) -> bool
    requires homes { AreHomes code.now homes.now }
    requires there { q < length code.now.instrs }
    ensures { (a : Area) → LiesOnlyIn code.now q a
        → Decides result (HasUnknown code.now.layouts xs.now (homes_of code.now a)) }
{
    for x in xs {
        if is_unknown(code, homes, hints, q, *x) {
            return true;
        }
    }
    false
}

// Whether one that a child gets is.
fn child_unknown(code: &Code, homes: &Homes, hints: &Hints, q: u32, child: &ChildTable) -> bool
    requires homes { AreHomes code.now homes.now }
    requires there { q < length code.now.instrs }
    ensures { (a : Area) → LiesOnlyIn code.now q a
        → Decides result (HasUnknown code.now.layouts (child.now.moved ++ child.now.shared) (homes_of code.now a)) }
{
    if has_unknown(code, homes, hints, q, child.moved.items()) {
        return true;
    }
    has_unknown(code, homes, hints, q, child.shared.items())
}

fn is_below(first: Option<u32>, p: u32) -> bool
    ensures { Decides result (IsBelow first p) }
{
    match first {
        None => true,
        Some(n) => p < n,
    }
}

// The first one with that of a child, if it is before those so far.
fn after_child(
    code: &Code,
    homes: &Homes,
    hints: &Hints,
    q: u32,
    child: &ChildTable,
    first: Option<u32>,
) -> Option<u32>
    requires homes { AreHomes code.now homes.now }
    requires there { q < length code.now.instrs }
    ensures { (a : Area) → LiesOnlyIn code.now q a → IsBetter first child.now.entry
        (HasUnknown code.now.layouts (child.now.moved ++ child.now.shared) (homes_of code.now a)) result }
{
    if !is_below(first, child.entry) {
        return first;
    }
    if child_unknown(code, homes, hints, q, child) {
        Some(child.entry)
    } else {
        first
    }
}

// The first one with those of these children.
fn after_children(
    code: &Code,
    homes: &Homes,
    hints: &Hints,
    q: u32,
    children: &[ChildTable],
    before: Option<u32>,
) -> Option<u32>
    requires homes { AreHomes code.now homes.now }
    requires there { q < length code.now.instrs }
    requires before { IsLeast (Upto (UnknownBy code.now) q) before }
    ensures { (a : Area) → LiesOnlyIn code.now q a → IsLeast (λ p. Upto (UnknownBy code.now) q p
        ⊎ Upto (ChildUnknown code.now.layouts (homes_of code.now a) children.now) (length children.now) p) result }
{
    let mut first = before;
    for child in children {
        first = after_child(code, homes, hints, q, child, first);
    }
    first
}

// The first one with those that an instruction of one area alone hands on.
fn after_one(code: &Code, homes: &Homes, hints: &Hints, q: u32, before: Option<u32>) -> Option<u32>
    requires homes { AreHomes code.now homes.now }
    requires there { q < length code.now.instrs }
    requires one { (a : Area) × LiesOnlyIn code.now q a }
    requires before { IsLeast (Upto (UnknownBy code.now) q) before }
    ensures { IsLeast (Upto (UnknownBy code.now) (q + 1)) result }
{
    let t = match table_number(code, q) {
        None => return before,
        Some(t) => t,
    };
    let table = match code.parts().forks.get(t as usize) {
        None => return before,
        Some(table) => table,
    };
    after_children(code, homes, hints, q, table.children.items(), before)
}

// The same, of an instruction by its owner.
fn after(
    code: &Code,
    homes: &Homes,
    hints: &Hints,
    owner: Owner,
    q: u32,
    before: Option<u32>,
) -> Option<u32>
    requires homes { AreHomes code.now homes.now }
    requires there { q < length code.now.instrs }
    requires owner { Owns code.now q owner }
    requires before { IsLeast (Upto (UnknownBy code.now) q) before }
    ensures { IsLeast (Upto (UnknownBy code.now) (q + 1)) result }
{
    match owner {
        Owner::Nobody => before,
        Owner::Block(_) => after_one(code, homes, hints, q, before),
        Owner::Child { .. } => after_one(code, homes, hints, q, before),
        Owner::Several => before,
    }
}

/// The least entry of a child that is handed a variable, other than the input and the output, which nothing around its
/// fork has, of the forks that lie in the code of one area alone. None where there is none. The only other answer is
/// want of memory.
pub fn first_unknown(
    code: &Code,
    owners: &List<Owner>,
    homes: &Homes,
) -> Result<Option<u32>, Memory>
    requires owners { AreOwners code.now owners.now }
    requires homes { AreHomes code.now homes.now }
    ensures { IfOk result (λ first. IsLeast (UnknownOnly code.now) first) }
{
    let hints = have!(find_hints(code, &homes.nodes));
    let count = code.parts().instrs.len();
    let mut first = None;
    for q in 0..count {
        let owner = owner_at(owners, q);
        first = after(code, homes, &hints, owner, q as u32, first);
    }
    Ok(first)
}
