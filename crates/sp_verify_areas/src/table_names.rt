//! Tables that not exactly one instruction of an area names: a point of rule V1.

ghost use Rattle.std.specs.Prelude.{◌≡◌, ◌+◌, ◌<◌, IfOk, length};
ghost use Rattle.sp_verify_rules.specs.NameRules.{Unnamed};
ghost use Rattle.sp_verify_areas.specs.Alone.{ChildFails};
ghost use Rattle.sp_verify_areas.specs.LeastPlaces.{IsLeast};
ghost use Rattle.sp_verify_areas.specs.Namers.{AreNamers, is_lost, with_namer_of, with_namer};
ghost use Rattle.sp_verify_areas.specs.Owners.{AreOwners};

use crate::have;
use crate::least::{least, place_if};
use crate::owners::{Owner, is_same, table_named};
use crate::placement::instr_of;
use sp_base::{List, Memory};
use sp_code::{ChildTable, Code};

/// Which instructions name a table.
#[derive(Clone, Copy)]
pub(crate) enum Namer {
    /// None does.
    Nothing,
    /// This one alone.
    One(u32),
    /// More than one.
    Several,
}

// By one more instruction that names it.
fn with_namer(w: Namer, p: u32) -> Namer
    ensures { result ≡ with_namer w p }
{
    match w {
        Namer::Nothing => Namer::One(p),
        Namer::One(_) | Namer::Several => Namer::Several,
    }
}

// Notes that an instruction names a table, if there is one.
fn note(namers: &mut List<Namer>, table: u32, p: u32)
    ensures { namers.new ≡ with_namer_of namers.old table p }
{
    let at = table as usize;
    let w = match namers.get(at) {
        None => return,
        Some(w) => *w,
    };
    let _old = namers.replace(at, with_namer(w, p));
}

// Notes which table an instruction names.
fn visit(code: &Code, namers: &mut List<Namer>, p: usize)
    requires there { p < length code.now.instrs }
    requires small { p < 1048576 }
    requires known { AreNamers code.now p namers.old }
    ensures { AreNamers code.now (p + 1) namers.new }
{
    match table_named(instr_of(code, p)) {
        None => {}
        Some(t) => note(namers, t, p as u32),
    }
}

// Whether a table is at fault, by which instructions name it.
fn is_lost(owners: &List<Owner>, w: Namer) -> bool
    ensures { result ≡ is_lost owners.now w }
{
    match w {
        Namer::Nothing => true,
        Namer::One(p) => match owners.get(p as usize) {
            None => true,
            Some(o) => is_same(*o, Owner::Nobody),
        },
        Namer::Several => true,
    }
}

// The entry of the first child, if its table is at fault.
fn first_child(children: &[ChildTable], lost: bool) -> Option<u32>
    ensures { IsLeast (ChildFails (λ ch. lost) children.now 0) result }
{
    match children.first() {
        None => None,
        Some(child) => place_if(lost, child.entry),
    }
}

// The least entry of the first child of a table that is at fault.
fn first_lost(code: &Code, owners: &List<Owner>, namers: &List<Namer>) -> Option<u32>
    requires owners { AreOwners code.now owners.now }
    requires namers { AreNamers code.now (length code.now.instrs) namers.now }
    ensures { IsLeast (Unnamed code.now) result }
{
    let tables = code.parts().forks.items();
    let mut first = None;
    for t in 0..tables.len() {
        let lost = is_lost(owners, namers.items()[t]);
        let here = first_child(tables[t].children.items(), lost);
        first = least(first, here);
    }
    first
}

/// The least entry of the first child of a table that no instruction names, that several name, or that one names which
/// lies in the code of no area. None where there is none. The only other answer is want of memory.
pub fn first_unnamed(code: &Code, owners: &List<Owner>) -> Result<Option<u32>, Memory>
    requires { AreOwners code.now owners.now }
    ensures { IfOk result (λ first. IsLeast (Unnamed code.now) first) }
{
    let parts = code.parts();
    let none = have!(vec![in parts.instrs.alloc(); Namer::Nothing; parts.forks.len()]);
    let mut namers = List::of(none);
    for p in 0..parts.instrs.len() {
        visit(code, &mut namers, p);
    }
    Ok(first_lost(code, owners, &namers))
}
