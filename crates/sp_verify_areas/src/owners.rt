//! Whose code each instruction is: that of no area, of one block or child alone, or of several. A search hands owners
//! on along `ways` and tables, until a sweep finds nothing new.

ghost use Rattle.std.specs.Prelude.{◌≡◌, ℕ, ◌+◌, ◌<◌, Some, IfOk, OnOk, length, slice_get};
ghost use Rattle.sp_code.specs.declared.code.ChildTable.{ChildTable};
ghost use Rattle.sp_verify_rules.specs.Areas.{instr_at, table_named};
ghost use Rattle.sp_verify_areas.specs.Blocks.{IsNumbered};
ghost use Rattle.sp_verify_rules.specs.NameRules.{Names};
ghost use Rattle.sp_verify_areas.specs.Owners.{AreBegun, AreOwners, AreTrue, HandsOwner, IsAllSpread};
ghost use Rattle.sp_verify_areas.specs.Owners.{IsHanded};
ghost use Rattle.sp_verify_areas.specs.Owners.{IsOwner};
ghost use Rattle.sp_verify_areas.specs.Owners.{IsSpread, IsSpreadBy, IsTrueOf, KnowsOwner, KnowsAt, Propagates};
ghost use Rattle.sp_verify_areas.specs.Owners.{as_child};
ghost use Rattle.sp_verify_areas.specs.Owners.{is_same, common_owner, of_child};

use crate::blocks::Blocks;
use crate::have;
use crate::ways::ways_on;
use sp_base::{List, Memory, Writer};
use sp_code::{ChildTable, Code, Instr};

/// Whose code an instruction is: the area in whose code it lies, by the area's last step.
#[derive(Clone, Copy)]
pub enum Owner {
    /// It lies in the code of no area.
    Nobody,
    /// In that of the block of this number alone.
    Block(u32),
    /// In that of one child alone: the one of this number, from 0, of the fork or forall at an instruction.
    Child { at: u32, child: usize },
    /// In that of more than one area.
    Several,
}

/// Whether two owners are the same.
pub fn is_same(w: Owner, o: Owner) -> bool
    ensures { result ≡ is_same w o }
{
    match w {
        Owner::Nobody => match o {
            Owner::Nobody => true,
            _ => false,
        },
        Owner::Block(b) => match o {
            Owner::Block(d) => b == d,
            _ => false,
        },
        Owner::Child { at, child } => match o {
            Owner::Child { at: q, child: j } => at == q && child == j,
            _ => false,
        },
        Owner::Several => match o {
            Owner::Several => true,
            _ => false,
        },
    }
}

// Of two owners, what is known by both.
fn join(w: Owner, o: Owner) -> Owner
    ensures { result ≡ common_owner w o }
{
    match w {
        Owner::Nobody => o,
        Owner::Block(_) | Owner::Child { .. } => { if is_same(w, o) { w } else { Owner::Several } }
        Owner::Several => Owner::Several,
    }
}

// The owner of the first child that the fork at an instruction makes, by the owner of the fork.
fn as_child(at: u32, o: Owner) -> Owner
    ensures { result ≡ as_child at o }
{
    match o {
        Owner::Nobody => Owner::Nobody,
        Owner::Block(_) | Owner::Child { .. } => Owner::Child { at, child: 0 },
        Owner::Several => Owner::Several,
    }
}

// The owner of another child of the same table.
fn of_child(child: usize, o: Owner) -> Owner
    ensures { result ≡ of_child child o }
{
    match o {
        Owner::Nobody => Owner::Nobody,
        Owner::Block(b) => Owner::Block(b),
        Owner::Child { at, child: _ } => Owner::Child { at, child },
        Owner::Several => Owner::Several,
    }
}

// Hands an owner on, and says whether that was new.
fn give(owners: &mut List<Owner>, waiting: &mut Writer<usize>, x: usize, o: Owner) -> bool
    ensures { HandsOwner owners.old owners.new x o result }
{
    let w = match owners.get(x) {
        None => return false,
        Some(w) => *w,
    };
    let both = join(w, o);
    if is_same(w, both) {
        return false;
    }
    let _old = owners.replace(x, both);
    waiting.put(x);
    true
}

/// The number of the table that an instruction names.
pub fn table_named(instr: Instr) -> Option<u32>
    ensures { result ≡ table_named (Some instr) }
{
    match instr {
        Instr::Fork(t) => Some(t),
        Instr::Forall(t) => Some(t),
        _ => None,
    }
}

/// That which the instruction at p names, if there is one.
pub fn table_number(code: &Code, p: u32) -> Option<u32>
    ensures { result ≡ table_named (instr_at code.now p) }
{
    match code.instr(p) {
        None => None,
        Some(instr) => table_named(instr),
    }
}

// Hands an owner to the instruction at the end of a way, if there is one.
fn hand(
    code: &Code,
    owners: &mut List<Owner>,
    waiting: &mut Writer<usize>,
    to: Option<u32>,
    o: Owner,
) -> bool
    requires just { AreTrue code.now owners.old }
    requires some { IsOwner o }
    requires owner { (q : ℕ) → to ≡ Some q → q < length code.now.instrs → IsTrueOf code.now q o }
    ensures { Propagates code.now owners.old owners.new (KnowsAt code.now to o) result }
{
    match to {
        None => false,
        Some(q) => {
            if (q as usize) < code.parts().instrs.len() {
                give(owners, waiting, q as usize, o)
            } else {
                false
            }
        }
    }
}

// Hands an owner to a table, as that of its first child.
fn hand_table(
    code: &Code,
    owners: &mut List<Owner>,
    waiting: &mut Writer<usize>,
    p: u32,
    instr: Instr,
    o: Owner,
) -> bool
    requires just { AreTrue code.now owners.old }
    requires there { instr_at code.now p ≡ Some instr }
    requires some { IsOwner o }
    requires owner { (p < length code.now.instrs) × IsTrueOf code.now p o }
    ensures { Propagates code.now owners.old owners.new (λ os. (t : ℕ) → Names code.now t p
        → t < length code.now.forks → KnowsOwner os (length code.now.instrs + t) (as_child p o)) result }
{
    match table_named(instr) {
        None => false,
        Some(t) => {
            let parts = code.parts();
            if (t as usize) < parts.forks.len() {
                let x = parts.instrs.len() + t as usize;
                give(owners, waiting, x, as_child(p, o))
            } else {
                false
            }
        }
    }
}

// Hands the owner of an instruction on.
fn visit(code: &Code, owners: &mut List<Owner>, waiting: &mut Writer<usize>, p: u32) -> bool
    requires just { AreTrue code.now owners.old }
    requires there { p < length code.now.instrs }
    requires small { p < 1048576 }
    ensures { Propagates code.now owners.old owners.new (IsSpread code.now p) result }
{
    let o = match owners.get(p as usize) {
        None => return false,
        Some(o) => *o,
    };
    let instr = match code.instr(p) {
        None => return false,
        Some(instr) => instr,
    };
    if is_same(o, Owner::Nobody) {
        return false;
    }
    let ways = ways_on(p, instr);
    let first = hand(code, owners, waiting, ways.first, o);
    let second = hand(code, owners, waiting, ways.second, o);
    let third = hand_table(code, owners, waiting, p, instr, o);
    first | second | third
}

// Hands the owner of a table on to its children.
fn visit_children(
    code: &Code,
    owners: &mut List<Owner>,
    waiting: &mut Writer<usize>,
    children: &[ChildTable],
    o: Owner,
) -> bool
    requires just { AreTrue code.now owners.old }
    requires some { IsOwner o }
    requires owner { (k : ℕ) (ch : ChildTable) → slice_get children.now k ≡ Some ch
        → ch.entry < length code.now.instrs → IsTrueOf code.now ch.entry (of_child k o) }
    ensures { Propagates code.now owners.old owners.new (IsHanded code.now o children.now (length children.now))
        result }
{
    let mut changed = false;
    for (k, child) in children.iter().enumerate() {
        changed |= hand(code, owners, waiting, Some(child.entry), of_child(k, o));
    }
    changed
}

fn visit_table(code: &Code, owners: &mut List<Owner>, waiting: &mut Writer<usize>, t: usize) -> bool
    requires just { AreTrue code.now owners.old }
    requires there { t < length code.now.forks }
    ensures { Propagates code.now owners.old owners.new (IsSpreadBy code.now t) result }
{
    let parts = code.parts();
    let o = match owners.get(parts.instrs.len() + t) {
        None => return false,
        Some(o) => *o,
    };
    let table = match parts.forks.get(t) {
        None => return false,
        Some(table) => table,
    };
    if is_same(o, Owner::Nobody) {
        return false;
    }
    visit_children(code, owners, waiting, table.children.items(), o)
}

// Hands each block to its entry.
fn begin(
    code: &Code,
    blocks: &Blocks,
    owners: &mut List<Owner>,
    waiting: &mut Writer<usize>,
) -> bool
    requires just { AreTrue code.now owners.old }
    requires blocks { IsNumbered blocks.now.first code.now.layouts }
    ensures { Propagates code.now owners.old owners.new (AreBegun code.now (length code.now.layouts)) result }
{
    let layouts = &code.parts().layouts;
    let mut changed = false;
    for l in layouts.items() {
        let entry = blocks.entry_of(layouts, l.block);
        changed |= hand(code, owners, waiting, entry, Owner::Block(l.block));
    }
    changed
}

// Visits everything once, and says whether anything was new.
fn sweep(
    code: &Code,
    blocks: &Blocks,
    owners: &mut List<Owner>,
    waiting: &mut Writer<usize>,
) -> bool
    requires just { AreTrue code.now owners.old }
    requires blocks { IsNumbered blocks.now.first code.now.layouts }
    ensures { Propagates code.now owners.old owners.new (IsAllSpread code.now) result }
{
    let parts = code.parts();
    let mut changed = begin(code, blocks, owners, waiting);
    for p in 0..parts.instrs.len() {
        changed |= visit(code, owners, waiting, p as u32);
    }
    for t in 0..parts.forks.len() {
        changed |= visit_table(code, owners, waiting, t);
    }
    changed
}

// Visits one instruction or table.
#[tactic(auto, using(crate::proofs::OwnerSteps::any))]
fn visit_one(code: &Code, owners: &mut List<Owner>, waiting: &mut Writer<usize>, x: usize) -> bool
    requires just { AreTrue code.now owners.old }
    ensures { Propagates code.now owners.old owners.new (λ os. Unit {0}) result }
{
    let parts = code.parts();
    let count = parts.instrs.len();
    if x < count {
        visit(code, owners, waiting, x as u32)
    } else if x - count < parts.forks.len() {
        visit_table(code, owners, waiting, x - count)
    } else {
        false
    }
}

// Visits what waits, which is what was handed something new: so a sweep after it finds little or nothing.
fn hurry(code: &Code, owners: &mut List<Owner>, waiting: &mut Writer<usize>) -> bool
    requires just { AreTrue code.now owners.old }
    ensures { Propagates code.now owners.old owners.new (λ os. Unit {0}) result }
{
    let mut changed = false;
    for _step in 0..8_388_608 {
        let x = match waiting.items.pop() {
            None => return changed,
            Some(x) => x,
        };
        changed |= visit_one(code, owners, waiting, x);
    }
    changed
}

// Goes on until nothing is left to be handed on.
#[tactic(auto, using(crate::proofs::OwnerSteps::room_falls, crate::proofs::OwnerSteps::closed_now))]
fn search(code: &Code, blocks: &Blocks, owners: &mut List<Owner>) -> Result<(), Memory>
    requires just { AreTrue code.now owners.old }
    requires blocks { IsNumbered blocks.now.first code.now.layouts }
    ensures { OnOk result (AreTrue code.now owners.new × IsAllSpread code.now owners.new) }
{
    let mut waiting = Writer::new(owners.alloc());
    'sweeps: loop {
        let found = sweep(code, blocks, owners, &mut waiting);
        if waiting.is_lost {
            return Err(Memory);
        }
        if !found {
            return Ok(());
        }
        let _later = hurry(code, owners, &mut waiting);
    }
}

/// Whose code each instruction is, for every code. The only other answer is want of memory.
pub fn owners(code: &Code, blocks: &Blocks) -> Result<List<Owner>, Memory>
    requires { IsNumbered blocks.now.first code.now.layouts }
    ensures { IfOk result (λ owners. AreOwners code.now owners) }
{
    let parts = code.parts();
    let alloc = parts.instrs.alloc();
    let count = parts.instrs.len();
    let nobody = have!(vec![in alloc; Owner::Nobody; count + parts.forks.len()]);
    let mut owners = List::of(nobody);
    have!(search(code, blocks, &mut owners));
    owners.truncate(count);
    Ok(owners)
}
