//! Instructions that stand where they may not: in two areas, going on past the last instruction, or ending what they
//! may not end.

ghost use Rattle.std.specs.Prelude.{◌≡◌, ◌<◌, Some, length, slice_get};
ghost use Rattle.sp_verify_areas.specs.LeastPlaces.{IsLeast};
ghost use Rattle.sp_verify_areas.specs.Owners.{AreOwners};
ghost use Rattle.sp_verify_areas.specs.Placement.{IsMisplaced, ends_as, fails_placed, leads, runs_past};

use crate::owners::Owner;
use crate::ways::ways_on;
use sp_base::List;
use sp_code::{Code, Instr};

// Whether what an instruction ends may end so.
fn ends_as(o: Owner, instr: Instr) -> bool
    ensures { result ≡ ends_as o (Some instr) }
{
    match o {
        Owner::Block(b) => match instr {
            Instr::Return => b != 0,
            Instr::End => b == 0,
            _ => true,
        },
        Owner::Child { .. } => match instr {
            Instr::Return => false,
            _ => true,
        },
        Owner::Nobody => true,
        Owner::Several => true,
    }
}

fn leads(way: Option<u32>, q: u32) -> bool
    ensures { result ≡ leads way q }
{
    match way {
        None => false,
        Some(r) => q == r,
    }
}

// Whether one goes on past so many instructions.
fn runs_past(count: usize, p: u32, instr: Instr) -> bool
    requires { p < 1048576 }
    ensures { result ≡ runs_past count p (Some instr) }
{
    let ways = ways_on(p, instr);
    let on = leads(ways.first, p + 1) || leads(ways.second, p + 1);
    on && count <= p as usize + 1
}

// Whether an instruction may not stand where it does.
fn fails(count: usize, p: u32, instr: Instr, o: Owner) -> bool
    requires { p < 1048576 }
    ensures { result ≡ fails_placed count p (Some instr) o }
{
    match o {
        Owner::Nobody => false,
        Owner::Block(_) => runs_past(count, p, instr) || !ends_as(o, instr),
        Owner::Child { .. } => runs_past(count, p, instr) || !ends_as(o, instr),
        Owner::Several => true,
    }
}

pub(crate) fn instr_of(code: &Code, p: usize) -> Instr
    requires { p < length code.now.instrs }
    ensures { slice_get code.now.instrs p ≡ Some result }
{
    code.parts().instrs.items()[p]
}

pub(crate) fn owner_at(owners: &List<Owner>, p: usize) -> Owner
    requires { p < length owners.now }
    ensures { slice_get owners.now p ≡ Some result }
{
    owners.items()[p]
}

/// The least instruction that lies in the code of two areas, from which one goes on past the last instruction, or
/// that ends what it may not: `return` in the program or in a child, `end` in another block. None where there is
/// none.
pub fn first_misplaced(code: &Code, owners: &List<Owner>) -> Option<u32>
    requires { AreOwners code.now owners.now }
    ensures { IsLeast (IsMisplaced code.now) result }
{
    let count = code.parts().instrs.len();
    for p in 0..count {
        let instr = instr_of(code, p);
        let o = owner_at(owners, p);
        if fails(count, p as u32, instr, o) {
            return Some(p as u32);
        }
    }
    None
}
