//! What instructions name by what is around them: the level of a call, and variables. Both are points of rule V1.

ghost use Rattle.std.specs.Prelude.{◌≡◌, ◌<◌, Some, false, length, slice_get};
ghost use Rattle.sp_verify_rules.specs.Areas.{Area, on_option};
ghost use Rattle.sp_verify_rules.specs.NameRules.{is_loop_variable, is_plain, is_reference, level_fits};
ghost use Rattle.sp_verify_areas.specs.Blocks.{IsNumbered};
ghost use Rattle.sp_verify_areas.specs.Homes.{AreHomes, found_of};
ghost use Rattle.sp_verify_areas.specs.LeastPlaces.{IsLeast};
ghost use Rattle.sp_verify_areas.specs.WrongNames.{Decides, MisnamesOnly, fits};
ghost use Rattle.sp_verify_areas.specs.Only.{LiesOnlyIn};
ghost use Rattle.sp_verify_areas.specs.Owners.{AreOwners, Owns};

use crate::blocks::Blocks;
use crate::homes::{Found, Homes, Naming};
use crate::levels::is_block_outward;
use crate::owners::Owner;
use crate::placement::{instr_of, owner_at};
use sp_base::List;
use sp_code::{Code, Instr};

fn is_plain(found: Option<Found>) -> bool
    ensures { result ≡ on_option false (found_of found) (λ f. is_plain f.naming) }
{
    match found {
        None => false,
        Some(f) => match f.naming {
            Naming::Plainly => true,
            Naming::Never | Naming::ByReference => false,
        },
    }
}

fn is_reference(found: Option<Found>) -> bool
    ensures { result ≡ on_option false (found_of found) (λ f. is_reference f.naming) }
{
    match found {
        None => false,
        Some(f) => match f.naming {
            Naming::Plainly | Naming::Never => false,
            Naming::ByReference => true,
        },
    }
}

fn is_loop_variable(found: Option<Found>) -> bool
    ensures { result ≡ is_loop_variable (found_of found) }
{
    match found {
        None => false,
        Some(f) => match f.naming {
            Naming::Plainly => f.cells == 1,
            Naming::Never | Naming::ByReference => false,
        },
    }
}

// Whether the level of a call is that of its block's parent.
fn level_fits(code: &Code, blocks: &Blocks, homes: &Homes, p: u32, block: u32, up: u32) -> bool
    requires blocks { IsNumbered blocks.now.first code.now.layouts }
    requires homes { AreHomes code.now homes.now }
    requires there { p < length code.now.instrs }
    ensures { (a : Area) → LiesOnlyIn code.now p a → result ≡ level_fits code.now a (Some (Instr.Call block up)) }
{
    let parent = match blocks.find(&code.parts().layouts, block) {
        None => return false,
        Some(l) => l.parent,
    };
    match parent {
        None => false,
        Some(parent) => is_block_outward(code, homes, p, up, parent),
    }
}

// Whether an instruction names what it may, by what is around it.
fn fits(code: &Code, blocks: &Blocks, homes: &Homes, p: u32, instr: Instr) -> bool
    requires blocks { IsNumbered blocks.now.first code.now.layouts }
    requires homes { AreHomes code.now homes.now }
    requires there { p < length code.now.instrs }
    ensures { (a : Area) → LiesOnlyIn code.now p a → result ≡ fits code.now a (Some instr) }
{
    match instr {
        Instr::Call { block, up } => level_fits(code, blocks, homes, p, block, up),
        Instr::Addr { up, var } => is_plain(homes.variable(code, p, up, var)),
        Instr::Deref { up, var } => is_reference(homes.variable(code, p, up, var)),
        Instr::Forup { var, to: _ }
        | Instr::Fordown { var, to: _ }
        | Instr::Nextup { var, to: _ }
        | Instr::Nextdown { var, to: _ } => is_loop_variable(homes.variable(code, p, 0, var)),
        _ => true,
    }
}

// Whether it names what it may not, where its owner is one area alone.
fn misnames(code: &Code, blocks: &Blocks, homes: &Homes, p: u32, instr: Instr, owner: Owner) -> bool
    requires blocks { IsNumbered blocks.now.first code.now.layouts }
    requires homes { AreHomes code.now homes.now }
    requires there { p < length code.now.instrs }
    requires instr { slice_get code.now.instrs p ≡ Some instr }
    requires owner { Owns code.now p owner }
    ensures { Decides result (MisnamesOnly code.now p) }
{
    match owner {
        Owner::Nobody => false,
        Owner::Block(_) => !fits(code, blocks, homes, p, instr),
        Owner::Child { .. } => !fits(code, blocks, homes, p, instr),
        Owner::Several => false,
    }
}

/// The least instruction, of those that lie in the code of one area alone, that calls a block at another level than
/// that of the block's parent, or that names a variable which is not there or may not be named so: by `addr` the input,
/// the output or a reference formal, by `deref` another variable, by a `for` instruction one that `addr` may not name
/// or that has other than one cell. None where there is none.
pub fn first_out_of_range(
    code: &Code,
    blocks: &Blocks,
    owners: &List<Owner>,
    homes: &Homes,
) -> Option<u32>
    requires blocks { IsNumbered blocks.now.first code.now.layouts }
    requires owners { AreOwners code.now owners.now }
    requires homes { AreHomes code.now homes.now }
    ensures { IsLeast (MisnamesOnly code.now) result }
{
    let count = code.parts().instrs.len();
    for p in 0..count {
        let instr = instr_of(code, p);
        let owner = owner_at(owners, p);
        if misnames(code, blocks, homes, p as u32, instr, owner) {
            return Some(p as u32);
        }
    }
    None
}
