//! The shapes that ways bring to each instruction: rule V2.

ghost use Rattle.std.specs.Prelude.{◌≡◌, ℕ, ◌≤◌, IfOk, Some, true, length, slice_get};
ghost use Rattle.sp_verify_areas.specs.Blocks.{IsNumbered};
ghost use Rattle.sp_verify_areas.specs.Homes.{AreHomes};
ghost use Rattle.sp_verify_areas.specs.LeastPlaces.{IsLeast};
ghost use Rattle.sp_verify_areas.specs.Owners.{AreOwners};
ghost use Rattle.sp_verify_rules.specs.NameRules.{BreaksV1};
ghost use Rattle.sp_verify_shapes.specs.Asks.{AreAsked};
ghost use Rattle.sp_verify_shapes.specs.Search.{IsDoneSearch, KeepsV1};
ghost use Rattle.sp_verify_shapes.specs.Shapes.{IsOutcome};

use crate::asks::{Ask, asked_of};
use crate::begin::begin;
use crate::have;
use crate::search::{Search, follow};
use crate::stacks::Stacks;
use sp_base::{List, Memory};
use sp_code::Code;
use sp_verify_areas::blocks::Blocks;
use sp_verify_areas::homes::Homes;
use sp_verify_areas::owners::Owner;

/// The shapes of the operands that each instruction is reached with: for each instruction the number of its list in
/// `stacks`, or nothing where no way comes to it. For calls, what is kept of the formals of each layout.
#[derive(Drop)]
pub struct Shapes {
    pub stacks: Stacks,
    pub at: List<Option<u32>>,
    pub asked: List<List<Ask>>,
}

/// What following all ways shows.
#[derive(Drop)]
pub enum Outcome {
    /// The least instruction at which V2 is broken.
    Broken(u32),
    /// It is broken nowhere, and these are the shapes.
    Kept(Shapes),
}

// The least instruction with a mark.
fn first_marked(broken: &List<bool>) -> Option<u32>
    requires { length broken.now ≤ 1048576 }
    ensures { IsLeast (λ p. slice_get broken.now p ≡ Some true) result }
{
    for (p, marked) in broken.items().iter().enumerate() {
        if *marked {
            return Some(p as u32);
        }
    }
    None
}

// What is found where nothing is left to be done.
fn conclude(code: &Code, search: Search, asked: List<List<Ask>>) -> Outcome
    requires kept { KeepsV1 code.now }
    requires done { IsDoneSearch code.now search }
    requires asked { AreAsked code.now.layouts asked }
    ensures { IsOutcome code.now result }
{
    // (code is small enough that each mark has a number)
    let _parts = code.parts();
    let first = first_marked(&search.broken);
    match first {
        Some(p) => Outcome::Broken(p),
        None => {
            let Search {
                stacks,
                at,
                broken: _,
                frontier: _,
                arrivals: _,
            } = search;
            Outcome::Kept(Shapes { stacks, at, asked })
        }
    }
}

/// Follows all ways, the shorter ones first: V2 decided, with the shapes where it is kept. It wants V1 kept. The only
/// other answer is want of memory.
pub fn shapes_of(
    code: &Code,
    blocks: &Blocks,
    owners: &List<Owner>,
    homes: &Homes,
) -> Result<Outcome, Memory>
    requires kept { (p : ℕ) → BreaksV1 code.now p → ⊥ }
    requires blocks { IsNumbered blocks.now.first code.now.layouts }
    requires owners { AreOwners code.now owners.now }
    requires homes { AreHomes code.now homes.now }
    ensures { IfOk result (λ outcome. IsOutcome code.now outcome) }
{
    let mut search = have!(begin(code, blocks, owners));
    have!(follow(code, blocks, homes, &mut search));
    let layouts = &code.parts().layouts;
    let asked = have!(asked_of(layouts.alloc(), layouts.items()));
    Ok(conclude(code, search, asked))
}
