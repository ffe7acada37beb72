//! Areas of code that do something. A block of which no instruction stores or loads anything, starts a child or calls a
//! block does nothing to the variables that calls pass to it: no effect goes on from there.

ghost use Rattle.std.specs.Prelude.{◌≡◌, ◌+◌, ◌<◌, List, [], IfOk, Some, false, length, true};
ghost use Rattle.sp_code.specs.declared.code.Parts.{Parts};
ghost use Rattle.sp_verify_effects.specs.Acts.{Acts, AreActs, AreActsOf};
ghost use Rattle.sp_verify_effects.specs.PassContexts.{IsPassContext};
ghost use Rattle.sp_verify_effects.specs.declared.places.Place.TheVariants as place;
ghost use Rattle.sp_verify_rules.specs.Areas.{Area};
ghost use Rattle.sp_verify_rules.specs.Shapes.{Shape};
ghost use Rattle.sp_verify_rules.specs.Touches.{loaded_by, stored_by};

use crate::areas::{area_at, table_of};
use crate::have;
use crate::pass_context::PassContext;
use crate::places::{Place, loaded_place, stored_place};
use sp_base::{List, Memory};
use sp_code::{Code, Instr};
use sp_verify_areas::flags::{mark, no_flags};
use sp_verify_shapes::repeats::called_block;

/// Whether no variables are there.
pub(crate) fn is_nowhere(at: Place) -> bool
    ensures { result ≡ true → at ≡ place.Nowhere }
{
    match at {
        Place::Nowhere => true,
        _ => false,
    }
}

// Whether an instruction may store or load something.
fn touches(instr: Instr) -> bool
    ensures { result ≡ false → (c : Parts) (a : Area) (ss : List Shape) → (stored_by c a (Some instr) ss ≡ [])
        × (loaded_by c a (Some instr) ss ≡ []) }
{
    if is_nowhere(stored_place(instr)) {
        if is_nowhere(loaded_place(instr)) {
            return false;
        }
    }
    true
}

// Whether the instruction at p may do something.
fn acts(code: &Code, p: u32) -> bool
    ensures { result ≡ false → (a : Area) → Acts code.now a p → ⊥ }
{
    let table = table_of(code, p);
    let block = called_block(code, p);
    match table {
        Some(_) => true,
        None => match block {
            Some(_) => true,
            None => match code.instr(p) {
                None => false,
                Some(instr) => touches(instr),
            },
        },
    }
}

// Sets the flag of the area of the instruction at p, if that may do something.
fn put_act(g: &PassContext, flags: &mut List<bool>, p: u32)
    requires known { IsPassContext g.now }
    requires there { p < length g.now.code.now.instrs }
    requires size { length flags.old ≡ length g.now.code.now.instrs }
    requires before { AreActsOf g.now.code.now p flags.old }
    ensures size { length flags.new ≡ length g.now.code.now.instrs }
    ensures before { AreActsOf g.now.code.now (p + 1) flags.new }
{
    match area_at(g, p) {
        None => (),
        Some(entry) => {
            if acts(g.code, p) {
                mark(flags, entry as usize);
            }
        }
    }
}

/// Of each instruction, whether an area begins there that may do something.
pub(crate) fn acts_of(g: &PassContext) -> Result<List<bool>, Memory>
    requires known { IsPassContext g.now }
    ensures { IfOk result (AreActs g.now.code.now) }
{
    let instrs = &g.code.parts().instrs;
    let count = instrs.len();
    let mut flags = have!(no_flags(instrs.alloc(), count));
    for p in 0..count {
        put_act(g, &mut flags, p as u32);
    }
    Ok(flags)
}
