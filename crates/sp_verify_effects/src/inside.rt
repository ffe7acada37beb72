//! Blocks that are called inside themselves, for rule V7.

ghost use Rattle.std.specs.Prelude.{◌≡◌, ℕ, ◌+◌, ◌<◌, None, Some, IfOk, length};
ghost use Rattle.sp_verify_rules.specs.Areas.{Area, homes as homes_of, instr_at};
ghost use Rattle.sp_verify_rules.specs.KeepsCodeRules.{KeepsCodeRules};
ghost use Rattle.sp_verify_areas.specs.Only.{LiesOnlyIn};
ghost use Rattle.sp_verify_shapes.specs.ReachRules.{reached_at};
ghost use Rattle.sp_verify_effects.specs.PassContexts.{IsPassContext};
ghost use Rattle.sp_verify_effects.specs.Turns.{AreInside, inside_of, is_inside};

use crate::have;
use crate::pass_context::PassContext;
use sp_base::{List, Memory};
use sp_code::Instr;
use sp_verify_areas::flags::{mark, no_flags};
use sp_verify_areas::levels::is_block_outward;
use sp_verify_shapes::reach::reached;

/// Whether a block that is called from so many levels inside the one around it is called inside itself.
pub(crate) fn is_inside(g: &PassContext, p: u32, block: u32, up: u32) -> bool
    requires known { IsPassContext g.now }
    requires there { p < length g.now.code.now.instrs }
    ensures { (a : Area) → LiesOnlyIn g.now.code.now p a
        → result ≡ is_inside (homes_of g.now.code.now a) block up }
{
    0 < up && is_block_outward(g.code, g.homes, p, up - 1, block)
}

// The place of the layout of a block that an instruction calls inside itself.
fn inside_of(g: &PassContext, p: u32, instr: Instr) -> Option<u32>
    requires known { IsPassContext g.now }
    requires there { p < length g.now.code.now.instrs }
    ensures { (a : Area) → LiesOnlyIn g.now.code.now p a
        → result ≡ inside_of (homes_of g.now.code.now a) g.now.blocks.now.first (Some instr) }
{
    match instr {
        Instr::Call { block, up } => {
            if is_inside(g, p, block, up) {
                g.blocks.place(block)
            } else {
                None
            }
        }
        _ => None,
    }
}

// The place of the layout of a block that an instruction which is reached calls inside itself.
fn place_at(g: &PassContext, p: u32) -> Option<u32>
    requires known { IsPassContext g.now }
    requires there { p < length g.now.code.now.instrs }
    ensures come { (a : Area) (n : ℕ) → LiesOnlyIn g.now.code.now p a → reached_at g.now.shapes.now p ≡ Some n
        → result ≡ inside_of (homes_of g.now.code.now a) g.now.blocks.now.first (instr_at g.now.code.now p) }
    ensures none { reached_at g.now.shapes.now p ≡ None → result ≡ None }
{
    match reached(g.shapes, p) {
        None => None,
        Some(_) => match g.code.instr(p) {
            None => None,
            Some(instr) => inside_of(g, p, instr),
        },
    }
}

// Sets the flag of the layout of a block that an instruction calls inside itself, if it calls one.
fn note(g: &PassContext, flags: &mut List<bool>, p: u32)
    requires known { IsPassContext g.now }
    requires keeps { KeepsCodeRules g.now.code.now }
    requires there { p < length g.now.code.now.instrs }
    requires flags { AreInside g.now.code.now g.now.blocks.now.first g.now.shapes.now p flags.old }
    ensures { AreInside g.now.code.now g.now.blocks.now.first g.now.shapes.now (p + 1) flags.new }
{
    match place_at(g, p) {
        None => (),
        Some(place) => mark(flags, place as usize),
    }
}

/// For each layout, whether its block is called inside itself: in its own code, or in that of a block inside it.
pub(crate) fn called_inside(g: &PassContext) -> Result<List<bool>, Memory>
    requires known { IsPassContext g.now }
    requires keeps { KeepsCodeRules g.now.code.now }
    ensures { IfOk result (λ flags. AreInside g.now.code.now g.now.blocks.now.first g.now.shapes.now
        (length g.now.code.now.instrs) flags) }
{
    let parts = g.code.parts();
    let count = parts.instrs.len();
    let mut flags = have!(no_flags(parts.instrs.alloc(), parts.layouts.len()));
    for p in 0..count {
        note(g, &mut flags, p as u32);
    }
    Ok(flags)
}
