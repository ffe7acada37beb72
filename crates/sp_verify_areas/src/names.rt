//! Instructions that name what is not there.

ghost use Rattle.std.specs.Prelude.{◌≡◌, Some, false};
ghost use Rattle.sp_verify_rules.specs.Areas.{instr_at};
ghost use Rattle.sp_verify_areas.specs.Blocks.{IsNumbered};
ghost use Rattle.sp_verify_areas.specs.LeastPlaces.{IsLeast};
ghost use Rattle.sp_verify_rules.specs.NameRules.{names_there};

use crate::blocks::Blocks;
use sp_code::{Code, Instr, Parts};

// Whether what the instruction names is there.
fn names_there(parts: &Parts, blocks: &Blocks, instr: Instr) -> bool
    requires { IsNumbered blocks.now.first parts.now.layouts }
    ensures { result ≡ names_there parts.now (Some instr) }
{
    let count = parts.instrs.len();
    match instr {
        Instr::Jump(to)
        | Instr::Jumpf(to)
        | Instr::Casej { value: _, to }
        | Instr::Forup { var: _, to }
        | Instr::Fordown { var: _, to }
        | Instr::Nextup { var: _, to }
        | Instr::Nextdown { var: _, to } => (to as usize) < count,
        Instr::Call { block, up: _ } => blocks.has(block),
        Instr::WriteText(k) | Instr::WritewText(k) => parts.texts.get(k as usize).is_some(),
        Instr::Fork(t) | Instr::Forall(t) => parts.forks.get(t as usize).is_some(),
        _ => true,
    }
}

/// The least instruction that names what is not there.
pub(crate) fn first_misnaming(code: &Code, blocks: &Blocks) -> Option<u32>
    requires { IsNumbered blocks.now.first code.now.layouts }
    ensures { IsLeast (λ p. names_there code.now (instr_at code.now p) ≡ false) result }
{
    let parts = code.parts();
    for (p, instr) in parts.instrs.items().iter().enumerate() {
        if !names_there(parts, blocks, *instr) {
            return Some(p as u32);
        }
    }
    None
}
