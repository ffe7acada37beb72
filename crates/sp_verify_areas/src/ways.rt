//! The instructions to which the code goes on from an instruction.

ghost use Rattle.std.specs.Prelude.{◌≡◌, ◌<◌, Some};
ghost use Rattle.sp_verify_areas.specs.Owners.{list_of_ways};
ghost use Rattle.sp_verify_rules.specs.Areas.{instr_at};
ghost use Rattle.sp_verify_rules.specs.Reach.{nexts};
ghost use Rattle.sp_verify_rules.specs.Rules.{free_nexts};

use sp_code::{Code, Instr};

/// Up to two ways on.
#[derive(Clone, Copy)]
pub(crate) struct Ways {
    pub first: Option<u32>,
    pub second: Option<u32>,
}

/// The ways on from the instruction that stands at p.
pub(crate) fn ways_on(p: u32, instr: Instr) -> Ways
    requires { p < 1048576 }
    ensures { list_of_ways result.first result.second ≡ nexts p (Some instr) }
{
    match instr {
        Instr::Jump(to) => Ways {
            first: Some(to),
            second: None,
        },
        Instr::Jumpf(to)
        | Instr::Casej { value: _, to }
        | Instr::Forup { var: _, to }
        | Instr::Fordown { var: _, to } => Ways {
            first: Some(p + 1),
            second: Some(to),
        },
        Instr::Nextup { var: _, to } | Instr::Nextdown { var: _, to } => Ways {
            first: Some(to),
            second: Some(p + 1),
        },
        Instr::Return | Instr::End => Ways {
            first: None,
            second: None,
        },
        _ => Ways {
            first: Some(p + 1),
            second: None,
        },
    }
}

/// The ways on from the instruction at p that pass no `tick` and no `call`.
pub(crate) fn free_ways(code: &Code, p: u32) -> Ways
    ensures { list_of_ways result.first result.second ≡ free_nexts p (instr_at code.now p) }
{
    match code.parts().instrs.get(p as usize) {
        None | Some(Instr::Tick) | Some(Instr::Call { .. }) => Ways {
            first: None,
            second: None,
        },
        Some(instr) => ways_on(p, *instr),
    }
}
