//! Where jumps lead (`landing`).

ghost use Rattle.std.specs.Prelude.{◌≡◌, slice_get};
ghost use Rattle.sp_lines.specs.JumpTargets.{jump_at, landing};

use sp_code::{Code, Instr};

/// Where the instruction with this number leads, if it is a jump.
fn jump_at(code: &Code, at: u32) -> Option<u32>
    ensures { result ≡ jump_at (slice_get code.now.instrs at) }
{
    match code.instr(at) {
        Some(Instr::Jump(to)) => Some(to),
        _ => None,
    }
}

/// Where a process is shown that goes on at the instruction with this number: at that instruction, or, since a jump is
/// of a statement that is left, where the jumps from there lead. So many jumps as there are instructions are followed
/// at most.
pub fn landing(code: &Code, at: u32) -> u32
    ensures { result ≡ landing code.now.instrs at }
{
    let mut at = at;
    let mut left = code.parts().instrs.len();
    while left > 0 {
        let Some(to) = jump_at(code, at) else {
            return at;
        };
        at = to;
        left -= 1;
    }
    at
}
