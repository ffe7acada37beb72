//! What is wrong in an instruction, a layout or a table alone, wherever it stands.

ghost use Rattle.std.specs.Prelude.{IfOk};
ghost use Rattle.sp_verify_areas.specs.Alone.{BreaksAlone};
ghost use Rattle.sp_verify_areas.specs.Blocks.{IsNumbered};
ghost use Rattle.sp_verify_areas.specs.LeastPlaces.{IsLeast};

use crate::blocks::Blocks;
use crate::have;
use crate::layouts::first_layout;
use crate::least::{least, place_if};
use crate::names::first_misnaming;
use crate::tables::{first_in, flags};
use sp_base::Memory;
use sp_code::Code;

/// The least instruction at which code names what is not there, or a layout or a table is wrong in itself; None where
/// nothing is. Wrong are: a jump, call, fork or text whose target is not there; an entry that is not there; a program
/// that is not there, or has a parent, formals or an answer; sizes that do not fit the variables, formals and answer;
/// a child of a fork with an index, and a forall with other than one child with an index. An entry past the code
/// counts by its number. The only other answer is want of memory.
pub fn first_wrong_alone(code: &Code, blocks: &Blocks) -> Result<Option<u32>, Memory>
    requires { IsNumbered blocks.now.first code.now.layouts }
    ensures { IfOk result (λ first. IsLeast (BreaksAlone code.now) first) }
{
    let parts = code.parts();
    let alloc = parts.instrs.alloc();
    let instrs = parts.instrs.items();
    let layouts = parts.layouts.items();
    let tables = parts.forks.items();
    let forked = have!(flags(alloc, false, instrs, tables.len()));
    let foralled = have!(flags(alloc, true, instrs, tables.len()));
    let named = first_misnaming(code, blocks);
    let program = place_if(!blocks.has(0), 0);
    let layout = first_layout(layouts, instrs.len());
    let child = first_in(tables, instrs.len(), &forked, &foralled);
    Ok(least(least(named, program), least(layout, child)))
}
