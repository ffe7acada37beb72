//! The search for what is around each instruction: it makes a tree of the blocks and the children of forks, and gives
//! each instruction a node of it.

ghost use Rattle.std.specs.Prelude.{IfOk};
ghost use Rattle.sp_verify_areas.specs.Blocks.{IsNumbered};
ghost use Rattle.sp_verify_areas.specs.Grown.{HaveAllBlockNodes};
ghost use Rattle.sp_verify_areas.specs.Homes.{AreHomes};
ghost use Rattle.sp_verify_areas.specs.Owners.{AreOwners};

use crate::all_blocks::filled;
use crate::blocks::Blocks;
use crate::child_nodes::{hang_all, nodes_of};
use crate::have;
use crate::homes::Homes;
use crate::owners::Owner;
use crate::tree::{Grown, no_nodes};
use sp_base::{List, Memory};
use sp_code::Code;

/// What is around each instruction, by the layouts that lead to block 0. The only other answer is want of memory.
pub fn homes(
    code: &Code,
    blocks: &Blocks,
    owners: &List<Owner>,
    led: Grown,
) -> Result<Homes, Memory>
    requires blocks { IsNumbered blocks.now.first code.now.layouts }
    requires led { HaveAllBlockNodes code.now.layouts led }
    requires owners { AreOwners code.now owners.now }
    ensures { IfOk result (λ homes. AreHomes code.now homes) }
{
    let Grown {
        nodes,
        of: of_blocks,
    } = have!(filled(code, blocks, led));
    let parts = code.parts();
    let of = have!(no_nodes(parts.instrs.alloc(), parts.forks.len()));
    let mut grown = Grown { nodes, of };
    have!(hang_all(code, blocks, owners, &of_blocks, &mut grown));
    let at = have!(nodes_of(code, blocks, owners, &of_blocks, &grown));
    let Grown { nodes, of: _ } = grown;
    Ok(Homes { nodes, at })
}
