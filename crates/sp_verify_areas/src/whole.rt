//! Rule V1 as a whole: the least of what its passes find.

ghost use Rattle.std.specs.Prelude.{IfOk};
ghost use Rattle.sp_verify_rules.specs.NameRules.{BreaksV1, OrphanBlock};
ghost use Rattle.sp_verify_areas.specs.Blocks.{IsNumbered};
ghost use Rattle.sp_verify_areas.specs.Homes.{AreHomes};
ghost use Rattle.sp_verify_areas.specs.LeastPlaces.{IsLeast};
ghost use Rattle.sp_verify_areas.specs.Owners.{AreOwners};

use crate::blocks::Blocks;
use crate::declarations::first_twice;
use crate::have;
use crate::homes::Homes;
use crate::least::least;
use crate::owners::Owner;
use crate::parts::first_wrong_alone;
use crate::placement::first_misplaced;
use crate::ranges::first_out_of_range;
use crate::table_names::first_unnamed;
use crate::unknown::first_unknown;
use sp_base::{List, Memory};
use sp_code::Code;

/// The least instruction at which rule V1 is broken; None where it is nowhere. A layout or a table alone counts by its
/// entry, or that of its first child at fault. The owners say whose code each instruction is, the homes what is around
/// it, and `orphan_block` is what `first_orphan_block` finds. The only other answer is want of memory.
pub fn first_v1(
    code: &Code,
    blocks: &Blocks,
    owners: &List<Owner>,
    homes: &Homes,
    orphan_block: Option<u32>,
) -> Result<Option<u32>, Memory>
    requires blocks { IsNumbered blocks.now.first code.now.layouts }
    requires owners { AreOwners code.now owners.now }
    requires homes { AreHomes code.now homes.now }
    requires orphan_block { IsLeast (OrphanBlock code.now) orphan_block }
    ensures { IfOk result (λ first. IsLeast (BreaksV1 code.now) first) }
{
    // Where an instruction lies in two areas, some passes look no further, and one finds that.
    let alone = have!(first_wrong_alone(code, blocks));
    let twice = have!(first_twice(code));
    let unnamed = have!(first_unnamed(code, owners));
    let unknown = have!(first_unknown(code, owners, homes));
    let range = first_out_of_range(code, blocks, owners, homes);
    let misplaced = first_misplaced(code, owners);
    let layouts = least(least(alone, orphan_block), least(twice, unnamed));
    Ok(least(layouts, least(least(unknown, range), misplaced)))
}
