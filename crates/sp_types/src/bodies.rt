//! The number of each block's first statement: numbers go by the order of the text.

ghost use Rattle.std.specs.Prelude.{◌≡◌, map};
ghost use Rattle.sp_tree.specs.Carried.{Keeps};
ghost use Rattle.sp_tree.specs.NamedOf.{block_of};
ghost use Rattle.sp_types.specs.TypeWalk.{bodies, is_earlier, count_before};

use crate::statement_counts::{statement_counted, sum};
use sp_base::{List, Place};
use sp_tree::{NamedBlock, Walk};
use std::alloc::Global;

/// For each block, the place of its statement part and how many statements it has.
pub fn bodies(alloc: Global, walk: &mut Walk, blocks: &[NamedBlock]) -> List<(Place, u32)>
    ensures { Keeps walk.old walk.new walk.old.first (result ≡ bodies (map block_of blocks.now)) }
{
    let mut out = Vec::new(alloc);
    for b in blocks {
        let n = statement_counted(walk, &b.body, 0);
        walk.push(&mut out, (b.body.at, n));
    }
    List::of(out)
}

fn earlier(a: Place, b: Place) -> bool
    ensures { result ≡ is_earlier a b }
{
    a.line < b.line || (a.line == b.line && a.column < b.column)
}

/// How many statements stand in the parts that begin before a place.
pub fn count_before(walk: &mut Walk, at: Place, bodies: &[(Place, u32)]) -> u32
    ensures { Keeps walk.old walk.new walk.old.first (result ≡ count_before 0 at bodies.now) }
{
    let mut k = 0;
    for b in bodies {
        if earlier(b.0, at) {
            k = sum(walk, k, b.1);
        }
    }
    k
}
