//! What has a line of its own in the text of the sets, and the order of lines.

ghost use Rattle.std.specs.Prelude.{◌≡◌};
ghost use Rattle.sp_varsets.specs.TextOrders.{line_cmp, part_number, place_cmp};

use sp_base::Place;
use std::cmp::Ordering;

/// What has a line of its own: a process statement of a parallel statement, by its number from 0, or the element
/// statement of a forall. `at` is the place of the parallel statement or of the forall, `statement` the number of the
/// process statement or of the element statement.
#[derive(Clone, Copy)]
pub struct SetsLine {
    pub at: Place,
    pub part: Option<u32>,
    pub statement: u32,
}

/// Which place comes first.
pub(crate) fn place_cmp(a: Place, b: Place) -> Ordering
    ensures { result ≡ place_cmp a b }
{
    a.line.cmp(&b.line).then(a.column.cmp(&b.column))
}

fn part_number(part: Option<u32>) -> u64
    ensures { result ≡ part_number part }
{
    match part {
        None => 0,
        Some(k) => u64::from(k) + 1,
    }
}

/// Which line comes first.
pub(crate) fn line_cmp(a: &SetsLine, b: &SetsLine) -> Ordering
    ensures { result ≡ line_cmp a.now b.now }
{
    let parts = part_number(a.part).cmp(&part_number(b.part));
    place_cmp(a.at, b.at)
        .then(parts)
        .then(a.statement.cmp(&b.statement))
}
