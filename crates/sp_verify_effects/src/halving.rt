//! Which of many places a search for the first breach asks about next. Mostly the first breach that is found is the
//! least one, and asking about all places before it shows that; in turn with halving few rounds are enough.

ghost use Rattle.std.specs.Prelude.{◌≡◌};

use sp_base::List;

/// A breach, the numbers of the places among which an earlier breach may be, and whether all of these are asked about
/// next, or half of them.
#[derive(Clone, Copy)]
pub(crate) struct Halving {
    pub first: u32,
    pub low: usize,
    pub high: usize,
    pub is_whole: bool,
}

// How many places are less than p.
fn count_before(places: &List<u32>, p: u32) -> usize {
    let mut count = 0_usize;
    for place in places.items() {
        if *place < p {
            count = count.saturating_add(1);
        }
    }
    count
}

/// At first all places before the breach are asked about.
pub(crate) fn halving_of(places: &List<u32>, first: u32) -> Halving
    ensures { result.first ≡ first }
{
    Halving {
        first,
        low: 0,
        high: count_before(places, first),
        is_whole: true,
    }
}

/// The number of the last place that is asked about, and a bound right after it: of all, or of the first half.
pub(crate) fn last_asked(places: &List<u32>, halving: Halving) -> (usize, Option<u32>) {
    let number = if halving.is_whole {
        halving.high.saturating_sub(1)
    } else {
        (halving.low / 2).saturating_add(halving.high / 2)
    };
    match places.get(number) {
        None => (number, None),
        Some(place) => (number, Some(place.saturating_add(1))),
    }
}

/// No breach is at the places up to the one of this number.
pub(crate) fn later(halving: Halving, number: usize) -> Halving
    ensures { result.first ≡ halving.first }
{
    Halving {
        first: halving.first,
        low: number.saturating_add(1),
        high: halving.high,
        is_whole: !halving.is_whole,
    }
}

/// There is an earlier breach.
pub(crate) fn earlier(places: &List<u32>, halving: Halving, first: u32) -> Halving
    ensures { result.first ≡ first }
{
    Halving {
        first,
        low: halving.low,
        high: count_before(places, first),
        is_whole: !halving.is_whole,
    }
}
