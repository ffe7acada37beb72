//! The first of several answers: the less of two places at which something is broken.

ghost use Rattle.std.specs.Prelude.{◌≡◌, true};
ghost use Rattle.sp_verify_areas.specs.LeastPlaces.{IsLeast, earlier_of};

/// Of two answers the one that comes first.
pub fn least(a: Option<u32>, b: Option<u32>) -> Option<u32>
    ensures { result ≡ earlier_of a b }
{
    match a {
        None => b,
        Some(m) => match b {
            None => a,
            Some(n) => { if n < m { b } else { a } }
        },
    }
}

/// The place, if something is broken there.
pub fn place_if(broken: bool, place: u32) -> Option<u32>
    ensures { IsLeast (λ p. (place ≡ p) × (broken ≡ true)) result }
{
    if broken { Some(place) } else { None }
}
