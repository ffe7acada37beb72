//! Sums of lengths, told up to the greatest `u32`.

ghost use Rattle.std.specs.Prelude.{◌≡◌, ◌+◌};
ghost use Rattle.sp_generate.specs.CappedLength.{capped_length};

/// The sum, or the greatest `u32` where it is greater.
pub fn sum(a: u32, b: u32) -> u32
    ensures { result ≡ capped_length (a + b) }
{
    match a.checked_add(b) {
        Some(n) => n,
        None => u32::MAX,
    }
}

/// A sum with a count of items.
pub fn sum_count(a: u32, count: usize) -> u32
    ensures { result ≡ capped_length (a + count) }
{
    if count < 4_294_967_295 {
        sum(a, count as u32)
    } else {
        u32::MAX
    }
}
