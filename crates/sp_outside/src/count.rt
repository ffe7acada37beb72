//! Counters of faults, which stay at their last value.

ghost use Rattle.std.specs.Prelude.{◌≡◌, ◌≤◌};
ghost use Rattle.sp_outside.specs.Counts.{Rose, next_count};

/// One fault more. The count stays at its last value.
pub fn raised(count: u64) -> u64
    ensures value { result ≡ next_count count }
    ensures rose { Rose count result }
    ensures counted { count ≤ result }
{
    count.saturating_add(1)
}
