//! The workers and the limits of a run where no option is given. A caller that has no words for them, as `gen`, takes
//! the limits from here.

ghost use Rattle.std.specs.Prelude.{◌≡◌};
ghost use Rattle.sp_words.specs.Ranges.{default_limits};

use sp_base::Limits;

/// The workers of a run whose words give no number.
pub(crate) const DEFAULT_WORKERS: u32 = 4;

/// The limits of a `run` whose words give none.
pub fn default_limits() -> Limits
    ensures { result ≡ default_limits }
{
    Limits {
        ticks: 10_000_000,
        depth: 1_000,
        cells: 4_194_304,
        processes: 100_000,
        channels: 100_000,
        entries: 1_000_000,
        output: 16_777_216,
    }
}
