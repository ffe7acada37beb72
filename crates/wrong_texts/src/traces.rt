//! The texts of `trace` and `where`.

ghost use Rattle.std.specs.Prelude.{◌≡◌, IfOk};
ghost use Rattle.sp_code.specs.Sound.{HasDistinctBlocks};
ghost use Rattle.sp_journal.specs.Births.{IsNameable};
ghost use Rattle.sp_kernel.specs.Kernels.{system_of};
ghost use Rattle.sp_lines.specs.EntryPlaces.{lasts_after};
ghost use Rattle.sp_replay.specs.FollowInvariant.{HoldsAllReady};
ghost use Rattle.sp_replay.specs.TraceAnswers.{never};
ghost use Rattle.sp_where.specs.KnownOf.{known_by};
ghost use Rattle.sp_where.specs.States.{where_text};
ghost use Rattle.sp_where.specs.Traces.{trace_text};

use sp_base::Memory;
use sp_code::Code;
use sp_journal::Journal;
use sp_lines::Told;
use sp_replay::Traced;
use sp_where::Symbols;
use std::alloc::Global;

/// `sp_where::trace_text`.
pub fn trace_text(
    alloc: Global,
    symbols: &Symbols,
    journal: &Journal,
    tolds: &[Told],
) -> Result<Vec<u8>, Memory>
    requires { IsNameable journal.now }
    ensures { IfOk result (λ text. text.items ≡ trace_text symbols.now.checked.kinds symbols.now.constants
        symbols.now.marks journal.now.entries tolds.now) }
{
    let traced = sp_where::trace_text(alloc, symbols, journal, tolds);
    traced
}

/// `sp_where::where_text`.
pub fn where_text(
    alloc: Global,
    symbols: &Symbols,
    code: &Code,
    journal: &Journal,
    traced: &Traced,
) -> Result<Vec<u8>, Memory>
    requires nameable { IsNameable journal.now }
    requires stands { HoldsAllReady traced.now.state }
    requires blocks { HasDistinctBlocks code.now.layouts }
    ensures { IfOk result (λ text. text.items ≡ where_text
        (known_by symbols.now code.now journal.now.entries) journal.now.entries
        (lasts_after journal.now.entries traced.now.told never) (system_of traced.now.state.kernel).condition) }
{
    let shown = sp_where::where_text(alloc, symbols, code, journal, traced);
    shown
}
