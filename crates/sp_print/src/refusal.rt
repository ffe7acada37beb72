//! The line of a refusal.

ghost use Rattle.std.specs.Prelude.{◌≡◌, IfOk};
ghost use Rattle.sp_print.specs.OutcomeLines.{refusal_text};

use sp_base::{Memory, Refusal, Writer};
use std::alloc::Global;

/// The line of a broken rule and its place: `refused RULE LINE:COLUMN`.
pub fn refusal_line(alloc: Global, refusal: Refusal) -> Result<Vec<u8>, Memory>
    ensures { IfOk result (λ text. text.items ≡ refusal_text refusal) }
{
    let mut out = Writer::new(alloc);
    out.extend(b"refused ");
    out.extend(refusal.rule.name().as_bytes());
    out.extend(b" ");
    out.decimal(u64::from(refusal.at.line));
    out.extend(b":");
    out.decimal(u64::from(refusal.at.column));
    out.extend(b"\n");
    out.finish()
}
