//! The line of a verdict.

ghost use Rattle.std.specs.Prelude.{◌≡◌, IfOk};
ghost use Rattle.sp_print.specs.OutcomeLines.{verdict_text};

use sp_base::{Memory, Writer};
use sp_journal::Verdict;
use std::alloc::Global;

/// The line of a verdict: `ordered`, `unjudged`, `race send CHANNEL EARLIER LATER` or
/// `race receive CHANNEL EARLIER LATER`, with the indices of the two offers.
pub fn verdict_line(alloc: Global, verdict: &Verdict) -> Result<Vec<u8>, Memory>
    ensures { IfOk result (λ text. text.items ≡ verdict_text verdict.now) }
{
    let mut out = Writer::new(alloc);
    match verdict {
        Verdict::Ordered => out.extend(b"ordered\n"),
        Verdict::Race {
            way,
            channel,
            earlier,
            later,
        } => {
            out.extend(b"race ");
            out.extend(way.word().as_bytes());
            out.extend(b" ");
            out.channel(channel);
            out.extend(b" ");
            out.decimal(*earlier);
            out.extend(b" ");
            out.decimal(*later);
            out.extend(b"\n");
        }
        Verdict::Unjudged => out.extend(b"unjudged\n"),
    }
    out.finish()
}
