//! The words of a call, the lines of what came of it, and the text that `gen` runs.

ghost use Rattle.std.specs.Prelude.{◌≡◌, ◌≤◌, IfErr, IfOk, None, Some, map, string_bytes};
ghost use Rattle.sp_print.specs.OutcomeLines.{end_text, refusal_text, verdict_text, HasLines};
ghost use Rattle.sp_words.specs.Ranges.{default_limits};
ghost use Rattle.sp_words.specs.Words.{command_of};
ghost use Rattle.sp_gen.specs.GeneratedText.{generated_text};

use sp_base::{Limits, Memory, Refusal};
use sp_journal::{End, Verdict};
use sp_words::{Command, WordsError};
use std::alloc::Global;

/// `sp_words::default_limits`.
pub fn default_limits() -> Limits
    ensures { result ≡ default_limits }
{
    let limits = sp_words::default_limits();
    limits
}

/// `sp_words::read_words`.
pub fn read_words(alloc: Global, words: &[String]) -> Result<Command, WordsError>
    ensures ok { IfOk result (λ c. command_of (map string_bytes words.now) ≡ Some c) }
    ensures refused { IfErr result (λ e. e ≡ WordsError.Refused
        → command_of (map string_bytes words.now) ≡ None) }
{
    let command = sp_words::read_words(alloc, words);
    command
}

/// `sp_print::end_lines`.
pub fn end_lines(alloc: Global, end: &End) -> Result<Vec<u8>, Memory>
    requires { HasLines end.now }
    ensures { IfOk result (λ text. text.items ≡ end_text end.now) }
{
    let told = sp_print::end_lines(alloc, end);
    told
}

/// `sp_print::refusal_line`.
pub fn refusal_line(alloc: Global, refusal: Refusal) -> Result<Vec<u8>, Memory>
    ensures { IfOk result (λ text. text.items ≡ refusal_text refusal) }
{
    let line = sp_print::refusal_line(alloc, refusal);
    line
}

/// `sp_print::verdict_line`.
pub fn verdict_line(alloc: Global, verdict: &Verdict) -> Result<Vec<u8>, Memory>
    ensures { IfOk result (λ text. text.items ≡ verdict_text verdict.now) }
{
    let line = sp_print::verdict_line(alloc, verdict);
    line
}

/// `sp_gen::generated`.
pub fn generated(alloc: Global, size: u32) -> Result<Vec<u8>, Memory>
    requires least { 1 ≤ size }
    requires most { size ≤ 2000 }
    ensures { IfOk result (λ text. text.items ≡ generated_text size) }
{
    let text = sp_gen::generated(alloc, size);
    text
}
