//! The answers of calls that end without a run, with their lines.

ghost use Rattle.std.specs.Prelude.{◌≡◌, ◌++◌, IfOk, codes, decimal};
ghost use Rattle.sp_codefile.specs.VerifyAnswers.{rule_of};
ghost use Rattle.sp_verify_rules.specs.Verdict.{number};
ghost use Rattle.superpascal.specs.AnswerParts.{AnswersEnding, own_line};
ghost use Rattle.superpascal.specs.Answers.{line_of};
ghost use Rattle.superpascal.specs.Causes.{accepted_answer, answer_without_output};
ghost use Rattle.superpascal.specs.declared.ending.Ending.TheVariants as variants;

use crate::ending::{Answer, Ending};
use sp_base::{Memory, Text, Writer};
use sp_codefile::VRule;
use sp_print::refusal_line;
use std::alloc::Global;

// An answer without an output.
fn silent(alloc: Global, ending: Ending) -> Answer
    ensures { result ≡ answer_without_output ending }
{
    Answer {
        ending,
        ran: None,
        executed: None,
        output: None,
        notes: Text::of(Vec::new(alloc)),
    }
}

/// The answer of a command that answers from the text alone: with this output and these notes.
pub(crate) fn accepted(output: Vec<u8>, notes: Vec<u8>) -> Answer
    ensures { result ≡ accepted_answer output.items notes.items }
{
    Answer {
        ending: Ending::Accepted,
        ran: None,
        executed: None,
        output: Some(Text::of(output)),
        notes: Text::of(notes),
    }
}

// Words and a number on a line.
fn number_line(alloc: Global, words: &[u8], number: u64) -> Result<Vec<u8>, Memory>
    ensures { IfOk result (λ line. line.items ≡ words.now ++ decimal number ++ codes "\n") }
{
    let mut out = Writer::new(alloc);
    out.extend(words);
    out.decimal(number);
    out.extend(b"\n");
    out.finish()
}

// The number of a rule of code files.
fn rule_number(rule: VRule) -> u64
    ensures { result ≡ number (rule_of rule) }
{
    match rule {
        VRule::V1 => 1,
        VRule::V2 => 2,
        VRule::V3 => 3,
        VRule::V4 => 4,
        VRule::V5 => 5,
        VRule::V6 => 6,
        VRule::V7 => 7,
        VRule::V8 => 8,
        VRule::V9 => 9,
    }
}

// The line that names a broken rule and an instruction.
fn rejection_line(alloc: Global, rule: VRule, instruction: u32) -> Result<Vec<u8>, Memory>
    ensures { IfOk result (λ line. line.items ≡ line_of (variants.Rejected rule instruction)) }
{
    let mut out = Writer::new(alloc);
    out.extend(b"rejected V");
    out.decimal(rule_number(rule));
    out.extend(b" ");
    out.decimal(instruction as u64);
    out.extend(b"\n");
    out.finish()
}

// The line of an ending that is not the same for every text; of another, nothing.
fn own_line(alloc: Global, ending: Ending) -> Result<Vec<u8>, Memory>
    ensures { IfOk result (λ line. line.items ≡ own_line ending) }
{
    match ending {
        Ending::Refused(refusal) => refusal_line(alloc, refusal),
        Ending::BadJournal(line) => number_line(alloc, b"bad journal ", line),
        Ending::Unfit(entry) => number_line(alloc, b"journal unfit ", entry),
        Ending::BadCode(line) => number_line(alloc, b"bad code ", line),
        Ending::Rejected(rule, instruction) => rejection_line(alloc, rule, instruction),
        Ending::Done
        | Ending::Deadlock
        | Ending::Fault
        | Ending::NoEnd
        | Ending::Accepted
        | Ending::BadWords
        | Ending::ReadFault
        | Ending::TooLong
        | Ending::OutOfMemory
        | Ending::LongJournal
        | Ending::LongCode
        | Ending::LongFile => Ok(Vec::new(alloc)),
    }
}

/// The answer to what ends so without an output, with the ending's line, or want of memory.
pub(crate) fn ended(alloc: Global, ending: Ending) -> Answer
    ensures { AnswersEnding ending result }
{
    match own_line(alloc, ending) {
        Ok(line) => Answer {
            ending,
            ran: None,
            executed: None,
            output: None,
            notes: Text::of(line),
        },
        Err(_) => silent(alloc, Ending::OutOfMemory),
    }
}
