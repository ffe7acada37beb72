//! The writing of an answer: the output, then the notes, and the status.

ghost use Rattle.std.specs.Prelude.{◌≡◌, ◌≢◌, ◌⊎◌, ℕ, ◌≤◌, [], false, length, take};
ghost use Rattle.sp_outside.specs.Counts.{Rose};
ghost use Rattle.sp_outside.specs.Visible.{Grows};
ghost use Rattle.superpascal.specs.Answers.{has_output, notes_of, output_of, status_of};
ghost use Rattle.superpascal.specs.Calls.{WritesAnswer, sink_of};

use crate::ending::{Answer, notes_by};
use crate::outcome::Outcome;
use sp_outside::{Failed, Sink, put_all};

/// Writes the answer, and gives the status and the run.
pub(crate) fn write<O: Sink, N: Sink>(answer: Answer, output: &mut O, notes: &mut N) -> Outcome
    requires { has_output answer.ending ≡ false → output_of answer ≡ [] }
    ensures written { WritesAnswer answer (sink_of O.written O.faults output.old output.new)
        (sink_of N.written N.faults notes.old notes.new) result.status }
    ensures ran { result.ran ≡ answer.ran }
    ensures executed { result.executed ≡ answer.executed }
{
    let status = write_texts(&answer, output, notes);
    let Answer { ran, executed, .. } = answer;
    Outcome {
        status,
        ran,
        executed,
    }
}

// Writes the output and then the notes, and gives the status.
fn write_texts<O: Sink, N: Sink>(answer: &Answer, output: &mut O, notes: &mut N) -> u8
    requires { has_output answer.now.ending ≡ false → output_of answer.now ≡ [] }
    ensures { WritesAnswer answer.now (sink_of O.written O.faults output.old output.new)
        (sink_of N.written N.faults notes.old notes.new) result }
{
    if answer.ending.has_output() {
        match put_all(output, answer.output()) {
            Ok(()) => write_notes(answer, notes),
            Err(Failed) => 6,
        }
    } else {
        write_notes(answer, notes)
    }
}

// Writes the notes, and gives the status.
fn write_notes<N: Sink>(answer: &Answer, notes: &mut N) -> u8
    ensures status_is { (result ≡ status_of answer.now.ending) ⊎ (result ≡ 6) }
    ensures all_written { result ≢ 6 → Grows (N.written notes.old) (N.written notes.new) (notes_of answer.now) }
    ensures displaced { result ≡ 6 → Rose (N.faults notes.old) (N.faults notes.new) }
    ensures part { (n : ℕ) × (n ≤ length (notes_of answer.now))
        × Grows (N.written notes.old) (N.written notes.new) (take n (notes_of answer.now)) }
{
    match put_all(notes, notes_by(answer.ending, answer.notes.bytes())) {
        Ok(()) => answer.ending.status(),
        Err(_) => 6,
    }
}
