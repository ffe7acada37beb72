//! Where bytes go: the trait `Sink`, and putting all bytes of a text.

ghost use Rattle.std.specs.Prelude.{◌≡◌, ℕ, List, Option, ◌<◌, ◌≤◌, take, length, IfOk, OnErr, OnOk};
ghost use Rattle.sp_outside.specs.Counts.{Rose};
ghost use Rattle.sp_outside.specs.Visible.{Grows};

use crate::failures::Failed;

/// Takes bytes.
pub trait Sink {
    // The bytes that it has got, where they are told.
    ghost written: { Self → Option (List ℕ) };

    // How many faults there were.
    ghost faults: { Self → ℕ };

    /// Takes the first bytes of the piece, and says how many: at least one, if the piece has any.
    /// `Failed` comes only where the count of faults rose in this call, and then nothing was taken.
    fn put(&mut self, piece: &[u8]) -> Result<usize, Failed>
        ensures within { IfOk result (λ n. n ≤ length piece.now) }
        ensures some { IfOk result (λ n. 0 < length piece.now → 0 < n) }
        ensures ok { IfOk result (λ n. Grows (written self.old) (written self.new) (take n piece.now)) }
        ensures failed { OnErr result (Rose (faults self.old) (faults self.new)) }
        ensures unchanged { OnErr result (written self.new ≡ written self.old) }
        ensures counted { faults self.old ≤ faults self.new };
}

/// Puts all bytes, piece by piece. Where a put fails, the sink has got a first part of them.
pub fn put_all<S: Sink>(sink: &mut S, bytes: &[u8]) -> Result<(), Failed>
    ensures ok { OnOk result (Grows (S.written sink.old) (S.written sink.new) bytes.now) }
    ensures part { (n : ℕ) × (n ≤ length bytes.now)
        × Grows (S.written sink.old) (S.written sink.new) (take n bytes.now) }
    ensures failed { OnErr result (Rose (S.faults sink.old) (S.faults sink.new)) }
    ensures counted { S.faults sink.old ≤ S.faults sink.new }
{
    let mut done = 0;
    while done < bytes.len() {
        let (_, rest) = bytes.split_at(done);
        done += sink.put(rest)?;
    }
    Ok(())
}
