//! Where input comes from: the trait `Source`.

ghost use Rattle.std.specs.Prelude.{◌≡◌, ℕ, List, Option, ◌<◌, ◌≤◌, take, drop, length, IfOk, OnErr};
ghost use Rattle.sp_outside.specs.Visible.{Shrinks, IsAtEnd};
ghost use Rattle.sp_outside.specs.Counts.{Rose};

use crate::failures::Failed;

/// Gives bytes.
pub trait Source {
    // The bytes that are left, where they are told.
    ghost left: { Self → Option (List ℕ) };

    // How many faults there were.
    ghost faults: { Self → ℕ };

    /// Moves the next bytes into the front of the buffer, keeps the rest of it, and says how many they are.
    /// None into a buffer that is not empty means the end of the input.
    /// `Failed` comes only where the count of faults rose in this call, and then no byte was moved.
    fn take(&mut self, buf: &mut [u8]) -> Result<usize, Failed>
        ensures within { IfOk result (λ n. n ≤ length buf.old) }
        ensures moved { IfOk result (λ n. Shrinks (left self.old) (left self.new) (take n buf.new)) }
        ensures rest { IfOk result (λ n. drop n buf.new ≡ drop n buf.old) }
        ensures end { IfOk result (λ n. n ≡ 0 → 0 < length buf.old → IsAtEnd (left self.old)) }
        ensures failed { OnErr result (Rose (faults self.old) (faults self.new)) }
        ensures unchanged { OnErr result (left self.new ≡ left self.old) }
        ensures counted { faults self.old ≤ faults self.new };
}
