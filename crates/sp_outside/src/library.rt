//! Where texts are held under names: the trait `Library`.

ghost use Rattle.std.specs.Prelude.{◌≡◌, ◌≢◌, ◌↔◌, ℕ, List, Option, ◌<◌, ◌≤◌, length, IfOk, IfSome, vec_len};
ghost use Rattle.sp_outside.specs.Counts.{Rose};

use crate::failures::LoadError;
use std::alloc::Global;

/// Texts under names.
pub trait Library {
    // The bytes under a name, where they are told.
    ghost held: { Self → List ℕ → Option (List ℕ) };

    // How many faults there were under a name.
    ghost faults: { Self → List ℕ → ℕ };

    /// The bytes that are held under the name, if they are no more than `limit`.
    /// `TooLong` comes where they are more; where they are not told, after `limit` and one of them were taken.
    /// `Failed` comes only where the count of faults under this name rose in this call.
    fn load(&mut self, alloc: Global, name: &str, limit: u32) -> Result<Vec<u8>, LoadError>
        ensures ok { IfOk result (λ bytes. IfSome (held self.old name.now) (λ all. bytes.items ≡ all)) }
        ensures fits { IfOk result (λ bytes. vec_len bytes ≤ limit) }
        ensures too_long { IfSome (held self.old name.now) (λ all.
            (result ≡ Err LoadError.TooLong) ↔ ((limit < length all) × (result ≢ Err LoadError.Failed))) }
        ensures failed { result ≡ Err LoadError.Failed → Rose (faults self.old name.now) (faults self.new name.now) }
        ensures counted { (other : List ℕ) → faults self.old other ≤ faults self.new other }
        ensures unchanged { (other : List ℕ) → held self.new other ≡ held self.old other };
}
