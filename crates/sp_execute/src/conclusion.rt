//! The call `conclude`: what a run of code says of the program that the code is of.

ghost use Rattle.std.specs.Prelude.{◌≡◌, ℕ, List};
ghost use Rattle.sp_tree.specs.Plain.{Stmt};
ghost use Rattle.sp_meaning.specs.LocalWork.{RunInput};
ghost use Rattle.sp_execute.specs.Runs.{IsRunOfCode, IsAbout};

use sp_kernel::Closed;

/// A run of a program, as `conclude` gives it.
#[derive(Drop)]
pub struct Concluded {
    /// The run of the program's code.
    pub closed: Closed,
}

/// Takes a run of code as one of the program that the code is of. For every program, input and limits of which it is
/// the code, and sets that the forks of the code take over and share: where the machine gives that end and that output
/// along that journal, the meaning of the program on the input with the limits is defined along the journal, and the
/// end and the output are those of its state there. `closed` is held unchanged.
pub fn conclude(closed: Closed) -> Concluded
    ensures same { result.closed ≡ closed }
    ensures about { (g : RunInput) (moves shares : Stmt → List ℕ) → IsRunOfCode g moves shares closed
        → IsAbout g result.closed }
{
    Concluded { closed }
}
