//! Phases on a thread of their own with a large stack.

ghost use Rattle.std.specs.Prelude.{ℕ, List, Result, Err};
ghost use Rattle.sp_base.specs.declared.halt.Halt.{Halt};
ghost use Rattle.sp_base.specs.declared.halt.Halt.TheVariants.{Memory as OutOfMemory};

use sp_base::Halt;
use std::alloc::Global;
use std::snapshot::Snapshot;
use std::thread::{Builder, Promise, Threads};

/// The stack of the phases, in bytes: addresses alone, since a page is used once it is touched.
const STACK: usize = 0x4000_0000;

/// What phases make of a text.
pub(crate) trait OfText: Sized {
    // What their answer says of the text.
    ghost says: { List ℕ → Result Self Halt → Type 0 };

    /// Runs the phases.
    fn of_text(alloc: Global, text: &[u8]) -> Result<Self, Halt>
        ensures { says text.now result };
}

/// What a thread of phases promises of its answer to this text.
#[derive(Drop)]
struct AnswerTo(Snapshot<Vec<u8>>);

impl<T: OfText> Promise<Result<T, Halt>> for AnswerTo {
    ghost kept_by = { λ p r. T.says p.0.value.items r };
}

/// What phases answer, on a thread of their own with a stack for the longest text. Where no thread can be made the
/// answer is want of memory: the caller's own stack would not hold a long chain of operators.
pub(crate) fn apart<R: Threads, T: OfText + Send + Drop + 'static>(
    rt: &R,
    alloc: Global,
    text: &[u8],
) -> Result<T, Halt>
    requires { T.says text.now (Err OutOfMemory) }
    ensures { T.says text.now result }
{
    let mut copy = Vec::new(alloc);
    let Ok(()) = copy.extend_from_slice(text) else {
        return Err(Halt::Memory);
    };
    let promise = AnswerTo(Snapshot::of(&copy));
    let started = Builder::new()
        .stack_size(STACK)
        .spawn_with(rt, promise, move || T::of_text(alloc, copy.as_slice()));
    match started {
        Ok(thread) => thread.join(rt),
        Err(_) => Err(Halt::Memory),
    }
}
