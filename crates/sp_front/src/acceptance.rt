//! All phases over a text and the length of its code, without the code (`accepts`), and the same on a thread with a
//! large stack (`accepts_apart`).

ghost use Rattle.sp_front.specs.Codes.{Accepts};

use crate::analysis::compile;
use crate::apart::{OfText, apart};
use crate::to_code::LONG_CODE;
use sp_base::Halt;
use sp_generate::{is_too_long, length};
use std::alloc::Global;
use std::thread::Threads;

/// That a text breaks no rule, or the first rule that it breaks, as `compiled` says it. No code is made for it, and so
/// no memory is taken for what the forks of the code hand over.
///
/// It recurses as deep as the longest chain of operators is long: `accepts_apart` gives it the stack for that.
pub fn accepts(alloc: Global, text: &[u8]) -> Result<(), Halt>
    ensures { Accepts text.now result }
{
    let accepted = compile(alloc, text)?;
    let n = length(accepted.checked());
    if is_too_long(n) {
        return Err(Halt::Refused(LONG_CODE));
    }
    Ok(())
}

impl OfText for () {
    ghost says = { λ text r. Accepts text r };

    fn of_text(alloc: Global, text: &[u8]) -> Result<(), Halt> {
        accepts(alloc, text)
    }
}

/// `accepts`, on a thread of its own with a stack for the longest text. Where no thread can be made the answer is want
/// of memory: the caller's own stack would not hold a long chain of operators.
pub fn accepts_apart(rt: &impl Threads, alloc: Global, text: &[u8]) -> Result<(), Halt>
    ensures { Accepts text.now result }
{
    apart(rt, alloc, text)
}
