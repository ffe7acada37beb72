//! All phases over a text up to its code (`compiled`), and the same on a thread with a large stack (`compiled_apart`).

ghost use Rattle.std.specs.Prelude.{◌≡◌};
ghost use Rattle.sp_front.specs.Codes.{Codes, halt_of};

use crate::analysis::{Accepted, compile};
use crate::apart::{OfText, apart};
use sp_base::{Halt, Place, Refusal, Rule};
use sp_code::Code;
use sp_generate::{GenError, generate};
use sp_tree::Checked;
use sp_varsets::Sets;
use std::alloc::Global;
use std::thread::Threads;

/// A text that breaks no rule: its tree, the variables that its statements and blocks use, and its code.
pub struct CompiledText {
    accepted: Accepted,
    code: Code,
}

// By hand, so that it is proved once, here, and not in each crate that drops such a value.
impl Drop for CompiledText {
    fn drop(self) {
        let CompiledText {
            accepted: _,
            code: _,
        } = self;
    }
}

impl CompiledText {
    /// The tree.
    pub fn checked(&self) -> &Checked
        ensures { result.now ≡ self.now.accepted.checked }
    {
        self.accepted.checked()
    }

    /// The sets of the tree.
    pub fn sets(&self) -> &Sets
        ensures { result.now ≡ self.now.accepted.sets }
    {
        self.accepted.sets()
    }

    /// The code of the tree.
    pub fn code(&self) -> &Code
        ensures { result.now ≡ self.now.code }
    {
        &self.code
    }

    /// The code of the tree, which is no longer kept with its sets.
    pub fn into_code(self) -> Code
        ensures { result ≡ self.code }
    {
        let CompiledText { accepted: _, code } = self;
        code
    }

    /// The tree and its code, which are no longer kept with the sets.
    pub fn into_parts(self) -> (Checked, Code)
        ensures tree { result.0 ≡ self.accepted.checked }
        ensures code { result.1 ≡ self.code }
    {
        let CompiledText { accepted, code } = self;
        (accepted.into_checked(), code)
    }
}

/// What a text breaks whose code would be longer than code may be.
pub(crate) const LONG_CODE: Refusal = Refusal {
    rule: Rule::L5,
    at: Place { line: 1, column: 1 },
};

/// What a text is answered that has no code.
fn halt_of(error: GenError) -> Halt
    ensures { result ≡ halt_of error }
{
    match error {
        GenError::TooLong(_) => Halt::Refused(LONG_CODE),
        GenError::Memory => Halt::Memory,
    }
}

/// The tree, the sets and the code of a text that breaks no rule, or the first rule that it breaks, with its place: of
/// its characters and its grammar, then of its names, of its types, of interference, and of the length of its code.
///
/// It recurses as deep as the longest chain of operators is long: `compiled_apart` gives it the stack for that.
pub fn compiled(alloc: Global, text: &[u8]) -> Result<CompiledText, Halt>
    ensures { Codes text.now result }
{
    let accepted = compile(alloc, text)?;
    match generate(alloc, accepted.checked(), accepted.sets()) {
        Ok(code) => Ok(CompiledText { accepted, code }),
        Err(error) => Err(halt_of(error)),
    }
}

impl OfText for CompiledText {
    ghost says = { λ text r. Codes text r };

    fn of_text(alloc: Global, text: &[u8]) -> Result<CompiledText, Halt> {
        compiled(alloc, text)
    }
}

/// `compiled`, on a thread of its own with a stack for the longest text. Where no thread can be made the answer is want
/// of memory: the caller's own stack would not hold a long chain of operators.
pub fn compiled_apart(rt: &impl Threads, alloc: Global, text: &[u8]) -> Result<CompiledText, Halt>
    ensures { Codes text.now result }
{
    apart(rt, alloc, text)
}
