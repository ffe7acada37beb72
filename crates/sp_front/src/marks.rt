//! A text for commands that tell its places and the names in it (`marked`), and the same on a thread with a large stack
//! (`marked_apart`).

ghost use Rattle.std.specs.Prelude.{◌≡◌, ℕ, List, Some, length, slice_get};
ghost use Rattle.sp_tree.specs.declared.checked.KindOf.TheVariants as kind;
ghost use Rattle.sp_lines.specs.Constants.{constants_at};
ghost use Rattle.sp_front.specs.declared.marks.MarkedText.{MarkedText as AMarkedText};
ghost use Rattle.sp_front.specs.TextMarks.{IsMarked, MarksText, NamesTo};

use crate::apart::{OfText, apart};
use crate::reader::read_text;
use crate::to_code::compiled;
use sp_base::{Halt, List, Text};
use sp_code::Code;
use sp_lines::{Mark, by_kind, constants, marks};
use sp_tree::{Checked, one_verdict};
use std::alloc::Global;
use std::thread::Threads;

/// A text that breaks no rule, for commands that tell its places and the names in it.
#[derive(Drop)]
pub struct MarkedText {
    /// Its code.
    pub code: Code,
    /// Its tree.
    pub checked: Checked,
    /// The mark of each instruction of the code.
    pub marks: List<Mark>,
    /// The names of the constants of each type of the tree, in lower case; of none where it is no enumeration.
    pub constants: List<List<Text>>,
}

/// The names of the constants of each enumeration that a text declares, in order of the text.
fn names_of(alloc: Global, text: &[u8]) -> Result<List<List<Text>>, Halt>
    ensures { NamesTo text.now result }
{
    let tree = read_text(alloc, text)?;
    Ok(constants(alloc, &tree)?)
}

/// The code, the tree, the marks and the names of constants of a text that breaks no rule, or the first rule that it
/// breaks, with its place: the rules are those of `compiled`. The text is read once more for the names, which are in no
/// tree behind its grammar.
///
/// It recurses as deep as the longest chain of operators is long: `marked_apart` gives it the stack for that.
pub fn marked(alloc: Global, text: &[u8]) -> Result<MarkedText, Halt>
    ensures { MarksText text.now result }
{
    let names = names_of(alloc, text)?;
    let (checked, code) = compiled(alloc, text)?.into_parts();
    let marks = marks(alloc, &checked)?;
    let constants = by_kind(alloc, checked.kinds.items(), names)?;
    Ok(MarkedText {
        code,
        checked,
        marks,
        constants,
    })
}

/// An enumeration among the types of a text has as many constants as names.
pub fn constants_go_with_the_types()
    ensures { (text : List ℕ) (r : AMarkedText) → IsMarked text r → (k n : ℕ)
        → slice_get r.checked.kinds k ≡ Some (kind.Enumeration n) → length (constants_at r.constants k) ≡ n }
{
    one_verdict();
}

impl OfText for MarkedText {
    ghost says = { λ text r. MarksText text r };

    fn of_text(alloc: Global, text: &[u8]) -> Result<MarkedText, Halt> {
        marked(alloc, text)
    }
}

/// `marked`, on a thread of its own with a stack for the longest text. Where no thread can be made the answer is want
/// of memory: the caller's own stack would not hold a long chain of operators.
pub fn marked_apart(rt: &impl Threads, alloc: Global, text: &[u8]) -> Result<MarkedText, Halt>
    ensures { MarksText text.now result }
{
    apart(rt, alloc, text)
}
