//! The phases up to types, from the bytes of a text to its checked tree.

ghost use Rattle.std.specs.Prelude.{IfOk};
ghost use Rattle.sp_tree.specs.PlainOf.{program_of};
ghost use Rattle.sp_front.specs.Checks.{Checks, IsProgramOf, AcceptedUpToTypes};

use crate::law::one_answer;
use crate::reader::read_text;
use sp_base::Halt;
use sp_scope::resolve;
use sp_tree::Checked;
use sp_types::type_check;
use std::alloc::Global;

/// The checked tree of a text that breaks no rule, or the first rule that it breaks, with its place: of its characters
/// and its grammar, then of its names, then of its types.
///
/// It recurses as deep as the longest chain of operators is long: `analyse_apart` gives it the stack for that.
pub fn typed(alloc: Global, text: &[u8]) -> Result<Checked, Halt>
    ensures checks { Checks text.now result }
    ensures keeps { IfOk result (λ tree. AcceptedUpToTypes text.now) }
    ensures program { IfOk result (λ tree. IsProgramOf text.now (program_of tree)) }
{
    one_answer();
    let syntax = read_text(alloc, text)?;
    let named = resolve(alloc, syntax)?;
    type_check(alloc, named)
}
