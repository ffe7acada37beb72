//! The phases up to sets (`analyse`), and all of them with interference (`compile`), from the bytes of a text on.

ghost use Rattle.std.specs.Prelude.{◌≡◌, IfOk};
ghost use Rattle.sp_tree.specs.PlainOf.{program_of};
ghost use Rattle.sp_tree.specs.Interference.{IsFreeOfInterference};
ghost use Rattle.sp_meaning.specs.LocalWork.{RunInput};
ghost use Rattle.sp_meaning.specs.Runs.{IsDisjointRun};
ghost use Rattle.sp_front.specs.Checks.{IsProgramOf};
ghost use Rattle.sp_front.specs.Compiles.{Analyses, Compiles, AcceptedByPhases};

use crate::apart::{OfText, apart};
use crate::law::{numbered_trees, one_answer};
use crate::phases::typed;
use crate::tree_laws::accepted_trees_are_fine;
use sp_base::Halt;
use sp_interfere::check_sets;
use sp_meaning::rule_keepers_are_disjoint;
use sp_tree::Checked;
use sp_varsets::{Sets, sets_of};
use std::alloc::Global;
use std::thread::Threads;

/// A text that breaks no rule: its tree, and the variables that its statements and blocks use.
pub struct Accepted {
    checked: Checked,
    sets: Sets,
}

// By hand, so that it is one call where such a value is dropped.
impl Drop for Accepted {
    fn drop(self) {
        let Accepted {
            checked: _,
            sets: _,
        } = self;
    }
}

impl Accepted {
    /// The tree.
    pub fn checked(&self) -> &Checked
        ensures { result.now ≡ self.now.checked }
    {
        &self.checked
    }

    /// The sets of the tree.
    pub fn sets(&self) -> &Sets
        ensures { result.now ≡ self.now.sets }
    {
        &self.sets
    }

    /// The tree alone.
    pub(crate) fn into_checked(self) -> Checked
        ensures { result ≡ self.checked }
    {
        let Accepted { checked, sets: _ } = self;
        checked
    }
}

/// As many blocks as there are numbers for.
const MOST_BLOCKS: usize = 4_294_967_296;

/// The tree and the sets of a text that breaks no rule of its characters, its grammar, its names and its types, or the
/// first such rule that it breaks, with its place. Interference is not looked at, so that the sets can show why a text
/// is refused.
///
/// It recurses as deep as the longest chain of operators is long: `analyse_apart` gives it the stack for that.
pub fn analyse(alloc: Global, text: &[u8]) -> Result<(Checked, Sets), Halt>
    ensures { Analyses text.now result }
{
    numbered_trees();
    let checked = typed(alloc, text)?;
    let sets = sets_of(alloc, &checked)?;
    Ok((checked, sets))
}

/// The tree and the sets of a text that breaks no rule, or the first rule that it breaks, with its place: of its
/// characters and its grammar, then of its names, of its types, and of interference. On no input, with no limits and in
/// no lawful schedule does a process of an accepted text write what a parallel one reads or writes.
///
/// It recurses as deep as the longest chain of operators is long, and wants a stack for that, as `analyse_apart` has
/// one.
pub fn compile(alloc: Global, text: &[u8]) -> Result<Accepted, Halt>
    ensures compiles { Compiles text.now result }
    ensures keeps { IfOk result (λ a. AcceptedByPhases text.now) }
    ensures program { IfOk result (λ a. IsProgramOf text.now (program_of a.checked)) }
    ensures free { IfOk result (λ a. IsFreeOfInterference (program_of a.checked)) }
    ensures disjoint { IfOk result (λ a. (g : RunInput) → g.program ≡ program_of a.checked → IsDisjointRun g) }
{
    one_answer();
    numbered_trees();
    accepted_trees_are_fine();
    rule_keepers_are_disjoint();
    let found = analyse(alloc, text)?;
    let (checked, sets) = found;
    let accepted = Accepted { checked, sets };
    if accepted.checked.blocks.len() > MOST_BLOCKS {
        return Err(Halt::Memory);
    }
    match check_sets(&accepted.checked, &accepted.sets) {
        Ok(()) => Ok(accepted),
        Err(refusal) => Err(Halt::Refused(refusal)),
    }
}

impl OfText for (Checked, Sets) {
    ghost says = { λ text r. Analyses text r };

    fn of_text(alloc: Global, text: &[u8]) -> Result<(Checked, Sets), Halt> {
        analyse(alloc, text)
    }
}

/// `analyse`, on a thread of its own with a stack for the longest text. Where no thread can be made the answer is want
/// of memory: the caller's own stack would not hold a long chain of operators.
pub fn analyse_apart(rt: &impl Threads, alloc: Global, text: &[u8]) -> Result<(Checked, Sets), Halt>
    ensures { Analyses text.now result }
{
    apart(rt, alloc, text)
}
