//! Laws which show that the phases together give each text one answer, and that an accepted text is disjoint in every
//! lawful schedule. Of the functions only their contracts count.

ghost use Rattle.std.specs.Prelude.{◌≡◌, ◌⊎◌, ℕ, List};
ghost use Rattle.sp_base.specs.declared.halt.Refusal.{Refusal};
ghost use Rattle.sp_tree.specs.PlainChecked.{Program};
ghost use Rattle.sp_tree.specs.Plain.{Program as Meant};
ghost use Rattle.sp_tree.specs.Bare.{without_places};
ghost use Rattle.sp_meaning.specs.LocalWork.{RunInput};
ghost use Rattle.sp_meaning.specs.Runs.{IsDisjointRun};
ghost use Rattle.sp_types.specs.StatementNumbers.{AllDiffer, blocks_numbers};
ghost use Rattle.sp_varsets.specs.AreSets.{HaveEarlierParents, HaveOwnNumbers};
ghost use Rattle.sp_front.specs.Codes.{HasListing};
ghost use Rattle.sp_front.specs.Checks.{FirstBrokenUpToTypes, IsChecked, IsProgramOf, AcceptedUpToTypes};
ghost use Rattle.sp_front.specs.Compiles.{FirstBrokenOfPhases, IsAccepted};

use crate::tree_laws::{accepted_trees_are_fine, names_number_the_tree};
use sp_generate::one_code;
use sp_meaning::rule_keepers_are_disjoint;
use sp_scan::first_breach;
use sp_tree::{one_verdict, some_verdict};

/// The first rule that a text breaks is one rule at one place. A text that breaks one has no checked tree, and no text
/// has two checked trees, or two programs.
pub fn one_answer()
    ensures refusal { (text : List ℕ) (a b : Refusal) → FirstBrokenUpToTypes text a → FirstBrokenUpToTypes text b
        → a ≡ b }
    ensures tree { (text : List ℕ) (p q : Program) → IsChecked text p → IsChecked text q → p ≡ q }
    ensures not_both { (text : List ℕ) (p : Program) (r : Refusal) → IsChecked text p
        → FirstBrokenUpToTypes text r → ⊥ }
    ensures program { (text : List ℕ) (p q : Meant) → IsProgramOf text p → IsProgramOf text q → p ≡ q }
{
    one_verdict();
}

/// The first rule of all phases that a text breaks is one rule at one place, and a text that has an accepted tree
/// breaks none.
pub fn one_compilation()
    ensures refusal { (text : List ℕ) (a b : Refusal) → FirstBrokenOfPhases text a → FirstBrokenOfPhases text b
        → a ≡ b }
    ensures not_both { (text : List ℕ) (p : Program) (r : Refusal) → IsAccepted text p
        → FirstBrokenOfPhases text r → ⊥ }
{
    one_answer();
}

/// A text has a checked tree, or a rule that is the first it breaks. So a text that breaks no rule has a program.
pub fn some_answer(text: &[u8])
    ensures either { ((p : Program) × IsChecked text.now p) ⊎ ((r : Refusal) × FirstBrokenUpToTypes text.now r) }
    ensures kept { AcceptedUpToTypes text.now → (p : Meant) × IsProgramOf text.now p }
{
    some_verdict();
    let _found = first_breach(text);
}

/// No two statements of the checked tree of a text have one number, in one block or in two.
pub fn numbers_differ()
    ensures { (text : List ℕ) (p : Program) → IsChecked text p → AllDiffer (blocks_numbers p.blocks) }
{}

/// In the checked tree of a text a block stands after the one around it, and no two statements have one number.
pub fn numbered_trees()
    ensures parents { (text : List ℕ) (p : Program) → IsChecked text p → HaveEarlierParents p }
    ensures numbers { (text : List ℕ) (p : Program) → IsChecked text p → HaveOwnNumbers p }
{
    names_number_the_tree();
}

/// On no input, with no limits and in no lawful schedule does a process of an accepted text write what a parallel one
/// reads or writes.
pub fn accepted_texts_are_disjoint()
    ensures { (text : List ℕ) (p : Program) → IsAccepted text p → (g : RunInput) → g.program ≡ without_places p
        → IsDisjointRun g }
{
    accepted_trees_are_fine();
    rule_keepers_are_disjoint();
}

/// The code of a text has one listing.
pub fn one_listing()
    ensures { (text a b : List ℕ) → HasListing text a → HasListing text b → a ≡ b }
{
    one_answer();
    one_code();
}
