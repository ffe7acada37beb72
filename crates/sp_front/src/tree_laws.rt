//! What follows from the definitions of names and types for trees that break no rule. These functions do nothing: each
//! one's contract is a law.

ghost use Rattle.std.specs.Prelude.{◌≡◌, ℕ, List, [], Some, length, slice_get};
ghost use Rattle.sp_tree.specs.PlainSyntax.{Program};
ghost use Rattle.sp_tree.specs.Plain.{Block, Stmt};
ghost use Rattle.sp_tree.specs.NamedTree.{program_named};
ghost use Rattle.sp_tree.specs.NameFirst.{broken_name_rules};
ghost use Rattle.sp_tree.specs.Interference.{IsFreeOfInterference};
ghost use Rattle.sp_types.specs.TypeFirst.{types_broken};
ghost use Rattle.sp_front.specs.Earlier.{AreFormedKinds};
ghost use Rattle.sp_front.specs.PartsInTables.{AreScoped};
ghost use Rattle.sp_code.specs.Sizes.{HasSmallTypes};
ghost use Rattle.sp_code.specs.CodeOfTree.{IsSoundBlock};
ghost use Rattle.sp_tree.specs.PlainChecked.{Program as Checked};
ghost use Rattle.sp_tree.specs.Bare.{without_places};
ghost use Rattle.sp_types.specs.CheckedTree.{program_checked};
ghost use Rattle.sp_code.specs.NeverStops.{NeverStops};
ghost use Rattle.sp_tree.specs.TreeShape.{IsFormed};
ghost use Rattle.sp_front.specs.AcceptedTree.{tree, IsNumberedTree, KeepsInterference, IsAccepted};

/// Where no rule of names is broken, a declaration's number is its place: parents come before, and the parameters and
/// the result of a block are its variables of these roles, in order.
pub fn names_number_the_tree()
    ensures { (s : Program) → broken_name_rules s ≡ [] → IsNumberedTree (tree s) }
{}

/// Each name in each block is of a declaration that is visible there.
pub fn names_are_visible()
    ensures { (s : Program) → broken_name_rules s ≡ []
        → AreScoped (tree s) (length (program_named s).constants) 0 (program_named s).blocks }
{}

/// Arrays and records are of earlier types, and an array has an element.
pub fn types_are_formed()
    ensures { (s : Program) → broken_name_rules s ≡ [] → types_broken (program_named s) ≡ []
        → AreFormedKinds 0 (tree s).kinds }
{}

/// A tree that breaks no rule of names and none of interference is free of interference.
pub fn trees_are_free_of_interference()
    ensures { (s : Program) → broken_name_rules s ≡ [] → KeepsInterference (program_checked (program_named s))
        → IsFreeOfInterference (tree s) }
{}

/// Where no rule of interference is broken, a call of a function leads to no statement that a function may not have.
pub fn functions_are_silent()
    ensures { (c : Checked) → KeepsInterference c → (f x : ℕ) (b : Block) → slice_get (without_places c).blocks f
        ≡ Some b
        → b.answer ≡ Some x → NeverStops (without_places c) f }
{}

/// Each block is fine.
pub fn blocks_are_fine()
    ensures { (s : Program) → broken_name_rules s ≡ [] → types_broken (program_named s) ≡ []
        → IsFreeOfInterference (tree s)
        → ((f x : ℕ) (b : Block) → slice_get (tree s).blocks f ≡ Some b → b.answer ≡ Some x → NeverStops (tree s) f)
        → (moves shares : Stmt → List ℕ) (f q : ℕ) (c : Block) → slice_get (tree s).blocks f ≡ Some c
        → IsSoundBlock (tree s) moves shares (NeverStops (tree s)) f q c }
{}

/// A text that breaks no rule has a tree that is formed, has small types and is free of interference, and each block of
/// it is fine, whatever sets of variables its forks are given.
pub fn accepted_trees_are_fine()
    ensures formed { (text : List ℕ) (c : Checked) → IsAccepted text c → IsFormed (without_places c) }
    ensures small { (text : List ℕ) (c : Checked) → IsAccepted text c → HasSmallTypes (without_places c) }
    ensures free { (text : List ℕ) (c : Checked) → IsAccepted text c → IsFreeOfInterference (without_places c) }
    ensures fine { (text : List ℕ) (c : Checked) → IsAccepted text c
        → (moves shares : Stmt → List ℕ) (f q : ℕ) (b : Block) → slice_get (without_places c).blocks f ≡ Some b
        → IsSoundBlock (without_places c) moves shares (NeverStops (without_places c)) f q b }
{}
