//! The laws of the grammar, which show that its definitions are the right ones. The functions do nothing: what counts
//! is their contracts.

ghost use Rattle.std.specs.Prelude.{◌≡◌, ◌⊎◌, ℕ, List, []};
ghost use Rattle.sp_base.specs.declared.halt.Refusal.{Refusal};
ghost use Rattle.sp_tree.specs.declared.token.Token.{Token as AToken};
ghost use Rattle.sp_tree.specs.PlainSyntax.{Program};
ghost use Rattle.sp_tree.specs.Scans.{IsTokens, Scans};
ghost use Rattle.sp_tree.specs.Viable.{Spells, IsFirstBad};
ghost use Rattle.sp_tree.specs.Breaches.{IsFirstBroken, IsTree};

/// A text has at most one list of tokens.
pub fn one_list()
    ensures { (text : List ℕ) (ts us : List AToken) → Scans text text [] ts → Scans text text [] us → ts ≡ us }
{}

/// A list of tokens spells at most one program.
pub fn one_tree()
    ensures { (text : List ℕ) (ts : List AToken) (p q : Program) → Spells text ts p → Spells text ts q → p ≡ q }
{}

/// At most one token is the first with which the tokens are no prefix of a program.
pub fn one_first_bad()
    ensures token { (text : List ℕ) (ts front other : List AToken) (t u : AToken) → IsFirstBad text ts front t
        → IsFirstBad text ts other u → t ≡ u }
    ensures front { (text : List ℕ) (ts front other : List AToken) (t u : AToken) → IsFirstBad text ts front t
        → IsFirstBad text ts other u → front ≡ other }
{}

/// The first rule that a text breaks, by its characters or by its tokens, is one rule at one place. A text that breaks
/// one has no tree, and no text has two trees.
pub fn one_verdict()
    ensures refusal { (text : List ℕ) (a b : Refusal) → IsFirstBroken text a → IsFirstBroken text b → a ≡ b }
    ensures tree { (text : List ℕ) (p q : Program) → IsTree text p → IsTree text q → p ≡ q }
    ensures not_both { (text : List ℕ) (p : Program) (r : Refusal) → IsTree text p → IsFirstBroken text r → ⊥ }
{}

/// A text that has tokens has a tree, or a rule that is the first it breaks.
pub fn some_verdict()
    ensures { (text : List ℕ) (ts : List AToken) → IsTokens text ts → ((p : Program) × IsTree text p)
        ⊎ ((r : Refusal) × IsFirstBroken text r) }
{}
