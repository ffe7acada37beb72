//! Laws of canonical texts. The functions do nothing: what counts is their contracts.

ghost use Rattle.std.specs.Prelude.{◌≡◌, ℕ, List};
ghost use Rattle.sp_base.specs.declared.halt.Refusal.{Refusal};
ghost use Rattle.sp_format.specs.Items.{Item as AnItem, HasItems};
ghost use Rattle.sp_format.specs.Formats.{HasLayout, HasNoLayout, HasTree, IsCanonical};
ghost use Rattle.sp_format.specs.Layout.{canonical_text};
ghost use Rattle.sp_format.specs.SameTrees.{SpellsAlike};
ghost use Rattle.sp_tree.specs.Breaches.{IsTree};
ghost use Rattle.sp_tree.specs.PlainSyntax.{Program};

/// A text has at most one list of items, and so at most one canonical text. Texts of the same items have the same one.
pub fn one_canonical_text()
    ensures items { (text : List ℕ) (is js : List AnItem) → HasItems text is → HasItems text js → is ≡ js }
    ensures text { (text a b : List ℕ) → IsCanonical text a → IsCanonical text b → a ≡ b }
    ensures same { (text other a b : List ℕ) (is : List AnItem) → HasItems text is → HasItems other is
        → IsCanonical text a → IsCanonical other b → a ≡ b }
{}

/// The canonical text of a program has the items of the program, breaks no rule of its characters and its grammar
/// either, and is its own canonical text: laid out again it is itself, and no rule is named.
pub fn items_kept()
    ensures items { (text : List ℕ) (is : List AnItem) → HasTree text → HasItems text is
        → HasItems (canonical_text is) is }
    ensures accepted { (text out : List ℕ) → HasTree text → IsCanonical text out → HasTree out }
    ensures again { (text out : List ℕ) → HasTree text → IsCanonical text out → IsCanonical out out }
    ensures not_refused { (text out : List ℕ) (r : Refusal) → HasTree text → IsCanonical text out → HasNoLayout out r
        → ⊥ }
{}

/// A text has at most one canonical text and at most one rule for which it has none, and never both.
pub fn one_layout()
    ensures layout { (text a b : List ℕ) → HasLayout text a → HasLayout text b → a ≡ b }
    ensures refusal { (text : List ℕ) (a b : Refusal) → HasNoLayout text a → HasNoLayout text b → a ≡ b }
    ensures not_both { (text out : List ℕ) (r : Refusal) → HasLayout text out → HasNoLayout text r → ⊥ }
{}

/// A program and its canonical text spell one tree but for places.
pub fn one_tree_but_for_places()
    ensures { (text out : List ℕ) (p : Program) → IsTree text p → IsCanonical text out → SpellsAlike text out p }
{}
