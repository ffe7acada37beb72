//! Laws which show that the definitions of names are the right ones. The functions do nothing: what counts is their
//! contracts.

ghost use Rattle.sp_tree.specs.PlainSyntax.{Program};
ghost use Rattle.sp_tree.specs.NameFirst.{names_first, broken_name_rules};
ghost use Rattle.sp_scope.specs.Laws.{IsFirstOf};

/// The rule of names that a program is refused for is broken, and no broken one stands before it, by place and then by
/// row; where a program is accepted none is broken.
pub fn first_of_names()
    ensures { (p : Program) → IsFirstOf (broken_name_rules p) (names_first p) }
{}
