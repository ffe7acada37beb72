//! Laws which show that the definitions are the right ones. The functions do nothing: what counts is their contracts.

ghost use Rattle.std.specs.Prelude.{◌≡◌, ◌∷◌, [], None};
ghost use Rattle.sp_tree.specs.PhaseResults.{first_of_refusals};
ghost use Rattle.sp_tree.specs.PlainNamed.{Program, Statement};
ghost use Rattle.sp_types.specs.Tables.{Env};
ghost use Rattle.sp_types.specs.TypeWalk.{statement_after, statement_counted};
ghost use Rattle.sp_types.specs.TypeFirst.{types_first, types_broken};
ghost use Rattle.sp_types.specs.CheckedTree.{program_checked};
ghost use Rattle.sp_types.specs.StatementNumbers.{AllDiffer, blocks_numbers, body_places, two_blocks};

/// The first broken rule of types of a program is the first, by place and then by row, of all that are broken.
pub fn first_is_least()
    ensures { (p : Program) → types_first p ≡ first_of_refusals (types_broken p) None }
{}

/// The number behind a statement is the one that counting its statements gives: the numbers of a statement and of those
/// inside it have no gap.
pub fn numbers_have_no_gap()
    ensures { (env : Env) (s : Statement) → (statement_after env s).next ≡ statement_counted env.next s }
{}

/// No two statements of a checked program have one number, in one block or in two, where the statement parts of its
/// blocks stand at different places.
pub fn numbers_differ()
    ensures { (p : Program) → AllDiffer (body_places p.blocks) → AllDiffer (blocks_numbers (program_checked p).blocks) }
{}

/// A row by computing: the numbers of two blocks, of an `if` with what stands in it, of a `for` with its body, and of
/// both single statements of a `send` of two values.
pub fn numbers_of_two_blocks()
    ensures { blocks_numbers two_blocks ≡ 3 ∷ 4 ∷ 5 ∷ 6 ∷ 7 ∷ 0 ∷ 1 ∷ 2 ∷ [] }
{}
