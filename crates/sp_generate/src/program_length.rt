//! The length of a whole tree.

ghost use Rattle.std.specs.Prelude.{◌≡◌};
ghost use Rattle.sp_tree.specs.PlainOf.{program_of};
ghost use Rattle.sp_code.specs.Places.{tree_length};
ghost use Rattle.sp_generate.specs.CappedLength.{capped_length};

use crate::length_sum::sum;
use crate::statement_lengths::stmt_length;
use sp_tree::Checked;

/// How many instructions the code of the program has, or 4,294,967,295 where it has more. It takes no memory. It
/// recurses as deep as the tree is.
#[tactic(auto, using(crate::proofs::LengthSums::summed))]
pub fn length(program: &Checked) -> u32
    ensures { result ≡ capped_length (tree_length (program_of program.now)) }
{
    let mut q = 0;
    for b in program.blocks.items() {
        q = stmt_length(program, &b.body, q);
        q = sum(q, 1);
    }
    q
}
