//! What operators give, and the numbers that are read.

ghost use Rattle.std.specs.Prelude.{◌≡◌};
ghost use Rattle.sp_tree.specs.Items.{number_in};
ghost use Rattle.sp_tree.specs.Operators.{binary_op};
ghost use Rattle.sp_machine.specs.OperatorResults.{operator_result};
ghost use Rattle.sp_machine.specs.ReadResults.{read_result_of};

use sp_base::Fault;
use sp_machine::ReadResult;
use sp_tree::BinaryOp;

/// `sp_machine::binary`.
pub fn binary(op: BinaryOp, m: i64, n: i64) -> Result<i64, Fault>
    ensures { operator_result result ≡ binary_op op m n }
{
    let value = sp_machine::binary(op, m, n);
    value
}

/// `sp_machine::number_in`.
pub fn number_in(bytes: &[u8]) -> ReadResult
    ensures { read_result_of result ≡ number_in bytes.now }
{
    let item = sp_machine::number_in(bytes);
    item
}
