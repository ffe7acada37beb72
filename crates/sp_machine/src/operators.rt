//! What the operators and standard functions give of ordinals, or the fault.

ghost use Rattle.std.specs.Prelude.{◌≡◌, ◌≢◌, int_div, int_rem, pos, ◌*ℤ◌};
ghost use Rattle.sp_machine.specs.OperatorResults.{operator_result};
ghost use Rattle.sp_tree.specs.declared.operators.BinaryOp.TheVariants.{Div, Mod};
ghost use Rattle.sp_tree.specs.Operators.{Yields, truth, integer, value_in_range, successor, predecessor};
ghost use Rattle.sp_tree.specs.Operators.{absolute_value, square};
ghost use Rattle.sp_tree.specs.Operators.{is_odd, unary_op, binary_op};

use sp_base::{Fault, MAXINT};
use sp_tree::{BinaryOp, UnaryOp};

/// The number, where it is an integer of the language, or F2.
pub fn in_range(n: i128) -> Result<i64, Fault>
    ensures { operator_result result ≡ integer n }
{
    if n < -(MAXINT as i128) || n > MAXINT as i128 {
        Err(Fault::F2)
    } else {
        Ok(n as i64)
    }
}

/// The number, where it is from `low` to `high`, or F1.
pub fn within(low: i64, high: i64, n: i64) -> Result<i64, Fault>
    ensures { operator_result result ≡ value_in_range low high n }
{
    if low <= n && n <= high {
        Ok(n)
    } else {
        Err(Fault::F1)
    }
}

/// The next number, where there is one up to `high`, or F1.
pub fn next_of(high: i64, n: i64) -> Result<i64, Fault>
    ensures { operator_result result ≡ successor high n }
{
    if n < high { Ok(n + 1) } else { Err(Fault::F1) }
}

/// The number before, where there is one down to `low`, or F1.
pub fn previous_of(low: i64, n: i64) -> Result<i64, Fault>
    ensures { operator_result result ≡ predecessor low n }
{
    if low < n { Ok(n - 1) } else { Err(Fault::F1) }
}

/// The absolute value, or F2.
pub fn absolute_of(n: i64) -> Result<i64, Fault>
    ensures { operator_result result ≡ absolute_value n }
{
    let n = n as i128;
    in_range(if n < 0 { -n } else { n })
}

/// The square, or F2.
pub fn square_of(n: i64) -> Result<i64, Fault>
    ensures { operator_result result ≡ square n }
{
    product(n, n)
}

/// Whether the number is odd: 1 for true, 0 for false.
pub fn odd(n: i64) -> Result<i64, Fault>
    ensures { operator_result result ≡ is_odd n }
{
    Ok(if n % 2 == 0 { 0 } else { 1 })
}

/// 1 for true, 0 for false.
pub fn truth_of(b: bool) -> i64
    ensures { Yields result ≡ truth b }
{
    if b { 1 } else { 0 }
}

/// What an operator gives of an ordinal, or F2.
pub fn unary(op: UnaryOp, n: i64) -> Result<i64, Fault>
    ensures { operator_result result ≡ unary_op op n }
{
    match op {
        UnaryOp::Plus => Ok(n),
        UnaryOp::Minus => in_range(-(n as i128)),
        UnaryOp::Not => Ok(truth_of(n <= 0)),
    }
}

/// The product, or F2.
pub fn product(m: i64, n: i64) -> Result<i64, Fault>
    ensures { operator_result result ≡ integer (m *ℤ n) }
{
    in_range(wide_product(m, n))
}

fn wide_product(m: i64, n: i64) -> i128
    ensures { result ≡ m *ℤ n }
{
    m as i128 * n as i128
}

fn wide_quotient(m: i64, n: i64) -> i128
    requires { n ≢ pos 0 }
    ensures { result ≡ int_div m n }
{
    m as i128 / n as i128
}

fn wide_rest(m: i64, n: i64) -> i128
    requires { n ≢ pos 0 }
    ensures { result ≡ int_rem m n }
{
    m as i128 % n as i128
}

/// The quotient, truncated toward zero; F3 by 0.
pub fn quotient(m: i64, n: i64) -> Result<i64, Fault>
    ensures { operator_result result ≡ binary_op Div m n }
{
    if n == 0 {
        Err(Fault::F3)
    } else {
        in_range(wide_quotient(m, n))
    }
}

/// The remainder, from 0 to `n - 1`; F3 where `n` is not above 0 (ISO 7185).
pub fn modulus(m: i64, n: i64) -> Result<i64, Fault>
    ensures { operator_result result ≡ binary_op Mod m n }
{
    if n <= 0 {
        Err(Fault::F3)
    } else {
        let rest = wide_rest(m, n);
        if rest < 0 {
            in_range(rest + n as i128)
        } else {
            in_range(rest)
        }
    }
}

/// What an operator gives of two ordinals, or F2 or F3.
pub fn binary(op: BinaryOp, m: i64, n: i64) -> Result<i64, Fault>
    ensures { operator_result result ≡ binary_op op m n }
{
    match op {
        BinaryOp::Eq => Ok(truth_of(m == n)),
        BinaryOp::Ne => Ok(truth_of(m != n)),
        BinaryOp::Lt => Ok(truth_of(m < n)),
        BinaryOp::Le => Ok(truth_of(m <= n)),
        BinaryOp::Gt => Ok(truth_of(n < m)),
        BinaryOp::Ge => Ok(truth_of(n <= m)),
        BinaryOp::Add => in_range(m as i128 + n as i128),
        BinaryOp::Sub => in_range(m as i128 - n as i128),
        BinaryOp::Or => Ok(truth_of(m > 0 || n > 0)),
        BinaryOp::Mul => product(m, n),
        BinaryOp::Div => quotient(m, n),
        BinaryOp::Mod => modulus(m, n),
        BinaryOp::And => Ok(truth_of(m > 0 && n > 0)),
    }
}
