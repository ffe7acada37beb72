//! Tests of the calls of arithmetic of `sp_machine`, each once.

use sp_base::{Fault, MAXINT};
use sp_machine::{
    absolute_of, binary, in_range, modulus, next_of, odd, previous_of, product, quotient,
    square_of, truth_of, unary, within,
};
use sp_tree::{BinaryOp, UnaryOp};

#[test]
fn sums_and_products_too_large(rt: HostRuntime) {
    assert_eq!(rt; binary(BinaryOp::Add, MAXINT, 1), Err(Fault::F2));
    assert_eq!(rt; binary(BinaryOp::Sub, -MAXINT, 1), Err(Fault::F2));
    assert_eq!(rt;
        binary(BinaryOp::Mul, 3037000499, 3037000499),
        Ok(9223372030926249001)
    );
}

#[test]
fn quotients_and_their_rests(rt: HostRuntime) {
    assert_eq!(rt; binary(BinaryOp::Div, -7, 2), Ok(-3));
    assert_eq!(rt; binary(BinaryOp::Mod, -7, 2), Ok(1));
    assert_eq!(rt; binary(BinaryOp::Mod, 7, 0), Err(Fault::F3));
}

#[test]
fn truth_values_and_signs(rt: HostRuntime) {
    assert_eq!(rt; binary(BinaryOp::Le, 2, 2), Ok(1));
    assert_eq!(rt; unary(UnaryOp::Minus, MAXINT), Ok(-MAXINT));
    assert_eq!(rt; unary(UnaryOp::Not, truth_of(false)), Ok(1));
}

#[test]
fn functions_of_one_number(rt: HostRuntime) {
    assert_eq!(rt; square_of(3037000500), Err(Fault::F2));
    assert_eq!(rt; absolute_of(-MAXINT), Ok(MAXINT));
    assert_eq!(rt; odd(-3), Ok(1));
    assert_eq!(rt; in_range(5), Ok(5));
}

#[test]
fn functions_within_bounds(rt: HostRuntime) {
    assert_eq!(rt; within(0, 255, 256), Err(Fault::F1));
    assert_eq!(rt; next_of(MAXINT, MAXINT), Err(Fault::F1));
    assert_eq!(rt; previous_of(0, 1), Ok(0));
}

#[test]
fn functions_of_two_numbers(rt: HostRuntime) {
    assert_eq!(rt; product(6, 7), Ok(42));
    assert_eq!(rt; quotient(7, 0), Err(Fault::F3));
    assert_eq!(rt; modulus(7, 4), Ok(3));
}
