//! Texts whose code is as long as code may be, and longer.

use crate::rows::{is_given, is_refused, repeated};
use crate::text_code::instructions;
use sp_base::Rule;
use sp_front::{accepts, accepts_apart, compiled, compiled_apart};
use std::alloc::Global;

/// A text that writes so many arguments, one more than the parts.
fn arguments(alloc: Global, count: u32) -> Vec<u8> {
    let front = b"program l; var a: integer; begin a := 1; write(a";
    repeated(alloc, front, b",a", count, b") end.")
}

#[test]
fn as_long_as_code_may_be(rt: HostRuntime) {
    let text = arguments(rt.alloc(), 349_523);
    assert!(rt; instructions(compiled(rt.alloc(), &text)) == 1_048_576);
}

#[test]
fn longer_than_code_may_be(rt: HostRuntime) {
    let text = arguments(rt.alloc(), 349_524);
    assert!(rt; is_refused(compiled(rt.alloc(), &text), Rule::L5, 1, 1));
}

#[test]
fn as_long_as_it_may_be_without_its_code(rt: HostRuntime) {
    let text = arguments(rt.alloc(), 349_523);
    assert!(rt; is_given(accepts(rt.alloc(), &text)));
}

#[test]
fn longer_than_it_may_be_without_its_code(rt: HostRuntime) {
    let text = arguments(rt.alloc(), 349_524);
    assert!(rt; is_refused(accepts_apart(&rt, rt.alloc(), &text), Rule::L5, 1, 1));
}

#[test]
fn operands(rt: HostRuntime) {
    let front = b"program l; var a: integer; begin a := ";
    let text = repeated(rt.alloc(), front, b"1+", 400_000, b"1 end.");
    assert!(rt; instructions(compiled_apart(&rt, rt.alloc(), &text)) == 800_004);
}
