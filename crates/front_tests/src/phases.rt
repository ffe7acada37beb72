//! Large texts through the phases up to types, and to their sets, on the thread that has the stack for them.

use crate::rows::{add, add_times, is_given, is_refused, repeated};
use sp_base::Rule;
use sp_front::analyse_apart;
use std::alloc::Global;
use std::thread::Threads;

const DIGITS: &[u8] = b"abcdefghijklmnopqrstuvwxyz0123456789";

fn digit(n: u32) -> u8 {
    DIGITS.get(n as usize).copied().unwrap_or(b'a')
}

fn first_letter(n: u32) -> u8 {
    if n < 1296 {
        b'q'
    } else if n < 2592 {
        b'x'
    } else if n < 3888 {
        b'y'
    } else {
        b'z'
    }
}

// A name of three characters that no word symbol is.
fn put_name(text: &mut Vec<u8>, n: u32) {
    add(text, &[first_letter(n), digit(n / 36 % 36), digit(n % 36)]);
}

fn put_names(text: &mut Vec<u8>, count: u32) {
    for n in 0..count {
        if n > 0 {
            add(text, b",");
        }
        put_name(text, n);
    }
}

fn takes(threads: &impl Threads, alloc: Global, text: &[u8]) -> bool {
    is_given(analyse_apart(threads, alloc, text))
}

fn breaks(threads: &impl Threads, alloc: Global, text: &[u8], rule: Rule, column: u32) -> bool {
    is_refused(analyse_apart(threads, alloc, text), rule, 1, column)
}

fn put_uses(text: &mut Vec<u8>, count: u32) {
    for n in 0..150_000 {
        put_name(text, n % count.max(1));
        add(text, b"+1+");
    }
}

// So many variables, used 300,000 times.
fn variables(alloc: Global, count: u32) -> Vec<u8> {
    let mut text = Vec::new(alloc);
    add(&mut text, b"program p; var ");
    put_names(&mut text, count);
    add(&mut text, b": integer; begin qaa := ");
    put_uses(&mut text, count);
    add(&mut text, b"1 end.");
    text
}

fn put_element(text: &mut Vec<u8>, n: u32) {
    if n == 0 {
        add(text, b"char;");
        return;
    }
    put_name(text, n.saturating_sub(1));
    add(text, b";");
}

fn put_array_type(text: &mut Vec<u8>, n: u32, bounds: &[u8]) {
    put_name(text, n);
    add(text, b"=array[");
    add(text, bounds);
    add(text, b"]of ");
    put_element(text, n);
}

/// A chain of array types, each of arrays of the one before.
pub(crate) fn chain(alloc: Global, count: u32, bounds: &[u8]) -> Vec<u8> {
    let mut text = Vec::new(alloc);
    add(&mut text, b"program p; type ");
    for n in 0..count {
        put_array_type(&mut text, n, bounds);
    }
    add(&mut text, b"begin end.");
    text
}

fn put_assignments(text: &mut Vec<u8>) {
    for n in 0..60_000 {
        add(text, b"v.");
        put_name(text, n % 5184);
        add(text, b":='a';");
    }
}

fn fields(alloc: Global) -> Vec<u8> {
    let mut text = Vec::new(alloc);
    add(&mut text, b"program p; type t = record ");
    put_names(&mut text, 5184);
    add(&mut text, b": char end; var v: t; begin ");
    put_assignments(&mut text);
    add(&mut text, b"end.");
    text
}

// So many values on a channel that is found by as many operands.
fn values(alloc: Global, operands: u32, count: u32) -> Vec<u8> {
    let mut text = Vec::new(alloc);
    add(
        &mut text,
        b"program p; type c = *(integer); t = array [0..1] of c; ",
    );
    add(&mut text, b"var a: t; begin open(a[0]); send(a[0");
    add_times(&mut text, b"+0", operands);
    add(&mut text, b"]");
    add_times(&mut text, b",1", count);
    add(&mut text, b") end.");
    text
}

#[test]
fn variables_and_types_at_their_limits(rt: HostRuntime) {
    let alloc = rt.alloc();
    assert!(rt; takes(&rt, alloc, &variables(alloc, 4096)));
    assert!(rt; breaks(&rt, alloc, &variables(alloc, 4097), Rule::L4, 16400));
    assert!(rt; takes(&rt, alloc, &chain(alloc, 4096, b"1..1")));
    assert!(rt; breaks(&rt, alloc, &chain(alloc, 4097, b"1..1"), Rule::L4, 90130));
    assert!(rt; breaks(&rt, alloc, &chain(alloc, 4096, b"1..2"), Rule::L3, 458));
}

// Fields and message types are looked up, not searched, and a channel is walked through once, however many values are
// sent on it.
#[test]
fn operands_fields_and_values(rt: HostRuntime) {
    let alloc = rt.alloc();
    let front = b"program p; var x: integer; begin x := ";
    assert!(rt;
        takes(
            &rt,
            alloc,
            &repeated(alloc, front, b"1+", 400_000, b"1 end.")
        )
    );
    assert!(rt; takes(&rt, alloc, &fields(alloc)));
    assert!(rt; takes(&rt, alloc, &values(alloc, 150_000, 250_000)));
}
