//! Each rule of names with a text that breaks it, beside a near one that breaks none; and how many names there are.

use crate::phases::chain;
use crate::rows::{Row, is_given};
use sp_base::{Halt, Rule};
use sp_front::read_text;
use sp_scope::resolve;
use sp_tree::Named;
use std::alloc::Global;

fn named(alloc: Global, text: &[u8]) -> Result<Named, Halt> {
    let syntax = read_text(alloc, text)?;
    resolve(alloc, syntax)
}

const ROWS: [Row; 15] = [
    Row {
        rule: Rule::N1,
        column: 18,
        refused: b"program e; begin x := 1 end.",
        accepted: b"program e; var x: integer; begin x := 1 end.",
    },
    Row {
        rule: Rule::N1,
        column: 22,
        refused: b"program e; const b = a; a = 1; begin end.",
        accepted: b"program e; const a = 1; b = a; begin end.",
    },
    Row {
        rule: Rule::N1,
        column: 11,
        refused: b"program e(file1); begin end.",
        accepted: b"program e(input, output); begin end.",
    },
    Row {
        rule: Rule::N2,
        column: 19,
        refused: b"program e; var x, x: integer; begin end.",
        accepted: b"program e; var x, y: integer; begin end.",
    },
    Row {
        rule: Rule::N2,
        column: 38,
        refused: b"program e; procedure p(x: char); var x: char; begin end; begin end.",
        accepted: b"program e; procedure p(x: char); procedure q; var x: char; begin end; begin end; begin end.",
    },
    Row {
        rule: Rule::N2,
        column: 37,
        refused: b"program e; type t = record a: char; a: char end; begin end.",
        accepted: b"program e; type t = record a: char end; a = char; begin end.",
    },
    Row {
        rule: Rule::N3,
        column: 24,
        refused: b"program e; begin write(integer) end.",
        accepted: b"program e; var integer: char; begin integer := 'a'; write(integer) end.",
    },
    Row {
        rule: Rule::N4,
        column: 37,
        refused: b"program e; type t = array [1..2] of t; begin end.",
        accepted: b"program e; type s = char; t = array [1..2] of s; begin end.",
    },
    Row {
        rule: Rule::N5,
        column: 56,
        refused: b"program e; procedure p(x: integer); begin end; begin p(1:2) end.",
        accepted: b"program e; procedure p(x: integer); begin end; begin p(1); write(1:2) end.",
    },
    Row {
        rule: Rule::N5,
        column: 39,
        refused: b"program e; var x: integer; begin read((x)) end.",
        accepted: b"program e; var x: integer; begin read(x) end.",
    },
    Row {
        rule: Rule::N6,
        column: 24,
        refused: b"program e; begin write(abs(1, 2)) end.",
        accepted: b"program e; begin write(abs(1)) end.",
    },
    Row {
        rule: Rule::N7,
        column: 18,
        refused: b"program e; begin maxint := 1 end.",
        accepted: b"program e; var maxint: integer; begin maxint := 1 end.",
    },
    Row {
        rule: Rule::N7,
        column: 52,
        refused: b"program e; function f: integer; procedure p; begin f := 1 end; begin f := 1 end; begin end.",
        accepted: b"program e; function f: integer; procedure p; begin end; begin f := 1 end; begin end.",
    },
    Row {
        rule: Rule::N7,
        column: 46,
        refused: b"program e; begin forall i := 1 to 2 do begin i := 1 end end.",
        accepted: b"program e; var i: integer; begin forall i := 1 to 2 do begin end; i := 1 end.",
    },
    Row {
        rule: Rule::N8,
        column: 47,
        refused: b"program e; procedure p(i: integer); begin for i := 1 to 2 do end; begin end.",
        accepted: b"program e; procedure p; var i: integer; begin for i := 1 to 2 do end; begin end.",
    },
];

#[test]
fn rules_of_names(rt: HostRuntime) {
    for row in &ROWS {
        let column = row.column;
        assert!(rt; row.refuses(named(rt.alloc(), row.refused)), "{column}");
        assert!(rt; is_given(named(rt.alloc(), row.accepted)), "{column}");
    }
}

// How many constants, types, variables and blocks there are.
fn counts(answer: Result<Named, Halt>) -> [usize; 4] {
    match answer {
        Ok(named) => {
            let counts = [
                named.constants.len(),
                named.kinds.len(),
                named.variables.len(),
                named.blocks.len(),
            ];
            drop(named);
            counts
        }
        Err(_) => [0; 4],
    }
}

// Beside those of the language.
#[test]
fn a_constant_and_4096_types(rt: HostRuntime) {
    let constant = counts(named(rt.alloc(), b"program g; const a = maxint; begin end."));
    assert_eq!(rt; constant, [4, 3, 2, 1]);
    let types = counts(named(rt.alloc(), &chain(rt.alloc(), 4096, b"1..1")));
    assert_eq!(rt; types, [3, 4099, 2, 1]);
}
