//! Each rule of types with a text that breaks it, beside a near one that breaks none; and the numbers of single
//! statements.

use crate::rows::{Row, is_given};
use sp_base::{Halt, Rule};
use sp_front::typed;
use sp_tree::{Checked, Form, Stmt};

const ROWS: [Row; 26] = [
    Row {
        rule: Rule::Y1,
        column: 28,
        refused: b"program e; begin write(1 + true) end.",
        accepted: b"program e; begin write(1 + ord(true)) end.",
    },
    Row {
        rule: Rule::Y1,
        column: 75,
        refused: b"program e; type t = *(char); u = *(char); var a: t; b: u; begin write(a = b) end.",
        accepted: b"program e; type t = *(char); u = t; var a: t; b: u; begin write(a = b) end.",
    },
    Row {
        rule: Rule::Y2,
        column: 34,
        refused: b"program e; var x: integer; begin x[1] := 1 end.",
        accepted: b"program e; type t = array [1..2] of integer; var x: t; begin x[1] := 1 end.",
    },
    Row {
        rule: Rule::Y2,
        column: 64,
        refused: b"program e; type t = array [1..2] of integer; var x: t; begin x['a'] := 1 end.",
        accepted: b"program e; type t = array ['a'..'b'] of integer; var x: t; begin x['a'] := 1 end.",
    },
    Row {
        rule: Rule::Y3,
        column: 34,
        refused: b"program e; var x: integer; begin x.y := 1 end.",
        accepted: b"program e; type t = record y: integer end; var x: t; begin x.y := 1 end.",
    },
    Row {
        rule: Rule::Y4,
        column: 24,
        refused: b"program e; begin while 1 do end.",
        accepted: b"program e; begin while false do end.",
    },
    Row {
        rule: Rule::Y5,
        column: 39,
        refused: b"program e; var b: boolean; begin b := 1 end.",
        accepted: b"program e; var b: boolean; begin b := true end.",
    },
    Row {
        rule: Rule::Y5,
        column: 96,
        refused: b"program e; type t = array [1..2] of char; u = array [1..2] of char; var a: t; b: u; begin a := b end.",
        accepted: b"program e; type t = array [1..2] of char; u = t; var a: t; b: u; begin a := b end.",
    },
    Row {
        rule: Rule::Y6,
        column: 56,
        refused: b"program e; procedure p(b: boolean); begin end; begin p(1) end.",
        accepted: b"program e; procedure p(b: integer); begin end; begin p(1) end.",
    },
    Row {
        rule: Rule::Y7,
        column: 60,
        refused: b"program e; procedure p(var b: boolean); begin end; begin p(1) end.",
        accepted: b"program e; var x: boolean; procedure p(var b: boolean); begin end; begin p(x) end.",
    },
    Row {
        rule: Rule::Y8,
        column: 24,
        refused: b"program e; begin write(1:true) end.",
        accepted: b"program e; begin write(true:1) end.",
    },
    Row {
        rule: Rule::Y9,
        column: 54,
        refused: b"program e; type t = *(char); var c: t; begin send(c, 1) end.",
        accepted: b"program e; type t = *(char, integer); var c: t; begin send(c, 1) end.",
    },
    Row {
        rule: Rule::Y10,
        column: 43,
        refused: b"program e; var i: integer; begin for i := true to 2 do end.",
        accepted: b"program e; var i: boolean; begin for i := false to true do end.",
    },
    Row {
        rule: Rule::Y11,
        column: 28,
        refused: b"program e; begin case 1 of true: end end.",
        accepted: b"program e; begin case 1 of 1: end end.",
    },
    Row {
        rule: Rule::Y12,
        column: 33,
        refused: b"program e; begin case 1 of 1: ; 1: end end.",
        accepted: b"program e; begin case 1 of 1: ; 2: end end.",
    },
    Row {
        rule: Rule::Y13,
        column: 31,
        refused: b"program e; type t = array [2..1] of char; begin end.",
        accepted: b"program e; type t = array [2..2] of char; begin end.",
    },
    Row {
        rule: Rule::Y14,
        column: 22,
        refused: b"program e; const c = -true; begin end.",
        accepted: b"program e; const c = -maxint; begin end.",
    },
    Row {
        rule: Rule::Y14,
        column: 36,
        refused: b"program e; var c: char; begin c := 'ab' end.",
        accepted: b"program e; var c: char; begin c := 'a'; write('ab') end.",
    },
    Row {
        rule: Rule::L3,
        column: 17,
        refused: b"program e; type a = array [1..1048577] of integer; begin end.",
        accepted: b"program e; type a = array [1..1048576] of integer; begin end.",
    },
    Row {
        rule: Rule::L3,
        column: 17,
        refused: b"program e; type t = array [0..maxint] of char; begin end.",
        accepted: b"program e; type t = array [1..1048576] of char; begin end.",
    },
    Row {
        rule: Rule::L6,
        column: 9,
        refused: b"program e; type t = array [1..1048576] of char; var x, y: t; begin end.",
        accepted: b"program e; type t = array [1..1048576] of char; var x: t; begin end.",
    },
    // Operators of one level go from left to right, and an expression begins at its outermost parenthesis.
    Row {
        rule: Rule::Y1,
        column: 43,
        refused: b"program e; var x: integer; begin x := 1 + 'a' end.",
        accepted: b"program e; var x: integer; begin x := 1 + ord('a') end.",
    },
    Row {
        rule: Rule::Y5,
        column: 39,
        refused: b"program e; var x: integer; begin x := 'a' end.",
        accepted: b"program e; var x: integer; begin x := ord('a') end.",
    },
    Row {
        rule: Rule::Y1,
        column: 60,
        refused: b"program e; var x, d: boolean; a, b, c: integer; begin x := +a + b - c or d end.",
        accepted: b"program e; var x, d: boolean; a, b, c: integer; begin x := (+a + b - c = 0) or d end.",
    },
    Row {
        rule: Rule::Y1,
        column: 63,
        refused: b"program e; var x, e: boolean; a, b, c, d: integer; begin x := a * b div c mod d and e end.",
        accepted: b"program e; var x, e: boolean; a, b, c, d: integer; begin x := (a * b div c mod d = 0) and e end.",
    },
    Row {
        rule: Rule::Y5,
        column: 54,
        refused: b"program e; var x: boolean; a, b: integer; begin x := ((a) + b) end.",
        accepted: b"program e; var x: boolean; a, b: integer; begin x := ((a) = b) end.",
    },
];

#[test]
fn rules_of_types(rt: HostRuntime) {
    for row in &ROWS {
        let column = row.column;
        assert!(rt; row.refuses(typed(rt.alloc(), row.refused)), "{column}");
        assert!(rt; is_given(typed(rt.alloc(), row.accepted)), "{column}");
    }
}

// Whether each of these writes a value, and has one of the two numbers behind that of the call.
fn are_numbered_writes(statements: &[Stmt]) -> bool {
    for s in statements {
        if s.number != 2 && s.number != 3 {
            return false;
        }
        if !matches!(&s.form, Form::WriteValue(_, None)) {
            return false;
        }
    }
    true
}

// How many single statements of a body are in calls that write two values each.
fn written(body: &Stmt) -> usize {
    let Form::Sequence(calls) = &body.form else {
        return 0;
    };
    let mut count = 0usize;
    for call in calls.items() {
        if let Form::Sequence(all) = &call.form {
            if call.number == 1 && are_numbered_writes(all.items()) {
                count = count.saturating_add(all.len());
            }
        }
    }
    count
}

// How many types, variables and blocks a program has, and of how many single statements a block writes values.
fn counts(answer: Result<Checked, Halt>) -> [usize; 4] {
    match answer {
        Ok(checked) => {
            let writes = match checked.blocks.get(0) {
                Some(block) => written(&block.body),
                None => 0,
            };
            let counts = [
                checked.kinds.len(),
                checked.variables.len(),
                checked.blocks.len(),
                writes,
            ];
            drop(checked);
            counts
        }
        Err(_) => [0; 4],
    }
}

// Types and variables stay, statements are numbered, and a call with two arguments is two.
#[test]
fn a_call_with_two_arguments_is_two(rt: HostRuntime) {
    let text = b"program p(input, output); var x: integer; begin write(x, 'a') end.";
    assert_eq!(rt; counts(typed(rt.alloc(), text)), [3, 3, 1, 2]);
}
