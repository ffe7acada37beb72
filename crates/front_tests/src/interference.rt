//! Each rule of interference with a text that breaks it, beside a near one that breaks none.

use crate::rows::{Row, is_given};
use sp_base::Rule;
use sp_front::compile;

const ROWS: [Row; 22] = [
    Row {
        rule: Rule::I1,
        column: 63,
        refused: b"program b; var x, y: integer; begin y := 1; parallel x := 1 | y := x end end.",
        accepted: b"program b; var x, y: integer; begin x := 1; parallel y := 1 | assume x = 1 end end.",
    },
    Row {
        rule: Rule::I1,
        column: 38,
        refused: b"program c; begin parallel write(1) | write(2) end end.",
        accepted: b"program c; var x: integer; begin parallel write(1) | x := 2 end end.",
    },
    Row {
        rule: Rule::I1,
        column: 83,
        refused: b"program v; type t = array [1..2] of integer; var a: t; begin parallel a[1] := 1 | a[2] := 2 end end.",
        accepted: b"program v; type t = array [1..2] of integer; var a, b: t; begin parallel a[1] := 1 | b[2] := 2 end end.",
    },
    Row {
        rule: Rule::I1,
        column: 78,
        refused: b"program e; var x: integer; procedure p; begin x := 1 end; begin parallel p | assume x = 1 end end.",
        accepted: b"program e; var x: integer; procedure p; var x: integer; begin x := 1 end; begin parallel p | assume x = 1 end end.",
    },
    Row {
        rule: Rule::I1,
        column: 73,
        refused: b"program e; var x: integer; begin parallel assume x = 1 | assume x = 2 | x := 3 end end.",
        accepted: b"program e; var x: integer; begin parallel assume x = 1 | assume x = 2 | assume x = 3 end end.",
    },
    Row {
        rule: Rule::I1,
        column: 64,
        refused: b"program e; var x: integer; begin parallel x := 1 | begin end | assume x = 2 end end.",
        accepted: b"program e; var x, y: integer; begin parallel x := 1 | begin end | assume y = 2 end end.",
    },
    Row {
        rule: Rule::I2,
        column: 34,
        refused: b"program d; var x: integer; begin forall i := 1 to 3 do x := i end.",
        accepted: b"program d; var x: integer; begin forall i := 1 to 3 do assume x = i end.",
    },
    Row {
        rule: Rule::I2,
        column: 50,
        refused: b"program d; procedure p; begin writeln end; begin forall i := 1 to 3 do p end.",
        accepted: b"program d; procedure p; var x: integer; begin x := 1 end; begin forall i := 1 to 3 do p end.",
    },
    Row {
        rule: Rule::I3,
        column: 38,
        refused: b"program e; var i: integer; begin for i := 1 to 2 do i := 1 end.",
        accepted: b"program e; var i, j: integer; begin for i := 1 to 2 do j := i end.",
    },
    Row {
        rule: Rule::I3,
        column: 69,
        refused: b"program e; var i: integer; procedure p; begin i := 1 end; begin for i := 1 to 2 do p end.",
        accepted: b"program e; var i: integer; procedure p; begin assume i = 1 end; begin for i := 1 to 2 do p end.",
    },
    Row {
        rule: Rule::I4,
        column: 114,
        refused: b"program f; var a, b: integer; procedure p(var u, v: integer); begin parallel u := 1 | v := 2 end end; begin p(a, a); write(a, b) end.",
        accepted: b"program f; var a, b: integer; procedure p(var u, v: integer); begin parallel u := 1 | v := 2 end end; begin p(a, b); write(a, b) end.",
    },
    Row {
        rule: Rule::I4,
        column: 144,
        refused: b"program f; type t = array [1..2] of integer; var a: t; procedure p(var u: integer; n: integer; var v: integer); begin end; begin p(a[1], a[1], a[2]) end.",
        accepted: b"program f; type t = array [1..2] of integer; var a, b: t; procedure p(var u: integer; n: integer; var v: integer); begin end; begin p(a[1], a[1], b[2]) end.",
    },
    Row {
        rule: Rule::I5,
        column: 83,
        refused: b"program e; var x: integer; procedure p(var a: integer); begin a := x end; begin p(x) end.",
        accepted: b"program e; var x, y: integer; procedure p(var a: integer); begin a := x end; begin p(y) end.",
    },
    Row {
        rule: Rule::I5,
        column: 109,
        refused: b"program e; var x: integer; procedure q; begin x := 1 end; procedure p(var a: integer); begin q end; begin p(x) end.",
        accepted: b"program e; var x, y: integer; procedure q; begin x := 1 end; procedure p(var a: integer); begin q end; begin p(y) end.",
    },
    Row {
        rule: Rule::I6,
        column: 38,
        refused: b"program e; var x: integer; procedure p; begin x := x + 1; if x < 3 then p end; begin x := 0; p end.",
        accepted: b"program e; procedure p(n: integer); begin write(n); if n < 3 then p(n + 1) end; begin p(0) end.",
    },
    Row {
        rule: Rule::I6,
        column: 38,
        refused: b"program e; var x: integer; procedure p; procedure q; begin p end; begin x := 1; q end; begin p end.",
        accepted: b"program e; procedure p; var x: integer; procedure q; begin p end; begin x := 1; q end; begin p end.",
    },
    Row {
        rule: Rule::I7,
        column: 27,
        refused: b"program e; function f(var a: integer): integer; begin f := 1 end; begin end.",
        accepted: b"program e; function f(a: integer): integer; begin f := 1 end; begin end.",
    },
    Row {
        rule: Rule::I8,
        column: 37,
        refused: b"program e; var x: integer; function f: integer; begin x := 1; f := 1 end; begin end.",
        accepted: b"program e; function f: integer; var x: integer; begin x := 1; f := x end; begin end.",
    },
    Row {
        rule: Rule::I8,
        column: 21,
        refused: b"program e; function f: integer; begin write(1); f := 1 end; begin end.",
        accepted: b"program e; var x: integer; function f: integer; begin f := x end; begin end.",
    },
    Row {
        rule: Rule::I9,
        column: 39,
        refused: b"program e; function f: integer; begin parallel f := 1 | assume true end end; begin end.",
        accepted: b"program e; function f: integer; begin f := 1; assume true end; begin end.",
    },
    Row {
        rule: Rule::I9,
        column: 85,
        refused: b"program e; procedure p; begin forall i := 1 to 2 do end; function f: integer; begin p; f := 1 end; begin end.",
        accepted: b"program e; procedure p; begin forall i := 1 to 2 do end; function f: integer; begin f := 1 end; begin p end.",
    },
    Row {
        rule: Rule::I9,
        column: 70,
        refused: b"program e; function f: integer; type t = *(integer); var c: t; begin open(c); f := 1 end; begin end.",
        accepted: b"program e; type t = *(integer); var c: t; begin open(c) end.",
    },
];

#[test]
fn rules_of_interference(rt: HostRuntime) {
    for row in &ROWS {
        let column = row.column;
        assert!(rt; row.refuses(compile(rt.alloc(), row.refused)), "{column}");
        assert!(rt; is_given(compile(rt.alloc(), row.accepted)), "{column}");
    }
}
