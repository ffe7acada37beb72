//! The code of each form of statement and expression, instruction by instruction, beside the tables of docs/CODE.md.

use crate::text_code::is_listed;
use std::alloc::Global;
use std::process::Abort;

struct Row<'a> {
    text: &'a [u8],
    listing: &'a [u8],
}

const SIMPLE: [Row; 13] = [
    Row {
        text: b"program a; begin end.",
        listing: b"0 end\n",
    },
    Row {
        text: b"program a; var x: integer; begin x := 6; write(x * 7) end.",
        listing: b"0 addr 0 2\n1 const 6\n2 store\n3 addr 0 2\n4 load\n5 const 7\n6 mul\n7 write int\n8 end\n",
    },
    Row {
        text: b"program a; var x: integer; begin assume x = 1 end.",
        listing: b"0 addr 0 2\n1 load\n2 const 1\n3 eq\n4 assume\n5 end\n",
    },
    Row {
        text: b"program a; var x: integer; c: char; begin read(x, c); readln end.",
        listing: b"0 addr 0 2\n1 read int\n2 addr 0 3\n3 read char\n4 readln\n5 end\n",
    },
    Row {
        text: b"program a; begin write('ab', 'a', true); writeln('cd') end.",
        listing: b"0 write text 0\n1 const 97\n2 write char\n3 const 1\n4 write bool\n5 write text 1\n6 writeln\n7 end\n",
    },
    Row {
        text: b"program a; begin write(1: 5, 'ab': 4, 'a': 3, false: 2) end.",
        listing: b"0 const 1\n1 const 5\n2 writew int\n3 const 4\n4 writew text 0\n5 const 97\n6 const 3\n7 writew char\n8 const 0\n9 const 2\n10 writew bool\n11 end\n",
    },
    Row {
        text: b"program a; type t = *(integer); var c: t; x: integer; begin open(c); send(c, 1); receive(c, x) end.",
        listing: b"0 addr 0 2\n1 open\n2 addr 0 2\n3 loadc\n4 const 1\n5 send 0\n6 addr 0 2\n7 loadc\n8 addr 0 3\n9 receive 0\n10 end\n",
    },
    Row {
        text: b"program a; type t = *(integer); var c: t; x, y: integer; begin send(c, 1, 2); receive(c, x, y) end.",
        listing: b"0 addr 0 2\n1 loadc\n2 const 1\n3 send 0\n4 addr 0 2\n5 loadc\n6 const 2\n7 send 0\n8 addr 0 2\n9 loadc\n10 addr 0 3\n11 receive 0\n12 addr 0 2\n13 loadc\n14 addr 0 4\n15 receive 0\n16 end\n",
    },
    Row {
        text: b"program a; type t = array [1..3] of integer; var a, b: t; begin a := b; a[1] := a[2] end.",
        listing: b"0 addr 0 2\n1 addr 0 3\n2 copy 3\n3 addr 0 2\n4 const 1\n5 index 1 3 1\n6 addr 0 2\n7 const 2\n8 index 1 3 1\n9 load\n10 store\n11 end\n",
    },
    Row {
        text: b"program a; type t = record x, y: integer end; var a: t; begin a.y := a.x end.",
        listing: b"0 addr 0 2\n1 field 1\n2 addr 0 2\n3 field 0\n4 load\n5 store\n6 end\n",
    },
    Row {
        text: b"program a; var x: integer; c: char; b: boolean; begin x := -abs(+sqr(x)); b := not odd(x); c := chr(ord(c)) end.",
        listing: b"0 addr 0 2\n1 addr 0 2\n2 load\n3 sqr\n4 abs\n5 neg\n6 store\n7 addr 0 4\n8 addr 0 2\n9 load\n10 odd\n11 not\n12 store\n13 addr 0 3\n14 addr 0 3\n15 load\n16 range 0 255\n17 store\n18 end\n",
    },
    Row {
        text: b"program a; type e = (r, g, b); var x: e; c: boolean; begin x := succ(pred(x)); c := eof or eoln end.",
        listing: b"0 addr 0 2\n1 addr 0 2\n2 load\n3 pred 0\n4 succ 2\n5 store\n6 addr 0 3\n7 eof\n8 eoln\n9 or\n10 store\n11 end\n",
    },
    Row {
        text: b"program a; var b: boolean; begin b := (1 + 2 - 3 < 4 * 5 div 6 mod 7) and (1 <= 2); b := (1 > 2) or (1 >= 2); b := (1 <> 2) = b end.",
        listing: b"0 addr 0 2\n1 const 1\n2 const 2\n3 add\n4 const 3\n5 sub\n6 const 4\n7 const 5\n8 mul\n9 const 6\n10 div\n11 const 7\n12 mod\n13 lt\n14 const 1\n15 const 2\n16 le\n17 and\n18 store\n19 addr 0 2\n20 const 1\n21 const 2\n22 gt\n23 const 1\n24 const 2\n25 ge\n26 or\n27 store\n28 addr 0 2\n29 const 1\n30 const 2\n31 ne\n32 addr 0 2\n33 load\n34 eq\n35 store\n36 end\n",
    },
];

const BRANCHES: [Row; 7] = [
    Row {
        text: b"program a; var x: integer; begin if x > 0 then x := 1 end.",
        listing: b"0 addr 0 2\n1 load\n2 const 0\n3 gt\n4 jumpf 8\n5 addr 0 2\n6 const 1\n7 store\n8 end\n",
    },
    Row {
        text: b"program a; var x: integer; begin if x > 0 then x := 1 else x := 2 end.",
        listing: b"0 addr 0 2\n1 load\n2 const 0\n3 gt\n4 jumpf 9\n5 addr 0 2\n6 const 1\n7 store\n8 jump 12\n9 addr 0 2\n10 const 2\n11 store\n12 end\n",
    },
    Row {
        text: b"program a; var x: integer; begin while x > 0 do x := x - 1 end.",
        listing: b"0 addr 0 2\n1 load\n2 const 0\n3 gt\n4 jumpf 13\n5 tick\n6 addr 0 2\n7 addr 0 2\n8 load\n9 const 1\n10 sub\n11 store\n12 jump 0\n13 end\n",
    },
    Row {
        text: b"program a; var x: integer; begin repeat x := 1 until x > 0 end.",
        listing: b"0 tick\n1 addr 0 2\n2 const 1\n3 store\n4 addr 0 2\n5 load\n6 const 0\n7 gt\n8 jumpf 0\n9 end\n",
    },
    Row {
        text: b"program a; var x: integer; begin for x := 1 to 3 do write(x) end.",
        listing: b"0 const 1\n1 const 3\n2 forup 2 8\n3 tick\n4 addr 0 2\n5 load\n6 write int\n7 nextup 2 3\n8 end\n",
    },
    Row {
        text: b"program a; var x: integer; begin for x := 3 downto 1 do end.",
        listing: b"0 const 3\n1 const 1\n2 fordown 2 5\n3 tick\n4 nextdown 2 3\n5 end\n",
    },
    Row {
        text: b"program a; var x: integer; begin case x of 1, 2: x := 1; 3: x := 2 end end.",
        listing: b"0 addr 0 2\n1 load\n2 casej 1 6\n3 casej 2 6\n4 casej 3 10\n5 nocase\n6 addr 0 2\n7 const 1\n8 store\n9 jump 14\n10 addr 0 2\n11 const 2\n12 store\n13 jump 14\n14 end\n",
    },
];

const FORKS: [Row; 4] = [
    Row {
        text: b"program a; var x, y, z: integer; begin z := 3; parallel x := z | y := 2 * z end end.",
        listing: b"0 addr 0 4\n1 const 3\n2 store\n3 fork 0\n4 jump 17\n5 addr 0 2\n6 addr 0 4\n7 load\n8 store\n9 end\n10 addr 0 3\n11 const 2\n12 addr 0 4\n13 load\n14 mul\n15 store\n16 end\n17 end\ntable 0 child 0 entry 5 moves 2 shares 4\ntable 0 child 1 entry 10 moves 3 shares 4\n",
    },
    Row {
        text: b"program a; begin forall i := 1 to 3 do begin end end.",
        listing: b"0 const 1\n1 const 3\n2 forall 0\n3 jump 5\n4 end\n5 end\ntable 0 child 0 entry 4 moves shares\n",
    },
    Row {
        text: b"program a; var x: integer; begin x := 1; forall i := x to 3 do assume x + i > 0 end.",
        listing: b"0 addr 0 2\n1 const 1\n2 store\n3 addr 0 2\n4 load\n5 const 3\n6 forall 0\n7 jump 17\n8 addr 1 2\n9 load\n10 addr 0 0\n11 load\n12 add\n13 const 0\n14 gt\n15 assume\n16 end\n17 end\ntable 0 child 0 entry 8 moves shares 2\n",
    },
    Row {
        text: b"program a; begin forall i := 1 to 2 do forall j := 1 to 2 do assume i = j end.",
        listing: b"0 const 1\n1 const 2\n2 forall 0\n3 jump 16\n4 const 1\n5 const 2\n6 forall 1\n7 jump 15\n8 addr 1 0\n9 load\n10 addr 0 0\n11 load\n12 eq\n13 assume\n14 end\n15 end\n16 end\ntable 0 child 0 entry 4 moves shares\ntable 1 child 0 entry 8 moves shares 2\n",
    },
];

const BLOCKS: [Row; 5] = [
    Row {
        text: b"program a; function f(n: integer): integer; begin f := n end; begin write(f(3)) end.",
        listing: b"0 const 3\n1 call 1 0\n2 write int\n3 end\n4 addr 0 1\n5 addr 0 0\n6 load\n7 store\n8 return\n",
    },
    Row {
        text: b"program a; procedure p(var x: integer; y: integer); begin x := y end; var z: integer; begin p(z, 2) end.",
        listing: b"0 addr 0 2\n1 const 2\n2 call 1 0\n3 end\n4 deref 0 0\n5 addr 0 1\n6 load\n7 store\n8 return\n",
    },
    Row {
        text: b"program a; type t = array [1..3] of integer; var a: t; procedure p(x: t); begin end; begin p(a) end.",
        listing: b"0 addr 0 2\n1 pack 3\n2 call 1 0\n3 end\n4 return\n",
    },
    Row {
        text: b"program a; var x: integer; procedure p; procedure q; begin x := 1 end; begin q end; begin p end.",
        listing: b"0 call 1 0\n1 end\n2 call 2 0\n3 return\n4 addr 2 2\n5 const 1\n6 store\n7 return\n",
    },
    Row {
        text: b"program a; var x: integer; procedure p; begin x := 1 end; begin parallel p | end end.",
        listing: b"0 fork 0\n1 jump 5\n2 call 1 0\n3 end\n4 end\n5 end\n6 addr 1 2\n7 const 1\n8 store\n9 return\ntable 0 child 0 entry 2 moves 2 shares\ntable 0 child 1 entry 4 moves shares\n",
    },
];

// Each form of statement, inside others, and with nothing in it.
const STATEMENTS: [Row; 9] = [
    Row {
        text: b"program g; var x: integer; procedure p; begin end; begin ; begin end; P; x := 1 end.",
        listing: b"0 call 1 0\n1 addr 0 2\n2 const 1\n3 store\n4 end\n5 return\n",
    },
    Row {
        text: b"program g; var x, y: integer; begin write(1, x: 2, y) end.",
        listing: b"0 const 1\n1 write int\n2 addr 0 2\n3 load\n4 const 2\n5 writew int\n6 addr 0 3\n7 load\n8 write int\n9 end\n",
    },
    Row {
        text: b"program g; var a: boolean; procedure b; begin end; procedure c; begin end; begin if a then b else c; if a then else end.",
        listing: b"0 addr 0 2\n1 load\n2 jumpf 5\n3 call 1 0\n4 jump 6\n5 call 2 0\n6 addr 0 2\n7 load\n8 jumpf 10\n9 jump 10\n10 end\n11 return\n12 return\n",
    },
    Row {
        text: b"program g; var a, b, c: boolean; procedure d; begin end; procedure e; begin end; begin if a then while b do if c then d else e end.",
        listing: b"0 addr 0 2\n1 load\n2 jumpf 14\n3 addr 0 3\n4 load\n5 jumpf 14\n6 tick\n7 addr 0 4\n8 load\n9 jumpf 12\n10 call 1 0\n11 jump 13\n12 call 2 0\n13 jump 3\n14 end\n15 return\n16 return\n",
    },
    Row {
        text: b"program g; var c: boolean; procedure a; begin end; procedure b; begin end; procedure d; begin end; begin repeat a; b until c; d end.",
        listing: b"0 tick\n1 call 1 0\n2 call 2 0\n3 addr 0 2\n4 load\n5 jumpf 0\n6 call 3 0\n7 end\n8 return\n9 return\n10 return\n",
    },
    Row {
        text: b"program g; var i: integer; procedure a; begin end; begin for i := 1 to 2 do a; for i := 2 downto 1 do end.",
        listing: b"0 const 1\n1 const 2\n2 forup 2 6\n3 tick\n4 call 1 0\n5 nextup 2 3\n6 const 2\n7 const 1\n8 fordown 2 11\n9 tick\n10 nextdown 2 9\n11 end\n12 return\n",
    },
    Row {
        text: b"program g; const a = 3; var x: integer; y: char; procedure b; begin end; begin case x of 1, -a: b; +2: ; end; case y of 'c': end end.",
        listing: b"0 addr 0 2\n1 load\n2 casej 1 6\n3 casej -3 6\n4 casej 2 8\n5 nocase\n6 call 1 0\n7 jump 9\n8 jump 9\n9 addr 0 3\n10 load\n11 casej 99 13\n12 nocase\n13 jump 14\n14 end\n15 return\n",
    },
    Row {
        text: b"program g; procedure a; begin end; procedure b; begin end; procedure c; begin end; begin parallel a; b | c | end; forall i := 1 to 2 do a end.",
        listing: b"0 fork 0\n1 jump 8\n2 call 1 0\n3 call 2 0\n4 end\n5 call 3 0\n6 end\n7 end\n8 const 1\n9 const 2\n10 forall 1\n11 jump 14\n12 call 1 1\n13 end\n14 end\n15 return\n16 return\n17 return\ntable 0 child 0 entry 2 moves shares\ntable 0 child 1 entry 5 moves shares\ntable 0 child 2 entry 7 moves shares\ntable 1 child 0 entry 12 moves shares\n",
    },
    Row {
        text: b"program g; var a, b: integer; begin assume a < b end.",
        listing: b"0 addr 0 2\n1 load\n2 addr 0 3\n3 load\n4 lt\n5 assume\n6 end\n",
    },
];

// Operators by their levels, parentheses, and selectors one behind the other.
const EXPRESSIONS: [Row; 7] = [
    Row {
        text: b"program g; var x: boolean; a, b: integer; begin x := a = b; x := a <> b end.",
        listing: b"0 addr 0 2\n1 addr 0 3\n2 load\n3 addr 0 4\n4 load\n5 eq\n6 store\n7 addr 0 2\n8 addr 0 3\n9 load\n10 addr 0 4\n11 load\n12 ne\n13 store\n14 end\n",
    },
    Row {
        text: b"program g; var x: boolean; a, b, c: integer; begin x := a <= b + c end.",
        listing: b"0 addr 0 2\n1 addr 0 3\n2 load\n3 addr 0 4\n4 load\n5 addr 0 5\n6 load\n7 add\n8 le\n9 store\n10 end\n",
    },
    Row {
        text: b"program g; var x: boolean; a, b, c, d: integer; begin x := a > b; x := c >= d end.",
        listing: b"0 addr 0 2\n1 addr 0 3\n2 load\n3 addr 0 4\n4 load\n5 gt\n6 store\n7 addr 0 2\n8 addr 0 5\n9 load\n10 addr 0 6\n11 load\n12 ge\n13 store\n14 end\n",
    },
    Row {
        text: b"program g; var x, a, b, c: integer; begin x := +a + b - c; x := a - (b - c) end.",
        listing: b"0 addr 0 2\n1 addr 0 3\n2 load\n3 addr 0 4\n4 load\n5 add\n6 addr 0 5\n7 load\n8 sub\n9 store\n10 addr 0 2\n11 addr 0 3\n12 load\n13 addr 0 4\n14 load\n15 addr 0 5\n16 load\n17 sub\n18 sub\n19 store\n20 end\n",
    },
    Row {
        text: b"program g; var x, a, b, c, d: integer; begin x := a * b div c mod d; x := -a * b + c end.",
        listing: b"0 addr 0 2\n1 addr 0 3\n2 load\n3 addr 0 4\n4 load\n5 mul\n6 addr 0 5\n7 load\n8 div\n9 addr 0 6\n10 load\n11 mod\n12 store\n13 addr 0 2\n14 addr 0 3\n15 load\n16 addr 0 4\n17 load\n18 mul\n19 neg\n20 addr 0 5\n21 load\n22 add\n23 store\n24 end\n",
    },
    Row {
        text: b"program g; var x, h: boolean; function f(a, b: integer): integer; begin f := a end; begin x := not (f(1, 2) = 3) and not h; write('a''b') end.",
        listing: b"0 addr 0 2\n1 const 1\n2 const 2\n3 call 1 0\n4 const 3\n5 eq\n6 not\n7 addr 0 3\n8 load\n9 not\n10 and\n11 store\n12 write text 0\n13 end\n14 addr 0 2\n15 addr 0 0\n16 load\n17 store\n18 return\n",
    },
    Row {
        text: b"program g; type row = array [1..2] of integer; r = record b: row end; s = array [1..2] of r; t = array [1..2] of s; u = record k, i: integer end; v = array [1..2] of u; w = array [1..2] of v; z = array [1..2] of w; y = record e: z end; var a: t; c, f, g, h: integer; d: y; begin a[1, 2].b[c] := d.e[f, g][h].i end.",
        listing: b"0 addr 0 2\n1 const 1\n2 index 1 2 4\n3 const 2\n4 index 1 2 2\n5 field 0\n6 addr 0 3\n7 load\n8 index 1 2 1\n9 addr 0 7\n10 field 0\n11 addr 0 4\n12 load\n13 index 1 2 8\n14 addr 0 5\n15 load\n16 index 1 2 4\n17 addr 0 6\n18 load\n19 index 1 2 2\n20 field 1\n21 load\n22 store\n23 end\n",
    },
];

// Asserts the listing of each text.
fn expect_listings(rt: &impl Abort, alloc: Global, rows: &[Row]) {
    for (i, row) in rows.iter().enumerate() {
        assert!(rt; is_listed(alloc, row.text, row.listing), "{i}");
    }
}

#[test]
fn simple_statements_branches_and_loops(rt: HostRuntime) {
    expect_listings(&rt, rt.alloc(), &SIMPLE);
    expect_listings(&rt, rt.alloc(), &BRANCHES);
}

#[test]
fn processes_procedures_and_functions(rt: HostRuntime) {
    expect_listings(&rt, rt.alloc(), &FORKS);
    expect_listings(&rt, rt.alloc(), &BLOCKS);
}

#[test]
fn parts_inside_others(rt: HostRuntime) {
    expect_listings(&rt, rt.alloc(), &STATEMENTS);
    expect_listings(&rt, rt.alloc(), &EXPRESSIONS);
}
