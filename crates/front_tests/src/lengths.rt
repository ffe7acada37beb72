//! The length of each form of statement and expression, beside the table of lengths.

use sp_front::compiled;
use sp_generate::length;
use std::alloc::Global;

struct Row<'a> {
    text: &'a [u8],
    length: u32,
}

const ROWS: [Row; 28] = [
    Row {
        text: b"program a; begin end.",
        length: 1,
    },
    Row {
        text: b"program a; var x: integer; begin x := 6; write(x * 7) end.",
        length: 9,
    },
    Row {
        text: b"program a; var x: integer; begin if x > 0 then x := 1 end.",
        length: 9,
    },
    Row {
        text: b"program a; var x: integer; begin if x > 0 then x := 1 else x := 2 end.",
        length: 13,
    },
    Row {
        text: b"program a; var x: integer; begin while x > 0 do x := x - 1 end.",
        length: 14,
    },
    Row {
        text: b"program a; var x: integer; begin repeat x := 1 until x > 0 end.",
        length: 10,
    },
    Row {
        text: b"program a; var x: integer; begin for x := 1 to 3 do write(x) end.",
        length: 9,
    },
    Row {
        text: b"program a; var x: integer; begin for x := 3 downto 1 do end.",
        length: 6,
    },
    Row {
        text: b"program a; var x: integer; begin case x of 1, 2: x := 1; 3: x := 2 end end.",
        length: 15,
    },
    Row {
        text: b"program a; var x, y: integer; begin parallel x := 1 | y := 2 end end.",
        length: 11,
    },
    Row {
        text: b"program a; begin forall i := 1 to 3 do begin end end.",
        length: 6,
    },
    Row {
        text: b"program a; var x: integer; begin assume x = 1 end.",
        length: 6,
    },
    Row {
        text: b"program a; var x: integer; begin read(x) end.",
        length: 3,
    },
    Row {
        text: b"program a; begin readln end.",
        length: 2,
    },
    Row {
        text: b"program a; begin writeln end.",
        length: 2,
    },
    Row {
        text: b"program a; begin write('ab') end.",
        length: 2,
    },
    Row {
        text: b"program a; begin write('a') end.",
        length: 3,
    },
    Row {
        text: b"program a; var x: integer; begin write(x: 5) end.",
        length: 5,
    },
    Row {
        text: b"program a; type t = *(integer); var c: t; begin open(c) end.",
        length: 3,
    },
    Row {
        text: b"program a; type t = *(integer); var c: t; begin send(c, 1) end.",
        length: 5,
    },
    Row {
        text: b"program a; type t = *(integer); var c: t; begin send(c, 1, 2) end.",
        length: 9,
    },
    Row {
        text: b"program a; type t = *(integer); var c: t; x: integer; begin receive(c, x) end.",
        length: 5,
    },
    Row {
        text: b"program a; type t = *(integer); var c: t; x: integer; begin receive(c, x, x) end.",
        length: 9,
    },
    Row {
        text: b"program a; type t = array [1..3] of integer; var a, b: t; begin a := b; a[1] := a[2] end.",
        length: 12,
    },
    Row {
        text: b"program a; type t = record x, y: integer end; var a: t; begin a.y := 1 end.",
        length: 5,
    },
    Row {
        text: b"program a; function f(n: integer): integer; begin f := n end; begin write(f(3)) end.",
        length: 9,
    },
    Row {
        text: b"program a; procedure p(var x: integer; y: integer); begin x := y end; var z: integer; begin p(z, 2) end.",
        length: 9,
    },
    Row {
        text: b"program a; begin write(abs(-3)); write(ord('a')); write(+3) end.",
        length: 9,
    },
];

// Whether the code of a text is so long.
fn is_as_long(alloc: Global, text: &[u8], wanted: u32) -> bool {
    match compiled(alloc, text) {
        Ok(made) => {
            let found = length(made.checked());
            drop(made);
            found == wanted
        }
        Err(_) => false,
    }
}

#[test]
fn lengths_are_those_of_the_table(rt: HostRuntime) {
    for (i, row) in ROWS.iter().enumerate() {
        assert!(rt; is_as_long(rt.alloc(), row.text, row.length), "{i}");
    }
}
