//! Canonical texts: of short, long and deep ones, and texts that have none.

use crate::rows::{add, add_times, is_refused, repeated};
use sp_base::Rule;
use sp_format::format;
use sp_tree::MAX_TEXT;
use std::alloc::Global;

// Whether the text has this canonical text.
fn is_laid_out(alloc: Global, text: &[u8], canonical: &[u8]) -> bool {
    match format(alloc, text) {
        Ok(out) => out.as_slice() == canonical,
        Err(_) => false,
    }
}

// Whether the text has this canonical text, and that one is its own.
fn gives(alloc: Global, text: &[u8], canonical: &[u8]) -> bool {
    is_laid_out(alloc, text, canonical) && is_laid_out(alloc, canonical, canonical)
}

fn refuses(alloc: Global, text: &[u8], rule: Rule, column: u32) -> bool {
    is_refused(format(alloc, text), rule, 1, column)
}

// Texts with their canonical texts.
const LAID_OUT: [(&[u8], &[u8]); 8] = [
    (
        b"program a; var x: integer; begin x := 6; write(x * 7) end.",
        b"program a;\nvar x: integer;\nbegin\n  x := 6;\n  write(x * 7)\nend.\n",
    ),
    (
        b"program B; begin parallel write(1) {one} | begin end end end.",
        b"program b;\nbegin\n  parallel\n    write(1)\n    {one}\n  | begin\n    end\n  end\nend.\n",
    ),
    (
        b"program g; type t = array[1..3]of r; r = record a,b: integer; c: char; end; \
          procedure p(var a: t; b: integer); begin end; begin end.",
        b"program g;\ntype t = array [1..3] of r;\nr = record\n  a, b: integer;\n  c: char;\nend;\n\
          procedure p(var a: t; b: integer);\nbegin\nend;\nbegin\nend.\n",
    ),
    (
        b"program g; begin case x of 1: repeat a[i,j] := -1 until b; 2: case y of 3: end end end.",
        b"program g;\nbegin\n  case x of\n    1: repeat\n      a[i, j] := - 1\n    until b;\n    2: case y of\n      3:\n    end\n  end\nend.\n",
    ),
    (
        b"program g; type t=*(integer,char); begin if not(a.b<>'x''Y') then write(f(1):2,3)else;forall i:=1 to 2 do p end.",
        b"program g;\ntype t = * (integer, char);\nbegin\n  if not (a.b <> 'x''Y') then write(f(1): 2, 3) else;\n  forall i := 1 to 2 do p\nend.\n",
    ),
    (
        b"{a}program(*B*)g{c}({d}x{e});{f}begin{g}write{h}({i}1{j}){k}end{l}.{m}",
        b"{a}\nprogram\n(*B*)\ng\n{c}\n(\n{d}\nx\n{e}\n);\n{f}\nbegin\n  {g}\n  write\n  {h}\n  (\n  {i}\n  1\n  {j}\n  )\n  {k}\nend\n{l}\n.\n{m}\n",
    ),
    (
        b"program P(Input, output); const a = 1; b = +A; c = -2; d = 'x''y'; type t = integer; e = (one, two); v = array [-1 .. 'z'] of t; r = record x, y: t; z: t end; s = record x: t; end; ch = *(t, r); var i, j: t; k: ch; procedure q(var a, b: t; c: t); const l = 3; begin end; function f: t; begin end; const m = 4; begin end.",
        b"program p(input, output);\nconst a = 1;\nb = + a;\nc = - 2;\nd = 'x''y';\ntype t = integer;\ne = (one, two);\nv = array [- 1..'z'] of t;\nr = record\n  x, y: t;\n  z: t\nend;\ns = record\n  x: t;\nend;\nch = * (t, r);\nvar i, j: t;\nk: ch;\nprocedure q(var a, b: t; c: t);\nconst l = 3;\nbegin\nend;\nfunction f: t;\nbegin\nend;\nconst m = 4;\nbegin\nend.\n",
    ),
    (
        b"program g; begin p(1, x: 2, y); x := not (f(1, 2: 3) + 'a''b') and not g end.",
        b"program g;\nbegin\n  p(1, x: 2, y);\n  x := not (f(1, 2: 3) + 'a''b') and not g\nend.\n",
    ),
];

#[test]
fn canonical_texts(rt: HostRuntime) {
    for (i, (text, canonical)) in LAID_OUT.iter().enumerate() {
        assert!(rt; gives(rt.alloc(), text, canonical), "{i}");
    }
}

#[test]
fn refused_texts(rt: HostRuntime) {
    let alloc = rt.alloc();
    assert!(rt; refuses(alloc, b"program g; begin ? end.", Rule::S1, 18));
    assert!(rt; refuses(alloc, b"program g begin end.", Rule::G1, 11));
    assert!(rt; refuses(alloc, b"program g; begin", Rule::G2, 17));
}

// Whether the canonical text is so long.
fn is_as_long(alloc: Global, text: &[u8], length: usize) -> bool {
    match format(alloc, text) {
        Ok(out) => out.len() == length,
        Err(_) => false,
    }
}

// A program in which a part is repeated: what stands before, the part, how often, what stands behind.
type Long<'a> = (&'a [u8], &'a [u8], u32, &'a [u8]);

// Each with its length and that of its canonical text. Of the blanks only "program g;", "begin", "end." and their line
// feeds are left, and a comment takes its own bytes and a line feed.
const LONG: [(Long, usize, usize); 3] = [
    ((b"program g;begin", b" ", 1_048_557, b"end."), MAX_TEXT, 22),
    (
        (b"", b"{}", 349_518, b"program g;begin end."),
        699_056,
        1_048_576,
    ),
    (
        (b"program g(a", b",a", 300_000, b");begin end."),
        600_023,
        900_025,
    ),
];

fn is_long(alloc: Global, long: &Long, bytes: usize, length: usize) -> bool {
    let (front, part, count, end) = long;
    let text = repeated(alloc, front, part, *count, end);
    text.len() == bytes && is_as_long(alloc, &text, length)
}

#[test]
fn long_texts(rt: HostRuntime) {
    for (long, bytes, length) in &LONG {
        assert!(rt; is_long(rt.alloc(), long, *bytes, *length), "{bytes}");
    }
}

#[test]
fn a_canonical_text_too_long(rt: HostRuntime) {
    let longer = repeated(rt.alloc(), b"", b"{}", 349_518, b"program gg;begin end.");
    assert!(rt; refuses(rt.alloc(), &longer, Rule::L1, 1));
}

// Statements inside one another, up to the limit.
fn deepest(alloc: Global) -> Vec<u8> {
    let mut text = repeated(alloc, b"program g;begin ", b"begin ", 199, b"");
    add_times(&mut text, b"end ", 199);
    add(&mut text, b"end.");
    text
}

#[test]
fn deep_parts(rt: HostRuntime) {
    let text = deepest(rt.alloc());
    // "program g;", and for each depth up to 199 a line with "begin" and one with "end", and a dot
    assert!(rt; is_as_long(rt.alloc(), &text, 11 + 200 * (6 + 4) + 1 + 4 * 19_900));
}
