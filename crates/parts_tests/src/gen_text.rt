//! The tests of `sp_gen`: a generated text, byte for byte.

use crate::byte_lists::add;
use sp_gen::generated;
use std::alloc::Global;
use std::test::Fail;

const LINES: [&str; 16] = [
    "program gen;",
    "const n = 3;",
    "type chan = *(integer); net = array [0..n] of chan;",
    "var c: net; i, j, r, s: integer;",
    "procedure node(k: integer; a, b: chan);",
    "var m, x: integer;",
    "begin for m := 1 to 10 do begin receive(a, x); send(b, x + k) end end;",
    "begin",
    "  for i := 0 to n do open(c[i]);",
    "  s := 0;",
    "  parallel for i := 1 to 10 do send(c[0], i)",
    "  | forall k := 1 to n do node(k, c[k-1], c[k])",
    "  | for j := 1 to 10 do begin receive(c[n], r); s := s + r end",
    "  end;",
    "  write(s)",
    "end.",
];

// Whether these are the lines of a text.
fn are_lines(alloc: Global, text: &[u8], lines: &[&str]) -> bool {
    let mut all = Vec::new(alloc);
    for line in lines {
        add(&mut all, line.as_bytes());
        add(&mut all, b"\n");
    }
    all.as_slice() == text
}

#[test]
fn three_nodes(rt: HostRuntime) -> Result<(), Fail> {
    let text = generated(rt.alloc(), 3)?;
    assert!(rt; are_lines(rt.alloc(), &text, &LINES));
    Ok(())
}
