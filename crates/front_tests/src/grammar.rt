//! Texts that break rules of the grammar.

use crate::rows::{is_given, is_refused};
use sp_base::Rule;
use sp_front::read_text;
use sp_scan::scan;
use sp_tree::Token;
use std::alloc::Global;

const PIPE: &[u8] = b"program pipe;
type chan = *(integer); net = array [0..3] of chan;
var c: net; r: integer;
procedure node(a, b: chan);
var x: integer;
begin receive(a, x); send(b, x + 1) end;
begin
  open(c[0], c[1], c[2], c[3]);
  parallel send(c[0], 10)
  | forall i := 1 to 3 do node(c[i-1], c[i])
  | receive(c[3], r)
  end;
  write(r)
end.";

/// Whether the text has a tree.
pub(crate) fn accepts(alloc: Global, text: &[u8]) -> bool {
    is_given(read_text(alloc, text))
}

/// Whether the text is refused for this rule at this place.
pub(crate) fn refuses(alloc: Global, text: &[u8], rule: Rule, line: u32, column: u32) -> bool {
    is_refused(read_text(alloc, text), rule, line, column)
}

// The text up to the end of a token.
fn up_to(text: &[u8], end: usize) -> &[u8] {
    if end <= text.len() {
        &text[..end]
    } else {
        text
    }
}

// Whether a text ends too early, and that is said of its end.
fn is_unfinished(alloc: Global, text: &[u8]) -> bool {
    let (line, column) = end_of(text);
    refuses(alloc, text, Rule::G2, line, column)
}

fn end_of(text: &[u8]) -> (u32, u32) {
    let mut line = 1u32;
    let mut column = 1u32;
    for byte in text {
        if *byte == b'\n' {
            line = line.saturating_add(1);
            column = 1;
        } else {
            column = column.saturating_add(1);
        }
    }
    (line, column)
}

// Behind how many of these tokens the text may be cut so that it ends too early.
fn unfinished(alloc: Global, text: &[u8], tokens: &[Token]) -> u32 {
    let mut unfinished = 0u32;
    for token in tokens {
        if is_unfinished(alloc, up_to(text, token.to as usize)) {
            unfinished = unfinished.saturating_add(1);
        }
    }
    unfinished
}

// Whether a text has so many tokens, and ends too early where it is cut behind any but the last.
fn is_cut(alloc: Global, text: &[u8], tokens: usize, cuts: u32) -> bool {
    match scan(alloc, text) {
        Ok(all) => all.len() == tokens && unfinished(alloc, text, all.items()) == cuts,
        Err(_) => false,
    }
}

#[test]
fn a_program_cut_behind_each_token(rt: HostRuntime) {
    assert!(rt; accepts(rt.alloc(), PIPE));
    assert!(rt; is_cut(rt.alloc(), PIPE, 138, 137));
}

// Texts with the column of the token that may not follow.
const REFUSED: [(&[u8], u32); 58] = [
    (b"program g; begin x = 1 end.", 20),
    (b"program g begin end.", 11),
    (b"begin end.", 1),
    (b"program begin; begin end.", 9),
    (b"program g(a,); begin end.", 13),
    (b"program g; const a 1; begin end.", 20),
    (b"program g; const a = -'x'; begin end.", 23),
    (b"program g; const a = 1 begin end.", 24),
    (b"program g; const begin end.", 18),
    (b"program g; type t = array 1..2] of u; begin end.", 27),
    (b"program g; type t = record end; begin end.", 28),
    (b"program g; type t = *integer; begin end.", 22),
    (b"program g; var x, : y; begin end.", 19),
    (b"program g; procedure p(); begin end; begin end.", 24),
    (b"program g; function f; begin end; begin end.", 22),
    (b"program g; procedure p begin end; begin end.", 24),
    (b"program g; begin x := 1 * -2 end.", 27),
    (b"program g; begin x := - - 1 end.", 25),
    (b"program g; begin x := 1 = 2 = 3 end.", 29),
    (b"program g; begin x := (1 end.", 26),
    (b"program g; begin x := a[1 end.", 27),
    (b"program g; begin p(1; 2) end.", 21),
    (b"program g; begin if x y end.", 23),
    (b"program g; begin repeat x end.", 27),
    (b"program g; begin for i := 1 do x end.", 29),
    (b"program g; begin forall i := 3 downto 1 do x end.", 32),
    (b"program g; begin case x of end end.", 28),
    (b"program g; begin parallel x; y | ) end end.", 34),
    (b"program g; begin end..", 21),
    (b"program g; begin end. a", 23),
    (b"program 1;", 9),
    (b"program p begin", 11),
    (b"program p();", 11),
    (b"program p(a;", 12),
    (b"program p; x", 12),
    (b"program p; begin end;", 21),
    (b"program p; begin end. x", 23),
    (b"program p; const a: ", 19),
    (b"program p; const a = (", 22),
    (b"program p; const a = 1 b", 24),
    (b"program p; const a = 1; 2", 25),
    (b"program p; type a = 1", 21),
    (b"program p; type a = ()", 22),
    (b"program p; type a = array (", 27),
    (b"program p; type a = array [1,", 29),
    (b"program p; type a = array [1..2] (", 34),
    (b"program p; type a = record x: t, ", 32),
    (b"program p; type a = record x: t;;", 33),
    (b"program p; type a = * t", 23),
    (b"program p; var a: (", 19),
    (b"program p; var a: t begin", 21),
    (b"program p; procedure q(a);", 25),
    (b"program p; procedure q(a: t,", 28),
    (b"program p; procedure q(a: t;)", 29),
    (b"program p; procedure q(var var", 28),
    (b"program p; procedure q: t", 23),
    (b"program p; procedure q; begin end begin", 35),
    (b"program p; function f: t begin", 26),
];

#[test]
fn tokens_that_may_not_follow(rt: HostRuntime) {
    for (text, column) in &REFUSED {
        assert!(rt; refuses(rt.alloc(), text, Rule::G1, 1, *column), "{column}");
    }
}

#[test]
fn texts_that_end_too_early(rt: HostRuntime) {
    let alloc = rt.alloc();
    assert!(rt; refuses(alloc, b"", Rule::G2, 1, 1));
    let text = b"program a; var x: integer; begin x := 6; write(x * 7)";
    assert!(rt; refuses(alloc, text, Rule::G2, 1, 54));
    assert!(rt; refuses(alloc, b"program g; begin end", Rule::G2, 1, 21));
    assert!(rt; accepts(alloc, b"program g; begin write(1); end."));
}
