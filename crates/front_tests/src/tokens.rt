//! Tokens, the rules of characters, and the earlier of two broken rules.

use crate::rows::{is_refused, repeated};
use sp_base::{Place, Refusal, Rule};
use sp_scan::{first_breach, scan, spelling};
use sp_tree::{Kind, MAX_TEXT, Token, earlier_refusal, sign, word};
use std::alloc::Global;

fn refuses(alloc: Global, text: &[u8], rule: Rule, line: u32, column: u32) -> bool {
    is_refused(scan(alloc, text), rule, line, column)
}

fn accepts(alloc: Global, text: &[u8], count: usize) -> bool {
    match scan(alloc, text) {
        Ok(tokens) => tokens.len() == count,
        Err(_) => false,
    }
}

// Texts with the rule that each breaks, and where: of bytes, comments and texts, and of names, numbers and words.
const REFUSED: [(&[u8], Rule, u32, u32); 17] = [
    (b"a ? b", Rule::S1, 1, 3),
    (b"a\n\t?", Rule::S1, 2, 2),
    (b"{ { } }", Rule::S1, 1, 7),
    (b"a { b", Rule::S2, 1, 3),
    (b"a(*)", Rule::S2, 1, 2),
    (b"write('a) end.", Rule::S3, 1, 7),
    (b"'a''\n'", Rule::S3, 1, 1),
    (b"write(9223372036854775808)", Rule::S4, 1, 7),
    (b"99999999999999999999999.5", Rule::S4, 1, 1),
    (
        b" aaaaaaaaaaaaaaaaaaaaaaaaaaaaaaaaaaaaaaaaaaaaaaaaaaaaaaaaaaaaaaaaaaaaaaaaaaaaaaaaaaaaaaaaaaaaaaaaaaaaaaaaaaaaaaaaaaaaaaaaaaaaaaaa",
        Rule::S5,
        1,
        2,
    ),
    (b"[Sic]", Rule::U1, 1, 2),
    (b"a^", Rule::U1, 1, 2),
    (b"@a", Rule::U1, 1, 1),
    (b"write(1.5)", Rule::U2, 1, 7),
    (b"1e5", Rule::U2, 1, 1),
    (b"1E+5", Rule::U2, 1, 1),
    (b"a / b", Rule::U2, 1, 3),
];

// Texts with the number of their tokens.
const ACCEPTED: [(&[u8], usize); 8] = [
    (b"", 0),
    (b"a . b { c } (* d *)", 3),
    (b"(*)*)a", 1),
    (b"'' 'a''b'", 2),
    (b"9223372036854775807 0009223372036854775807", 2),
    (
        b" aaaaaaaaaaaaaaaaaaaaaaaaaaaaaaaaaaaaaaaaaaaaaaaaaaaaaaaaaaaaaaaaaaaaaaaaaaaaaaaaaaaaaaaaaaaaaaaaaaaaaaaaaaaaaaaaaaaaaaaaaaaaaaa",
        1,
    ),
    (b"[sicx]", 3),
    (b"1..5 1e 1.e", 8),
];

#[test]
fn breaches(rt: HostRuntime) {
    for (text, rule, line, column) in &REFUSED {
        assert!(rt;
            refuses(rt.alloc(), text, *rule, *line, *column),
            "{rule} {column}"
        );
    }
}

#[test]
fn accepted_texts(rt: HostRuntime) {
    for (i, (text, count)) in ACCEPTED.iter().enumerate() {
        assert!(rt; accepts(rt.alloc(), text, *count), "{i}");
    }
}

const SHORT: &[u8] = b"BEGIN x<=1\n end";

const NAME: Token = Token {
    kind: Kind::Name,
    from: 6,
    to: 7,
    at: Place { line: 1, column: 7 },
};

fn token(kind: Kind, from: u32, to: u32, line: u32, column: u32) -> Token {
    Token {
        kind,
        from,
        to,
        at: Place { line, column },
    }
}

// The tokens of the short text.
fn tokens() -> [Token; 5] {
    [
        token(Kind::Word(word::BEGIN), 0, 5, 1, 1),
        NAME,
        token(Kind::Sign(sign::AT_MOST), 7, 9, 1, 8),
        token(Kind::Number, 9, 10, 1, 10),
        token(Kind::Word(word::END), 12, 15, 2, 2),
    ]
}

// Whether these are the tokens of a text.
fn has_tokens(alloc: Global, text: &[u8], wanted: &[Token]) -> bool {
    match scan(alloc, text) {
        Ok(tokens) => tokens.items() == wanted,
        Err(_) => false,
    }
}

#[test]
fn kinds_spans_and_places(rt: HostRuntime) {
    assert!(rt; has_tokens(rt.alloc(), SHORT, &tokens()));
    assert!(rt; spelling(SHORT, &NAME) == b"x".as_slice());
}

#[test]
fn the_first_breach_alone(rt: HostRuntime) {
    assert!(rt; first_breach(b"a . b { c } (* d *) 'e' 12").is_none());
    let found = Refusal {
        rule: Rule::S1,
        at: Place { line: 2, column: 2 },
    };
    assert!(rt; first_breach(b"a\n\t? '") == Some(found));
}

// A part, how often it stands, and how many tokens that has.
const MANY: [(&[u8], u32, usize); 4] = [
    (b" ", 65536, 0),
    (b"'", 65536, 1),
    (b"a ", 32768, 32768),
    (b"{}", 32768, 0),
];

// Whether a part so many times has so many tokens.
fn accepts_many(alloc: Global, part: &[u8], times: u32, count: usize) -> bool {
    let text = repeated(alloc, b"", part, times, b"");
    accepts(alloc, &text, count)
}

// Whether a part so many times breaks this rule at its start.
fn refuses_many(alloc: Global, part: &[u8], times: u32, rule: Rule) -> bool {
    let text = repeated(alloc, b"", part, times, b"");
    refuses(alloc, &text, rule, 1, 1)
}

#[test]
fn parts_many_times(rt: HostRuntime) {
    let alloc = rt.alloc();
    for (part, times, count) in &MANY {
        assert!(rt;
            accepts_many(alloc, part, *times, *count),
            "{times} {count}"
        );
    }
    assert!(rt; refuses_many(alloc, b"1", 65536, Rule::S4));
    assert!(rt; refuses_many(alloc, b" ", MAX_TEXT as u32 + 1, Rule::L1));
}

#[test]
fn takes_the_earlier_place_and_then_the_earlier_row(rt: HostRuntime) {
    let at = Place { line: 1, column: 5 };
    let later = Place { line: 1, column: 6 };
    let n3 = Refusal { rule: Rule::N3, at };
    let n5 = Refusal { rule: Rule::N5, at };
    let n1 = Refusal {
        rule: Rule::N1,
        at: later,
    };
    assert!(rt; earlier_refusal(Some(n5), Some(n3)) == Some(n3));
    assert!(rt; earlier_refusal(Some(n5), Some(n1)) == Some(n5));
    assert!(rt; earlier_refusal(None, Some(n1)) == Some(n1));
    assert!(rt; earlier_refusal(Some(n1), None) == Some(n1));
}
