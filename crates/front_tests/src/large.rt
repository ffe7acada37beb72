//! Texts with parts that are nested up to the limit, and long ones.

use crate::grammar::{accepts, refuses};
use crate::rows::{add, add_times, repeated};
use sp_base::Rule;
use std::alloc::Global;

/// A text in which a part is repeated: what stands before, the part, what stands between, its end, what stands behind.
struct Nest<'a> {
    front: &'a [u8],
    part: &'a [u8],
    middle: &'a [u8],
    last: &'a [u8],
    end: &'a [u8],
}

fn nested(alloc: Global, nest: &Nest, count: u32) -> Vec<u8> {
    let mut text = repeated(alloc, nest.front, nest.part, count, nest.middle);
    add_times(&mut text, nest.last, count);
    add(&mut text, nest.end);
    text
}

// Whether the text with so many parts has a tree.
fn takes(alloc: Global, nest: &Nest, count: u32) -> bool {
    let text = nested(alloc, nest, count);
    accepts(alloc, &text)
}

// Whether the text with one part more is too deep in this column.
fn is_too_deep(alloc: Global, nest: &Nest, most: u32, column: u32) -> bool {
    let text = nested(alloc, nest, most.saturating_add(1));
    refuses(alloc, &text, Rule::L2, 1, column)
}

// An expression in an assignment.
const PARENTHESES: Nest = Nest {
    front: b"program g; begin x := ",
    part: b"(",
    middle: b"1",
    last: b")",
    end: b" end.",
};

const NEGATIONS: Nest = Nest {
    front: b"program g; begin x := ",
    part: b"not ",
    middle: b"y",
    last: b"",
    end: b" end.",
};

const INDICES: Nest = Nest {
    front: b"program g; begin x := ",
    part: b"a[",
    middle: b"1",
    last: b"]",
    end: b" end.",
};

const SUMMANDS: Nest = Nest {
    front: b"program g; begin x := ",
    part: b"1+",
    middle: b"1",
    last: b"",
    end: b" end.",
};

const COMPOUNDS: Nest = Nest {
    front: b"program g; begin ",
    part: b"begin ",
    middle: b"",
    last: b"end ",
    end: b"end.",
};

const BLOCKS: Nest = Nest {
    front: b"program g; ",
    part: b"procedure p;",
    middle: b"",
    last: b"begin end;",
    end: b"begin end.",
};

const ARGUMENTS: Nest = Nest {
    front: b"program g; begin write(",
    part: b"1,",
    middle: b"1",
    last: b"",
    end: b") end.",
};

const STATEMENTS: Nest = Nest {
    front: b"program g; begin ",
    part: b";",
    middle: b"",
    last: b"",
    end: b"end.",
};

// How many parts there may be at most, and the column in which one more is refused.
const DEEP: [(Nest, u32, u32); 5] = [
    (PARENTHESES, 197, 221),
    (NEGATIONS, 197, 815),
    (INDICES, 197, 419),
    (COMPOUNDS, 199, 1212),
    (BLOCKS, 199, 2412),
];

#[test]
fn nesting(rt: HostRuntime) {
    for (nest, most, column) in &DEEP {
        assert!(rt; takes(rt.alloc(), nest, *most), "{column}");
        assert!(rt; is_too_deep(rt.alloc(), nest, *most, *column), "{column}");
    }
}

const LONG: [(Nest, u32); 3] = [
    (SUMMANDS, 400_000),
    (ARGUMENTS, 300_000),
    (STATEMENTS, 1_000_000),
];

#[test]
fn operands_arguments_and_statements(rt: HostRuntime) {
    for (nest, count) in &LONG {
        assert!(rt; takes(rt.alloc(), nest, *count), "{count}");
    }
}
