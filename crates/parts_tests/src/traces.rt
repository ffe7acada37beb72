//! The text of `trace`: a worked journal, and a value of each type.

use sp_base::{List, Memory, Place, Text};
use sp_cell::Cell;
use sp_journal::{ReadError, read_journal};
use sp_lines::{Mark, Told};
use sp_tree::{Checked, KindOf};
use sp_where::{Symbols, trace_text};
use std::alloc::Global;
use std::test::Fail;

/// What is told of an entry: the columns of its statement and of its part, on line 1, and the message.
#[derive(Clone, Copy)]
struct Row {
    statement: u32,
    part: u32,
    message: Option<(u32, &'static [Cell])>,
}

fn at(column: u32) -> Row {
    Row {
        statement: column,
        part: column,
        message: None,
    }
}

fn with(column: u32, kind: u32, cells: &'static [Cell]) -> Row {
    Row {
        statement: column,
        part: column,
        message: Some((kind, cells)),
    }
}

fn text(alloc: Global, bytes: &[u8]) -> Result<Text, Memory> {
    Ok(Text::of(Vec::from_slice(alloc, bytes)?))
}

fn array(count: i64, element: u32) -> KindOf {
    KindOf::Array {
        low: 1,
        high: count,
        index: 0,
        element,
    }
}

/// integer, boolean, char, an enumeration, a channel, arrays and records of these.
fn kinds(alloc: Global) -> Result<List<KindOf>, Memory> {
    let mut fields = List::new(alloc);
    fields.push((text(alloc, b"x")?, 0))?;
    fields.push((text(alloc, b"ok")?, 1))?;
    let mut kinds = List::new(alloc);
    kinds.push(KindOf::Integer)?;
    kinds.push(KindOf::Boolean)?;
    kinds.push(KindOf::Char)?;
    kinds.push(KindOf::Enumeration(2))?;
    kinds.push(KindOf::Channel(List::new(alloc)))?;
    kinds.push(KindOf::Fields(fields))?;
    kinds.push(array(3, 0))?;
    kinds.push(array(2, 5))?;
    kinds.push(array(40, 0))?;
    kinds.push(array(41, 0))?;
    kinds.push(array(1_000_000, 5))?;
    Ok(kinds)
}

fn constants(alloc: Global) -> Result<List<List<Text>>, Memory> {
    let mut colours = List::new(alloc);
    colours.push(text(alloc, b"red")?)?;
    colours.push(text(alloc, b"green")?)?;
    let mut constants = List::new(alloc);
    for _ in 0..3 {
        constants.push(List::new(alloc))?;
    }
    constants.push(colours)?;
    Ok(constants)
}

fn marks(alloc: Global, rows: &[Row]) -> Result<List<Mark>, Memory> {
    let mut marks = List::new(alloc);
    for row in rows {
        marks.push(Mark {
            statement: Place {
                line: 1,
                column: row.statement,
            },
            part: Place {
                line: 1,
                column: row.part,
            },
        })?;
    }
    Ok(marks)
}

fn tolds(alloc: Global, rows: &[Row]) -> Result<List<Told>, Memory> {
    let mut tolds = List::new(alloc);
    let mut instruction = 0u32;
    for row in rows {
        let message = match row.message {
            None => None,
            Some((kind, cells)) => Some((kind, List::from_slice(alloc, cells)?)),
        };
        tolds.push(Told {
            instruction,
            message,
        })?;
        instruction = instruction.saturating_add(1);
    }
    Ok(tolds)
}

/// The trace of this journal, of whose entries this is told in order.
fn traced(alloc: Global, journal: &str, rows: &[Row]) -> Result<Vec<u8>, ReadError> {
    let symbols = Symbols {
        checked: Checked {
            kinds: kinds(alloc)?,
            variables: List::new(alloc),
            blocks: List::new(alloc),
        },
        marks: marks(alloc, rows)?,
        constants: constants(alloc)?,
    };
    let journal = read_journal(alloc, journal.as_bytes())?;
    let tolds = tolds(alloc, rows)?;
    Ok(trace_text(alloc, &symbols, &journal, tolds.items())?)
}

const ONE: &[Cell] = &[Cell::Ordinal(1)];

const TWO: &[Cell] = &[Cell::Ordinal(2)];

const TWO_SENDERS_JOURNAL: &str =
    "superpascal journal 2\n0 open\n0 fork 3\n0/0.0 receive 0#0\n0/0.1 send 0#0\n0/0.2 send 0#0\n0/0.0 receive 0#0\n0/0.1 end\n0/0.2 end\n0/0.0 end\n0 end\n";

const TWO_SENDERS_TRACE: &str =
    "trace\n0 1:66 0 open\n1 1:75 0 fork 3\n2 1:90 0/0.0 receive 0#0\n3 1:125 0/0.1 send 0#0 1\n4 1:138 0/0.2 send 0#0 2\n5 1:105 0/0.0 receive 0#0 2\n6 1:125 0/0.1 end\n7 1:138 0/0.2 end\n8 1:84 0/0.0 end\n9 1:9 0 end\n";

#[test]
fn two_senders(rt: HostRuntime) -> Result<(), Fail> {
    let rows = [
        at(66),
        at(75),
        at(90),
        with(125, 0, ONE),
        with(138, 0, TWO),
        with(105, 0, TWO),
        at(125),
        at(138),
        at(84),
        at(9),
    ];
    let found = traced(rt.alloc(), TWO_SENDERS_JOURNAL, &rows)?;
    assert_eq!(rt; found.as_slice(), TWO_SENDERS_TRACE.as_bytes());
    Ok(())
}

#[test]
fn a_fault_has_its_part_and_nothing_passes(rt: HostRuntime) -> Result<(), Fail> {
    let journal = "superpascal journal 2\n0 fork 2\n0/0.0 fault F6\n0/0.1 laid\n";
    let trace = "trace\n0 1:3 0 fork 2\n1 1:13 0/0.0 fault F6\n2 1:7 0/0.1 laid\n";
    let fault = Row {
        statement: 5,
        part: 13,
        message: Some((0, ONE)),
    };
    let found = traced(rt.alloc(), journal, &[at(3), fault, with(7, 0, TWO)])?;
    assert_eq!(rt; found.as_slice(), trace.as_bytes());
    Ok(())
}

const SEVENS: [Cell; 41] = [Cell::Ordinal(7); 41];

/// A type, the cells of a value of it, and its text.
const VALUES: [(u32, &[Cell], &str); 18] = [
    (0, &[Cell::Ordinal(-7)], "-7"),
    (0, &[Cell::Undefined], "undefined"),
    (1, &[Cell::Ordinal(0)], "false"),
    (1, &[Cell::Ordinal(1)], "true"),
    (2, &[Cell::Ordinal(97)], "'a'"),
    (2, &[Cell::Ordinal(126)], "'~'"),
    (2, &[Cell::Ordinal(127)], "chr(127)"),
    (2, &[Cell::Ordinal(10)], "chr(10)"),
    (3, &[Cell::Ordinal(1)], "green"),
    (3, &[Cell::Ordinal(2)], "2"),
    (3, &[Cell::Ordinal(-1)], "-1"),
    (4, &[Cell::Channel(0)], "0#0"),
    (4, &[Cell::Channel(1)], "1"),
    (
        6,
        &[Cell::Ordinal(1), Cell::Undefined, Cell::Ordinal(3)],
        "[1, undefined, 3]",
    ),
    (
        7,
        &[
            Cell::Ordinal(1),
            Cell::Ordinal(1),
            Cell::Ordinal(2),
            Cell::Ordinal(0),
        ],
        "[(x: 1, ok: true), (x: 2, ok: false)]",
    ),
    (
        8,
        &SEVENS,
        "[7, 7, 7, 7, 7, 7, 7, 7, 7, 7, 7, 7, 7, 7, 7, 7, 7, 7, 7, 7, 7, 7, 7, 7, 7, 7, 7, 7, 7, 7, 7, 7, 7, 7, 7, 7, 7, 7, 7, 7]",
    ),
    (
        9,
        &SEVENS,
        "[7, 7, 7, 7, 7, 7, 7, 7, 7, 7, 7, 7, 7, 7, 7, 7, 7, 7, 7, 7, 7, 7, 7, 7, 7, 7, 7, 7, 7, 7, 7, 7, 7, 7, 7, 7, 7, 7, 7, 7,..",
    ),
    (
        10,
        &SEVENS,
        "[(x: 7, ok: true), (x: 7, ok: true), (x: 7, ok: true), (x: 7, ok: true), (x: 7, ok: true), (x: 7, ok: true), (x: 7, ok: ..",
    ),
];

/// The trace of a send of this value.
fn sent(alloc: Global, kind: u32, cells: &'static [Cell]) -> Result<Vec<u8>, ReadError> {
    let rows = [at(1), with(2, kind, cells)];
    traced(alloc, "superpascal journal 2\n0 open\n0 send 0#0\n", &rows)
}

#[test]
fn values(rt: HostRuntime) -> Result<(), Fail> {
    for (kind, cells, text) in &VALUES {
        let found = sent(rt.alloc(), *kind, cells)?;
        let expected = format!(in rt.alloc(); "trace\n0 1:1 0 open\n1 1:2 0 send 0#0 {text}\n")?;
        assert_eq!(rt; found.as_slice(), expected.as_bytes());
    }
    Ok(())
}
