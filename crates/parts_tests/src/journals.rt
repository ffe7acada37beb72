//! Worked journals and their texts, and long ones.

ghost use Rattle.std.specs.Prelude.{IfOk};
ghost use Rattle.sp_journal.specs.Births.{IsNameable};
ghost use Rattle.sp_journal.specs.Ledger.{IsLedger};

use sp_base::{Fault, List, Memory};
use sp_journal::{Entry, Event, Journal, Ledger, ReadError, print_journal, read_journal};
use std::alloc::Global;
use std::test::Fail;

/// A journal's text read, and its journal printed again.
fn printed(alloc: Global, text: &[u8]) -> Result<Vec<u8>, ReadError> {
    let journal = read_journal(alloc, text)?;
    Ok(print_journal(alloc, &journal)?)
}

/// The line of a text that is bad, or 0 where none is.
fn bad_line(alloc: Global, text: &[u8]) -> u64 {
    match read_journal(alloc, text) {
        Ok(_) => 0,
        Err(ReadError::BadLine(line)) => line,
        Err(ReadError::Memory) => 0,
    }
}

fn by(process: u32, event: Event) -> Entry {
    Entry { process, event }
}

/// The journal of those of these entries that can come, so many times over.
fn journal_of(alloc: Global, entries: &[Entry], times: usize) -> Result<Journal, Memory>
    ensures { IfOk result IsNameable }
{
    let mut ledger = Ledger::new(alloc);
    'turns: for _ in 0..times {
        for entry in entries {
            if ledger.can_follow(*entry) {
                ledger.add(*entry)?;
            }
        }
    }
    Ok(ledger.into_journal())
}

/// A chain of processes, each of which starts the next one.
fn chain(alloc: Global, length: u32) -> Result<Journal, Memory>
    ensures { IfOk result IsNameable }
{
    let mut ledger = Ledger::new(alloc);
    for process in 0..length {
        let entry = by(process, Event::Fork(1));
        if ledger.can_follow(entry) {
            ledger.add(entry)?;
        }
    }
    Ok(ledger.into_journal())
}

/// The name of this process, where it is there, with a space behind it.
fn put_name(ledger: &Ledger, text: &mut Vec<u8>, number: u32) -> Result<(), Memory>
    requires { IsLedger ledger.now }
{
    if u64::from(number) < ledger.processes() {
        ledger.name(number)?.put(text)?;
        text.push(b' ')?;
    }
    Ok(())
}

/// The name of this channel, where it is there, with a space behind it.
fn put_channel(ledger: &Ledger, text: &mut Vec<u8>, number: u32) -> Result<(), Memory>
    requires { IsLedger ledger.now }
{
    if u64::from(number) < ledger.channels() {
        ledger.channel(number)?.put(text)?;
        text.push(b' ')?;
    }
    Ok(())
}

/// The entry of this process's end, where it can come next, with a space behind it.
fn put_end(ledger: &Ledger, text: &mut Vec<u8>, number: u32) -> Result<(), Memory>
    requires { IsLedger ledger.now }
{
    let ends = by(number, Event::End);
    if ledger.can_follow(ends) {
        ledger.put_entry(text, ends)?;
        text.push(b' ')?;
    }
    Ok(())
}

/// The texts of these of a ledger's processes, channels and next entries that are there, with a space behind each.
fn listed(alloc: Global, journal: &Journal, numbers: &[u32]) -> Result<Vec<u8>, Memory>
    requires { IsNameable journal.now }
{
    let ledger = Ledger::of(alloc, journal)?;
    let mut text = Vec::new(alloc);
    for number in numbers {
        put_name(&ledger, &mut text, *number)?;
        put_channel(&ledger, &mut text, *number)?;
        put_end(&ledger, &mut text, *number)?;
    }
    Ok(text)
}

/// How long the name of this process is, or 0 where it is not there.
fn name_length(journal: &Journal, process: u32) -> Result<usize, Memory>
    requires { IsNameable journal.now }
{
    match journal.birth(process) {
        None => Ok(0),
        Some(_) => Ok(journal.name(process)?.pairs.len()),
    }
}

const TWO_SENDERS: &str =
    "superpascal journal 2\n0 open\n0 fork 3\n0/0.0 receive 0#0\n0/0.1 send 0#0\n0/0.2 send 0#0\n0/0.0 receive 0#0\n0/0.1 end\n0/0.2 end\n0/0.0 end\n0 end\n";

const TWO_SENDERS_ENTRIES: [Entry; 10] = [
    Entry {
        process: 0,
        event: Event::Open,
    },
    Entry {
        process: 0,
        event: Event::Fork(3),
    },
    Entry {
        process: 1,
        event: Event::Receive(0),
    },
    Entry {
        process: 2,
        event: Event::Send(0),
    },
    Entry {
        process: 3,
        event: Event::Send(0),
    },
    Entry {
        process: 1,
        event: Event::Receive(0),
    },
    Entry {
        process: 2,
        event: Event::End,
    },
    Entry {
        process: 3,
        event: Event::End,
    },
    Entry {
        process: 1,
        event: Event::End,
    },
    Entry {
        process: 0,
        event: Event::End,
    },
];

#[test]
fn two_senders_read(rt: HostRuntime) -> Result<(), Fail> {
    let journal = read_journal(rt.alloc(), TWO_SENDERS.as_bytes())?;
    assert_eq!(rt; journal.entries.items(), TWO_SENDERS_ENTRIES.as_slice());
    Ok(())
}

#[test]
fn two_senders_printed(rt: HostRuntime) -> Result<(), Fail> {
    let text = printed(rt.alloc(), TWO_SENDERS.as_bytes())?;
    assert_eq!(rt; text.as_slice(), TWO_SENDERS.as_bytes());
    Ok(())
}

/// A journal that has grown by these entries.
fn grown(alloc: Global, entries: &[Entry]) -> Result<Journal, Memory> {
    let mut journal = Journal {
        entries: List::new(alloc),
    };
    for entry in entries {
        journal.push(*entry)?;
    }
    Ok(journal)
}

#[test]
fn a_journal_grows(rt: HostRuntime) -> Result<(), Fail> {
    let grown = grown(rt.alloc(), &TWO_SENDERS_ENTRIES)?;
    let journal = read_journal(rt.alloc(), TWO_SENDERS.as_bytes())?;
    assert!(rt; grown == journal);
    Ok(())
}

/// Texts that are printed again as they were read.
const EVENTS: [&str; 5] = [
    "superpascal journal 2\n0 open\n0 fork 3\n0/0.0 send 0#0\n0/0.1 fault F6\n0/0.2 laid\n",
    "superpascal journal 2\n0 end\n",
    "superpascal journal 2\n0 pause\n0 pause\n0 end\n",
    "superpascal journal 2\n0 fork 2\n0/0.0 end\n0/0.1 fork 2\n0/0.1/0.0 end\n0/0.1/0.1 end\n0/0.1 end\n0 end\n",
    "superpascal journal 2\n0 fork 0\n0 fork 12\n0/1.10 open\n0/1.10 receive 0/1.10#0\n0/1.11 fault F18\n",
];

#[test]
fn each_event_once(rt: HostRuntime) -> Result<(), Fail> {
    for text in &EVENTS {
        let found = printed(rt.alloc(), text.as_bytes())?;
        assert_eq!(rt; found.as_slice(), text.as_bytes());
    }
    Ok(())
}

#[test]
fn an_older_text(rt: HostRuntime) -> Result<(), Fail> {
    let old = b"superpascal journal 1\n0 open\n0 receive 0#0\n".as_slice();
    let new = b"superpascal journal 2\n0 open\n0 receive 0#0\n".as_slice();
    assert_eq!(rt; printed(rt.alloc(), old)?.as_slice(), new);
    Ok(())
}

/// Texts with the line of each that is bad, or 0 where none is.
const BAD_LINES: [(&str, u64); 13] = [
    ("superpascal journal 1\n0 open\n0/0.0 end\n", 3),
    ("superpascal journal 1\n0 open\n", 0),
    ("", 1),
    ("superpascal journal 1\n0 pause\n", 2),
    ("superpascal journal 3\n0 open\n", 1),
    ("superpascal journal 2\n0 open\n0 end", 3),
    ("superpascal journal 2\n0 fork 03\n", 2),
    ("superpascal journal 2\n0 fork 4294967296\n", 2),
    ("superpascal journal 2\n0 fork 2\n0/0.2 end\n", 3),
    ("superpascal journal 2\n0 fork 2\n0/0.+1 end\n", 3),
    ("superpascal journal 2\n0 open\n0 send 0#1\n", 3),
    ("superpascal journal 2\n0 fault F19\n", 2),
    ("superpascal journal 2\n\n0 end\n", 2),
];

#[test]
fn bad_lines(rt: HostRuntime) -> Result<(), Fail> {
    for (text, line) in &BAD_LINES {
        assert_eq!(rt; bad_line(rt.alloc(), text.as_bytes()), *line);
    }
    Ok(())
}

#[test]
fn births(rt: HostRuntime) -> Result<(), Fail> {
    let journal = read_journal(rt.alloc(), TWO_SENDERS.as_bytes())?;
    assert_eq!(rt; name_length(&journal, 3)?, 1);
    assert_eq!(rt; name_length(&journal, 4)?, 0);
    Ok(())
}

#[test]
fn a_long_name(rt: HostRuntime) -> Result<(), Fail> {
    let journal = chain(rt.alloc(), 10_000)?;
    assert_eq!(rt; name_length(&journal, 10_000)?, 10_000);
    Ok(())
}

#[test]
fn a_ledger(rt: HostRuntime) -> Result<(), Fail> {
    let journal = read_journal(rt.alloc(), TWO_SENDERS.as_bytes())?;
    let text = listed(rt.alloc(), &journal, &[0, 2, 4])?;
    let expected = b"0 0#0 0 end 0/0.1 0/0.1 end ".as_slice();
    assert_eq!(rt; text.as_slice(), expected);
    Ok(())
}

const TURN: [Entry; 4] = [
    Entry {
        process: 0,
        event: Event::Fork(2),
    },
    Entry {
        process: 1,
        event: Event::Open,
    },
    Entry {
        process: 1,
        event: Event::Send(0),
    },
    Entry {
        process: 2,
        event: Event::Receive(0),
    },
];

/// How many entries a journal has that is printed and read again.
fn length_again(alloc: Global, journal: &Journal) -> Result<usize, ReadError>
    requires { IsNameable journal.now }
{
    let text = print_journal(alloc, journal)?;
    let again = read_journal(alloc, text.as_slice())?;
    Ok(again.entries.len())
}

#[test]
fn thousands_of_entries(rt: HostRuntime) -> Result<(), Fail> {
    let journal = journal_of(rt.alloc(), &TURN, 1_000)?;
    assert_eq!(rt; length_again(rt.alloc(), &journal)?, 4_000);
    Ok(())
}
