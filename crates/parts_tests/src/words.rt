//! The tests of `sp_words`: what words ask for, row by row. Words that are refused are rows of `gallery/data/rows/`.

use crate::byte_lists::add;
use sp_base::{Limits, Show, Word, put_decimal};
use sp_words::{Command, ReplayRequest, RunRequest, Telling, View, WordsError, read_words};
use std::alloc::Global;

// The words of a line. Where no memory is left they are fewer.
fn words_of(alloc: Global, line: &[&str]) -> Vec<String> {
    let mut words = Vec::new(alloc);
    for word in line {
        if let Ok(word) = String::from_str(alloc, word) {
            let _ = words.push(word);
        }
    }
    words
}

// A blank and a number.
fn add_number(all: &mut Vec<u8>, number: u64) {
    add(all, b" ");
    let _ = put_decimal(all, number);
}

// A word, a blank and the name of a text.
fn add_named(all: &mut Vec<u8>, word: &[u8], name: &Word) {
    add(all, word);
    add(all, b" ");
    add(all, name.text().as_bytes());
}

fn add_limits(all: &mut Vec<u8>, limits: &Limits) {
    add_number(all, limits.ticks);
    add_number(all, limits.depth as u64);
    add_number(all, limits.cells as u64);
    add_number(all, limits.processes as u64);
    add_number(all, limits.channels as u64);
    add_number(all, limits.entries as u64);
    add_number(all, limits.output);
}

fn show_text(show: Show) -> &'static [u8] {
    match show {
        Show::End => b" End",
        Show::Timeline => b" Timeline",
        Show::Census => b" Census",
        Show::Tree => b" Tree",
        Show::Waiting => b" Waiting",
        Show::All => b" All",
        Show::Journal => b" Journal",
    }
}

fn view_text(view: View) -> &'static [u8] {
    match view {
        View::Output => b"replay",
        View::Entries => b"trace",
        View::State => b"where",
    }
}

fn add_run(all: &mut Vec<u8>, asked: &RunRequest) {
    let name: &[u8] = match asked.telling {
        Telling::Reports(_) => b"run",
        Telling::Witness => b"witness",
    };
    add_named(all, name, &asked.file);
    add_number(all, asked.workers as u64);
    add_limits(all, &asked.limits);
    if let Telling::Reports(show) = asked.telling {
        add(all, show_text(show));
    }
}

fn add_replay(all: &mut Vec<u8>, asked: &ReplayRequest) {
    add_named(all, view_text(asked.view), &asked.file);
    add_named(all, b"", &asked.journal);
    add_limits(all, &asked.limits);
}

/// The words as a command line in one text: the command, its file or its size and, of `run`, `gen`, `witness` and
/// `exec`, the workers; of `run` the limits in their order and the report too, of `witness` and `exec` the limits, and
/// of `replay`, `trace` and `where` the journal and the limits.
fn add_command(all: &mut Vec<u8>, command: &Command) {
    match command {
        Command::Check(file) => add_named(all, b"check", file),
        Command::Code(file) => add_named(all, b"code", file),
        Command::Sets(file) => add_named(all, b"sets", file),
        Command::Format(file) => add_named(all, b"format", file),
        Command::Build(file) => add_named(all, b"build", file),
        Command::Run(asked) => add_run(all, asked),
        Command::Gen { size, workers } => {
            add(all, b"gen");
            add_number(all, *size as u64);
            add_number(all, *workers as u64);
        }
        Command::Replay(asked) => add_replay(all, asked),
        Command::Exec(asked) => {
            add_named(all, b"exec", &asked.file);
            add_number(all, asked.workers as u64);
            add_limits(all, &asked.limits);
        }
    }
}

fn is_shown(alloc: Global, command: &Command, wanted: &str) -> bool {
    let mut all = Vec::new(alloc);
    add_command(&mut all, command);
    all.as_slice() == wanted.as_bytes()
}

// Whether the answer is this command, or that the words are bad.
fn is_answer(alloc: Global, answer: &Result<Command, WordsError>, wanted: &str) -> bool {
    match answer {
        Ok(command) => is_shown(alloc, command, wanted),
        Err(WordsError::Refused) => wanted == "bad words",
        Err(WordsError::Memory) => false,
    }
}

// Whether that is what the words ask for.
fn asks(alloc: Global, line: &[&str], wanted: &str) -> bool {
    let words = words_of(alloc, line);
    let answer = read_words(alloc, words.as_slice());
    drop(words);
    let asks = is_answer(alloc, &answer, wanted);
    drop(answer);
    asks
}

/// A command line, and what it asks for.
type Row = (&'static [&'static str], &'static str);

const LINES: [Row; 23] = [
    (&["check", "a"], "check a"),
    (&["code", "a"], "code a"),
    (&["sets", "--", "-a"], "sets -a"),
    (&["format", "a.sp"], "format a.sp"),
    (&["build", "a.sp"], "build a.sp"),
    (
        &["run", ""],
        "run  4 10000000 1000 4194304 100000 100000 1000000 16777216 End",
    ),
    (&["gen", "3"], "gen 3 4"),
    (&["gen", "--workers=64", "1"], "gen 1 64"),
    (&["gen", "--workers", "1", "--", "+02000"], "gen 2000 1"),
    (&["gen", ""], "bad words"),
    (
        &["replay", "a.sp", "a.journal"],
        "replay a.sp a.journal 10000000 1000 4194304 100000 100000 1000000 16777216",
    ),
    (
        &[
            "replay",
            "--ticks=7",
            "a",
            "--depth",
            "10000",
            "b",
            "--output=1",
        ],
        "replay a b 7 10000 4194304 100000 100000 1000000 1",
    ),
    (
        &[
            "replay",
            "--cells=2",
            "--processes=3",
            "--channels=4",
            "--entries=5",
            "--",
            "-a",
            "--b",
        ],
        "replay -a --b 10000000 1000 2 3 4 5 16777216",
    ),
    (
        &["replay", "a", "--", "a"],
        "replay a a 10000000 1000 4194304 100000 100000 1000000 16777216",
    ),
    (
        &["trace", "a.sp", "a.journal"],
        "trace a.sp a.journal 10000000 1000 4194304 100000 100000 1000000 16777216",
    ),
    (
        &["trace", "--depth", "2", "a", "--output=1", "--", "-b"],
        "trace a -b 10000000 2 4194304 100000 100000 1000000 1",
    ),
    (
        &["where", "a.sp", "--ticks=3", "a.journal"],
        "where a.sp a.journal 3 1000 4194304 100000 100000 1000000 16777216",
    ),
    (
        &["witness", "a.sp"],
        "witness a.sp 4 10000000 1000 4194304 100000 100000 1000000 16777216",
    ),
    (
        &["witness", "--output=1", "--workers", "64", "--", "-a"],
        "witness -a 64 10000000 1000 4194304 100000 100000 1000000 1",
    ),
    (
        &["exec", "a.spc"],
        "exec a.spc 4 10000000 1000 4194304 100000 100000 1000000 16777216",
    ),
    (
        &["exec", "--ticks", "2", "--workers=1", "--", "-a"],
        "exec -a 1 2 1000 4194304 100000 100000 1000000 16777216",
    ),
    (
        &[
            "run",
            "--workers=64",
            "--ticks",
            "1000000000",
            "--depth=10000",
            "a",
            "--cells=67108864",
            "--processes",
            "+1000000",
            "--channels=1000000",
            "--entries=10000000",
            "--output=268435456",
            "--show=waiting",
        ],
        "run a 64 1000000000 10000 67108864 1000000 1000000 10000000 268435456 Waiting",
    ),
    (
        &[
            "run",
            "--workers=1",
            "--ticks=1",
            "--depth=1",
            "--cells=1",
            "--processes=1",
            "--channels=1",
            "--entries=1",
            "--output=007",
            "--show",
            "journal",
            "--",
            "-a",
        ],
        "run -a 1 1 1 1 1 1 1 7 Journal",
    ),
];

#[test]
fn command_lines(rt: HostRuntime) {
    for (line, wanted) in LINES {
        assert!(rt; asks(rt.alloc(), line, wanted), "{wanted}");
    }
}
