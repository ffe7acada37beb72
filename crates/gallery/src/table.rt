//! The runs of a table: a name, a status and words on each line, with input, output and notes in files of that name.

use crate::call::{Expected, NO_MEMORY, call};
use sp_outside::FileLibrary;
use std::io::ErrorKind;
use std::sync::Wait;
use std::thread::Threads;
use std::{fs, io};

// A run of which the table names no number of workers is made with each of these.
static WORKERS: [&str; 3] = [" --workers=1", " --workers=2", " --workers=8"];

// Any other line is made as it is written.
static AS_WRITTEN: [&str; 1] = [""];

/// Writes a line for each run of the table.
pub fn make_table<R: Threads + Wait + Sync>(
    rt: &HostRuntime,
    threads: &R,
    name: &str,
) -> io::Result<()> {
    let table = fs::read_to_string(rt, name)?;
    for line in table.lines() {
        if !line.starts_with('#') {
            make_runs(rt, threads, line)?;
        }
    }
    Ok(())
}

// Makes the runs of a line of the table: a name, a status and words.
fn make_runs<R: Threads + Wait + Sync>(
    rt: &HostRuntime,
    threads: &R,
    line: &str,
) -> io::Result<()> {
    let (name, rest) = split_word(line);
    let (status, words) = split_word(rest);
    let all_workers = if words.starts_with("run ") && !words.contains("--workers") {
        WORKERS.as_slice()
    } else {
        AS_WRITTEN.as_slice()
    };
    for workers in all_workers {
        let found = make_run(rt, threads, name, status, words, workers)?;
        println!(rt; "{name}{workers}: {found}")?;
    }
    Ok(())
}

// The first word of a line, and what stands behind the blanks after it.
fn split_word(line: &str) -> (&str, &str) {
    match line.split_once(' ') {
        Some((word, rest)) => (word, rest.trim_start()),
        None => (line, ""),
    }
}

// Makes a run and says what is not as expected.
fn make_run<R: Threads + Wait + Sync>(
    rt: &HostRuntime,
    threads: &R,
    name: &str,
    status: &str,
    words: &str,
    workers: &str,
) -> io::Result<&'static str> {
    let mut library = FileLibrary::new(rt);
    let input = held(rt, name, "in")?;
    let output = held(rt, name, "out")?;
    let notes = held(rt, name, "notes")?;
    let expected = Expected {
        status,
        output: output.as_slice(),
        is_any: false,
        notes: notes.as_slice(),
    };
    match call(rt.alloc(), threads, words, workers, &mut library, input) {
        Ok(given) => Ok(given.beside(words, &expected)),
        Err(_) => Ok(NO_MEMORY),
    }
}

// The bytes of a file; none where it is not there.
fn held(rt: &HostRuntime, name: &str, ending: &str) -> io::Result<Vec<u8>> {
    let file = format!(in rt.alloc(); "{name}.{ending}")?;
    match fs::read(rt, file.as_str()) {
        Ok(bytes) => Ok(bytes),
        Err(error) => {
            if error.kind() == ErrorKind::NotFound {
                return Ok(Vec::new(rt.alloc()));
            }
            Err(error)
        }
    }
}
