//! What `verify` says of a code file.

use sp_codefile::{Rejected, VRule, decode, verify};
use std::alloc::Global;
use std::process::Abort;

/// What is said of a code file.
#[derive(Clone, Copy, Debug, PartialEq, Eq)]
pub(crate) enum Says {
    Verified,
    /// The first broken rule, and the least instruction at which it is.
    Broken(VRule, u32),
    /// It is no code file, or memory was refused.
    Nothing,
}

/// What stands for `~` in a file, part by part with `/` between them, and what is said of the file with it.
pub(crate) type Row<'a> = (&'a str, Says);

/// The lines of a file behind its first one, and rows of it.
pub(crate) struct File<'a> {
    pub(crate) lines: &'a str,
    pub(crate) rows: &'a [Row<'a>],
}

// The file whose lines behind the first are these, with these parts. Where no memory is left the end is missing, and it
// is no code file.
fn file_with(alloc: Global, lines: &str, parts: &str) -> String {
    let mut text = String::new(alloc);
    let _ = text.push_str("superpascal code 1\n");
    let mut rest = parts.chars();
    for character in lines.chars() {
        if character != '~' {
            let _ = text.push(character);
            continue;
        }
        while let Some(part) = rest.next() {
            if part == '/' {
                break;
            }
            let _ = text.push(part);
        }
    }
    text
}

// What is said of the code in a text.
fn answer_to(alloc: Global, text: &str) -> Says {
    let code = match decode(alloc, text.as_bytes()) {
        Ok(code) => code,
        Err(_) => return Says::Nothing,
    };
    match verify(code) {
        Ok(_) => Says::Verified,
        Err(Rejected::Rule(rule, p)) => Says::Broken(rule, p),
        Err(Rejected::Memory) => Says::Nothing,
    }
}

/// Asserts what is said of each of these files, with the parts of each of its rows.
pub(crate) fn expect(rt: &impl Abort, alloc: Global, files: &[File]) {
    for file in files {
        for (parts, says) in file.rows {
            let text = file_with(alloc, file.lines, parts);
            assert_eq!(rt; answer_to(alloc, text.as_str()), *says, "{parts}");
        }
    }
}
