//! Reading the words (`read_words`): the command by its name, the dash rule for its options, and then the parser.

ghost use Rattle.std.specs.Prelude.{◌≡◌, IfErr, IfOk, None, Some, map, string_bytes};
ghost use Rattle.clap.specs.Words.{kind_of};
ghost use Rattle.sp_words.specs.Dashes.{texts_of};
ghost use Rattle.sp_words.specs.Options.{option_names};
ghost use Rattle.sp_words.specs.Words.{command_named, command_of};

use crate::arguments::command_given;
use crate::command::{Command, CommandName, WordsError};
use crate::form::keeps_dash_rule;
use crate::parser::parser;
use clap::Error;
use clap::error::ErrorKind;
use std::alloc::Global;

/// The options of `run`.
static RUN_OPTIONS: [&str; 9] = [
    "workers",
    "ticks",
    "depth",
    "cells",
    "processes",
    "channels",
    "entries",
    "output",
    "show",
];

/// The options of `replay`, `trace` and `where`.
static LIMIT_OPTIONS: [&str; 7] = [
    "ticks",
    "depth",
    "cells",
    "processes",
    "channels",
    "entries",
    "output",
];

/// The options of `witness` and `exec`.
static WORKER_OPTIONS: [&str; 8] = [
    "workers",
    "ticks",
    "depth",
    "cells",
    "processes",
    "channels",
    "entries",
    "output",
];

/// The options of `gen`.
static GEN_OPTIONS: [&str; 1] = ["workers"];

fn command_named(word: &str) -> Option<CommandName>
    ensures { result ≡ command_named word.now }
{
    match word {
        "check" => Some(CommandName::Check),
        "run" => Some(CommandName::Run),
        "code" => Some(CommandName::Code),
        "sets" => Some(CommandName::Sets),
        "format" => Some(CommandName::Format),
        "gen" => Some(CommandName::Gen),
        "replay" => Some(CommandName::Replay),
        "witness" => Some(CommandName::Witness),
        "build" => Some(CommandName::Build),
        "exec" => Some(CommandName::Exec),
        "trace" => Some(CommandName::Trace),
        "where" => Some(CommandName::Where),
        _ => None,
    }
}

fn option_names(command: CommandName) -> &'static [&'static str]
    ensures { texts_of result.now ≡ option_names command }
{
    match command {
        CommandName::Run => RUN_OPTIONS.as_slice(),
        CommandName::Gen => GEN_OPTIONS.as_slice(),
        CommandName::Replay | CommandName::Trace | CommandName::Where => LIMIT_OPTIONS.as_slice(),
        CommandName::Witness | CommandName::Exec => WORKER_OPTIONS.as_slice(),
        CommandName::Check
        | CommandName::Code
        | CommandName::Sets
        | CommandName::Format
        | CommandName::Build => &[],
    }
}

fn failure(error: &Error) -> WordsError
    ensures { kind_of error.now ≡ ErrorKind.OutOfMemory → result ≡ WordsError.Memory }
{
    match error.kind() {
        ErrorKind::OutOfMemory => WordsError::Memory,
        _ => WordsError::Refused,
    }
}

/// Reads the words after the program's own name. The first is the command, and the others are its FILE, or the N of
/// `gen`, of `replay`, `trace` and `where` a JOURNAL behind FILE, and its options, each at most once, as `--name value`
/// or `--name=value`. After `--` no word is an option.
///
/// `Refused` comes exactly where the words ask for no command.
pub fn read_words(alloc: Global, words: &[String]) -> Result<Command, WordsError>
    ensures ok { IfOk result (λ c. command_of (map string_bytes words.now) ≡ Some c) }
    ensures refused { IfErr result (λ e. e ≡ WordsError.Refused
        → command_of (map string_bytes words.now) ≡ None) }
{
    let Some((first, rest)) = words.split_first() else {
        return Err(WordsError::Refused);
    };
    let Some(command) = command_named(first.as_str()) else {
        return Err(WordsError::Refused);
    };
    if !keeps_dash_rule(rest, option_names(command)) {
        return Err(WordsError::Refused);
    }
    let parser = parser(alloc)?;
    match parser.try_get_matches_from(words) {
        Ok(matches) => match matches.subcommand() {
            Some((_, given)) => command_given(alloc, command, given),
            None => Err(WordsError::Refused),
        },
        Err(error) => Err(failure(&error)),
    }
}
