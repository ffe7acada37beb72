//! From what a parse found to the command that it asks for.

ghost use Rattle.std.specs.Prelude.{◌≡◌, ◌^◌, IfErr, IfOk, None, Some, codes};
ghost use Rattle.clap.specs.Words.{first_value, found_of};
ghost use Rattle.sp_words.specs.Options.{number_below, number_or, show_named, show_or_end, size_named};
ghost use Rattle.sp_words.specs.Words.{command_from, command_with, limits_from, replay_from, run_from, values_given};

use crate::command::{Command, CommandName, WordsError};
use crate::defaults::{DEFAULT_WORKERS, default_limits};
use crate::requests::{ExecRequest, ReplayRequest, RunRequest, Telling, View};
use clap::ArgMatches;
use sp_base::{Limits, Show, Word};
use std::alloc::{AllocError, Global};

// The number that an option was given, or its default.
fn number(given: &ArgMatches<'_>, name: &str, default: u64) -> u64
    ensures { result ≡ number_or (2 ^ 64) default (first_value (found_of given.now) name.now) }
{
    match given.get_str(name) {
        Some(text) => text.parse::<u64>().unwrap_or(default),
        None => default,
    }
}

fn small_number(given: &ArgMatches<'_>, name: &str, default: u32) -> u32
    ensures { result ≡ number_or (2 ^ 32) default (first_value (found_of given.now) name.now) }
{
    match given.get_str(name) {
        Some(text) => text.parse::<u32>().unwrap_or(default),
        None => default,
    }
}

fn limits(given: &ArgMatches<'_>) -> Limits
    ensures { result ≡ limits_from (values_given given.now) }
{
    let default = default_limits();
    Limits {
        ticks: number(given, "ticks", default.ticks),
        depth: small_number(given, "depth", default.depth),
        cells: small_number(given, "cells", default.cells),
        processes: small_number(given, "processes", default.processes),
        channels: small_number(given, "channels", default.channels),
        entries: small_number(given, "entries", default.entries),
        output: number(given, "output", default.output),
    }
}

fn show_named(text: &str) -> Option<Show>
    ensures { result ≡ show_named text.now }
{
    match text {
        "end" => Some(Show::End),
        "timeline" => Some(Show::Timeline),
        "census" => Some(Show::Census),
        "tree" => Some(Show::Tree),
        "waiting" => Some(Show::Waiting),
        "all" => Some(Show::All),
        "journal" => Some(Show::Journal),
        _ => None,
    }
}

fn show(given: &ArgMatches<'_>) -> Show
    ensures { result ≡ show_or_end (first_value (found_of given.now) (codes "show")) }
{
    match given.get_str("show") {
        Some(text) => show_named(text).unwrap_or(Show::End),
        None => Show::End,
    }
}

fn number_written(text: &str) -> Option<u64>
    ensures { result ≡ number_below (2 ^ 64) text.now }
{
    text.parse::<u64>().ok()
}

// The size that a text writes, from 1 to 2,000.
fn size_named(text: &str) -> Option<u32>
    ensures { result ≡ size_named text.now }
{
    let size = number_written(text)?;
    if 1 <= size && size <= 2_000 {
        Some(size as u32)
    } else {
        None
    }
}

// The command `gen` with the text of its N.
fn gen_given(text: &str, given: &ArgMatches<'_>) -> Option<Command>
    ensures { result ≡ command_from CommandName.Gen (values_given given.now) text.now }
{
    let size = size_named(text)?;
    let workers = small_number(given, "workers", DEFAULT_WORKERS);
    Some(Command::Gen { size, workers })
}

// A word of its own.
fn word(alloc: Global, text: &str) -> Result<Word, AllocError>
    ensures { IfOk result (λ w. w ≡ text.now) }
{
    Ok(Word::of(String::from_str(alloc, text)?))
}

// The command that runs the program of this FILE, and tells of the run so.
fn run_given(file: Word, given: &ArgMatches<'_>, telling: Telling) -> Command
    ensures { result ≡ run_from (values_given given.now) file telling }
{
    Command::Run(RunRequest {
        file,
        workers: small_number(given, "workers", DEFAULT_WORKERS),
        limits: limits(given),
        telling,
    })
}

// The command that follows a journal of the program of this FILE. Without a JOURNAL it is refused.
fn replay_given(
    alloc: Global,
    file: Word,
    given: &ArgMatches<'_>,
    view: View,
) -> Result<Command, WordsError>
    ensures ok { IfOk result (λ c. replay_from (values_given given.now) file view ≡ Some c) }
    ensures refused { IfErr result (λ e. e ≡ WordsError.Refused
        → replay_from (values_given given.now) file view ≡ None) }
{
    let Some(journal) = given.get_str("JOURNAL") else {
        return Err(WordsError::Refused);
    };
    Ok(Command::Replay(ReplayRequest {
        file,
        journal: word(alloc, journal)?,
        limits: limits(given),
        view,
    }))
}

/// The command with what its level of the parse found. Without a FILE, an N in its range, or a JOURNAL where it has
/// one, it is refused.
pub(crate) fn command_given(
    alloc: Global,
    command: CommandName,
    given: &ArgMatches<'_>,
) -> Result<Command, WordsError>
    ensures ok { IfOk result (λ c. command_with command (values_given given.now) ≡ Some c) }
    ensures refused { IfErr result (λ e. e ≡ WordsError.Refused
        → command_with command (values_given given.now) ≡ None) }
{
    let Some(text) = given.get_str("FILE") else {
        return Err(WordsError::Refused);
    };
    let file = word(alloc, text)?;
    match command {
        CommandName::Check => Ok(Command::Check(file)),
        CommandName::Run => Ok(run_given(file, given, Telling::Reports(show(given)))),
        CommandName::Code => Ok(Command::Code(file)),
        CommandName::Sets => Ok(Command::Sets(file)),
        CommandName::Format => Ok(Command::Format(file)),
        CommandName::Build => Ok(Command::Build(file)),
        CommandName::Gen => gen_given(text, given).ok_or(WordsError::Refused),
        CommandName::Replay => replay_given(alloc, file, given, View::Output),
        CommandName::Trace => replay_given(alloc, file, given, View::Entries),
        CommandName::Where => replay_given(alloc, file, given, View::State),
        CommandName::Witness => Ok(run_given(file, given, Telling::Witness)),
        CommandName::Exec => Ok(Command::Exec(ExecRequest {
            file,
            workers: small_number(given, "workers", DEFAULT_WORKERS),
            limits: limits(given),
        })),
    }
}
