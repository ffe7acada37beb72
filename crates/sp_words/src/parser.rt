//! The parser of command lines: one command with one level of subcommands, and neither help nor a version.

ghost use Rattle.std.specs.List.{fold};
ghost use Rattle.std.specs.Prelude.{◌≡◌, [], IfOk, codes, false, map};
ghost use Rattle.clap.specs.Words.{app_of, rule_of, shape_of, with_rule, with_subcommand};
ghost use Rattle.clap.specs.declared.builder.value_parser.ValueParser.{ValueParser as Parser};
ghost use Rattle.clap.specs.declared.builder.value_parser.ValueParser.TheVariants.{Unsigned};
ghost use Rattle.sp_words.specs.Parsers.{ChangesApp, AddsCommand, IsLocal, IsShowParser, app_with, app_with_file};
ghost use Rattle.sp_words.specs.Parsers.{bare_line};
ghost use Rattle.sp_words.specs.Parsers.{gen_parsers};
ghost use Rattle.sp_words.specs.Parsers.{following_shape, limit_parsers, option_rule, run_parsers, shape_with};
ghost use Rattle.sp_words.specs.Parsers.{word_rule, worker_parsers};

use clap::builder::ValueParser;
use clap::{Arg, ArgAction, Command};
use std::alloc::{AllocError, Global};

/// The reports by the names that `--show` takes.
pub(crate) static SHOWS: [&str; 7] = [
    "end", "timeline", "census", "tree", "waiting", "all", "journal",
];

// The greatest limits that a command may ask for.
const MOST_TICKS: u64 = 1_000_000_000;

const MOST_DEPTH: u64 = 10_000;

const MOST_CELLS: u64 = 67_108_864;

const MOST_PROCESSES: u64 = 1_000_000;

const MOST_CHANNELS: u64 = 1_000_000;

const MOST_ENTRIES: u64 = 10_000_000;

const MOST_OUTPUT: u64 = 268_435_456;

// A word that is no option, which has to be there.
fn word_arg<'a>(alloc: Global, name: &'a str) -> Arg<'a>
    ensures rule { rule_of result ≡ word_rule name.entry.now }
    ensures local { result.global ≡ false }
{
    Arg::new(alloc, name).required(true).action(ArgAction::Set)
}

fn number_arg<'a>(alloc: Global, name: &'a str, least: u64, most: u64) -> Arg<'a>
    ensures rule { rule_of result ≡ option_rule (name.entry.now, Unsigned least most) }
    ensures local { result.global ≡ false }
{
    Arg::new(alloc, name)
        .long(name)
        .action(ArgAction::Set)
        .value_parser(ValueParser::unsigned(least, most))
}

fn show_arg<'a>(alloc: Global) -> Arg<'a>
    ensures rule { (q : Parser) × (rule_of result ≡ option_rule (codes "show", q)) × IsShowParser q }
    ensures local { result.global ≡ false }
{
    Arg::new(alloc, "show")
        .long("show")
        .action(ArgAction::Set)
        .value_parser(SHOWS.as_slice())
}

// What stands below takes a command, or the want of memory, as the step before gave it, and adds to it. So a chain of
// steps holds no command across a `?`.

// One more argument.
fn with_arg<'a>(
    command: Result<Command<'a>, AllocError>,
    arg: Arg<'a>,
) -> Result<Command<'a>, AllocError>
    ensures rule { arg.entry.global ≡ false → ChangesApp (λ a. with_rule a (rule_of arg.entry)) command.entry result }
    ensures local { arg.entry.global ≡ false → IfOk command.entry IsLocal → IfOk result IsLocal }
{
    command?.arg(arg)
}

fn plain_command<'a>(alloc: Global, name: &'a str) -> Result<Command<'a>, AllocError>
    ensures app { IfOk result (λ c. app_of c ≡ app_with_file name.entry.now) }
    ensures local { IfOk result IsLocal }
{
    Command::new(alloc, name).arg(word_arg(alloc, "FILE"))
}

fn with_number<'a>(
    command: Result<Command<'a>, AllocError>,
    alloc: Global,
    name: &'a str,
    least: u64,
    most: u64,
) -> Result<Command<'a>, AllocError>
    ensures rule { ChangesApp (λ a. with_rule a (option_rule (name.entry.now, Unsigned least most))) command.entry
        result }
    ensures local { IfOk command.entry IsLocal → IfOk result IsLocal }
{
    with_arg(command, number_arg(alloc, name, least, most))
}

// The command with the options of the limits as well.
fn with_limits<'a>(
    command: Result<Command<'a>, AllocError>,
    alloc: Global,
) -> Result<Command<'a>, AllocError>
    ensures rules { ChangesApp (λ a. fold with_rule a (map option_rule limit_parsers)) command.entry result }
    ensures local { IfOk command.entry IsLocal → IfOk result IsLocal }
{
    let command = with_number(command, alloc, "ticks", 1, MOST_TICKS);
    let command = with_number(command, alloc, "depth", 1, MOST_DEPTH);
    let command = with_number(command, alloc, "cells", 1, MOST_CELLS);
    let command = with_number(command, alloc, "processes", 1, MOST_PROCESSES);
    let command = with_number(command, alloc, "channels", 1, MOST_CHANNELS);
    let command = with_number(command, alloc, "entries", 1, MOST_ENTRIES);
    with_number(command, alloc, "output", 1, MOST_OUTPUT)
}

fn run_command<'a>(alloc: Global) -> Result<Command<'a>, AllocError>
    ensures shape { IfOk result (λ c. (q : Parser)
        × (shape_of c ≡ shape_with (codes "run") (run_parsers q)) × IsShowParser q) }
    ensures local { IfOk result IsLocal }
{
    let command = with_number(plain_command(alloc, "run"), alloc, "workers", 1, 64);
    with_arg(with_limits(command, alloc), show_arg(alloc))
}

fn gen_command<'a>(alloc: Global) -> Result<Command<'a>, AllocError>
    ensures shape { IfOk result (λ c. shape_of c ≡ shape_with (codes "gen") gen_parsers) }
    ensures local { IfOk result IsLocal }
{
    with_number(plain_command(alloc, "gen"), alloc, "workers", 1, 64)
}

// A command that follows a journal.
fn following_command<'a>(alloc: Global, name: &'a str) -> Result<Command<'a>, AllocError>
    ensures shape { IfOk result (λ c. shape_of c ≡ following_shape name.entry.now) }
    ensures local { IfOk result IsLocal }
{
    let command = with_arg(plain_command(alloc, name), word_arg(alloc, "JOURNAL"));
    with_limits(command, alloc)
}

// A command with the options of `run`, but for the reports.
fn worker_command<'a>(alloc: Global, name: &'a str) -> Result<Command<'a>, AllocError>
    ensures shape { IfOk result (λ c. shape_of c ≡ shape_with name.entry.now worker_parsers) }
    ensures local { IfOk result IsLocal }
{
    let command = with_number(plain_command(alloc, name), alloc, "workers", 1, 64);
    with_limits(command, alloc)
}

// The whole command line without its commands.
fn bare_line<'a>(alloc: Global) -> Command<'a>
    ensures { app_of result ≡ bare_line }
{
    Command::new(alloc, "superpascal")
        .no_binary_name(true)
        .disable_help_flag(true)
        .disable_help_subcommand(true)
        .disable_version_flag(true)
        .subcommand_required(true)
}

// One more command.
fn with_command<'a>(
    line: Result<Command<'a>, AllocError>,
    command: Result<Command<'a>, AllocError>,
) -> Result<Command<'a>, AllocError>
    ensures { AddsCommand line.entry command.entry result }
{
    match command {
        Ok(command) => match line {
            Ok(line) => line.subcommand(command),
            Err(error) => {
                drop(command);
                Err(error)
            }
        },
        Err(error) => {
            drop(line);
            Err(error)
        }
    }
}

// One more command that has its FILE alone.
fn with_plain<'a>(
    line: Result<Command<'a>, AllocError>,
    alloc: Global,
    name: &'a str,
) -> Result<Command<'a>, AllocError>
    ensures { ChangesApp (λ a. with_subcommand a (shape_with name.entry.now [])) line.entry result }
{
    with_command(line, plain_command(alloc, name))
}

/// The parser of the whole command line. Its words begin with the command.
pub(crate) fn parser<'a>(alloc: Global) -> Result<Command<'a>, AllocError>
    ensures { IfOk result (λ c. (q : Parser) × (app_of c ≡ app_with q) × IsShowParser q) }
{
    let line = with_plain(Ok(bare_line(alloc)), alloc, "check");
    let line = with_command(line, run_command(alloc));
    let line = with_plain(line, alloc, "code");
    let line = with_plain(line, alloc, "sets");
    let line = with_plain(line, alloc, "format");
    let line = with_command(line, gen_command(alloc));
    let line = with_command(line, following_command(alloc, "replay"));
    let line = with_command(line, worker_command(alloc, "witness"));
    let line = with_plain(line, alloc, "build");
    let line = with_command(line, worker_command(alloc, "exec"));
    let line = with_command(line, following_command(alloc, "trace"));
    with_command(line, following_command(alloc, "where"))
}
