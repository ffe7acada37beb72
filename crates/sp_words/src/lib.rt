//! The command line: what the words after the program's own name ask for.
//!
//! Calls:
//! - `read_words`: the `Command` that the words ask for (`command_of`); or `WordsError::Refused`, only where they ask
//!   for none; or want of memory.
//! - `default_limits`: the limits of a `run` whose words give none.
//!
//! Laws:
//! - `accepted_options_are_in_range`: the options of every command that words ask for are in their ranges, with the
//!   size of a `gen`; so are the default limits, which are those where no option is given.
//!
//! To know:
//! - `specs/Dashes.antt` reads the words from left to right, `Options` has the options with their ranges and defaults,
//!   `Words` joins them; `Ranges` has the ranges and the default limits that the law cites.
//! - `src/form.rt` is the pass of the dash rule, `src/parser.rt` the parser, `src/arguments.rt` takes the values,
//!   `src/command.rt` has the commands, `src/requests.rt` what those ask for that run something, `src/reader.rt` the
//!   call. `src/defaults.rt` gives the default limits to a caller that has no words for them, as `gen`.
//! - N of `gen` is the FILE of the definitions, with a condition of its own (`size_named` of `specs/Options.antt`).
//! - JOURNAL of `replay`, `trace` and `where` is the second of the words that are no options (`with_journal` of
//!   `specs/Words.antt`); a third one is a second FILE, and so refused.
//! - Want of memory has no clause that says when it comes: a parse that fails for memory answers `Memory`, and every
//!   other failure `Refused`.
//!
//! To change:
//! - A command: `CommandName` and `Command`, with what it asks for in `src/requests.rt`, `option_names`,
//!   `command_named`, the parser's subcommands, and `specs/`.
//! - An option: `specs/Options.antt`, `specs/Parsers.antt`, `run_command` or, of a limit, `with_limits`, `RUN_OPTIONS`,
//!   and of a limit `LIMIT_OPTIONS` and `WORKER_OPTIONS`, in `src/reader.rt`; its range and default also in
//!   `specs/Ranges.antt` and `src/defaults.rt`.
#![tactic(auto)]

mod arguments;
mod command;
mod defaults;
mod form;
mod law;
mod parser;
mod reader;
mod requests;

pub use command::{Command, WordsError};
pub use defaults::default_limits;
pub use law::accepted_options_are_in_range;
pub use reader::read_words;
pub use requests::{ExecRequest, ReplayRequest, RunRequest, Telling, View};
