//! The commands that words may ask for, and why words give none.

ghost use Rattle.std.specs.Prelude.{◌≡◌};
ghost use Rattle.sp_words.specs.declared.command.WordsError.TheVariants.{Memory as OutOfMemory};

use crate::requests::{ExecRequest, ReplayRequest, RunRequest};
use sp_base::Word;
use std::alloc::{AllocError, AllocFailed};
use thiserror::Error;

/// What the words ask for. `file`, or the one word of a command, names the program text, but for `Exec`.
#[derive(Drop)]
pub enum Command {
    /// Say whether the text keeps all rules, or name the first that it breaks.
    Check(Word),
    /// Run the program, and tell of the run, or show the race that its verdict names.
    Run(RunRequest),
    /// List the code of the program.
    Code(Word),
    /// List the variable sets of its statements.
    Sets(Word),
    /// Lay the text out in the canonical way.
    Format(Word),
    /// Run the generated program, which no file holds.
    Gen {
        /// The size of the program, from 1 to 2,000.
        size: u32,
        /// How many workers run its processes, from 1 to 64.
        workers: u32,
    },
    /// Follow a journal of the program: `replay` writes the output, `trace` the entries, `where` the state behind them.
    Replay(ReplayRequest),
    /// Write the code of the program as a text that can be read again.
    Build(Word),
    /// Run the code that such a text gives, without its source.
    Exec(ExecRequest),
}

/// The names of the commands.
#[derive(Clone, Copy)]
pub(crate) enum CommandName {
    Check,
    Run,
    Code,
    Sets,
    Format,
    Gen,
    Replay,
    Witness,
    Build,
    Exec,
    Trace,
    Where,
}

/// Why the words give no command.
#[derive(Clone, Copy, Debug, Error)]
pub enum WordsError {
    /// The command is missing or unknown, its FILE, N or JOURNAL is missing or there is one too many, an N is out of
    /// its range, an option is unknown, repeated, without its value or out of its range, or a word breaks the dash
    /// rule.
    #[error("bad words")]
    Refused,
    /// Memory was refused.
    #[error("out of memory")]
    Memory,
}

impl From<AllocError> for WordsError {
    ghost from_gives = { λ _ e. e ≡ OutOfMemory };

    fn from(_error: AllocError) -> WordsError {
        WordsError::Memory
    }
}

impl<T: Drop> From<AllocFailed<T>> for WordsError {
    ghost from_gives = { λ _ e. e ≡ OutOfMemory };

    fn from(_error: AllocFailed<T>) -> WordsError {
        WordsError::Memory
    }
}
