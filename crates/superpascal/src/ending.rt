//! How a call ends (`Ending`), and what it has to write (`Answer`), with statuses and lines.

ghost use Rattle.std.specs.Prelude.{◌≡◌};
ghost use Rattle.superpascal.specs.AnswerParts.{ending_of_error, ending_of_halt};
ghost use Rattle.superpascal.specs.Answers.{has_output, notes_by, output_of, status_of};

use sp_base::{Halt, Refusal, Text};
use sp_codefile::VRule;
use sp_execute::{Ran, ReplayError};
use sp_kernel::Closed;

/// What a call gives that can only be refused memory; where it is, the function around ends so. One match, where `?` is
/// two generic calls, which cost the proof more.
#[macro_export]
macro_rules! have {
    ($call:expr) => {
        match $call {
            Ok(value) => value,
            Err(_) => return Err(Ending::OutOfMemory),
        }
    };
}

/// How a call ends.
#[derive(Clone, Copy)]
pub enum Ending {
    /// The run ended done.
    Done,
    /// The run ended in a deadlock.
    Deadlock,
    /// A fault ended the run.
    Fault,
    /// The journal was followed, and has led to no end.
    NoEnd,
    /// The command has answered from the text alone.
    Accepted,
    /// The text breaks this rule first.
    Refused(Refusal),
    /// The words are refused.
    BadWords,
    /// The library or the source failed.
    ReadFault,
    /// The input is longer than the limit.
    TooLong,
    /// Memory was refused.
    OutOfMemory,
    /// The journal is longer than the limit.
    LongJournal,
    /// This line of the journal is the first that is no text of a next entry.
    BadJournal(u64),
    /// The entry with this index is the first that the program cannot make there.
    Unfit(u64),
    /// The text of the code is longer than a code file may be.
    LongCode,
    /// The code file is longer than the limit.
    LongFile,
    /// This line of the code file is the first with which its lines begin no code's text.
    BadCode(u64),
    /// The code of the file breaks this rule first, and this instruction is the least at which it does.
    Rejected(VRule, u32),
}

/// All that a call has to write, and what it gives back. Where a program or a code file has run, its output is that of
/// the run unless another text stands here for it; the notes are those of the command, where a text is refused the line
/// of the refusal; else they are a line, and what stands here for them is empty, but for a line that names a number of
/// the journal or of the code.
#[derive(Drop)]
pub struct Answer {
    pub ending: Ending,
    pub ran: Option<Ran>,
    pub executed: Option<Closed>,
    pub output: Option<Text>,
    pub notes: Text,
}

impl Ending {
    /// The status of the program.
    pub fn status(self) -> u8
        ensures { result ≡ status_of self }
    {
        match self {
            Ending::Done | Ending::NoEnd | Ending::Accepted => 0,
            Ending::Refused(_) => 1,
            Ending::BadWords => 2,
            Ending::Fault => 3,
            Ending::Deadlock => 4,
            Ending::ReadFault => 5,
            Ending::TooLong => 7,
            Ending::OutOfMemory => 8,
            Ending::LongJournal | Ending::BadJournal(_) | Ending::Unfit(_) => 9,
            Ending::LongCode | Ending::LongFile | Ending::BadCode(_) | Ending::Rejected(_, _) => 10,
        }
    }

    /// Whether there is an output: that of a run, or the text that the command asks for, if any.
    pub fn has_output(self) -> bool
        ensures { result ≡ has_output self }
    {
        matches!(
            self,
            Ending::Done | Ending::Deadlock | Ending::Fault | Ending::NoEnd | Ending::Accepted
        )
    }
}

impl From<Halt> for Ending {
    ghost from_gives = { λ halt e. e ≡ ending_of_halt halt };

    fn from(halt: Halt) -> Ending {
        match halt {
            Halt::Refused(refusal) => Ending::Refused(refusal),
            Halt::Memory => Ending::OutOfMemory,
        }
    }
}

impl From<ReplayError> for Ending {
    ghost from_gives = { λ error e. e ≡ ending_of_error error };

    fn from(error: ReplayError) -> Ending {
        match error {
            ReplayError::Unfit(entry) => Ending::Unfit(entry),
            ReplayError::Memory => Ending::OutOfMemory,
        }
    }
}

impl Answer {
    /// The bytes for the output.
    pub fn output(&self) -> &[u8]
        ensures { result.now ≡ output_of self.now }
    {
        match (&self.output, &self.ran, &self.executed) {
            (Some(text), _, _) => text.bytes(),
            (None, Some(ran), _) => ran.closed.output().bytes(),
            (None, None, Some(run)) => run.output().bytes(),
            (None, None, None) => b"",
        }
    }
}

/// The notes with this ending, where these are those of the command, of the refusal, of the journal or of the code.
pub fn notes_by<'a>(ending: Ending, notes: &'a [u8]) -> &'a [u8]
    ensures { result.now ≡ notes_by ending notes.now }
{
    match ending {
        Ending::Done
        | Ending::Deadlock
        | Ending::Fault
        | Ending::NoEnd
        | Ending::Accepted
        | Ending::Refused(_)
        | Ending::BadJournal(_)
        | Ending::Unfit(_)
        | Ending::BadCode(_)
        | Ending::Rejected(_, _) => notes,
        Ending::BadWords => b"bad words\n",
        Ending::ReadFault => b"read fault\n",
        Ending::TooLong => b"input too long\n",
        Ending::OutOfMemory => b"out of memory\n",
        Ending::LongJournal => b"journal too long\n",
        Ending::LongCode | Ending::LongFile => b"code file too long\n",
    }
}
