//! Reading a journal's text: the journal, or the first bad line.

ghost use Rattle.std.specs.Prelude.{◌≡◌};
ghost use Rattle.sp_journal.specs.ReadAnswers.{ReadsJournal, ReadsAlone, IsVersionOf};
ghost use Rattle.sp_journal.specs.declared.journal_reader.ReadError.TheVariants.{Memory as OutOfMemory};

use crate::byte_parts::split_first;
use crate::entry::Journal;
use crate::reader::Reader;
use crate::version::Version;
use sp_base::Memory;
use std::alloc::Global;
use thiserror::Error;

/// Why bytes are not read as a journal.
#[derive(Clone, Copy, Debug, Error)]
pub enum ReadError {
    /// This line, counted from 1, is the first that is not the text of a next entry: the first line is no heading,
    /// or a later one, with its line feed, is the text of no entry that can come next.
    #[error("line {0} is not the text of a next entry")]
    BadLine(u64),
    /// Memory was refused.
    #[error("out of memory")]
    Memory,
}

impl From<Memory> for ReadError {
    ghost from_gives = { λ _ e. e ≡ OutOfMemory };

    fn from(_error: Memory) -> ReadError {
        ReadError::Memory
    }
}

/// The journal of which these bytes are the text, in version 1, which has no `pause`, or in version 2. There is one
/// at most.
pub fn read_journal(alloc: Global, bytes: &[u8]) -> Result<Journal, ReadError>
    ensures reads { ReadsJournal bytes.now result }
    ensures alone { ReadsAlone bytes.now result }
{
    let Some((first, mut rest)) = split_first(bytes, b'\n') else {
        return Err(ReadError::BadLine(1));
    };
    let Some(version) = version_of(first) else {
        return Err(ReadError::BadLine(1));
    };
    let mut reader = Reader::new(alloc, version);
    let mut line = 2u64;
    while !rest.is_empty() {
        let Some((text, after)) = split_first(rest, b'\n') else {
            return Err(ReadError::BadLine(line)); // it has no line feed
        };
        let Some(entry) = reader.next(text)? else {
            return Err(ReadError::BadLine(line));
        };
        reader.add(entry)?;
        rest = after;
        line += 1;
    }
    Ok(reader.into_journal())
}

/// The version of which this is the first line, without its line feed.
fn version_of(line: &[u8]) -> Option<Version>
    ensures { IsVersionOf line.now result }
{
    if line == "superpascal journal 1".as_bytes() {
        Some(Version::One)
    } else if line == "superpascal journal 2".as_bytes() {
        Some(Version::Two)
    } else {
        None
    }
}
