//! Reading a source to its end, up to a limit.

ghost use Rattle.std.specs.Prelude.{◌≡◌, ◌<◌, ◌≤◌, length, IfOk, IfSome, OnOk};
ghost use Rattle.sp_outside.specs.Visible.{IsAtEnd};
ghost use Rattle.sp_outside.specs.Counts.{Rose};

use crate::failures::ReadError;
use crate::source::Source;
use sp_base::Text;
use std::alloc::Global;

/// How many bytes are taken at once.
const PIECE: usize = 4096;

/// All bytes that the source has left, if they are no more than `limit`.
/// `TooLong` comes where they are more, after `limit` and one of them were taken. `Failed` comes only where the
/// count of faults rose in this call. After an error a first part of the bytes may be taken.
pub fn read_all<S: Source>(alloc: Global, source: &mut S, limit: u32) -> Result<Text, ReadError>
    ensures all { IfOk result (λ all. IfSome (S.left source.old) (λ bytes. all ≡ bytes)) }
    ensures end { OnOk result (IsAtEnd (S.left source.new)) }
    ensures fits { IfOk result (λ all. length all ≤ limit) }
    ensures too_long { result ≡ Err ReadError.TooLong → IfSome (S.left source.old) (λ bytes. limit < length bytes) }
    ensures failed { result ≡ Err ReadError.Failed → Rose (S.faults source.old) (S.faults source.new) }
    ensures counted { S.faults source.old ≤ S.faults source.new }
{
    let mut all = Vec::new(alloc);
    let mut piece = [0u8; PIECE];
    while all.len() <= limit as usize {
        let most = (limit as usize + 1 - all.len()).min(PIECE);
        let buf = &mut piece[..most];
        let count = source.take(buf)?;
        if count == 0 {
            return Ok(Text::of(all));
        }
        all.extend_from_slice(&buf[..count])?;
    }
    Err(ReadError::TooLong)
}
