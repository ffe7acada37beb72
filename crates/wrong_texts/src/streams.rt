//! Reading a source to its end, and putting all bytes of a text.

ghost use Rattle.std.specs.Prelude.{◌≡◌, ℕ, ◌<◌, ◌≤◌, length, take, Err, IfOk, IfSome, OnErr, OnOk};
ghost use Rattle.sp_outside.specs.Counts.{Rose};
ghost use Rattle.sp_outside.specs.Visible.{Grows, IsAtEnd};

use sp_base::Text;
use sp_outside::{Failed, ReadError, Sink, Source};
use std::alloc::Global;

/// `sp_outside::read_all`.
pub fn read_all<S: Source>(alloc: Global, source: &mut S, limit: u32) -> Result<Text, ReadError>
    ensures all { IfOk result (λ all. IfSome (S.left source.old) (λ bytes. all ≡ bytes)) }
    ensures end { OnOk result (IsAtEnd (S.left source.new)) }
    ensures fits { IfOk result (λ all. length all ≤ limit) }
    ensures too_long { result ≡ Err ReadError.TooLong → IfSome (S.left source.old) (λ bytes. limit < length bytes) }
    ensures failed { result ≡ Err ReadError.Failed → Rose (S.faults source.old) (S.faults source.new) }
    ensures counted { S.faults source.old ≤ S.faults source.new }
{
    let read = sp_outside::read_all(alloc, source, limit);
    read
}

/// `sp_outside::put_all`.
pub fn put_all<S: Sink>(sink: &mut S, bytes: &[u8]) -> Result<(), Failed>
    ensures ok { OnOk result (Grows (S.written sink.old) (S.written sink.new) bytes.now) }
    ensures part { (n : ℕ) × (n ≤ length bytes.now)
        × Grows (S.written sink.old) (S.written sink.new) (take n bytes.now) }
    ensures failed { OnErr result (Rose (S.faults sink.old) (S.faults sink.new)) }
    ensures counted { S.faults sink.old ≤ S.faults sink.new }
{
    let put = sp_outside::put_all(sink, bytes);
    put
}
