//! Numbers put in decimal behind the bytes of a text.

ghost use Rattle.std.specs.Prelude.{◌≡◌, ◌++◌, OnErr, OnOk, decimal};
ghost use Rattle.std.specs.Fmt.{signed_decimal};

use crate::halt::Memory;
use itoa::Buffer;

/// Puts the number in decimal last into `out`, as `0` or `42`. Where memory is refused `out` is as before.
pub fn put_decimal(out: &mut Vec<u8>, number: u64) -> Result<(), Memory>
    ensures ok { OnOk result (out.new.items ≡ out.old.items ++ decimal number) }
    ensures err { OnErr result (out.new.items ≡ out.old.items) }
{
    let mut buffer = Buffer::new();
    out.extend_from_slice(buffer.format(number).as_bytes())?;
    Ok(())
}

/// Puts the integer in decimal last into `out`, as `42` or `-7`. Where memory is refused `out` is as before.
pub fn put_signed(out: &mut Vec<u8>, number: i64) -> Result<(), Memory>
    ensures ok { OnOk result (out.new.items ≡ out.old.items ++ signed_decimal number) }
    ensures err { OnErr result (out.new.items ≡ out.old.items) }
{
    let mut signed = Buffer::new();
    out.extend_from_slice(signed.format(number).as_bytes())?;
    Ok(())
}
