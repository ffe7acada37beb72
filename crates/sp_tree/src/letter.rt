//! The lower case of a letter.

ghost use Rattle.std.specs.Prelude.{◌≡◌};
ghost use Rattle.sp_tree.specs.Characters.{lower_case_letter as lower_case};

/// The lower case of a letter, and any other byte itself.
pub fn lower(byte: u8) -> u8
    ensures { result ≡ lower_case byte }
{
    if byte >= b'A' && byte <= b'Z' {
        byte + 32
    } else {
        byte
    }
}
