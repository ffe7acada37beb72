//! Bytes one by one: the first and the others, of which sort a byte is, and what stands first.

ghost use Rattle.std.specs.Prelude.{◌≡◌, ◌↔◌, IsTrue, map};
ghost use Rattle.sp_tree.specs.Characters.{is_blank as is_a_blank, is_letter as is_a_letter, is_digit as is_a_digit};
ghost use Rattle.sp_tree.specs.Characters.{lower_case_letter as lower_case};
ghost use Rattle.sp_scan.specs.Finds.{CutsByte, PassesByte, Strips};

use sp_tree::lower;

/// The first byte and the others, or none.
pub fn cut(bytes: &[u8]) -> Option<(u8, &[u8])>
    ensures { CutsByte bytes.now result }
{
    match bytes {
        [first, rest @ ..] => Some((*first, rest)),
        [] => None,
    }
}

/// The bytes behind this one, where it comes first.
pub fn pass(bytes: &[u8], byte: u8) -> Option<&[u8]>
    ensures { PassesByte bytes.now byte result }
{
    match bytes {
        [first, rest @ ..] if *first == byte => Some(rest),
        _ => None,
    }
}

/// Whether a byte is a space, a tab, a form feed, a carriage return or a line feed.
pub fn is_blank(byte: u8) -> bool
    ensures { result ≡ is_a_blank byte }
{
    matches!(byte, b' ' | b'\t' | 12 | b'\r' | b'\n')
}

/// Whether a byte is a letter of ASCII.
pub fn is_letter(byte: u8) -> bool
    ensures { result ≡ is_a_letter byte }
{
    byte.is_ascii_alphabetic()
}

/// Whether a byte is a decimal digit.
pub fn is_digit(byte: u8) -> bool
    ensures { result ≡ is_a_digit byte }
{
    byte.is_ascii_digit()
}

/// Whether the bytes are the word, in upper or lower case.
pub fn is_spelled(bytes: &[u8], word: &str) -> bool
    ensures { IsTrue result ↔ (map lower_case bytes.now ≡ word.now) }
{
    let mut left = bytes;
    let mut right = word.as_bytes();
    'more: while let Some((a, behind)) = cut(left) {
        let Some((b, after)) = cut(right) else {
            return false;
        };
        if lower(a) != b {
            return false;
        }
        left = behind;
        right = after;
    }
    right.is_empty()
}

/// The bytes behind this text, where it comes first.
pub fn strip<'a>(bytes: &'a [u8], front: &str) -> Option<&'a [u8]>
    ensures { Strips bytes.now front.now result }
{
    let mut rest = bytes;
    let mut left = front.as_bytes();
    'more: while let Some((a, after)) = cut(left) {
        match pass(rest, a) {
            Some(behind) => rest = behind,
            None => return None,
        }
        left = after;
    }
    Some(rest)
}
