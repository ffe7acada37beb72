//! Cutting bytes at a mark, and the numbers and faults that bytes write.

ghost use Rattle.std.specs.Prelude.{◌≡◌, ◌<◌, ◌^◌, ℕ, Some, decimal};
ghost use Rattle.std.specs.Str.{IsAscii};
ghost use Rattle.sp_journal.specs.Splits.{fault_of_name, first_split, last_split, parts_in};

use sp_base::Fault;

/// What stands before and after the first of these bytes.
pub fn split_first(text: &[u8], mark: u8) -> Option<(&[u8], &[u8])>
    ensures { parts_in result ≡ first_split mark text.now }
{
    for (at, byte) in text.iter().enumerate() {
        if *byte == mark {
            return Some((&text[..at], &text[at + 1..]));
        }
    }
    None
}

/// What stands before and after the last of these bytes.
pub(crate) fn split_last(text: &[u8], mark: u8) -> Option<(&[u8], &[u8])>
    ensures { parts_in result ≡ last_split mark text.now }
{
    for at in (0..text.len()).rev() {
        if text[at] == mark {
            return Some((&text[..at], &text[at + 1..]));
        }
    }
    None
}

/// ASCII bytes as a text. Other bytes may give the empty text.
pub fn text_of(bytes: &[u8]) -> &str
    ensures { IsAscii bytes.now → result.now ≡ bytes.now }
{
    match str::from_utf8(bytes) {
        Ok(text) => text,
        Err(_) => "",
    }
}

/// The number below 4,294,967,296 of which these bytes are the text. Bytes that are the text of none may give
/// any answer.
pub(crate) fn number(text: &[u8]) -> Option<u32>
    ensures { (n : ℕ) → n < 2 ^ 32 → text.now ≡ decimal n → result ≡ Some n }
{
    text_of(text).parse::<u32>().ok()
}

const FAULTS: [Fault; 18] = [
    Fault::F1,
    Fault::F2,
    Fault::F3,
    Fault::F4,
    Fault::F5,
    Fault::F6,
    Fault::F7,
    Fault::F8,
    Fault::F9,
    Fault::F10,
    Fault::F11,
    Fault::F12,
    Fault::F13,
    Fault::F14,
    Fault::F15,
    Fault::F16,
    Fault::F17,
    Fault::F18,
];

/// The fault of which these bytes are the name.
pub(crate) fn fault(text: &[u8]) -> Option<Fault>
    ensures { result ≡ fault_of_name text.now }
{
    FAULTS
        .iter()
        .copied()
        .find(|fault| fault.name().as_bytes() == text)
}
