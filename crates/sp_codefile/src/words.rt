//! Cutting a line into words, and reading numbers. Bytes that no code is written with may give any answer: whoever
//! reads a line writes it again, and compares.

ghost use Rattle.std.specs.Prelude.{◌≡◌, ◌<◌, ℕ, ℤ, decimal, drop};
ghost use Rattle.std.specs.Fmt.{signed_decimal};
ghost use Rattle.sp_codefile.specs.Cuts.{begins, blank_cut, class_cut, word_of};
ghost use Rattle.sp_codefile.specs.CodeText.{IsNumber, IsInteger};

use sp_journal::text_of;

/// Whether the first byte is from `low` to `high`.
fn begins(text: &[u8], low: u8, high: u8) -> bool
    ensures { result ≡ begins low high text.now }
{
    match text.first() {
        None => false,
        Some(byte) => low <= *byte && *byte <= high,
    }
}

/// The text up to the first blank with a byte from `low` to `high` behind it, and the text from this blank on.
pub(crate) fn class_cut(text: &[u8], low: u8, high: u8) -> (&[u8], &[u8])
    ensures before { result.0.now ≡ (class_cut low high text.now).0 }
    ensures rest { result.1.now ≡ (class_cut low high text.now).1 }
{
    for (at, byte) in text.iter().enumerate() {
        if *byte == b' ' && begins(&text[at + 1..], low, high) {
            return (&text[..at], &text[at..]);
        }
    }
    (text, &text[text.len()..])
}

/// The text up to the first blank, and from this blank on.
pub(crate) fn blank_cut(text: &[u8]) -> (&[u8], &[u8])
    ensures before { result.0.now ≡ (blank_cut text.now).0 }
    ensures rest { result.1.now ≡ (blank_cut text.now).1 }
{
    for (at, byte) in text.iter().enumerate() {
        if *byte == b' ' {
            return (&text[..at], &text[at..]);
        }
    }
    (text, &text[text.len()..])
}

/// The word behind the first byte, which is a blank, and what stands behind that word.
pub(crate) fn next_word(text: &[u8]) -> (&[u8], &[u8])
    ensures before { result.0.now ≡ (word_of text.now).0 }
    ensures rest { result.1.now ≡ (word_of text.now).1 }
{
    if text.is_empty() {
        (text, text)
    } else {
        blank_cut(&text[1..])
    }
}

/// The text without its first bytes.
pub(crate) fn after(text: &[u8], count: usize) -> &[u8]
    ensures { result.now ≡ drop count text.now }
{
    if count <= text.len() {
        &text[count..]
    } else {
        &text[text.len()..]
    }
}

/// The number of 32 bits that this word writes.
pub(crate) fn number(word: &[u8]) -> u32
    ensures { (n : ℕ) → IsNumber n → word.now ≡ decimal n → result ≡ n }
{
    text_of(word).parse::<u32>().unwrap_or(0)
}

/// The number of 64 bits that this word writes.
pub(crate) fn integer(word: &[u8]) -> i64
    ensures { (z : ℤ) → IsInteger z → word.now ≡ signed_decimal z → result ≡ z }
{
    text_of(word).parse::<i64>().unwrap_or(0)
}
