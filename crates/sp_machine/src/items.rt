//! Items as the input and the output have them: numbers and chars that are read, how far a line goes, and the texts of
//! values.

ghost use Rattle.std.specs.Prelude.{◌≡◌, ◌+◌, ◌<◌, ◌≤◌, ◌^◌, MatchOption, length, take, if◌then◌else◌};
ghost use Rattle.sp_tree.specs.Characters.{is_blank, is_digit};
ghost use Rattle.sp_tree.specs.Items.{blanks, digits, number_from, number_in, number_after};
ghost use Rattle.sp_tree.specs.Items.{digits_after};
ghost use Rattle.sp_tree.specs.Items.{char_in, line_length, at_line_end, truth_text, byte};
ghost use Rattle.sp_machine.specs.ReadResults.{read_result_of};

use sp_base::{Fault, MAXINT};

/// What reading gives: a value and how many bytes it took, or a fault.
#[derive(Clone, Copy)]
pub enum ReadResult {
    ReadItem(i64, usize),
    ReadFault(Fault),
}

fn is_blank(b: u8) -> bool
    ensures { result ≡ is_blank b }
{
    b == 32 || b == 9 || b == 12 || b == 13 || b == 10
}

/// How many blanks stand first.
#[tactic(auto, using(crate::proofs::ByteRuns::blanks_on, crate::proofs::ByteRuns::blanks_stop, crate::proofs::ByteRuns::blanks_end))]
fn blanks(bytes: &[u8]) -> usize
    ensures value { result ≡ blanks bytes.now }
    ensures within { result ≤ length bytes.now }
{
    let mut n = 0;
    for b in bytes {
        if !is_blank(*b) {
            return n;
        }
        n += 1;
    }
    n
}

fn is_digit(b: u8) -> bool
    ensures { result ≡ is_digit b }
{
    48 <= b && b <= 57
}

/// How many digits stand first.
#[tactic(auto, using(crate::proofs::ByteRuns::digits_on, crate::proofs::ByteRuns::digits_stop, crate::proofs::ByteRuns::digits_end))]
fn digits(bytes: &[u8]) -> usize
    ensures value { result ≡ digits bytes.now }
    ensures within { result ≤ length bytes.now }
{
    let mut n = 0;
    for b in bytes {
        if !is_digit(*b) {
            return n;
        }
        n += 1;
    }
    n
}

/// The number that digits spell, or none where it is above the integers.
#[tactic(auto, using(crate::proofs::ByteRuns::number_on, crate::proofs::ByteRuns::number_end, crate::proofs::ByteRuns::number_grows))]
fn number_of(digits: &[u8]) -> Option<u64>
    ensures { MatchOption result (2 ^ 63 ≤ number_from 0 digits.now)
        (λ n. (n < 2 ^ 63) × (n ≡ number_from 0 digits.now)) }
{
    let mut n = 0u64;
    for b in digits {
        let next = n as u128 * 10 + b.saturating_sub(48) as u128;
        if next > MAXINT as u128 {
            return None;
        }
        n = next as u64;
    }
    Some(n)
}

/// The number of the digits that stand first, after so many bytes: F17 without a digit, F2 outside the integers.
fn digits_after(before: usize, minus: bool, bytes: &[u8]) -> ReadResult
    requires { before + length bytes.now < 2 ^ 64 }
    ensures { read_result_of result ≡ digits_after before minus bytes.now }
{
    let count = digits(bytes);
    if count == 0 {
        return ReadResult::ReadFault(Fault::F17);
    }
    match number_of(&bytes[..count]) {
        Some(n) => {
            let n = n as i64;
            ReadResult::ReadItem(if minus { -n } else { n }, before + count)
        }
        None => ReadResult::ReadFault(Fault::F2),
    }
}

/// A number after so many blanks, F18 where nothing is left.
fn number_after(before: usize, bytes: &[u8]) -> ReadResult
    requires { before + length bytes.now < 2 ^ 64 }
    ensures { read_result_of result ≡ number_after before bytes.now }
{
    let Some((first, _rest)) = bytes.split_first() else {
        return ReadResult::ReadFault(Fault::F18);
    };
    let minus = *first == 45;
    let sign = if minus || *first == 43 { 1 } else { 0 };
    digits_after(before + sign, minus, &bytes[sign..])
}

/// An integer: blanks, a sign, and as many digits as there are.
pub fn number_in(bytes: &[u8]) -> ReadResult
    ensures { read_result_of result ≡ number_in bytes.now }
{
    let before = blanks(bytes);
    number_after(before, &bytes[before..])
}

/// A char: the next byte, a space for a line feed.
pub fn char_in(bytes: &[u8]) -> ReadResult
    ensures { read_result_of result ≡ char_in bytes.now }
{
    match bytes.split_first() {
        Some((b, _rest)) => ReadResult::ReadItem(if *b == 10 { 32 } else { *b as i64 }, 1),
        None => ReadResult::ReadFault(Fault::F18),
    }
}

/// How many bytes a line has yet, with its line feed.
#[tactic(auto, using(crate::proofs::ByteRuns::line_on, crate::proofs::ByteRuns::line_stop, crate::proofs::ByteRuns::line_end))]
pub fn line_length(bytes: &[u8]) -> usize
    ensures { result ≡ line_length bytes.now }
{
    let mut n = 0;
    for b in bytes {
        n += 1;
        if *b == 10 {
            return n;
        }
    }
    n
}

/// Whether nothing is left of the line.
pub fn is_at_line_end(bytes: &[u8]) -> bool
    ensures { result ≡ at_line_end bytes.now }
{
    match bytes.split_first() {
        Some((b, _rest)) => *b == 10,
        None => true,
    }
}

/// `true` or `false`.
pub fn truth_text(n: i64) -> &'static [u8]
    ensures { result.now ≡ truth_text n }
{
    if n <= 0 { b"false" } else { b"true" }
}

/// The byte of a char: its ordinal modulo 256, 255 for -1.
pub fn byte_of(n: i64) -> u8
    ensures { result ≡ byte n }
{
    let rest = n % 256;
    if rest < 0 {
        (rest + 256) as u8
    } else {
        rest as u8
    }
}

/// The text as far as a width goes, where the width cuts it.
pub fn cut_to(cut: bool, width: u64, text: &[u8]) -> &[u8]
    ensures { result.now ≡ (if cut then take width text.now else text.now) }
{
    if cut && width < text.len() as u64 {
        &text[..width as usize]
    } else {
        text
    }
}
