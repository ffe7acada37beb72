//! The rules of characters at one place: what stands first there, or the first rule that is broken.

ghost use Rattle.std.specs.Prelude.{◌≡◌, ◌<◌, ◌↔◌, ◌∷◌, IsTrue, true, false, map};
ghost use Rattle.sp_tree.specs.declared.token.Kind.TheVariants.{Number, Name};
ghost use Rattle.sp_tree.specs.Characters.{lower_case_letter, is_blank as is_a_blank};
ghost use Rattle.sp_tree.specs.Spelling.{digits_value};
ghost use Rattle.sp_tree.specs.Lexemes.{Longest, opens_comment as opens};
ghost use Rattle.sp_tree.specs.Scans.{NoToken, begins_digit as is_digit_first, begins_signed as is_signed_first};
ghost use Rattle.sp_tree.specs.Scans.{goes_on_real as is_real};
ghost use Rattle.sp_scan.specs.Finds.{IsRefusedWord, IsBreach, FirstHere, ItemAt};

use crate::bytes::{cut, is_blank, is_digit, is_spelled};
use crate::runs::{after_comment, opens_comment};
use crate::tables::{REFUSED, refused_text};
use crate::token::token;
use sp_base::Rule;
use sp_tree::{Kind, MAX_NAME};

/// Whether the digits write a number above the greatest integer.
fn exceeds(digits: &[u8]) -> bool
    ensures { IsTrue result ↔ (9223372036854775807 < digits_value 0 digits.now) }
{
    let mut value = 0u64;
    let mut rest = digits;
    'more: while let Some((digit, after)) = cut(rest) {
        let next = 10 * value as u128 + digit.saturating_sub(b'0') as u128;
        if next > 9_223_372_036_854_775_807 {
            return true;
        }
        value = next as u64;
        rest = after;
    }
    false
}

/// Whether a digit comes first.
fn begins_digit(bytes: &[u8]) -> bool
    ensures { result ≡ is_digit_first bytes.now }
{
    match cut(bytes) {
        Some((first, _)) => is_digit(first),
        None => false,
    }
}

/// Whether a digit comes first, or a sign and a digit.
fn begins_signed(bytes: &[u8]) -> bool
    ensures { result ≡ is_signed_first bytes.now }
{
    match cut(bytes) {
        Some((first, rest)) => {
            is_digit(first) || ((first == b'+' || first == b'-') && begins_digit(rest))
        }
        None => false,
    }
}

/// Whether a number before these bytes is a real one.
fn goes_on_real(bytes: &[u8]) -> bool
    ensures { result ≡ is_real bytes.now }
{
    match cut(bytes) {
        Some((first, rest)) => {
            (first == b'.' && begins_digit(rest))
                || ((first == b'e' || first == b'E') && begins_signed(rest))
        }
        None => false,
    }
}

/// Whether the bytes are a refused word.
fn is_refused(spelled: &[u8]) -> bool
    ensures { IsRefusedWord (map lower_case_letter spelled.now) result }
{
    for n in 0..REFUSED {
        if is_spelled(spelled, refused_text(n)) {
            return true;
        }
    }
    false
}

/// The first rule that a number breaks, if it breaks one.
fn number_breach(bytes: &[u8], after: &[u8]) -> Option<Rule>
    requires longest { Longest Number bytes.now after.now }
    requires closed { opens bytes.now ≡ false }
    ensures { IsBreach bytes.now result }
{
    if exceeds(&bytes[..bytes.len() - after.len()]) {
        return Some(Rule::S4);
    }
    if goes_on_real(after) {
        return Some(Rule::U2);
    }
    None
}

/// The first rule that a name breaks, if it breaks one.
fn name_breach(bytes: &[u8], after: &[u8]) -> Option<Rule>
    requires longest { Longest Name bytes.now after.now }
    requires closed { opens bytes.now ≡ false }
    ensures { IsBreach bytes.now result }
{
    if bytes.len() - after.len() > MAX_NAME {
        return Some(Rule::S5);
    }
    if is_refused(&bytes[..bytes.len() - after.len()]) {
        return Some(Rule::U1);
    }
    None
}

/// The first rule that a token breaks, if it breaks one.
fn breach(kind: Kind, bytes: &[u8], after: &[u8]) -> Option<Rule>
    requires longest { Longest kind bytes.now after.now }
    requires closed { opens bytes.now ≡ false }
    ensures { IsBreach bytes.now result }
{
    match kind {
        Kind::Number => number_breach(bytes, after),
        Kind::Name => name_breach(bytes, after),
        _ => None,
    }
}

/// The first rule that is broken where no token begins.
fn stray(bytes: &[u8], first: u8, rest: &[u8]) -> Rule
    requires starts { bytes.now ≡ first ∷ rest.now }
    requires blank { is_a_blank first ≡ false }
    requires closed { opens bytes.now ≡ false }
    requires none { NoToken bytes.now }
    ensures { FirstHere result bytes.now }
{
    if first == b'\'' {
        return Rule::S3;
    }
    if first == b'^' {
        return Rule::U1;
    }
    if first == b'@' {
        return Rule::U1;
    }
    if first == b'/' {
        return Rule::U2;
    }
    Rule::S1
}

/// What stands first, and what is behind it: a blank or a comment, or a token of that kind. Or the first rule that
/// is broken here.
pub fn item<'a>(
    bytes: &'a [u8],
    first: u8,
    rest: &'a [u8],
) -> Result<(Option<Kind>, &'a [u8]), Rule>
    requires { bytes.now ≡ first ∷ rest.now }
    ensures { ItemAt bytes.now result }
{
    if is_blank(first) {
        return Ok((None, rest));
    }
    if opens_comment(bytes) {
        return match after_comment(bytes) {
            Some(after) => Ok((None, after)),
            None => Err(Rule::S2),
        };
    }
    let Some((kind, after)) = token(bytes) else {
        return Err(stray(bytes, first, rest));
    };
    match breach(kind, bytes, after) {
        Some(rule) => Err(rule),
        None => Ok((Some(kind), after)),
    }
}
