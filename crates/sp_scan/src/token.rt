//! The longest token at a place: a name, a word, a number, a text or a sign.

ghost use Rattle.std.specs.Prelude.{◌≡◌, ◌<◌, ◌+◌, ◌∷◌, map, true};
ghost use Rattle.sp_tree.specs.Characters.{lower_case_letter, is_letter};
ghost use Rattle.sp_tree.specs.Lexemes.{Longest};
ghost use Rattle.sp_scan.specs.Finds.{IsWordOf, FindsSign, Finds};

use crate::bytes::{self, cut, is_spelled, strip};
use crate::runs::{after_name, after_number, after_text};
use crate::tables::{SIGNS, WORDS, sign_text, word_text};
use sp_tree::Kind;

/// The kind of a name or a word.
fn word_of(spelled: &[u8]) -> Kind
    ensures { IsWordOf (map lower_case_letter spelled.now) result }
{
    for n in 0..WORDS {
        if is_spelled(spelled, word_text(n)) {
            return Kind::Word(n);
        }
    }
    Kind::Name
}

/// The longest sign that stands first, and what is behind it.
fn sign(bytes: &[u8]) -> Option<(u8, &[u8])>
    ensures { FindsSign 20 bytes.now result }
{
    let mut best: Option<(u8, &[u8])> = None;
    for n in 0..SIGNS {
        best = better(n, bytes, best);
    }
    best
}

/// The longer one of a sign and the longest of those before it.
fn better<'a>(n: u8, bytes: &'a [u8], best: Option<(u8, &'a [u8])>) -> Option<(u8, &'a [u8])>
    requires below { n < 20 }
    requires best { FindsSign n bytes.now best }
    ensures { FindsSign (n + 1) bytes.now result }
{
    match strip(bytes, sign_text(n)) {
        None => best,
        Some(rest) => match best {
            None => Some((n, rest)),
            Some((_, other)) if rest.len() < other.len() => Some((n, rest)),
            found => found,
        },
    }
}

/// The name or word that stands first, and what is behind it.
fn name<'a>(bytes: &'a [u8], first: u8, rest: &'a [u8]) -> (Kind, &'a [u8])
    requires starts { bytes.now ≡ first ∷ rest.now }
    requires letter { is_letter first ≡ true }
    ensures { Longest result.0 bytes.now result.1.now }
{
    let after = after_name(rest);
    (word_of(&bytes[..bytes.len() - after.len()]), after)
}

/// The longest token that stands first, and what is behind it.
pub fn token(bytes: &[u8]) -> Option<(Kind, &[u8])>
    ensures { Finds bytes.now result }
{
    let Some((first, rest)) = cut(bytes) else {
        return None;
    };
    if bytes::is_letter(first) {
        return Some(name(bytes, first, rest));
    }
    if bytes::is_digit(first) {
        return Some((Kind::Number, after_number(rest)));
    }
    if first == b'\'' {
        return match after_text(rest) {
            Some(after) => Some((Kind::Text, after)),
            None => None,
        };
    }
    match sign(bytes) {
        Some((n, after)) => Some((Kind::Sign(n), after)),
        None => None,
    }
}
