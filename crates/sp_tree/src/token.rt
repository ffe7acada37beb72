//! The tokens of a text: the kind, the bytes and the place of each.

use sp_base::Place;

/// What a token is. A word and a sign carry their position, counted from 0, in the list of words and in the list of
/// signs of `docs/LANGUAGE.md`, which are those of `word` and `sign`.
#[derive(Clone, Copy, PartialEq, Eq)]
pub enum Kind {
    /// A letter, and then letters, digits and underscores. It is no word.
    Name,
    /// Decimal digits.
    Number,
    /// What stands between single quotes.
    Text,
    /// A reserved word, as `begin`.
    Word(u8),
    /// A sign, as `:=`.
    Sign(u8),
}

/// A token: its bytes from `from` up to `to`, counted from 0, and the place of its first byte.
#[derive(Clone, Copy, PartialEq, Eq)]
pub struct Token {
    pub kind: Kind,
    pub from: u32,
    pub to: u32,
    pub at: Place,
}
