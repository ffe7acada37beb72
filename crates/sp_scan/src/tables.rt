//! The tables of words, refused words and signs: how each is spelled, by its number.

ghost use Rattle.std.specs.Prelude.{◌≡◌, ◌<◌, Some, slice_get};
ghost use Rattle.sp_tree.specs.Lexemes.{words, refused_words, signs};

/// How many words there are.
pub const WORDS: u8 = 30;

/// How many words of the language are refused.
pub const REFUSED: u8 = 10;

/// How many signs there are.
pub const SIGNS: u8 = 20;

/// The word of that number.
pub fn word_text(n: u8) -> &'static str
    requires { n < 30 }
    ensures { slice_get words n ≡ Some result.now }
{
    match n {
        0 => "and",
        1 => "array",
        2 => "assume",
        3 => "begin",
        4 => "case",
        5 => "const",
        6 => "div",
        7 => "do",
        8 => "downto",
        9 => "else",
        10 => "end",
        11 => "for",
        12 => "forall",
        13 => "function",
        14 => "if",
        15 => "mod",
        16 => "not",
        17 => "of",
        18 => "or",
        19 => "parallel",
        20 => "procedure",
        21 => "program",
        22 => "record",
        23 => "repeat",
        24 => "then",
        25 => "to",
        26 => "type",
        27 => "until",
        28 => "var",
        _ => "while",
    }
}

/// The refused word of that number.
pub fn refused_text(n: u8) -> &'static str
    requires { n < 10 }
    ensures { slice_get refused_words n ≡ Some result.now }
{
    match n {
        0 => "file",
        1 => "forward",
        2 => "goto",
        3 => "in",
        4 => "label",
        5 => "nil",
        6 => "packed",
        7 => "set",
        8 => "sic",
        _ => "with",
    }
}

/// The sign of that number.
pub fn sign_text(n: u8) -> &'static str
    requires { n < 20 }
    ensures { slice_get signs n ≡ Some result.now }
{
    match n {
        0 => "+",
        1 => "-",
        2 => "*",
        3 => "=",
        4 => "<>",
        5 => "<",
        6 => "<=",
        7 => ">",
        8 => ">=",
        9 => "(",
        10 => ")",
        11 => "[",
        12 => "]",
        13 => ":=",
        14 => ".",
        15 => ",",
        16 => ";",
        17 => ":",
        18 => "..",
        _ => "|",
    }
}
