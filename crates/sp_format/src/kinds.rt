//! What the kind of an item says of its layout. A comment has no kind.

ghost use Rattle.std.specs.Prelude.{◌≡◌};
ghost use Rattle.sp_format.specs.Layout as layout;

use sp_tree::{Kind, sign, word};

/// Whether the item opens a part: `begin`, `case`, `parallel`, `record`, `repeat`.
pub fn begins(kind: Option<Kind>) -> bool
    ensures { result ≡ layout.begins kind }
{
    match kind {
        Some(Kind::Word(n)) => {
            n == word::BEGIN
                || n == word::CASE
                || n == word::PARALLEL
                || n == word::RECORD
                || n == word::REPEAT
        }
        _ => false,
    }
}

/// Whether the item closes a part: `end`, `until`.
pub fn ends(kind: Option<Kind>) -> bool
    ensures { result ≡ layout.ends kind }
{
    match kind {
        Some(Kind::Word(n)) => n == word::END || n == word::UNTIL,
        _ => false,
    }
}

/// Whether the item stands one step further left: `end`, `until`, `|`.
pub fn stands_out(kind: Option<Kind>) -> bool
    ensures { result ≡ layout.stands_out kind }
{
    match kind {
        Some(Kind::Word(n)) => n == word::END || n == word::UNTIL,
        Some(Kind::Sign(n)) => n == sign::BAR,
        _ => false,
    }
}

/// Whether a new line starts before the item, whatever stands there.
pub fn starts(kind: Option<Kind>) -> bool
    ensures { result ≡ layout.starts kind }
{
    match kind {
        None => true,
        Some(_) => stands_out(kind),
    }
}

/// Whether the item is `(`.
pub fn opens(kind: Option<Kind>) -> bool
    ensures { result ≡ layout.opens kind }
{
    match kind {
        Some(Kind::Sign(n)) => n == sign::OPEN,
        _ => false,
    }
}

/// Whether the item is `)`.
pub fn closes(kind: Option<Kind>) -> bool
    ensures { result ≡ layout.closes kind }
{
    match kind {
        Some(Kind::Sign(n)) => n == sign::CLOSE,
        _ => false,
    }
}

/// Whether the item is `array`.
pub fn is_array(kind: Option<Kind>) -> bool
    ensures { result ≡ layout.is_array kind }
{
    match kind {
        Some(Kind::Word(n)) => n == word::ARRAY,
        _ => false,
    }
}

/// Whether the item is `case`.
pub fn is_case(kind: Option<Kind>) -> bool
    ensures { result ≡ layout.is_case kind }
{
    match kind {
        Some(Kind::Word(n)) => n == word::CASE,
        _ => false,
    }
}

/// Whether no space stands before the item.
fn hangs(kind: Option<Kind>) -> bool
    ensures { result ≡ layout.hangs kind }
{
    match kind {
        Some(Kind::Sign(n)) => {
            n == sign::COMMA
                || n == sign::SEMICOLON
                || n == sign::COLON
                || n == sign::CLOSE
                || n == sign::CLOSE_INDEX
                || n == sign::DOT
                || n == sign::RANGE
        }
        _ => false,
    }
}

/// Whether no space stands behind the item.
fn holds(kind: Option<Kind>) -> bool
    ensures { result ≡ layout.holds kind }
{
    match kind {
        Some(Kind::Sign(n)) => {
            n == sign::OPEN || n == sign::OPEN_INDEX || n == sign::DOT || n == sign::RANGE
        }
        _ => false,
    }
}

/// Whether the item is `(` or `[`.
fn applies(kind: Option<Kind>) -> bool
    ensures { result ≡ layout.applies kind }
{
    match kind {
        Some(Kind::Sign(n)) => n == sign::OPEN || n == sign::OPEN_INDEX,
        _ => false,
    }
}

/// Whether the item is a name.
fn is_name(kind: Option<Kind>) -> bool
    ensures { result ≡ layout.is_name kind }
{
    match kind {
        Some(Kind::Name) => true,
        _ => false,
    }
}

/// Whether no space stands between two items of one line.
pub fn touches(before: Option<Kind>, kind: Option<Kind>) -> bool
    ensures { result ≡ layout.touches before kind }
{
    hangs(kind) || (holds(before) || (is_name(before) && applies(kind)))
}
