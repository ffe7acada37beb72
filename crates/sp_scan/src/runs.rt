//! What is behind names, numbers, texts and comments, from behind their first bytes on.

ghost use Rattle.std.specs.Prelude.{◌≡◌};
ghost use Rattle.sp_tree.specs.Characters.{is_digit, is_name_byte};
ghost use Rattle.sp_tree.specs.Lexemes.{TextBody, BraceBody, StarBody, Comment, opens_comment as opens};
ghost use Rattle.sp_scan.specs.Finds.{EndsRun, EndsBody};

use crate::bytes::{cut, pass};

/// What is behind the rest of a name.
pub fn after_name(bytes: &[u8]) -> &[u8]
    ensures { EndsRun is_name_byte bytes.now result.now }
{
    let mut rest = bytes;
    'more: while let Some((first, after)) = cut(rest) {
        if !(first.is_ascii_alphanumeric() || first == b'_') {
            break;
        }
        rest = after;
    }
    rest
}

/// What is behind the rest of a number.
pub fn after_number(bytes: &[u8]) -> &[u8]
    ensures { EndsRun is_digit bytes.now result.now }
{
    let mut rest = bytes;
    'more: while let Some((first, after)) = cut(rest) {
        if !first.is_ascii_digit() {
            break;
        }
        rest = after;
    }
    rest
}

/// What is behind a text whose quote is open, if it ends on its line.
pub fn after_text(bytes: &[u8]) -> Option<&[u8]>
    ensures { EndsBody TextBody bytes.now result }
{
    let mut rest = bytes;
    'more: while let Some((first, after)) = cut(rest) {
        if first == b'\n' || first == b'\r' {
            return None;
        }
        rest = after;
        if first == b'\'' {
            match pass(after, b'\'') {
                Some(behind) => rest = behind,
                None => return Some(after),
            }
        }
    }
    None
}

/// What is behind a comment whose brace is open, if it has an end.
fn after_brace(bytes: &[u8]) -> Option<&[u8]>
    ensures { EndsBody BraceBody bytes.now result }
{
    let mut rest = bytes;
    'more: while let Some((first, after)) = cut(rest) {
        if first == b'}' {
            return Some(after);
        }
        rest = after;
    }
    None
}

/// What is behind a comment whose parenthesis and star are open, if it has an end.
fn after_star(bytes: &[u8]) -> Option<&[u8]>
    ensures { EndsBody StarBody bytes.now result }
{
    let mut rest = bytes;
    'more: while let Some((first, after)) = cut(rest) {
        if first == b'*' {
            if let Some(behind) = pass(after, b')') {
                return Some(behind);
            }
        }
        rest = after;
    }
    None
}

/// Whether a comment is opened here.
pub fn opens_comment(bytes: &[u8]) -> bool
    ensures { result ≡ opens bytes.now }
{
    match bytes {
        [b'{', ..] => true,
        [b'(', b'*', ..] => true,
        _ => false,
    }
}

/// What is behind the comment that stands here, if one does and has an end.
pub fn after_comment(bytes: &[u8]) -> Option<&[u8]>
    ensures { EndsBody Comment bytes.now result }
{
    let Some((first, rest)) = cut(bytes) else {
        return None;
    };
    if first == b'{' {
        return after_brace(rest);
    }
    if first == b'(' {
        if let Some(behind) = pass(rest, b'*') {
            return after_star(behind);
        }
    }
    None
}
