//! The pass over a text: its tokens, or the first rule of its characters that it breaks.

ghost use Rattle.std.specs.Prelude.{◌≡◌, ◌∷◌, ◌+◌, ◌-◌, ◌<◌, ◌≤◌, ◌^◌, length, take};
ghost use Rattle.sp_tree.specs.Places.{place_behind, next_place};
ghost use Rattle.sp_tree.specs.Spelling.{spelling as the_spelling};
ghost use Rattle.sp_scan.specs.Finds.{FirstBreachOf, PassesItem, Scanned};

use crate::bytes::cut;
use crate::rules::item;
use sp_base::{Halt, List, Place, Refusal, Rule};
use sp_tree::{Kind, MAX_TEXT, Token};
use std::alloc::Global;

/// The place behind some bytes.
fn behind(at: Place, bytes: &[u8]) -> Place
    requires line { at.line + length bytes.now < 2 ^ 32 }
    requires column { at.column + length bytes.now < 2 ^ 32 }
    ensures { result ≡ place_behind at bytes.now }
{
    let mut at = at;
    let mut rest = bytes;
    'more: while let Some((byte, after)) = cut(rest) {
        at = next(at, byte);
        rest = after;
    }
    at
}

/// The place of `after`, which are the last of the bytes whose place is `at`.
fn moved(at: Place, bytes: &[u8], after: &[u8]) -> Place
    requires last { length after.now ≤ length bytes.now }
    requires line { at.line + length bytes.now < 2 ^ 32 }
    requires column { at.column + length bytes.now < 2 ^ 32 }
    ensures { result ≡ place_behind at (take (length bytes.now - length after.now) bytes.now) }
{
    behind(at, &bytes[..bytes.len() - after.len()])
}

/// The place behind a byte.
fn next(at: Place, byte: u8) -> Place
    requires line { at.line + 1 < 2 ^ 32 }
    requires column { at.column + 1 < 2 ^ 32 }
    ensures { result ≡ next_place at byte }
{
    if byte == b'\n' {
        Place {
            line: at.line + 1,
            column: 1,
        }
    } else {
        Place {
            line: at.line,
            column: at.column + 1,
        }
    }
}

/// What stands first in the rest of a text, what is behind it, and the place of that; or the first rule that is broken
/// here.
#[tactic(auto, using(crate::proofs::TokenPrefixes::item_no_longer))]
fn step<'a>(
    at: Place,
    rest: &'a [u8],
    first: u8,
    others: &'a [u8],
) -> Result<(Option<Kind>, &'a [u8], Place), Rule>
    requires front { rest.now ≡ first ∷ others.now }
    requires line { at.line + length rest.now < 2 ^ 32 }
    requires column { at.column + length rest.now < 2 ^ 32 }
    ensures { PassesItem at rest.now result }
{
    let (kind, after) = item(rest, first, others)?;
    Ok((kind, after, moved(at, rest, after)))
}

/// The tokens of a text, in their order, or the first rule of its characters that it breaks: L1, S1 to S5, U1 or U2,
/// of the earliest place, and of several at one place the one that stands first in the table of rules.
pub fn scan(alloc: Global, text: &[u8]) -> Result<List<Token>, Halt>
    ensures { Scanned text.now result }
{
    let mut at = Place { line: 1, column: 1 };
    if text.len() > MAX_TEXT {
        return Err(Halt::Refused(Refusal { rule: Rule::L1, at }));
    }
    let mut tokens = List::new(alloc);
    let mut rest = text;
    'items: while let Some((first, others)) = cut(rest) {
        match step(at, rest, first, others) {
            Ok((None, after, behind)) => {
                at = behind;
                rest = after;
            }
            Ok((Some(kind), after, behind)) => {
                let from = (text.len() - rest.len()) as u32;
                let to = (text.len() - after.len()) as u32;
                tokens.push(Token { kind, from, to, at })?;
                at = behind;
                rest = after;
            }
            Err(rule) => return Err(Halt::Refused(Refusal { rule, at })),
        }
    }
    Ok(tokens)
}

/// The first rule of its characters that a text breaks, if it breaks one. It takes no memory: so each text has tokens
/// or a first broken rule.
pub fn first_breach(text: &[u8]) -> Option<Refusal>
    ensures { FirstBreachOf text.now result }
{
    let mut at = Place { line: 1, column: 1 };
    if text.len() > MAX_TEXT {
        return Some(Refusal { rule: Rule::L1, at });
    }
    let mut rest = text;
    'items: while let Some((first, others)) = cut(rest) {
        match step(at, rest, first, others) {
            Ok((_, after, behind)) => {
                at = behind;
                rest = after;
            }
            Err(rule) => return Some(Refusal { rule, at }),
        }
    }
    None
}

/// The bytes of a token of the text.
pub fn spelling<'a>(text: &'a [u8], token: &Token) -> &'a [u8]
    requires order { token.now.from ≤ token.now.to }
    requires within { token.now.to ≤ length text.now }
    ensures { result.now ≡ the_spelling text.now token.now }
{
    &text[token.from as usize..token.to as usize]
}
