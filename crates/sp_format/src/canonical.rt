//! The canonical text of a text, in one pass over its items.

ghost use Rattle.std.specs.Prelude.{◌≡◌, ◌∷◌};
ghost use Rattle.sp_base.specs.declared.rule.Rule.{Rule as ARule};
ghost use Rattle.sp_tree.specs.Scans.{BreaksHere, IsTokens};
ghost use Rattle.sp_scan.specs.Finds.{FrontItem as StandsFirst};
ghost use Rattle.sp_format.specs.Formats.{Lays, Formats};

use crate::context::{behind, start};
use crate::law::{items_kept, one_canonical_text};
use crate::put::{cut, is_blank, put_item};
use sp_base::{Halt, Place, Refusal, Rule};
use sp_parse::parse;
use sp_scan::{item, scan};
use sp_tree::{Kind, MAX_TEXT, Token};
use std::alloc::Global;

/// What a text breaks whose canonical text is longer than a text may be.
const TOO_LONG: Refusal = Refusal {
    rule: Rule::L1,
    at: Place { line: 1, column: 1 },
};

/// The kind of the item that stands first, or none of a comment or a blank, and what is behind it.
fn first_item<'a>(bytes: &'a [u8], first: u8, rest: &'a [u8]) -> (Option<Kind>, &'a [u8])
    requires starts { bytes.now ≡ first ∷ rest.now }
    requires kept { (r : ARule) → BreaksHere r bytes.now → ⊥ }
    ensures { StandsFirst bytes.now result.0 result.1.now }
{
    match item(bytes, first, rest) {
        Ok(found) => found,
        Err(_) => unreachable!(),
    }
}

/// The canonical text of a text with these tokens.
fn lay(alloc: Global, text: &[u8], tokens: &[Token]) -> Result<Vec<u8>, Halt>
    requires { IsTokens text.now tokens.now }
    ensures { Lays text.now result }
{
    let mut out = Vec::new(alloc);
    let mut context = start();
    let mut rest = text;
    'items: while let Some((first, others)) = cut(rest) {
        if is_blank(first) {
            rest = others;
        } else {
            let (kind, after) = first_item(rest, first, others);
            put_item(&mut out, context, kind, &rest[..rest.len() - after.len()])?;
            if out.len() >= MAX_TEXT {
                return Err(Halt::Refused(TOO_LONG));
            }
            context = behind(context, kind);
            rest = after;
        }
    }
    out.push(b'\n')?;
    Ok(out)
}

/// The canonical text of a text that breaks no rule of its characters and its grammar: its tokens and its comments, one
/// layout for every program, as `docs/FORMATS.md` says. Names and words are in lower case.
///
/// `Refused` is the first rule of the characters and the grammar that the text breaks, or L1 at 1:1 where it breaks
/// none and the canonical text has more than 1,048,576 bytes.
pub fn format(alloc: Global, text: &[u8]) -> Result<Vec<u8>, Halt>
    ensures { Formats text.now result }
{
    one_canonical_text();
    items_kept();
    let tokens = scan(alloc, text)?;
    let tree = parse(alloc, text, tokens.items())?;
    drop(tree);
    lay(alloc, text, tokens.items())
}
