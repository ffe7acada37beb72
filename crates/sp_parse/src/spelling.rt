//! What single tokens say: a name in lower case, a number, a text without its quotes.

ghost use Rattle.std.specs.Prelude.{◌≡◌, map};
ghost use Rattle.sp_tree.specs.Characters.{lower_case_letter as lower_of};
ghost use Rattle.sp_tree.specs.declared.token.Kind.TheVariants.{Number as ANumber};
ghost use Rattle.sp_tree.specs.Spelling.{spelling, name_of, number_of, quoted_of, within_quotes};
ghost use Rattle.sp_parse.specs.Productions.{itself};
ghost use Rattle.sp_parse.specs.Reads.{TokenFits};
ghost use Rattle.sp_parse.specs.Trees.{MakesTree};

use crate::source::Source;
use sp_base::Text;
use sp_tree::{Name, Token, lower};
use std::alloc::{AllocError, Global};

/// The bytes of a token.
fn spelled<'a>(source: &Source<'a>, token: Token) -> &'a [u8]
    requires { TokenFits source.now.text.now token }
    ensures { result.now ≡ spelling source.now.text.now token }
{
    &source.text[token.from as usize..token.to as usize]
}

fn lowered(alloc: Global, bytes: &[u8]) -> Result<Text, AllocError>
    ensures { MakesTree itself (map lower_of bytes.now) result }
{
    let mut all = Vec::with_capacity(alloc, bytes.len())?;
    let mut rest = bytes;
    'more: while let [byte, after @ ..] = rest {
        all.push(lower(*byte))?;
        rest = after;
    }
    Ok(Text::of(all))
}

/// A name in lower case.
pub fn name_at(source: &Source, token: Token) -> Result<Name, AllocError>
    requires { TokenFits source.now.text.now token }
    ensures { MakesTree itself (name_of source.now.text.now token) result }
{
    match lowered(source.alloc, spelled(source, token)) {
        Ok(text) => Ok(Name { text, at: token.at }),
        Err(failure) => Err(failure),
    }
}

/// A name without letters, for a reading that failed.
pub fn nameless(source: &Source) -> Name {
    Name {
        text: wordless(source),
        at: source.end,
    }
}

/// A text without letters, for a reading that failed.
pub fn wordless(source: &Source) -> Text {
    Text::of(Vec::new(source.alloc))
}

/// The number that digits write.
pub fn number_at(source: &Source, token: Token) -> u64
    requires fits { TokenFits source.now.text.now token }
    requires number { token.kind ≡ ANumber }
    ensures { result ≡ number_of source.now.text.now token }
{
    let mut value = 0u64;
    let mut rest = spelled(source, token);
    'more: while let [digit, after @ ..] = rest {
        value = 10 * value + digit.saturating_sub(b'0') as u64;
        rest = after;
    }
    value
}

/// A text without its quotes, where two quotes stand for one.
fn unquoted(alloc: Global, bytes: &[u8]) -> Result<Text, AllocError>
    ensures { MakesTree itself (within_quotes bytes.now) result }
{
    let mut all = Vec::new(alloc);
    let mut rest = bytes;
    'more: while let [byte, _, after @ ..] = rest {
        all.push(*byte)?;
        if *byte == b'\'' {
            rest = after;
        } else {
            rest = &rest[1..];
        }
    }
    Ok(Text::of(all))
}

/// A text between quotes.
pub fn quoted_at(source: &Source, token: Token) -> Result<Text, AllocError>
    requires { TokenFits source.now.text.now token }
    ensures { MakesTree itself (quoted_of source.now.text.now token) result }
{
    match spelled(source, token) {
        [_, rest @ ..] => unquoted(source.alloc, rest),
        [] => unquoted(source.alloc, &[]),
    }
}
