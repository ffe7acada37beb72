//! How constants are read.

ghost use Rattle.std.specs.Prelude.{◌≡◌, None};
ghost use Rattle.sp_tree.specs.Symbols.{AConstant, AValue};
ghost use Rattle.sp_parse.specs.Productions.{itself, single};
ghost use Rattle.sp_parse.specs.Reads.{HasTokens, Parses};

use crate::operators::is;
use crate::source::{Source, Tokens, misplaced};
use crate::spelling::{name_at, nameless, number_at, quoted_at, wordless};
use sp_base::Place;
use sp_tree::{Kind, SynConst, SynValue, sign};

// value = number | name
/// A number or a name.
fn value(source: &Source, tokens: &mut Tokens) -> SynValue
    requires { HasTokens source.now tokens.now.rest.now }
    ensures { Parses source.now (single AValue) itself tokens.old tokens.new result }
{
    let first = tokens.look(source);
    tokens.skip(source);
    match first.kind {
        Kind::Number => SynValue::Number(number_at(source, first)),
        Kind::Name => {
            SynValue::Named(tokens.made(source, name_at(source, first), nameless(source)))
        }
        _ => {
            tokens.fail(source, misplaced(first));
            SynValue::Number(0)
        }
    }
}

/// A constant without a sign.
fn unsigned(at: Place, value: SynValue) -> SynConst
    ensures { result ≡ record { at = at; negative = None; value = value } }
{
    SynConst {
        at,
        negative: None,
        value,
    }
}

// constant = [ "+" | "-" ] ( number | name ) | text
/// A constant: a number or a name, with a sign or without, or a text.
pub fn constant(source: &Source, tokens: &mut Tokens) -> SynConst
    requires { HasTokens source.now tokens.now.rest.now }
    ensures { Parses source.now (single AConstant) itself tokens.old tokens.new result }
{
    let first = tokens.look(source);
    let at = first.at;
    tokens.skip(source);
    if is(first, Kind::Sign(sign::PLUS)) {
        return SynConst {
            at,
            negative: Some(false),
            value: value(source, tokens),
        };
    }
    if is(first, Kind::Sign(sign::MINUS)) {
        return SynConst {
            at,
            negative: Some(true),
            value: value(source, tokens),
        };
    }
    match first.kind {
        Kind::Number => unsigned(at, SynValue::Number(number_at(source, first))),
        Kind::Name => {
            let name = tokens.made(source, name_at(source, first), nameless(source));
            unsigned(at, SynValue::Named(name))
        }
        Kind::Text => {
            let text = tokens.made(source, quoted_at(source, first), wordless(source));
            unsigned(at, SynValue::Quoted(text))
        }
        _ => {
            tokens.fail(source, misplaced(first));
            unsigned(at, SynValue::Number(0))
        }
    }
}
