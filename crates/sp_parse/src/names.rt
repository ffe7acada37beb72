//! How names and lists of names are read.

ghost use Rattle.sp_tree.specs.Symbols.{AName};
ghost use Rattle.sp_parse.specs.Productions.{itself, single};
ghost use Rattle.sp_parse.specs.Reads.{HasTokens, Parses};
ghost use Rattle.sp_parse.specs.BlockProductions as grammar;

use crate::source::{Source, Tokens};
use crate::spelling::{name_at, nameless};
use sp_base::List;
use sp_tree::{Kind, Name, sign};

// name, a token
/// A name.
pub fn name(source: &Source, tokens: &mut Tokens) -> Name
    requires { HasTokens source.now tokens.now.rest.now }
    ensures { Parses source.now (single AName) itself tokens.old tokens.new result }
{
    let first = tokens.expect(source, Kind::Name);
    tokens.made(source, name_at(source, first), nameless(source))
}

// names = name { "," name }
/// Names with commas between them.
pub fn names(source: &Source, tokens: &mut Tokens) -> List<Name>
    requires { HasTokens source.now tokens.now.rest.now }
    ensures { Parses source.now grammar.names itself tokens.old tokens.new result }
{
    let mut all = List::new(source.alloc);
    'more: loop {
        let next = name(source, tokens);
        tokens.push(source, &mut all, next);
        if !tokens.pass(source, Kind::Sign(sign::COMMA)) {
            return all;
        }
    }
}
