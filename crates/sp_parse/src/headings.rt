//! How formal parameters, and the names in a program's heading, are read.

ghost use Rattle.sp_tree.specs.Symbols.{AFormal, Formals, AHeading};
ghost use Rattle.sp_parse.specs.Productions.{itself, single};
ghost use Rattle.sp_parse.specs.Reads.{HasTokens, Parses};
ghost use Rattle.sp_parse.specs.BlockProductions as grammar;

use crate::source::{Source, Tokens};
use crate::types::{group, listed};
use sp_base::List;
use sp_tree::{Kind, Name, SynFormal, sign, word};

// formal = [ "var" ] names ":" name
/// Formal parameters of one type.
fn formal(source: &Source, tokens: &mut Tokens) -> SynFormal
    requires { HasTokens source.now tokens.now.rest.now }
    ensures { Parses source.now (single AFormal) itself tokens.old tokens.new result }
{
    let by_reference = tokens.pass(source, Kind::Word(word::VAR));
    let of = group(source, tokens);
    SynFormal {
        by_reference,
        names: of.names,
        kind: of.kind,
    }
}

// formals = "(" formal { ";" formal } ")"
/// Formal parameters up to the closing parenthesis, behind the opening one.
fn some_formals(source: &Source, tokens: &mut Tokens) -> List<SynFormal>
    requires { HasTokens source.now tokens.now.rest.now }
    ensures { Parses source.now grammar.formals itself tokens.old tokens.new result }
{
    let mut all = List::new(source.alloc);
    'more: loop {
        let next = formal(source, tokens);
        tokens.push(source, &mut all, next);
        if !tokens.goes_on(source, Kind::Sign(sign::SEMICOLON), Kind::Sign(sign::CLOSE)) {
            return all;
        }
    }
}

// optional_formals = [ formals ]
/// The formal parameters of a procedure, if it has some.
pub fn formals(source: &Source, tokens: &mut Tokens) -> List<SynFormal>
    requires { HasTokens source.now tokens.now.rest.now }
    ensures { Parses source.now (single Formals) itself tokens.old tokens.new result }
{
    if tokens.pass(source, Kind::Sign(sign::OPEN)) {
        return some_formals(source, tokens);
    }
    List::new(source.alloc)
}

// heading = [ "(" names ")" ]
/// The names in the heading of a program, if it has some.
pub fn heading(source: &Source, tokens: &mut Tokens) -> List<Name>
    requires { HasTokens source.now tokens.now.rest.now }
    ensures { Parses source.now (single AHeading) itself tokens.old tokens.new result }
{
    if tokens.pass(source, Kind::Sign(sign::OPEN)) {
        return listed(source, tokens);
    }
    List::new(source.alloc)
}
