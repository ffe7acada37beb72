//! How types, and names of one type, are read.

ghost use Rattle.sp_tree.specs.Symbols.{AType};
ghost use Rattle.sp_parse.specs.Productions.{itself, single};
ghost use Rattle.sp_parse.specs.Reads.{HasTokens, Parses};
ghost use Rattle.sp_parse.specs.BlockProductions as grammar;

use crate::constants::constant;
use crate::names::{name, names};
use crate::operators::is;
use crate::source::{Source, Tokens, misplaced};
use crate::spelling::{name_at, nameless};
use sp_base::List;
use sp_tree::{Kind, Name, SynGroup, SynKind, sign, word};

// group = names ":" name
/// Names and their type.
pub fn group(source: &Source, tokens: &mut Tokens) -> SynGroup
    requires { HasTokens source.now tokens.now.rest.now }
    ensures { Parses source.now grammar.group itself tokens.old tokens.new result }
{
    let names = names(source, tokens);
    tokens.expect(source, Kind::Sign(sign::COLON));
    let kind = name(source, tokens);
    SynGroup { names, kind }
}

// fields = names ":" name { ";" names ":" name } [ ";" ]
/// The fields of a record, behind `record` and up to the `end`.
fn fields(source: &Source, tokens: &mut Tokens) -> List<SynGroup>
    requires { HasTokens source.now tokens.now.rest.now }
    ensures { Parses source.now grammar.fields itself tokens.old tokens.new result }
{
    let mut all = List::new(source.alloc);
    'more: loop {
        let next = group(source, tokens);
        tokens.push(source, &mut all, next);
        if !tokens.goes_on(source, Kind::Sign(sign::SEMICOLON), Kind::Word(word::END)) {
            return all;
        }
        if tokens.pass(source, Kind::Word(word::END)) {
            return all;
        }
    }
}

// listed = names ")"
/// Names up to the closing parenthesis, behind the opening one.
pub fn listed(source: &Source, tokens: &mut Tokens) -> List<Name>
    requires { HasTokens source.now tokens.now.rest.now }
    ensures { Parses source.now grammar.listed_names itself tokens.old tokens.new result }
{
    let all = names(source, tokens);
    tokens.expect(source, Kind::Sign(sign::CLOSE));
    all
}

// array = "array" "[" constant ".." constant "]" "of" name
/// The index and the elements of an array, behind `array`.
fn array(source: &Source, tokens: &mut Tokens) -> SynKind
    requires { HasTokens source.now tokens.now.rest.now }
    ensures { Parses source.now grammar.array_type itself tokens.old tokens.new result }
{
    tokens.expect(source, Kind::Sign(sign::OPEN_INDEX));
    let low = constant(source, tokens);
    tokens.expect(source, Kind::Sign(sign::RANGE));
    let high = constant(source, tokens);
    tokens.expect(source, Kind::Sign(sign::CLOSE_INDEX));
    tokens.expect(source, Kind::Word(word::OF));
    let of = name(source, tokens);
    SynKind::Array(low, high, of)
}

// channel = "*" "(" names ")"
/// The message types of a channel, behind the `*`.
fn channel(source: &Source, tokens: &mut Tokens) -> SynKind
    requires { HasTokens source.now tokens.now.rest.now }
    ensures { Parses source.now grammar.channel_type itself tokens.old tokens.new result }
{
    tokens.expect(source, Kind::Sign(sign::OPEN));
    SynKind::Channel(listed(source, tokens))
}

// type = name | "(" names ")" | "array" "[" constant ".." constant "]" "of" name
//      | "record" fields "end" | "*" "(" names ")"
/// The definition of a type.
pub fn type_of(source: &Source, tokens: &mut Tokens) -> SynKind
    requires { HasTokens source.now tokens.now.rest.now }
    ensures { Parses source.now (single AType) itself tokens.old tokens.new result }
{
    let first = tokens.look(source);
    tokens.skip(source);
    if is(first, Kind::Name) {
        return SynKind::Alias(tokens.made(source, name_at(source, first), nameless(source)));
    }
    if is(first, Kind::Sign(sign::OPEN)) {
        return SynKind::Enumeration(listed(source, tokens));
    }
    if is(first, Kind::Word(word::ARRAY)) {
        return array(source, tokens);
    }
    if is(first, Kind::Word(word::RECORD)) {
        return SynKind::Record(fields(source, tokens));
    }
    if is(first, Kind::Sign(sign::TIMES)) {
        return channel(source, tokens);
    }
    tokens.fail(source, misplaced(first));
    SynKind::Alias(nameless(source))
}
