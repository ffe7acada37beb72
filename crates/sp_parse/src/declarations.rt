//! How declarations of constants, types and variables are read, behind their word, and added to other declarations.

ghost use Rattle.std.specs.Prelude.{ℕ};
ghost use Rattle.sp_tree.specs.Symbols.{Parts};
ghost use Rattle.sp_parse.specs.Reads.{HasTokens, ParsesSoFar};
ghost use Rattle.sp_parse.specs.BlockProductions as grammar;
ghost use Rattle.sp_parse.specs.Trees.{and_parts};

use crate::constants::constant;
use crate::made_blocks::{constant_declaration, type_declaration, variable_declaration};
use crate::names::name;
use crate::operators::is;
use crate::source::{Source, Tokens};
use crate::types::{group, type_of};
use sp_base::List;
use sp_tree::{Kind, SynPart, sign};

// constants = "const" name "=" constant ";" { name "=" constant ";" }
/// The constants behind `const`.
pub fn constants(source: &Source, tokens: &mut Tokens, all: &mut List<SynPart>)
    requires { HasTokens source.now tokens.now.rest.now }
    ensures { (d : ℕ) → ParsesSoFar source.now (grammar.constants all.old d) (Parts d) and_parts tokens.old tokens.new
        all.new }
{
    'more: loop {
        let called = name(source, tokens);
        tokens.expect(source, Kind::Sign(sign::EQUAL));
        let value = constant(source, tokens);
        tokens.expect(source, Kind::Sign(sign::SEMICOLON));
        tokens.push(source, all, constant_declaration(called, value));
        let next = tokens.look(source);
        if !is(next, Kind::Name) {
            return;
        }
    }
}

// types = "type" name "=" type ";" { name "=" type ";" }
/// The types behind `type`.
pub fn types(source: &Source, tokens: &mut Tokens, all: &mut List<SynPart>)
    requires { HasTokens source.now tokens.now.rest.now }
    ensures { (d : ℕ) → ParsesSoFar source.now (grammar.types all.old d) (Parts d) and_parts tokens.old tokens.new
        all.new }
{
    'more: loop {
        let called = name(source, tokens);
        tokens.expect(source, Kind::Sign(sign::EQUAL));
        let kind = type_of(source, tokens);
        tokens.expect(source, Kind::Sign(sign::SEMICOLON));
        tokens.push(source, all, type_declaration(called, kind));
        let next = tokens.look(source);
        if !is(next, Kind::Name) {
            return;
        }
    }
}

// variables = "var" names ":" name ";" { names ":" name ";" }
/// The variables behind `var`.
pub fn variables(source: &Source, tokens: &mut Tokens, all: &mut List<SynPart>)
    requires { HasTokens source.now tokens.now.rest.now }
    ensures { (d : ℕ) → ParsesSoFar source.now (grammar.variables all.old d) (Parts d) and_parts tokens.old tokens.new
        all.new }
{
    'more: loop {
        let of = group(source, tokens);
        tokens.expect(source, Kind::Sign(sign::SEMICOLON));
        tokens.push(source, all, variable_declaration(of));
        let next = tokens.look(source);
        if !is(next, Kind::Name) {
            return;
        }
    }
}
