//! How blocks and programs are read. `depth` says inside how many parts a block lies.

ghost use Rattle.std.specs.Prelude.{ℕ, ◌≤◌};
ghost use Rattle.sp_tree.specs.SyntaxOf.{block_of, part_of, program_of};
ghost use Rattle.sp_tree.specs.Symbols.{AProgram, ABlock, Parts};
ghost use Rattle.sp_parse.specs.Productions.{single};
ghost use Rattle.sp_parse.specs.Reads.{HasTokens, Parses};
ghost use Rattle.sp_parse.specs.Operators.{BeginsBlock};
ghost use Rattle.sp_parse.specs.BlockProductions as grammar;

use crate::declarations::{constants, types, variables};
use crate::deep::why;
use crate::headings::{formals, heading};
use crate::made_blocks::{no_block, no_part, procedure_declaration, whole_block};
use crate::names::name;
use crate::operators::is;
use crate::source::{Source, Tokens};
use crate::statements::compound;
use sp_base::List;
use sp_tree::{Kind, MAX_NESTING, SynBlock, SynPart, Syntax, Token, sign, word};

/// Whether a block begins with the token.
fn begins_block(token: Token) -> bool
    ensures { BeginsBlock token result }
{
    is(token, Kind::Word(word::BEGIN))
        || is(token, Kind::Word(word::CONST))
        || is(token, Kind::Word(word::TYPE))
        || is(token, Kind::Word(word::VAR))
        || is(token, Kind::Word(word::PROCEDURE))
        || is(token, Kind::Word(word::FUNCTION))
}

/// No block may stand here.
fn deep_block(source: &Source, tokens: &mut Tokens) -> SynBlock
    requires { HasTokens source.now tokens.now.rest.now }
    ensures { (d : ℕ) → 200 ≤ d → Parses source.now (single (ABlock d)) block_of tokens.old tokens.new result }
{
    let first = tokens.look(source);
    tokens.fail(source, why(first, begins_block(first)));
    no_block(source)
}

// block = { constants | types | variables | procedure | function } compound
/// A block.
#[cycle(block)]
fn block(source: &Source, tokens: &mut Tokens, depth: u32) -> SynBlock
    requires { HasTokens source.now tokens.now.rest.now }
    ensures { Parses source.now (single (ABlock depth)) block_of tokens.old tokens.new result }
{
    if depth >= MAX_NESTING {
        return deep_block(source, tokens);
    }
    parts(source, tokens, depth + 1)
}

// parts = { constants | types | variables | procedure | function } compound
/// The declarations and the statement part of a block.
#[cycle(block)]
fn parts(source: &Source, tokens: &mut Tokens, depth: u32) -> SynBlock
    requires { HasTokens source.now tokens.now.rest.now }
    ensures { Parses source.now (single (Parts depth)) block_of tokens.old tokens.new result }
{
    let mut all = List::new(source.alloc);
    'more: loop {
        let first = tokens.look(source);
        if is(first, Kind::Word(word::CONST)) {
            tokens.skip(source);
            constants(source, tokens, &mut all);
        } else if is(first, Kind::Word(word::TYPE)) {
            tokens.skip(source);
            types(source, tokens, &mut all);
        } else if is(first, Kind::Word(word::VAR)) {
            tokens.skip(source);
            variables(source, tokens, &mut all);
        } else if is(first, Kind::Word(word::PROCEDURE)) {
            tokens.skip(source);
            let next = procedure(source, tokens, depth);
            tokens.push(source, &mut all, next);
        } else if is(first, Kind::Word(word::FUNCTION)) {
            tokens.skip(source);
            let next = function(source, tokens, depth);
            tokens.push(source, &mut all, next);
        } else {
            let begin = tokens.expect(source, Kind::Word(word::BEGIN));
            let statements = compound(source, tokens, depth);
            return whole_block(all, begin.at, statements);
        }
    }
}

// procedure = "procedure" name [ formals ] ";" block ";"
/// A procedure, behind its word.
#[cycle(block)]
fn procedure(source: &Source, tokens: &mut Tokens, depth: u32) -> SynPart
    requires { HasTokens source.now tokens.now.rest.now }
    ensures { Parses source.now (grammar.procedure depth) part_of tokens.old tokens.new result }
{
    let called = name(source, tokens);
    let given = formals(source, tokens);
    tokens.expect(source, Kind::Sign(sign::SEMICOLON));
    let inner = block(source, tokens, depth);
    tokens.expect(source, Kind::Sign(sign::SEMICOLON));
    let made = procedure_declaration(source.alloc, called, given, None, inner);
    tokens.made(source, made, no_part(source))
}

// function = "function" name [ formals ] ":" name ";" block ";"
/// A function, behind its word.
#[cycle(block)]
fn function(source: &Source, tokens: &mut Tokens, depth: u32) -> SynPart
    requires { HasTokens source.now tokens.now.rest.now }
    ensures { Parses source.now (grammar.function depth) part_of tokens.old tokens.new result }
{
    let called = name(source, tokens);
    let given = formals(source, tokens);
    tokens.expect(source, Kind::Sign(sign::COLON));
    let answer = name(source, tokens);
    tokens.expect(source, Kind::Sign(sign::SEMICOLON));
    let inner = block(source, tokens, depth);
    tokens.expect(source, Kind::Sign(sign::SEMICOLON));
    let made = procedure_declaration(source.alloc, called, given, Some(answer), inner);
    tokens.made(source, made, no_part(source))
}

// program = "program" name [ "(" names ")" ] ";" block "."
/// A program.
pub fn program(source: &Source, tokens: &mut Tokens) -> Syntax
    requires { HasTokens source.now tokens.now.rest.now }
    ensures { Parses source.now (single AProgram) program_of tokens.old tokens.new result }
{
    tokens.expect(source, Kind::Word(word::PROGRAM));
    let name = name(source, tokens);
    let heading = heading(source, tokens);
    tokens.expect(source, Kind::Sign(sign::SEMICOLON));
    let block = block(source, tokens, 0);
    tokens.expect(source, Kind::Sign(sign::DOT));
    Syntax {
        name,
        heading,
        block,
    }
}
