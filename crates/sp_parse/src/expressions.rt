//! How expressions are read. `depth` says inside how many parts one lies.

ghost use Rattle.std.specs.Prelude.{◌≡◌, Ok};
ghost use Rattle.sp_tree.specs.SyntaxOf.{expression_of, arguments_of};
ghost use Rattle.sp_tree.specs.Symbols.{AnExpression, ASimple, MoreTerms, AFactor, Selectors, AWidth};
ghost use Rattle.sp_parse.specs.Productions.{single};
ghost use Rattle.sp_parse.specs.Reads.{HasTokens, Keeps, Parses, ParsesSoFar};
ghost use Rattle.sp_parse.specs.ExpressionProductions as grammar;
ghost use Rattle.sp_parse.specs.Trees.{selectors_of, and_selectors, width_of};

use crate::constructors::{
    argument, binary, call_expression, field, index, moved, number_expression, quoted_expression,
    read_expression, unary, variable,
};
use crate::deep::{deep_expression, deep_factor};
use crate::names::name;
use crate::operators::{adding, is, multiplying, relational, sign_of};
use crate::source::{Source, Tokens, misplaced};
use crate::spelling::{name_at, nameless, number_at, quoted_at, wordless};
use sp_base::{List, Place};
use sp_tree::{Kind, MAX_NESTING, Name, SynArg, SynExpr, SynSelector, UnaryOp, sign, word};
use std::alloc::AllocError;

/// The expression that was made, if there was memory for it.
fn made(source: &Source, tokens: &mut Tokens, found: Result<SynExpr, AllocError>) -> SynExpr
    requires { HasTokens source.now tokens.now.rest.now }
    ensures { Keeps source.now (found ≡ Ok result) tokens.old tokens.new }
{
    tokens.made(source, found, number_expression(source.end, 0))
}

// expression = simple [ ( "=" | "<>" | "<" | "<=" | ">" | ">=" ) simple ]
/// An expression: two simple ones with a relation between them, or one.
#[cycle(expression)]
pub fn expression(source: &Source, tokens: &mut Tokens, depth: u32) -> SynExpr
    requires { HasTokens source.now tokens.now.rest.now }
    ensures { Parses source.now (single (AnExpression depth)) expression_of tokens.old tokens.new result }
{
    if depth >= MAX_NESTING {
        return deep_expression(source, tokens);
    }
    let left = simple(source, tokens, depth + 1);
    let Some(op) = relational(tokens.look(source)) else {
        return left;
    };
    tokens.skip(source);
    let right = simple(source, tokens, depth + 1);
    made(source, tokens, binary(source.alloc, op, left, right))
}

// simple = [ "+" | "-" ] term { ( "+" | "-" | "or" ) term }
/// A simple expression: terms with operators between them.
#[cycle(expression)]
fn simple(source: &Source, tokens: &mut Tokens, depth: u32) -> SynExpr
    requires { HasTokens source.now tokens.now.rest.now }
    ensures { Parses source.now (single (ASimple depth)) expression_of tokens.old tokens.new result }
{
    let mut sum = first_term(source, tokens, depth);
    'more: loop {
        let Some(op) = adding(tokens.look(source)) else {
            return sum;
        };
        tokens.skip(source);
        let next = term(source, tokens, depth);
        sum = made(source, tokens, binary(source.alloc, op, sum, next));
    }
}

// first_term = [ "+" | "-" ] term
/// The first term of a simple expression, with its sign.
#[cycle(expression)]
fn first_term(source: &Source, tokens: &mut Tokens, depth: u32) -> SynExpr
    requires { HasTokens source.now tokens.now.rest.now }
    ensures { ParsesSoFar source.now (single (ASimple depth)) (MoreTerms depth) grammar.continued_expression
        tokens.old tokens.new result }
{
    let first = tokens.look(source);
    let Some(op) = sign_of(first) else {
        return term(source, tokens, depth);
    };
    tokens.skip(source);
    let of = term(source, tokens, depth);
    made(source, tokens, unary(source.alloc, first.at, op, of))
}

// term = factor { ( "*" | "div" | "mod" | "and" ) factor }
/// A term: factors with operators between them.
#[cycle(expression)]
fn term(source: &Source, tokens: &mut Tokens, depth: u32) -> SynExpr
    requires { HasTokens source.now tokens.now.rest.now }
    ensures { Parses source.now (grammar.term depth) expression_of tokens.old tokens.new result }
{
    let mut product = factor(source, tokens, depth);
    'more: loop {
        let Some(op) = multiplying(tokens.look(source)) else {
            return product;
        };
        tokens.skip(source);
        let next = factor(source, tokens, depth);
        product = made(source, tokens, binary(source.alloc, op, product, next));
    }
}

// factor = number | text | variable | call | "(" expression ")" | "not" factor
/// A factor: a number, a text, a variable, a call, an expression in parentheses, or a factor after `not`.
#[cycle(expression)]
fn factor(source: &Source, tokens: &mut Tokens, depth: u32) -> SynExpr
    requires { HasTokens source.now tokens.now.rest.now }
    ensures { Parses source.now (single (AFactor depth)) expression_of tokens.old tokens.new result }
{
    let first = tokens.look(source);
    let at = first.at;
    tokens.skip(source);
    if is(first, Kind::Number) {
        return number_expression(at, number_at(source, first));
    }
    if is(first, Kind::Text) {
        let text = tokens.made(source, quoted_at(source, first), wordless(source));
        return quoted_expression(at, text);
    }
    if is(first, Kind::Name) {
        let name = tokens.made(source, name_at(source, first), nameless(source));
        return reference(source, tokens, depth, at, name);
    }
    if is(first, Kind::Sign(sign::OPEN)) {
        let inner = expression(source, tokens, depth);
        tokens.expect(source, Kind::Sign(sign::CLOSE));
        return moved(at, inner);
    }
    if is(first, Kind::Word(word::NOT)) {
        return negation(source, tokens, depth, at);
    }
    tokens.fail(source, misplaced(first));
    number_expression(at, 0)
}

// negation = "not" factor
/// What stands behind `not`.
#[cycle(expression)]
fn negation(source: &Source, tokens: &mut Tokens, depth: u32, at: Place) -> SynExpr
    requires { HasTokens source.now tokens.now.rest.now }
    ensures { Parses source.now (grammar.negation depth at) expression_of tokens.old tokens.new result }
{
    if depth >= MAX_NESTING {
        return deep_factor(source, tokens, at);
    }
    let of = factor(source, tokens, depth + 1);
    made(source, tokens, unary(source.alloc, at, UnaryOp::Not, of))
}

// reference = variable | call
/// A variable or a call, after its name.
#[cycle(expression)]
fn reference(source: &Source, tokens: &mut Tokens, depth: u32, at: Place, name: Name) -> SynExpr
    requires { HasTokens source.now tokens.now.rest.now }
    ensures { Parses source.now (grammar.reference depth at name) expression_of tokens.old tokens.new result }
{
    if tokens.pass(source, Kind::Sign(sign::OPEN)) {
        return call_expression(at, name, arguments(source, tokens, depth));
    }
    read_expression(at, variable(name, selectors(source, tokens, depth)))
}

// selectors = { "[" expression { "," expression } "]" | "." name }
/// The selectors of a variable.
#[cycle(expression)]
pub fn selectors(source: &Source, tokens: &mut Tokens, depth: u32) -> List<SynSelector>
    requires { HasTokens source.now tokens.now.rest.now }
    ensures { Parses source.now (single (Selectors depth)) selectors_of tokens.old tokens.new result }
{
    let mut all = List::new(source.alloc);
    'more: loop {
        if tokens.pass(source, Kind::Sign(sign::OPEN_INDEX)) {
            indices(source, tokens, depth, &mut all);
        } else if tokens.pass(source, Kind::Sign(sign::DOT)) {
            let name = name(source, tokens);
            tokens.push(source, &mut all, field(name));
        } else {
            return all;
        }
    }
}

// indices = "[" expression { "," expression } "]"
/// Indices behind `[`, up to the `]`, added to the selectors so far.
#[cycle(expression)]
fn indices(source: &Source, tokens: &mut Tokens, depth: u32, all: &mut List<SynSelector>)
    requires { HasTokens source.now tokens.now.rest.now }
    ensures { ParsesSoFar source.now (grammar.indices depth all.old) (Selectors depth) and_selectors
        tokens.old tokens.new all.new }
{
    'more: loop {
        let next = expression(source, tokens, depth);
        tokens.push(source, all, index(next));
        if !tokens.goes_on(
            source,
            Kind::Sign(sign::COMMA),
            Kind::Sign(sign::CLOSE_INDEX),
        ) {
            return;
        }
    }
}

// arguments = "(" argument { "," argument } ")"
/// Arguments behind `(`, up to the `)`.
#[cycle(expression)]
pub fn arguments(source: &Source, tokens: &mut Tokens, depth: u32) -> List<SynArg>
    requires { HasTokens source.now tokens.now.rest.now }
    ensures { Parses source.now (grammar.arguments depth) arguments_of tokens.old tokens.new result }
{
    let mut all = List::new(source.alloc);
    'more: loop {
        let value = expression(source, tokens, depth);
        let width = width(source, tokens, depth);
        tokens.push(source, &mut all, argument(value, width));
        if !tokens.goes_on(source, Kind::Sign(sign::COMMA), Kind::Sign(sign::CLOSE)) {
            return all;
        }
    }
}

// width = [ ":" expression ]
/// The width of an argument, if it has one.
#[cycle(expression)]
fn width(source: &Source, tokens: &mut Tokens, depth: u32) -> Option<SynExpr>
    requires { HasTokens source.now tokens.now.rest.now }
    ensures { Parses source.now (single (AWidth depth)) width_of tokens.old tokens.new result }
{
    if tokens.pass(source, Kind::Sign(sign::COLON)) {
        return Some(expression(source, tokens, depth));
    }
    None
}
