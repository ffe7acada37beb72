//! How statements are read. `depth` says inside how many parts one lies; what stands in a statement lies inside one
//! more.

ghost use Rattle.std.specs.Prelude.{◌≡◌, Ok};
ghost use Rattle.sp_tree.specs.SyntaxOf.{statement_of, statements_of};
ghost use Rattle.sp_tree.specs.Symbols.{AStatement, AnElse};
ghost use Rattle.sp_parse.specs.Productions.{itself, single};
ghost use Rattle.sp_parse.specs.Reads.{HasTokens, Keeps, Parses};
ghost use Rattle.sp_parse.specs.StatementProductions as grammar;
ghost use Rattle.sp_parse.specs.Trees.{other_of, arms_of};

use crate::constants::constant;
use crate::constructors::variable;
use crate::deep::why;
use crate::expressions::{arguments, expression, selectors};
use crate::made_statements::{
    arm, assign_statement, assume_statement, call_statement, case_statement, empty_statement,
    for_statement, forall_statement, if_statement, parallel_statement, process, repeat_statement,
    sequence_statement, while_statement,
};
use crate::names::name;
use crate::operators::{begins_form, begins_selector, is};
use crate::source::{Source, Tokens};
use crate::spelling::{name_at, nameless};
use sp_base::{List, Place};
use sp_tree::{Kind, MAX_NESTING, Name, SynArm, SynConst, SynStmt, sign, word};
use std::alloc::AllocError;

/// The statement that was made, if there was memory for it.
fn made(source: &Source, tokens: &mut Tokens, found: Result<SynStmt, AllocError>) -> SynStmt
    requires { HasTokens source.now tokens.now.rest.now }
    ensures { Keeps source.now (found ≡ Ok result) tokens.old tokens.new }
{
    tokens.made(source, found, empty_statement(source.end))
}

// statement = [ assignment | call | compound | if | while | repeat | for | case
//           | parallel | forall | assume ]
/// A statement, which may be empty.
#[cycle(statement)]
fn statement(source: &Source, tokens: &mut Tokens, depth: u32) -> SynStmt
    requires { HasTokens source.now tokens.now.rest.now }
    ensures { Parses source.now (single (AStatement depth)) statement_of tokens.old tokens.new result }
{
    let first = tokens.look(source);
    let at = first.at;
    if !begins_form(first) {
        return empty_statement(at);
    }
    if depth >= MAX_NESTING {
        tokens.fail(source, why(first, true));
        return empty_statement(at);
    }
    tokens.skip(source);
    if is(first, Kind::Word(word::BEGIN)) {
        return sequence_statement(at, compound(source, tokens, depth + 1));
    }
    if is(first, Kind::Word(word::IF)) {
        return choice(source, tokens, depth + 1, at);
    }
    if is(first, Kind::Word(word::WHILE)) {
        return while_loop(source, tokens, depth + 1, at);
    }
    if is(first, Kind::Word(word::REPEAT)) {
        return repeat_loop(source, tokens, depth + 1, at);
    }
    if is(first, Kind::Word(word::FOR)) {
        return for_loop(source, tokens, depth + 1, at);
    }
    if is(first, Kind::Word(word::CASE)) {
        return case_choice(source, tokens, depth + 1, at);
    }
    if is(first, Kind::Word(word::PARALLEL)) {
        return parallel(source, tokens, depth + 1, at);
    }
    if is(first, Kind::Word(word::FORALL)) {
        return forall(source, tokens, depth + 1, at);
    }
    if is(first, Kind::Word(word::ASSUME)) {
        return assume_statement(at, expression(source, tokens, depth + 1));
    }
    let name = tokens.made(source, name_at(source, first), nameless(source));
    after_name(source, tokens, depth + 1, at, name)
}

// after_name = selectors ":=" expression | [ "(" argument { "," argument } ")" ]
/// An assignment or a call, behind its name.
fn after_name(source: &Source, tokens: &mut Tokens, depth: u32, at: Place, name: Name) -> SynStmt
    requires { HasTokens source.now tokens.now.rest.now }
    ensures { Parses source.now (grammar.after_name depth at name) statement_of tokens.old tokens.new result }
{
    let first = tokens.look(source);
    if is(first, Kind::Sign(sign::OPEN)) {
        tokens.skip(source);
        return call_statement(at, name, arguments(source, tokens, depth));
    }
    if is(first, Kind::Sign(sign::BECOMES)) {
        tokens.skip(source);
        let value = expression(source, tokens, depth);
        return assign_statement(at, variable(name, List::new(source.alloc)), value);
    }
    if begins_selector(first) {
        let of = selectors(source, tokens, depth);
        tokens.expect(source, Kind::Sign(sign::BECOMES));
        let value = expression(source, tokens, depth);
        return assign_statement(at, variable(name, of), value);
    }
    call_statement(at, name, List::new(source.alloc))
}

// compound = "begin" sequence "end"
/// Statements behind `begin`, up to the `end`.
#[cycle(statement)]
pub fn compound(source: &Source, tokens: &mut Tokens, depth: u32) -> List<SynStmt>
    requires { HasTokens source.now tokens.now.rest.now }
    ensures { Parses source.now (grammar.compound depth) statements_of tokens.old tokens.new result }
{
    let all = statements(source, tokens, depth);
    tokens.expect(source, Kind::Word(word::END));
    all
}

// sequence = statement { ";" statement }
/// Statements with semicolons between them.
#[cycle(statement)]
fn statements(source: &Source, tokens: &mut Tokens, depth: u32) -> List<SynStmt>
    requires { HasTokens source.now tokens.now.rest.now }
    ensures { Parses source.now (grammar.sequence depth) statements_of tokens.old tokens.new result }
{
    let mut all = List::new(source.alloc);
    'more: loop {
        let next = statement(source, tokens, depth);
        tokens.push(source, &mut all, next);
        if !tokens.pass(source, Kind::Sign(sign::SEMICOLON)) {
            return all;
        }
    }
}

// if = "if" expression "then" statement [ "else" statement ]
/// A statement with a condition, behind `if`.
#[cycle(statement)]
fn choice(source: &Source, tokens: &mut Tokens, depth: u32, at: Place) -> SynStmt
    requires { HasTokens source.now tokens.now.rest.now }
    ensures { Parses source.now (grammar.if_statement depth at) statement_of tokens.old tokens.new result }
{
    let test = expression(source, tokens, depth);
    tokens.expect(source, Kind::Word(word::THEN));
    let body = statement(source, tokens, depth);
    let other = otherwise(source, tokens, depth);
    made(
        source,
        tokens,
        if_statement(source.alloc, at, test, body, other),
    )
}

// otherwise = [ "else" statement ]
/// The statement behind `else`, if it is there.
#[cycle(statement)]
fn otherwise(source: &Source, tokens: &mut Tokens, depth: u32) -> Option<SynStmt>
    requires { HasTokens source.now tokens.now.rest.now }
    ensures { Parses source.now (single (AnElse depth)) other_of tokens.old tokens.new result }
{
    if tokens.pass(source, Kind::Word(word::ELSE)) {
        return Some(statement(source, tokens, depth));
    }
    None
}

// while = "while" expression "do" statement
/// A loop with its condition first, behind `while`.
#[cycle(statement)]
fn while_loop(source: &Source, tokens: &mut Tokens, depth: u32, at: Place) -> SynStmt
    requires { HasTokens source.now tokens.now.rest.now }
    ensures { Parses source.now (grammar.while_statement depth at) statement_of tokens.old tokens.new result }
{
    let test = expression(source, tokens, depth);
    tokens.expect(source, Kind::Word(word::DO));
    let body = statement(source, tokens, depth);
    made(
        source,
        tokens,
        while_statement(source.alloc, at, test, body),
    )
}

// repeat = "repeat" sequence "until" expression
/// A loop with its condition last, behind `repeat`.
#[cycle(statement)]
fn repeat_loop(source: &Source, tokens: &mut Tokens, depth: u32, at: Place) -> SynStmt
    requires { HasTokens source.now tokens.now.rest.now }
    ensures { Parses source.now (grammar.repeat_statement depth at) statement_of tokens.old tokens.new result }
{
    let body = statements(source, tokens, depth);
    tokens.expect(source, Kind::Word(word::UNTIL));
    let test = expression(source, tokens, depth);
    repeat_statement(at, body, test)
}

// for = "for" name ":=" expression ( "to" | "downto" ) expression "do" statement
/// A loop over a variable, behind `for`.
#[cycle(statement)]
fn for_loop(source: &Source, tokens: &mut Tokens, depth: u32, at: Place) -> SynStmt
    requires { HasTokens source.now tokens.now.rest.now }
    ensures { Parses source.now (grammar.for_statement depth at) statement_of tokens.old tokens.new result }
{
    let name = name(source, tokens);
    tokens.expect(source, Kind::Sign(sign::BECOMES));
    let from = expression(source, tokens, depth);
    let down = tokens.goes_on(source, Kind::Word(word::DOWNTO), Kind::Word(word::TO));
    let to = expression(source, tokens, depth);
    tokens.expect(source, Kind::Word(word::DO));
    let body = statement(source, tokens, depth);
    made(
        source,
        tokens,
        for_statement(source.alloc, at, name, from, down, to, body),
    )
}

// forall = "forall" name ":=" expression "to" expression "do" statement
/// Processes over the values of an index, behind `forall`.
#[cycle(statement)]
fn forall(source: &Source, tokens: &mut Tokens, depth: u32, at: Place) -> SynStmt
    requires { HasTokens source.now tokens.now.rest.now }
    ensures { Parses source.now (grammar.forall_statement depth at) statement_of tokens.old tokens.new result }
{
    let name = name(source, tokens);
    tokens.expect(source, Kind::Sign(sign::BECOMES));
    let from = expression(source, tokens, depth);
    tokens.expect(source, Kind::Word(word::TO));
    let to = expression(source, tokens, depth);
    tokens.expect(source, Kind::Word(word::DO));
    let body = statement(source, tokens, depth);
    made(
        source,
        tokens,
        forall_statement(source.alloc, at, name, from, to, body),
    )
}

// case = "case" expression "of" arm { ";" arm } [ ";" ] "end"
/// A choice among constants, behind `case`.
#[cycle(statement)]
fn case_choice(source: &Source, tokens: &mut Tokens, depth: u32, at: Place) -> SynStmt
    requires { HasTokens source.now tokens.now.rest.now }
    ensures { Parses source.now (grammar.case_statement depth at) statement_of tokens.old tokens.new result }
{
    let test = expression(source, tokens, depth);
    tokens.expect(source, Kind::Word(word::OF));
    case_statement(at, test, arms(source, tokens, depth))
}

// arms = arm { ";" arm } [ ";" ] "end"
// arm = constant { "," constant } ":" statement
/// The arms of a choice, up to the `end`.
#[cycle(statement)]
fn arms(source: &Source, tokens: &mut Tokens, depth: u32) -> List<SynArm>
    requires { HasTokens source.now tokens.now.rest.now }
    ensures { Parses source.now (grammar.arms depth) arms_of tokens.old tokens.new result }
{
    let mut all = List::new(source.alloc);
    'more: loop {
        let constants = labels(source, tokens);
        let body = statement(source, tokens, depth);
        tokens.push(source, &mut all, arm(constants, body));
        if !tokens.goes_on(source, Kind::Sign(sign::SEMICOLON), Kind::Word(word::END)) {
            return all;
        }
        if tokens.pass(source, Kind::Word(word::END)) {
            return all;
        }
    }
}

// labels = constant { "," constant } ":"
/// The constants of an arm, up to the colon.
fn labels(source: &Source, tokens: &mut Tokens) -> List<SynConst>
    requires { HasTokens source.now tokens.now.rest.now }
    ensures { Parses source.now grammar.labels itself tokens.old tokens.new result }
{
    let mut all = List::new(source.alloc);
    'more: loop {
        let next = constant(source, tokens);
        tokens.push(source, &mut all, next);
        if !tokens.goes_on(source, Kind::Sign(sign::COMMA), Kind::Sign(sign::COLON)) {
            return all;
        }
    }
}

// parallel = "parallel" sequence { "|" sequence } "end"
/// Processes, behind `parallel` and up to the `end`.
#[cycle(statement)]
fn parallel(source: &Source, tokens: &mut Tokens, depth: u32, at: Place) -> SynStmt
    requires { HasTokens source.now tokens.now.rest.now }
    ensures { Parses source.now (grammar.parallel_statement depth at) statement_of tokens.old tokens.new result }
{
    let mut all = List::new(source.alloc);
    'more: loop {
        let next = statements(source, tokens, depth);
        tokens.push(source, &mut all, process(next));
        if !tokens.goes_on(source, Kind::Sign(sign::BAR), Kind::Word(word::END)) {
            return parallel_statement(at, all);
        }
    }
}
