//! The parser as one call: the tree of a text's tokens, or the first rule of the grammar that they break.

ghost use Rattle.std.specs.Prelude.{◌≡◌, ◌≤◌, length};
ghost use Rattle.sp_tree.specs.Places.{place_at};
ghost use Rattle.sp_tree.specs.Scans.{IsTokens};
ghost use Rattle.sp_parse.specs.Parses.{Parsed};
ghost use Rattle.sp_parse.specs.Reads.{HasTokens, Finishes};

use crate::blocks::program;
use crate::source::{Source, Tokens, misplaced};
use sp_base::{Halt, Place};
use sp_tree::{Syntax, Token};
use std::alloc::Global;

/// The place behind the last byte of a text.
fn end_of(text: &[u8]) -> Place
    requires { length text.now ≤ 1048576 }
    ensures { result ≡ place_at text.now (length text.now) }
{
    let mut line = 1u32;
    let mut column = 1u32;
    let mut rest = text;
    'more: while let [byte, after @ ..] = rest {
        if *byte == b'\n' {
            line += 1;
            column = 1;
        } else {
            column += 1;
        }
        rest = after;
    }
    Place { line, column }
}

/// The reading fails if a token is left.
fn finish(source: &Source, tokens: &mut Tokens)
    requires { HasTokens source.now tokens.now.rest.now }
    ensures { Finishes source.now tokens.old tokens.new }
{
    match tokens.rest {
        [next, ..] => tokens.fail(source, misplaced(*next)),
        [] => {}
    }
}

// text = program
/// The tree that the tokens of a text spell. Where they spell none, or a part lies inside 200 others, the answer is
/// the first rule that they break: G1 at the first token with which no program begins, L2 at the first token of the
/// first part that lies too deep, or G2 at the end of the text.
pub fn parse(alloc: Global, text: &[u8], tokens: &[Token]) -> Result<Syntax, Halt>
    requires { IsTokens text.now tokens.now }
    ensures { Parsed text.now tokens.now result }
{
    let end = end_of(text);
    let source = Source { alloc, text, end };
    let mut tokens = Tokens {
        rest: tokens,
        failed: None,
    };
    let tree = program(&source, &mut tokens);
    finish(&source, &mut tokens);
    match tokens.failed {
        None => Ok(tree),
        Some(why) => {
            drop(tree);
            Err(why)
        }
    }
}
