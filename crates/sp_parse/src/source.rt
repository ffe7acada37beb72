//! The text whose tokens are read, and the tokens that are left of it.

ghost use Rattle.std.specs.Prelude.{◌≡◌, ◌++◌, ◌∷◌, [], Ok};
ghost use Rattle.sp_base.specs.declared.halt.Halt.TheVariants.{Refused};
ghost use Rattle.sp_base.specs.declared.rule.Rule.TheVariants.{G1};
ghost use Rattle.sp_parse.specs.Reads.{HasTokens, Looks, Skips, Fails, Passes, GoesOn, Expects, Keeps};

use sp_base::{Halt, List, Place, Refusal, Rule};
use sp_tree::{Kind, Token};
use std::alloc::{AllocError, Global};

/// A text, the place of its end, and where memory comes from.
#[derive(Clone, Copy)]
pub struct Source<'a> {
    pub alloc: Global,
    pub text: &'a [u8],
    pub end: Place,
}

/// The tokens that are left, and why the reading failed, if it did. After a failure no token is left: so every loop
/// ends, and no function has to end at once and let go what it holds. What is read after it is no answer.
#[derive(Clone, Copy)]
pub struct Tokens<'t> {
    pub rest: &'t [Token],
    pub failed: Option<Halt>,
}

impl<'t> Tokens<'t> {
    /// The first token. If none is left, the text ends too early, and the token is one that fits nothing.
    pub fn look(&mut self, source: &Source) -> Token
        requires { HasTokens source.now self.now.rest.now }
        ensures { Looks source.now self.old self.new result }
    {
        match self.rest {
            [first, ..] => *first,
            [] => {
                self.fail(
                    source,
                    Halt::Refused(Refusal {
                        rule: Rule::G2,
                        at: source.end,
                    }),
                );
                Token {
                    kind: Kind::Sign(255),
                    from: 0,
                    to: 0,
                    at: source.end,
                }
            }
        }
    }

    /// Passes the first token.
    pub fn skip(&mut self, source: &Source)
        requires { HasTokens source.now self.now.rest.now }
        ensures { Skips source.now self.old self.new }
    {
        if let [_, rest @ ..] = self.rest {
            self.rest = rest;
        }
    }

    /// The reading fails for this reason, unless it has failed before.
    pub fn fail(&mut self, source: &Source, why: Halt)
        requires { HasTokens source.now self.now.rest.now }
        ensures { Fails source.now why self.old self.new }
    {
        if self.failed.is_none() {
            self.failed = Some(why);
        }
        self.rest = &[];
    }

    /// Whether the first token is of this kind, which is passed then. If none is left, the text ends too early.
    pub fn pass(&mut self, source: &Source, kind: Kind) -> bool
        requires { HasTokens source.now self.now.rest.now }
        ensures { Passes source.now kind self.old self.new result }
    {
        let first = self.look(source);
        if first.kind == kind {
            if !self.rest.is_empty() {
                self.skip(source);
                return true;
            }
        }
        false
    }

    /// Passes a token of this kind, which has to come first, and gives it.
    pub fn expect(&mut self, source: &Source, kind: Kind) -> Token
        requires { HasTokens source.now self.now.rest.now }
        ensures { Expects source.now kind self.old self.new result }
    {
        let first = self.look(source);
        if first.kind == kind {
            self.skip(source);
        } else {
            self.fail(source, misplaced(first));
        }
        first
    }

    /// Whether a list goes on, by the token that stands between its items or the one that ends it. One of them has to
    /// come first, and is passed.
    pub fn goes_on(&mut self, source: &Source, separator: Kind, end: Kind) -> bool
        requires { HasTokens source.now self.now.rest.now }
        ensures { GoesOn source.now separator end self.old self.new result }
    {
        if self.pass(source, separator) {
            return true;
        }
        self.expect(source, end);
        false
    }

    /// Puts an item last.
    pub fn push<T: Drop>(&mut self, source: &Source, all: &mut List<T>, item: T)
        requires { HasTokens source.now self.now.rest.now }
        ensures { Keeps source.now (all.new ≡ all.old ++ item ∷ []) self.old self.new }
    {
        if all.push(item).is_err() {
            self.fail(source, Halt::Memory);
        }
    }

    /// What was made. If memory was refused for it, the reading fails, and the other one stands in its place.
    pub fn made<T: Drop>(&mut self, source: &Source, found: Result<T, AllocError>, other: T) -> T
        requires { HasTokens source.now self.now.rest.now }
        ensures { Keeps source.now (found ≡ Ok result) self.old self.new }
    {
        match found {
            Ok(value) => value,
            Err(_) => {
                self.fail(source, Halt::Memory);
                other
            }
        }
    }
}

/// No program goes on with this token.
pub fn misplaced(token: Token) -> Halt
    ensures { result ≡ Refused (record { rule = G1; at = token.at }) }
{
    Halt::Refused(Refusal {
        rule: Rule::G1,
        at: token.at,
    })
}
