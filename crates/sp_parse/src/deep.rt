//! What is wrong where a part would lie inside 200 others.

ghost use Rattle.std.specs.Prelude.{◌≡◌, ℕ, ◌≤◌, cond};
ghost use Rattle.sp_base.specs.declared.halt.Halt.TheVariants.{Refused};
ghost use Rattle.sp_base.specs.declared.rule.Rule.TheVariants.{G1, L2};
ghost use Rattle.sp_tree.specs.SyntaxOf.{expression_of};
ghost use Rattle.sp_tree.specs.Symbols.{AnExpression};
ghost use Rattle.sp_parse.specs.Productions.{single};
ghost use Rattle.sp_parse.specs.Reads.{HasTokens, Parses};
ghost use Rattle.sp_parse.specs.ExpressionProductions as grammar;

use crate::constructors::number_expression;
use crate::operators::{begins_factor, begins_simple};
use crate::source::{Source, Tokens};
use sp_base::{Halt, Place, Refusal, Rule};
use sp_tree::{SynExpr, Token};

/// What is wrong at this token: a part begins with it and lies too deep, or no part begins with it.
pub fn why(token: Token, begins: bool) -> Halt
    ensures { result ≡ Refused (record { rule = cond begins L2 G1; at = token.at }) }
{
    let rule = if begins { Rule::L2 } else { Rule::G1 };
    Halt::Refused(Refusal { rule, at: token.at })
}

/// No expression may stand here.
pub fn deep_expression(source: &Source, tokens: &mut Tokens) -> SynExpr
    requires { HasTokens source.now tokens.now.rest.now }
    ensures { (d : ℕ) → 200 ≤ d → Parses source.now (single (AnExpression d)) expression_of tokens.old tokens.new
        result }
{
    let first = tokens.look(source);
    tokens.fail(source, why(first, begins_simple(first)));
    number_expression(first.at, 0)
}

/// No factor may stand here, behind `not`.
pub fn deep_factor(source: &Source, tokens: &mut Tokens, at: Place) -> SynExpr
    requires { HasTokens source.now tokens.now.rest.now }
    ensures { (d : ℕ) → 200 ≤ d → Parses source.now (grammar.negation d at) expression_of tokens.old tokens.new result }
{
    let first = tokens.look(source);
    tokens.fail(source, why(first, begins_factor(first)));
    number_expression(at, 0)
}
