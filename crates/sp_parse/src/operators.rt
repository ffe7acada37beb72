//! Which tokens stand between operands, and which begin a part.

ghost use Rattle.std.specs.Prelude.{◌≡◌};
ghost use Rattle.sp_tree.specs.Table.{kind_is};
ghost use Rattle.sp_parse.specs.Operators.{IsSign, IsRelation, IsAddition, IsMultiplication, BeginsFactor};
ghost use Rattle.sp_parse.specs.Operators.{BeginsSimple};
ghost use Rattle.sp_parse.specs.Operators.{BeginsSelector, BeginsForm};

use sp_tree::{BinaryOp, Kind, Token, UnaryOp, sign, word};

/// Whether a token is of this kind.
pub fn is(token: Token, kind: Kind) -> bool
    ensures { result ≡ kind_is kind token.kind }
{
    token.kind == kind
}

// sign = "+" | "-"
/// The sign before a term, if it is one.
pub fn sign_of(token: Token) -> Option<UnaryOp>
    ensures { IsSign token result }
{
    if is(token, Kind::Sign(sign::PLUS)) {
        return Some(UnaryOp::Plus);
    }
    if is(token, Kind::Sign(sign::MINUS)) {
        return Some(UnaryOp::Minus);
    }
    None
}

// relational = "=" | "<>" | "<" | "<=" | ">" | ">="
/// The relation, if the token is one.
pub fn relational(token: Token) -> Option<BinaryOp>
    ensures { IsRelation token result }
{
    if is(token, Kind::Sign(sign::EQUAL)) {
        return Some(BinaryOp::Eq);
    }
    if is(token, Kind::Sign(sign::UNEQUAL)) {
        return Some(BinaryOp::Ne);
    }
    if is(token, Kind::Sign(sign::LESS)) {
        return Some(BinaryOp::Lt);
    }
    if is(token, Kind::Sign(sign::AT_MOST)) {
        return Some(BinaryOp::Le);
    }
    if is(token, Kind::Sign(sign::GREATER)) {
        return Some(BinaryOp::Gt);
    }
    if is(token, Kind::Sign(sign::AT_LEAST)) {
        return Some(BinaryOp::Ge);
    }
    None
}

// adding = "+" | "-" | "or"
/// The operator between two terms, if the token is one.
pub fn adding(token: Token) -> Option<BinaryOp>
    ensures { IsAddition token result }
{
    if is(token, Kind::Sign(sign::PLUS)) {
        return Some(BinaryOp::Add);
    }
    if is(token, Kind::Sign(sign::MINUS)) {
        return Some(BinaryOp::Sub);
    }
    if is(token, Kind::Word(word::OR)) {
        return Some(BinaryOp::Or);
    }
    None
}

// multiplying = "*" | "div" | "mod" | "and"
/// The operator between two factors, if the token is one.
pub fn multiplying(token: Token) -> Option<BinaryOp>
    ensures { IsMultiplication token result }
{
    if is(token, Kind::Sign(sign::TIMES)) {
        return Some(BinaryOp::Mul);
    }
    if is(token, Kind::Word(word::DIV)) {
        return Some(BinaryOp::Div);
    }
    if is(token, Kind::Word(word::MOD)) {
        return Some(BinaryOp::Mod);
    }
    if is(token, Kind::Word(word::AND)) {
        return Some(BinaryOp::And);
    }
    None
}

/// Whether a factor begins with the token.
pub fn begins_factor(token: Token) -> bool
    ensures { BeginsFactor token result }
{
    is(token, Kind::Number)
        || is(token, Kind::Text)
        || is(token, Kind::Name)
        || is(token, Kind::Sign(sign::OPEN))
        || is(token, Kind::Word(word::NOT))
}

/// Whether an expression begins with the token.
pub fn begins_simple(token: Token) -> bool
    ensures { BeginsSimple token result }
{
    if is(token, Kind::Sign(sign::PLUS)) {
        return true;
    }
    if is(token, Kind::Sign(sign::MINUS)) {
        return true;
    }
    begins_factor(token)
}

/// Whether a selector begins with the token.
pub fn begins_selector(token: Token) -> bool
    ensures { BeginsSelector token result }
{
    is(token, Kind::Sign(sign::OPEN_INDEX)) || is(token, Kind::Sign(sign::DOT))
}

/// Whether a statement that is not empty begins with the token.
pub fn begins_form(token: Token) -> bool
    ensures { BeginsForm token result }
{
    is(token, Kind::Name)
        || is(token, Kind::Word(word::BEGIN))
        || is(token, Kind::Word(word::IF))
        || is(token, Kind::Word(word::WHILE))
        || is(token, Kind::Word(word::REPEAT))
        || is(token, Kind::Word(word::FOR))
        || is(token, Kind::Word(word::CASE))
        || is(token, Kind::Word(word::PARALLEL))
        || is(token, Kind::Word(word::FORALL))
        || is(token, Kind::Word(word::ASSUME))
}
