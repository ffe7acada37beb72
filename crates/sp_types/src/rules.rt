//! The rules of types in code, each at one node, by the types of its parts.

ghost use Rattle.std.specs.Prelude.{◌≡◌};
ghost use Rattle.sp_types.specs.TypeRules.{ordinal, channel, differ, unary_takes, binary_takes};
ghost use Rattle.sp_types.specs.TypeRules.{binary_gives, standard_takes};
ghost use Rattle.sp_types.specs.TypeRules.{index_rule, actual_rule, width_rule, answer_rule};
ghost use Rattle.sp_types.specs.Expectations.{wanted_row, misfits, wanted_rule};
ghost use Rattle.sp_types.specs.Kinds.{element, standard_gives};

use crate::tables::Tables;
use sp_base::{Place, Rule};
use sp_tree::{BinaryOp, FirstRefusal, KindOf, Role, StandardFn, UnaryOp, breaks, breaks_if};

const INTEGER: u32 = 0;

const BOOLEAN: u32 = 1;

const CHAR: u32 = 2;

/// Whether the type with this number is ordinal.
pub fn ordinal(t: &Tables, k: u32) -> bool
    ensures { result ≡ ordinal t.now k }
{
    match t.kind_at(k) {
        None => false,
        Some(KindOf::Integer) => true,
        Some(KindOf::Boolean) => true,
        Some(KindOf::Char) => true,
        Some(KindOf::Enumeration(_)) => true,
        Some(_) => false,
    }
}

/// Whether it is a type of channels.
fn channel(t: &Tables, k: u32) -> bool
    ensures { result ≡ channel t.now k }
{
    match t.kind_at(k) {
        None => false,
        Some(KindOf::Channel(_)) => true,
        Some(_) => false,
    }
}

/// Whether two types are known and are different.
pub fn differ(a: Option<u32>, b: Option<u32>) -> bool
    ensures { result ≡ differ a b }
{
    match a {
        None => false,
        Some(j) => match b {
            None => false,
            Some(k) => j != k,
        },
    }
}

/// The type that a sign or `not` takes, and gives.
pub fn unary_takes(op: UnaryOp) -> u32
    ensures { result ≡ unary_takes op }
{
    match op {
        UnaryOp::Plus => INTEGER,
        UnaryOp::Minus => INTEGER,
        UnaryOp::Not => BOOLEAN,
    }
}

fn binary_takes(t: &Tables, op: BinaryOp, k: u32) -> bool
    ensures { result ≡ binary_takes t.now op k }
{
    match op {
        BinaryOp::Eq | BinaryOp::Ne => ordinal(t, k) || channel(t, k),
        BinaryOp::Lt | BinaryOp::Le | BinaryOp::Gt | BinaryOp::Ge => ordinal(t, k),
        BinaryOp::Add | BinaryOp::Sub | BinaryOp::Mul | BinaryOp::Div | BinaryOp::Mod => {
            k == INTEGER
        }
        BinaryOp::Or | BinaryOp::And => k == BOOLEAN,
    }
}

/// The type that an operator gives.
pub fn binary_gives(op: BinaryOp) -> u32
    ensures { result ≡ binary_gives op }
{
    match op {
        BinaryOp::Eq | BinaryOp::Ne => BOOLEAN,
        BinaryOp::Lt | BinaryOp::Le | BinaryOp::Gt | BinaryOp::Ge => BOOLEAN,
        BinaryOp::Add | BinaryOp::Sub | BinaryOp::Mul | BinaryOp::Div | BinaryOp::Mod => INTEGER,
        BinaryOp::Or | BinaryOp::And => BOOLEAN,
    }
}

/// Y2 at an index, by the type of what it selects in.
pub fn index_rule(
    t: &Tables,
    at: Place,
    k: Option<u32>,
    index_at: Place,
    i: Option<u32>,
) -> FirstRefusal
    ensures { result ≡ index_rule t.now at k index_at i }
{
    match k {
        None => None,
        Some(k) => match t.kind_at(k) {
            None => None,
            Some(KindOf::Array { index, .. }) => match i {
                None => None,
                Some(i) => breaks_if(Rule::Y2, index_at, *index != i),
            },
            Some(_) => breaks(Rule::Y2, at),
        },
    }
}

/// The type of an array's element under an index of a type.
pub fn element(t: &Tables, k: Option<u32>, i: Option<u32>) -> Option<u32>
    ensures { result ≡ element t.now k i }
{
    match k {
        None => None,
        Some(k) => match t.kind_at(k) {
            None => None,
            Some(KindOf::Array { index, element, .. }) => {
                if differ(Some(*index), i) {
                    None
                } else {
                    Some(*element)
                }
            }
            Some(_) => None,
        },
    }
}

/// Y6 or Y7 at an actual parameter, by the role of the formal.
pub fn actual_rule(
    role: Option<Role>,
    at: Place,
    is_variable: bool,
    formal: Option<u32>,
    k: Option<u32>,
) -> FirstRefusal
    ensures { result ≡ actual_rule role at is_variable formal k }
{
    match role {
        None => None,
        Some(Role::Reference) => { breaks_if(Rule::Y7, at, !is_variable || differ(formal, k)) }
        Some(_) => breaks_if(Rule::Y6, at, differ(formal, k)),
    }
}

fn standard_takes(t: &Tables, f: StandardFn, k: u32) -> bool
    ensures { result ≡ standard_takes t.now f k }
{
    match f {
        StandardFn::Abs | StandardFn::Sqr | StandardFn::Odd | StandardFn::Chr => k == INTEGER,
        StandardFn::Ord | StandardFn::Succ | StandardFn::Pred => ordinal(t, k),
        StandardFn::Eof | StandardFn::Eoln => false,
    }
}

/// The type that a standard function gives, by that of its parameter.
pub fn standard_gives(t: &Tables, f: StandardFn, k: Option<u32>) -> Option<u32>
    ensures { result ≡ standard_gives t.now f k }
{
    match f {
        StandardFn::Abs => Some(INTEGER),
        StandardFn::Sqr => Some(INTEGER),
        StandardFn::Odd => Some(BOOLEAN),
        StandardFn::Ord => Some(INTEGER),
        StandardFn::Chr => Some(CHAR),
        StandardFn::Succ | StandardFn::Pred => match k {
            None => None,
            Some(k) => { if ordinal(t, k) { Some(k) } else { None } }
        },
        StandardFn::Eof => Some(BOOLEAN),
        StandardFn::Eoln => Some(BOOLEAN),
    }
}

/// What a place asks of an expression.
#[derive(Clone, Copy)]
pub enum Wanted {
    /// A boolean: Y4.
    Condition,
    /// The type of what it is assigned to: Y5.
    Assigned(Option<u32>),
    /// What can be read: Y8.
    Read,
    /// What can be written: Y8.
    Written,
    /// A channel: Y8.
    Channel,
    /// A message type of a channel of this type: Y9.
    Message(Option<u32>),
    /// An ordinal: Y10.
    Range,
    /// The type of the other limit or of the variable: Y10.
    Limit(Option<u32>),
    /// An ordinal: Y11.
    Selector,
    /// What a sign or `not` takes: Y1.
    Operand(UnaryOp),
    /// What an operator takes: Y1.
    Left(BinaryOp),
    /// The same, and the type of the left operand: Y1.
    Right(BinaryOp, Option<u32>),
    /// What a standard function takes: Y8.
    Parameter(StandardFn),
}

fn wanted_row(wanted: Wanted) -> Rule
    ensures { result ≡ wanted_row wanted }
{
    match wanted {
        Wanted::Condition => Rule::Y4,
        Wanted::Assigned(_) => Rule::Y5,
        Wanted::Read => Rule::Y8,
        Wanted::Written => Rule::Y8,
        Wanted::Channel => Rule::Y8,
        Wanted::Message(_) => Rule::Y9,
        Wanted::Range => Rule::Y10,
        Wanted::Limit(_) => Rule::Y10,
        Wanted::Selector => Rule::Y11,
        Wanted::Operand(_) => Rule::Y1,
        Wanted::Left(_) => Rule::Y1,
        Wanted::Right(_, _) => Rule::Y1,
        Wanted::Parameter(_) => Rule::Y8,
    }
}

/// Whether the type of an expression is none that its place asks for.
fn misfits(t: &Tables, wanted: Wanted, k: u32) -> bool
    ensures { result ≡ misfits t.now wanted k }
{
    match wanted {
        Wanted::Condition => BOOLEAN != k,
        Wanted::Assigned(v) => differ(v, Some(k)),
        Wanted::Read => !(k == INTEGER || k == CHAR),
        Wanted::Written => !(k == INTEGER || (k == CHAR || k == BOOLEAN)),
        Wanted::Channel => !channel(t, k),
        Wanted::Message(None) => false,
        Wanted::Message(Some(c)) => match t.takes(c, k) {
            None => false,
            Some(takes) => !takes,
        },
        Wanted::Range => !ordinal(t, k),
        Wanted::Limit(v) => differ(v, Some(k)),
        Wanted::Selector => !ordinal(t, k),
        Wanted::Operand(op) => unary_takes(op) != k,
        Wanted::Left(op) => !binary_takes(t, op, k),
        Wanted::Right(op, left) => !binary_takes(t, op, k) || differ(left, Some(k)),
        Wanted::Parameter(f) => !standard_takes(t, f, k),
    }
}

/// The rule at an expression, by what its place asks for.
#[tactic(auto, using(crate::proofs::ExpectedTypes::unknown, crate::proofs::ExpectedTypes::known))]
pub fn wanted_rule(t: &Tables, wanted: Wanted, at: Place, k: Option<u32>) -> FirstRefusal
    ensures { result ≡ wanted_rule t.now wanted at k }
{
    match k {
        None => None,
        Some(k) => breaks_if(wanted_row(wanted), at, misfits(t, wanted, k)),
    }
}

/// Y8 at an argument by its width.
pub fn width_rule(at: Place, k: Option<u32>) -> FirstRefusal
    ensures { result ≡ width_rule at k }
{
    match k {
        None => None,
        Some(k) => breaks_if(Rule::Y8, at, INTEGER != k),
    }
}

/// Y14 at the type of a result.
pub fn answer_rule(t: &Tables, at: Place, k: Option<u32>) -> FirstRefusal
    ensures { result ≡ answer_rule t.now at k }
{
    match k {
        None => None,
        Some(k) => breaks_if(Rule::Y14, at, !ordinal(t, k)),
    }
}
