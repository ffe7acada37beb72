//! The order of broken rules, and the first of two, which a phase carries on as it walks.

ghost use Rattle.std.specs.Prelude.{◌≡◌};
ghost use Rattle.sp_tree.specs.First.{row, refusal_before};
ghost use Rattle.sp_tree.specs.PhaseResults.{earlier_refusal, refusal_at, refusal_if};

use sp_base::{Place, Refusal, Rule};
use std::cmp::Ordering;

/// A broken rule with its place, or none.
pub type FirstRefusal = Option<Refusal>;

/// A part of a tree, and the first rule that is broken up to its end.
#[derive(Drop)]
pub struct PassResult<T> {
    pub tree: T,
    pub first: FirstRefusal,
}

/// The rule's row in the rule table, counted from 0.
pub fn row(rule: Rule) -> u32
    ensures { result ≡ row rule }
{
    match rule {
        Rule::L1 => 0,
        Rule::S1 => 1,
        Rule::S2 => 2,
        Rule::S3 => 3,
        Rule::S4 => 4,
        Rule::S5 => 5,
        Rule::U1 => 6,
        Rule::U2 => 7,
        Rule::G1 => 8,
        Rule::L2 => 9,
        Rule::G2 => 10,
        Rule::N1 => 11,
        Rule::N2 => 12,
        Rule::N3 => 13,
        Rule::N4 => 14,
        Rule::N5 => 15,
        Rule::N6 => 16,
        Rule::N7 => 17,
        Rule::N8 => 18,
        Rule::L4 => 19,
        Rule::Y1 => 20,
        Rule::Y2 => 21,
        Rule::Y3 => 22,
        Rule::Y4 => 23,
        Rule::Y5 => 24,
        Rule::Y6 => 25,
        Rule::Y7 => 26,
        Rule::Y8 => 27,
        Rule::Y9 => 28,
        Rule::Y10 => 29,
        Rule::Y11 => 30,
        Rule::Y12 => 31,
        Rule::Y13 => 32,
        Rule::Y14 => 33,
        Rule::L3 => 34,
        Rule::L6 => 35,
        Rule::I1 => 36,
        Rule::I2 => 37,
        Rule::I3 => 38,
        Rule::I4 => 39,
        Rule::I5 => 40,
        Rule::I6 => 41,
        Rule::I7 => 42,
        Rule::I8 => 43,
        Rule::I9 => 44,
        Rule::L5 => 45,
    }
}

/// Whether `a` is reported and not `b`: it stands earlier, or at the same place in an earlier row of the rule table.
pub fn before(a: Refusal, b: Refusal) -> bool
    ensures { result ≡ refusal_before a b }
{
    match a.at.line.cmp(&b.at.line) {
        Ordering::Less => true,
        Ordering::Greater => false,
        Ordering::Equal => match a.at.column.cmp(&b.at.column) {
            Ordering::Less => true,
            Ordering::Greater => false,
            Ordering::Equal => row(a.rule) < row(b.rule),
        },
    }
}

/// The first of the two, if there is one.
pub fn earlier_refusal(a: FirstRefusal, b: FirstRefusal) -> FirstRefusal
    ensures { result ≡ earlier_refusal a b }
{
    match (a, b) {
        (None, b) => b,
        (a, None) => a,
        (Some(x), Some(y)) => { if before(y, x) { Some(y) } else { Some(x) } }
    }
}

/// The rule is broken at the place.
pub fn breaks(rule: Rule, at: Place) -> FirstRefusal
    ensures { result ≡ refusal_at rule at }
{
    Some(Refusal { rule, at })
}

/// The rule is broken at the place if the test says so.
pub fn breaks_if(rule: Rule, at: Place, broken: bool) -> FirstRefusal
    ensures { result ≡ refusal_if rule at broken }
{
    if broken {
        Some(Refusal { rule, at })
    } else {
        None
    }
}
