//! Formals that stand for many: what fits one fits them all.

ghost use Rattle.std.specs.Prelude.{◌≡◌, ◌+◌, ◌<◌, ◌≤◌, List, IfOk, MatchOption, Some, length, slice_get, true};
ghost use Rattle.sp_code.specs.declared.code.Formal.{Formal};
ghost use Rattle.sp_verify_shapes.specs.Asks.{AreAsked, AreAsks, Covers, CoversAll, IsAsk, IsCovered, IsCovering};

use crate::have;
use sp_base::{List, Memory};
use sp_code::{Formal, Layout};
use std::alloc::Global;

/// Of the formals before some place, those from the place `to` on: what fits `all` fits each of them. Without `all`
/// nothing is known of them.
#[derive(Clone, Copy)]
pub struct Ask {
    pub to: usize,
    pub all: Option<Formal>,
}

/// Whether what fits the one formal fits the other one.
pub(crate) fn covers(one: Formal, other: Formal) -> bool
    ensures { result ≡ true → Covers one other }
{
    match one {
        Formal::Value(n) => match other {
            Formal::Value(m) => n == m,
            Formal::Reference(_) => false,
        },
        Formal::Reference(n) => match other {
            Formal::Value(_) => false,
            Formal::Reference(m) => m <= n,
        },
    }
}

// Of two formals the one that covers the other one.
fn greater(one: Option<Formal>, other: Option<Formal>) -> Option<Formal>
    ensures { (f : Formal) → result ≡ Some f → IsCovered f one × IsCovered f other }
{
    match one {
        None => None,
        Some(f) => match other {
            None => None,
            Some(g) => {
                if covers(f, g) {
                    Some(f)
                } else if covers(g, f) {
                    Some(g)
                } else {
                    None
                }
            }
        },
    }
}

/// Of two formals the one that the other one covers.
pub(crate) fn lesser(one: Option<Formal>, other: Option<Formal>) -> Option<Formal>
    ensures { (f : Formal) → result ≡ Some f → IsCovering f one × IsCovering f other }
{
    match one {
        None => None,
        Some(f) => match other {
            None => None,
            Some(g) => {
                if covers(f, g) {
                    Some(g)
                } else if covers(g, f) {
                    Some(f)
                } else {
                    None
                }
            }
        },
    }
}

// What is kept of the formals before a place.
fn ask_at(asks: &List<Ask>, k: usize) -> Ask
    ensures { (fs : List Formal) → AreAsks fs asks.now → IsAsk fs k result }
{
    if k == 0 {
        return Ask { to: k, all: None };
    }
    match asks.get(k - 1) {
        None => Ask { to: k, all: None },
        Some(ask) => *ask,
    }
}

// The same with one more formal: as many as the next two parts together, where these are equally long.
fn ask_over(asks: &List<Ask>, k: usize, formal: Formal) -> Ask
    ensures { (fs : List Formal) → AreAsks fs asks.now → slice_get fs k ≡ Some formal → IsAsk fs (k + 1) result }
{
    let near = ask_at(asks, k);
    let next = ask_at(asks, near.to);
    if near.to < k && k - near.to == near.to.saturating_sub(next.to) {
        let both = greater(Some(formal), near.all);
        Ask {
            to: next.to,
            all: greater(both, next.all),
        }
    } else {
        Ask {
            to: k,
            all: Some(formal),
        }
    }
}

// What is kept of the formals before each place.
fn asks_of(alloc: Global, formals: &[Formal]) -> Result<List<Ask>, Memory>
    ensures { IfOk result (λ asks. AreAsks formals.now asks) }
{
    let mut asks = List::new(alloc);
    for k in 0..formals.len() {
        let ask = ask_over(&asks, k, formals[k]);
        have!(asks.push(ask));
    }
    Ok(asks)
}

/// What is kept of the formals of each layout. The only other answer is want of memory.
pub(crate) fn asked_of(alloc: Global, layouts: &[Layout]) -> Result<List<List<Ask>>, Memory>
    ensures { IfOk result (λ asked. AreAsked layouts.now asked) }
{
    let mut asked = List::new(alloc);
    for l in layouts {
        let asks = have!(asks_of(alloc, l.formals.items()));
        have!(asked.push(asks));
    }
    Ok(asked)
}

// The place down to which a formal covers those before k, none before `from`; nothing where it does not cover them.
fn covered_to(
    formals: &[Formal],
    asks: &List<Ask>,
    most: Formal,
    from: usize,
    k: usize,
) -> Option<usize>
    requires asks { AreAsks formals.now asks.now }
    requires some { 0 < k }
    requires within { k ≤ length formals.now }
    ensures { MatchOption result (Unit {0}) (λ to. (to < k) × CoversAll most formals.now to k) }
{
    let ask = ask_at(asks, k);
    if from <= ask.to && ask.to < k {
        match ask.all {
            None => None,
            Some(all) => {
                if covers(most, all) {
                    Some(ask.to)
                } else {
                    None
                }
            }
        }
    } else if covers(most, formals[k - 1]) {
        Some(k - 1)
    } else {
        None
    }
}

/// Whether a formal covers all formals from one place up to another.
pub(crate) fn covers_all(
    formals: &[Formal],
    asks: &List<Ask>,
    most: Formal,
    from: usize,
    to: usize,
) -> bool
    requires asks { AreAsks formals.now asks.now }
    requires within { to ≤ length formals.now }
    ensures { result ≡ true → CoversAll most formals.now from to }
{
    let mut k = to;
    'formals: while from < k {
        match covered_to(formals, asks, most, from, k) {
            None => return false,
            Some(next) => k = next,
        }
    }
    true
}
