//! The walk through definitions of types: their rules, and their forms with numbers for names.

ghost use Rattle.std.specs.Prelude.{◌≡◌, ◌++◌, [], false};
ghost use Rattle.std.specs.Ordering.{nat_cmp};
ghost use Rattle.std.specs.Cmp.Lexicographic.{slice_cmp};
ghost use Rattle.std.specs.BTreeSet.{insert_key};
ghost use Rattle.sp_tree.specs.Carried.{Keeps};
ghost use Rattle.sp_tree.specs.NamedTree.{fields_named, groups_named, messages_named};
ghost use Rattle.sp_tree.specs.NamedTree.{kind_named, enumeration_constants, constants_named};
ghost use Rattle.sp_scope.specs.Fields.{names_contain, names_behind, fields_held, groups_held};
ghost use Rattle.sp_scope.specs.Firsts.{messages_first, kind_first};

use crate::constants::{check_bound, name_const};
use crate::declarations::{check_own_kind, kind_number};
use crate::numbers::{behind, count_of};
use crate::scopes::Scopes;
use sp_base::{List, Rule, Text};
use sp_tree::{
    FirstRefusal, Name, NamedConstant, NamedKindForm, SynGroup, SynKind, Walk, breaks_if,
    earlier_refusal,
};
use std::alloc::Global;
use std::collections::BTreeSet;

/// Puts a name among others, and says whether it was there.
fn note(alloc: Global, walk: &mut Walk, names: &mut BTreeSet<Text>, x: &Text) -> bool
    ensures found { result ≡ names_contain names.old.keys x.now }
    ensures after { Keeps walk.old walk.new walk.old.first
        (names.new.keys ≡ insert_key (slice_cmp nat_cmp) names.old.keys x.now) }
{
    let again = names.contains(x);
    let text = walk.text(alloc, x);
    if names.insert(text).is_err() {
        walk.is_lost = true;
    }
    again
}

/// The fields of one type, behind the names of others: N2.
fn check_fields(alloc: Global, walk: &mut Walk, names: &mut BTreeSet<Text>, xs: &[Name])
    ensures { Keeps walk.old walk.new (fields_held names.old.keys xs.now walk.old.first)
        (names.new.keys ≡ names_behind names.old.keys xs.now) }
{
    for x in xs {
        let again = note(alloc, walk, names, &x.text);
        walk.note(breaks_if(Rule::N2, x.at, again));
    }
}

/// The fields of a record: N1, N2, N3, N4.
fn check_groups(alloc: Global, scopes: &Scopes, walk: &mut Walk, own: &Name, gs: &[SynGroup])
    ensures { walk.new.is_lost ≡ false → (walk.old.is_lost ≡ false) ×
        (walk.new.first ≡ groups_held scopes.now own.now [] gs.now walk.old.first) }
{
    let mut names = BTreeSet::new(alloc);
    for g in gs {
        check_fields(alloc, walk, &mut names, g.names.items());
        walk.note(check_own_kind(scopes, own, &g.kind));
    }
}

/// The message types of a channel: N1, N3, N4.
fn check_messages(scopes: &Scopes, own: &Name, ts: &[Name], first: FirstRefusal) -> FirstRefusal
    ensures { result ≡ messages_first scopes.now own.now ts.now first }
{
    let mut first = first;
    for t in ts {
        first = earlier_refusal(first, check_own_kind(scopes, own, t));
    }
    first
}

/// The definition of the type `own`, without the constants of an enumeration: N1 to N4.
#[tactic(auto, using(crate::proofs::NameOrders::groups_are))]
pub fn check_kind_form(alloc: Global, scopes: &Scopes, walk: &mut Walk, own: &Name, k: &SynKind)
    ensures { walk.new.is_lost ≡ false → (walk.old.is_lost ≡ false) ×
        (walk.new.first ≡ kind_first scopes.now own.now k.now walk.old.first) }
{
    match k {
        SynKind::Alias(t) => walk.note(check_own_kind(scopes, own, t)),
        SynKind::Enumeration(_) => {}
        SynKind::Array(a, b, t) => {
            walk.first = check_bound(scopes, own, &a.value, walk.first);
            walk.first = check_bound(scopes, own, &b.value, walk.first);
            walk.note(check_own_kind(scopes, own, t));
        }
        SynKind::Record(gs) => check_groups(alloc, scopes, walk, own, gs.items()),
        SynKind::Channel(ts) => walk.first = check_messages(scopes, own, ts.items(), walk.first),
    }
}

fn push_fields(alloc: Global, walk: &mut Walk, out: &mut Vec<(Text, u32)>, xs: &[Name], kind: u32)
    ensures { Keeps walk.old walk.new walk.old.first (out.new.items ≡ out.old.items ++ fields_named kind xs.now) }
{
    for x in xs {
        let text = walk.text(alloc, &x.text);
        walk.push(out, (text, kind));
    }
}

fn name_groups(
    alloc: Global,
    scopes: &Scopes,
    walk: &mut Walk,
    gs: &[SynGroup],
) -> List<(Text, u32)>
    ensures { Keeps walk.old walk.new walk.old.first (result ≡ groups_named scopes.now gs.now) }
{
    let mut out = Vec::new(alloc);
    for g in gs {
        let kind = kind_number(scopes.find(&g.kind.text));
        push_fields(alloc, walk, &mut out, g.names.items(), kind);
    }
    List::of(out)
}

fn name_messages(alloc: Global, scopes: &Scopes, walk: &mut Walk, ts: &[Name]) -> List<u32>
    ensures { Keeps walk.old walk.new walk.old.first (result ≡ messages_named scopes.now ts.now) }
{
    let mut out = Vec::new(alloc);
    for t in ts {
        walk.push(&mut out, kind_number(scopes.find(&t.text)));
    }
    List::of(out)
}

/// The definition of a type.
pub fn name_kind(alloc: Global, scopes: &Scopes, walk: &mut Walk, k: &SynKind) -> NamedKindForm
    ensures { Keeps walk.old walk.new walk.old.first (result ≡ kind_named scopes.now k.now) }
{
    match k {
        SynKind::Alias(t) => NamedKindForm::Alias(kind_number(scopes.find(&t.text))),
        SynKind::Enumeration(xs) => { NamedKindForm::Enumeration(count_of(walk, xs.items().len())) }
        SynKind::Array(a, b, t) => {
            let a = name_const(alloc, scopes, walk, a);
            let b = name_const(alloc, scopes, walk, b);
            let kind = kind_number(scopes.find(&t.text));
            NamedKindForm::Array(a, b, kind)
        }
        SynKind::Record(gs) => {
            NamedKindForm::Fields(name_groups(alloc, scopes, walk, gs.items()))
        }
        SynKind::Channel(ts) => {
            NamedKindForm::Channel(name_messages(alloc, scopes, walk, ts.items()))
        }
    }
}

fn enumerate(alloc: Global, walk: &mut Walk, kind: u32, xs: &[Name]) -> List<NamedConstant>
    ensures { Keeps walk.old walk.new walk.old.first (result ≡ enumeration_constants kind 0 xs.now) }
{
    let mut out = Vec::new(alloc);
    let mut ordinal = 0u32;
    for _x in xs {
        walk.push(&mut out, NamedConstant::Enumerated { kind, ordinal });
        ordinal = behind(walk, ordinal, 1);
    }
    List::of(out)
}

/// The constants of an enumeration with this number.
pub fn name_enumerated(
    alloc: Global,
    walk: &mut Walk,
    kind: u32,
    k: &SynKind,
) -> List<NamedConstant>
    ensures { Keeps walk.old walk.new walk.old.first (result ≡ constants_named kind k.now) }
{
    match k {
        SynKind::Enumeration(xs) => enumerate(alloc, walk, kind, xs.items()),
        _ => List::new(alloc),
    }
}
