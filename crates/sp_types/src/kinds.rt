//! The declared types, in order of declaration, from their definitions, with the rules at their bounds.

ghost use Rattle.std.specs.Prelude.{◌≡◌, ◌++◌, ◌∷◌, [], List, map};
ghost use Rattle.sp_tree.specs.Carried.{Keeps};
ghost use Rattle.sp_tree.specs.declared.named.NamedKindForm.TheVariants as definition;
ghost use Rattle.sp_types.specs.Tables.{are_wrong, fields_by, array_of, type_number, kinds_by};
ghost use Rattle.sp_types.specs.Tables.{kinds_from};
ghost use Rattle.sp_types.specs.DeclarationFirsts.{bounds_first, kinds_first};

use crate::field_table::KindWithFields;
use crate::numbers::type_number;
use crate::signed_constants::const_value;
use crate::tables::Ordinal;
use crate::values::number_or;
use sp_base::{List, Rule, Text};
use sp_tree::{KindOf, NamedConst, NamedKind, NamedKindForm, Walk, breaks_if};
use std::alloc::Global;

/// Two bounds have different types, or the lower is above the upper.
fn are_wrong(a: Option<Ordinal>, b: Option<Ordinal>) -> bool
    ensures { result ≡ are_wrong a b }
{
    match a {
        None => false,
        Some(a) => match b {
            None => false,
            Some(b) => !(a.kind == b.kind && a.number <= b.number),
        },
    }
}

/// An array, and Y14 and Y13 at its bounds. One whose bounds have a fault has no elements.
#[tactic(auto, using(crate::proofs::DeclarationRules::are_sound))]
fn array_of(
    walk: &mut Walk,
    known: &[Option<Ordinal>],
    a: &NamedConst,
    b: &NamedConst,
    element: u32,
) -> KindOf
    ensures { Keeps walk.old walk.new (bounds_first known.now (definition.Array a.now b.now element) walk.old.first)
        (result ≡ array_of known.now a.now b.now element) }
{
    let low = const_value(walk, known, a);
    walk.note(breaks_if(Rule::Y14, a.at, low.is_wrong));
    let high = const_value(walk, known, b);
    walk.note(breaks_if(Rule::Y14, b.at, high.is_wrong));
    let are_wrong = are_wrong(low.value, high.value);
    walk.note(breaks_if(Rule::Y13, b.at, are_wrong));
    let index = match low.value {
        None => 0,
        Some(o) => o.kind,
    };
    if low.is_wrong || high.is_wrong || are_wrong {
        KindOf::Array {
            low: 1,
            high: 0,
            index,
            element,
        }
    } else {
        KindOf::Array {
            low: number_or(1, low.value),
            high: number_or(0, high.value),
            index,
            element,
        }
    }
}

fn fields_of(
    alloc: Global,
    walk: &mut Walk,
    numbers: &[u32],
    fields: List<(Text, u32)>,
) -> List<(Text, u32)>
    ensures { Keeps walk.old walk.new walk.old.first (result ≡ fields_by numbers.now fields) }
{
    let mut out = Vec::new(alloc);
    for f in fields.into_vec() {
        let kind = type_number(numbers, f.1);
        walk.push(&mut out, (f.0, kind));
    }
    List::of(out)
}

fn messages_of(alloc: Global, walk: &mut Walk, numbers: &[u32], kinds: &[u32]) -> List<u32>
    ensures { Keeps walk.old walk.new walk.old.first (result ≡ map (type_number numbers.now) kinds.now) }
{
    let mut out = Vec::new(alloc);
    for k in kinds {
        walk.push(&mut out, type_number(numbers, *k));
    }
    List::of(out)
}

/// One type more behind others, with what is looked up in it.
fn push(alloc: Global, walk: &mut Walk, out: &mut Vec<KindWithFields>, kind: KindOf)
    ensures { Keeps walk.old walk.new walk.old.first (out.new.items ≡ out.old.items ++ kind ∷ []) }
{
    match KindWithFields::of(alloc, kind) {
        Ok(kind) => walk.push(out, kind),
        Err(_) => walk.is_lost = true,
    }
}

/// One more type behind others, and the rules at its bounds; another name of a type is none.
fn push_kind(
    alloc: Global,
    walk: &mut Walk,
    numbers: &[u32],
    known: &[Option<Ordinal>],
    form: NamedKindForm,
    out: &mut Vec<KindWithFields>,
)
    ensures { Keeps walk.old walk.new (bounds_first known.now form walk.old.first)
        (out.new.items ≡ out.old.items ++ kinds_by numbers.now known.now form) }
{
    match form {
        NamedKindForm::Integer => push(alloc, walk, out, KindOf::Integer),
        NamedKindForm::Boolean => push(alloc, walk, out, KindOf::Boolean),
        NamedKindForm::Char => push(alloc, walk, out, KindOf::Char),
        NamedKindForm::Alias(_) => {}
        NamedKindForm::Enumeration(n) => push(alloc, walk, out, KindOf::Enumeration(n)),
        NamedKindForm::Array(a, b, e) => {
            let array = array_of(walk, known, &a, &b, type_number(numbers, e));
            push(alloc, walk, out, array);
        }
        NamedKindForm::Fields(fields) => {
            let fields = fields_of(alloc, walk, numbers, fields);
            push(alloc, walk, out, KindOf::Fields(fields));
        }
        NamedKindForm::Channel(kinds) => {
            let kinds = messages_of(alloc, walk, numbers, kinds.items());
            push(alloc, walk, out, KindOf::Channel(kinds));
        }
    }
}

/// The types, in order of declaration, each with what is looked up in it: Y13 and Y14 at their bounds.
pub fn kinds_of(
    alloc: Global,
    walk: &mut Walk,
    numbers: &[u32],
    known: &[Option<Ordinal>],
    kinds: List<NamedKind>,
) -> List<KindWithFields>
    ensures { Keeps walk.old walk.new (kinds_first known.now kinds walk.old.first)
        (result ≡ kinds_from numbers.now known.now kinds) }
{
    let mut out = Vec::new(alloc);
    for k in kinds.into_vec() {
        push_kind(alloc, walk, numbers, known, k.form, &mut out);
    }
    List::of(out)
}
