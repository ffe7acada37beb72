//! A type with what is looked up in it: the fields of a record by name, the message types of a channel.

ghost use Rattle.std.specs.Prelude.{◌≡◌, nat_eq, Ok, OnOk, IfOk};
ghost use Rattle.std.specs.List.{list_any};
ghost use Rattle.sp_tree.specs.PhaseResults.{Answers};
ghost use Rattle.sp_types.specs.FieldTable.{AddsField, IsIndex, IsNumbers, field_from, fields_in, message_types};

use crate::have;
use sp_base::{Halt, Text};
use sp_tree::KindOf;
use std::alloc::Global;
use std::collections::{BTreeMap, BTreeSet};
use std::marker::Model;

/// A type, which is what contracts see. A record may have very many fields, and a channel very many message types, so
/// these are looked up in ordered tables.
#[derive(Drop)]
pub struct KindWithFields {
    kind: KindOf,
    fields: BTreeMap<Text, (usize, u32)>,
    messages: BTreeSet<u32>,
}

impl Model for KindWithFields {
    ghost use Rattle.sp_tree.specs.declared.checked.KindOf.{KindOf};
    ghost use Rattle.sp_types.specs.FieldTable.{IsIndex, IsNumbers, fields_in, message_types};

    ghost Value = { KindOf };

    ghost view = { λ it. it.kind };

    ghost invariant = { λ it. IsIndex it.fields (fields_in it.kind)
        × IsNumbers it.messages.keys (message_types it.kind) };
}

/// The fields of a record; no other type has any.
fn fields_in(k: &KindOf) -> &[(Text, u32)]
    ensures { result.now ≡ fields_in k.now }
{
    match k {
        KindOf::Fields(fields) => fields.items(),
        _ => &[],
    }
}

/// The message types of a channel; no other type has any.
fn message_types(k: &KindOf) -> &[u32]
    ensures { result.now ≡ message_types k.now }
{
    match k {
        KindOf::Channel(kinds) => kinds.items(),
        _ => &[],
    }
}

/// Notes a field with its number, unless there is one of its name.
fn note(
    alloc: Global,
    index: &mut BTreeMap<Text, (usize, u32)>,
    n: usize,
    field: &(Text, u32),
) -> Result<(), Halt>
    ensures { OnOk result (AddsField index.old index.new n field.now) }
{
    if !index.contains_key(&field.0) {
        let name = have!(Vec::from_slice(alloc, field.0.bytes()));
        index.insert(Text::of(name), (n, field.1))?;
    }
    Ok(())
}

fn index_of(alloc: Global, fields: &[(Text, u32)]) -> Result<BTreeMap<Text, (usize, u32)>, Halt>
    ensures { IfOk result (λ it. IsIndex it fields.now) }
{
    let mut index = BTreeMap::new(alloc);
    let mut n = 0;
    for f in fields {
        have!(note(alloc, &mut index, n, f));
        n += 1;
    }
    Ok(index)
}

fn numbers_of(alloc: Global, kinds: &[u32]) -> Result<BTreeSet<u32>, Halt>
    ensures { IfOk result (λ it. IsNumbers it.keys kinds.now) }
{
    let mut numbers = BTreeSet::new(alloc);
    for k in kinds {
        have!(numbers.insert(*k));
    }
    Ok(numbers)
}

impl KindWithFields {
    pub fn of(alloc: Global, kind: KindOf) -> Result<KindWithFields, Halt>
        ensures { Answers result (Ok kind) }
    {
        let fields = have!(index_of(alloc, fields_in(&kind)));
        let messages = have!(numbers_of(alloc, message_types(&kind)));
        Ok(KindWithFields {
            kind,
            fields,
            messages,
        })
    }

    /// The type.
    pub fn kind(&self) -> &KindOf
        ensures { result.now ≡ self.now }
    {
        &self.kind
    }

    /// The type, for good.
    pub fn into_kind(self) -> KindOf
        ensures { result ≡ self }
    {
        let KindWithFields {
            kind,
            fields: _,
            messages: _,
        } = self;
        kind
    }

    /// A field's number and type.
    pub fn field(&self, name: &Text) -> Option<(usize, u32)>
        ensures { result ≡ field_from 0 name.now (fields_in self.now) }
    {
        self.fields.get(name).copied()
    }

    /// Whether a type is among the channel's message types.
    pub fn takes(&self, k: u32) -> bool
        ensures { result ≡ list_any (nat_eq k) (message_types self.now) }
    {
        self.messages.contains(&k)
    }
}
