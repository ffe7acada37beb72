//! What is known of constants, types, variables and blocks, by their numbers.

ghost use Rattle.std.specs.Prelude.{◌≡◌, nat_eq, slice_get, slice_set, Ok, OnOk};
ghost use Rattle.sp_tree.specs.PhaseResults.{Answers};
ghost use Rattle.std.specs.Option.{option_copied, option_map};
ghost use Rattle.std.specs.List.{list_any};
ghost use Rattle.sp_types.specs.TypeRules.{field_in, messages_in};
ghost use Rattle.sp_types.specs.Tables.{with_index_type, kind_at, variable_kind, table_entry};
ghost use Rattle.sp_types.specs.Tables.{formals_of, answer_kind};
ghost use Rattle.sp_types.specs.Tables.{ordinal_kind};
ghost use Rattle.sp_types.specs.TypeWalk.{formal_role, formal_kind, with_more_numbers};

use crate::field_table::KindWithFields;
use sp_base::{Halt, List, Text};
use sp_tree::{KindOf, Role};
use std::mem::replace;

/// An ordinal: the number of its type, and its own.
#[derive(Clone, Copy)]
pub struct Ordinal {
    pub kind: u32,
    pub number: i64,
}

/// A block: the numbers of its parameters, and of the variable with its result.
#[derive(Drop)]
pub struct Signature {
    pub formals: List<u32>,
    pub answer: Option<u32>,
}

/// What is known while statements are read: the declared constants, each with its type; the types; the types and roles
/// of the variables; the headings of the blocks; and the number of the next statement. The type of a forall index is
/// that of its first limit, and is not known before it.
#[derive(Drop)]
pub struct Tables {
    pub constants: List<Option<Ordinal>>,
    pub kinds: List<KindWithFields>,
    pub variables: List<Option<u32>>,
    pub roles: List<Role>,
    pub blocks: List<Signature>,
    pub next: u32,
}

/// The type of an ordinal, if there is one.
pub fn ordinal_kind(o: Option<Ordinal>) -> Option<u32>
    ensures { result ≡ ordinal_kind o }
{
    match o {
        None => None,
        Some(o) => Some(o.kind),
    }
}

impl Tables {
    /// The type with this number.
    pub fn kind_at(&self, k: u32) -> Option<&KindOf>
        ensures { option_copied result ≡ kind_at self.now k }
    {
        match self.kinds.get(k as usize) {
            None => None,
            Some(entry) => Some(entry.kind()),
        }
    }

    /// The number and type of a field of the type with this number.
    pub fn field(&self, k: u32, name: &Text) -> Option<(usize, u32)>
        ensures { result ≡ field_in name.now (kind_at self.now k) }
    {
        match self.kinds.get(k as usize) {
            None => None,
            Some(entry) => entry.field(name),
        }
    }

    /// Whether the channel type with this number has a message type; none: it is no channel.
    pub fn takes(&self, channel: u32, k: u32) -> Option<bool>
        ensures { result ≡ option_map (list_any (nat_eq k)) (messages_in (kind_at self.now channel)) }
    {
        match self.kinds.get(channel as usize) {
            None => None,
            Some(entry) => match entry.kind() {
                KindOf::Channel(_) => Some(entry.takes(k)),
                _ => None,
            },
        }
    }

    /// The type of a variable.
    pub fn variable_kind(&self, x: u32) -> Option<u32>
        ensures { result ≡ variable_kind self.now x }
    {
        match self.variables.get(x as usize) {
            None => None,
            Some(k) => *k,
        }
    }

    /// A declared constant.
    pub fn constant(&self, k: u32) -> Option<Ordinal>
        ensures { result ≡ table_entry (slice_get self.now.constants k) }
    {
        match self.constants.get(k as usize) {
            None => None,
            Some(o) => *o,
        }
    }

    /// The numbers of a block's parameters.
    pub fn formals(&self, f: u32) -> &[u32]
        ensures { result.now ≡ formals_of self.now f }
    {
        match self.blocks.get(f as usize) {
            None => &[],
            Some(s) => s.formals.items(),
        }
    }

    /// The type of a function's result.
    pub fn answer_kind(&self, f: u32) -> Option<u32>
        ensures { result ≡ answer_kind self.now f }
    {
        match self.blocks.get(f as usize) {
            None => None,
            Some(s) => match s.answer {
                None => None,
                Some(x) => self.variable_kind(x),
            },
        }
    }

    /// The role of a parameter.
    pub fn formal_role(&self, x: Option<u32>) -> Option<Role>
        ensures { result ≡ formal_role self.now x }
    {
        match x {
            None => None,
            Some(x) => self.roles.get(x as usize).copied(),
        }
    }

    /// The type of a parameter.
    pub fn formal_kind(&self, x: Option<u32>) -> Option<u32>
        ensures { result ≡ formal_kind self.now x }
    {
        match x {
            None => None,
            Some(x) => self.variable_kind(x),
        }
    }
}

impl Tables {
    /// So many numbers of statements are given. A number that is no `u32` is answered as want of memory, and then
    /// nothing has changed.
    pub fn count(&mut self, n: u32) -> Result<(), Halt>
        ensures memory { Answers result (Ok tt) }
        ensures after { OnOk result (self.new ≡ with_more_numbers n self.old) }
    {
        match self.next.checked_add(n) {
            None => Err(Halt::Memory),
            Some(next) => {
                self.next = next;
                Ok(())
            }
        }
    }

    /// The index of a forall gets its type.
    pub fn index(&mut self, x: u32, k: Option<u32>)
        ensures { self.new ≡ with_index_type self.old x k }
    {
        let none = List::new(self.variables.alloc());
        let variables = replace(&mut self.variables, none);
        self.variables = with_type(variables, x, k);
    }
}

/// The types of variables, with that of one of them.
fn with_type(variables: List<Option<u32>>, x: u32, k: Option<u32>) -> List<Option<u32>>
    ensures { result ≡ slice_set variables x k }
{
    let mut variables = variables.into_vec();
    let x = x as usize;
    if x < variables.len() {
        variables[x] = k;
        List::of(variables)
    } else {
        List::of(variables)
    }
}
