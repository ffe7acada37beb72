//! The constants of a `case` statement that have been read, to find one that is repeated.

ghost use Rattle.std.specs.Prelude.{◌≡◌, ◌++◌, ◌∷◌, [], Ok};
ghost use Rattle.std.specs.List.{list_any};
ghost use Rattle.sp_tree.specs.PhaseResults.{Answers};
ghost use Rattle.sp_types.specs.TypeRules.{is_same_ordinal};

use crate::have;
use crate::tables::Ordinal;
use sp_base::Halt;
use std::alloc::Global;
use std::collections::BTreeSet;
use std::marker::Model;

/// Constants in the order of the text, which contracts see as their list. A text may have very many, so whether one is
/// among them is looked up in an ordered set.
#[derive(Drop)]
pub struct Seen {
    list: Vec<Ordinal>,
    set: BTreeSet<(u32, i64)>,
}

impl Model for Seen {
    ghost use Rattle.std.specs.Prelude.{List};
    ghost use Rattle.sp_types.specs.declared.tables.Ordinal.{Ordinal};
    ghost use Rattle.sp_types.specs.Seen.{IsSet};

    ghost Value = { List Ordinal };

    ghost view = { λ it. it.list.items };

    ghost invariant = { λ it. IsSet it.list.items it.set.keys };
}

fn key_of(o: Ordinal) -> (u32, i64)
    ensures { result ≡ (o.kind, o.number) }
{
    (o.kind, o.number)
}

impl Seen {
    pub fn new(alloc: Global) -> Seen
        ensures { result ≡ [] }
    {
        Seen {
            list: Vec::new(alloc),
            set: BTreeSet::new(alloc),
        }
    }

    /// Whether the constant is among them.
    pub fn contains(&self, o: Ordinal) -> bool
        ensures { result ≡ list_any (is_same_ordinal o) self.now }
    {
        let key = key_of(o);
        self.set.contains(&key)
    }

    /// One more constant. Where memory is refused they are gone.
    pub fn with(self, o: Ordinal) -> Result<Seen, Halt>
        ensures { Answers result (Ok (self ++ o ∷ [])) }
    {
        let Seen { list, set } = self;
        let mut list = list;
        let mut set = set;
        let key = key_of(o);
        have!(list.push(o));
        have!(set.insert(key));
        Ok(Seen { list, set })
    }
}
