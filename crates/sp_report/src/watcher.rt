//! What every watcher promises: the trait `Watcher`.

ghost use Rattle.std.specs.Prelude.{◌≡◌, ◌++◌, ◌∷◌, [], List, OnErr, OnOk, false, ℕ};
ghost use Rattle.sp_journal.specs.Births.{NameableFrom, first_births};
ghost use Rattle.sp_journal.specs.declared.entry.Entry.{Entry as AnEntry};

use crate::have;
use sp_base::{Memory, Writer};
use sp_journal::Entry;

/// A watcher is told the entries of a journal one by one and makes a text of them. What it means is the list of
/// the entries that it was told, and its text over every list.
pub trait Watcher: Drop {
    ghost told: { Self → List AnEntry };

    ghost text: { Self → List AnEntry → List ℕ };

    ghost title: { Self → List ℕ };

    /// The name by which it is chosen, which is also the first line of its text.
    fn name(&self) -> &str
        ensures { result.now ≡ title self.now };

    /// Tells it the next entry. Where memory is refused the watcher is unchanged.
    fn see(&mut self, entry: &Entry) -> Result<(), Memory>
        requires { NameableFrom first_births (told self.old ++ entry.now ∷ []) }
        ensures ok { OnOk result (told self.new ≡ told self.old ++ entry.now ∷ []) }
        ensures text { text self.new ≡ text self.old }
        ensures title { title self.new ≡ title self.old }
        ensures err { OnErr result (self.new ≡ self.old) };

    /// Puts its text over the entries that it was told last into `out`. It stays what it was: told the same entries,
    /// with the same title and the same text over every list. Where memory is refused both are unchanged.
    fn finish(&mut self, out: &mut Vec<u8>) -> Result<(), Memory>
        ensures ok { OnOk result (out.new.items ≡ out.old.items ++ text self.old (told self.old)) }
        ensures err { OnErr result (out.new.items ≡ out.old.items) }
        ensures told { told self.new ≡ told self.old }
        ensures text { text self.new ≡ text self.old }
        ensures title { title self.new ≡ title self.old }
        ensures same { OnErr result (self.new ≡ self.old) };
}

/// Puts what is written last into `out`: all of it, or nothing, if the writer is lost or memory is refused.
pub(crate) fn put_text(out: &mut Vec<u8>, text: Writer<u8>) -> Result<(), Memory>
    ensures ok { OnOk result ((text.is_lost ≡ false) × (out.new.items ≡ out.old.items ++ text.items.items)) }
    ensures err { OnErr result (out.new.items ≡ out.old.items) }
{
    let bytes = have!(text.finish());
    have!(out.extend_from_slice(bytes.as_slice()));
    Ok(())
}
