//! A journal as it grows, and the births and names that it gives.

ghost use Rattle.std.specs.Prelude.{◌≡◌, ◌++◌, ◌∷◌, [], ◌<◌, ◌≤◌, ◌^◌, ◌⊎◌, ◌↔◌, ℕ, IsNone, IfOk, OnOk, OnErr};
ghost use Rattle.sp_journal.specs.Births.{births, IsNameable};
ghost use Rattle.sp_journal.specs.Names.{proc_name};

use crate::entry::{Birth, Entry, Event, Journal};
use crate::ledger::Ledger;
use sp_base::{Memory, ProcName};

impl Journal {
    /// Puts the entry last. Where memory is refused the journal is unchanged.
    pub fn push(&mut self, entry: Entry) -> Result<(), Memory>
        ensures ok { OnOk result (self.new.entries ≡ self.old.entries ++ entry ∷ []) }
        ensures err { OnErr result (self.new ≡ self.old) }
    {
        self.entries.push(entry)?;
        Ok(())
    }

    /// How this process came to be. None for the root, which is process 0, and for a number that no entry has given.
    pub fn birth(&self, process: u32) -> Option<Birth>
        requires { IsNameable self.now }
        ensures value { result ≡ (births self.now.entries).birth process }
        ensures none { IsNone result ↔ ((process ≡ 0) ⊎ ((births self.now.entries).processes ≤ process)) }
    {
        let entries = self.entries.items();
        let mut next = 1u64;
        for (at, entry) in entries.iter().enumerate() {
            if let Event::Fork(count) = entry.event {
                let after = next + u64::from(count);
                if u64::from(process) >= next && u64::from(process) < after {
                    return Some(Birth {
                        parent: entry.process,
                        fork: forks_of(&entries[..at], entry.process),
                        child: (u64::from(process) - next) as u32,
                    });
                }
                next = after;
            }
        }
        None
    }

    /// The name of this process, which is the root or was made by an entry. No other process of the journal has it.
    /// It goes over the whole journal: who needs many names asks a `Ledger`.
    pub fn name(&self, process: u32) -> Result<ProcName, Memory>
        requires nameable { IsNameable self.now }
        requires there { process < (births self.now.entries).processes }
        ensures value { IfOk result (λ name. name ≡ proc_name ((births self.now.entries).name process)) }
        ensures alone { IfOk result (λ name. (other : ℕ) → other < (births self.now.entries).processes
            → proc_name ((births self.now.entries).name other) ≡ name → other ≡ process) }
    {
        let ledger = Ledger::of(self.entries.alloc(), self)?;
        ledger.name(process)
    }
}

/// How many forks this process has made, which are few enough to be numbered.
fn forks_of(entries: &[Entry], process: u32) -> u32
    requires { (births entries.now).forks process < 2 ^ 32 }
    ensures { result ≡ (births entries.now).forks process }
{
    let mut forks = 0u64;
    for entry in entries {
        if let Event::Fork(_) = entry.event {
            if entry.process == process {
                forks += 1;
            }
        }
    }
    forks as u32
}
