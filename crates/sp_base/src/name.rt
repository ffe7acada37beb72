//! The names of processes and channels, with their order and their texts. A name is the same in every run in which
//! its process forks and opens alike.

ghost use Rattle.std.specs.Prelude.{◌≡◌, ◌++◌, IfOk, OnErr, OnOk, Some, length, take};
ghost use Rattle.std.specs.Ordering.{is_eq};
ghost use Rattle.sp_base.specs.Order.{name_cmp, channel_cmp, IsOrder};
ghost use Rattle.sp_base.specs.Names.{name_text, pair_text, channel_text};

use crate::decimal::put_decimal;
use crate::halt::Memory;
use crate::list::List;
use std::alloc::Global;
use std::cmp::Ordering;
use std::fmt;

/// One step from a process to one that it started: which of its forks, and which child of it. Both count from 0.
#[derive(Clone, Copy, PartialEq, Eq, PartialOrd, Ord)]
pub struct Pair {
    pub fork: u32,
    pub child: u32,
}

/// The name of a process: the way to it from the root, which has no pairs. Names are ordered pair by pair, by
/// fork and then child, and a prefix comes first.
#[derive(PartialEq, Eq, PartialOrd, Ord)]
pub struct ProcName {
    pub pairs: List<Pair>,
}

// By hand, so that it is proved once, here, and not in each crate that drops such a value.
impl Drop for ProcName {
    fn drop(self) {
        let ProcName { pairs: _ } = self;
    }
}

/// The name of a channel: the process that opened it, and how many channels that process had opened before.
/// Names are ordered by their owners and then by number.
#[derive(PartialEq, Eq, PartialOrd, Ord)]
pub struct ChanName {
    pub owner: ProcName,
    pub nth: u32,
}

// By hand, so that it is proved once, here, and not in each crate that drops such a value.
impl Drop for ChanName {
    fn drop(self) {
        let ChanName { owner: _, nth: _ } = self;
    }
}

impl ProcName {
    /// The order of names, which is a lawful order.
    pub fn order(&self, other: &ProcName) -> Ordering
        ensures value { result ≡ name_cmp self.now other.now }
        ensures laws { IsOrder name_cmp }
    {
        self.cmp(other)
    }

    /// Whether both are the same name.
    pub fn is(&self, other: &ProcName) -> bool
        ensures { result ≡ is_eq (name_cmp self.now other.now) }
    {
        match self.cmp(other) {
            Ordering::Equal => true,
            Ordering::Less | Ordering::Greater => false,
        }
    }

    /// The same name once more.
    pub fn duplicate(&self, alloc: Global) -> Result<ProcName, Memory>
        ensures { IfOk result (λ name. name ≡ self.now) }
    {
        let pairs = List::from_slice(alloc, self.pairs.items())?;
        Ok(ProcName { pairs })
    }

    /// Puts the name's text last into `out`, as `0/2.1`. Where memory is refused `out` is as before.
    pub fn put(&self, out: &mut Vec<u8>) -> Result<(), Memory>
        ensures ok { OnOk result (out.new.items ≡ out.old.items ++ name_text self.now) }
        ensures err { OnErr result (out.new.items ≡ out.old.items) }
    {
        let before = out.len();
        let done = self.put_parts(out);
        if done.is_err() {
            out.truncate(before);
        }
        done
    }

    fn put_parts(&self, out: &mut Vec<u8>) -> Result<(), Memory>
        ensures ok { OnOk result (out.new.items ≡ out.old.items ++ name_text self.now) }
        ensures kept { take (length out.old.items) out.new.items ≡ out.old.items }
    {
        out.extend_from_slice(b"0")?;
        for pair in self.pairs.items() {
            put_pair(out, *pair)?;
        }
        Ok(())
    }
}

fn put_pair(out: &mut Vec<u8>, pair: Pair) -> Result<(), Memory>
    ensures ok { OnOk result (out.new.items ≡ out.old.items ++ pair_text pair) }
    ensures kept { take (length out.old.items) out.new.items ≡ out.old.items }
{
    out.extend_from_slice(b"/")?;
    put_decimal(out, u64::from(pair.fork))?;
    out.extend_from_slice(b".")?;
    put_decimal(out, u64::from(pair.child))
}

impl ChanName {
    /// The order of names, which is a lawful order.
    pub fn order(&self, other: &ChanName) -> Ordering
        ensures value { result ≡ channel_cmp self.now other.now }
        ensures laws { IsOrder channel_cmp }
    {
        self.cmp(other)
    }

    /// The same name once more.
    pub fn duplicate(&self, alloc: Global) -> Result<ChanName, Memory>
        ensures { IfOk result (λ name. name ≡ self.now) }
    {
        let owner = self.owner.duplicate(alloc)?;
        Ok(ChanName {
            owner,
            nth: self.nth,
        })
    }

    /// Puts the name's text last into `out`, as `0/2.1#3`. Where memory is refused `out` is as before.
    pub fn put(&self, out: &mut Vec<u8>) -> Result<(), Memory>
        ensures ok { OnOk result (out.new.items ≡ out.old.items ++ channel_text self.now) }
        ensures err { OnErr result (out.new.items ≡ out.old.items) }
    {
        let before = out.len();
        let done = self.put_parts(out);
        if done.is_err() {
            out.truncate(before);
        }
        done
    }

    fn put_parts(&self, out: &mut Vec<u8>) -> Result<(), Memory>
        ensures ok { OnOk result (out.new.items ≡ out.old.items ++ channel_text self.now) }
        ensures kept { take (length out.old.items) out.new.items ≡ out.old.items }
    {
        self.owner.put(out)?;
        out.extend_from_slice(b"#")?;
        put_decimal(out, u64::from(self.nth))
    }
}

impl fmt::Display for ProcName {
    ghost output = { λ n. Some (name_text n) };

    fn fmt<W: fmt::Write>(&self, f: &mut fmt::Formatter<W>) -> fmt::Result {
        write!(f, "0")?;
        for pair in self.pairs.items() {
            write!(f, "/{}.{}", pair.fork, pair.child)?;
        }
        Ok(())
    }
}

impl fmt::Display for ChanName {
    ghost output = { λ c. Some (channel_text c) };

    fn fmt<W: fmt::Write>(&self, f: &mut fmt::Formatter<W>) -> fmt::Result {
        write!(f, "{}#{}", self.owner, self.nth)
    }
}
