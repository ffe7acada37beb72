//! The queue of the processes that are ready.

ghost use Rattle.std.specs.Prelude.{◌≡◌, ◌+◌, ◌-◌, ◌<◌, ◌++◌, ◌∷◌, [], length, take, OnOk, OnErr, not};
ghost use Rattle.sp_journal.specs.Queue.{numbers};
ghost use Rattle.sp_code.specs.Control.{front_of, queue_tail, is_ready};
ghost use Rattle.sp_kernel.specs.ListEnds.{without_last};

use sp_base::Memory;
use std::alloc::Global;
use std::collections::VecDeque;
use std::marker::Model;

/// Numbers in a row, the oldest first.
#[derive(Drop)]
pub(crate) struct ReadyQueue {
    ring: VecDeque<u32>,
}

impl Model for ReadyQueue {
    ghost use Rattle.std.specs.Prelude.{List, ℕ};

    ghost Value = { List ℕ };

    ghost view = { λ it. it.ring.items };
}

impl ReadyQueue {
    pub(crate) fn new(alloc: Global) -> ReadyQueue
        ensures { result ≡ [] }
    {
        ReadyQueue {
            ring: VecDeque::new(alloc),
        }
    }

    /// Puts the number last. Where memory is refused the line is unchanged.
    pub(crate) fn push(&mut self, number: u32) -> Result<(), Memory>
        ensures ok { OnOk result (self.new ≡ self.old ++ number ∷ []) }
        ensures err { OnErr result (self.new ≡ self.old) }
    {
        match self.ring.push_back(number) {
            Ok(()) => Ok(()),
            Err(_) => Err(Memory),
        }
    }

    /// Puts so many numbers last, from `first` on. Where memory is refused the line is unchanged.
    #[tactic(auto, using(crate::proofs::ListEnds::numbers_more, crate::proofs::ListEnds::front_only, crate::proofs::ListEnds::none_more))]
    pub(crate) fn extend(&mut self, first: u32, count: u32) -> Result<(), Memory>
        requires { first + count < 4294967296 }
        ensures ok { OnOk result (self.new ≡ self.old ++ numbers first count) }
        ensures err { OnErr result (self.new ≡ self.old) }
    {
        let before = self.ring.len();
        for k in 0..count {
            if self.ring.push_back(first + k).is_err() {
                self.ring.truncate(before);
                return Err(Memory);
            }
        }
        Ok(())
    }

    /// The newest ones go.
    pub(crate) fn shorten(&mut self, count: u32)
        ensures { self.new ≡ take (length self.old - count) self.old }
    {
        let left = self.ring.len().saturating_sub(count as usize);
        self.ring.truncate(left);
    }

    /// Takes the oldest number out.
    pub(crate) fn take(&mut self) -> Option<u32>
        ensures value { result ≡ front_of self.old }
        ensures rest { self.new ≡ queue_tail self.old }
    {
        self.ring.pop_front()
    }

    pub(crate) fn is_empty(&self) -> bool
        ensures { result ≡ not (is_ready self.now) }
    {
        self.ring.is_empty()
    }

    pub(crate) fn len(&self) -> u64 {
        self.ring.len() as u64
    }

    /// Takes the newest number back.
    pub(crate) fn untake(&mut self)
        ensures { self.new ≡ without_last self.old }
    {
        let _ = self.ring.pop_back();
    }
}
