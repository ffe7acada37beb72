//! The stack of operands of a process.

ghost use Rattle.std.specs.Prelude.{◌≡◌, ◌≤◌, ◌∷◌, [], Some, None, OnOk, OnErr, MatchOption, length, reverse, take};
ghost use Rattle.std.specs.Prelude.{drop, List};
ghost use Rattle.sp_code.specs.Machine.{is_in_no_function};
ghost use Rattle.sp_machine.specs.StackEntries.{entries_of, one_if_reply, pointer_in, HasNoNumber, HasNoChannel};
ghost use Rattle.sp_machine.specs.StackEntries.{HasNoPointer};
ghost use Rattle.sp_machine.specs.declared.stack.Operand.{Operand};
ghost use Rattle.sp_machine.specs.declared.stack.Operand.TheVariants.{Number, Channel, Pointer};

use sp_base::{List, Memory};
use sp_cell::{Address, Cell};
use std::alloc::Global;
use std::marker::Model;
use std::mem;

/// An entry of the stack.
#[derive(Drop)]
pub enum Operand {
    /// An ordinal.
    Number(i64),
    /// The number of a channel.
    Channel(u32),
    /// The address of a variable, or of a part of one.
    Pointer(Address),
    /// All cells of an array or record.
    Cells(List<Cell>),
    /// Where the caller of a procedure goes on.
    Link(u32),
    /// Where the caller of a function goes on.
    Reply(u32),
}

/// Entries, the top last in memory. Contracts see the top first.
#[derive(Drop)]
pub struct Stack {
    entries: Vec<Operand>,
    // How many entries are those of a function that is being called.
    answering: usize,
}

impl Model for Stack {
    ghost use Rattle.std.specs.Prelude.{◌≡◌, List, reverse};
    ghost use Rattle.sp_machine.specs.declared.stack.Operand.{Operand};
    ghost use Rattle.sp_machine.specs.StackEntries.{replies};

    ghost Value = { List Operand };

    ghost view = { λ it. reverse it.entries.items };

    ghost invariant = { λ it. it.answering ≡ replies (reverse it.entries.items) };
}

impl Stack {
    /// An empty stack. It takes no memory.
    pub(crate) fn new(alloc: Global) -> Stack
        ensures { result ≡ [] }
    {
        Stack {
            entries: Vec::new(alloc),
            answering: 0,
        }
    }

    /// Puts an entry on top. Where memory is refused, the stack is unchanged.
    #[tactic(auto, using(crate::proofs::StackLaws::replies_few))]
    #[inline(always)]
    pub(crate) fn push(&mut self, entry: Operand) -> Result<(), Memory>
        ensures ok { OnOk result (self.new ≡ entry ∷ self.old) }
        ensures err { OnErr result (self.new ≡ self.old) }
    {
        let more = counted(&entry);
        let _few = self.entries.len();
        match self.entries.push(entry) {
            Ok(()) => {
                self.answering += more;
                Ok(())
            }
            Err(_) => Err(Memory),
        }
    }

    /// Takes the top.
    #[inline(always)]
    pub(crate) fn pop(&mut self) -> Option<Operand>
        ensures { MatchOption result (self.old ≡ []) (λ o. self.old ≡ o ∷ self.new) }
    {
        match self.entries.pop() {
            Some(entry) => {
                self.answering -= counted(&entry);
                Some(entry)
            }
            None => None,
        }
    }

    /// Takes the number on top. `None` where none is there; then nothing is said of the stack afterwards.
    #[inline(always)]
    pub(crate) fn pop_number(&mut self) -> Option<i64>
        ensures { MatchOption result (HasNoNumber self.old) (λ n. self.old ≡ Number n ∷ self.new) }
    {
        match self.entries.pop() {
            Some(Operand::Number(n)) => Some(n),
            Some(entry) => {
                self.answering -= counted(&entry);
                mem::forget(entry);
                None
            }
            None => None,
        }
    }

    /// Takes the channel on top. `None` where none is there; then nothing is said of the stack afterwards.
    pub(crate) fn pop_channel(&mut self) -> Option<u32>
        ensures { MatchOption result (HasNoChannel self.old) (λ c. self.old ≡ Channel c ∷ self.new) }
    {
        match self.pop() {
            Some(Operand::Channel(c)) => Some(c),
            _ => None,
        }
    }

    /// Takes the address on top. `None` where none is there; then nothing is said of the stack afterwards.
    #[inline(always)]
    pub(crate) fn pop_pointer(&mut self) -> Option<Address>
        ensures { MatchOption result (HasNoPointer self.old) (λ a. self.old ≡ Pointer a ∷ self.new) }
    {
        match self.entries.pop() {
            Some(Operand::Pointer(a)) => Some(a),
            Some(entry) => {
                self.answering -= counted(&entry);
                mem::forget(entry);
                None
            }
            None => None,
        }
    }

    /// The number on top, which stays. `None` where none is there.
    #[tactic(auto, using(crate::proofs::StackLaws::top_last))]
    #[inline(always)]
    pub(crate) fn top_number(&self) -> Option<i64>
        ensures { MatchOption result (HasNoNumber self.now)
            (λ n. (os : List Operand) × (self.now ≡ Number n ∷ os)) }
    {
        let count = self.entries.len();
        if count == 0 {
            return None;
        }
        number_in(&self.entries[count - 1])
    }

    /// The address on top, which stays. `None` where none is there.
    #[tactic(auto, using(crate::proofs::StackLaws::top_last))]
    #[inline(always)]
    pub(crate) fn top_pointer(&self) -> Option<Address>
        ensures { MatchOption result (HasNoPointer self.now)
            (λ a. (os : List Operand) × (self.now ≡ Pointer a ∷ os)) }
    {
        let count = self.entries.len();
        if count == 0 {
            return None;
        }
        match &self.entries[count - 1] {
            Operand::Pointer(a) => Some(*a),
            _ => None,
        }
    }

    /// Puts an entry in place of the top, which is no cells. Neither is where the caller of a function goes on.
    #[inline(always)]
    pub(crate) fn put(&mut self, entry: Operand)
        requires plain { one_if_reply entry ≡ 0 }
        requires top { (o : Operand) × (os : List Operand) × (one_if_reply o ≡ 0) × (self.old ≡ o ∷ os) }
        ensures { (o : Operand) (os : List Operand) → self.old ≡ o ∷ os → self.new ≡ entry ∷ os }
    {
        match self.entries.pop() {
            Some(below) => mem::forget(below),
            None => unreachable!(),
        }
        self.entries.push_reserved(entry);
    }

    /// So many entries from the top, the lowest first.
    #[tactic(auto, using(crate::proofs::StackLaws::top_part))]
    pub(crate) fn top(&self, count: usize) -> &[Operand]
        requires { count ≤ length self.now }
        ensures { result.now ≡ reverse (take count self.now) }
    {
        let entries = self.entries.as_slice();
        &entries[entries.len() - count..]
    }

    /// All entries, the lowest first.
    pub(crate) fn entries(&self) -> &[Operand]
        ensures { result.now ≡ reverse self.now }
    {
        self.entries.as_slice()
    }

    /// So many entries from the top go.
    #[tactic(auto, using(crate::proofs::StackLaws::drop_more, crate::proofs::StackLaws::some_left))]
    pub(crate) fn drop_top(&mut self, count: usize)
        requires { count ≤ length self.old }
        ensures { self.new ≡ drop count self.old }
    {
        for _ in 0..count {
            match self.pop() {
                Some(_) => {}
                None => unreachable!(),
            }
        }
    }

    /// Whether no function is being called.
    #[tactic(auto, using(crate::proofs::StackLaws::outside_yes, crate::proofs::StackLaws::outside_no))]
    pub(crate) fn is_outside(&self) -> bool
        ensures { result ≡ is_in_no_function (entries_of self.now) }
    {
        if self.answering == 0 {
            return true;
        }
        false
    }
}

#[inline(always)]
fn counted(entry: &Operand) -> usize
    ensures { result ≡ one_if_reply entry.now }
{
    match entry {
        Operand::Reply(_) => 1,
        _ => 0,
    }
}

// The number that an entry is, if it is one.
#[inline(always)]
fn number_in(entry: &Operand) -> Option<i64>
    ensures { MatchOption result ((os : List Operand) → HasNoNumber (entry.now ∷ os)) (λ n. entry.now ≡ Number n) }
{
    match entry {
        Operand::Number(n) => Some(*n),
        _ => None,
    }
}

/// The address that an entry is, if it is one.
pub(crate) fn pointer_in(entry: &Operand) -> Option<Address>
    ensures { result ≡ pointer_in entry.now }
{
    match entry {
        Operand::Pointer(a) => Some(*a),
        _ => None,
    }
}
