//! What is seen of a process that has stopped: its live frames, and where its live calls return.

ghost use Rattle.std.specs.Prelude.{◌≡◌, ◌∷◌, ◌++◌, [], IfOk, OnOk};
ghost use Rattle.sp_machine.specs.Calls.{returns};
ghost use Rattle.sp_machine.specs.StackEntries.{entries_of, entry_of};

use crate::frames::Frames;
use crate::proc::Proc;
use crate::stack::{Operand, Stack};
use sp_base::{List, Memory};
use std::alloc::Global;

impl Proc {
    /// Its live frames. Those of its own calls stand above those that it has from its ancestors.
    pub fn frames(&self) -> &Frames
        ensures { result.now ≡ self.now.frames }
    {
        &self.state.frames
    }

    /// The numbers of the instructions at which its live calls return, the innermost first. The instruction of a call
    /// is the one before. The list takes its memory from `alloc`; the one error is that memory was refused.
    pub fn returns(&self, alloc: Global) -> Result<List<u32>, Memory>
        ensures { IfOk result (λ xs. xs ≡ returns (entries_of self.now.stack)) }
    {
        self.state.stack.returns(alloc)
    }
}

impl Stack {
    // Where the calls return whose entries stand here, the innermost first.
    fn returns(&self, alloc: Global) -> Result<List<u32>, Memory>
        ensures { IfOk result (λ xs. xs ≡ returns (entries_of self.now)) }
    {
        let entries = self.entries();
        let mut out = List::new(alloc);
        for place in (0..entries.len()).rev() {
            put_return(&mut out, &entries[place])?;
        }
        Ok(out)
    }
}

// The return address that an entry is, if it is one.
fn put_return(out: &mut List<u32>, entry: &Operand) -> Result<(), Memory>
    ensures { OnOk result (out.new ≡ out.old ++ returns (entry_of entry.now ∷ [])) }
{
    match entry {
        Operand::Link(to) | Operand::Reply(to) => out.push(*to)?,
        Operand::Number(_) | Operand::Channel(_) | Operand::Pointer(_) | Operand::Cells(_) => {}
    }
    Ok(())
}
