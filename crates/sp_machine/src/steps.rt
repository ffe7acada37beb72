//! How instructions end: the process goes on with one operand more, or it stays where it is, with a fault.

ghost use Rattle.std.specs.Prelude.{◌≡◌, ◌+◌, ◌<◌, ◌∷◌};
ghost use Rattle.sp_code.specs.Machine.{Goes, Fails, At, Number};
ghost use Rattle.sp_machine.specs.declared.state.State.{State};
ghost use Rattle.sp_machine.specs.StackEntries.{entry_of, entries_of};
ghost use Rattle.sp_machine.specs.Procs.{CameBy, KeepsNumberAndInput, config_of, memory_of};

use crate::have;
use crate::stack::Operand;
use crate::state::{Outcome, State};
use sp_base::Fault;

impl State {
    /// Goes on behind the instruction with one operand more.
    #[inline(always)]
    pub(crate) fn push_on(&mut self, entry: Operand) -> Outcome
        requires { self.old.pc + 1 < 4294967296 }
        ensures came { (p : State) → CameBy (Goes (At (self.old.pc + 1) (entry_of entry ∷ entries_of self.old.stack)
            (memory_of self.old))) p self.new result }
        ensures same { KeepsNumberAndInput self.old self.new }
    {
        have!(self.stack.push(entry), Outcome::Refused);
        self.pc += 1;
        Outcome::On
    }

    /// Stays at an instruction that has a fault, with the operand that it had on top.
    #[cold]
    pub(crate) fn fail(&mut self, entry: Operand, fault: Fault) -> Outcome
        ensures came { (p : State) → config_of p ≡ At self.old.pc (entry_of entry ∷ entries_of self.old.stack)
            (memory_of self.old) → CameBy (Fails fault) p self.new result }
        ensures same { KeepsNumberAndInput self.old self.new }
    {
        have!(self.stack.push(entry), Outcome::Refused);
        Outcome::Fault(fault)
    }

    /// The same with a number, so told that a turn needs no memory for it.
    #[cold]
    #[inline(never)]
    pub(crate) fn fail_number(&mut self, number: i64, fault: Fault) -> Outcome
        ensures came { (p : State) → config_of p ≡ At self.old.pc (Number number ∷ entries_of self.old.stack)
            (memory_of self.old) → CameBy (Fails fault) p self.new result }
        ensures same { KeepsNumberAndInput self.old self.new }
    {
        self.fail(Operand::Number(number), fault)
    }

    /// Stays at an instruction that has a fault, with the two operands that it had on top.
    #[cold]
    pub(crate) fn fail_both(&mut self, below: Operand, top: Operand, fault: Fault) -> Outcome
        ensures came { (p : State) → config_of p ≡ At self.old.pc (entry_of top ∷ entry_of below ∷ entries_of
            self.old.stack) (memory_of self.old) → CameBy (Fails fault) p self.new result }
        ensures same { KeepsNumberAndInput self.old self.new }
    {
        have!(self.stack.push(below), Outcome::Refused);
        self.fail(top, fault)
    }
}
