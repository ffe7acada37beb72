//! The instructions on variables: addresses, loads, stores and copies.

ghost use Rattle.std.specs.Prelude.{◌≡◌, ◌≢◌, ◌+◌, ◌*◌, ◌<◌, ◌≤◌, MatchOption, Some};
ghost use Rattle.sp_code.specs.Machine.{Stuck};
ghost use Rattle.sp_code.specs.declared.instr.Instr.TheVariants as instr;
ghost use Rattle.sp_machine.specs.Procs.{does, CameBy, KeepsNumberAndInput};

use crate::have;
use crate::stack::Operand;
use crate::state::{Outcome, State};
use sp_base::{Fault, Limits};
use sp_cell::{Address, Cell};
use sp_code::Code;

/// The offset of an element, where it is a number for a cell.
fn beyond(offset: u32, place: u64, size: u32) -> Option<u32>
    ensures { MatchOption result (4294967296 ≤ offset + place * size) (λ r. r ≡ offset + place * size) }
{
    let Some(cells) = place.checked_mul(u64::from(size)) else {
        return None;
    };
    let Some(all) = cells.checked_add(u64::from(offset)) else {
        return None;
    };
    u32::try_from(all).ok()
}

impl State {
    // Pushes the address of a variable.
    #[inline(always)]
    pub(crate) fn address(&mut self, up: u32, var: u32, code: &Code, limits: &Limits) -> Outcome
        requires next { self.old.pc + 1 < 4294967296 }
        requires safe { does (Some (instr.Addr up var)) self.old code.now limits.now ≢ Stuck }
        ensures came { CameBy (does (Some (instr.Addr up var)) self.old code.now limits.now) self.old self.new result }
        ensures same { KeepsNumberAndInput self.old self.new }
    {
        let Some(at) = self.frames.address(up, var) else {
            unreachable!()
        };
        self.push_on(Operand::Pointer(at))
    }

    // Pushes the address that a variable parameter stands for.
    #[inline(always)]
    pub(crate) fn reference(&mut self, up: u32, var: u32, code: &Code, limits: &Limits) -> Outcome
        requires next { self.old.pc + 1 < 4294967296 }
        requires safe { does (Some (instr.Deref up var)) self.old code.now limits.now ≢ Stuck }
        ensures came { CameBy (does (Some (instr.Deref up var)) self.old code.now limits.now) self.old self.new result }
        ensures same { KeepsNumberAndInput self.old self.new }
    {
        let Some(at) = self.frames.reference(up, var) else {
            unreachable!()
        };
        self.push_on(Operand::Pointer(at))
    }

    // Selects an element of an array.
    #[inline(always)]
    pub(crate) fn element(
        &mut self,
        low: i64,
        high: i64,
        size: u32,
        code: &Code,
        limits: &Limits,
    ) -> Outcome
        requires next { self.old.pc + 1 < 4294967296 }
        requires safe { does (Some (instr.Index low high size)) self.old code.now limits.now ≢ Stuck }
        ensures came { CameBy (does (Some (instr.Index low high size)) self.old code.now limits.now) self.old
            self.new result }
        ensures same { KeepsNumberAndInput self.old self.new }
    {
        let Some(n) = self.stack.pop_number() else {
            unreachable!()
        };
        let Some(at) = self.stack.top_pointer() else {
            unreachable!()
        };
        if n < low || high < n {
            return self.fail_number(n, Fault::F1);
        }
        let Some(offset) = beyond(at.offset, n.abs_diff(low), size) else {
            unreachable!()
        };
        let spot = at.spot;
        self.stack.put(Operand::Pointer(Address { spot, offset }));
        self.pc += 1;
        Outcome::On
    }

    // Selects what begins this number of cells further on.
    pub(crate) fn field(&mut self, cells: u32, code: &Code, limits: &Limits) -> Outcome
        requires next { self.old.pc + 1 < 4294967296 }
        requires safe { does (Some (instr.Field cells)) self.old code.now limits.now ≢ Stuck }
        ensures came { CameBy (does (Some (instr.Field cells)) self.old code.now limits.now) self.old self.new result }
        ensures same { KeepsNumberAndInput self.old self.new }
    {
        let Some(at) = self.stack.top_pointer() else {
            unreachable!()
        };
        let Some(offset) = at.offset.checked_add(cells) else {
            unreachable!()
        };
        let spot = at.spot;
        self.stack.put(Operand::Pointer(Address { spot, offset }));
        self.pc += 1;
        Outcome::On
    }

    // The ordinal at an address.
    #[inline(always)]
    pub(crate) fn load(&mut self, code: &Code, limits: &Limits) -> Outcome
        requires next { self.old.pc + 1 < 4294967296 }
        requires safe { does (Some instr.Load) self.old code.now limits.now ≢ Stuck }
        ensures came { CameBy (does (Some instr.Load) self.old code.now limits.now) self.old self.new result }
        ensures same { KeepsNumberAndInput self.old self.new }
    {
        let Some(at) = self.stack.top_pointer() else {
            unreachable!()
        };
        match self.store.load(at) {
            Cell::Ordinal(value) => {
                self.stack.put(Operand::Number(value));
                self.pc += 1;
                Outcome::On
            }
            Cell::Undefined | Cell::Channel(_) => Outcome::Fault(Fault::F4),
        }
    }

    // The channel at an address.
    pub(crate) fn load_channel(&mut self, code: &Code, limits: &Limits) -> Outcome
        requires next { self.old.pc + 1 < 4294967296 }
        requires safe { does (Some instr.Loadc) self.old code.now limits.now ≢ Stuck }
        ensures came { CameBy (does (Some instr.Loadc) self.old code.now limits.now) self.old self.new result }
        ensures same { KeepsNumberAndInput self.old self.new }
    {
        let Some(at) = self.stack.top_pointer() else {
            unreachable!()
        };
        match self.store.load(at) {
            Cell::Channel(channel) => {
                self.stack.put(Operand::Channel(channel));
                self.pc += 1;
                Outcome::On
            }
            Cell::Undefined | Cell::Ordinal(_) => Outcome::Fault(Fault::F5),
        }
    }

    // Assigns an ordinal or a channel.
    #[inline(always)]
    pub(crate) fn assign(&mut self, code: &Code, limits: &Limits) -> Outcome
        requires next { self.old.pc + 1 < 4294967296 }
        requires safe { does (Some instr.Store) self.old code.now limits.now ≢ Stuck }
        ensures came { CameBy (does (Some instr.Store) self.old code.now limits.now) self.old self.new result }
        ensures same { KeepsNumberAndInput self.old self.new }
    {
        let cell = match self.stack.pop() {
            Some(Operand::Number(value)) => Cell::Ordinal(value),
            Some(Operand::Channel(channel)) => Cell::Channel(channel),
            _ => unreachable!(),
        };
        let Some(at) = self.stack.pop_pointer() else {
            unreachable!()
        };
        have!(self.store.store(at, cell), Outcome::Refused);
        self.pc += 1;
        Outcome::On
    }

    // Assigns cells.
    pub(crate) fn copy(&mut self, cells: u32, code: &Code, limits: &Limits) -> Outcome
        requires next { self.old.pc + 1 < 4294967296 }
        requires safe { does (Some (instr.Copy cells)) self.old code.now limits.now ≢ Stuck }
        ensures came { CameBy (does (Some (instr.Copy cells)) self.old code.now limits.now) self.old self.new result }
        ensures same { KeepsNumberAndInput self.old self.new }
    {
        let Some(from) = self.stack.pop_pointer() else {
            unreachable!()
        };
        let Some(to) = self.stack.pop_pointer() else {
            unreachable!()
        };
        have!(self.store.copy(to, from, cells), Outcome::Refused);
        self.pc += 1;
        Outcome::On
    }

    // The cells from an address on, as one operand.
    pub(crate) fn pack(&mut self, cells: u32, code: &Code, limits: &Limits) -> Outcome
        requires next { self.old.pc + 1 < 4294967296 }
        requires safe { does (Some (instr.Pack cells)) self.old code.now limits.now ≢ Stuck }
        ensures came { CameBy (does (Some (instr.Pack cells)) self.old code.now limits.now) self.old self.new result }
        ensures same { KeepsNumberAndInput self.old self.new }
    {
        let Some(at) = self.stack.pop_pointer() else {
            unreachable!()
        };
        let taken = have!(self.store.cells(at, cells), Outcome::Refused);
        self.push_on(Operand::Cells(taken))
    }
}
