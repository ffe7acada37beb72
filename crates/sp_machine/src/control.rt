//! The instructions of jumps, loops and ticks.

ghost use Rattle.std.specs.Prelude.{◌≡◌, ◌≢◌, ◌+◌, ◌<◌, Some, nat_le, true};
ghost use Rattle.sp_base.specs.declared.limits.TheConstants.{TURN_TICKS};
ghost use Rattle.sp_tree.specs.Operators.{is_range, is_before, next_value};
ghost use Rattle.sp_code.specs.Machine.{Stuck, begins_loop, ends_loop};
ghost use Rattle.sp_code.specs.Memory.{memory};
ghost use Rattle.sp_code.specs.PlainStore.{plain};
ghost use Rattle.sp_code.specs.declared.instr.Instr.TheVariants as instr;
ghost use Rattle.sp_machine.specs.StackEntries.{entries_of};
ghost use Rattle.sp_machine.specs.Procs.{does, CameBy, KeepsNumberAndInput, code_run_of, memory_of};

use crate::have;
use crate::stack::Operand;
use crate::state::{Outcome, State};
use sp_base::{Fault, Limits, TURN_TICKS};
use sp_cell::Cell;
use sp_code::Code;

/// Whether a loop has a value from `first` to `last`.
fn has_range(down: bool, first: i64, last: i64) -> bool
    ensures { result ≡ is_range down first last }
{
    if down { last <= first } else { first <= last }
}

/// Whether a loop has a value after this one.
fn has_next(down: bool, value: i64, last: i64) -> bool
    ensures { result ≡ is_before down value last }
{
    if down { last < value } else { value < last }
}

/// The value after this one.
fn following(down: bool, value: i64, last: i64) -> i64
    requires { is_before down value last ≡ true }
    ensures { result ≡ next_value down value }
{
    if down { value - 1 } else { value + 1 }
}

impl State {
    /// Whether it has made so many ticks since its last entry that it has to pause.
    pub(crate) fn is_due(&self) -> bool
        ensures { result ≡ nat_le (self.now.since + TURN_TICKS) self.now.ticks }
    {
        self.since <= self.ticks && self.ticks - self.since >= TURN_TICKS
    }

    // Goes on there where the operand is false.
    #[inline(always)]
    pub(crate) fn jump_false(&mut self, to: u32, code: &Code, limits: &Limits) -> Outcome
        requires next { self.old.pc + 1 < 4294967296 }
        requires safe { does (Some (instr.Jumpf to)) self.old code.now limits.now ≢ Stuck }
        ensures came { CameBy (does (Some (instr.Jumpf to)) self.old code.now limits.now) self.old self.new result }
        ensures same { KeepsNumberAndInput self.old self.new }
    {
        match self.stack.pop_number() {
            Some(value) => {
                if value <= 0 {
                    self.pc = to;
                    return Outcome::On;
                }
                self.pc += 1;
                Outcome::On
            }
            None => unreachable!(),
        }
    }

    // Goes on there where the operand is the value; else the operand stays.
    pub(crate) fn jump_equal(
        &mut self,
        value: i64,
        to: u32,
        code: &Code,
        limits: &Limits,
    ) -> Outcome
        requires next { self.old.pc + 1 < 4294967296 }
        requires safe { does (Some (instr.Casej value to)) self.old code.now limits.now ≢ Stuck }
        ensures came { CameBy (does (Some (instr.Casej value to)) self.old code.now limits.now) self.old self.new
            result }
        ensures same { KeepsNumberAndInput self.old self.new }
    {
        match self.stack.pop_number() {
            Some(n) => {
                if n == value {
                    self.pc = to;
                    return Outcome::On;
                }
                have!(self.stack.push(Operand::Number(n)), Outcome::Refused);
                self.pc += 1;
                Outcome::On
            }
            None => unreachable!(),
        }
    }

    // Goes on where the operand is true.
    pub(crate) fn assume(&mut self, code: &Code, limits: &Limits) -> Outcome
        requires next { self.old.pc + 1 < 4294967296 }
        requires safe { does (Some instr.Assume) self.old code.now limits.now ≢ Stuck }
        ensures came { CameBy (does (Some instr.Assume) self.old code.now limits.now) self.old self.new result }
        ensures same { KeepsNumberAndInput self.old self.new }
    {
        match self.stack.pop_number() {
            Some(value) => {
                if value <= 0 {
                    return self.fail(Operand::Number(value), Fault::F8);
                }
                self.pc += 1;
                Outcome::On
            }
            None => unreachable!(),
        }
    }

    // Counts a tick. The process may pause.
    #[inline(always)]
    pub(crate) fn tick(&mut self, code: &Code, limits: &Limits) -> Outcome
        requires next { self.old.pc + 1 < 4294967296 }
        requires safe { does (Some instr.Tick) self.old code.now limits.now ≢ Stuck }
        ensures came { CameBy (does (Some instr.Tick) self.old code.now limits.now) self.old self.new result }
        ensures same { KeepsNumberAndInput self.old self.new }
    {
        if self.ticks >= limits.ticks {
            return Outcome::Fault(Fault::F10);
        }
        self.ticks += 1;
        self.pc += 1;
        if self.stack.is_outside() && self.is_due() {
            return Outcome::Pause;
        }
        Outcome::On
    }

    // Begins a loop with its first value, or leaves it.
    pub(crate) fn begin_loop(
        &mut self,
        down: bool,
        var: u32,
        to: u32,
        code: &Code,
        limits: &Limits,
    ) -> Outcome
        requires next { self.old.pc + 1 < 4294967296 }
        requires safe { begins_loop (memory plain (code_run_of self.old code.now limits.now)) code.now down var to
            self.old.pc
            (entries_of self.old.stack) (memory_of self.old) ≢ Stuck }
        ensures came { CameBy (begins_loop (memory plain (code_run_of self.old code.now limits.now)) code.now down
            var to self.old.pc (entries_of self.old.stack) (memory_of self.old)) self.old self.new result }
        ensures same { KeepsNumberAndInput self.old self.new }
    {
        match self.stack.pop_number() {
            Some(last) => match self.stack.pop_number() {
                Some(first) => match self.frames.address(0, var) {
                    Some(at) => {
                        if has_range(down, first, last) {
                            have!(self.store.store(at, Cell::Ordinal(first)), Outcome::Refused);
                            return self.push_on(Operand::Number(last));
                        }
                        self.pc = to;
                        Outcome::On
                    }
                    None => unreachable!(),
                },
                None => unreachable!(),
            },
            None => unreachable!(),
        }
    }

    // Goes on with the next value of a loop, or leaves it.
    #[inline(always)]
    pub(crate) fn go_on_loop(
        &mut self,
        down: bool,
        var: u32,
        to: u32,
        code: &Code,
        limits: &Limits,
    ) -> Outcome
        requires next { self.old.pc + 1 < 4294967296 }
        requires safe { ends_loop (memory plain (code_run_of self.old code.now limits.now)) code.now down var to
            self.old.pc
            (entries_of self.old.stack) (memory_of self.old) ≢ Stuck }
        ensures came { CameBy (ends_loop (memory plain (code_run_of self.old code.now limits.now)) code.now down var
            to self.old.pc (entries_of self.old.stack) (memory_of self.old)) self.old self.new result }
        ensures same { KeepsNumberAndInput self.old self.new }
    {
        match self.stack.top_number() {
            Some(last) => match self.frames.address(0, var) {
                Some(at) => match self.store.load(at) {
                    Cell::Ordinal(value) => {
                        if has_next(down, value, last) {
                            let next = following(down, value, last);
                            have!(self.store.store(at, Cell::Ordinal(next)), Outcome::Refused);
                            self.pc = to;
                            return Outcome::On;
                        }
                        match self.stack.pop_number() {
                            Some(_) => {}
                            None => unreachable!(),
                        }
                        self.pc += 1;
                        Outcome::On
                    }
                    Cell::Undefined | Cell::Channel(_) => Outcome::Fault(Fault::F4),
                },
                None => unreachable!(),
            },
            None => unreachable!(),
        }
    }
}
