//! The instructions on ordinals: constants, conversions, ranges, successors, operators and comparison.

ghost use Rattle.std.specs.Prelude.{◌≡◌, ◌≢◌, ◌+◌, ◌<◌, Some};
ghost use Rattle.sp_code.specs.Machine.{Stuck, on_two, on_one};
ghost use Rattle.sp_code.specs.Memory.{memory};
ghost use Rattle.sp_code.specs.PlainStore.{plain};
ghost use Rattle.sp_code.specs.declared.instr.Instr.TheVariants as instr;
ghost use Rattle.sp_machine.specs.OperatorResults.{operator_result};
ghost use Rattle.sp_machine.specs.StackEntries.{entries_of};
ghost use Rattle.sp_machine.specs.Procs.{equality_step, does, CameBy, KeepsNumberAndInput, code_run_of, memory_of};
ghost use Rattle.sp_machine.specs.Conversions.{conversion_result};

use crate::have;
use crate::operators::{
    absolute_of, binary, next_of, odd, previous_of, square_of, truth_of, unary, within,
};
use crate::stack::Operand;
use crate::state::{Outcome, State};
use sp_base::{Fault, Limits};
use sp_code::{Code, Instr};
use sp_tree::{BinaryOp, UnaryOp};

/// An operation on one ordinal.
#[derive(Clone, Copy)]
pub(crate) enum Conversion {
    Negative,
    Absolute,
    Square,
    Odd,
    Not,
}

/// What it gives, or the fault.
fn convert(conversion: Conversion, n: i64) -> Result<i64, Fault>
    ensures { operator_result result ≡ conversion_result conversion n }
{
    match conversion {
        Conversion::Negative => unary(UnaryOp::Minus, n),
        Conversion::Absolute => absolute_of(n),
        Conversion::Square => square_of(n),
        Conversion::Odd => odd(n),
        Conversion::Not => unary(UnaryOp::Not, n),
    }
}

impl State {
    // Pushes an ordinal.
    #[inline(always)]
    pub(crate) fn constant(&mut self, value: i64, code: &Code, limits: &Limits) -> Outcome
        requires { self.old.pc + 1 < 4294967296 }
        ensures came { CameBy (does (Some (instr.Const value)) self.old code.now limits.now) self.old self.new result }
        ensures same { KeepsNumberAndInput self.old self.new }
    {
        have!(self.stack.push(Operand::Number(value)), Outcome::Refused);
        self.pc += 1;
        Outcome::On
    }

    // What an operation makes of the ordinal on top.
    pub(crate) fn convert(
        &mut self,
        conversion: Conversion,
        code: &Code,
        limits: &Limits,
    ) -> Outcome
        requires next { self.old.pc + 1 < 4294967296 }
        requires safe { on_one (memory plain (code_run_of self.old code.now limits.now)) code.now
            (conversion_result conversion)
            self.old.pc
            (entries_of self.old.stack) (memory_of self.old) ≢ Stuck }
        ensures came { CameBy (on_one (memory plain (code_run_of self.old code.now limits.now)) code.now
            (conversion_result conversion) self.old.pc (entries_of self.old.stack) (memory_of self.old)) self.old
            self.new result }
        ensures same { KeepsNumberAndInput self.old self.new }
    {
        match self.stack.top_number() {
            Some(n) => match convert(conversion, n) {
                Ok(value) => {
                    self.stack.put(Operand::Number(value));
                    self.pc += 1;
                    Outcome::On
                }
                Err(fault) => Outcome::Fault(fault),
            },
            None => unreachable!(),
        }
    }

    // The same number, the next or the one before, where it is within the bounds of the instruction.
    pub(crate) fn bounded(&mut self, this: Instr, code: &Code, limits: &Limits) -> Outcome
        requires next { self.old.pc + 1 < 4294967296 }
        requires safe { does (Some this) self.old code.now limits.now ≢ Stuck }
        ensures came { CameBy (does (Some this) self.old code.now limits.now) self.old self.new result }
        ensures same { KeepsNumberAndInput self.old self.new }
    {
        match this {
            Instr::Range { low, high } => match self.stack.top_number() {
                Some(n) => match within(low, high, n) {
                    Ok(value) => {
                        self.stack.put(Operand::Number(value));
                        self.pc += 1;
                        Outcome::On
                    }
                    Err(fault) => Outcome::Fault(fault),
                },
                None => unreachable!(),
            },
            Instr::Succ(high) => match self.stack.top_number() {
                Some(n) => match next_of(high, n) {
                    Ok(value) => {
                        self.stack.put(Operand::Number(value));
                        self.pc += 1;
                        Outcome::On
                    }
                    Err(fault) => Outcome::Fault(fault),
                },
                None => unreachable!(),
            },
            Instr::Pred(low) => match self.stack.top_number() {
                Some(n) => match previous_of(low, n) {
                    Ok(value) => {
                        self.stack.put(Operand::Number(value));
                        self.pc += 1;
                        Outcome::On
                    }
                    Err(fault) => Outcome::Fault(fault),
                },
                None => unreachable!(),
            },
            // No other instruction comes here.
            _ => Outcome::Refused,
        }
    }

    // What an operator makes of two ordinals.
    #[inline(always)]
    pub(crate) fn operate(&mut self, op: BinaryOp, code: &Code, limits: &Limits) -> Outcome
        requires next { self.old.pc + 1 < 4294967296 }
        requires safe { on_two (memory plain (code_run_of self.old code.now limits.now)) code.now op self.old.pc
            (entries_of self.old.stack) (memory_of self.old) ≢ Stuck }
        ensures came { CameBy (on_two (memory plain (code_run_of self.old code.now limits.now)) code.now op
            self.old.pc (entries_of self.old.stack) (memory_of self.old)) self.old self.new result }
        ensures same { KeepsNumberAndInput self.old self.new }
    {
        match self.stack.pop_number() {
            Some(n) => match self.stack.top_number() {
                Some(m) => match binary(op, m, n) {
                    Ok(value) => {
                        self.stack.put(Operand::Number(value));
                        self.pc += 1;
                        Outcome::On
                    }
                    Err(fault) => self.fail_number(n, fault),
                },
                None => unreachable!(),
            },
            None => unreachable!(),
        }
    }

    // Whether two ordinals or two channels are equal, or whether they are different.
    #[inline(always)]
    pub(crate) fn equals(&mut self, different: bool, code: &Code, limits: &Limits) -> Outcome
        requires next { self.old.pc + 1 < 4294967296 }
        requires safe { equality_step different self.old code.now limits.now ≢ Stuck }
        ensures came { CameBy (equality_step different self.old code.now limits.now) self.old self.new result }
        ensures same { KeepsNumberAndInput self.old self.new }
    {
        let equal = match self.stack.pop() {
            Some(Operand::Number(n)) => match self.stack.pop_number() {
                Some(m) => m == n,
                None => unreachable!(),
            },
            Some(Operand::Channel(d)) => match self.stack.pop_channel() {
                Some(c) => c == d,
                None => unreachable!(),
            },
            _ => unreachable!(),
        };
        let told = if different { !equal } else { equal };
        have!(
            self.stack.push(Operand::Number(truth_of(told))),
            Outcome::Refused
        );
        self.pc += 1;
        Outcome::On
    }
}
