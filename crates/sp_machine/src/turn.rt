//! A turn of a process: its instructions one after another, up to the next stop.

ghost use Rattle.std.specs.Prelude.{◌≡◌, ◌≢◌, ◌+◌, ◌<◌, ◌∷◌, IfOk, IfSome, IsTrue, IsFalse, Some, slice_get};
ghost use Rattle.sp_code.specs.Formals.{HaveFormals};
ghost use Rattle.sp_code.specs.Machine.{Stuck, Goes, Pointer, instruction};
ghost use Rattle.sp_code.specs.Memory.{memory};
ghost use Rattle.sp_code.specs.PlainStore.{plain};
ghost use Rattle.sp_code.specs.declared.instr.Instr.TheVariants as instr;
ghost use Rattle.sp_code.specs.Sound.{HasDistinctBlocks};
ghost use Rattle.sp_machine.specs.StackEntries.{entries_of};
ghost use Rattle.sp_machine.specs.Procs.{CameBy, KeepsNumberAndInput, next_of, CanTurn, IsRankedFrom};
ghost use Rattle.sp_machine.specs.Procs.{IsTurnOf};
ghost use Rattle.sp_machine.specs.Procs.{IsSafeThen, WentTwice, Proceeded, config_of, memory_of, code_run_of};

use crate::arithmetic::Conversion;
use crate::have;
use crate::io::{Item, Shown};
use crate::stack::Operand;
use crate::state::{Outcome, State, Stop};
use sp_base::{Fault, Limits, Memory};
use sp_cell::{Address, Cell};
use sp_code::{Code, Instr};
use sp_tree::BinaryOp;
use std::mem;

// The instruction of this number.
#[inline(always)]
fn instruction_at(code: &Code, at: usize) -> Option<Instr>
    ensures value { result ≡ slice_get code.now.instrs at }
    ensures room { IfSome result (λ _. at + 1 < 4294967296) }
{
    let instrs = &code.parts().instrs;
    if at < instrs.len() {
        return instrs.get(at).copied();
    }
    None
}

impl State {
    /// The instruction that comes next.
    #[inline(always)]
    fn fetch(&self, code: &Code) -> Option<Instr>
        ensures value { result ≡ slice_get code.now.instrs self.now.pc }
        ensures room { IfSome result (λ _. self.now.pc + 1 < 4294967296) }
    {
        instruction_at(code, self.pc as usize)
    }

    /// The next instruction: the process goes on, or its turn ends. The instructions that loops run most stand in the
    /// turn itself.
    ///
    /// A new instruction joins the list of `any_step`, which has all. It joins this one too only if loops run it often:
    /// each one more makes the turn longer.
    #[inline(always)]
    fn step(&mut self, code: &Code, limits: &Limits) -> Outcome
        requires blocks { HasDistinctBlocks code.now.layouts }
        requires formals { HaveFormals code.now.layouts }
        requires safe { next_of self.old code.now limits.now ≢ Stuck }
        ensures came { CameBy (next_of self.old code.now limits.now) self.old self.new result }
        ensures same { KeepsNumberAndInput self.old self.new }
    {
        let Some(instr) = self.fetch(code) else {
            unreachable!()
        };
        match instr {
            Instr::Const(value) => self.constant(value, code, limits),
            Instr::Addr { up, var } => self.address(up, var, code, limits),
            Instr::Deref { up, var } => self.reference(up, var, code, limits),
            Instr::Index { low, high, size } => self.element(low, high, size, code, limits),
            Instr::Load => self.load(code, limits),
            Instr::Store => self.assign(code, limits),
            Instr::Add => self.operate(BinaryOp::Add, code, limits),
            Instr::Sub => self.operate(BinaryOp::Sub, code, limits),
            Instr::Mul => self.operate(BinaryOp::Mul, code, limits),
            Instr::Div => self.operate(BinaryOp::Div, code, limits),
            Instr::Mod => self.operate(BinaryOp::Mod, code, limits),
            Instr::Eq => self.equals(false, code, limits),
            Instr::Ne => self.equals(true, code, limits),
            Instr::Lt => self.operate(BinaryOp::Lt, code, limits),
            Instr::Le => self.operate(BinaryOp::Le, code, limits),
            Instr::Gt => self.operate(BinaryOp::Gt, code, limits),
            Instr::Ge => self.operate(BinaryOp::Ge, code, limits),
            Instr::Jump(to) => {
                self.pc = to;
                Outcome::On
            }
            Instr::Jumpf(to) => self.jump_false(to, code, limits),
            Instr::Tick => self.tick(code, limits),
            Instr::Nextup { var, to } => self.go_on_loop(false, var, to, code, limits),
            Instr::Nextdown { var, to } => self.go_on_loop(true, var, to, code, limits),
            _ => self.any_step(code, limits),
        }
    }

    /// The next instruction, whichever it is: all of them stand here.
    #[inline(never)]
    fn any_step(&mut self, code: &Code, limits: &Limits) -> Outcome
        requires blocks { HasDistinctBlocks code.now.layouts }
        requires formals { HaveFormals code.now.layouts }
        requires safe { next_of self.old code.now limits.now ≢ Stuck }
        ensures came { CameBy (next_of self.old code.now limits.now) self.old self.new result }
        ensures same { KeepsNumberAndInput self.old self.new }
    {
        let Some(instr) = self.fetch(code) else {
            unreachable!()
        };
        match instr {
            Instr::Const(value) => self.constant(value, code, limits),
            Instr::Addr { up, var } => self.address(up, var, code, limits),
            Instr::Deref { up, var } => self.reference(up, var, code, limits),
            Instr::Index { low, high, size } => self.element(low, high, size, code, limits),
            Instr::Field(cells) => self.field(cells, code, limits),
            Instr::Load => self.load(code, limits),
            Instr::Loadc => self.load_channel(code, limits),
            Instr::Store => self.assign(code, limits),
            Instr::Copy(cells) => self.copy(cells, code, limits),
            Instr::Add => self.operate(BinaryOp::Add, code, limits),
            Instr::Sub => self.operate(BinaryOp::Sub, code, limits),
            Instr::Mul => self.operate(BinaryOp::Mul, code, limits),
            Instr::Div => self.operate(BinaryOp::Div, code, limits),
            Instr::Mod => self.operate(BinaryOp::Mod, code, limits),
            Instr::Neg => self.convert(Conversion::Negative, code, limits),
            Instr::Abs => self.convert(Conversion::Absolute, code, limits),
            Instr::Sqr => self.convert(Conversion::Square, code, limits),
            Instr::Odd => self.convert(Conversion::Odd, code, limits),
            Instr::And => self.operate(BinaryOp::And, code, limits),
            Instr::Or => self.operate(BinaryOp::Or, code, limits),
            Instr::Not => self.convert(Conversion::Not, code, limits),
            Instr::Eq => self.equals(false, code, limits),
            Instr::Ne => self.equals(true, code, limits),
            Instr::Lt => self.operate(BinaryOp::Lt, code, limits),
            Instr::Le => self.operate(BinaryOp::Le, code, limits),
            Instr::Gt => self.operate(BinaryOp::Gt, code, limits),
            Instr::Ge => self.operate(BinaryOp::Ge, code, limits),
            Instr::Range { .. } => self.bounded(instr, code, limits),
            Instr::Succ(_) => self.bounded(instr, code, limits),
            Instr::Pred(_) => self.bounded(instr, code, limits),
            Instr::Jump(to) => {
                self.pc = to;
                Outcome::On
            }
            Instr::Jumpf(to) => self.jump_false(to, code, limits),
            Instr::Casej { value, to } => self.jump_equal(value, to, code, limits),
            Instr::Nocase => Outcome::Fault(Fault::F9),
            Instr::Tick => self.tick(code, limits),
            Instr::Assume => self.assume(code, limits),
            Instr::Forup { var, to } => self.begin_loop(false, var, to, code, limits),
            Instr::Fordown { var, to } => self.begin_loop(true, var, to, code, limits),
            Instr::Nextup { var, to } => self.go_on_loop(false, var, to, code, limits),
            Instr::Nextdown { var, to } => self.go_on_loop(true, var, to, code, limits),
            Instr::Call { block, up } => self.call(block, up, code, limits),
            Instr::Return => self.give_back(code, limits),
            Instr::ReadInt => self.read(Item::Number, code, limits),
            Instr::ReadChar => self.read(Item::Char, code, limits),
            Instr::Readln => self.read_line(code, limits),
            Instr::Eof => self.is_over(false, code, limits),
            Instr::Eoln => self.is_over(true, code, limits),
            Instr::WriteInt => self.write(Shown::Number, code, limits),
            Instr::WriteChar => self.write(Shown::Char, code, limits),
            Instr::WriteBool => self.write(Shown::Truth, code, limits),
            Instr::WriteText(number) => self.write_text(number, code, limits),
            Instr::WritewInt => self.write_wide(Shown::Number, code, limits),
            Instr::WritewChar => self.write_wide(Shown::Char, code, limits),
            Instr::WritewBool => self.write_wide(Shown::Truth, code, limits),
            Instr::WritewText(number) => self.write_text_wide(number, code, limits),
            Instr::Writeln => self.print(b"\n", code, limits),
            Instr::Pack(cells) => self.pack(cells, code, limits),
            Instr::Open => self.open(code, limits),
            Instr::Send(message) => self.send(message, code, limits),
            Instr::Receive(message) => self.receive(message, code, limits),
            Instr::Fork(table) => self.fork(table, code, limits),
            Instr::Forall(table) => self.fork_all(table, code, limits),
            Instr::End => {
                self.stopped = Stop::End;
                Outcome::Stop
            }
        }
    }

    /// Pushes the ordinal at an address that is loaded as soon as it is pushed. `false` where there is none; then
    /// nothing is done.
    #[inline(always)]
    fn push_at(&mut self, at: Address, code: &Code, limits: &Limits) -> Result<bool, Memory>
        requires next { self.old.pc + 1 + 1 < 4294967296 }
        requires safe { instruction (memory plain (code_run_of self.old code.now limits.now)) code.now (Some instr.Load)
            (self.old.pc + 1)
            (Pointer at ∷ entries_of self.old.stack) (memory_of self.old) ≢ Stuck }
        ensures done { IfOk result (λ b. IsTrue b
            → instruction (memory plain (code_run_of self.old code.now limits.now)) code.now (Some instr.Load)
            (self.old.pc + 1) (Pointer at ∷ entries_of self.old.stack) (memory_of self.old)
            ≡ Goes (config_of self.new)) }
        ensures not { IfOk result (λ b. IsFalse b → self.new ≡ self.old) }
        ensures same { KeepsNumberAndInput self.old self.new }
    {
        match self.store.load(at) {
            Cell::Ordinal(value) => {
                have!(self.stack.push(Operand::Number(value)));
                self.pc += 1;
                self.pc += 1;
                Ok(true)
            }
            Cell::Undefined | Cell::Channel(_) => Ok(false),
        }
    }

    /// Pushes what a variable holds, where its address is pushed next and loaded then. Else nothing is done.
    #[tactic(auto, using(crate::proofs::TurnSteps::at_address, crate::proofs::TurnSteps::safe_load, crate::proofs::TurnSteps::loaded_both))]
    #[inline(always)]
    fn push_loaded(
        &mut self,
        up: u32,
        var: u32,
        code: &Code,
        limits: &Limits,
    ) -> Result<bool, Memory>
        requires next { slice_get code.now.instrs self.old.pc ≡ Some (instr.Addr up var) }
        requires safe { next_of self.old code.now limits.now ≢ Stuck }
        requires then { IsSafeThen self.old code.now limits.now }
        ensures done { IfOk result (λ b. IsTrue b → WentTwice self.old code.now limits.now self.new) }
        ensures not { IfOk result (λ b. IsFalse b → self.new ≡ self.old) }
        ensures same { KeepsNumberAndInput self.old self.new }
    {
        match instruction_at(code, self.pc as usize + 1) {
            Some(Instr::Load) => {}
            _ => return Ok(false),
        }
        match self.frames.address(up, var) {
            Some(at) => self.push_at(at, code, limits),
            None => unreachable!(),
        }
    }

    /// The next instruction, or two of them at once.
    #[tactic(auto, using(crate::proofs::TurnSteps::once))]
    #[inline(always)]
    fn proceed(&mut self, code: &Code, limits: &Limits) -> Outcome
        requires blocks { HasDistinctBlocks code.now.layouts }
        requires formals { HaveFormals code.now.layouts }
        requires safe { next_of self.old code.now limits.now ≢ Stuck }
        requires then { IsSafeThen self.old code.now limits.now }
        ensures came { Proceeded self.old code.now limits.now self.new result }
        ensures same { KeepsNumberAndInput self.old self.new }
    {
        match self.fetch(code) {
            Some(Instr::Addr { up, var }) => {
                if have!(self.push_loaded(up, var, code, limits), Outcome::Refused) {
                    return Outcome::On;
                }
            }
            _ => {}
        }
        self.step(code, limits)
    }

    /// Runs the process to its next stop.
    pub(crate) fn turn(&mut self, code: &Code, limits: &Limits) -> Stop
        requires ranked { IsRankedFrom self.old code.now limits.now }
        requires blocks { HasDistinctBlocks code.now.layouts }
        requires formals { HaveFormals code.now.layouts }
        requires safe { CanTurn self.old code.now limits.now }
        ensures turn { IsTurnOf self.old code.now limits.now self.new result }
        ensures same { KeepsNumberAndInput self.old self.new }
    {
        if self.cells > u64::from(limits.cells) {
            return Stop::Fault(Fault::F12);
        }
        loop {
            match self.proceed(code, limits) {
                Outcome::On => {}
                Outcome::Pause => return Stop::Pause,
                Outcome::Fault(fault) => return Stop::Fault(fault),
                Outcome::Stop => return mem::replace(&mut self.stopped, Stop::End),
                Outcome::Refused => return Stop::Memory,
            }
        }
    }
}
