//! The instructions that call blocks and return from them.

ghost use Rattle.std.specs.Prelude.{◌≡◌, ◌≢◌, ◌+◌, ◌<◌, ◌≤◌, ◌∷◌, [], IfOk, OnOk, Some, true, length, sum, reverse};
ghost use Rattle.std.specs.Prelude.{take, drop};
ghost use Rattle.sp_cell.specs.Frame.{HasNextFrame};
ghost use Rattle.sp_code.specs.Formals.{HaveFormals, BeginsWithFormals};
ghost use Rattle.sp_code.specs.Machine.{Stuck, enter_step, call_step, fit_formals};
ghost use Rattle.sp_code.specs.Memory.{memory, can_pop, references, with_arguments, memory_after_call, without_frame};
ghost use Rattle.sp_code.specs.PlainStore.{plain};
ghost use Rattle.sp_code.specs.Sound.{HasDistinctBlocks};
ghost use Rattle.sp_code.specs.declared.instr.Instr.TheVariants as instr;
ghost use Rattle.sp_machine.specs.Arguments.{TakeAll};
ghost use Rattle.sp_machine.specs.StackEntries.{entries_of};
ghost use Rattle.sp_machine.specs.Procs.{does, CameBy, KeepsNumberAndInput, code_run_of, memory_of};

use crate::frames::{Frame, Home};
use crate::have;
use crate::layouts::{answer_of, cells_of, cells_of_home, layout_of};
use crate::stack::{Operand, pointer_in};
use crate::state::{Outcome, State};
use sp_base::{Fault, Limits, List, Memory};
use sp_cell::{Address, Cell, Spot};
use sp_code::{Code, Layout};
use sp_store::Store;
use std::alloc::Global;

/// The addresses among arguments, by the numbers of their parameters.
#[tactic(auto, using(crate::proofs::CallLaws::references_pointer, crate::proofs::CallLaws::references_other, crate::proofs::CallLaws::references_end))]
fn references(alloc: Global, arguments: &[Operand]) -> Result<List<(u32, Address)>, Memory>
    requires { length arguments.now ≤ 4294967295 }
    ensures { IfOk result (λ found. found ≡ references 0 (entries_of arguments.now)) }
{
    let mut found = List::new(alloc);
    let mut k = 0u32;
    for argument in arguments {
        if let Some(at) = pointer_in(argument) {
            have!(found.push((k, at)));
        }
        k += 1;
    }
    Ok(found)
}

/// Puts the arguments by value into the variables of a frame.
#[tactic(auto, using(crate::proofs::CallLaws::fill_step, crate::proofs::CallLaws::take_step, crate::proofs::CallLaws::take_here, crate::proofs::CallLaws::fill_end))]
fn fill(store: &mut Store, frame: u64, arguments: &[Operand]) -> Result<(), Memory>
    requires few { length arguments.now ≤ 4294967295 }
    requires take { TakeAll store.old.map frame 0 (entries_of arguments.now) }
    ensures { OnOk result (store.new ≡ with_arguments plain frame 0 (entries_of arguments.now) store.old) }
{
    let mut k = 0u32;
    for argument in arguments {
        have!(fill_one(store, frame, k, argument));
        k += 1;
    }
    Ok(())
}

/// Puts an argument by value into a variable.
#[tactic(auto, using(sp_code::proofs::StoreLaws::cells_same, crate::proofs::CallLaws::own_has))]
fn fill_one(store: &mut Store, frame: u64, variable: u32, argument: &Operand) -> Result<(), Memory>
    requires { TakeAll store.old.map frame variable (entries_of (argument.now ∷ [])) }
    ensures { OnOk result (store.new ≡ with_arguments plain frame variable (entries_of (argument.now ∷ [])) store.old) }
{
    let at = Address {
        spot: Spot { frame, variable },
        offset: 0,
    };
    match argument {
        Operand::Number(value) => store.store(at, Cell::Ordinal(*value)),
        Operand::Channel(channel) => store.store(at, Cell::Channel(*channel)),
        Operand::Cells(cells) => {
            store.put(at, cells);
            Ok(())
        }
        Operand::Pointer(_) | Operand::Link(_) | Operand::Reply(_) => Ok(()),
    }
}

impl State {
    /// Opens a frame for a block with the arguments on the stack, which go.
    #[tactic(auto, using(crate::proofs::CallLaws::take_all))]
    fn open_frame(
        &mut self,
        layout: &Layout,
        up: u32,
        cells: u64,
        code: &Code,
        limits: &Limits,
    ) -> Result<(), Memory>
        requires sizes { length layout.now.sizes ≤ 4294967294 }
        requires formals { BeginsWithFormals layout.now }
        requires few { length layout.now.formals ≤ length layout.now.sizes }
        requires arguments { length layout.now.formals ≤ length self.old.stack }
        requires fit { fit_formals layout.now.formals
            (entries_of (reverse (take (length layout.now.formals) self.old.stack))) ≡ true }
        requires number { HasNextFrame self.old.store }
        requires cells { cells ≡ sum layout.now.sizes }
        requires ticks { self.old.ticks + 1 < 18446744073709551616 }
        requires depth { self.old.depth + 1 < 4294967296 }
        requires total { self.old.cells + cells < 18446744073709551616 }
        ensures opened { OnOk result (memory_of self.new
            ≡ memory_after_call plain (code_run_of self.old code.now limits.now) layout.now up
            (entries_of (reverse (take (length layout.now.formals) self.old.stack))) (memory_of self.old)) }
        ensures stack { OnOk result (self.new.stack ≡ drop (length layout.now.formals) self.old.stack) }
        ensures place { self.new.pc ≡ self.old.pc }
        ensures same { KeepsNumberAndInput self.old self.new }
    {
        let count = layout.formals.len();
        let link = self.frames.level(up);
        let arguments = self.stack.top(count);
        let number = have!(self.store.push_frame(layout.sizes.items()));
        have!(fill(&mut self.store, number, arguments));
        let references = have!(references(*self.text.allocator(), arguments));
        let frame = Frame {
            owner: self.number,
            number,
            home: Home::Block(layout.block),
            link,
            references,
        };
        have!(self.frames.push(frame));
        self.stack.drop_top(count);
        self.depth += 1;
        self.ticks += 1;
        self.cells += cells;
        Ok(())
    }

    /// Goes to the first instruction of a block that was called.
    fn enter_block(&mut self, layout: &Layout, to: u32, code: &Code, limits: &Limits) -> Outcome
        ensures came { CameBy (enter_step (memory plain (code_run_of self.old code.now limits.now)) code.now
            layout.now to (entries_of self.old.stack) (memory_of self.old)) self.old self.new result }
        ensures same { KeepsNumberAndInput self.old self.new }
    {
        self.pc = layout.entry;
        if layout.answer {
            have!(self.stack.push(Operand::Reply(to)), Outcome::Refused);
            return Outcome::On;
        }
        have!(self.stack.push(Operand::Link(to)), Outcome::Refused);
        if self.stack.is_outside() && self.is_due() {
            return Outcome::Pause;
        }
        Outcome::On
    }

    /// Calls a block.
    fn call_block(&mut self, layout: &Layout, up: u32, code: &Code, limits: &Limits) -> Outcome
        requires next { self.old.pc + 1 < 4294967296 }
        requires sizes { length layout.now.sizes ≤ 4294967294 }
        requires formals { BeginsWithFormals layout.now }
        requires few { length layout.now.formals ≤ length layout.now.sizes }
        requires safe { call_step (memory plain (code_run_of self.old code.now limits.now)) code.now layout.now up
            (self.old.pc + 1)
            (entries_of self.old.stack) (memory_of self.old) ≢ Stuck }
        ensures came { CameBy (call_step (memory plain (code_run_of self.old code.now limits.now)) code.now
            layout.now up (self.old.pc + 1) (entries_of self.old.stack) (memory_of self.old)) self.old self.new
            result }
        ensures same { KeepsNumberAndInput self.old self.new }
    {
        if self.ticks >= limits.ticks {
            return Outcome::Fault(Fault::F10);
        }
        if self.depth >= limits.depth {
            return Outcome::Fault(Fault::F11);
        }
        let cells = cells_of(layout.sizes.items());
        if self.cells as u128 + cells as u128 > limits.cells as u128 {
            return Outcome::Fault(Fault::F12);
        }
        have!(
            self.open_frame(layout, up, cells, code, limits),
            Outcome::Refused
        );
        let to = self.pc + 1;
        self.enter_block(layout, to, code, limits)
    }

    // Calls a block.
    #[tactic(auto, using(crate::proofs::LayoutLookups::few_sizes, crate::proofs::LayoutLookups::few_formals))]
    pub(crate) fn call(&mut self, block: u32, up: u32, code: &Code, limits: &Limits) -> Outcome
        requires next { self.old.pc + 1 < 4294967296 }
        requires blocks { HasDistinctBlocks code.now.layouts }
        requires formals { HaveFormals code.now.layouts }
        requires safe { does (Some (instr.Call block up)) self.old code.now limits.now ≢ Stuck }
        ensures came { CameBy (does (Some (instr.Call block up)) self.old code.now limits.now) self.old self.new
            result }
        ensures same { KeepsNumberAndInput self.old self.new }
    {
        let _parts = code.parts();
        match layout_of(code, block) {
            Some(layout) => self.call_block(layout, up, code, limits),
            None => unreachable!(),
        }
    }

    /// The newest frame goes.
    #[tactic(auto, using(sp_code::proofs::StoreLaws::may_go))]
    fn close_frame(&mut self, code: &Code, limits: &Limits)
        requires blocks { HasDistinctBlocks code.now.layouts }
        requires may { can_pop plain (code_run_of self.old code.now limits.now) self.old.frames self.old.store ≡ true }
        ensures closed { memory_of self.new ≡ without_frame plain (code_run_of self.old code.now limits.now)
            self.old.frames (memory_of self.old) }
        ensures rest { (self.new.stack ≡ self.old.stack) × (self.new.pc ≡ self.old.pc) }
        ensures same { KeepsNumberAndInput self.old self.new }
    {
        let (_number, home) = self.frames.newest();
        let cells = cells_of_home(code, home);
        self.store.pop_frame();
        self.frames.drop_newest();
        self.depth = self.depth.saturating_sub(1);
        self.cells = self.cells.saturating_sub(cells);
    }

    // Returns from a block.
    #[tactic(auto, using(sp_code::proofs::StoreLaws::has_held))]
    pub(crate) fn give_back(&mut self, code: &Code, limits: &Limits) -> Outcome
        requires blocks { HasDistinctBlocks code.now.layouts }
        requires formals { HaveFormals code.now.layouts }
        requires safe { does (Some instr.Return) self.old code.now limits.now ≢ Stuck }
        ensures came { CameBy (does (Some instr.Return) self.old code.now limits.now) self.old self.new result }
        ensures same { KeepsNumberAndInput self.old self.new }
    {
        match self.stack.pop() {
            Some(Operand::Link(to)) => {
                self.close_frame(code, limits);
                self.pc = to;
                Outcome::On
            }
            Some(Operand::Reply(to)) => {
                let (frame, home) = self.frames.newest();
                match answer_of(code, frame, home) {
                    Some(at) => match self.store.load(at) {
                        Cell::Ordinal(value) => {
                            self.close_frame(code, limits);
                            have!(self.stack.push(Operand::Number(value)), Outcome::Refused);
                            self.pc = to;
                            Outcome::On
                        }
                        Cell::Undefined | Cell::Channel(_) => self.fail(
                            Operand::Reply(to),
                            Fault::F4,
                        ),
                    },
                    None => unreachable!(),
                }
            }
            _ => unreachable!(),
        }
    }
}
