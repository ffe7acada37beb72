//! Instructions at which a turn stops: opens, sends, receives and forks.

ghost use Rattle.std.specs.Prelude.{◌≡◌, ◌≢◌, ◌+◌, ◌<◌, ◌≤◌, ◌∷◌, [], IfOk, Some, true, int_le, pos, ◌+ℤ◌};
ghost use Rattle.std.specs.Prelude.{◌≤ℤ◌};
ghost use Rattle.sp_code.specs.Machine.{Stuck, At, Forks, values_in};
ghost use Rattle.sp_code.specs.declared.instr.Instr.TheVariants as instr;
ghost use Rattle.sp_machine.specs.Procs.{does, CameBy, KeepsNumberAndInput, StopIs, config_of, memory_of};
ghost use Rattle.sp_machine.specs.StackEntries.{entries_of};

use crate::have;
use crate::stack::Operand;
use crate::state::{Outcome, State, Stop};
use sp_base::{Fault, Limits, List, Memory};
use sp_cell::Cell;
use sp_code::Code;

/// How many values a range has, or `u64::MAX` where it has more.
fn count_values(first: i64, last: i64) -> u64
    requires { int_le first last ≡ true }
    ensures count { result ≡ values_in first last }
    ensures last { (first +ℤ pos result) ≤ℤ pos 9223372036854775808 }
{
    last.abs_diff(first).saturating_add(1)
}

impl State {
    // Stops to open a channel.
    pub(crate) fn open(&mut self, code: &Code, limits: &Limits) -> Outcome
        requires next { self.old.pc + 1 < 4294967296 }
        requires safe { does (Some instr.Open) self.old code.now limits.now ≢ Stuck }
        ensures came { CameBy (does (Some instr.Open) self.old code.now limits.now) self.old self.new result }
        ensures same { KeepsNumberAndInput self.old self.new }
    {
        match self.stack.pop_pointer() {
            Some(at) => {
                have!(self.store.make_own(at.spot), Outcome::Refused);
                self.target = at;
                self.pc += 1;
                self.stopped = Stop::Open;
                Outcome::Stop
            }
            None => unreachable!(),
        }
    }

    // Stops to send a message.
    pub(crate) fn send(&mut self, message: u32, code: &Code, limits: &Limits) -> Outcome
        requires next { self.old.pc + 1 < 4294967296 }
        requires safe { does (Some (instr.Send message)) self.old code.now limits.now ≢ Stuck }
        ensures came { CameBy (does (Some (instr.Send message)) self.old code.now limits.now) self.old self.new result }
        ensures same { KeepsNumberAndInput self.old self.new }
    {
        let cells = match self.stack.pop() {
            Some(Operand::Number(value)) => have!(
                self.one_cell(Cell::Ordinal(value)),
                Outcome::Refused
            ),
            Some(Operand::Channel(channel)) => have!(
                self.one_cell(Cell::Channel(channel)),
                Outcome::Refused
            ),
            Some(Operand::Cells(cells)) => cells,
            _ => unreachable!(),
        };
        match self.stack.pop_channel() {
            Some(channel) => {
                self.pc += 1;
                self.stopped = Stop::Send {
                    channel,
                    message,
                    cells,
                };
                Outcome::Stop
            }
            None => unreachable!(),
        }
    }

    // A message of one cell.
    fn one_cell(&self, cell: Cell) -> Result<List<Cell>, Memory>
        ensures { IfOk result (λ cells. cells ≡ cell ∷ []) }
    {
        let mut cells = List::new(*self.text.allocator());
        have!(cells.push(cell));
        Ok(cells)
    }

    // Stops to receive a message.
    pub(crate) fn receive(&mut self, message: u32, code: &Code, limits: &Limits) -> Outcome
        requires next { self.old.pc + 1 < 4294967296 }
        requires safe { does (Some (instr.Receive message)) self.old code.now limits.now ≢ Stuck }
        ensures came { CameBy (does (Some (instr.Receive message)) self.old code.now limits.now) self.old self.new
            result }
        ensures same { KeepsNumberAndInput self.old self.new }
    {
        match self.stack.pop_pointer() {
            Some(at) => match self.stack.pop_channel() {
                Some(channel) => {
                    have!(self.store.make_own(at.spot), Outcome::Refused);
                    self.target = at;
                    self.pc += 1;
                    self.stopped = Stop::Receive { channel, message };
                    Outcome::Stop
                }
                None => unreachable!(),
            },
            None => unreachable!(),
        }
    }

    // Stops to start the children of a fork table.
    pub(crate) fn fork(&mut self, table: u32, code: &Code, limits: &Limits) -> Outcome
        requires next { self.old.pc + 1 < 4294967296 }
        requires safe { does (Some (instr.Fork table)) self.old code.now limits.now ≢ Stuck }
        ensures came { CameBy (does (Some (instr.Fork table)) self.old code.now limits.now) self.old self.new result }
        ensures same { KeepsNumberAndInput self.old self.new }
    {
        let most = limits.depth;
        match code.table(table) {
            Some(forks) => {
                if self.depth >= most {
                    return Outcome::Fault(Fault::F11);
                }
                let count = forks.children.items().len() as u64;
                self.stop_at_fork(table, 0, count);
                Outcome::Stop
            }
            None => unreachable!(),
        }
    }

    /// Stops at a fork of so many children, of which the first has this value.
    fn stop_at_fork(&mut self, table: u32, first: i64, count: u64)
        requires next { self.old.pc + 1 < 4294967296 }
        requires deeper { self.old.depth + 1 ≤ 4294967295 }
        requires values { (first +ℤ pos count) ≤ℤ pos 9223372036854775808 }
        ensures stop { StopIs self.new.stopped self.new (Forks table first count) }
        ensures config { config_of self.new ≡ At (self.old.pc + 1) (entries_of self.old.stack) (memory_of self.old) }
        ensures same { KeepsNumberAndInput self.old self.new }
    {
        self.table = table;
        self.first = first;
        self.pc += 1;
        self.stopped = Stop::Fork {
            table,
            first,
            count,
        };
    }

    // Stops to start a child for each value of a range.
    pub(crate) fn fork_all(&mut self, table: u32, code: &Code, limits: &Limits) -> Outcome
        requires next { self.old.pc + 1 < 4294967296 }
        requires safe { does (Some (instr.Forall table)) self.old code.now limits.now ≢ Stuck }
        ensures came { CameBy (does (Some (instr.Forall table)) self.old code.now limits.now) self.old self.new result }
        ensures same { KeepsNumberAndInput self.old self.new }
    {
        let most = limits.depth;
        match self.stack.pop_number() {
            Some(last) => match self.stack.pop_number() {
                Some(first) => {
                    if last < first {
                        self.pc += 1;
                        return Outcome::On;
                    }
                    if self.depth >= most {
                        return self.fail_both(
                            Operand::Number(first),
                            Operand::Number(last),
                            Fault::F11,
                        );
                    }
                    let count = count_values(first, last);
                    self.stop_at_fork(table, first, count);
                    Outcome::Stop
                }
                None => unreachable!(),
            },
            None => unreachable!(),
        }
    }
}
