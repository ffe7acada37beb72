//! The instructions that read the input and write the output.

ghost use Rattle.std.specs.Prelude.{◌≡◌, ◌≢◌, ◌+◌, ◌<◌, ◌++◌, IfOk, OnOk, Some, None, true, pos, take, drop, replicate};
ghost use Rattle.std.specs.Prelude.{if◌then◌else◌};
ghost use Rattle.sp_tree.specs.Items.{right_justified};
ghost use Rattle.sp_cell.specs.declared.cell.Cell.TheVariants.{Ordinal};
ghost use Rattle.sp_cell.specs.Map.{HasCells};
ghost use Rattle.sp_code.specs.Machine.{Stuck, reads, writes, writes_wide, prints};
ghost use Rattle.sp_code.specs.Memory.{memory, is_held, left_after, position_in, position_at, or_zero, put_cell};
ghost use Rattle.sp_code.specs.PlainStore.{plain};
ghost use Rattle.sp_code.specs.declared.instr.Instr.TheVariants as instr;
ghost use Rattle.sp_machine.specs.ReadResults.{read_result_of};
ghost use Rattle.sp_machine.specs.StackEntries.{entries_of};
ghost use Rattle.sp_machine.specs.Procs.{does, over_step, CameBy, KeepsNumberAndInput, code_run_of, memory_of};
ghost use Rattle.sp_machine.specs.Texts.{item_in, text_of, is_cut, Emits};

use crate::have;
use crate::items::{
    ReadResult, byte_of, char_in, cut_to, is_at_line_end, line_length, number_in, truth_text,
};
use crate::operators::truth_of;
use crate::stack::Operand;
use crate::state::{Outcome, State};
use sp_base::{Fault, Limits, Memory, put_signed};
use sp_cell::{Address, Cell, Spot};
use sp_code::Code;
use sp_store::Store;

/// What is read.
#[derive(Clone, Copy)]
pub(crate) enum Item {
    Number,
    Char,
}

/// How a value is written.
#[derive(Clone, Copy)]
pub(crate) enum Shown {
    Number,
    Char,
    Truth,
}

/// An item read.
fn taken(item: Item, bytes: &[u8]) -> ReadResult
    ensures { read_result_of result ≡ item_in item bytes.now }
{
    match item {
        Item::Number => number_in(bytes),
        Item::Char => char_in(bytes),
    }
}

/// Puts the text of a value in place of another text.
fn spell(text: &mut Vec<u8>, shown: Shown, n: i64) -> Result<(), Memory>
    ensures { OnOk result (text.new.items ≡ text_of shown n) }
{
    text.clear();
    match shown {
        Shown::Number => put_signed(text, n),
        Shown::Char => {
            have!(text.push(byte_of(n)));
            Ok(())
        }
        Shown::Truth => {
            have!(text.extend_from_slice(truth_text(n)));
            Ok(())
        }
    }
}

fn cuts(shown: Shown) -> bool
    ensures { result ≡ is_cut shown }
{
    match shown {
        Shown::Number => false,
        Shown::Char => false,
        Shown::Truth => true,
    }
}

/// The bytes from a place on.
#[tactic(auto, using(std::proofs::lemmas::List::drop_all))]
fn bytes_from(bytes: &[u8], from: u64) -> &[u8]
    ensures { result.now ≡ drop from bytes.now }
{
    if from < bytes.len() as u64 {
        return &bytes[from as usize..];
    }
    &bytes[bytes.len()..]
}

/// Where the place in the input stands.
fn input_address() -> Address
    ensures { result ≡ position_at }
{
    Address {
        spot: Spot {
            frame: 0,
            variable: 0,
        },
        offset: 0,
    }
}

/// Writes a text behind so many blanks. `false` where the output would pass its limit; then nothing is written.
#[tactic(auto, using(crate::proofs::OutputBytes::appended_none, crate::proofs::OutputBytes::appended_more, crate::proofs::OutputBytes::appended_held, crate::proofs::OutputBytes::blanks_more, crate::proofs::OutputBytes::length_blanks))]
fn emit(store: &mut Store, blanks: u64, text: &[u8], limits: &Limits) -> Result<bool, Memory>
    requires { is_held (plain.output store.old) ≡ true }
    ensures { IfOk result (λ b. Emits b limits.now.output (replicate blanks 32 ++ text.now) store.old store.new) }
{
    let written = match store.output() {
        Some(bytes) => bytes.len(),
        None => unreachable!(),
    };
    let all = written as u128 + blanks as u128 + text.len() as u128;
    if all > limits.output as u128 {
        return Ok(false);
    }
    for _ in 0..blanks {
        have!(store.append(b" "));
    }
    have!(store.append(text));
    Ok(true)
}

/// Writes a text right in a width, which cuts it if `cut`. `false` where the output would pass its limit; then nothing
/// is written.
fn emit_wide(
    store: &mut Store,
    cut: bool,
    width: u64,
    text: &[u8],
    limits: &Limits,
) -> Result<bool, Memory>
    requires { is_held (plain.output store.old) ≡ true }
    ensures { IfOk result
        (λ b. Emits b limits.now.output (right_justified width (if cut then take width text.now else text.now))
        store.old
        store.new) }
{
    let shown = cut_to(cut, width, text);
    let blanks = width.saturating_sub(shown.len() as u64);
    emit(store, blanks, shown, limits)
}

impl State {
    /// What is left of the input.
    #[tactic(auto, using(crate::proofs::Positions::position_held, crate::proofs::Positions::position_is, crate::proofs::Positions::position_not_undefined, crate::proofs::Positions::position_not_channel, crate::proofs::Positions::left_held))]
    fn left(&self) -> &[u8]
        requires { left_after self.now.input.value (position_in (plain.piece self.now.store position_at.spot)) ≢ None }
        ensures { left_after self.now.input.value (position_in (plain.piece self.now.store position_at.spot))
            ≡ Some result.now }
    {
        match self.store.load(input_address()) {
            Cell::Ordinal(place) => bytes_from(self.input.bytes(), place.unsigned_abs()),
            Cell::Undefined | Cell::Channel(_) => unreachable!(),
        }
    }

    /// So many bytes of the input are taken. A place that no cell can hold counts as want of memory; only code that
    /// writes over the place in the input comes to one.
    #[tactic(auto, using(crate::proofs::Positions::position_held, crate::proofs::Positions::position_is, crate::proofs::Positions::position_not_undefined, crate::proofs::Positions::position_not_channel, crate::proofs::Positions::left_held, sp_code::proofs::StoreLaws::cells_same))]
    fn advance(&mut self, bytes: usize) -> Result<(), Memory>
        requires { left_after self.old.input.value (position_in (plain.piece self.old.store position_at.spot)) ≢ None }
        ensures taken { OnOk result (self.new
            ≡ record self.old {
              store = put_cell plain position_at
                  (Ordinal (pos (or_zero (position_in (plain.piece self.old.store position_at.spot)) + bytes)))
                  self.old.store;
            }) }
        ensures same { KeepsNumberAndInput self.old self.new }
    {
        match self.store.load(input_address()) {
            Cell::Ordinal(place) => {
                let next = place.unsigned_abs() as u128 + bytes as u128;
                let Ok(next) = i64::try_from(next) else {
                    return Err(Memory);
                };
                self.store.store(input_address(), Cell::Ordinal(next))
            }
            Cell::Undefined | Cell::Channel(_) => unreachable!(),
        }
    }

    /// A value of so many bytes of the input goes to an address.
    fn take(&mut self, at: Address, value: i64, bytes: usize) -> Result<(), Memory>
        requires input { left_after self.old.input.value (position_in (plain.piece self.old.store position_at.spot))
            ≢ None }
        requires has { HasCells self.old.store.map at 1 }
        ensures taken { OnOk result (self.new
            ≡ record self.old {
              store = put_cell plain at (Ordinal value)
                  (put_cell plain position_at (Ordinal
                  (pos (or_zero (position_in (plain.piece self.old.store position_at.spot)) + bytes))) self.old.store);
            }) }
        ensures same { KeepsNumberAndInput self.old self.new }
    {
        have!(self.advance(bytes));
        self.store.store(at, Cell::Ordinal(value))
    }

    // Reads an item into an address.
    #[tactic(auto, using(sp_code::proofs::StoreLaws::has_held))]
    pub(crate) fn read(&mut self, item: Item, code: &Code, limits: &Limits) -> Outcome
        requires next { self.old.pc + 1 < 4294967296 }
        requires safe { reads (memory plain (code_run_of self.old code.now limits.now)) code.now (item_in item)
            (self.old.pc + 1)
            (entries_of self.old.stack) (memory_of self.old) ≢ Stuck }
        ensures came { CameBy (reads (memory plain (code_run_of self.old code.now limits.now)) code.now (item_in
            item) (self.old.pc + 1) (entries_of self.old.stack) (memory_of self.old)) self.old self.new result }
        ensures same { KeepsNumberAndInput self.old self.new }
    {
        match self.stack.pop_pointer() {
            Some(at) => match taken(item, self.left()) {
                ReadResult::ReadItem(value, bytes) => {
                    have!(self.take(at, value, bytes), Outcome::Refused);
                    self.pc += 1;
                    Outcome::On
                }
                ReadResult::ReadFault(fault) => self.fail(Operand::Pointer(at), fault),
            },
            None => unreachable!(),
        }
    }

    // Drops the rest of the line.
    pub(crate) fn read_line(&mut self, code: &Code, limits: &Limits) -> Outcome
        requires next { self.old.pc + 1 < 4294967296 }
        requires safe { does (Some instr.Readln) self.old code.now limits.now ≢ Stuck }
        ensures came { CameBy (does (Some instr.Readln) self.old code.now limits.now) self.old self.new result }
        ensures same { KeepsNumberAndInput self.old self.new }
    {
        let bytes = line_length(self.left());
        have!(self.advance(bytes), Outcome::Refused);
        self.pc += 1;
        Outcome::On
    }

    // Whether nothing is left of the line, or of the input.
    pub(crate) fn is_over(&mut self, line: bool, code: &Code, limits: &Limits) -> Outcome
        requires next { self.old.pc + 1 < 4294967296 }
        requires safe { over_step line self.old code.now limits.now ≢ Stuck }
        ensures came { CameBy (over_step line self.old code.now limits.now) self.old self.new result }
        ensures same { KeepsNumberAndInput self.old self.new }
    {
        let left = self.left();
        let over = if line {
            is_at_line_end(left)
        } else {
            left.is_empty()
        };
        have!(
            self.stack.push(Operand::Number(truth_of(over))),
            Outcome::Refused
        );
        self.pc += 1;
        Outcome::On
    }

    // Writes a value.
    pub(crate) fn write(&mut self, shown: Shown, code: &Code, limits: &Limits) -> Outcome
        requires next { self.old.pc + 1 < 4294967296 }
        requires safe { writes (memory plain (code_run_of self.old code.now limits.now)) code.now (text_of shown)
            (self.old.pc + 1)
            (entries_of self.old.stack) (memory_of self.old) ≢ Stuck }
        ensures came { CameBy (writes (memory plain (code_run_of self.old code.now limits.now)) code.now (text_of
            shown) (self.old.pc + 1) (entries_of self.old.stack) (memory_of self.old)) self.old self.new result }
        ensures same { KeepsNumberAndInput self.old self.new }
    {
        match self.stack.pop_number() {
            Some(n) => {
                have!(spell(&mut self.text, shown, n), Outcome::Refused);
                if !have!(
                    emit(&mut self.store, 0, self.text.as_slice(), limits),
                    Outcome::Refused
                ) {
                    return self.fail(Operand::Number(n), Fault::F16);
                }
                self.pc += 1;
                Outcome::On
            }
            None => unreachable!(),
        }
    }

    // Writes a value in a width.
    pub(crate) fn write_wide(&mut self, shown: Shown, code: &Code, limits: &Limits) -> Outcome
        requires next { self.old.pc + 1 < 4294967296 }
        requires safe { writes_wide (memory plain (code_run_of self.old code.now limits.now)) code.now (is_cut shown)
            (text_of shown)
            (self.old.pc + 1) (entries_of self.old.stack) (memory_of self.old) ≢ Stuck }
        ensures came { CameBy (writes_wide (memory plain (code_run_of self.old code.now limits.now)) code.now (is_cut
            shown) (text_of shown) (self.old.pc + 1) (entries_of self.old.stack) (memory_of self.old)) self.old
            self.new result }
        ensures same { KeepsNumberAndInput self.old self.new }
    {
        match self.stack.pop_number() {
            Some(width) => match self.stack.pop_number() {
                Some(n) => {
                    if width <= 0 {
                        return self.fail_both(
                            Operand::Number(n),
                            Operand::Number(width),
                            Fault::F1,
                        );
                    }
                    have!(spell(&mut self.text, shown, n), Outcome::Refused);
                    let (cut, columns) = (cuts(shown), width.unsigned_abs());
                    let text = self.text.as_slice();
                    if !have!(
                        emit_wide(&mut self.store, cut, columns, text, limits),
                        Outcome::Refused
                    ) {
                        return self.fail_both(
                            Operand::Number(n),
                            Operand::Number(width),
                            Fault::F16,
                        );
                    }
                    self.pc += 1;
                    Outcome::On
                }
                None => unreachable!(),
            },
            None => unreachable!(),
        }
    }

    // Writes bytes.
    pub(crate) fn print(&mut self, text: &[u8], code: &Code, limits: &Limits) -> Outcome
        requires next { self.old.pc + 1 < 4294967296 }
        requires safe { prints (memory plain (code_run_of self.old code.now limits.now)) code.now text.now
            (self.old.pc + 1)
            (entries_of self.old.stack) (memory_of self.old) ≢ Stuck }
        ensures came { CameBy (prints (memory plain (code_run_of self.old code.now limits.now)) code.now text.now
            (self.old.pc + 1) (entries_of self.old.stack) (memory_of self.old)) self.old self.new result }
        ensures same { KeepsNumberAndInput self.old self.new }
    {
        if !have!(emit(&mut self.store, 0, text, limits), Outcome::Refused) {
            return Outcome::Fault(Fault::F16);
        }
        self.pc += 1;
        Outcome::On
    }

    // Writes a text.
    pub(crate) fn write_text(&mut self, number: u32, code: &Code, limits: &Limits) -> Outcome
        requires next { self.old.pc + 1 < 4294967296 }
        requires safe { does (Some (instr.WriteText number)) self.old code.now limits.now ≢ Stuck }
        ensures came { CameBy (does (Some (instr.WriteText number)) self.old code.now limits.now) self.old self.new
            result }
        ensures same { KeepsNumberAndInput self.old self.new }
    {
        match code.text(number) {
            Some(text) => self.print(text.bytes(), code, limits),
            None => unreachable!(),
        }
    }

    // Writes a text in a width.
    pub(crate) fn write_text_wide(&mut self, number: u32, code: &Code, limits: &Limits) -> Outcome
        requires next { self.old.pc + 1 < 4294967296 }
        requires safe { does (Some (instr.WritewText number)) self.old code.now limits.now ≢ Stuck }
        ensures came { CameBy (does (Some (instr.WritewText number)) self.old code.now limits.now) self.old self.new
            result }
        ensures same { KeepsNumberAndInput self.old self.new }
    {
        match self.stack.pop_number() {
            Some(width) => match code.text(number) {
                Some(text) => {
                    if width <= 0 {
                        return self.fail(Operand::Number(width), Fault::F1);
                    }
                    if !have!(
                        emit_wide(
                            &mut self.store,
                            true,
                            width.unsigned_abs(),
                            text.bytes(),
                            limits,
                        ),
                        Outcome::Refused
                    ) {
                        return self.fail(Operand::Number(width), Fault::F16);
                    }
                    self.pc += 1;
                    Outcome::On
                }
                None => unreachable!(),
            },
            None => unreachable!(),
        }
    }
}
