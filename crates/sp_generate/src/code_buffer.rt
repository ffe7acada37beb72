//! Code as far as it is written, and how a part of it is mended.

ghost use Rattle.std.specs.Prelude.{◌≡◌, ◌++◌, ◌∷◌, ◌+◌, [], length, List, slice_set};
ghost use Rattle.sp_base.specs.Adds.{Keeps};
ghost use Rattle.sp_code.specs.declared.instr.Instr.{Instr as AnInstr};
ghost use Rattle.sp_code.specs.declared.instr.Instr.TheVariants.{Jump, Jumpf};
ghost use Rattle.sp_code.specs.declared.code.ForkTable.{ForkTable as ATable};

use crate::numbers::{narrow, sum};
use sp_base::{List, Text, Writer};
use sp_code::{ForkTable, Instr};

/// The instructions, fork tables and texts that are written so far. Tables and texts have their numbers by their order.
/// The writer of the instructions keeps in mind whether memory was refused for any of the three.
#[derive(Drop)]
pub struct CodeBuffer {
    pub instrs: Writer<Instr>,
    pub forks: List<ForkTable>,
    pub texts: List<Text>,
}

/// How many instructions are written.
pub fn count(code: &Writer<Instr>) -> usize
    ensures { result ≡ length code.now.items.items }
{
    code.items.len()
}

/// Where the next instruction will stand.
pub fn place(code: &mut Writer<Instr>) -> u32
    ensures { Keeps code.old code.new
        ((code.new.items.items ≡ code.old.items.items) × (result ≡ length code.old.items.items)) }
{
    let n = narrow(count(code));
    code.number(n)
}

/// Puts the place of the next instruction last into these places.
pub fn mark(code: &mut Writer<Instr>, places: &mut List<u32>)
    ensures { Keeps code.old code.new
        ((code.new.items.items ≡ code.old.items.items)
        × (places.new ≡ places.old ++ length code.old.items.items ∷ [])) }
{
    let n = narrow(count(code));
    code.push_to(places, n);
}

/// Another instruction in the place of one, where one stands there.
#[tactic(auto, using(crate::proofs::Patches::set_beyond))]
pub fn set(code: &mut Vec<Instr>, at: usize, instr: Instr)
    ensures { code.new.items ≡ slice_set code.old.items at instr }
{
    if at < code.len() {
        code[at] = instr;
    }
}

/// Writes a jump to behind all code once the code that it passes stands, in the place of another instruction.
pub fn mend_jump(code: &mut Writer<Instr>, at: usize)
    ensures { Keeps code.old code.new ((a b : List AnInstr) (x : AnInstr) → code.old.items.items ≡ a ++ x ∷ b
        → at ≡ length a → code.new.items.items ≡ a ++ Jump (length code.old.items.items) ∷ b) }
{
    let end = place(code);
    set(&mut code.items, at, Instr::Jump(end));
}

/// The same for a jump that is made where a condition is false. It goes so many instructions beyond.
pub fn mend_branch(code: &mut Writer<Instr>, at: usize, beyond: u32)
    ensures { Keeps code.old code.new ((a b : List AnInstr) (x : AnInstr) → code.old.items.items ≡ a ++ x ∷ b
        → at ≡ length a → code.new.items.items ≡ a ++ Jumpf (length code.old.items.items + beyond) ∷ b) }
{
    let end = place(code);
    let to = code.number(sum(end, beyond));
    set(&mut code.items, at, Instr::Jumpf(to));
}

/// A fork table in the place of one.
#[tactic(auto, using(crate::proofs::Patches::patched, crate::proofs::Patches::outside))]
pub fn patch_table(forks: &mut List<ForkTable>, at: usize, table: ForkTable)
    ensures { (a b : List ATable) (x : ATable) → forks.old ≡ a ++ x ∷ b → at ≡ length a → forks.new ≡ a ++ table ∷ b }
{
    if at < forks.len() {
        let _before = forks.replace(at, table);
    }
}
