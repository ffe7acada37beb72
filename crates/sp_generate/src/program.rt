//! The code of a whole program (`generate`), and why there is none.

ghost use Rattle.std.specs.Prelude.{◌≡◌, ◌<◌, ◌↔◌, IsTrue, IfOk, length, map};
ghost use Rattle.sp_tree.specs.CheckedOf.{program_of, block_of};
ghost use Rattle.sp_base.specs.Adds.{Keeps};
ghost use Rattle.sp_generate.specs.BuffersAfter.{written, with_blocks, layouts_in};
ghost use Rattle.sp_varsets.specs.AreSets.{AreSets};
ghost use Rattle.sp_generate.specs.NumberedCode.{numbered_code};
ghost use Rattle.sp_generate.specs.GeneratorAnswers.{Answered};

use crate::blocks::{layout_of, put_block};
use crate::code_buffer::{CodeBuffer, place};
use crate::code_context::CodeContext;
use crate::code_tables::survey;
use crate::numbers::narrow;
use crate::program_length::length;
use crate::room::hands_too_much;
use sp_base::{List, Memory, Writer};
use sp_code::{Code, Layout, MAX_CODE, Parts};
use sp_tree::Checked;
use sp_varsets::Sets;
use std::alloc::Global;
use thiserror::Error;

/// Why there is no code.
#[derive(Clone, Copy, Debug, Error)]
pub enum GenError {
    /// The code would have more than 1,048,576 instructions: so many, or 4,294,967,295 where they are more.
    #[error("code too long")]
    TooLong(u32),
    /// Memory was refused, or the forks would hand too much over.
    #[error("out of memory")]
    Memory,
}

/// All blocks, in order, and their layouts.
fn put_blocks(g: &CodeContext, sets: &Sets, d: &mut CodeBuffer) -> List<Layout>
    ensures { Keeps d.old.instrs d.new.instrs
        ((written d.new ≡ with_blocks g.now sets.now d.old 0 (map block_of g.now.checked.now.blocks))
        × (result ≡ layouts_in g.now 0 (length d.old.instrs.items.items) (map block_of g.now.checked.now.blocks))) }
{
    let mut layouts = List::new(g.alloc);
    for (b, k) in g.checked.blocks.items().iter().enumerate() {
        let number = d.instrs.number(narrow(b));
        let entry = place(&mut d.instrs);
        d.instrs
            .push_to(&mut layouts, layout_of(g, number, k, entry));
        put_block(g, sets, d, number, k);
    }
    layouts
}

/// The parts of a program's code.
fn parts(alloc: Global, checked: &Checked, sets: &Sets) -> Result<Parts, Memory>
    ensures { IfOk result (λ x. x ≡ numbered_code (program_of checked.now) sets.now) }
{
    let g = survey(alloc, checked)?;
    let mut d = CodeBuffer {
        instrs: Writer::new(alloc),
        forks: List::new(alloc),
        texts: List::new(alloc),
    };
    let layouts = put_blocks(&g, sets, &mut d);
    let CodeBuffer {
        instrs,
        forks,
        texts,
    } = d;
    let instrs = instrs.finish()?;
    Ok(Parts {
        instrs: List::of(instrs),
        layouts,
        forks,
        texts,
    })
}

/// Parts as code. Parts that are too large are answered as want of memory.
fn assembled(parts: Parts) -> Result<Code, Memory>
    ensures { IfOk result (λ code. code ≡ parts) }
{
    if parts.keeps_sizes() {
        Ok(Code::of(parts))
    } else {
        Err(Memory)
    }
}

fn code_of(alloc: Global, checked: &Checked, sets: &Sets) -> Result<Code, Memory>
    ensures { IfOk result (λ code. code ≡ numbered_code (program_of checked.now) sets.now) }
{
    let parts = parts(alloc, checked, sets)?;
    assembled(parts)
}

/// Whether code has more instructions than it may have.
pub fn is_too_long(instructions: u32) -> bool
    ensures { IsTrue result ↔ (1048576 < instructions) }
{
    instructions as usize > MAX_CODE
}

/// The code of a checked tree, of which these are the sets.
///
/// A block's code stands behind that of the block before it, and has the tree's forms in order. Each process of a fork
/// is handed the variables that its statement may change, and shares those that it only reads, but for the index of its
/// own forall. Where the code would have more than 1,048,576 instructions nothing is built. Where its forks would hand
/// over 33,554,432 variables or more in all, that is want of memory. It recurses as deep as the tree is.
#[tactic(auto, using(crate::proofs::Limits::told_within, crate::proofs::Limits::told_beyond))]
pub fn generate(alloc: Global, checked: &Checked, sets: &Sets) -> Result<Code, GenError>
    requires { AreSets (program_of checked.now) sets.now }
    ensures { Answered (program_of checked.now) result }
{
    let n = length(checked);
    if is_too_long(n) {
        return Err(GenError::TooLong(n));
    }
    if hands_too_much(checked, sets) {
        return Err(GenError::Memory);
    }
    match code_of(alloc, checked, sets) {
        Ok(code) => Ok(code),
        Err(_) => Err(GenError::Memory),
    }
}
