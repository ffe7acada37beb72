//! The text of the sets, put line by line.

ghost use Rattle.std.specs.Prelude.{◌≡◌, ℕ, ◌<◌, ◌≤◌, ◌-◌, ◌^◌, ◌++◌, List, IfOk, length, map};
ghost use Rattle.sp_varsets.specs.SetsText.{IsImplicit, IsLine, IsLineAt, IsOfBlock, IsSetsText, Joined, head_by};
ghost use Rattle.sp_tree.specs.CheckedOf.{block_of, program_of};
ghost use Rattle.sp_base.specs.Adds.{Adds, Keeps};

use crate::have;
use crate::line_walk::ordered_lines;
use crate::sets::Sets;
use crate::sets_line::SetsLine;
use crate::variable_names::put_both;
use sp_base::{Memory, Place, Writer};
use sp_tree::{Block, Checked, Variable};
use std::alloc::Global;

/// Puts the beginning of a line.
fn put_head(out: &mut Writer<u8>, at: Place, part: Option<u32>)
    ensures { Adds out.old out.new (head_by at part) }
{
    match part {
        None => {
            out.extend(b"forall ");
            out.place(at);
        }
        Some(k) => {
            out.extend(b"parallel ");
            out.place(at);
            out.extend(b" ");
            out.decimal(u64::from(k));
        }
    }
}

/// Puts the line of a process statement or an element statement.
fn put_line(
    alloc: Global,
    out: &mut Writer<u8>,
    variables: &[Variable],
    sets: &Sets,
    line: &SetsLine,
)
    requires { length variables.now ≤ 2 ^ 32 - 1 }
    ensures { Keeps out.old out.new ((t : List ℕ) × IsLine variables.now sets.now line.now t
        × (out.new.items.items ≡ out.old.items.items ++ t)) }
{
    put_head(out, line.at, line.part);
    let n = line.statement;
    put_both(alloc, out, variables, sets.targets(n), sets.expressions(n));
}

fn put_lines(
    alloc: Global,
    out: &mut Writer<u8>,
    variables: &[Variable],
    sets: &Sets,
    lines: &[SetsLine],
)
    requires { length variables.now ≤ 2 ^ 32 - 1 }
    ensures { Keeps out.old out.new ((t : List ℕ) × Joined (IsLineAt variables.now sets.now lines.now)
        (length lines.now) t × (out.new.items.items ≡ out.old.items.items ++ t)) }
{
    'each: for i in 0..lines.len() {
        put_line(alloc, out, variables, sets, &lines[i]);
    }
}

/// Puts the line of a procedure or function.
fn put_implicit(
    alloc: Global,
    out: &mut Writer<u8>,
    variables: &[Variable],
    sets: &Sets,
    b: u32,
    block: &Block,
)
    requires { length variables.now ≤ 2 ^ 32 - 1 }
    ensures { Keeps out.old out.new ((t : List ℕ) × IsImplicit variables.now sets.now b (block_of block.now) t
        × (out.new.items.items ≡ out.old.items.items ++ t)) }
{
    out.extend(b"implicit ");
    out.extend(block.name.bytes());
    let targets = sets.implicit_targets(b);
    put_both(alloc, out, variables, targets, sets.implicit_expressions(b));
}

/// Puts what a block has: nothing for the program.
fn put_block(
    alloc: Global,
    out: &mut Writer<u8>,
    variables: &[Variable],
    sets: &Sets,
    blocks: &[Block],
    b: usize,
)
    requires few { length variables.now ≤ 2 ^ 32 - 1 }
    requires there { b < length blocks.now }
    requires numbered { length blocks.now ≤ 2 ^ 32 }
    ensures { Keeps out.old out.new ((t : List ℕ) × IsOfBlock variables.now sets.now (map block_of blocks.now) b t
        × (out.new.items.items ≡ out.old.items.items ++ t)) }
{
    if b == 0 {
        return;
    }
    put_implicit(alloc, out, variables, sets, b as u32, &blocks[b]);
}

fn put_blocks(
    alloc: Global,
    out: &mut Writer<u8>,
    variables: &[Variable],
    sets: &Sets,
    blocks: &[Block],
)
    requires few { length variables.now ≤ 2 ^ 32 - 1 }
    requires numbered { length blocks.now ≤ 2 ^ 32 }
    ensures { Keeps out.old out.new ((t : List ℕ) × Joined (IsOfBlock variables.now sets.now (map block_of blocks.now))
        (length blocks.now) t
        × (out.new.items.items ≡ out.old.items.items ++ t)) }
{
    'each: for b in 0..blocks.len() {
        put_block(alloc, out, variables, sets, blocks, b);
    }
}

/// The text of these sets of the tree. The only other answer is want of memory, also for a text of more than
/// 134,217,728 bytes before its last variables.
pub fn print_sets(alloc: Global, checked: &Checked, sets: &Sets) -> Result<Vec<u8>, Memory>
    ensures { IfOk result (λ out. IsSetsText (program_of checked.now) sets.now out.items) }
{
    let variables = checked.variables.items();
    let blocks = checked.blocks.items();
    if variables.len() > 4_294_967_295 {
        return Err(Memory);
    }
    if blocks.len() > 4_294_967_296 {
        return Err(Memory);
    }
    let lines = have!(ordered_lines(alloc, checked));
    let mut out = Writer::new(alloc);
    put_blocks(alloc, &mut out, variables, sets, blocks);
    put_lines(alloc, &mut out, variables, sets, lines.as_slice());
    out.finish()
}
