//! The code of blocks and their layouts.

ghost use Rattle.std.specs.Prelude.{◌≡◌, slice_get, IfOk};
ghost use Rattle.sp_tree.specs.CheckedOf.{block_of, program_of};
ghost use Rattle.sp_tree.specs.Bare.{without_places, bare_block};
ghost use Rattle.sp_tree.specs.Around.{parent_of, scopes_of};
ghost use Rattle.sp_code.specs.TreeCode.{cells_of, formal_by, formal_of, end_instr, layout_of};
ghost use Rattle.sp_generate.specs.Views.{plain_program, scopes, cells_in, formals_in};
ghost use Rattle.sp_generate.specs.BuffersAfter.{Wrote, with_block};

use crate::code_buffer::CodeBuffer;
use crate::code_context::CodeContext;
use crate::frames::frame;
use crate::levels::Scope;
use crate::lists::list_of;
use crate::single::size;
use crate::statement_context::StatementContext;
use crate::statements::put_statement;
use sp_base::{List, Memory, Writer};
use sp_code::{Formal, Instr, Layout};
use sp_tree::{Block, Checked, Role};
use sp_varsets::Sets;
use std::alloc::Global;

/// The cells of a variable in its frame.
fn cells_of(g: &CodeContext, x: u32) -> u32
    ensures { result ≡ cells_of (plain_program g.now) (slice_get (plain_program g.now).variables x) }
{
    match g.checked.variables.get(x as usize) {
        None => 0,
        Some(v) => match v.role {
            Role::Console | Role::Index => 0,
            Role::Reference => 1,
            Role::Local | Role::Value | Role::Answer => size(g, v.kind),
        },
    }
}

fn cells_in(g: &CodeContext, xs: &[u32]) -> Result<List<u32>, Memory>
    ensures { IfOk result (λ ys. ys ≡ cells_in (plain_program g.now) xs.now) }
{
    let mut out = Writer::new(g.alloc);
    for x in xs {
        out.put(cells_of(g, *x));
    }
    list_of(out)
}

/// A parameter of a role, whose type has so many cells.
fn formal_of(role: Role, cells: u32) -> Formal
    ensures { result ≡ formal_of role cells }
{
    match role {
        Role::Reference => Formal::Reference(cells),
        Role::Console | Role::Local | Role::Value | Role::Index | Role::Answer => {
            Formal::Value(cells)
        }
    }
}

/// How a block takes a parameter.
fn formal_by(g: &CodeContext, x: u32) -> Formal
    ensures { result ≡ formal_by (plain_program g.now) (slice_get (plain_program g.now).variables x) }
{
    match g.checked.variables.get(x as usize) {
        None => Formal::Value(0),
        Some(v) => formal_of(v.role, size(g, v.kind)),
    }
}

fn formals_in(g: &CodeContext, xs: &[u32]) -> Result<List<Formal>, Memory>
    ensures { IfOk result (λ ys. ys ≡ formals_in (plain_program g.now) xs.now) }
{
    let mut out = Writer::new(g.alloc);
    for x in xs {
        out.put(formal_by(g, *x));
    }
    list_of(out)
}

/// The layout of a block whose code begins at `entry`.
pub fn layout_of(g: &CodeContext, b: u32, k: &Block, entry: u32) -> Result<Layout, Memory>
    ensures { IfOk result (λ l. l ≡ layout_of (plain_program g.now) b entry (bare_block (block_of k.now))) }
{
    let frame = frame(g.alloc, g.checked, b)?;
    let sizes = cells_in(g, frame.as_slice())?;
    let formals = formals_in(g, k.formals.items())?;
    Ok(Layout {
        block: b,
        entry,
        parent: k.parent,
        answer: k.answer.is_some(),
        sizes,
        variables: List::of(frame),
        formals,
    })
}

/// The number of the block around a block.
#[tactic(auto, using(crate::proofs::Tables::block_at, crate::proofs::Tables::no_block))]
fn parent_of(checked: &Checked, b: u32) -> Option<u32>
    ensures { result ≡ parent_of (slice_get (without_places (program_of checked.now)).blocks b) }
{
    match checked.blocks.get(b as usize) {
        None => None,
        Some(k) => k.parent,
    }
}

/// The scopes of a block's statement part: it, and those around it.
#[tactic(auto, using(crate::proofs::Locals::scope_over, crate::proofs::Locals::blocks_count))]
fn scopes_of(alloc: Global, checked: &Checked, b: u32) -> Result<Vec<Scope>, Memory>
    ensures { IfOk result (λ xs. scopes xs.items ≡ scopes_of (without_places (program_of checked.now)) b) }
{
    let mut out = Vec::new(alloc);
    let mut at = Some(b);
    for _ in 0..checked.blocks.len() {
        match at {
            None => return Ok(out),
            Some(c) => {
                out.push(Scope::Block(c))?;
                at = parent_of(checked, c);
            }
        }
    }
    Ok(out)
}

/// At the end of a block: the program ends, any other returns.
fn end_instr(b: u32) -> Instr
    ensures { result ≡ end_instr b }
{
    if b == 0 { Instr::End } else { Instr::Return }
}

/// The code of a block.
pub fn put_block(g: &CodeContext, sets: &Sets, d: &mut CodeBuffer, b: u32, k: &Block)
    ensures { Wrote d.old d.new (with_block g.now sets.now d.old b (block_of k.now)) }
{
    match scopes_of(g.alloc, g.checked, b) {
        Err(Memory) => d.instrs.lose(),
        Ok(scopes) => {
            let context = StatementContext {
                program: g,
                sets,
                scopes: scopes.as_slice(),
            };
            put_statement(&context, d, &k.body);
            d.instrs.put(end_instr(b));
        }
    }
}
