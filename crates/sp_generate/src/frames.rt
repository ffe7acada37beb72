//! The frames of blocks, and where variables stand in them.

ghost use Rattle.std.specs.Prelude.{◌≡◌, ◌==◌, ◌&&◌, map, slice_get, Some, IfOk};
ghost use Rattle.sp_tree.specs.Bare.{without_places, bare_block, variable_of};
ghost use Rattle.sp_tree.specs.CheckedOf.{program_of, block_of};
ghost use Rattle.sp_tree.specs.Cells.{variables_of};
ghost use Rattle.sp_code.specs.Scopes.{is_local, locals_among, parameters_of, frame_of, index_among, slot_in};
ghost use Rattle.sp_base.specs.Adds.{Adds};
ghost use Rattle.sp_generate.specs.CodeTables.{slots_of};

use crate::lists::list_of;
use crate::numbers::narrow;
use sp_base::{List, Memory, Writer};
use sp_tree::{Block, Checked, Role, Variable};
use std::alloc::Global;

fn is_local(role: Role) -> bool
    ensures { result ≡ is_local role }
{
    match role {
        Role::Local => true,
        Role::Console | Role::Value | Role::Reference | Role::Index | Role::Answer => false,
    }
}

/// Puts the parameters of a block in order, then its result.
fn put_parameters(out: &mut Writer<u32>, k: &Block)
    ensures { Adds out.old out.new (parameters_of (Some (bare_block (block_of k.now)))) }
{
    out.extend(k.formals.items());
    if let Some(answer) = k.answer {
        out.put(answer);
    }
}

/// Puts the parameters of the block of this number.
#[tactic(auto, using(crate::proofs::Tables::block_at, crate::proofs::Tables::no_block))]
fn put_parameters_of(out: &mut Writer<u32>, checked: &Checked, b: u32)
    ensures { Adds out.old out.new
        (parameters_of (slice_get (without_places (program_of checked.now)).blocks b)) }
{
    match checked.blocks.get(b as usize) {
        None => {}
        Some(k) => put_parameters(out, k),
    }
}

/// Whether a variable is a local one of the block.
fn is_own(b: u32, v: &Variable) -> bool
    ensures { result ≡ (v.now.block == b && is_local v.now.role) }
{
    v.block == b && is_local(v.role)
}

/// Puts the local variables of a block.
#[tactic(auto, using(crate::proofs::Locals::own_step, crate::proofs::Locals::other_step))]
fn put_locals(out: &mut Writer<u32>, variables: &[Variable], b: u32)
    ensures { Adds out.old out.new (locals_among (variables_of b 0 (map variable_of variables.now))) }
{
    if variables.len() > 4_294_967_296 {
        out.lose();
        return;
    }
    for (x, v) in variables.iter().enumerate() {
        if is_own(b, v) {
            out.put(x as u32);
        }
    }
}

/// The variables of a block's frame: the parameters, the result, the local variables.
pub fn frame(alloc: Global, checked: &Checked, b: u32) -> Result<Vec<u32>, Memory>
    ensures { IfOk result (λ xs. xs.items ≡ frame_of (without_places (program_of checked.now)) b) }
{
    let mut out = Writer::new(alloc);
    put_parameters_of(&mut out, checked, b);
    put_locals(&mut out, checked.variables.items(), b);
    out.finish()
}

/// The place of x among these, counted from n; behind all where it is none of them.
fn index_among(x: u32, n: u32, ys: &[u32]) -> Result<u32, Memory>
    ensures { IfOk result (λ m. m ≡ index_among x n ys.now) }
{
    let mut n = n;
    for y in ys {
        if x == *y {
            return Ok(n);
        }
        n = n.checked_add(1).ok_or(Memory)?;
    }
    Ok(n)
}

/// The number of a variable in the frame of a block. The program's frame has the input and the output first.
fn slot_in(alloc: Global, checked: &Checked, b: u32, x: u32) -> Result<u32, Memory>
    ensures { IfOk result (λ m. m ≡ slot_in (without_places (program_of checked.now)) b x) }
{
    let frame = frame(alloc, checked, b)?;
    if b == 0 {
        index_among(x, 2, frame.as_slice())
    } else {
        index_among(x, 0, frame.as_slice())
    }
}

/// The number of each variable in its frame.
pub fn slots_of(alloc: Global, checked: &Checked) -> Result<List<u32>, Memory>
    ensures { IfOk result (λ xs. xs ≡ slots_of (without_places (program_of checked.now))) }
{
    let mut out = Writer::new(alloc);
    for (x, v) in checked.variables.items().iter().enumerate() {
        let x = narrow(x)?;
        let slot = slot_in(alloc, checked, v.block, x)?;
        out.put(slot);
    }
    list_of(out)
}
