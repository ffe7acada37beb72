//! The cells of types and frames, counted up to just above the limit (`specs/CellCaps.antt`).

ghost use Rattle.std.specs.Prelude.{◌≡◌, ◌+◌, ◌*◌, ◌∷◌, List, [], slice_get};
ghost use Rattle.sp_tree.specs.Carried.{Keeps};
ghost use Rattle.sp_tree.specs.Cells.{count, fields_size, first_or};
ghost use Rattle.sp_types.specs.TypeRules.{frame_cells};
ghost use Rattle.sp_types.specs.CellCaps.{capped_count, capped_by, capped_sizes};

use crate::field_table::KindWithFields;
use crate::numbers::type_number;
use sp_base::{List, Text};
use sp_tree::{KindOf, Role, Variable, Walk};
use std::alloc::Global;

/// One more than a type or a frame may have.
const TOO_MANY: u32 = 1_048_577;

fn capped(n: u64) -> u32
    ensures { result ≡ capped_count n }
{
    if n < TOO_MANY as u64 {
        n as u32
    } else {
        TOO_MANY
    }
}

/// How many elements an array has.
fn count(low: i64, high: i64) -> u32
    ensures { result ≡ capped_count (count low high) }
{
    let n = (high as i128 - low as i128 + 1).unsigned_abs();
    if n < TOO_MANY as u128 {
        n as u32
    } else {
        TOO_MANY
    }
}

fn total(a: u32, b: u32) -> u32
    ensures { result ≡ capped_count (a + b) }
{
    capped(a as u64 + b as u64)
}

/// The cells of a type, 0 where it is none.
fn cells_at(sizes: &[u32], k: u32) -> u32
    ensures { result ≡ first_or 0 (slice_get sizes.now k) }
{
    match sizes.get(k as usize) {
        None => 0,
        Some(n) => *n,
    }
}

#[tactic(auto, using(crate::proofs::CellCaps::counted))]
fn array_cells(low: i64, high: i64, element: u32) -> u32
    ensures { result ≡ capped_count (count low high * element) }
{
    capped(count(low, high) as u64 * element as u64)
}

#[tactic(auto, using(crate::proofs::CellCaps::summed))]
fn fields_cells(known: &[u32], fields: &[(Text, u32)]) -> u32
    ensures { result ≡ capped_count (fields_size known.now fields.now) }
{
    let mut cells = 0;
    for f in fields {
        cells = total(cells, cells_at(known, f.1));
    }
    cells
}

/// A type's cells, where those of the types before it are known.
fn size_by(known: &[u32], k: &KindOf) -> u32
    ensures { result ≡ capped_by known.now k.now }
{
    match k {
        KindOf::Integer
        | KindOf::Boolean
        | KindOf::Char
        | KindOf::Enumeration(_)
        | KindOf::Channel(_) => 1,
        KindOf::Array {
            low,
            high,
            index: _,
            element,
        } => array_cells(*low, *high, cells_at(known, *element)),
        KindOf::Fields(fields) => fields_cells(known, fields.items()),
    }
}

/// The cells of each type.
pub fn sizes_of(alloc: Global, walk: &mut Walk, kinds: &[KindWithFields]) -> List<u32>
    ensures { Keeps walk.old walk.new walk.old.first (result ≡ capped_sizes kinds.now) }
{
    let mut known = Vec::new(alloc);
    for k in kinds {
        let n = size_by(known.as_slice(), k.kind());
        walk.push(&mut known, n);
    }
    List::of(known)
}

/// A variable's cells in a block's frame: the consoles and the index of a forall have none, and a variable parameter
/// has one.
fn cells_in(numbers: &[u32], sizes: &[u32], block: u32, x: &Variable) -> u32
    ensures { result ≡ frame_cells numbers.now sizes.now block (x.now ∷ []) }
{
    if x.block == block {
        match x.role {
            Role::Console | Role::Index => 0,
            Role::Local | Role::Value | Role::Answer => {
                cells_at(sizes, type_number(numbers, x.kind))
            }
            Role::Reference => 1,
        }
    } else {
        0
    }
}

/// The cells of one block's variables.
#[tactic(auto, using(crate::proofs::CellCaps::summed))]
pub fn frame_cells(numbers: &[u32], sizes: &[u32], block: u32, variables: &[Variable]) -> u32
    ensures { result ≡ capped_count (frame_cells numbers.now sizes.now block variables.now) }
{
    let mut cells = 0;
    for x in variables {
        cells = total(cells, cells_in(numbers, sizes, block, x));
    }
    cells
}
