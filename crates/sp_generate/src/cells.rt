//! The cells of types, and where the fields of a record begin. A count that is no `u32` is answered as want of memory.

ghost use Rattle.std.specs.Prelude.{◌≡◌, ◌+◌, ◌*◌, List, map, sum, IfOk};
ghost use Rattle.sp_tree.specs.Cells.{count, fields_size, size_by, sizes};
ghost use Rattle.sp_generate.specs.CodeTables.{offsets_from, offsets_by};

use crate::lists::list_of;
use crate::numbers::sum;
use crate::single::number_at;
use sp_base::{List, Memory, Text, Writer};
use sp_tree::KindOf;
use std::alloc::Global;

/// How many elements an array has.
fn count(low: i64, high: i64) -> Result<u32, Memory>
    ensures { IfOk result (λ n. n ≡ count low high) }
{
    let n = (high as i128 - low as i128 + 1).unsigned_abs();
    if n < 4_294_967_296 {
        Ok(n as u32)
    } else {
        Err(Memory)
    }
}

fn product(count: u32, cells: u32) -> Result<u32, Memory>
    ensures { IfOk result (λ n. n ≡ count * cells) }
{
    match count.checked_mul(cells) {
        Some(n) => Ok(n),
        None => Err(Memory),
    }
}

fn fields_cells(known: &List<u32>, fields: &[(Text, u32)]) -> Result<u32, Memory>
    ensures { IfOk result (λ n. n ≡ fields_size known.now fields.now) }
{
    let mut cells = 0;
    for f in fields {
        cells = sum(cells, number_at(known, f.1))?;
    }
    Ok(cells)
}

/// A type's cells, where those of the types before it are known.
fn size_by(known: &List<u32>, k: &KindOf) -> Result<u32, Memory>
    ensures { IfOk result (λ n. n ≡ size_by known.now k.now) }
{
    match k {
        KindOf::Integer => Ok(1),
        KindOf::Boolean => Ok(1),
        KindOf::Char => Ok(1),
        KindOf::Enumeration(_) => Ok(1),
        KindOf::Array {
            low,
            high,
            element,
            ..
        } => {
            let n = count(*low, *high)?;
            product(n, number_at(known, *element))
        }
        KindOf::Fields(fields) => fields_cells(known, fields.items()),
        KindOf::Channel(_) => Ok(1),
    }
}

/// The cells of each type.
pub fn sizes_of(alloc: Global, kinds: &[KindOf]) -> Result<List<u32>, Memory>
    ensures { IfOk result (λ xs. xs ≡ sizes kinds.now) }
{
    let mut known = List::new(alloc);
    for k in kinds {
        let n = size_by(&known, k)?;
        known.push(n)?;
    }
    Ok(known)
}

/// Where each field begins.
fn offsets_from(
    alloc: Global,
    cells: &List<u32>,
    fields: &[(Text, u32)],
) -> Result<List<u32>, Memory>
    ensures { IfOk result (λ xs. xs ≡ offsets_from cells.now 0 fields.now) }
{
    let mut out = Writer::new(alloc);
    let mut n = 0;
    for f in fields {
        out.put(n);
        n = sum(n, number_at(cells, f.1))?;
    }
    list_of(out)
}

/// Where the fields of a record type begin.
fn offsets_by(alloc: Global, cells: &List<u32>, k: &KindOf) -> Result<List<u32>, Memory>
    ensures { IfOk result (λ xs. xs ≡ offsets_by cells.now k.now) }
{
    match k {
        KindOf::Fields(fields) => offsets_from(alloc, cells, fields.items()),
        _ => Ok(List::new(alloc)),
    }
}

/// The same for each type.
pub fn table_offsets(
    alloc: Global,
    cells: &List<u32>,
    kinds: &[KindOf],
) -> Result<List<List<u32>>, Memory>
    ensures { IfOk result (λ xs. xs ≡ map (offsets_by cells.now) kinds.now) }
{
    let mut out = Writer::new(alloc);
    for k in kinds {
        let offsets = offsets_by(alloc, cells, k)?;
        out.put(offsets);
    }
    list_of(out)
}
