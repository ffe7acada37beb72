//! What stands at one spot, and the work on it.

ghost use Rattle.std.specs.Prelude.{◌≡◌, ◌+◌, ◌<◌, ◌≤◌, ◌++◌, IsOk, OnErr, OnOk, IfOk, Some, length};
ghost use Rattle.std.specs.Prelude.{replicate, slice_set};
ghost use Rattle.sp_cell.specs.Lists.{splice};
ghost use Rattle.sp_cell.specs.declared.cell.Cell.TheVariants.{Undefined};
ghost use Rattle.sp_cell.specs.Map.{IsOwn, IsPiece, cells_of, IsOutput, bytes_of, Own, Shared, Output as Text};
ghost use Rattle.sp_store.specs.Layout.{content};

use crate::have;
use sp_base::Memory;
use sp_cell::{Cell, Piece};
use std::alloc::Global;
use std::sync::Arc;
use std::{mem, slice};

/// What stands at one spot.
#[derive(Drop)]
pub(crate) enum Entry {
    /// An own piece of one cell, which takes no memory of its own.
    Single(Cell),
    Own(Piece),
    Shared(Arc<Piece>),
    Output(Vec<u8>),
    Away,
}

/// An own piece of so many undefined cells.
pub(crate) fn undefined(alloc: Global, cells: u32) -> Result<Entry, Memory>
    ensures { IfOk result (λ e. content e ≡ Own (replicate cells Undefined)) }
{
    if cells == 1 {
        return Ok(Entry::Single(Cell::Undefined));
    }
    Ok(Entry::Own(have!(Piece::new(alloc, cells))))
}

pub(crate) fn cells(entry: &Entry) -> &[Cell]
    requires { IsPiece (Some (content entry.now)) }
    ensures { result.now ≡ cells_of (Some (content entry.now)) }
{
    match entry {
        Entry::Single(cell) => slice::from_ref(cell),
        Entry::Own(piece) => piece.cells(),
        Entry::Shared(piece) => piece.cells(),
        Entry::Output(_) | Entry::Away => unreachable!(),
    }
}

/// One more holder of the cells: of a shared piece, or of a copy of an own one.
pub(crate) fn share(alloc: Global, entry: &Entry) -> Result<Entry, Memory>
    requires { IsPiece (Some (content entry.now)) }
    ensures { IfOk result (λ e. content e ≡ Shared (cells_of (Some (content entry.now)))) }
{
    match entry {
        Entry::Single(cell) => {
            let mut copy = have!(Piece::new(alloc, 1));
            copy.write(0, *cell);
            Ok(Entry::Shared(have!(Arc::new(alloc, copy))))
        }
        Entry::Own(piece) => {
            let copy = have!(piece.duplicate());
            Ok(Entry::Shared(have!(Arc::new(alloc, copy))))
        }
        Entry::Shared(piece) => Ok(Entry::Shared(have!(Arc::try_clone(piece)))),
        Entry::Output(_) | Entry::Away => unreachable!(),
    }
}

/// A piece that others share becomes a copy of its own; a piece whose other holders are gone is taken as it is.
#[inline(always)]
pub(crate) fn make_own(entry: &mut Entry) -> Result<(), Memory>
    requires { IsPiece (Some (content entry.old)) }
    ensures ok { OnOk result (content entry.new ≡ Own (cells_of (Some (content entry.old)))) }
    ensures err { OnErr result (content entry.new ≡ content entry.old) }
    ensures succeeds { IsOwn (Some (content entry.old)) → IsOk result }
{
    match entry {
        Entry::Single(_) | Entry::Own(_) => Ok(()),
        Entry::Shared(_) => unshare(entry),
        Entry::Output(_) | Entry::Away => unreachable!(),
    }
}

// The same of one that others share.
#[inline(never)]
fn unshare(entry: &mut Entry) -> Result<(), Memory>
    requires { content entry.old ≡ Shared (cells_of (Some (content entry.old))) }
    ensures ok { OnOk result (content entry.new ≡ Own (cells_of (Some (content entry.old)))) }
    ensures err { OnErr result (content entry.new ≡ content entry.old) }
{
    match mem::replace(entry, Entry::Away) {
        Entry::Shared(piece) => match Arc::try_unwrap(piece) {
            Ok(piece) => {
                *entry = Entry::Own(piece);
                Ok(())
            }
            Err(piece) => match piece.duplicate() {
                Ok(own) => {
                    *entry = Entry::Own(own);
                    Ok(())
                }
                Err(e) => {
                    *entry = Entry::Shared(piece);
                    Err(e)
                }
            },
        },
        _ => unreachable!(),
    }
}

#[inline(always)]
#[tactic(auto, using(crate::proofs::OneCellPieces::write_single))]
pub(crate) fn write(entry: &mut Entry, offset: u32, cell: Cell)
    requires own { IsOwn (Some (content entry.old)) }
    requires in_range { offset < length (cells_of (Some (content entry.old))) }
    ensures { content entry.new ≡ Own (slice_set (cells_of (Some (content entry.old))) offset cell) }
{
    match entry {
        Entry::Single(own) => *own = cell,
        Entry::Own(piece) => piece.write(offset, cell),
        _ => unreachable!(),
    }
}

#[tactic(auto, using(crate::proofs::OneCellPieces::over_single, crate::proofs::OneCellPieces::over_none))]
pub(crate) fn overwrite(entry: &mut Entry, offset: u32, cells: &[Cell])
    requires own { IsOwn (Some (content entry.old)) }
    requires in_range { offset + length cells.now ≤ length (cells_of (Some (content entry.old))) }
    ensures { content entry.new ≡ Own (splice (cells_of (Some (content entry.old))) offset cells.now) }
{
    match entry {
        Entry::Single(own) => {
            if cells.len() == 1 {
                *own = cells[0];
            }
        }
        Entry::Own(piece) => piece.copy_range(offset, cells),
        _ => unreachable!(),
    }
}

pub(crate) fn append(entry: &mut Entry, bytes: &[u8]) -> Result<(), Memory>
    requires { IsOutput (Some (content entry.old)) }
    ensures ok { OnOk result (content entry.new ≡ Text (bytes_of (Some (content entry.old)) ++ bytes.now)) }
    ensures err { OnErr result (content entry.new ≡ content entry.old) }
{
    match entry {
        Entry::Output(text) => {
            have!(text.extend_from_slice(bytes));
            Ok(())
        }
        _ => unreachable!(),
    }
}
