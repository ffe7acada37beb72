//! The cells of one variable, as a list.

ghost use Rattle.std.specs.Prelude.{◌≡◌, ◌+◌, ◌<◌, ◌≤◌, IfOk, length, replicate, slice_index_or, slice_set};
ghost use Rattle.sp_cell.specs.Lists.{splice};
ghost use Rattle.sp_cell.specs.declared.cell.Cell.TheVariants.{Undefined};

use crate::cell::Cell;
use sp_base::Memory;
use std::alloc::Global;
use std::marker::Model;

/// The cells of one variable, which contracts see as a list. There are fewer than 2^32.
pub struct Piece {
    inner: Vec<Cell>,
}

// By hand, so that it is proved once, here, and not in each crate that drops such a value.
impl Drop for Piece {
    fn drop(self) {
        let Piece { inner: _ } = self;
    }
}

impl Model for Piece {
    ghost use Rattle.std.specs.Prelude.{List, length, ◌<◌, ◌^◌};
    ghost use Rattle.sp_cell.specs.declared.cell.Cell.{Cell};

    ghost Value = { List Cell };

    ghost view = { λ it. it.inner.items };

    ghost invariant = { λ it. length it.inner.items < 2 ^ 32 };
}

impl Piece {
    /// As many undefined cells.
    pub fn new(alloc: Global, cells: u32) -> Result<Piece, Memory>
        ensures { IfOk result (λ p. p ≡ replicate cells Undefined) }
    {
        let mut inner = Vec::new(alloc);
        inner.resize(cells as usize, Cell::Undefined)?;
        Ok(Piece { inner })
    }

    /// The number of cells.
    pub fn len(&self) -> u32
        ensures { result ≡ length self.now }
    {
        self.inner.len() as u32
    }

    /// The cell at an offset from 0.
    pub fn read(&self, offset: u32) -> Cell
        requires { offset < length self.now }
        ensures { result ≡ slice_index_or self.now offset Undefined }
    {
        self.inner[offset as usize]
    }

    /// Writes one cell. The others stay.
    pub fn write(&mut self, offset: u32, cell: Cell)
        requires { offset < length self.old }
        ensures { self.new ≡ slice_set self.old offset cell }
    {
        self.inner[offset as usize] = cell;
    }

    /// Writes the given cells over those from `at` on. The others stay.
    pub fn copy_range(&mut self, at: u32, from: &[Cell])
        requires { at + length from.now ≤ length self.old }
        ensures { self.new ≡ splice self.old at from.now }
    {
        let at = at as usize;
        let end = at + from.len();
        self.inner[at..end].copy_from_slice(from);
    }

    /// All cells.
    pub fn cells(&self) -> &[Cell]
        ensures { result.now ≡ self.now }
    {
        self.inner.as_slice()
    }

    /// The same cells once more.
    pub fn duplicate(&self) -> Result<Piece, Memory>
        ensures { IfOk result (λ p. p ≡ self.now) }
    {
        let mut inner = Vec::new(*self.inner.allocator());
        inner.extend_from_slice(self.inner.as_slice())?;
        Ok(Piece { inner })
    }
}
