//! What the calls of a store ask for, as questions that a caller may put where it does not know it.

ghost use Rattle.std.specs.Prelude.{◌≡◌, ◌↔◌, IsTrue, length};
ghost use Rattle.std.specs.FinMap as map;
ghost use Rattle.sp_cell.specs.Map.{HasCells, IsOwn, IsPiece, cells_at};

use crate::entry::Entry;
use crate::store::Store;
use sp_cell::{Address, Spot};

impl Store {
    /// Whether so many cells from the address on are in a piece that is held.
    pub fn has_cells(&self, at: Address, cells: u32) -> bool
        ensures { IsTrue result ↔ HasCells self.now.map at cells }
    {
        match self.held(at.spot) {
            Some(piece) => u64::from(at.offset) + u64::from(cells) <= piece.len() as u64,
            None => false,
        }
    }

    /// How many cells the piece at the spot has.
    pub fn len(&self, spot: Spot) -> u32
        requires { IsPiece (map.get self.now.map spot) }
        ensures { result ≡ length (cells_at self.now.map spot) }
    {
        match self.slots.entry(spot) {
            Entry::Single(_) => 1,
            Entry::Own(piece) => piece.len(),
            Entry::Shared(piece) => piece.len(),
            Entry::Output(_) | Entry::Away => unreachable!(),
        }
    }

    /// Whether an own piece is held.
    pub fn is_own(&self, spot: Spot) -> bool
        ensures { IsTrue result ↔ IsOwn (map.get self.now.map spot) }
    {
        matches!(
            self.slots.find(spot),
            Some(Entry::Single(_) | Entry::Own(_))
        )
    }
}
