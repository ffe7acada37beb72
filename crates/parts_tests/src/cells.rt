//! The calls of `sp_cell`, each once.

use sp_cell::{Cell, Piece};
use std::test::Fail;

// Whether what is written and copied over is read again.
fn is_written(piece: &mut Piece) -> bool {
    if piece.len() != 3 || piece.read(1) != Cell::Undefined {
        return false;
    }
    piece.write(0, Cell::Ordinal(7));
    piece.copy_range(1, &[Cell::Channel(4), Cell::Ordinal(5)]);
    piece.read(0) == Cell::Ordinal(7)
}

fn has_cells(piece: &Piece, wanted: &[Cell]) -> bool {
    match piece.duplicate() {
        Ok(again) => again.cells() == wanted,
        Err(_) => false,
    }
}

#[test]
fn a_piece_is_written_copied_over_and_duplicated(rt: HostRuntime) -> Result<(), Fail> {
    let mut piece = Piece::new(rt.alloc(), 3)?;
    assert!(rt; is_written(&mut piece));
    let wanted = [Cell::Ordinal(7), Cell::Channel(4), Cell::Ordinal(5)];
    assert!(rt; has_cells(&piece, &wanted));
    drop(piece);
    Ok(())
}
