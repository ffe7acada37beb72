//! The items of a code file: what one line behind the first adds to code.

use sp_base::Text;
use sp_code::{ChildTable, Instr, Layout};

/// What one line behind the first adds to code.
#[derive(Drop)]
pub(crate) enum Item {
    Layout(Layout),
    Text(Text),
    Instr(Instr),
    /// The first child of one more fork table.
    Table(ChildTable),
    /// One more child of the last fork table.
    Child(ChildTable),
}
