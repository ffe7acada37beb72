//! What is told of an entry of a journal.

use sp_base::List;
use sp_cell::Cell;

/// What is told of an entry: where the turn ended that made it, and the message that passes there.
pub struct Told {
    /// The number of the instruction at which the turn ended.
    pub instruction: u32,
    /// The number of the message's type, and its cells: of a send what it sends, of a receive what it gets if a send
    /// waited there, else none.
    pub message: Option<(u32, List<Cell>)>,
}

// By hand, so that it is proved once, here, and not in each crate that drops such a value.
impl Drop for Told {
    fn drop(self) {
        let Told {
            instruction: _,
            message: _,
        } = self;
    }
}
