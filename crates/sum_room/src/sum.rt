//! A sum that goes up, with its asks, its answers and its notes.

/// What a room keeps here.
#[derive(Drop)]
pub struct Sum {
    pub value: u64,
}

#[derive(Drop)]
pub enum Ask {
    /// Adds one.
    Add,
    /// Gives the sum.
    Look,
    /// Adds one, as the last ask of a seat.
    Leave,
}

#[derive(Drop)]
pub enum Got {
    /// The sum after the ask.
    Sum(u64),
    /// There was no memory for the history.
    Refused(Ask),
}

/// One was added.
#[derive(Clone, Copy)]
pub struct Note {
    pub worker: u32,
    /// The sum after it.
    pub sum: u64,
}
