//! The smallest part of a variable: one cell.

/// One cell of a variable. A boolean, a character or an enumerated value is kept as its ordinal number.
#[derive(Clone, Copy, PartialEq, Eq)]
pub enum Cell {
    /// Nothing was assigned yet.
    Undefined,
    /// A value of an ordinal type.
    Ordinal(i64),
    /// The number of a channel.
    Channel(u32),
}
