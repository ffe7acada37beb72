//! Where something stands in a text, by line and column.

/// A place in a text. Lines and columns count from 1, a column counts bytes, and a line ends with a line feed.
#[derive(Clone, Copy, Debug, PartialEq, Eq)]
pub struct Place {
    pub line: u32,
    pub column: u32,
}
