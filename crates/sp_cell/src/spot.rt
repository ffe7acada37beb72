//! Where a cell stands, and what a fork hands to a child.

use sp_base::List;

/// A variable of a frame. Spots are ordered by frame and then by variable.
#[derive(Clone, Copy, PartialEq, Eq, PartialOrd, Ord)]
pub struct Spot {
    /// The number of the frame in its store.
    pub frame: u64,
    /// The number of the variable in its frame.
    pub variable: u32,
}

/// A cell of a variable.
#[derive(Clone, Copy)]
pub struct Address {
    pub spot: Spot,
    /// The number of the cell in the variable's piece, from 0.
    pub offset: u32,
}

/// What one child is handed at a fork.
pub struct Handing {
    /// The variables that the child may change. They move to it until it is joined.
    pub moved: List<Spot>,
    /// The variables that the child only reads.
    pub shared: List<Spot>,
    /// The variable and the value of the index of a `forall`, which stands in a frame of its own.
    pub index: Option<(u32, i64)>,
}

// By hand, so that it is proved once, here, and not in each crate that drops such a value.
impl Drop for Handing {
    fn drop(self) {
        let Handing {
            moved: _,
            shared: _,
            index: _,
        } = self;
    }
}
