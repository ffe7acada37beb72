//! What the walk gives of a block and of a heading.

use sp_base::List;
pub use sp_tree::PassResult;
use sp_tree::{Named, NamedStmt, Variable};

/// What a call gives; where memory is refused to it, the function around ends so. One match, where `?` is two generic
/// calls, which cost the proof more.
#[macro_export]
macro_rules! have {
    ($call:expr) => {
        match $call {
            Ok(value) => value,
            Err(_) => return Err(Halt::Memory),
        }
    };
}

/// What stands in a block: the number of its result's variable, its statement part, the indices of the foralls there,
/// and what its parts declare.
#[derive(Drop)]
pub struct BlockParts {
    pub answer: u32,
    pub body: NamedStmt,
    pub indices: List<Variable>,
    pub parts: Named,
}

/// What a heading gives for the table: the number of its block and of the block around, the parameters with their
/// numbers, and the result.
#[derive(Drop)]
pub struct Heading {
    pub block: u32,
    pub parent: u32,
    pub formals: List<Variable>,
    pub numbers: List<u32>,
    pub results: List<Variable>,
}
