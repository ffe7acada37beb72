//! What the rules at a place need to know of the block around it.

use sp_tree::Checked;
use sp_varsets::Sets;

/// A block of a tree with its sets: its number, and whether it is a function.
#[derive(Drop)]
pub(crate) struct BlockContext<'a> {
    pub checked: &'a Checked,
    pub sets: &'a Sets,
    pub is_function: bool,
    pub number: u32,
}
