//! The mark of an instruction.

use sp_base::Place;

/// Where an instruction stands in the text: the place of the first token of the statement to which it belongs, and that
/// of its part of the statement. For an instruction of the statement itself both are the same.
#[derive(Clone, Copy)]
pub struct Mark {
    pub statement: Place,
    pub part: Place,
}
