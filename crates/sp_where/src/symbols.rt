//! What is known of a text beside its code.

ghost use Rattle.std.specs.Prelude.{◌≡◌, None, Some, MatchOption};
ghost use Rattle.sp_where.specs.Places.{statement_at, part_at};
ghost use Rattle.sp_where.specs.Values.{constant_in, names_of};

use sp_base::{List, Place, Text};
use sp_lines::Mark;
use sp_tree::Checked;

/// What a text's tree tells of its code: types, names and places.
pub struct Symbols {
    /// The tree.
    pub checked: Checked,
    /// The mark of each instruction of the tree's code.
    pub marks: List<Mark>,
    /// By the number of a type, the names of the constants of an enumeration, in order.
    pub constants: List<List<Text>>,
}

// By hand, so that it is proved once, here, and not in each crate that drops such a value.
impl Drop for Symbols {
    fn drop(self) {
        let Symbols {
            checked: _,
            marks: _,
            constants: _,
        } = self;
    }
}

/// The place of an instruction that no text has.
const NO_PLACE: Place = Place { line: 0, column: 0 };

impl Symbols {
    /// Where the statement begins to which this instruction belongs; 0:0 if there is no such instruction.
    pub fn statement(&self, at: u32) -> Place
        ensures { result ≡ statement_at self.now.marks at }
    {
        match self.marks.get(at as usize) {
            Some(mark) => mark.statement,
            None => NO_PLACE,
        }
    }

    /// Where this instruction's part of its statement begins; 0:0 if there is no such instruction.
    pub fn part(&self, at: u32) -> Place
        ensures { result ≡ part_at self.now.marks at }
    {
        match self.marks.get(at as usize) {
            Some(mark) => mark.part,
            None => NO_PLACE,
        }
    }

    /// The name of this constant of the type with this number, if there is one.
    pub(crate) fn constant(&self, kind: u32, number: i64) -> Option<&Text>
        ensures { MatchOption result (constant_in (names_of self.now.constants kind) number ≡ None)
            (λ name. constant_in (names_of self.now.constants kind) number ≡ Some name.now) }
    {
        if number < 0 {
            return None;
        }
        match self.constants.get(kind as usize) {
            Some(names) => names.get(number as usize),
            None => None,
        }
    }
}
