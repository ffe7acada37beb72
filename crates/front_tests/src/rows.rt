//! What the tables share: a row, an answer compared with what the row wants, and texts in which parts are repeated.
//!
//! An answer that holds a tree is handed to a generic call, whose proof does not look into the tree that it drops.

use sp_base::{Halt, Place, Refusal, Rule};
use std::alloc::Global;

/// A text of one line that breaks a rule in this column, beside a near one that breaks none.
pub(crate) struct Row<'a> {
    pub(crate) rule: Rule,
    pub(crate) column: u32,
    pub(crate) refused: &'a [u8],
    pub(crate) accepted: &'a [u8],
}

/// Whether the answer is that the text breaks this rule first, at this place.
pub(crate) fn is_refused<T: Drop>(
    answer: Result<T, Halt>,
    rule: Rule,
    line: u32,
    column: u32,
) -> bool {
    match answer {
        Err(Halt::Refused(found)) => {
            let at = Place { line, column };
            found == Refusal { rule, at }
        }
        _ => false,
    }
}

/// Whether the answer is a value.
pub(crate) fn is_given<T: Drop>(answer: Result<T, Halt>) -> bool {
    match answer {
        Ok(_) => true,
        Err(_) => false,
    }
}

impl Row<'_> {
    /// Whether the answer for its refused text is that the text breaks its rule first, in its column.
    pub(crate) fn refuses<T: Drop>(&self, answer: Result<T, Halt>) -> bool {
        is_refused(answer, self.rule, 1, self.column)
    }
}

/// Adds bytes to a text. Where no memory is left they are not there, and what is looked at fails.
pub(crate) fn add(text: &mut Vec<u8>, bytes: &[u8]) {
    let _ = text.extend_from_slice(bytes);
}

/// Adds bytes so many times.
pub(crate) fn add_times(text: &mut Vec<u8>, bytes: &[u8], count: u32) {
    for _ in 0..count {
        add(text, bytes);
    }
}

/// What stands before, a part so many times, and what stands behind.
pub(crate) fn repeated(
    alloc: Global,
    front: &[u8],
    part: &[u8],
    count: u32,
    end: &[u8],
) -> Vec<u8> {
    let mut text = Vec::new(alloc);
    add(&mut text, front);
    add_times(&mut text, part, count);
    add(&mut text, end);
    text
}
