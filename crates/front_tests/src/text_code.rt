//! The code of a text, for tests. What holds a tree or code is handed to `drop` before an answer is given, so that no
//! proof looks into it there.

use sp_base::{Halt, Memory};
use sp_code::listing;
use sp_front::{CompiledText, compiled};
use std::alloc::Global;

/// Whether the bytes are there, and are these.
pub(crate) fn is_text(text: Result<Vec<u8>, Memory>, wanted: &[u8]) -> bool {
    match text {
        Ok(text) => text.as_slice() == wanted,
        Err(_) => false,
    }
}

/// Whether this is the listing of a text's code.
pub(crate) fn is_listed(alloc: Global, text: &[u8], wanted: &[u8]) -> bool {
    match compiled(alloc, text) {
        Ok(made) => {
            let text = listing(alloc, made.code());
            drop(made);
            is_text(text, wanted)
        }
        Err(_) => false,
    }
}

/// Of how many instructions the code is; 0 where there is none.
pub(crate) fn instructions(made: Result<CompiledText, Halt>) -> usize {
    match made {
        Ok(made) => {
            let count = made.code().parts().instrs.len();
            drop(made);
            count
        }
        Err(_) => 0,
    }
}
