//! Bytes put together and compared, for the tests of this crate.

use sp_base::Memory;

/// Adds bytes. Where no memory is left they are not there, and what is looked at fails.
pub(crate) fn add(all: &mut Vec<u8>, bytes: &[u8]) {
    let _ = all.extend_from_slice(bytes);
}

/// Whether the bytes are there, and are these.
pub(crate) fn is_text(text: Result<Vec<u8>, Memory>, wanted: &[u8]) -> bool {
    match text {
        Ok(text) => text.as_slice() == wanted,
        Err(_) => false,
    }
}
