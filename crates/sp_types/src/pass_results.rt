//! What the pass gives of a part of the tree that has a type: the part with types, and its own type.

/// What a call gives; where memory is refused to it, the function around ends so. One match, where `?` is two generic
/// calls, which cost the proof more.
#[macro_export]
macro_rules! have {
    ($call:expr) => {
        match $call {
            Ok(value) => value,
            Err(_) => return Err(Halt::Memory),
        }
    };
}

/// A part with its types, and its own type if it is not broken.
#[derive(Drop)]
pub struct Typed<T> {
    pub tree: T,
    pub kind: Option<u32>,
}
