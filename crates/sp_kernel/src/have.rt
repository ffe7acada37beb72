//! The idiom for what may want memory.

/// What the call gives; where there is no memory, the function around ends so. Each crate that uses it has its own,
/// since proofs name the steps of another crate's macro otherwise.
#[macro_export]
macro_rules! have {
    ($call:expr) => {
        match $call {
            Ok(value) => value,
            Err(_) => return Err(Memory),
        }
    };
}
