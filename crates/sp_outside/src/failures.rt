//! What the outside answers where it does not do what it is asked.

ghost use Rattle.std.specs.Prelude.{◌≡◌};
ghost use Rattle.sp_outside.specs.declared.failures.LoadError.TheVariants as load;
ghost use Rattle.sp_outside.specs.declared.failures.ReadError.TheVariants as read;

use std::alloc::AllocError;
use thiserror::Error;

/// The outside did not take or give the bytes, and counted a fault.
#[derive(Clone, Copy, Debug, PartialEq, Eq, Error)]
#[error("failed outside")]
pub struct Failed;

/// Why a library gives no bytes.
#[derive(Clone, Copy, Debug, PartialEq, Eq, Error)]
pub enum LoadError {
    /// The library counted a fault. A name under which nothing is there is one.
    #[error("failed outside")]
    Failed,
    /// More bytes are held than the limit.
    #[error("too long")]
    TooLong,
    /// Memory was refused.
    #[error("out of memory")]
    Memory,
}

impl From<AllocError> for LoadError {
    ghost from_gives = { λ _ e. e ≡ load.Memory };

    fn from(_error: AllocError) -> LoadError {
        LoadError::Memory
    }
}

/// Why a source is not read to its end.
#[derive(Clone, Copy, Debug, PartialEq, Eq, Error)]
pub enum ReadError {
    /// The source counted a fault.
    #[error("failed outside")]
    Failed,
    /// More bytes are left than the limit.
    #[error("too long")]
    TooLong,
    /// Memory was refused.
    #[error("out of memory")]
    Memory,
}

impl From<Failed> for ReadError {
    ghost from_gives = { λ _ e. e ≡ read.Failed };

    fn from(_error: Failed) -> ReadError {
        ReadError::Failed
    }
}

impl From<AllocError> for ReadError {
    ghost from_gives = { λ _ e. e ≡ read.Memory };

    fn from(_error: AllocError) -> ReadError {
        ReadError::Memory
    }
}
