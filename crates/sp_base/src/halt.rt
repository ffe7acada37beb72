//! Why a pass over a text gives no answer: a broken rule with its place, or want of memory.

ghost use Rattle.std.specs.Prelude.{◌≡◌};
ghost use Rattle.sp_base.specs.declared.halt.Halt.TheVariants.{Memory as OutOfMemory};

use crate::place::Place;
use crate::rule::Rule;
use std::alloc::{AllocError, AllocFailed};
use thiserror::Error;

/// The first broken rule of a text, and its place.
#[derive(Clone, Copy, Debug, PartialEq, Eq)]
pub struct Refusal {
    pub rule: Rule,
    pub at: Place,
}

/// Memory was refused. No promise says when this comes.
#[derive(Clone, Copy, Debug, Error)]
#[error("out of memory")]
pub struct Memory;

impl From<AllocError> for Memory {
    fn from(_error: AllocError) -> Memory {
        Memory
    }
}

impl<T: Drop> From<AllocFailed<T>> for Memory {
    fn from(_error: AllocFailed<T>) -> Memory {
        Memory
    }
}

/// The answer of a pass that reads a text and does not come to its end.
#[derive(Clone, Copy, Debug, Error)]
pub enum Halt {
    /// The text breaks a rule, of which this is the first.
    #[error("refused")]
    Refused(Refusal),
    /// Memory was refused.
    #[error("out of memory")]
    Memory,
}

impl From<AllocError> for Halt {
    ghost from_gives = { λ _ e. e ≡ OutOfMemory };

    fn from(_error: AllocError) -> Halt {
        Halt::Memory
    }
}

impl<T: Drop> From<AllocFailed<T>> for Halt {
    ghost from_gives = { λ _ e. e ≡ OutOfMemory };

    fn from(_error: AllocFailed<T>) -> Halt {
        Halt::Memory
    }
}

impl From<Memory> for Halt {
    ghost from_gives = { λ _ e. e ≡ OutOfMemory };

    fn from(_error: Memory) -> Halt {
        Halt::Memory
    }
}
