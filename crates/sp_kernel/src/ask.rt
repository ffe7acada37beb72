//! What the kernel is asked, and what it answers.

use crate::handed::Handed;
use sp_machine::Proc;

/// An ask of a worker.
#[derive(Drop)]
pub enum Ask {
    /// Gives a process back, if there is one, and takes the next.
    Turn(Option<Handed>),
    /// Gives up, with the process that the worker had.
    Abandon(Option<Proc>),
}

/// An answer.
#[derive(Drop)]
pub enum Got {
    Work(Proc),
    Nothing,
    Finished,
    Refused(Option<Handed>),
}
