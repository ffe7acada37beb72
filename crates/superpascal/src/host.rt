//! What a call has of the system beside texts: threads, memory, and the gate of its workers (`Host`).

use sp_outside::Gate;
use std::alloc::Global;
use std::sync::Wait;
use std::thread::Threads;

/// What steps of a command take of the system. No promise speaks of it.
#[derive(Drop)]
pub(crate) struct Host<'a, R: Threads + Wait + Sync, G: Gate> {
    pub(crate) rt: &'a R,
    pub(crate) alloc: Global,
    /// Each worker enters it before each turn that it makes.
    pub(crate) gate: &'a G,
}
