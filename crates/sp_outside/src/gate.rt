//! What watches the workers: it is entered before each turn.

/// Is entered by a worker that has taken a process, before it runs the turn. It changes nothing that a result may
/// depend on, and returns.
pub trait Gate: Sync {
    fn enter(&self, worker: u32, process: u32);
}

/// A gate that returns at once.
#[derive(Clone, Copy)]
pub struct OpenGate;

impl Gate for OpenGate {
    fn enter(&self, _worker: u32, _process: u32) {}
}
