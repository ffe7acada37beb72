//! What the words of a command ask for, where it runs something: a run (`RunRequest`), a journal that is followed
//! (`ReplayRequest`), the run of a code file (`ExecRequest`).

use sp_base::{Limits, Show, Word};

/// The run that words ask for, and how it is told.
#[derive(Drop)]
pub struct RunRequest {
    /// The name of the program text.
    pub file: Word,
    /// How many workers run its processes, from 1 to 64.
    pub workers: u32,
    pub limits: Limits,
    pub telling: Telling,
}

/// How a run is told.
#[derive(Clone, Copy)]
pub enum Telling {
    /// By its output; by its end, its verdict and these reports, or by its journal.
    Reports(Show),
    /// By the witness of its race, in place of its output; by its end and its verdict.
    Witness,
}

/// The journal that words ask to follow, and what is written of it.
#[derive(Drop)]
pub struct ReplayRequest {
    /// The name of the program text.
    pub file: Word,
    /// The name of the journal's text.
    pub journal: Word,
    pub limits: Limits,
    pub view: View,
}

/// What is written of a journal that was followed.
#[derive(Clone, Copy)]
pub enum View {
    /// What the program wrote along it.
    Output,
    /// Its entries, each with its place in the text and its message.
    Entries,
    /// The state behind its last entry: each process with its place in the text, its calls and its variables.
    State,
}

/// The execution of a code file that words ask for.
#[derive(Drop)]
pub struct ExecRequest {
    /// The name of the code file.
    pub file: Word,
    /// How many workers run its processes, from 1 to 64.
    pub workers: u32,
    pub limits: Limits,
}
