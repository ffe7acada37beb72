//! What the call gives back: the status, and the run where one came to its end.

use sp_execute::Ran;
use sp_kernel::Closed;

/// How the program ends.
#[derive(Drop)]
pub struct Outcome {
    /// 0 to 10.
    pub status: u8,
    /// The run, where one came to its end: then the status, or the one that a failed write displaced, is 0, 3 or 4.
    pub ran: Option<Ran>,
    /// The run of a code file, likewise; there is no verdict on it, since there is no program.
    pub executed: Option<Closed>,
}
