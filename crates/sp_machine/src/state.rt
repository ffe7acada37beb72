//! The state of a process, and why a turn ends.

use crate::frames::Frames;
use crate::stack::Stack;
use sp_base::{Fault, List, Text};
use sp_cell::{Address, Cell};
use sp_store::Store;
use std::sync::Arc;

/// What a call gives; where memory is refused to it, the function around ends so, an instruction with `refused`. One
/// match, where `?` is two generic calls, which cost the proof more.
#[macro_export]
macro_rules! have {
    ($call:expr) => {
        match $call {
            Ok(value) => value,
            Err(_) => return Err(Memory),
        }
    };
    ($call:expr, $refused:expr) => {
        match $call {
            Ok(value) => value,
            Err(_) => return $refused,
        }
    };
}

/// All that a process is. Contracts speak of it by `config_of` of `specs/Procs.antt`.
#[derive(Drop)]
pub struct State {
    pub(crate) number: u32,
    /// The number of the next instruction.
    pub(crate) pc: u32,
    pub(crate) stack: Stack,
    pub(crate) frames: Frames,
    /// How deep its calls and forks nest.
    pub(crate) depth: u32,
    pub(crate) ticks: u64,
    /// The ticks that it had made at its last entry.
    pub(crate) since: u64,
    /// The cells of its own live frames.
    pub(crate) cells: u64,
    pub(crate) store: Store,
    pub(crate) input: Arc<Text>,
    /// Where the answer goes for which it waits.
    pub(crate) target: Address,
    /// The fork table and the first value of the fork at which it stopped.
    pub(crate) table: u32,
    pub(crate) first: i64,
    /// Room for a text that is written.
    pub(crate) text: Vec<u8>,
    /// Why its turn ends, where an instruction says that it stops.
    pub(crate) stopped: Stop,
}

/// What came of an instruction. It is small, so that the call of an instruction in the midst of a turn answers by
/// registers: what a stop holds besides is kept in the state.
#[derive(Clone, Copy)]
pub(crate) enum Outcome {
    /// The process goes on.
    On,
    /// It is due.
    Pause,
    /// The instruction has this fault.
    Fault(Fault),
    /// It stops, as its state says.
    Stop,
    /// Memory was refused.
    Refused,
}

/// Why a turn ended.
#[derive(Drop)]
pub enum Stop {
    /// At a fork with this table, and for a `forall` the first value of its range. `count` is the number of its
    /// children, or 18,446,744,073,709,551,615 where that number is greater.
    Fork {
        table: u32,
        first: i64,
        count: u64,
    },
    /// At an `open`. The piece to which the channel goes is own.
    Open,
    /// At a `send` of these cells.
    Send {
        channel: u32,
        message: u32,
        cells: List<Cell>,
    },
    /// At a `receive`. The piece to which the message goes is own.
    Receive {
        channel: u32,
        message: u32,
    },
    /// At its end.
    End,
    /// It is due.
    Pause,
    /// At an instruction that has this fault.
    Fault(Fault),
    /// Memory was refused. The process can't go on.
    Memory,
}
