//! The kernel of a run: its processes, channels and journal, as an object that a room keeps.
//!
//! Calls:
//! - `Kernel::new`: a kernel at the start of a run of sound code (`IsOpening`): the first process alone is ready, the
//!   journal is empty.
//! - `Kernel::take`: the process at the front of the queue goes out with the worker, in the state that the system has
//!   for it; none exactly where none is ready or the run does not stand as running, and then nothing changes.
//! - `Kernel::give`: does exactly the one event that the definitions give for what is handed in, and appends its entry
//!   (`IsAfterGive`). Where memory is refused nothing has changed, and what was handed in comes back.
//! - `Kernel::abandon`: counts that a worker gave up, and the process that it had, if any, is out no more (`Abandons`).
//! - `Kernel::standing`, `out`, `journal`, `gave_up`, `newest`: how the run stands, how many processes are out, the
//!   journal, whether a worker gave up, and the event of the last entry.
//! - `Kernel::output`: the output that a process holds which is not out and not lost with a worker; none exactly where
//!   no such process holds one.
//! - `Kernel::end`: how the run ended, with the first fault and its process, or with all that wait, in order of names;
//!   none exactly where it goes on.
//! - `Kernel::close`: of a run that a room has brought to its end the end, the journal, which is that of the notes, and
//!   the output, which is empty where a worker gave up. At a deadlock no process runs.
//! - `serve` of the room's trait `Kept`: each ask is one step (`KernelSteps`): without a note nothing has changed; a
//!   note is one step of the control and the system.
//! - `Closed::end`, `journal`, `output`: the three parts of a run that is over. `Kernel::close` alone makes one.
//! - `Ask`, `Got`: what a worker asks and gets. `Handed`: a process after a turn, and why the turn ended. `Standing`:
//!   how a run stands.
//!
//! To know:
//! - `src/kernel.rt` has the calls. The events to send, to receive, to open, to fork and to end have a file each,
//!   `src/serve.rt` is the room's trait, `src/closed.rt` the end of a run.
//! - Contracts see a kernel as the control and the system of `sp_code` (`specs/Kernels.antt`), and say by these what
//!   each call does.
//! - What an event does to the record stands in `specs/`. `proofs/SendEvents`, `ReceiveEvents`, `OpenEvents`,
//!   `ForkEvents` and `EndEvents` lead from there to `IsAfterGive`.
//! - `give` asks that the process is out with the worker, that it was run by one turn from the state that the system
//!   has for it, and that all is well with its event (`FitsHanded`). A caller has this from the notes so far:
//!   `fits_now` of `specs/KernelLaws.antt`.
//! - `end` asks that the journal is nameable, that a fault stands exactly where the journal has its entry, and that
//!   offers speak of channels that are there (`IsNameableKernel`). After every legal history this is so: `named` of
//!   `proofs/Ending.antt`.
//! - The kernel does not keep the input of a run, since each process has it. Contracts read it off the snapshot of the
//!   first process.
//! - An event takes all its memory first: room in the queue and the tables, then the entry, then what cannot be undone
//!   (a channel, the children's stores). So a fork makes room for its children before they are there, and each takes
//!   its seat after the stores are split.
//! - The number of each parent stands in a list beside the slots, so that an end finds it at once.
//!
//! Lemmas for others, in `proofs`:
//! - `Tables`: tables by numbers: what one write changes.
//! - `NoteSteps`: each call of the kernel that leaves a note is a step of the control and the system of the
//!   definitions (`LeavesNote`).
//! - `ThreadBounds`: the kernel, a seat of its room and the room may go to another thread.
//! - `RunEnds`: what stands once a run is over: no process is out, and where no worker gave up none is gone.
//! - `FoundOutputs`: the output that is found in the slots is that of a process which is neither out nor gone.
//! - `Ending`: the end of a run: what its journal names is there, and one process holds its output.
//!
//! To change:
//! - An event: its file in `src/`, its arm in `give`, its record in `specs/` and its lemma in `proofs/`.
//! - What is kept of a process: `src/slot.rt`, and the clauses by slot in `specs/`.
#![tactic(auto)]

mod ask;
mod closed;
mod end;
mod first_fault;
mod fork;
mod handed;
mod have;
mod kernel;
mod open;
mod ready_queue;
mod receive;
mod send;
mod serve;
mod slot;

pub use ask::{Ask, Got};
pub use closed::Closed;
pub use first_fault::{first_fault_end, is_first_fault};
pub use handed::Handed;
pub use kernel::{Kernel, Seen, Standing};
