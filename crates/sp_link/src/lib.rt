//! The run of the machine is the run of the source: laws of all processes of a run, along a journal.
//!
//! Laws:
//! - `journals_have_one_state`: along a journal the meaning comes to at most one state, by one number of steps.
//! - `code_runs_as_the_program_means`: along a journal that can be named, the machine has a system with the program's
//!   code exactly where the program has a state, and then no turn lacks what it needs.
//! - `code_is_sound`: the code of a ready program is sound (`IsSound`).
//! - `code_ends_as_the_program_does`: along a journal both have the same output; the first process has ended in both or
//!   in neither; and nobody runs in the program where nobody runs in its code and no fault stands.
//! - `code_waits_and_faults_as_the_program_does`: the same processes wait in both, so a deadlock is one in both. A
//!   fault of an entry is the program's; one that stands is in an entry; where none stands, the program has none.
//! - `histories_end_as_the_program_does`: a legal history is a run of the program along its journal. Its output is the
//!   program's, and where the control of its notes stands at an end, so does the program.
//! - `offers_of_one_way_are_contention`: where no fault stands, F6 is the event of a stop exactly where its offer meets
//!   a pending one of its own way and the journal is not full.
//!
//! To know:
//! - All laws but the first and the last ask for a ready program: `specs/Premises.antt` is what is asked of it, of its
//!   sets and of the limits (`IsReady`); `specs/Endings.antt` says who waits and which entry is a fault.
//! - `proofs/Relation` is how the system stands for the state of the meaning. `JournalEntries` has each entry by its
//!   event, `Parallels` and `Foralls` what each statement gives for a fork; `Theorem` joins them.
//! - `Ranks`: turns end. `Formals`: frames have room for parameters. `Splits`, `SafeSteps`: what forks, ends and
//!   messages need. `Soundness` joins them.
//! - `Waiters`, `FaultEntries`, `Endings`: ends. `NameOrder`, `SortedWaiters`, `Histories`: ends of a history.
//!   `Contention`: offers of one way.
//!
//! Lemmas for others, in `proofs`:
//! - `Relation`: how the system of the machine stands for the state of the meaning after the same entries.
//! - `Journal`: along a journal: where each entry keeps the relation, the meaning goes along the journal as the
//!   system does.
//! - `Pauses`: the entry `Pause` on both sides (`pausing`).
//! - `JournalEntries`: every entry on both sides: each process that runs makes one, by how its turn ends (`entry`).
//! - `OneState`: along a journal the meaning has one state at most, after one number of steps: a turn is a function
//!   of the state, and so is the step of an entry.
//! - `Replay`: the other way round: where the meaning goes along a journal, the system does (`replays`).
//! - `Theorem`: the system along a journal is the meaning along that journal, both ways; with the same output, and
//!   the first process ended in both or in neither.
//! - `Programs`: the theorem for programs: the code of a program that is ready, along each journal that can be
//!   named, is the program's meaning along that journal, both ways, and no turn of it lacks what it needs.
//! - `Soundness`: the code of a program that is ready is sound (`program_sound`): each way back in it passes a tick
//!   or a call, and all is well with every turn and every event along each journal of its system.
//! - `FaultEntries`: the fault of a run is that of its journal: along a journal the meaning comes to the fault that
//!   an entry of it says (`fault_told`), and where a fault stands in the machine an entry says it (`fault_entry`).
//! - `Endings`: how a run of a program's code ends is how the program does: the same ones wait where nobody can go
//!   on, and the fault of the journal is the program's.
//! - `Histories`: a legal history of the kernel over a program's code ends as the program does along its journal:
//!   what the control of its notes tells of the end is so of the program.
//! - `SortedWaiters`: the waiters of a run in order of their names, as the program tells them, are all that wait in
//!   the control, in the order of the meaning (`all_waiting`).
//!
//! To change:
//! - An event: its lemma and `proofs/JournalEntries`; what it needs to be carried out: `by_well` in `proofs/SafeSteps`.
//! - A form of statement or expression: its clause in `proofs/Ranks`, or in `proofs/StraightCode`.
#![tactic(auto)]

pub mod laws;
