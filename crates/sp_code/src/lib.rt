//! Code for the stack machine as data, and its listing; by definitions what code does, and where the code of a tree
//! stands. Laws say too what holds along every legal history of the kernel and along every journal of a run.
//!
//! Calls:
//! - `Instr`: an instruction. `Layout`, `Formal`: the frame of a block, and how it takes a parameter. `ForkTable`,
//!   `ChildTable`: what a fork hands to its children.
//! - `Parts::keeps_sizes`: exactly whether the parts are no larger than code may be (`KeepsSizes`, by `MAX_CODE` and
//!   `MAX_FRAME`).
//! - `Code::of`, `parts`: the code of parts that keep the sizes; its parts again, which keep them.
//! - `Code::instr`, `text`, `table`: the instruction, the text, the fork table of this number from 0, or none.
//! - `ForkTable::index`, `child`: the index of a `forall`; what the child of this number begins with, for a `forall`
//!   always the one that the table has.
//! - `listing`: exactly the text of code, a line for each instruction with its number, and then a line for each child
//!   of each fork table; or want of memory.
//!
//! Laws:
//! - `laws::turns_are_functions`: one instruction, and one turn, is a function of the process; a turn that is computed
//!   to an end has that end.
//! - `laws::turns_of_ranked_code_end`: a turn along which the ranks fall is over within a computed number of
//!   instructions, and has an end where none lacks what it needs; in ranked code they fall along every turn.
//! - `laws::systems_are_functions`: a turn makes at most one event, and there is at most one system along a journal.
//! - `laws::code_has_its_length`: the code of a statement, and of a program, has exactly the number of instructions of
//!   the table of lengths.
//! - `laws::code_stands`: where each block keeps the rules of names, types and variables (`IsSoundBlock`), its
//!   code stands in that of the program; and a call finds the layout that the block has in the tree.
//! - `history_laws::histories_lead_to_systems`: a legal history leads to exactly one system, that along the journal of
//!   its notes; its control and that system tell the same of every process, and the control counts those that are out.
//! - `history_laws::histories_keep_what_is_out`: a process that is out with a worker stays so, in the same state, while
//!   that worker leaves no note. Where none is ready, out or given up, none runs; once the run is over no event
//!   follows.
//! - `history_laws::journals_name_what_is_there`: every process has the number at which it stands, and speaks of
//!   channels that are there, also at an offer. With limits of 32 bits a journal is nameable; it has at most one fault.
//! - `history_laws::histories_keep_turns`: after a legal history the parent of a process that is out waits for
//!   children. Where one worker hands in with each ask what it holds, the journal is first in, first out.
//! - `history_laws::one_process_holds_the_output`: after a legal history of safe code exactly one process holds the
//!   output.
//!
//! To know:
//! - What code does: `specs/Machine.antt` (one instruction, over any memory), `Turns.antt`, `Memory.antt` (frames and
//!   counts, over any store), `PlainStore.antt` (the store as `sp_cell`'s plain map), `Control.antt` (the kernel's
//!   notes), `System.antt` (all processes along a journal, legal histories), `Ranks.antt`, `Budgets.antt` and
//!   `Sound.antt` (turns that end, safe code).
//! - The code of a tree: `specs/Scopes`, `Places`, `Lengths`, `Emitted`, `CodeOfTree`, `NeverStops`.
//! - What code of any origin is asked: `specs/Sizes`, `Formals` (frames begin with their parameters), `Ranks`,
//!   `Sound`.
//! - Of the proofs, `OneTurn` and `Falls` are for turns, `Systems` for journals, `Counts`, `CodePositions` and
//!   `Blocks` for the code of a tree. `Plans` (what a fork hands over) and `Pieces` (a new frame in a store) are for
//!   the crates above.
//! - `call BLOCK` names a layout by its block and not by its place in the list, since code that was not generated may
//!   have layouts in any order.
//! - `index` and `field` ask for no cell behind the address that they select, only for an offset below 2^32: what uses
//!   the address asks for the cells.
//! - A value parameter takes exactly the cells of its type, tested when the block is called.
//! - `write char` writes the number modulo 256, 0 to 255 also of a negative one. Code that no tree stands behind may
//!   write any ordinal as a char.
//! - `and`, `or`, `not`, `jumpf`, `assume` and `write bool` take each number above 0 as true.
//! - `forall` counts at most 2^64 - 1 children, since `const` may push -2^63.
//! - Where the first frame is too large, F12 is the root's turn before its first instruction: nothing in the table of
//!   instructions can say it.
//! - A fault leaves the process at the instruction that has it, with nothing changed.
//! - The ticks after which a process pauses are a parameter of the definitions; `run_of` sets it to `TURN_TICKS`.
//! - Variables of a fork's table that stand in no visible frame have no spot and are handed to nobody. Generated code
//!   has none. The index of a `forall` is held in its element statement besides.
//! - `specs/Agreement.antt` says what control and system tell alike.
//! - Of the proofs on histories and journals, `Orders` to `Outs`, `Families` and `InTurn` are about histories,
//!   `OperationLaws` about instructions, `KnownChannels`, `NameableRuns` and `OneFault` about journals, `Outputs` to
//!   `Holders` about the output, in the order of `proofs/Lib.antt`.
//!
//! Lemmas for others, in `proofs`:
//! - `Members`: members of lists of numbers: where they stand, and what is above them.
//! - `LineNumbers`: lines put one after another, each with its number.
//! - `Counts`: the places of a tree's code agree with its lengths, and its code has exactly its length.
//! - `CodePositions`: where the list of a statement's instructions stands, with its fork tables and texts, the
//!   statement stands.
//! - `OneTurn`: one turn is a function, and what is computed of it is so.
//! - `Falls`: a number falls with each instruction whose ways make the rank fall.
//! - `Systems`: the system along a journal is one.
//! - `TickCounts`: the memory of a process has as many ticks left as its limit and its count say.
//! - `Blocks`: the code of a program has exactly the tree's length, and all its blocks stand in it.
//! - `StoreLaws`: what the tests of a plain store say.
//! - `Plans`: what the handings of a fork are: which spots move and which are shared, and that none comes twice
//!   where the children's variables differ.
//! - `Pieces`: the pieces of a new frame: each variable has undefined cells of its own, and no other spot changes.
//! - `Queues`: lists of numbers: each, different, among.
//! - `Orders`: each event and each take keeps the control orderly.
//! - `EventFrames`: what an event leaves of a control as it was: whether a fault stands, and what is pending.
//! - `ControlAgreement`: the control and the system go on alike: an event of the one is the event of the other.
//! - `OutProcesses`: a note of one worker leaves a process that is out with another as it is.
//! - `Legal`: a legal history determines the control and the system; what is out with a worker stays so until that
//!   worker's next note.
//! - `Outs`: the count of the processes that are out, and that nobody runs where none is out and none is ready.
//! - `OperationLaws`: what each operation of a memory keeps, each instruction keeps, and so each turn.
//! - `KnownChannels`: along a journal every process has its number and speaks of channels that are there.
//! - `Families`: a child that has not ended is awaited by its parent.
//! - `InTurn`: the journal of one worker that hands in what it holds is first in, first out.
//! - `NameableRuns`: the journal of a run is nameable: its limits keep all numbers below 2 ^ 32.
//! - `OneFault`: a journal has one fault at most, and after it only Laid.
//! - `Phases`: which phases are that of a process that has ended.
//! - `Along`: along a history the births are those that its entries give.
//! - `Outputs`: what each instruction keeps of the output: who holds it goes on holding it, and nobody else comes
//!   to it.
//! - `ForkOutputs`: a fork leaves the output with its holder, or hands it to one child.
//! - `Holders`: along a history of safe code one process holds the output, and no other.
//!
//! To change:
//! - An instruction: `src/instr.rt`, `src/words.rt`, `specs/Listing`, `Machine`, `Ranks`, and a clause in
//!   `proofs/Falls`.
//! - A form of statement: `specs/Places`, `Lengths`, `Emitted`, `CodeOfTree`, and a clause in `proofs/Counts` and
//!   `CodePositions`.
//! - An event: `proofs/Orders`, `ControlAgreement`, `OutProcesses`, `Families`, `KnownChannels`, `NameableRuns`,
//!   `Holders`.
//! - What an instruction keeps: `proofs/OperationLaws`.
#![tactic(auto)]

mod code;
pub mod history_laws;
mod instr;
pub mod laws;
mod lines;
mod words;

pub use code::{ChildTable, Code, ForkTable, Formal, Layout, MAX_CODE, MAX_FRAME, Parts};
pub use instr::Instr;
pub use lines::listing;
