//! A process as its kernel uses it: it begins, takes turns, gets answers, forks and joins.

ghost use Rattle.std.specs.Prelude.{◌≡◌, ◌+◌, ◌≤◌, ◌∷◌, [], IfOk, OnOk, OnErr, length, sum, slice_get};
ghost use Rattle.sp_code.specs.Memory.{OfBlock};
ghost use Rattle.sp_code.specs.Machine.{At};
ghost use Rattle.sp_code.specs.PlainStore.{plain};
ghost use Rattle.sp_code.specs.Formals.{HaveFormals};
ghost use Rattle.sp_code.specs.Sound.{HasDistinctBlocks, CanSplit, CanJoin};
ghost use Rattle.sp_code.specs.System.{process_at_entry, table_or};
ghost use Rattle.sp_machine.specs.Procs.{config_of, start_of, KeepsNumberAndInput, CanTurn, IsRankedFrom, IsTurnOf};
ghost use Rattle.sp_machine.specs.Procs.{IsAtFork, turn_by};
ghost use Rattle.sp_lines.specs.AtTurn.{at_turn};
ghost use Rattle.sp_machine.specs.Children.{AreNewborn, plan_by};
ghost use Rattle.sp_machine.specs.Answers.{CanResume, state_after_answer};

use crate::frames::{Frame, Frames, Home};
use crate::have;
use crate::layouts::{cells_of, layout_of};
use crate::stack::Stack;
use crate::state::{State, Stop};
use sp_base::{Limits, List, Memory, Text};
use sp_cell::{Address, Cell, Spot};
use sp_code::{Code, ForkTable};
use sp_store::Store;
use std::alloc::Global;
use std::marker::Model;
use std::mem;
use std::sync::Arc;

/// A process: its state behind one box, so that it is handed on as one word. Contracts see the state.
pub struct Proc {
    pub(crate) state: Box<State>,
}

// By hand, so that it is proved once, here, and not in each crate that drops a process.
impl Drop for Proc {
    fn drop(self) {
        let Proc { state: _ } = self;
    }
}

impl Model for Proc {
    ghost use Rattle.sp_machine.specs.declared.state.State.{State};
    ghost use Rattle.sp_machine.specs.Codes.{state_code};

    ghost Value = { State };

    ghost coded = { state_code };

    ghost view = { λ p. p.state.value };
}

/// What a process gets that waits at its stop.
#[derive(Drop)]
pub enum Answer {
    /// The number of the channel that it opened.
    Opened(u32),
    /// Its message was taken.
    Sent,
    /// The message that it waited for.
    Received(List<Cell>),
    /// All its children were joined.
    Joined,
}

impl Proc {
    /// Process 0 of a run of the code on an input. It has the frame of the program, and is at its first instruction.
    /// All cells of that frame are taken here: who calls it asks `first_fits` before.
    #[tactic(auto, using(crate::proofs::LayoutLookups::few_sizes))]
    pub fn root(alloc: Global, code: &Code, input: Arc<Text>) -> Result<Proc, Memory>
        requires { HasDistinctBlocks code.now.layouts }
        ensures config { IfOk result (λ p. config_of p ≡ start_of code.now input.value) }
        ensures same { IfOk result (λ p. (p.number ≡ 0) × (p.input ≡ input)) }
    {
        let _parts = code.parts();
        match layout_of(code, 0) {
            Some(layout) => Proc::begin(alloc, layout.entry, layout.sizes.items(), input),
            None => Proc::begin(alloc, 0, &[], input),
        }
    }

    /// Its number in the run.
    pub fn number(&self) -> u32
        ensures { result ≡ self.now.number }
    {
        self.state.number
    }

    /// The number of its next instruction.
    pub fn next(&self) -> u32
        ensures { result ≡ self.now.pc }
    {
        self.state.pc
    }

    /// The instruction at which the turn ended that stopped so: at a fork, an open, a send or a receive the one that it
    /// stepped over, else its next one.
    pub fn at(&self, stop: &Stop) -> u32
        ensures { result ≡ at_turn (turn_by stop.now self.now) }
    {
        match stop {
            Stop::Fork { .. } | Stop::Open | Stop::Send { .. } | Stop::Receive { .. } => {
                self.state.pc.saturating_sub(1)
            }
            Stop::End | Stop::Pause | Stop::Fault(_) | Stop::Memory => self.state.pc,
        }
    }

    /// Its variables.
    pub fn store(&self) -> &Store
        ensures { result.now ≡ self.now.store }
    {
        &self.state.store
    }

    /// Runs the process to its next stop, or until it is due. `Stop::Fault` comes exactly where an instruction has the
    /// fault. Before it stops with `Open` or `Receive`, the piece to which the answer goes is own. `Stop::Memory` is
    /// want of memory: the process can't go on then. It also comes where the place in the input would be more than a
    /// cell can hold, which only code that writes over the input's place brings about.
    pub fn turn(&mut self, code: &Code, limits: &Limits) -> Stop
        requires ranked { IsRankedFrom self.old code.now limits.now }
        requires blocks { HasDistinctBlocks code.now.layouts }
        requires formals { HaveFormals code.now.layouts }
        requires safe { CanTurn self.old code.now limits.now }
        ensures turn { IsTurnOf self.old code.now limits.now self.new result }
        ensures same { KeepsNumberAndInput self.old self.new }
    {
        self.state.turn(code, limits)
    }

    /// At its entry in the journal: from here on its ticks count for the next pause.
    pub fn enter(&mut self)
        ensures config { config_of self.new ≡ process_at_entry (config_of self.old) }
        ensures state { self.new ≡ record self.old { since = self.old.ticks } }
    {
        self.state.since = self.state.ticks;
    }

    /// The process gets what it waits for: a channel or a message goes to its target.
    #[tactic(auto, using(sp_code::proofs::StoreLaws::cells_same, sp_cell::proofs::Laws::piece_of_own))]
    pub fn resume(&mut self, answer: Answer)
        requires { CanResume answer self.old }
        ensures { self.new ≡ state_after_answer answer self.old }
    {
        let state = &mut *self.state;
        match answer {
            Answer::Opened(channel) => match state
                .store
                .store(state.target, Cell::Channel(channel))
            {
                Ok(()) => {}
                Err(_) => unreachable!(),
            },
            Answer::Received(cells) => state.store.put(state.target, &cells),
            Answer::Sent | Answer::Joined => {}
        }
    }

    /// The children of the fork at which the process stopped, with the numbers from `number` on. What the fork's table
    /// moves to them is away here after it, and what it shares is shared. Where memory is refused, the process is as
    /// before.
    pub fn split(&mut self, code: &Code, count: u32, number: u32) -> Result<List<Proc>, Memory>
        requires blocks { HasDistinctBlocks code.now.layouts }
        requires fork { IsAtFork self.old self.old.table self.old.first count }
        requires numbers { number + count ≤ 4294967295 }
        requires can { CanSplit self.old.store (plan_by code.now self.old count) }
        ensures children { IfOk result (λ cs. AreNewborn code.now self.old
            (table_or (slice_get code.now.forks self.old.table)) number count cs) }
        ensures parent { OnOk result (self.new
            ≡ record self.old { store = plain.handed self.old.store (plan_by code.now self.old count) }) }
        ensures err { OnErr result (self.new ≡ self.old) }
    {
        match code.table(self.state.table) {
            Some(table) => self.state.split_by(code, table, count, number),
            None => {
                let table = ForkTable {
                    children: List::new(*self.state.text.allocator()),
                };
                self.state.split_by(code, &table, count, number)
            }
        }
    }

    /// Takes back from a child that has ended what moved to it.
    pub fn join(&mut self, child: Proc)
        requires { CanJoin self.old.store child.store }
        ensures { self.new ≡ record self.old { store = plain.joined self.old.store child.store } }
    {
        let mut child = child;
        let nothing = Store::empty(*self.state.text.allocator());
        let store = mem::replace(&mut child.state.store, nothing);
        self.state.store.join(store);
    }
}

impl Proc {
    /// Process 0 at an instruction, with the program's frame.
    fn begin(alloc: Global, entry: u32, sizes: &[u32], input: Arc<Text>) -> Result<Proc, Memory>
        requires { length sizes.now ≤ 4294967294 }
        ensures config { IfOk result (λ p. config_of p
            ≡ At entry [] (record {
              process = 0;
              frames = record
                  { owner = 0; number = 0; home = OfBlock 0; link = 0; references = [] } ∷ [];
              depth = 0;
              ticks = 0;
              since = 0;
              cells
                  = sum sizes.now;
              store = plain.root sizes.now;
            })) }
        ensures same { IfOk result (λ p. (p.number ≡ 0) × (p.input ≡ input)) }
    {
        let frames = have!(Frames::first(
            alloc,
            Frame {
                owner: 0,
                number: 0,
                home: Home::Block(0),
                link: 0,
                references: List::new(alloc),
            },
        ));
        let store = have!(Store::root(alloc, sizes));
        let state = State {
            number: 0,
            pc: entry,
            stack: Stack::new(alloc),
            frames,
            depth: 0,
            ticks: 0,
            since: 0,
            cells: cells_of(sizes),
            store,
            input,
            target: Address {
                spot: Spot {
                    frame: 0,
                    variable: 0,
                },
                offset: 0,
            },
            table: 0,
            first: 0,
            text: Vec::new(alloc),
            stopped: Stop::End,
        };
        Proc::boxed(alloc, state)
    }

    /// A process with this state.
    pub(crate) fn boxed(alloc: Global, state: State) -> Result<Proc, Memory>
        ensures { IfOk result (λ p. p ≡ state) }
    {
        Ok(Proc {
            state: Box::new(alloc, state)?,
        })
    }
}
