//! The rules V1 to V9 of code that no generator made, as relations, and the law that code which breaks none of them is
//! sound. Besides, the law that in its runs the stores of all processes are held apart: along every journal each
//! variable is own in one store at most, or shared alike.
//!
//! Laws:
//! - `verified_code_is_sound` (`laws`): code of proper sizes that breaks no rule is sound (`IsSound` of `sp_code`), and
//!   no process is in a call of a block with a result where it comes to an instruction that stops
//!   (`AnswersWithoutStop`).
//! - `verified_code_is_held` (`ownership_laws`): in the system of code of proper sizes that breaks no rule, along every
//!   journal, the stores of all processes, side by side, are a partition (`StoreOwners` of `sp_code`).
//!
//! To know:
//! - `specs/Areas.antt` divides code into areas: the code of each block and of each child of a fork. The rules are said
//!   of areas.
//! - `Shapes` and `Reach` say which operands come to an instruction; `Arrives` of `Reach` says it by ways in the order
//!   of their length.
//! - `Named` is V1, `Rules` V2 to V5 and V9, `Effects` the variables that an area stores and loads, `Forks` V6 to V8 by
//!   them, `Verdict` all rules together.
//! - `Activations` says what a process may stop at while a block with a result is being called.
//! - The other files of `specs/` are what the proof is made of: what one process has at an instruction (`Standing`),
//!   what its activations hold (`Extents`, `Holding`, `Running`), where they write (`Writable`), and what all processes
//!   hold along a journal (`Systems`).
//! - Of the proofs, `Turns` has one instruction, `FrameScopes` the resolution of variables, `Effects` that the effects
//!   of an area are variables around it, `Readiness` that a process which lives has what its next instruction needs of
//!   the memory, `Premises` what follows where no rule is broken, `RankLaws` the ranks from V9, `WriteLaws` where a
//!   process writes, `Safe` and `TurnEnds` a turn, `ForkSteps`, `Births`, `ChildEnds` and `Messages` the events,
//!   `Safety` the system along a journal, `Assembly` the law.
//! - `proofs/Rows`, `AnswerRow` and `AnswerForks` have a code that keeps all rules and neighbours of it that break one,
//!   `EffectRows` codes that break V6 or V7, `KeptRows` a code with a fork that keeps V6 and V7.
//! - `specs/Apart.antt` has what is kept along a journal: what a process knows is of a frame that it made, or its
//!   parent knows it; what moved to a child is away from the parent and known to no other child; and any two stores
//!   agree. `specs/OwnChange.antt` says what a turn may change in the store of its process.
//! - That a process writes only where it may is known from `specs/Writable.antt`. A piece that is shared no
//!   more may still stand as shared in its owner's store; `proofs/Sole.antt` shows that no other store holds it.
//! - Of the proofs on stores, `TurnStores` is one instruction and `TurnChanges` one turn, `StoreChanges`, `ForkOwners`
//!   and `JoinOwners` are the events, `EntriesKeepApart` the system along a journal.
//!
//! Lemmas for others, in `proofs`:
//! - `Lists`: lists of numbers (and what `Members` of `sp_tree` has of them), frames and their ends.
//! - `ShapePaths`: ways with shapes are ways: what is reached lies in the area.
//! - `FrameScopes`: names lead to frames: where the rules hold, an address by level and number stands in the variable
//!   that is found there, and a called block has the frames around it.
//! - `RankLaws`: where no instruction of an area lies on a way back to itself without a tick or a call, each such way
//!   makes the rank fall.
//! - `Premises`: where no rule is broken at any instruction, what the theorem asks for holds.
//! - `Assembly`: code that breaks no rule is sound.
//! - `EffectLaws`: laws of effects, for who computes them: a set that is closed under what code does, starts and
//!   calls has all effects; and each step of such a set is an effect.
//! - `Rows`: worked codes: the code of `x := 6; write(x * 7)` keeps V2, V3 and V5, and neighbours of it break V1,
//!   V2 or V9, by computing.
//!
//! To change:
//! - A rule: its file of `specs/`, its point in `KeepsCodeRules` or `Forks`, and of the proofs `Premises`, `Unbroken`
//!   or `RankLaws`; then the pass that looks for it, in `sp_verify_areas`, `sp_verify_shapes` or `sp_verify_effects`.
//! - What `StoreOwners` says: `sp_cell/specs/Holders.antt` and `Apart`, then `proofs/Sides.antt`, which has one from
//!   the other.
#![tactic(auto)]

pub mod laws;
pub mod ownership_laws;
