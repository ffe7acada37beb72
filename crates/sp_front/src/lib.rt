//! The phases together: from the bytes of a text to its tree, its checked tree, its sets and its code, or the first
//! rule that it breaks. By laws, what the phases of names and types give of a tree: of a text without a broken rule a
//! formed tree, free of interference, with blocks fine for the code.
//!
//! Calls:
//! - `read_text`: exactly the tree of a text, or the first rule of its characters and its grammar that it breaks.
//! - `typed`: exactly the checked tree of a text, or the first rule up to types that it breaks. With a tree the text
//!   breaks none of these, and the tree's program is that of the text (`IsProgramOf`).
//! - `analyse`: the checked tree of a text and exactly its sets, or the first rule up to types that it breaks.
//!   Interference is not looked at.
//! - `analyse_apart`: the same on a thread of its own with a large stack; want of memory where no thread can be made.
//! - `compile`: the `Accepted` of a text that breaks no rule, or the first rule of all phases that it breaks. The
//!   tree's program is that of the text, free of interference, and disjoint in every lawful schedule.
//! - `Accepted`: `checked` is its checked tree, `sets` the sets of the tree.
//! - `compiled`: of a text that breaks no rule its tree, its sets and its code (`CompiledText`); else the first rule
//!   that it breaks, with its place; or want of memory. The rules are those of `compile`, and after them L5, the length
//!   of the code.
//! - `compiled_apart`: the same, on a thread with a stack for the longest text. Where no thread can be made it answers
//!   want of memory.
//! - `accepts`: that a text breaks no rule of `compiled`, or the first one that it breaks; it makes no code.
//! - `accepts_apart`: the same on a thread with a large stack, as `compiled_apart`.
//! - `CompiledText`: `checked`, `sets`, `code` are the tree, its sets, its code; `into_code` is the code alone,
//!   `into_parts` tree and code.
//! - `marked`, `marked_apart`: as `compiled` and `compiled_apart`, for commands that tell places and names: of a text
//!   that breaks no rule its code, its tree, the mark of each instruction, and the names of the constants of each type
//!   (`MarkedText`).
//!
//! Laws:
//! - `one_answer`: a text has at most one first broken rule up to types, one checked tree and one program, and never a
//!   checked tree and a broken rule.
//! - `one_compilation`: a text has at most one first broken rule of all phases, and an accepted one has none.
//! - `some_answer`: a text has a checked tree, or a first broken rule up to types; so one that breaks none has a
//!   program.
//! - `numbers_differ`: no two statements of the checked tree of a text have one number.
//! - `numbered_trees`: in the checked tree of a text a block stands after the one around it, and two statements with
//!   one number are one.
//! - `accepted_texts_are_disjoint`: on no input, with no limits and in no lawful schedule does a process of an
//!   accepted text write what a parallel one reads or writes.
//! - `one_listing`: the code of a text has one listing.
//! - `constants_go_with_the_types`: an enumeration among the types of a text has as many constants as names.
//! - `names_number_the_tree`: where no rule of names is broken, parents come before, and the parameters and the result
//!   of a block are its variables of these roles, in order (`IsNumberedTree`).
//! - `names_are_visible`: then each name in each block is of a declaration that is visible there.
//! - `types_are_formed`: where no rule of types is broken either, arrays and records are of earlier types, and an array
//!   has an element.
//! - `trees_are_free_of_interference`: a tree that breaks no rule of names and none of interference is free of
//!   interference.
//! - `functions_are_silent`: where no rule of interference is broken, a call of a function leads to no statement that a
//!   function may not have.
//! - `blocks_are_fine`: where no rule of names and types is broken, a tree that is free of interference and whose
//!   functions are silent has fine blocks.
//! - `accepted_trees_are_fine`: the tree of an accepted text is formed, has small types and is free of interference,
//!   and each block of it is fine, whatever sets its forks are given.
//!
//! To know:
//! - `src/reader.rt` has characters and grammar, `src/phases.rt` goes on up to types, `src/analysis.rt` to sets and
//!   interference, `src/acceptance.rt` to the length of the code, `src/to_code.rt` to code, `src/marks.rt` to marks
//!   and names. `specs/Texts.antt`, `Checks.antt`, `Compiles.antt`, `Codes.antt` and `TextMarks.antt` say what each of
//!   them answers; `Codes.antt` says what the listing of a text is, too.
//! - Each call may answer want of memory too.
//! - `typed`, `analyse`, `compile`, `accepts`, `compiled` and `marked` recurse as deep as the longest chain of
//!   operators is long. For `analyse`, `accepts`, `compiled` and `marked` there is a call that brings the stack for
//!   it, by `apart` of `src/apart.rt` and an `impl OfText` beside it; who calls the others has to.
//! - `IsProgramOf` of `specs/Checks.antt` is the program of a text.
//! - `specs/ScopeFacts.antt` says what names give, `MatchingTables` what tables know, `NonEmptyRecords` and `ForkWalk`
//!   what the grammar gives; `ForkWalk` leaves open what is asked of each forall and parallel statement.
//! - `proofs/AcceptedFacts` joins the facts of names and types for a text; `SmallTypes` has the cells of types.
//!
//! Lemmas for others, in `proofs`:
//! - `AcceptedFacts`: a text that breaks no rule has a formed tree that is free of interference, with fine blocks.
//! - `OneAnswer`: the phases together give one answer.
//!
//! To change:
//! - A further phase: `src/analysis.rt`, its outcome in `specs/Compiles.antt`, its line in `proofs/PhaseAnswers.antt`;
//!   one after the code: `src/to_code.rt` with `CompiledText`, and `IsCompiled` of `specs/Codes.antt`.
//! - A rule: one clause in the induction over its form, in the laws of trees.
#![tactic(auto)]

mod acceptance;
mod analysis;
mod apart;
mod law;
mod marks;
mod phases;
mod reader;
mod to_code;
pub mod tree_laws;

pub use acceptance::{accepts, accepts_apart};
pub use analysis::{Accepted, analyse, analyse_apart, compile};
pub use law::{
    accepted_texts_are_disjoint, numbered_trees, numbers_differ, one_answer, one_compilation,
    one_listing, some_answer,
};
pub use marks::{MarkedText, constants_go_with_the_types, marked, marked_apart};
pub use phases::typed;
pub use reader::read_text;
pub use to_code::{CompiledText, compiled, compiled_apart};
