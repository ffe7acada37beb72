//! The top call: from words, a library and a source, two sinks, a gate and watchers to a status and the run.
//!
//! Calls:
//! - `superpascal`: does what the words ask and keeps `Promise` (`specs/Promise.antt`), which has eight parts:
//!   - `Headline`, of `run` and `witness`: a text is refused exactly where it breaks a rule; no process writes what a
//!     parallel one uses; output and end are those of the meaning along the journal; what `ordered` promises.
//!   - `Following`, of `replay`, `trace` and `where`: a journal is followed exactly where the meaning is defined along
//!     it, with that output and end; else status 9, with the first thing that is wrong with it.
//!   - `Tracing`: `trace` writes the text of the entries, each at the place of its statement, with its message; `where`
//!     that of the state behind the last one: each process with its place, its calls and its variables.
//!   - `Executing`, of `exec`: only code that breaks no rule is run, to the machine's output and end along the journal,
//!     which are the meaning's where `build` wrote the file; else status 10, with the first thing that is wrong.
//!   - `Witnessing`: the witness of a run's race is a journal of the program that ends where the two offers contend.
//!   - `Statuses` and `Writing`: when each status comes, exactly by its cause, and what is then written.
//!   - `IsAnswered`: which answer was due and why, and how it was written.
//! - `Outcome`: the status, and the run that is given back. `Ran`, `Closed`: runs, those of `sp_execute` and
//!   `sp_kernel`.
//!
//! To know:
//! - `src/top.rt` is the call: the words, the command that they ask for (`Command` of `sp_words`), its answer, and the
//!   writing.
//! - A command is a row of steps, each with `?`, as `run` there: load and compilation (`prepare`), input, run with
//!   verdict, texts. A step gives what the next needs, or the `Ending` of the call; one that can only be refused memory
//!   stands in `have!` (`src/ending.rt`). The steps that commands share are `src/prepare.rt`.
//! - `src/texts.rt` has the commands that answer from the text alone, `src/runs.rt` the run of a program, told as
//!   `Telling` of `sp_words` says, and `gen`, `src/replays.rt` the commands that follow a journal, with what they tell
//!   it by (`src/teller.rt`), `src/executions.rt` the one that runs a code file. `src/notes.rt` is what is told of a
//!   run, `src/answers.rt` makes the answer of an ending without a run.
//! - `src/ending.rt` is how a call ends (`Ending`) and what it has to write (`Answer`), `src/writer.rt` writes it,
//!   `src/outcome.rt` is what is given back. `src/host.rt` is what the steps take of the system (`Host`).
//! - The contract speaks of a call as `specs/Calls.antt` describes it (`Call`). What each step answers stands in
//!   `specs/Steps.antt`, what its answer is made of in `specs/AnswerParts.antt`, why an answer is due in
//!   `specs/Causes.antt` (`Cause`), what it has to write in `specs/Answers.antt`.
//! - Of the proofs, `RunFacts` and `RunningFiles` lead from `sp_execute` to a text's program and to a code file,
//!   `MarkFacts` from the tree and the marks of a text to the texts of its entries and of its state, `Parts`,
//!   `ReplayFacts` and `ExecCauses` from the steps of a command to the cause of its answer, `Why` from an ending to
//!   its cause, `EndingFacts` from both to what is due, `CallFacts` and `Executing` from cause and writing to the
//!   contract; `PromiseParts` puts the parts together.
//! - The rules of the text come before its input, so `run`, `check` and `code` name the first broken rule of all;
//!   `sets` looks up to types and `format` at characters and grammar. A text longer than the library's limit is never
//!   seen whole; that it is longer is all that L1 says, so its refusal needs no bytes.
//! - The thread that compiles has a copy of the text and gives back tree, sets and code; `prepare` keeps the code
//!   alone.
//! - "Exactly" yields to the outside and to want of memory: where the cause of a status holds, the status comes, or one
//!   from 5 to 8. 5 and 6 come only where a count rose, and 7 only where the input, if it is told, is longer than the
//!   limit.
//! - Where the library does not tell its bytes, as a real file's, the run is still that of some text that breaks no
//!   rule; nothing is said of which.
//! - Where 6 displaces a status, `IsAnswered` tells the answer that was due, and the run is given back all the same.
//! - The reports enter the clauses as a function from a choice and entries to bytes, so that definitions need not know
//!   what a watcher is.
//! - The gate is entered by each worker before each turn. `sp_main` hands in one that does nothing; a test can see by
//!   its own that workers are in turns at once.
//!
//! To change:
//! - A status or a line: `Ending` in `src/ending.rt`, `specs/Answers.antt`, `own_line` of `specs/AnswerParts.antt` and
//!   of `src/answers.rt`, its cause in `Due` of `specs/Causes.antt`, the step that it ends in `specs/Steps.antt`, its
//!   clause in `specs/Statuses.antt`, `proofs/Why.antt`, `proofs/EndingFacts.antt` and `proofs/CallFacts.antt`.
//! - A command: its variant in `sp_words`, with what it asks for; `file_of`, `text_of`, `LoadsText`, `FirstBrokenFor`,
//!   `AcceptedFor`, `asks_text`, `asks_run`, `asks_replay`, `asks_build`, `CanRead`, `Makes` and `asks_all` of
//!   `specs/Texts.antt`; its function in `src/texts.rt`, `src/runs.rt`, `src/replays.rt` or `src/executions.rt`, its
//!   arm in `src/top.rt`.
//! - What is told of a run: `run_notes` of `specs/Runs.antt`, `src/notes.rt`.
//! - What is written of a journal: `View` of `sp_words`, `Teller` of `src/teller.rt`, `IsWritten` of
//!   `specs/Replays.antt`, `HasTeller` of `specs/Steps.antt`, `account` of `src/replays.rt`.
//! - A phase over the text: `sp_front`.
#![tactic(auto)]

mod answers;
mod ending;
mod executions;
mod host;
mod notes;
mod outcome;
mod prepare;
mod replays;
mod runs;
mod teller;
mod texts;
mod top;
mod writer;

pub use outcome::Outcome;
pub use sp_execute::Ran;
pub use sp_kernel::Closed;
pub use top::superpascal;
