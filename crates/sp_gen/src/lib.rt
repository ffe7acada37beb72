//! The text of a program with as many parallel processes as one asks for.
//!
//! Calls:
//! - `generated`: for a size from 1 to 2,000 exactly the bytes of `generated_text size`; the error is want of memory
//!   alone.
//!
//! To know:
//! - That the program breaks no rule is tested by its runs, not proved. Should it break one, `gen` would name it.
//!
//! To change:
//! - The program: `specs/GeneratedText.antt`, the function of the same part in `src/text.rt`, and
//!   `parts_tests/src/gen_text.rt`.
#![tactic(auto)]

mod text;

pub use text::generated;
