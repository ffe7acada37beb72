//! The commands that answer from the text alone: `check`, `code`, `build`, `sets` and `format`.

ghost use Rattle.std.specs.Prelude.{◌≡◌, ℕ, List};
ghost use Rattle.sp_words.specs.declared.command.Command.TheVariants.{Build, Check, Code, Format, Sets};
ghost use Rattle.superpascal.specs.Causes.{files_of};
ghost use Rattle.superpascal.specs.Steps.{AnswersText, TellsSets};
ghost use Rattle.superpascal.specs.Texts.{HasCodeText};

use crate::answers::accepted;
use crate::ending::{Answer, Ending};
use crate::have;
use crate::prepare::{load_text, prepare};
use sp_base::{Halt, Word};
use sp_code::listing;
use sp_codefile::encode;
use sp_format::format;
use sp_front::{accepts_apart, analyse_apart, one_answer};
use sp_generate::one_code;
use sp_outside::Library;
use sp_varsets::print_sets;
use std::alloc::Global;
use std::thread::Threads;

/// The longest code file, in bytes.
const LONGEST_CODE: usize = 67_108_864;

/// Says of the text in this file that it is accepted.
pub(crate) fn check<L: Library>(
    rt: &impl Threads,
    alloc: Global,
    library: &mut L,
    file: &Word,
) -> Result<Answer, Ending>
    ensures { AnswersText (files_of L.held L.faults library.old library.new) (Check file.now)
        result }
{
    let text = load_text(alloc, library, file)?;
    accepts_apart(rt, alloc, text.as_slice())?;
    let line = have!(Vec::from_slice(alloc, b"accepted\n"));
    Ok(accepted(Vec::new(alloc), line))
}

/// Lists the code of the text in this file.
pub(crate) fn list<L: Library>(
    rt: &impl Threads,
    alloc: Global,
    library: &mut L,
    file: &Word,
) -> Result<Answer, Ending>
    ensures { AnswersText (files_of L.held L.faults library.old library.new) (Code file.now)
        result }
{
    let code = prepare(rt, alloc, library, file)?;
    let lines = listing(alloc, &code);
    drop(code);
    let lines = have!(lines);
    Ok(accepted(lines, Vec::new(alloc)))
}

/// Writes the code of the text in this file as a file.
pub(crate) fn build<L: Library>(
    rt: &impl Threads,
    alloc: Global,
    library: &mut L,
    file: &Word,
) -> Result<Answer, Ending>
    ensures { AnswersText (files_of L.held L.faults library.old library.new) (Build file.now)
        result }
{
    let code = prepare(rt, alloc, library, file)?;
    let bytes = encode(alloc, &code);
    drop(code);
    let bytes = have!(bytes);
    if bytes.len() > LONGEST_CODE {
        return Err(Ending::LongCode);
    }
    Ok(accepted(bytes, Vec::new(alloc)))
}

// The sets of a text, as a text.
fn sets_text(rt: &impl Threads, alloc: Global, text: &[u8]) -> Result<Vec<u8>, Halt>
    ensures { TellsSets text.now result }
{
    let found = analyse_apart(rt, alloc, text)?;
    let (checked, sets) = found;
    let lines = print_sets(alloc, &checked, &sets);
    drop(checked);
    drop(sets);
    match lines {
        Ok(lines) => Ok(lines),
        Err(_) => Err(Halt::Memory),
    }
}

/// Tells the sets of the text in this file.
pub(crate) fn tell_sets<L: Library>(
    rt: &impl Threads,
    alloc: Global,
    library: &mut L,
    file: &Word,
) -> Result<Answer, Ending>
    ensures { AnswersText (files_of L.held L.faults library.old library.new) (Sets file.now)
        result }
{
    let text = load_text(alloc, library, file)?;
    let lines = sets_text(rt, alloc, text.as_slice())?;
    Ok(accepted(lines, Vec::new(alloc)))
}

/// Lays the text in this file out.
pub(crate) fn lay_out<L: Library>(
    alloc: Global,
    library: &mut L,
    file: &Word,
) -> Result<Answer, Ending>
    ensures { AnswersText (files_of L.held L.faults library.old library.new) (Format file.now)
        result }
{
    let text = load_text(alloc, library, file)?;
    let layout = format(alloc, text.as_slice())?;
    Ok(accepted(layout, Vec::new(alloc)))
}

/// The code of a text has one text.
pub(crate) fn one_code_text()
    ensures { (text a b : List ℕ) → HasCodeText text a → HasCodeText text b → a ≡ b }
{
    one_answer();
    one_code();
}
