//! The steps of a command before its run: a file is loaded, a text compiled, a journal and a code file read, and the
//! input. Each that ends the command says how.

ghost use Rattle.std.specs.Prelude.{◌≡◌, ◌≤◌, List, ℕ};
ghost use Rattle.superpascal.specs.Causes.{files_of, stream_of};
ghost use Rattle.superpascal.specs.Steps.{CompilesTo, DecodesTo, GivesBytes, GivesCode, GivesFile, GivesInput};
ghost use Rattle.superpascal.specs.Steps.{GivesJournal, GivesMarked, GivesText, MarksTo, ReadsJournal, VerifiesTo};

use crate::ending::Ending;
use sp_base::{Halt, Place, Refusal, Rule, Text, Word};
use sp_code::Code;
use sp_codefile::{DecodeError, Rejected, decode, verify};
use sp_front::{MarkedText, compiled_apart, marked_apart};
use sp_journal::{Journal, ReadError as JournalError, read_journal};
use sp_outside::{Library, LoadError, ReadError, Source, read_all};
use std::alloc::Global;
use std::thread::Threads;

/// The longest text that is loaded, in bytes.
const LONGEST_TEXT: u32 = 1_048_576;

/// The longest text of a journal that is loaded, in bytes.
const LONGEST_JOURNAL: u32 = 67_108_864;

/// The longest code file that is loaded, in bytes.
const LONGEST_FILE: u32 = 67_108_864;

/// The longest input that is read, in bytes.
const LONGEST_INPUT: u32 = 16_777_216;

/// What a text breaks that is longer than a text may be.
const TOO_LONG: Refusal = Refusal {
    rule: Rule::L1,
    at: Place { line: 1, column: 1 },
};

// The bytes under a name, if they are no more than `limit`; `long` is the ending where they are more.
fn load<L: Library>(
    alloc: Global,
    library: &mut L,
    name: &Word,
    limit: u32,
    long: Ending,
) -> Result<Vec<u8>, Ending>
    ensures loaded { GivesBytes (files_of L.held L.faults library.old library.new) name.now limit long
        result }
    ensures counted { (other : List ℕ) → L.faults library.old other ≤ L.faults library.new other }
    ensures unchanged { (other : List ℕ) → L.held library.new other ≡ L.held library.old other }
{
    match library.load(alloc, name.text(), limit) {
        Ok(bytes) => Ok(bytes),
        Err(LoadError::TooLong) => Err(long),
        Err(LoadError::Failed) => Err(Ending::ReadFault),
        Err(LoadError::Memory) => Err(Ending::OutOfMemory),
    }
}

/// The text in this file.
pub(crate) fn load_text<L: Library>(
    alloc: Global,
    library: &mut L,
    file: &Word,
) -> Result<Vec<u8>, Ending>
    ensures loaded { GivesText (files_of L.held L.faults library.old library.new) file.now result }
    ensures counted { (other : List ℕ) → L.faults library.old other ≤ L.faults library.new other }
    ensures unchanged { (other : List ℕ) → L.held library.new other ≡ L.held library.old other }
{
    load(
        alloc,
        library,
        file,
        LONGEST_TEXT,
        Ending::Refused(TOO_LONG),
    )
}

/// The code of a text, or the first of all rules that it breaks.
pub(crate) fn compile(rt: &impl Threads, alloc: Global, text: &[u8]) -> Result<Code, Ending>
    ensures { CompilesTo text.now result }
{
    match compiled_apart(rt, alloc, text) {
        Ok(compiled) => Ok(compiled.into_code()),
        Err(Halt::Refused(refusal)) => Err(Ending::Refused(refusal)),
        Err(Halt::Memory) => Err(Ending::OutOfMemory),
    }
}

/// The code of the text in this file: loads it and compiles it.
pub(crate) fn prepare<L: Library>(
    rt: &impl Threads,
    alloc: Global,
    library: &mut L,
    file: &Word,
) -> Result<Code, Ending>
    ensures prepared { GivesCode (files_of L.held L.faults library.old library.new) file.now result }
    ensures counted { (other : List ℕ) → L.faults library.old other ≤ L.faults library.new other }
    ensures unchanged { (other : List ℕ) → L.held library.new other ≡ L.held library.old other }
{
    let text = load_text(alloc, library, file)?;
    compile(rt, alloc, text.as_slice())
}

// What is known of a text for commands that tell its places, or the first of all rules that it breaks.
fn mark(rt: &impl Threads, alloc: Global, text: &[u8]) -> Result<MarkedText, Ending>
    ensures { MarksTo text.now result }
{
    match marked_apart(rt, alloc, text) {
        Ok(marked) => Ok(marked),
        Err(Halt::Refused(refusal)) => Err(Ending::Refused(refusal)),
        Err(Halt::Memory) => Err(Ending::OutOfMemory),
    }
}

/// The same of the text in this file: loads it and compiles it.
pub(crate) fn prepare_marked<L: Library>(
    rt: &impl Threads,
    alloc: Global,
    library: &mut L,
    file: &Word,
) -> Result<MarkedText, Ending>
    ensures prepared { GivesMarked (files_of L.held L.faults library.old library.new) file.now result }
    ensures counted { (other : List ℕ) → L.faults library.old other ≤ L.faults library.new other }
    ensures unchanged { (other : List ℕ) → L.held library.new other ≡ L.held library.old other }
{
    let text = load_text(alloc, library, file)?;
    mark(rt, alloc, text.as_slice())
}

// The journal of these bytes.
fn journal_of(alloc: Global, bytes: &[u8]) -> Result<Journal, Ending>
    ensures { ReadsJournal bytes.now result }
{
    match read_journal(alloc, bytes) {
        Ok(journal) => Ok(journal),
        Err(JournalError::BadLine(line)) => Err(Ending::BadJournal(line)),
        Err(JournalError::Memory) => Err(Ending::OutOfMemory),
    }
}

/// The journal in this file: loads it and reads it.
pub(crate) fn prepare_journal<L: Library>(
    alloc: Global,
    library: &mut L,
    file: &Word,
) -> Result<Journal, Ending>
    ensures { GivesJournal (files_of L.held L.faults library.old library.new) file.now result }
{
    let bytes = load(alloc, library, file, LONGEST_JOURNAL, Ending::LongJournal)?;
    journal_of(alloc, bytes.as_slice())
}

// The code whose text these bytes are.
fn code_of(alloc: Global, bytes: &[u8]) -> Result<Code, Ending>
    ensures { DecodesTo bytes.now result }
{
    match decode(alloc, bytes) {
        Ok(code) => Ok(code),
        Err(DecodeError::BadLine(line)) => Err(Ending::BadCode(line)),
        Err(DecodeError::Memory) => Err(Ending::OutOfMemory),
    }
}

// The code itself, if it breaks no rule of code files.
fn verified(code: Code) -> Result<Code, Ending>
    ensures { VerifiesTo code result }
{
    match verify(code) {
        Ok(verified) => Ok(verified.into_code()),
        Err(Rejected::Rule(rule, instruction)) => Err(Ending::Rejected(rule, instruction)),
        Err(Rejected::Memory) => Err(Ending::OutOfMemory),
    }
}

/// The code of this code file: loads it, reads it and verifies it.
pub(crate) fn prepare_file<L: Library>(
    alloc: Global,
    library: &mut L,
    file: &Word,
) -> Result<Code, Ending>
    ensures { GivesFile (files_of L.held L.faults library.old library.new) file.now result }
{
    let bytes = load(alloc, library, file, LONGEST_FILE, Ending::LongFile)?;
    let code = code_of(alloc, bytes.as_slice())?;
    verified(code)
}

/// The whole input.
pub(crate) fn read_input<I: Source>(alloc: Global, input: &mut I) -> Result<Text, Ending>
    ensures { GivesInput (stream_of I.left I.faults input.old input.new) result }
{
    match read_all(alloc, input, LONGEST_INPUT) {
        Ok(bytes) => Ok(bytes),
        Err(ReadError::TooLong) => Err(Ending::TooLong),
        Err(ReadError::Failed) => Err(Ending::ReadFault),
        Err(ReadError::Memory) => Err(Ending::OutOfMemory),
    }
}
