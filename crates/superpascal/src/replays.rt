//! The commands that follow a journal: `replay`, `trace` and `where`.

ghost use Rattle.std.specs.Prelude.{ℕ, ◌≤◌, ◌≡◌, List};
ghost use Rattle.sp_journal.specs.Births.{IsNameable};
ghost use Rattle.sp_tree.specs.PlainChecked.{Program as Checked};
ghost use Rattle.sp_words.specs.Ranges.{IsInRange};
ghost use Rattle.sp_words.specs.declared.command.Command.TheVariants.{Replay};
ghost use Rattle.sp_words.specs.declared.requests.View.{View as AView};
ghost use Rattle.sp_words.specs.declared.requests.View.TheVariants as view;
ghost use Rattle.superpascal.specs.AnswerParts.{HasCode, HasEndLines};
ghost use Rattle.superpascal.specs.Causes.{files_of, stream_of};
ghost use Rattle.superpascal.specs.Runs.{Reports};
ghost use Rattle.superpascal.specs.Steps.{AccountsFor, AnswersCommand, GivesReady, GivesSymbols, HasSymbols, HasTeller};
ghost use Rattle.superpascal.specs.Steps.{TellsReplay, TracesTo};

use crate::ending::{Answer, Ending};
use crate::have;
use crate::notes::{ending_of_replay, replay_notes};
use crate::prepare::{prepare, prepare_journal, prepare_marked, read_input};
use crate::teller::{Account, Ready, Teller};
use sp_base::{Limits, Text, Word};
use sp_code::Code;
use sp_execute::{
    Traced, accepted_programs_are_ready, follow, follow_told, journals_are_told_in_the_text,
};
use sp_journal::Journal;
use sp_outside::{Library, Source};
use sp_where::{Symbols, trace_text, where_text};
use sp_words::{ReplayRequest, View};
use std::alloc::Global;
use std::sync::Arc;
use std::thread::Threads;

// Follows a journal with the code of a text that breaks no rule, and writes what the program writes along it.
fn output(
    alloc: Global,
    code: Arc<Code>,
    input: Arc<Text>,
    limits: &Limits,
    journal: &Journal,
) -> Result<Account, Ending>
    requires range { IsInRange 1 limits.now }
    requires code { (program : List ℕ) × (tree : Checked) × HasCode program tree code.value }
    requires nameable { IsNameable journal.now }
    ensures { (program : List ℕ) (tree : Checked) → HasCode program tree code.value
        → AccountsFor view.Output program input.value limits.now journal.now result }
{
    accepted_programs_are_ready();
    let replayed = follow(alloc, code, input, limits, journal)?;
    Ok(Account {
        end: replayed.end,
        text: replayed.output,
    })
}

// Follows a journal so, and gives what is told of the entries and the state behind them.
fn trace_code(
    alloc: Global,
    code: Arc<Code>,
    input: Arc<Text>,
    limits: &Limits,
    journal: &Journal,
) -> Result<Traced, Ending>
    requires range { IsInRange 1 limits.now }
    requires code { (program : List ℕ) × (tree : Checked) × HasCode program tree code.value }
    requires nameable { IsNameable journal.now }
    ensures { (program : List ℕ) (tree : Checked) → HasCode program tree code.value
        → TracesTo program tree code.value input.value limits.now journal.now result }
{
    accepted_programs_are_ready();
    journals_are_told_in_the_text();
    let traced = follow_told(alloc, code, input, limits, journal)?;
    Ok(traced)
}

// Follows a journal with the code of a text, and writes its entries. The text may be long, so the state behind them is
// given back before it is made.
fn entries(
    alloc: Global,
    code: Arc<Code>,
    symbols: &Symbols,
    input: Arc<Text>,
    limits: &Limits,
    journal: &Journal,
) -> Result<Account, Ending>
    requires range { IsInRange 1 limits.now }
    requires code { (program : List ℕ) × (tree : Checked) × HasCode program tree code.value }
    requires nameable { IsNameable journal.now }
    ensures { (program : List ℕ) (tree : Checked) → HasCode program tree code.value
        → HasSymbols program tree symbols.now
        → AccountsFor view.Entries program input.value limits.now journal.now result }
{
    let traced = trace_code(alloc, code, input, limits, journal)?;
    let Traced {
        replayed,
        told,
        state,
    } = traced;
    drop(state);
    let text = have!(trace_text(alloc, symbols, journal, told.items()));
    Ok(Account {
        end: replayed.end,
        text: Text::of(text),
    })
}

// The same with the state behind its last entry.
fn state(
    alloc: Global,
    code: Arc<Code>,
    symbols: &Symbols,
    input: Arc<Text>,
    limits: &Limits,
    journal: &Journal,
) -> Result<Account, Ending>
    requires range { IsInRange 1 limits.now }
    requires code { (program : List ℕ) × (tree : Checked) × HasCode program tree code.value }
    requires nameable { IsNameable journal.now }
    ensures { (program : List ℕ) (tree : Checked) → HasCode program tree code.value
        → HasSymbols program tree symbols.now
        → AccountsFor view.State program input.value limits.now journal.now result }
{
    let lent = have!(Arc::try_clone(&code));
    let traced = trace_code(alloc, lent, input, limits, journal)?;
    let text = have!(where_text(alloc, symbols, &code, journal, &traced));
    Ok(Account {
        end: traced.replayed.end,
        text: Text::of(text),
    })
}

// Follows a journal with the code of a text, and writes of it what is asked for.
fn account(
    alloc: Global,
    ready: Ready,
    input: Text,
    limits: &Limits,
    journal: &Journal,
) -> Result<Account, Ending>
    requires range { IsInRange 1 limits.now }
    requires code { (program : List ℕ) × (tree : Checked) × HasCode program tree ready.code }
    requires nameable { IsNameable journal.now }
    ensures { (program : List ℕ) (tree : Checked) (view : AView) → HasCode program tree ready.code
        → HasTeller program tree view ready.teller → AccountsFor view program input limits.now journal.now result }
{
    let code = have!(Arc::new(alloc, ready.code));
    let input = have!(Arc::new(alloc, input));
    match &ready.teller {
        Teller::Output => output(alloc, code, input, limits, journal),
        Teller::Entries(symbols) => entries(alloc, code, symbols, input, limits, journal),
        Teller::State(symbols) => state(alloc, code, symbols, input, limits, journal),
    }
}

// Tells of a journal that was followed.
fn tell_replay(alloc: Global, account: Account) -> Result<Answer, Ending>
    requires lines { HasEndLines account.end }
    ensures { TellsReplay account result }
{
    let notes = have!(replay_notes(alloc, &account.end));
    Ok(Answer {
        ending: ending_of_replay(&account.end),
        ran: None,
        executed: None,
        output: Some(account.text),
        notes: Text::of(notes),
    })
}

// The code of the text in this file, and its tree, marks and names.
fn symbols<L: Library>(
    rt: &impl Threads,
    alloc: Global,
    library: &mut L,
    file: &Word,
) -> Result<(Code, Symbols), Ending>
    ensures symbols { GivesSymbols (files_of L.held L.faults library.old library.new) file.now result }
    ensures counted { (other : List ℕ) → L.faults library.old other ≤ L.faults library.new other }
    ensures unchanged { (other : List ℕ) → L.held library.new other ≡ L.held library.old other }
{
    let marked = prepare_marked(rt, alloc, library, file)?;
    let symbols = Symbols {
        checked: marked.checked,
        marks: marked.marks,
        constants: marked.constants,
    };
    Ok((marked.code, symbols))
}

// The code of the text that is asked for, and what its journals are told by.
fn ready<L: Library>(
    rt: &impl Threads,
    alloc: Global,
    library: &mut L,
    asked: &ReplayRequest,
) -> Result<Ready, Ending>
    ensures ready { GivesReady (files_of L.held L.faults library.old library.new) asked.now.file asked.now.view
        result }
    ensures counted { (other : List ℕ) → L.faults library.old other ≤ L.faults library.new other }
    ensures unchanged { (other : List ℕ) → L.held library.new other ≡ L.held library.old other }
{
    match asked.view {
        View::Output => {
            let code = prepare(rt, alloc, library, &asked.file)?;
            Ok(Ready {
                code,
                teller: Teller::Output,
            })
        }
        View::Entries => {
            let (code, symbols) = symbols(rt, alloc, library, &asked.file)?;
            let teller = Teller::Entries(symbols);
            Ok(Ready { code, teller })
        }
        View::State => {
            let (code, symbols) = symbols(rt, alloc, library, &asked.file)?;
            let teller = Teller::State(symbols);
            Ok(Ready { code, teller })
        }
    }
}

/// Follows the journal that is asked for with the program on the input, and tells of it.
pub(crate) fn replay<L: Library, I: Source>(
    rt: &impl Threads,
    alloc: Global,
    asked: &ReplayRequest,
    library: &mut L,
    input: &mut I,
) -> Result<Answer, Ending>
    requires range { IsInRange 1 asked.now.limits }
    ensures { (reports : Reports)
        → AnswersCommand (files_of L.held L.faults library.old library.new)
        (stream_of I.left I.faults input.old input.new) reports
        (Replay asked.now) result }
{
    let ready = ready(rt, alloc, library, asked)?;
    let journal = prepare_journal(alloc, library, &asked.journal)?;
    let input = read_input(alloc, input)?;
    let account = account(alloc, ready, input, &asked.limits, &journal)?;
    tell_replay(alloc, account)
}
