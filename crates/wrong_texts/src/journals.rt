//! Journals as texts, the names that they give, and reports on them.

ghost use Rattle.std.specs.Prelude.{◌≡◌, ◌<◌, ℕ, IfOk};
ghost use Rattle.sp_journal.specs.Births.{births, IsNameable};
ghost use Rattle.sp_journal.specs.Names.{proc_name};
ghost use Rattle.sp_journal.specs.ReadAnswers.{ReadsJournal, ReadsAlone};
ghost use Rattle.sp_journal.specs.Texts.{journal_text};
ghost use Rattle.sp_journal.specs.declared.version.Version.TheVariants as version;
ghost use Rattle.sp_report.specs.WatcherReports.{AreFresh, reports};

use sp_base::{Memory, ProcName, Show};
use sp_journal::{Journal, ReadError};
use sp_report::Watcher;
use std::alloc::Global;

/// `sp_journal::read_journal`.
pub fn read_journal(alloc: Global, bytes: &[u8]) -> Result<Journal, ReadError>
    ensures reads { ReadsJournal bytes.now result }
    ensures alone { ReadsAlone bytes.now result }
{
    let made = sp_journal::read_journal(alloc, bytes);
    made
}

/// `sp_journal::print_journal`.
pub fn print_journal(alloc: Global, journal: &Journal) -> Result<Vec<u8>, Memory>
    requires { IsNameable journal.now }
    ensures { IfOk result (λ text. text.items ≡ journal_text version.Two journal.now) }
{
    let printed = sp_journal::print_journal(alloc, journal);
    printed
}

/// `Journal::name`.
pub fn name(journal: &Journal, process: u32) -> Result<ProcName, Memory>
    requires nameable { IsNameable journal.now }
    requires there { process < (births journal.now.entries).processes }
    ensures value { IfOk result (λ name. name ≡ proc_name ((births journal.now.entries).name process)) }
    ensures alone { IfOk result (λ name. (other : ℕ) → other < (births journal.now.entries).processes
        → proc_name ((births journal.now.entries).name other) ≡ name → other ≡ process) }
{
    let named = journal.name(process);
    named
}

/// `sp_report::tell`.
pub fn tell(
    alloc: Global,
    watchers: Vec<Box<dyn Watcher>>,
    journal: &Journal,
    show: Show,
) -> Result<Vec<u8>, Memory>
    requires fresh { AreFresh told watchers.items }
    requires nameable { IsNameable journal.now }
    ensures { IfOk result (λ out. out.items ≡ reports text title watchers.items show journal.now.entries) }
{
    let report = sp_report::tell(alloc, watchers, journal, show);
    report
}
