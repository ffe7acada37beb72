//! The telling of a journal to the chosen ones of boxed watchers that are handed in.

ghost use Rattle.std.specs.Prelude.{◌≡◌, [], All, IfOk};
ghost use Rattle.sp_base.specs.Adds.{Adds};
ghost use Rattle.sp_journal.specs.Births.{IsNameable};
ghost use Rattle.sp_report.specs.WatcherReports.{AreFresh, is_chosen, reports};

use crate::watcher::Watcher;
use sp_base::{Memory, Show, Writer};
use sp_journal::Journal;
use std::alloc::Global;

fn is_chosen(show: Show, name: &str) -> bool
    ensures { result ≡ is_chosen show name.now }
{
    match show {
        Show::End | Show::Journal => false,
        Show::Timeline => name == "timeline",
        Show::Census => name == "census",
        Show::Tree => name == "tree",
        Show::Waiting => name == "waiting",
        Show::All => true,
    }
}

/// Tells the watcher every entry of the journal, and puts its text last into `out`.
fn tell_one(watcher: &mut dyn Watcher, journal: &Journal, out: &mut Writer<u8>)
    requires fresh { told watcher.old ≡ [] }
    requires nameable { IsNameable journal.now }
    ensures { Adds out.old out.new (text watcher.old journal.now.entries) }
{
    for entry in journal.entries.items() {
        if watcher.see(entry).is_err() {
            return out.lose();
        }
    }
    let done = watcher.finish(&mut out.items);
    out.note(done);
}

/// The texts of the chosen watchers over the journal, in the order in which they are handed in. Each chosen one is
/// told every entry; the others are dropped unused.
pub fn tell(
    alloc: Global,
    watchers: Vec<Box<dyn Watcher>>,
    journal: &Journal,
    show: Show,
) -> Result<Vec<u8>, Memory>
    requires fresh { AreFresh told watchers.items }
    requires nameable { IsNameable journal.now }
    ensures { IfOk result (λ out. out.items ≡ reports text title watchers.items show journal.now.entries) }
{
    let mut out = Writer::new(alloc);
    for watcher in watchers {
        let mut watcher = watcher;
        if is_chosen(show, watcher.name()) {
            tell_one(&mut *watcher, journal, &mut out);
        }
    }
    out.finish()
}
