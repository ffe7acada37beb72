//! The tests of `sp_report`: reports of small journals, by hand.

ghost use Rattle.sp_journal.specs.Births.{IsNameable};

use crate::byte_lists::{add, is_text};
use sp_base::{List, Memory, Show};
use sp_journal::{Entry, Event, Journal, read_journal};
use sp_report::{Census, ProcessTree, Timeline, Waiting, Watcher, in_order, tell};
use std::alloc::Global;

const FORK: Entry = Entry {
    process: 0,
    event: Event::Fork(2),
};

const CHILD_ENDS: Entry = Entry {
    process: 1,
    event: Event::End,
};

const PAUSE: Entry = Entry {
    process: 0,
    event: Event::Pause,
};

#[test]
fn timeline(rt: HostRuntime) -> Result<(), Memory> {
    let alloc = rt.alloc();
    let mut timeline = Timeline::new(alloc);
    timeline.see(&FORK)?;
    timeline.see(&CHILD_ENDS)?;
    timeline.see(&PAUSE)?;
    let mut out = Vec::new(alloc);
    timeline.finish(&mut out)?;
    assert_eq!(rt;
        out.as_slice(),
        b"timeline\n0 0 fork 2\n1 0/0.0 end\n2 0 pause\n".as_slice()
    );
    Ok(())
}

#[test]
fn census(rt: HostRuntime) -> Result<(), Memory> {
    let alloc = rt.alloc();
    let mut census = Census::new(alloc);
    census.see(&FORK)?;
    census.see(&CHILD_ENDS)?;
    census.see(&PAUSE)?;
    let mut out = Vec::new(alloc);
    census.finish(&mut out)?;
    let expected = b"census\nforks 1\nopens 0\nsends 0\nreceives 0\nends 1\nfaults 0\nlaid 0\n";
    assert_eq!(rt; out.as_slice(), expected.as_slice());
    Ok(())
}

#[test]
fn names_of_watchers(rt: HostRuntime) {
    assert_eq!(rt; Timeline::new(rt.alloc()).name(), "timeline");
    assert_eq!(rt; Census::new(rt.alloc()).name(), "census");
}

// The texts of the four watchers over the journal, those that the name chooses.
fn told(alloc: Global, journal: &Journal, show: Show) -> Result<Vec<u8>, Memory>
    requires { IsNameable journal.now }
{
    let timeline: Box<dyn Watcher> = Box::new(alloc, Timeline::new(alloc))?;
    let census: Box<dyn Watcher> = Box::new(alloc, Census::new(alloc))?;
    let tree: Box<dyn Watcher> = Box::new(alloc, ProcessTree::new(alloc))?;
    let waiting: Box<dyn Watcher> = Box::new(alloc, Waiting::new(alloc))?;
    let watchers = in_order(alloc, timeline, census, tree, waiting)?;
    tell(alloc, watchers, journal, show)
}

#[test]
fn nobody(rt: HostRuntime) {
    let alloc = rt.alloc();
    let journal = Journal {
        entries: List::new(alloc),
    };
    assert!(rt; is_text(tell(alloc, Vec::new(alloc), &journal, Show::All), b""));
    drop(journal);
}

// Whether that is told of the journal with these lines.
fn tells(alloc: Global, journal: &[u8], show: Show, wanted: &[u8]) -> bool {
    match read_journal(alloc, journal) {
        Ok(journal) => {
            let text = told(alloc, &journal, show);
            drop(journal);
            is_text(text, wanted)
        }
        Err(_) => false,
    }
}

// The same, of a journal without its first line, and of what stands behind the first lines of the report.
fn tells_behind(alloc: Global, (lines, show, front, rest): &Row) -> bool {
    let mut journal = Vec::new(alloc);
    add(&mut journal, b"superpascal journal 2\n");
    add(&mut journal, lines.as_bytes());
    let mut wanted = Vec::new(alloc);
    add(&mut wanted, front.as_bytes());
    add(&mut wanted, rest.as_bytes());
    tells(alloc, &journal, *show, &wanted)
}

/// Lines of a journal, what is shown, and its text in two parts.
type Row<'a> = (&'a str, Show, &'a str, &'a str);

const FORKED: &str = "0 fork 2\n0/0.0 end\n0/0.1 end\n0 end\n";

const FORKED_JOURNAL: &[u8] = b"superpascal journal 2\n0 fork 2\n0/0.0 end\n0/0.1 end\n0 end\n";

const TIMELINE: &str = "timeline\n0 0 fork 2\n1 0/0.0 end\n2 0/0.1 end\n3 0 end\n";

const CENSUS: &str = "census\nforks 1\nopens 0\nsends 0\nreceives 0\nends 3\nfaults 0\nlaid 0\n";

const TREE: &str = "tree\n0\n  0.0\n  0.1\n";

const REPORTS: [Row; 22] = [
    (FORKED, Show::End, "", ""),
    (FORKED, Show::Timeline, TIMELINE, ""),
    (FORKED, Show::Census, CENSUS, ""),
    (FORKED, Show::Tree, TREE, ""),
    (FORKED, Show::Waiting, "waiting\n", ""),
    (FORKED, Show::Journal, "", ""),
    ("", Show::Timeline, "timeline\n", ""),
    (
        "",
        Show::Census,
        "census\nforks 0\nopens 0\nsends 0\nreceives 0\nends 0\nfaults 0\nlaid 0\n",
        "",
    ),
    ("", Show::Tree, "tree\n0\n", ""),
    ("", Show::Waiting, "waiting\n", ""),
    (
        "0 fork 11\n0/0.10 fork 1\n0/0.2 fork 1\n0/0.2 fork 2\n",
        Show::Tree,
        "tree\n0\n",
        "  0.0\n  0.1\n  0.2\n    0.0\n    1.0\n    1.1\n  0.3\n  0.4\n  0.5\n  0.6\n  0.7\n  0.8\n  0.9\n  0.10\n    0.0\n",
    ),
    ("0 open\n", Show::Tree, "tree\n0\n", ""),
    (
        "0 open\n0 fork 2\n0/0.0 receive 0#0\n0/0.1 end\n",
        Show::Waiting,
        "waiting\n",
        "0 join 0/0.0\n0/0.0 receive 0#0\n",
    ),
    (
        "0 open\n0 receive 0#0\n",
        Show::Waiting,
        "waiting\n",
        "0 receive 0#0\n",
    ),
    // a rendezvous lets both go on
    (
        "0 open\n0 fork 2\n0/0.1 send 0#0\n0/0.0 receive 0#0\n",
        Show::Waiting,
        "waiting\n",
        "0 join 0/0.0 0/0.1\n",
    ),
    // a second offer of one way, and entries of those who wait, change nothing
    (
        "0 open\n0 fork 2\n0/0.1 send 0#0\n0/0.0 send 0#0\n0/0.1 end\n0 pause\n",
        Show::Waiting,
        "waiting\n",
        "0 join 0/0.0 0/0.1\n0/0.1 send 0#0\n",
    ),
    // the last child lets its parent go on
    (
        "0 fork 2\n0/0.1 end\n0/0.0 end\n0 open\n0 receive 0#0\n",
        Show::Waiting,
        "waiting\n",
        "0 receive 0#0\n",
    ),
    // who is laid has not ended and does not wait
    (
        "0 fork 2\n0/0.0 fault F4\n0/0.1 end\n0/0.1 laid\n",
        Show::Waiting,
        "waiting\n",
        "0 join 0/0.0 0/0.1\n",
    ),
    (
        "0 fork 2\n0/0.0 laid\n0/0.0 end\n",
        Show::Waiting,
        "waiting\n",
        "0 join 0/0.1\n",
    ),
    // a fork that changes nothing starts nobody
    (
        "0 fork 1\n0 fork 1\n0/1.0 open\n0/1.0 send 0/1.0#0\n0/0.0 end\n",
        Show::Waiting,
        "waiting\n",
        "",
    ),
    // a fault counts whoever makes it
    (
        "0 fork 1\n0 fault F1\n0/0.0 open\n0/0.0 send 0/0.0#0\n",
        Show::Waiting,
        "waiting\n",
        "0 join 0/0.0\n",
    ),
    ("0 fork 0\n0 end\n", Show::Waiting, "waiting\n", "0 join\n"),
];

#[test]
fn reports(rt: HostRuntime) {
    for row in &REPORTS {
        let (lines, ..) = row;
        assert!(rt; tells_behind(rt.alloc(), row), "{lines}");
    }
}

#[test]
fn all_shown(rt: HostRuntime) {
    let mut all = Vec::new(rt.alloc());
    for text in [TIMELINE, CENSUS, TREE, "waiting\n"] {
        add(&mut all, text.as_bytes());
    }
    assert!(rt; tells(rt.alloc(), FORKED_JOURNAL, Show::All, &all));
}
