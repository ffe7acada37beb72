//! The watcher `ProcessTree`: the processes of a journal as a tree, in the order of their names. That is the order that
//! `preorder.rt` finds; where it finds none, an ordered map under the names makes it.

ghost use Rattle.std.specs.Prelude.{◌≡◌, ◌++◌, [], IfOk, codes, decimal};
ghost use Rattle.std.specs.List.{flat_map};
ghost use Rattle.sp_journal.specs.Births.{IsNameable, first_births, births};
ghost use Rattle.sp_journal.specs.Ledger.{IsLedger};
ghost use Rattle.sp_report.specs.InOrder.{sorted_by_name};
ghost use Rattle.sp_report.specs.Nameable.{nameable_prop};
ghost use Rattle.sp_report.specs.Tree.{forked_processes, last_pair, tree_line, tree_lines, tree_text};
ghost use Rattle.sp_base.specs.Adds.{Adds};

use crate::have;
use crate::preorder::rising_names;
use crate::watcher::{Watcher, put_text};
use sp_base::{List, Memory, Pair, ProcName, Writer};
use sp_journal::{Entry, Journal, Ledger};
use std::alloc::Global;
use std::collections::BTreeMap;

/// Tells the processes in the order of their names, each two places further in than its parent.
#[derive(Drop)]
pub struct ProcessTree {
    alloc: Global,
    journal: Journal,
    ghost nameable: { IsNameable journal } by { nameable_prop first_births journal.entries },
}

impl ProcessTree {
    /// A tree that was told nothing. It takes no memory, and keeps the allocator.
    pub fn new(alloc: Global) -> ProcessTree
        ensures { result.journal.entries ≡ [] }
    {
        ProcessTree {
            alloc,
            journal: Journal {
                entries: List::new(alloc),
            },
        }
    }
}

/// The processes but the root, in the order of their names.
fn forked(alloc: Global, ledger: &Ledger) -> Result<BTreeMap<ProcName, u32>, Memory>
    requires { IsLedger ledger.now }
    ensures { IfOk result (λ m. m.entries
        ≡ sorted_by_name (births ledger.now.journal.entries) (forked_processes (births ledger.now.journal.entries))) }
{
    let mut names = BTreeMap::new(alloc);
    for process in 1..ledger.processes() {
        let process = process as u32;
        let name = have!(ledger.name(process));
        have!(names.insert(name, process));
    }
    Ok(names)
}

fn put_pair(out: &mut Writer<u8>, pair: Pair)
    ensures { Adds out.old out.new (decimal pair.fork ++ codes "." ++ decimal pair.child) }
{
    out.decimal(u64::from(pair.fork));
    out.extend(b".");
    out.decimal(u64::from(pair.child));
}

/// Puts the last pair, where there is one.
fn put_last(out: &mut Writer<u8>, pairs: &[Pair])
    ensures { Adds out.old out.new (last_pair pairs.now) }
{
    match pairs.last() {
        Some(pair) => put_pair(out, *pair),
        None => {}
    }
}

fn put_line(out: &mut Writer<u8>, name: &ProcName)
    ensures { Adds out.old out.new (tree_line name.now) }
{
    let pairs = name.pairs.items();
    for _pair in pairs {
        out.extend(b"  ");
    }
    put_last(out, pairs);
    out.extend(b"\n");
}

fn put_lines(out: &mut Writer<u8>, names: &BTreeMap<ProcName, u32>)
    ensures { Adds out.old out.new (tree_lines names.now.entries) }
{
    for (name, _number) in names {
        put_line(out, name);
    }
}

/// Puts the lines of names that are in order.
fn put_names(out: &mut Writer<u8>, names: &List<ProcName>)
    ensures { Adds out.old out.new (flat_map tree_line names.now) }
{
    for name in names.items() {
        put_line(out, name);
    }
}

/// Puts the lines of the processes but the root.
fn put_forked(out: &mut Writer<u8>, alloc: Global, ledger: &Ledger)
    requires { IsLedger ledger.now }
    ensures { Adds out.old out.new (tree_lines (sorted_by_name (births ledger.now.journal.entries)
        (forked_processes (births ledger.now.journal.entries)))) }
{
    match rising_names(alloc, ledger) {
        Ok(Some(names)) => put_names(out, &names),
        Ok(None) => match forked(alloc, ledger) {
            Ok(names) => put_lines(out, &names),
            Err(Memory) => out.lose(),
        },
        Err(Memory) => out.lose(),
    }
}

impl Watcher for ProcessTree {
    ghost told = { λ t. t.journal.entries };

    ghost text = { λ t es. tree_text es };

    ghost title = { λ t. codes "tree" };

    fn name(&self) -> &str {
        "tree"
    }

    fn see(&mut self, entry: &Entry) -> Result<(), Memory> {
        self.journal.push(*entry)
    }

    fn finish(&mut self, out: &mut Vec<u8>) -> Result<(), Memory> {
        let ledger = have!(Ledger::of(self.alloc, &self.journal));
        let mut text = Writer::new(self.alloc);
        text.extend(b"tree\n0\n");
        put_forked(&mut text, self.alloc, &ledger);
        put_text(out, text)
    }
}
