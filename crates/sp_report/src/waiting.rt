//! The watcher `Waiting`: the processes of a journal that wait at its end. They are put in order by an ordered map
//! under their names.

ghost use Rattle.std.specs.Prelude.{◌≡◌, ◌+◌, ◌<◌, ◌≤◌, [], IfOk, codes};
ghost use Rattle.sp_journal.specs.Births.{IsNameable, first_births, births};
ghost use Rattle.sp_journal.specs.Ledger.{IsLedger};
ghost use Rattle.sp_report.specs.Conditions.{conditions};
ghost use Rattle.sp_report.specs.Fits.{ConditionsFit, ConditionFits, table_conditions};
ghost use Rattle.sp_report.specs.InOrder.{sorted_by_name};
ghost use Rattle.sp_report.specs.Nameable.{nameable_prop};
ghost use Rattle.sp_report.specs.WaitingText.{children_text, unended_children, wait_text, processes_waiting};
ghost use Rattle.sp_report.specs.WaitingText.{waiting_line};
ghost use Rattle.sp_report.specs.WaitingText.{waiting_lines};
ghost use Rattle.sp_report.specs.WaitingText.{waiting_text};
ghost use Rattle.sp_base.specs.Names.{name_text};
ghost use Rattle.sp_journal.specs.Names.{proc_name};
ghost use Rattle.sp_base.specs.Adds.{Adds};

use crate::condition::Condition;
use crate::have;
use crate::table::Table;
use crate::watcher::{Watcher, put_text};
use sp_base::{List, Memory, ProcName, Writer};
use sp_journal::{Entry, Journal, Ledger};
use std::alloc::Global;
use std::collections::BTreeMap;

/// Tells which processes send, receive or join at the end, and for what they wait.
#[derive(Drop)]
pub struct Waiting {
    alloc: Global,
    journal: Journal,
    ghost nameable: { IsNameable journal } by { nameable_prop first_births journal.entries },
}

impl Waiting {
    /// A report that was told nothing. It takes no memory, and keeps the allocator.
    pub fn new(alloc: Global) -> Waiting
        ensures { result.journal.entries ≡ [] }
    {
        Waiting {
            alloc,
            journal: Journal {
                entries: List::new(alloc),
            },
        }
    }
}

/// A journal's names, and what its processes do at its end.
#[derive(Drop)]
struct Last {
    ledger: Ledger,
    table: Table,
}

fn after_all(alloc: Global, journal: &Journal) -> Result<Last, Memory>
    requires { IsNameable journal.now }
    ensures ledger { IfOk result (λ e. IsLedger e.ledger) }
    ensures journal { IfOk result (λ e. e.ledger.journal.entries ≡ journal.now.entries) }
    ensures table { IfOk result (λ e. table_conditions e.table ≡ conditions journal.now.entries) }
    ensures fit { IfOk result (λ e. ConditionsFit (births journal.now.entries) (conditions journal.now.entries)) }
{
    let mut ledger = Ledger::new(alloc);
    let mut table = Table::new(alloc);
    for entry in journal.entries.items() {
        table.tell(&ledger, *entry);
        have!(ledger.add(*entry));
    }
    if table.is_lost {
        return Err(Memory);
    }
    Ok(Last { ledger, table })
}

/// The processes that wait, in the order of their names.
fn waiting_processes(
    alloc: Global,
    ledger: &Ledger,
    table: &Table,
) -> Result<BTreeMap<ProcName, u32>, Memory>
    requires { IsLedger ledger.now }
    ensures { IfOk result (λ m. m.entries ≡ sorted_by_name (births ledger.now.journal.entries)
        (processes_waiting (births ledger.now.journal.entries) (table_conditions table.now))) }
{
    let mut names = BTreeMap::new(alloc);
    for process in 0..ledger.processes() {
        let process = process as u32;
        if table.of(process).is_waiting() {
            let name = have!(ledger.name(process));
            have!(names.insert(name, process));
        }
    }
    Ok(names)
}

fn put_name(out: &mut Writer<u8>, ledger: &Ledger, process: u32)
    requires ledger { IsLedger ledger.now }
    requires there { process < (births ledger.now.journal.entries).processes }
    ensures { Adds out.old out.new (name_text (proc_name ((births ledger.now.journal.entries).name process))) }
{
    match ledger.name(process) {
        Ok(name) => out.name(&name),
        Err(Memory) => out.lose(),
    }
}

/// Puts the children that have not ended, of `count` from number `first` on.
fn put_children(out: &mut Writer<u8>, ledger: &Ledger, table: &Table, first: u64, count: u32)
    requires ledger { IsLedger ledger.now }
    requires there { first + count ≤ (births ledger.now.journal.entries).processes }
    ensures { Adds out.old out.new (children_text (births ledger.now.journal.entries)
        (unended_children (table_conditions table.now) first count)) }
{
    let _processes = ledger.processes();
    for child in first..first + u64::from(count) {
        let child = child as u32;
        if !table.of(child).has_ended() {
            out.extend(b" ");
            put_name(out, ledger, child);
        }
    }
}

/// Puts what a process in this condition waits for.
fn put_wait(out: &mut Writer<u8>, ledger: &Ledger, table: &Table, condition: Condition)
    requires ledger { IsLedger ledger.now }
    requires fits { ConditionFits (births ledger.now.journal.entries) condition }
    ensures { Adds out.old out.new
        (wait_text (births ledger.now.journal.entries) (table_conditions table.now) condition) }
{
    match condition {
        Condition::Offering { way, channel } => {
            out.extend(way.word().as_bytes());
            out.extend(b" ");
            match ledger.channel(channel) {
                Ok(name) => out.channel(&name),
                Err(Memory) => out.lose(),
            }
        }
        Condition::Joining { first, count, .. } => {
            out.extend(b"join");
            put_children(out, ledger, table, first, count)
        }
        Condition::Unstarted | Condition::Running | Condition::Ended | Condition::Laid => {}
    }
}

fn put_line(out: &mut Writer<u8>, last: &Last, name: &ProcName, process: u32)
    requires ledger { IsLedger last.now.ledger }
    requires fit { ConditionsFit (births last.now.ledger.journal.entries) (table_conditions last.now.table) }
    ensures { Adds out.old out.new (waiting_line (births last.now.ledger.journal.entries)
        (table_conditions last.now.table) (name.now, process)) }
{
    out.name(name);
    out.extend(b" ");
    let condition = last.table.of(process);
    put_wait(out, &last.ledger, &last.table, condition);
    out.extend(b"\n");
}

fn put_lines(out: &mut Writer<u8>, last: &Last, names: &BTreeMap<ProcName, u32>)
    requires ledger { IsLedger last.now.ledger }
    requires fit { ConditionsFit (births last.now.ledger.journal.entries) (table_conditions last.now.table) }
    ensures { Adds out.old out.new (waiting_lines (births last.now.ledger.journal.entries)
        (table_conditions last.now.table) names.now.entries) }
{
    for (name, process) in names {
        put_line(out, last, name, *process);
    }
}

impl Watcher for Waiting {
    ghost told = { λ w. w.journal.entries };

    ghost text = { λ w es. waiting_text es };

    ghost title = { λ w. codes "waiting" };

    fn name(&self) -> &str {
        "waiting"
    }

    fn see(&mut self, entry: &Entry) -> Result<(), Memory> {
        self.journal.push(*entry)
    }

    fn finish(&mut self, out: &mut Vec<u8>) -> Result<(), Memory> {
        let last = have!(after_all(self.alloc, &self.journal));
        let names = have!(waiting_processes(self.alloc, &last.ledger, &last.table));
        let mut text = Writer::new(self.alloc);
        text.extend(b"waiting\n");
        put_lines(&mut text, &last, &names);
        put_text(out, text)
    }
}
