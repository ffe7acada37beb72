//! The processes of a journal in the order of their names, found without comparing each name with others: children come
//! in the order of their numbers, each with all that come from it before the next. That this is the order of names is
//! looked at, not proved.

ghost use Rattle.std.specs.Prelude.{◌≡◌, ℕ, ◌<◌, ◌≤◌, ◌++◌, ◌∷◌, [], true, IfOk, MatchOption, Some, length};
ghost use Rattle.std.specs.Prelude.{slice_get, take};
ghost use Rattle.std.specs.List.{flat_map};
ghost use Rattle.sp_journal.specs.Births.{Births, births};
ghost use Rattle.sp_journal.specs.Ledger.{IsLedger};
ghost use Rattle.sp_journal.specs.Names.{proc_name};
ghost use Rattle.sp_report.specs.InOrder.{sorted_by_name};
ghost use Rattle.sp_report.specs.GuessedOrder.{AreForked, HasBelow, Rises, names_of};
ghost use Rattle.sp_report.specs.Tree.{forked_processes, tree_line, tree_lines};

use crate::have;
use sp_base::{List, Memory, Pair, ProcName};
use sp_journal::Ledger;
use std::alloc::Global;
use std::cmp::Ordering;

// Processes in an order that is guessed, and the place of each in it.
#[derive(Drop)]
struct Guess {
    order: List<u32>,
    places: List<u32>,
}

// The number there, or 0.
fn number_at(numbers: &List<u32>, at: u32) -> u32 {
    match numbers.get(at as usize) {
        None => 0,
        Some(number) => *number,
    }
}

// Puts a number there, if there is such a place.
fn put_at(numbers: &mut List<u32>, at: u32, number: u32) {
    if (at as usize) < numbers.len() {
        let _old = numbers.replace(at as usize, number);
    }
}

// Puts a process, with all that come from it, behind its parent. What is behind each process is `next`; the last of all
// that come from it is `last`, or 0 if none does.
fn link(next: &mut List<u32>, last: &mut List<u32>, process: u32, parent: u32) {
    let end = match number_at(last, process) {
        0 => process,
        end => end,
    };
    let behind = number_at(next, parent);
    put_at(next, end, behind);
    put_at(next, parent, process);
    if behind == 0 {
        put_at(last, parent, end);
    }
}

// The processes behind the root, linked from the last one to the first, so that a child stands before its later
// brothers, each with all that come from it.
fn guessed(alloc: Global, ledger: &Ledger) -> Result<Guess, Memory>
    requires { IsLedger ledger.now }
{
    let count = ledger.processes();
    let mut next = List::of(have!(vec![in alloc; 0; count as usize]));
    let mut places = List::of(have!(vec![in alloc; 0; count as usize]));
    for back in 1..count {
        let process = (count - back) as u32;
        if let Some(birth) = ledger.birth(process) {
            link(&mut next, &mut places, process, birth.parent);
        }
    }
    let mut order = List::of(have!(vec![in alloc; 0; (count - 1) as usize]));
    let mut process = number_at(&next, 0);
    for place in 0..count - 1 {
        put_at(&mut order, place as u32, process);
        put_at(&mut places, process, place as u32);
        process = number_at(&next, process);
    }
    Ok(Guess { order, places })
}

// Whether a process stands at its place.
fn is_placed(order: &List<u32>, places: &List<u32>, process: u32) -> bool
    ensures { result ≡ true → (i : ℕ) × (slice_get order.now i ≡ Some process) }
{
    match places.get(process as usize) {
        None => false,
        Some(place) => match order.get(*place as usize) {
            None => false,
            Some(found) => *found == process,
        },
    }
}

// Whether all from 1 to below so many do.
#[tactic(auto, using(crate::proofs::NameOrder::has_none, crate::proofs::NameOrder::has_fewer))]
fn has_below(order: &List<u32>, places: &List<u32>, count: u64) -> bool
    requires { count ≤ 4294967296 }
    ensures { result ≡ true → HasBelow count order.now }
{
    for process in 1..count {
        if !is_placed(order, places, process as u32) {
            return false;
        }
    }
    true
}

// Whether each name is below the next one.
fn rises(names: &[ProcName]) -> bool
    ensures { result ≡ true → Rises names.now }
{
    for k in 1..names.len() {
        match names[k - 1].order(&names[k]) {
            Ordering::Less => (),
            Ordering::Equal | Ordering::Greater => return false,
        }
    }
    true
}

// The name of a process that has one of these names, if it stands at this place of the order.
fn known<'a>(
    names: &'a List<ProcName>,
    order: &List<u32>,
    place: Option<u32>,
    process: u32,
) -> Option<&'a ProcName>
    ensures { (s : Births) → names.now ≡ names_of s (take (length names.now) order.now)
        → MatchOption result (Unit {0}) (λ n. n.now ≡ proc_name (s.name process)) }
{
    let Some(place) = place else {
        return None;
    };
    match order.get(place as usize) {
        None => None,
        Some(found) => {
            if *found == process {
                names.get(place as usize)
            } else {
                None
            }
        }
    }
}

// A name with one pair more.
fn with_pair(alloc: Global, name: &ProcName, pair: Pair) -> Result<ProcName, Memory>
    ensures { IfOk result (λ n. n.pairs ≡ name.now.pairs ++ pair ∷ []) }
{
    let mut pairs = have!(List::from_slice(alloc, name.pairs.items()));
    have!(pairs.push(pair));
    Ok(ProcName { pairs })
}

// The name of a process, by that of its parent if it is among these.
fn name_of(
    ledger: &Ledger,
    names: &List<ProcName>,
    order: &List<u32>,
    places: &List<u32>,
    process: u32,
) -> Result<ProcName, Memory>
    requires ledger { IsLedger ledger.now }
    requires there { process < (births ledger.now.journal.entries).processes }
    requires names { names.now ≡ names_of (births ledger.now.journal.entries) (take (length names.now) order.now) }
    ensures { IfOk result (λ n. n ≡ proc_name ((births ledger.now.journal.entries).name process)) }
{
    let Some(birth) = ledger.birth(process) else {
        return ledger.name(process);
    };
    let place = places.get(birth.parent as usize).copied();
    match known(names, order, place, birth.parent) {
        None => ledger.name(process),
        Some(parent) => {
            let pair = Pair {
                fork: birth.fork,
                child: birth.child,
            };
            with_pair(names.alloc(), parent, pair)
        }
    }
}

// The names of these processes, if all were forked.
fn names_of(
    alloc: Global,
    ledger: &Ledger,
    order: &List<u32>,
    places: &List<u32>,
) -> Result<Option<List<ProcName>>, Memory>
    requires { IsLedger ledger.now }
    ensures { IfOk result (λ o. MatchOption o (Unit {0})
        (λ names. (names ≡ names_of (births ledger.now.journal.entries) order.now)
        × AreForked (births ledger.now.journal.entries) order.now)) }
{
    let mut names = List::new(alloc);
    let count = ledger.processes();
    for process in order.items() {
        if *process == 0 || u64::from(*process) >= count {
            return Ok(None);
        }
        let name = have!(name_of(ledger, &names, order, places, *process));
        have!(names.push(name));
    }
    Ok(Some(names))
}

/// The names of the processes but the root in their order, if the guessed one is that order.
pub(crate) fn rising_names(alloc: Global, ledger: &Ledger) -> Result<Option<List<ProcName>>, Memory>
    requires { IsLedger ledger.now }
    ensures { IfOk result (λ o. MatchOption o (Unit {0}) (λ names. flat_map tree_line names
        ≡ tree_lines (sorted_by_name (births ledger.now.journal.entries)
        (forked_processes (births ledger.now.journal.entries))))) }
{
    let guess = have!(guessed(alloc, ledger));
    let count = ledger.processes();
    if !has_below(&guess.order, &guess.places, count) {
        return Ok(None);
    }
    match have!(names_of(alloc, ledger, &guess.order, &guess.places)) {
        None => Ok(None),
        Some(names) => {
            if rises(names.items()) {
                Ok(Some(names))
            } else {
                Ok(None)
            }
        }
    }
}
