//! Following all ways level by level, the shorter ones first.

ghost use Rattle.std.specs.Prelude.{◌≡◌, OnOk, [], slice_get, slice_set, true};
ghost use Rattle.sp_verify_areas.specs.Blocks.{IsNumbered};
ghost use Rattle.sp_verify_areas.specs.Homes.{AreHomes};
ghost use Rattle.sp_verify_shapes.specs.Search.{AreCompared, AreStepped, ComparesAll, IsDoneSearch};
ghost use Rattle.sp_verify_shapes.specs.Search.{IsSane};
ghost use Rattle.sp_verify_shapes.specs.Search.{KeepsV1, Places, WalkOutcome, WalksAll, is_set, with_arrival};

use crate::have;
use crate::stacks::Stacks;
use crate::steps::{Arrival, Step, step_from};
use sp_base::{List, Memory};
use sp_code::Code;
use sp_verify_areas::blocks::Blocks;
use sp_verify_areas::homes::Homes;

/// What is kept meanwhile.
#[derive(Drop)]
pub struct Search {
    pub stacks: Stacks,
    /// The number of the list that came first to each instruction.
    pub at: List<Option<u32>>,
    /// Where V2 is found broken.
    pub broken: List<bool>,
    /// Instructions that wait to be stepped from.
    pub frontier: List<u32>,
    /// Lists that were brought, and wait to be compared.
    pub arrivals: List<Arrival>,
}

fn mark(broken: &mut List<bool>, p: u32)
    ensures { broken.new ≡ slice_set broken.old p true }
{
    let at = p as usize;
    if at < broken.len() {
        let _old = broken.replace(at, true);
    }
}

fn is_marked(broken: &List<bool>, p: u32) -> bool
    ensures { result ≡ is_set (slice_get broken.now p) }
{
    match broken.get(p as usize) {
        None => false,
        Some(marked) => *marked,
    }
}

// The list that came first to an instruction, if the instruction is there.
fn first_at(at: &List<Option<u32>>, p: u32) -> Option<Option<u32>>
    ensures { result ≡ slice_get at.now p }
{
    match at.get(p as usize) {
        None => None,
        Some(list) => Some(*list),
    }
}

// Puts a list that was brought into its place, or marks the instruction.
fn place(search: &mut Search, x: Arrival) -> Result<(), Memory>
    ensures { OnOk result (Places search.old search.new x) }
{
    match first_at(&search.at, x.at) {
        None => Ok(()),
        Some(None) => {
            let _none = search.at.replace(x.at as usize, Some(x.list));
            have!(search.frontier.push(x.at));
            Ok(())
        }
        Some(Some(k)) => {
            if k != x.list {
                mark(&mut search.broken, x.at);
            }
            Ok(())
        }
    }
}

// Compares all lists that were brought.
fn compare_all(search: &mut Search) -> Result<(), Memory>
    ensures { OnOk result (ComparesAll search.old search.new) }
{
    'arrivals: while let Some(x) = search.arrivals.pop() {
        have!(place(search, x));
    }
    Ok(())
}

// Has a list wait to be compared.
fn wait(arrivals: &mut List<Arrival>, x: Option<Arrival>) -> Result<(), Memory>
    ensures { OnOk result (arrivals.new ≡ with_arrival x arrivals.old) }
{
    match x {
        None => Ok(()),
        Some(x) => {
            have!(arrivals.push(x));
            Ok(())
        }
    }
}

// Steps from an instruction.
fn walk(
    code: &Code,
    blocks: &Blocks,
    homes: &Homes,
    search: &mut Search,
    p: u32,
) -> Result<(), Memory>
    requires blocks { IsNumbered blocks.now.first code.now.layouts }
    requires homes { AreHomes code.now homes.now }
    requires sane { IsSane code.now search.old }
    ensures { OnOk result (WalkOutcome code.now search.old search.new p) }
{
    if is_marked(&search.broken, p) {
        return Ok(());
    }
    let k = match first_at(&search.at, p) {
        None => return Ok(()),
        Some(None) => return Ok(()),
        Some(Some(k)) => k,
    };
    // (an instruction that has a list is there, and code is small enough)
    let _parts = code.parts();
    match have!(step_from(code, blocks, homes, &mut search.stacks, p, k)) {
        Step::Wrong => {
            mark(&mut search.broken, p);
            Ok(())
        }
        Step::To { first, second } => {
            have!(wait(&mut search.arrivals, first));
            wait(&mut search.arrivals, second)
        }
    }
}

// Steps from all instructions that wait.
fn walk_all(code: &Code, blocks: &Blocks, homes: &Homes, search: &mut Search) -> Result<(), Memory>
    requires kept { KeepsV1 code.now }
    requires blocks { IsNumbered blocks.now.first code.now.layouts }
    requires homes { AreHomes code.now homes.now }
    requires stepped { AreStepped code.now search.old }
    ensures { OnOk result (WalksAll code.now search.old search.new) }
{
    'frontier: while let Some(p) = search.frontier.pop() {
        have!(walk(code, blocks, homes, search, p));
    }
    Ok(())
}

/// Goes on until nothing is left to be done.
pub(crate) fn follow(
    code: &Code,
    blocks: &Blocks,
    homes: &Homes,
    search: &mut Search,
) -> Result<(), Memory>
    requires kept { KeepsV1 code.now }
    requires blocks { IsNumbered blocks.now.first code.now.layouts }
    requires homes { AreHomes code.now homes.now }
    requires compared { AreCompared code.now search.old }
    requires still { search.old.frontier ≡ [] }
    ensures { OnOk result (IsDoneSearch code.now search.new) }
{
    'levels: loop {
        have!(compare_all(search));
        if search.frontier.is_empty() {
            return Ok(());
        }
        have!(walk_all(code, blocks, homes, search));
    }
}
