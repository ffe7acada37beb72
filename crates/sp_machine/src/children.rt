//! Forks: what a process hands to its children, and how the children begin.

ghost use Rattle.std.specs.Prelude.{◌≡◌, ℕ, ◌+◌, ◌<◌, ◌≤◌, IfOk, OnOk, OnErr, IsSome, pos, ◌+ℤ◌, ◌≤ℤ◌, length, get_or};
ghost use Rattle.std.specs.Prelude.{◌≢◌, ℤ, Some, IfSome};
ghost use Rattle.std.specs.Option.{option_copied};
ghost use Rattle.sp_cell.specs.declared.spot.Handing.{Handing};
ghost use Rattle.sp_cell.specs.Map.{Plain};
ghost use Rattle.sp_cell.specs.Fork.{index_frame};
ghost use Rattle.sp_cell.specs.Frame.{least_above, frames};
ghost use Rattle.sp_code.specs.PlainStore.{plain};
ghost use Rattle.sp_code.specs.Sound.{HasDistinctBlocks, CanSplit};
ghost use Rattle.sp_code.specs.System.{place_of, first_number, spot_by, spot_in, spot_from, spot_of, spots_of};
ghost use Rattle.sp_code.specs.System.{plan_from, child_or};
ghost use Rattle.sp_code.specs.Tables.{child_at};
ghost use Rattle.sp_store.specs.Layout.{FramesBelow};
ghost use Rattle.sp_machine.specs.Children.{handed_to, with_frame, IsBornSo, AreBornSo, AreNewborn};
ghost use Rattle.sp_machine.specs.declared.state.State.{State};
ghost use Rattle.sp_machine.specs.Frames.{frame_of, home_of};
ghost use Rattle.sp_machine.specs.Seen.{IsSeen};

use crate::frames::{Frame, Frames, Home, referred, smaller};
use crate::have;
use crate::layouts::layout_of;
use crate::proc::Proc;
use crate::seen::seen_by;
use crate::stack::Stack;
use crate::state::{State, Stop};
use sp_base::{List, Memory};
use sp_cell::{Handing, Spot};
use sp_code::{ChildTable, Code, ForkTable, Formal, Layout};
use sp_store::Store;
use std::alloc::Global;
use std::collections::BTreeMap;
use std::sync::Arc;

/// The place of a variable of the tree in a frame, counted from the first one. More places than a number can tell count
/// as want of memory.
#[tactic(auto, using(crate::proofs::VariablePlaces::place_here, crate::proofs::VariablePlaces::place_on, crate::proofs::VariablePlaces::place_end))]
fn place_of(variable: u32, first: u32, variables: &[u32]) -> Result<Option<u32>, Memory>
    ensures { IfOk result (λ r. r ≡ place_of variable first variables.now) }
{
    let mut place = first;
    for other in variables {
        if variable == *other {
            return Ok(Some(place));
        }
        match place.checked_add(1) {
            Some(next) => place = next,
            None => return Err(Memory),
        }
    }
    Ok(None)
}

/// The program's frame has its variables from number 2 on.
pub(crate) fn first_number(layout: &Layout) -> u32
    ensures value { result ≡ first_number layout.now }
    ensures small { result ≤ 2 }
{
    if layout.block == 0 { 2 } else { 0 }
}

/// A variable of a frame at a place, or what the variable parameter there stands for.
fn spot_by(frame: &Frame, place: u32, formal: Option<Formal>) -> Option<Spot>
    ensures { result ≡ spot_by (frame_of frame.now) place formal }
{
    match formal {
        None | Some(Formal::Value(_)) => Some(Spot {
            frame: frame.number,
            variable: place,
        }),
        Some(Formal::Reference(_)) => match referred(place, frame.references.items()) {
            Some(at) => Some(at.spot),
            None => None,
        },
    }
}

/// Where a variable of the tree stands in a frame, if it is one of its variables.
fn spot_in(frame: &Frame, code: &Code, variable: u32) -> Result<Option<Spot>, Memory>
    requires { HasDistinctBlocks code.now.layouts }
    ensures { IfOk result (λ r. r ≡ spot_in code.now.layouts (frame_of frame.now) (home_of frame.now.home) variable) }
{
    match frame.home {
        Home::Block(block) => match layout_of(code, block) {
            Some(layout) => {
                match have!(place_of(variable, first_number(layout), layout.variables.items())) {
                    Some(place) => {
                        let formal = layout.formals.get(place as usize).copied();
                        Ok(spot_by(frame, place, formal))
                    }
                    None => Ok(None),
                }
            }
            None => Ok(None),
        },
        Home::Index(index) => {
            if variable == index {
                return Ok(Some(Spot {
                    frame: frame.number,
                    variable: 0,
                }));
            }
            Ok(None)
        }
    }
}

/// Where a variable of the tree stands, outward from the newest frame.
#[tactic(auto, using(crate::proofs::VariablePlaces::spot_none, crate::proofs::VariablePlaces::spot_start, crate::proofs::VariablePlaces::spot_here, crate::proofs::VariablePlaces::spot_on))]
fn spot_from(frames: &Frames, code: &Code, variable: u32) -> Result<Option<Spot>, Memory>
    requires { HasDistinctBlocks code.now.layouts }
    ensures { IfOk result (λ r. r ≡ spot_from code.now.layouts (length frames.now) frames.now variable) }
{
    let mut count = frames.len();
    while count > 0 {
        let frame = frames.at(count - 1);
        let found = have!(spot_in(frame, code, variable));
        if let Some(spot) = found {
            return Ok(Some(spot));
        }
        let next = smaller(frame.link, count - 1);
        count = next;
    }
    Ok(None)
}

/// The spot of a variable of the tree. The input and the output are variables 0 and 1 of frame 0.
fn spot_of(
    frames: &Frames,
    code: &Code,
    seen: &Option<BTreeMap<u32, Spot>>,
    variable: u32,
) -> Result<Option<Spot>, Memory>
    requires blocks { HasDistinctBlocks code.now.layouts }
    requires seen { IsSeen code.now.layouts frames.now seen.now }
    ensures { IfOk result (λ r. r ≡ spot_of code.now.layouts frames.now variable) }
{
    if variable < 2 {
        return Ok(Some(Spot { frame: 0, variable }));
    }
    match seen {
        Some(seen) => Ok(seen.get(&variable).copied()),
        None => spot_from(frames, code, variable),
    }
}

/// The spots of variables.
#[tactic(auto, using(crate::proofs::VariablePlaces::spots_found, crate::proofs::VariablePlaces::spots_not, crate::proofs::VariablePlaces::spots_end))]
fn spots_of(
    alloc: Global,
    frames: &Frames,
    code: &Code,
    seen: &Option<BTreeMap<u32, Spot>>,
    variables: &[u32],
) -> Result<List<Spot>, Memory>
    requires blocks { HasDistinctBlocks code.now.layouts }
    requires seen { IsSeen code.now.layouts frames.now seen.now }
    ensures { IfOk result (λ spots. spots ≡ spots_of code.now.layouts frames.now variables.now) }
{
    let mut spots = List::new(alloc);
    for variable in variables {
        let found = have!(spot_of(frames, code, seen, *variable));
        if let Some(spot) = found {
            have!(spots.push(spot));
        }
    }
    Ok(spots)
}

/// The first instruction and the index of a child.
fn beginning(table: &ForkTable, number: u64) -> (u32, Option<u32>)
    ensures entry { result.0 ≡ (child_or (child_at table.now number)).entry }
    ensures index { result.1 ≡ (child_or (child_at table.now number)).index }
{
    match table.child(number) {
        Some(child) => (child.entry, child.index),
        None => (0, None),
    }
}

/// The least number above every frame.
#[tactic(auto, using(sp_cell::proofs::Steps::above_step))]
fn above_all(spots: &[Spot]) -> u64
    requires { FramesBelow spots.now 18446744073709551615 }
    ensures { result ≡ least_above (frames spots.now) }
{
    let mut least = 0;
    for spot in spots {
        if least <= spot.frame {
            least = spot.frame + 1;
        }
    }
    least
}

/// The number of the frame of a child's index: the least above the frames of all that the child is handed.
fn index_frame(handing: &Handing) -> u64
    requires { FramesBelow handing.now.moved 18446744073709551615
        × FramesBelow handing.now.shared 18446744073709551615 }
    ensures { result ≡ index_frame handing.now }
{
    let moved = above_all(handing.moved.items());
    let shared = above_all(handing.shared.items());
    if moved < shared { shared } else { moved }
}

/// What a child is handed that begins with this table, and with this value if it has an index.
fn handing_of(
    alloc: Global,
    frames: &Frames,
    code: &Code,
    seen: &Option<BTreeMap<u32, Spot>>,
    value: i64,
    child: Option<&ChildTable>,
) -> Result<Handing, Memory>
    requires blocks { HasDistinctBlocks code.now.layouts }
    requires seen { IsSeen code.now.layouts frames.now seen.now }
    ensures { IfOk result (λ h. h ≡ handed_to code.now.layouts frames.now value
        (child_or (option_copied child.entry))) }
{
    match child {
        Some(child) => {
            let index = match child.index {
                Some(_) => Some((0, value)),
                None => None,
            };
            Ok(Handing {
                moved: have!(spots_of(alloc, frames, code, seen, child.moved.items())),
                shared: have!(spots_of(alloc, frames, code, seen, child.shared.items())),
                index,
            })
        }
        None => Ok(Handing {
            moved: List::new(alloc),
            shared: List::new(alloc),
            index: None,
        }),
    }
}

/// What each child of a forall is handed, except for the value of its index: they are all handed the same, so it is
/// looked for once. None for a parallel.
#[tactic(auto, using(crate::proofs::ForkPlans::alike))]
fn handed_alike(
    alloc: Global,
    frames: &Frames,
    code: &Code,
    seen: &Option<BTreeMap<u32, Spot>>,
    table: &ForkTable,
) -> Result<Option<Handing>, Memory>
    requires blocks { HasDistinctBlocks code.now.layouts }
    requires seen { IsSeen code.now.layouts frames.now seen.now }
    ensures { IfOk result (λ found. IfSome found (λ h. (k : ℕ) (v : ℤ) → record h { index = Some (0, v) }
        ≡ handed_to code.now.layouts frames.now v (child_or (child_at table.now k)))) }
{
    match table.index() {
        Some(_) => {
            let child = table.child(0);
            let handing = have!(handing_of(alloc, frames, code, seen, 0, child));
            Ok(Some(handing))
        }
        None => Ok(None),
    }
}

/// What one child is handed: the same as all others, with this value of the index, where they are handed alike.
fn handing_at(
    alloc: Global,
    frames: &Frames,
    code: &Code,
    seen: &Option<BTreeMap<u32, Spot>>,
    alike: &Option<Handing>,
    table: &ForkTable,
    value: i64,
    number: u32,
) -> Result<Handing, Memory>
    requires blocks { HasDistinctBlocks code.now.layouts }
    requires seen { IsSeen code.now.layouts frames.now seen.now }
    requires alike { IfSome alike.now (λ h. (k : ℕ) (v : ℤ) → record h { index = Some (0, v) }
        ≡ handed_to code.now.layouts frames.now v (child_or (child_at table.now k))) }
    ensures { IfOk result (λ h. h ≡ handed_to code.now.layouts frames.now value
        (child_or (child_at table.now number))) }
{
    match alike {
        Some(handing) => Ok(Handing {
            moved: have!(List::from_slice(alloc, handing.moved.items())),
            shared: have!(List::from_slice(alloc, handing.shared.items())),
            index: Some((0, value)),
        }),
        None => {
            let child = table.child(u64::from(number));
            handing_of(alloc, frames, code, seen, value, child)
        }
    }
}

impl State {
    /// What the children of the fork are handed at which the process stopped.
    #[tactic(auto, using(crate::proofs::ForkPlans::plan_more, crate::proofs::ForkPlans::plan_end))]
    fn plan(&self, code: &Code, table: &ForkTable, count: u32) -> Result<List<Handing>, Memory>
        requires blocks { HasDistinctBlocks code.now.layouts }
        requires values { (self.now.first +ℤ pos count) ≤ℤ pos 9223372036854775808 }
        ensures { IfOk result (λ hs. hs ≡ plan_from code.now.layouts self.now.frames table.now self.now.first 0 count) }
    {
        let alloc = *self.text.allocator();
        let seen = have!(seen_by(alloc, &self.frames, code, table, count));
        let seen = &seen;
        let alike = have!(handed_alike(alloc, &self.frames, code, seen, table));
        let alike = &alike;
        let mut plan = List::new(alloc);
        for k in 0..count {
            let value = self.first + i64::from(k);
            let frames = &self.frames;
            let handing = have!(handing_at(alloc, frames, code, seen, alike, table, value, k));
            plan.push(handing)?;
        }
        Ok(plan)
    }

    /// The frames of a child: those of its parent, and above them that of its index.
    fn child_frames(
        &self,
        number: u32,
        handing: &Handing,
        index: Option<u32>,
    ) -> Result<Frames, Memory>
        requires { IsSome index → FramesBelow handing.now.moved 18446744073709551615
            × FramesBelow handing.now.shared 18446744073709551615 }
        ensures { IfOk result (λ fs. fs ≡ with_frame number handing.now index self.now.frames) }
    {
        let mut frames = have!(self.frames.copy());
        match index {
            Some(variable) => {
                let link = frames.len();
                let frame = Frame {
                    owner: number,
                    number: index_frame(handing),
                    home: Home::Index(variable),
                    link,
                    references: List::new(*self.text.allocator()),
                };
                have!(frames.push(frame));
                Ok(frames)
            }
            None => Ok(frames),
        }
    }

    /// A child with this number, before it has its store.
    fn child(&self, frames: Frames, entry: u32, number: u32) -> Result<Proc, Memory>
        requires { self.now.depth + 1 ≤ 4294967295 }
        ensures { IfOk result (λ p. IsBornSo p number entry frames self.now) }
    {
        let alloc = *self.text.allocator();
        let input = have!(Arc::try_clone(&self.input));
        let child = State {
            number,
            pc: entry,
            stack: Stack::new(alloc),
            frames,
            depth: self.depth + 1,
            ticks: 0,
            since: 0,
            cells: 0,
            store: Store::empty(alloc),
            input,
            target: self.target,
            table: 0,
            first: 0,
            text: Vec::new(alloc),
            stopped: Stop::End,
        };
        Proc::boxed(alloc, child)
    }

    /// The children before they have their stores.
    #[tactic(auto, using(crate::proofs::ForkPlans::born_none, crate::proofs::ForkPlans::born_more))]
    fn children(
        &self,
        table: &ForkTable,
        plan: &List<Handing>,
        number: u32,
    ) -> Result<Vec<Proc>, Memory>
        requires deeper { self.now.depth + 1 ≤ 4294967295 }
        requires numbers { number + length plan.now ≤ 4294967295 }
        requires below { (k : ℕ) (h : Handing) → k < length plan.now → h ≡ get_or plan.now k h
            → IsSome (child_or (child_at table.now k)).index → FramesBelow h.moved 18446744073709551615
            × FramesBelow h.shared 18446744073709551615 }
        ensures { IfOk result (λ cs. (length cs.items ≡ length plan.now)
            × AreBornSo cs.items plan.now table.now number self.now (length plan.now)) }
    {
        let mut children = Vec::new(*self.text.allocator());
        let mut k = 0u32;
        for handing in plan.items() {
            let (entry, index) = beginning(table, u64::from(k));
            let frames = have!(self.child_frames(number + k, handing, index));
            children.push(have!(self.child(frames, entry, number + k)))?;
            k += 1;
        }
        Ok(children)
    }

    /// The children of the fork at which the process stopped, with the numbers from this one on.
    pub(crate) fn split_by(
        &mut self,
        code: &Code,
        table: &ForkTable,
        count: u32,
        number: u32,
    ) -> Result<List<Proc>, Memory>
        requires blocks { HasDistinctBlocks code.now.layouts }
        requires values { (self.old.first +ℤ pos count) ≤ℤ pos 9223372036854775808 }
        requires deeper { self.old.depth + 1 ≤ 4294967295 }
        requires numbers { number + count ≤ 4294967295 }
        requires can { CanSplit self.old.store
            (plan_from code.now.layouts self.old.frames table.now self.old.first 0 count) }
        ensures children { IfOk result (λ cs. AreNewborn code.now self.old table.now number count cs) }
        ensures parent { OnOk result (self.new
            ≡ record self.old {
              store = plain.handed self.old.store
                  (plan_from code.now.layouts self.old.frames table.now self.old.first 0 count);
            }) }
        ensures err { OnErr result (self.new ≡ self.old) }
    {
        let plan = have!(self.plan(code, table, count));
        have!(self.frames.share());
        let mut children = have!(self.children(table, &plan, number));
        let stores = have!(self.store.split(&plan));
        give_stores(&mut children, stores);
        Ok(List::of(children))
    }
}

/// Each child gets its store.
fn give_stores(children: &mut Vec<Proc>, stores: List<Store>)
    requires { length stores ≡ length children.old.items }
    ensures len { length children.new.items ≡ length children.old.items }
    ensures stores { (k : ℕ) (d : State) (s : Plain) → k < length children.old.items → get_or children.new.items k d
        ≡ record (get_or children.old.items k d) { store = get_or stores k s } }
{
    let mut stores = stores;
    loop {
        match stores.pop() {
            Some(store) => give_store(children, stores.len(), store),
            None => return,
        }
    }
}

/// One child gets its store.
fn give_store(children: &mut Vec<Proc>, place: usize, store: Store)
    requires { place < length children.old.items }
    ensures len { length children.new.items ≡ length children.old.items }
    ensures here { (d : State) → get_or children.new.items place d
        ≡ record (get_or children.old.items place d) { store = store } }
    ensures others { (k : ℕ) (d : State) → k ≢ place → get_or children.new.items k d ≡ get_or children.old.items k d }
{
    let child = &mut children[place];
    child.state.store = store;
}
