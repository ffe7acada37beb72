//! All variables that a process sees at once, for a fork that asks for many.

ghost use Rattle.std.specs.Prelude.{◌≡◌, IfOk, IsTrue, OnOk};
ghost use Rattle.sp_code.specs.Sound.{HasDistinctBlocks};
ghost use Rattle.sp_code.specs.System.{place_of, first_number, spot_by, spot_at, spot_in};
ghost use Rattle.sp_machine.specs.Frames.{frame_of, home_of};
ghost use Rattle.sp_machine.specs.Seen.{Notes, NotesAll, HasReferences, IsSeen};

use crate::children::first_number;
use crate::frames::{Frame, Frames, Home, smaller};
use crate::have;
use crate::layouts::layout_of;
use sp_base::Memory;
use sp_cell::{Address, Spot};
use sp_code::{Code, ForkTable, Formal, Layout};
use std::alloc::Global;
use std::collections::BTreeMap;

/// How many variables a fork may ask for that are searched for one by one. Where it asks for more, all that the process
/// sees are noted first.
const SEARCHED_AT_MOST: usize = 64;

/// Whether a fork asks for more variables than are searched for one by one.
fn asks_much(table: &ForkTable, count: u32) -> bool {
    let mut asked = 0usize;
    for k in 0..count {
        if let Some(child) = table.child(u64::from(k)) {
            asked = asked.saturating_add(child.moved.len());
            asked = asked.saturating_add(child.shared.len());
        }
        if asked > SEARCHED_AT_MOST {
            return true;
        }
    }
    false
}

/// Notes a value under a number, unless something is noted under it already: the first parameter of a number counts,
/// and the innermost variable.
fn note<T: Copy>(noted: &mut BTreeMap<u32, T>, number: u32, value: T) -> Result<(), Memory>
    ensures { OnOk result (Notes noted.old noted.new number value) }
{
    if !noted.contains_key(&number) {
        have!(noted.insert(number, value));
    }
    Ok(())
}

/// What variable parameters stand for, by their numbers.
#[tactic(auto, using(crate::proofs::Noting::reference_more, crate::proofs::Noting::references_end))]
fn references_of(
    alloc: Global,
    references: &[(u32, Address)],
) -> Result<BTreeMap<u32, Address>, Memory>
    ensures { IfOk result (λ first. HasReferences first references.now) }
{
    let mut first = BTreeMap::new(alloc);
    for reference in references {
        have!(note(&mut first, reference.0, reference.1));
    }
    Ok(first)
}

/// A variable of a frame at a place, or what the variable parameter there stands for.
fn spot_by(
    frame: &Frame,
    references: &BTreeMap<u32, Address>,
    place: u32,
    formal: Option<Formal>,
) -> Option<Spot>
    requires { HasReferences references.now frame.now.references }
    ensures { result ≡ spot_by (frame_of frame.now) place formal }
{
    match formal {
        None | Some(Formal::Value(_)) => Some(Spot {
            frame: frame.number,
            variable: place,
        }),
        Some(Formal::Reference(_)) => match references.get(&place) {
            Some(at) => Some(at.spot),
            None => None,
        },
    }
}

/// Notes the variables of the frame of a block. The answer is false where a variable parameter stands for nothing.
#[tactic(auto, using(crate::proofs::Noting::block_more, crate::proofs::Noting::block_end))]
fn note_block(
    alloc: Global,
    seen: &mut BTreeMap<u32, Spot>,
    frame: &Frame,
    layout: &Layout,
) -> Result<bool, Memory>
    ensures { IfOk result (λ whole. IsTrue whole → NotesAll seen.old seen.new
        (λ x. spot_at (frame_of frame.now) layout.now (place_of x (first_number layout.now) layout.now.variables))) }
{
    let references = have!(references_of(alloc, frame.references.items()));
    let mut place = first_number(layout);
    for variable in layout.variables.items() {
        let formal = layout.formals.get(place as usize).copied();
        match spot_by(frame, &references, place, formal) {
            Some(spot) => have!(note(seen, *variable, spot)),
            None => return Ok(false),
        }
        match place.checked_add(1) {
            Some(next) => place = next,
            None => return Err(Memory),
        }
    }
    Ok(true)
}

/// Notes the variables of a frame. The answer is false where a variable parameter stands for nothing.
fn note_frame(
    alloc: Global,
    seen: &mut BTreeMap<u32, Spot>,
    frame: &Frame,
    code: &Code,
) -> Result<bool, Memory>
    requires { HasDistinctBlocks code.now.layouts }
    ensures { IfOk result (λ whole. IsTrue whole → NotesAll seen.old seen.new
        (spot_in code.now.layouts (frame_of frame.now) (home_of frame.now.home))) }
{
    match frame.home {
        Home::Block(block) => match layout_of(code, block) {
            Some(layout) => note_block(alloc, seen, frame, layout),
            None => Ok(true),
        },
        Home::Index(index) => {
            let spot = Spot {
                frame: frame.number,
                variable: 0,
            };
            have!(note(seen, index, spot));
            Ok(true)
        }
    }
}

/// Where each variable stands that is seen outward from the newest frame, for a fork that asks for many of them. None
/// where they are looked for one by one: by any other fork, and where a variable parameter stands for nothing.
pub(crate) fn seen_by(
    alloc: Global,
    frames: &Frames,
    code: &Code,
    table: &ForkTable,
    count: u32,
) -> Result<Option<BTreeMap<u32, Spot>>, Memory>
    requires { HasDistinctBlocks code.now.layouts }
    ensures { IfOk result (λ seen. IsSeen code.now.layouts frames.now seen) }
{
    if !asks_much(table, count) {
        return Ok(None);
    }
    let mut seen = BTreeMap::new(alloc);
    let mut left = frames.len();
    while left > 0 {
        let frame = frames.at(left - 1);
        let whole = have!(note_frame(alloc, &mut seen, frame, code));
        if !whole {
            return Ok(None);
        }
        let next = smaller(frame.link, left - 1);
        left = next;
    }
    Ok(Some(seen))
}
