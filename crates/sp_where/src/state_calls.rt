//! The live calls of a process as `where` writes them.

ghost use Rattle.std.specs.Prelude.{◌≡◌, ◌≤◌, ◌++◌, false, codes, length, IfOk};
ghost use Rattle.std.specs.List.{list_any};
ghost use Rattle.sp_code.specs.Machine.{layout_of};
ghost use Rattle.sp_code.specs.Memory.{last_frames};
ghost use Rattle.sp_machine.specs.Calls.{returns};
ghost use Rattle.sp_machine.specs.Frames.{frame_of, home_of};
ghost use Rattle.sp_machine.specs.StackEntries.{entries_of};
ghost use Rattle.sp_where.specs.KnownOf.{IsKnown, known_of};
ghost use Rattle.sp_where.specs.StateCalls.{but_of, call_place, frames_text, has_variables, home_text, is_called};
ghost use Rattle.sp_where.specs.StateCalls.{is_of, is_shown, moved_frame, moved_frames, own_frame, returns_below};
ghost use Rattle.sp_where.specs.StateCalls.{shown_frame};
ghost use Rattle.sp_where.specs.StateVariables.{moved_variables};
ghost use Rattle.sp_base.specs.Adds.{Adds, Covers, Keeps};

use crate::state_variables::{Known, first_variable, put_moved_variables, put_own_variables};
use sp_base::{List, Memory, Writer};
use sp_cell::Spot;
use sp_machine::{Frame, Frames, Home, Proc, layout_of};
use sp_store::Store;
use std::alloc::Global;

// Puts what a frame is of.
fn put_home(out: &mut Writer<u8>, known: &Known, home: Home)
    ensures { Adds out.old out.new (home_text (known_of known.now) (home_of home)) }
{
    match home {
        Home::Block(block) => {
            out.extend(b"  ");
            if let Some(found) = known.symbols.checked.blocks.get(block as usize) {
                out.extend(found.name.bytes());
            }
        }
        Home::Index(_) => out.extend(b"  forall"),
    }
}

// Puts the place of the call that returns first of these.
fn put_call_place(out: &mut Writer<u8>, known: &Known, returns: &[u32])
    ensures { Adds out.old out.new (call_place (known_of known.now) returns.now) }
{
    if let Some(to) = returns.first() {
        out.extend(b" ");
        out.place(known.symbols.part(to.saturating_sub(1)));
    }
}

// Every block but the program is called.
fn is_called(home: Home) -> bool
    ensures { result ≡ is_called (home_of home) }
{
    match home {
        Home::Block(block) => block != 0,
        Home::Index(_) => false,
    }
}

// Where the calls return that stand below a frame.
fn returns_below(returns: &[u32], home: Home) -> &[u32]
    ensures { result.now ≡ returns_below returns.now (home_of home) }
{
    if !is_called(home) {
        return returns;
    }
    match returns.split_first() {
        Some((_first, rest)) => rest,
        None => returns,
    }
}

// Whether the block has variables.
fn has_variables(known: &Known, block: u32) -> bool
    requires { IsKnown known.now }
    ensures { result ≡ has_variables (layout_of known.now.code.now.layouts block) }
{
    match layout_of(known.code, block) {
        Some(layout) => layout.variables.len() != 0,
        None => false,
    }
}

// A call and an index are always shown, the program's frame if the program has variables.
fn is_shown(known: &Known, home: Home) -> bool
    requires { IsKnown known.now }
    ensures { result ≡ is_shown (known_of known.now) (home_of home) }
{
    match home {
        Home::Block(block) => if block == 0 {
            has_variables(known, block)
        } else {
            true
        },
        Home::Index(_) => true,
    }
}

// Puts a process's own frame, if it is shown, where the calls return so.
fn put_own_frame(out: &mut Writer<u8>, known: &Known, store: &Store, returns: &[u32], frame: &Frame)
    requires { IsKnown known.now }
    ensures { Adds out.old out.new (own_frame (known_of known.now) store.now returns.now (frame_of frame.now)) }
{
    if is_shown(known, frame.home) {
        put_shown_frame(out, known, store, returns, frame);
    }
}

// The same of a frame that is shown.
fn put_shown_frame(
    out: &mut Writer<u8>,
    known: &Known,
    store: &Store,
    returns: &[u32],
    frame: &Frame,
)
    requires { IsKnown known.now }
    ensures { Adds out.old out.new (shown_frame (known_of known.now) store.now returns.now (frame_of frame.now)) }
{
    put_home(out, known, frame.home);
    if is_called(frame.home) {
        put_call_place(out, known, returns);
    }
    out.extend(b"\n");
    put_own_variables(out, known, store, frame);
}

// Whether a variable of this frame stands at the spot.
fn is_of(frame: &Frame, spot: Spot) -> bool
    ensures { result ≡ is_of (frame_of frame.now) spot }
{
    spot.frame == frame.number && first_variable(frame.home) <= spot.variable
}

// Whether one of the spots is of this frame.
#[tactic(auto, using(crate::proofs::SpotTests::any_here, crate::proofs::SpotTests::any_on, crate::proofs::SpotTests::any_end))]
fn has_moved(frame: &Frame, spots: &[Spot]) -> bool
    ensures { result ≡ list_any (is_of (frame_of frame.now)) spots.now }
{
    for spot in spots {
        if is_of(frame, *spot) {
            return true;
        }
    }
    false
}

// Those of the spots that are not of this frame.
fn but_of(alloc: Global, frame: &Frame, spots: &[Spot]) -> Result<List<Spot>, Memory>
    ensures { IfOk result (λ ss. ss ≡ but_of (frame_of frame.now) spots.now) }
{
    let mut left = List::new(alloc);
    for spot in spots {
        if !is_of(frame, *spot) {
            left.push(*spot)?;
        }
    }
    Ok(left)
}

// Puts a frame of an ancestor with those of its variables that moved.
fn put_found_frame(
    out: &mut Writer<u8>,
    known: &Known,
    store: &Store,
    moved: &[Spot],
    frame: &Frame,
)
    requires { IsKnown known.now }
    ensures { Adds out.old out.new (home_text (known_of known.now) (home_of frame.now.home) ++ codes "\n"
        ++ moved_variables (known_of known.now) store.now moved.now (frame_of frame.now) (home_of frame.now.home)) }
{
    put_home(out, known, frame.home);
    out.extend(b"\n");
    put_moved_variables(out, known, store, moved, frame);
}

// What moved from frames further out than this one. Without memory for it the writer is lost.
fn further_out(out: &mut Writer<u8>, frame: &Frame, moved: List<Spot>) -> List<Spot>
    ensures { Keeps out.old out.new
        ((out.new.items.items ≡ out.old.items.items) × (result ≡ but_of (frame_of frame.now) moved)) }
{
    match but_of(moved.alloc(), frame, moved.items()) {
        Ok(left) => left,
        Err(Memory) => {
            out.lose();
            moved
        }
    }
}

// Puts a frame of an ancestor, if something of it is among what moved. The answer is what moved from frames further
// out.
#[tactic(auto, using(crate::proofs::StateLines::all_stay))]
fn put_moved_frame(
    out: &mut Writer<u8>,
    known: &Known,
    store: &Store,
    moved: List<Spot>,
    frame: &Frame,
) -> List<Spot>
    requires { IsKnown known.now }
    ensures frame { Adds out.old out.new (moved_frame (known_of known.now) store.now moved (frame_of frame.now)) }
    ensures left { out.new.is_lost ≡ false → result ≡ but_of (frame_of frame.now) moved }
{
    if has_moved(frame, moved.items()) {
        put_found_frame(out, known, store, moved.items(), frame);
        return further_out(out, frame, moved);
    }
    moved
}

// Puts the frames of ancestors, of which there are so many.
fn put_moved_frames(
    out: &mut Writer<u8>,
    known: &Known,
    store: &Store,
    moved: List<Spot>,
    frames: &Frames,
    count: usize,
)
    requires known { IsKnown known.now }
    requires there { count ≤ length frames.now }
    ensures { Adds out.old out.new (moved_frames (known_of known.now) store.now moved (last_frames count frames.now)) }
{
    let mut count = count;
    let mut left = moved;
    while count > 0 {
        if left.is_empty() {
            return;
        }
        left = put_moved_frame(out, known, store, left, frames.at(count - 1));
        count -= 1;
    }
}

// Puts the own frames of this process, the newest first. The answer is how many there are below them.
fn put_own_frames(
    out: &mut Writer<u8>,
    known: &Known,
    process: u32,
    store: &Store,
    returns: &[u32],
    frames: &Frames,
) -> usize
    requires { IsKnown known.now }
    ensures within { result ≤ length frames.now }
    ensures frames { Covers out.old out.new
        (moved_frames (known_of known.now) store.now store.now.moved (last_frames result frames.now))
        (frames_text (known_of known.now) process store.now returns.now frames.now) }
{
    let mut count = frames.len();
    let mut returns = returns;
    while count > 0 {
        let frame = frames.at(count - 1);
        if frame.owner != process {
            return count;
        }
        put_own_frame(out, known, store, returns, frame);
        returns = returns_below(returns, frame.home);
        count -= 1;
    }
    0
}

// Puts the frames of ancestors of which something moved to the process.
fn put_ancestors(out: &mut Writer<u8>, known: &Known, store: &Store, frames: &Frames, count: usize)
    requires known { IsKnown known.now }
    requires there { count ≤ length frames.now }
    ensures { Adds out.old out.new (moved_frames (known_of known.now) store.now store.now.moved
        (last_frames count frames.now)) }
{
    let alloc = *out.items.allocator();
    match List::from_slice(alloc, store.moved()) {
        Ok(moved) => put_moved_frames(out, known, store, moved, frames, count),
        Err(_) => out.lose(),
    }
}

/// Puts the live calls of this process with their variables, and what moved to it from its ancestors.
pub(crate) fn put_frames(out: &mut Writer<u8>, known: &Known, process: u32, proc: &Proc)
    requires { IsKnown known.now }
    ensures { Adds out.old out.new (frames_text (known_of known.now) process proc.now.store
        (returns (entries_of proc.now.stack)) proc.now.frames) }
{
    let alloc = *out.items.allocator();
    match proc.returns(alloc) {
        Ok(returns) => {
            let frames = proc.frames();
            let left = put_own_frames(out, known, process, proc.store(), returns.items(), frames);
            put_ancestors(out, known, proc.store(), frames, left);
        }
        Err(Memory) => out.lose(),
    }
}
