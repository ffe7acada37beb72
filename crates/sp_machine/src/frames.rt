//! The frames of a process, and the addresses of variables in them by level and number.

ghost use Rattle.std.specs.Prelude.{◌≡◌, ◌≢◌, ◌<◌, ◌≤◌, ◌+◌, ◌∷◌, ◌++◌, [], List, length, min, take, drop, IfOk, OnOk};
ghost use Rattle.std.specs.Prelude.{OnErr};
ghost use Rattle.sp_code.specs.Memory.{Frame as PlainFrame, last_frames, frames_up, addr_in, deref_in};
ghost use Rattle.sp_code.specs.Memory.{reference_target};
ghost use Rattle.sp_machine.specs.Frames.{plain_frames, frame_of, home_of};

use crate::have;
use sp_base::{List, Memory};
use sp_cell::{Address, Spot};
use std::alloc::Global;
use std::marker::Model;
use std::sync::Arc;

/// What a frame is of.
#[derive(Clone, Copy)]
pub enum Home {
    /// The block of this number.
    Block(u32),
    /// The index of a `forall`, by its number in the tree.
    Index(u32),
}

/// A frame.
#[derive(Drop)]
pub struct Frame {
    /// The process that made it.
    pub owner: u32,
    /// Its number in that one's store.
    pub number: u64,
    pub home: Home,
    /// How many frames there are from the enclosing one on.
    pub(crate) link: usize,
    /// What the variable parameters stand for, by their numbers.
    pub references: List<(u32, Address)>,
}

/// The live frames of a process, the newest last in memory: the visible ones of those that it shares with others, and
/// then its own. Contracts see the newest first, as the definitions do.
#[derive(Drop)]
pub struct Frames {
    shared: Arc<List<Frame>>,
    visible: usize,
    own: List<Frame>,
}

impl Model for Frames {
    ghost use Rattle.std.specs.Prelude.{List, ◌++◌, ◌≤◌, take, length};
    ghost use Rattle.sp_code.specs.Memory.{Frame as PlainFrame};
    ghost use Rattle.sp_machine.specs.Frames.{plain_frames};

    ghost Value = { List PlainFrame };

    ghost view = { λ it. plain_frames (take it.visible it.shared.value ++ it.own) };

    ghost invariant = { λ it. it.visible ≤ length it.shared.value };
}

// The frames of both parts, counted.
#[tactic(auto, using(crate::proofs::FrameLists::length_parts))]
#[inline(always)]
fn count_in(shared: &[Frame], visible: usize, own: &[Frame]) -> usize
    requires { visible ≤ length shared.now }
    ensures { result ≡ length (plain_frames (take visible shared.now ++ own.now)) }
{
    let _all = shared.len();
    visible + own.len()
}

// The frame at a place, counted from the oldest.
#[tactic(auto, using(crate::proofs::FrameLists::at_shared, crate::proofs::FrameLists::at_own))]
#[inline(always)]
fn frame_in<'a>(shared: &'a [Frame], visible: usize, own: &'a [Frame], place: usize) -> &'a Frame
    requires within { visible ≤ length shared.now }
    requires there { place < visible + length own.now }
    ensures { last_frames (place + 1) (plain_frames (take visible shared.now ++ own.now))
        ≡ frame_of result.now ∷ last_frames place (plain_frames (take visible shared.now ++ own.now)) }
{
    if place < visible {
        return &shared[place];
    }
    &own[place - visible]
}

pub(crate) fn smaller(a: usize, b: usize) -> usize
    ensures { result ≡ min a b }
{
    if a < b { a } else { b }
}

impl Frames {
    /// The frames of a run's first process: that of the program.
    #[tactic(auto, using(crate::proofs::FrameLists::one_plain))]
    pub(crate) fn first(alloc: Global, frame: Frame) -> Result<Frames, Memory>
        ensures { IfOk result (λ r. r ≡ frame_of frame ∷ []) }
    {
        let mut own = List::new(alloc);
        own.push(frame)?;
        let shared = Arc::new(alloc, List::new(alloc))?;
        Ok(Frames {
            shared,
            visible: 0,
            own,
        })
    }

    /// All frames become shared ones: a copy of them costs no more than a pointer then.
    #[tactic(auto, using(crate::proofs::FrameLists::still_shared))]
    pub(crate) fn share(&mut self) -> Result<(), Memory>
        ensures same { self.new ≡ self.old }
    {
        if self.own.is_empty() {
            return Ok(());
        }
        let alloc = self.own.alloc();
        let mut all = List::new(alloc);
        have!(copy_frames(alloc, &mut all, &self.shared.items()[..self.visible]));
        have!(copy_frames(alloc, &mut all, self.own.items()));
        let visible = all.len();
        self.shared = Arc::new(alloc, all)?;
        self.visible = visible;
        self.own = List::new(alloc);
        Ok(())
    }

    /// The same frames once more. What is shared stays so.
    pub(crate) fn copy(&self) -> Result<Frames, Memory>
        ensures { IfOk result (λ r. r ≡ self.now) }
    {
        let alloc = self.own.alloc();
        let mut own = List::new(alloc);
        have!(copy_frames(alloc, &mut own, self.own.items()));
        Ok(Frames {
            shared: have!(Arc::try_clone(&self.shared)),
            visible: self.visible,
            own,
        })
    }

    /// How many there are.
    pub fn len(&self) -> usize
        ensures { result ≡ length self.now }
    {
        count_in(self.shared.items(), self.visible, self.own.items())
    }

    /// The frame at a place, counted from the oldest.
    #[tactic(auto, using(crate::proofs::FrameLists::within_parts))]
    pub fn at(&self, place: usize) -> &Frame
        requires { place < length self.now }
        ensures { last_frames (place + 1) self.now ≡ frame_of result.now ∷ last_frames place self.now }
    {
        frame_in(self.shared.items(), self.visible, self.own.items(), place)
    }

    /// How many frames there are from the one so many static levels outward on, 0 where there is none.
    #[tactic(auto, using(crate::proofs::FrameLists::none_last, crate::proofs::FrameLists::all_last, crate::proofs::FrameLists::up_none))]
    #[inline(always)]
    fn outward(&self, up: u32) -> usize
        ensures same { frames_up up self.now ≡ last_frames result self.now }
        ensures within { result ≤ length self.now }
    {
        let mut count = self.len();
        for _ in 0..up {
            if count == 0 {
                return 0;
            }
            let link = self.at(count - 1).link;
            let next = smaller(link, count - 1);
            count = next;
        }
        count
    }

    /// How many frames there are from the one so many static levels outward on.
    #[tactic(auto, using(crate::proofs::FrameLists::length_last))]
    pub(crate) fn level(&self, up: u32) -> usize
        ensures { result ≡ length (frames_up up self.now) }
    {
        self.outward(up)
    }

    /// A variable of the frame so many static levels outward.
    #[tactic(auto, using(crate::proofs::FrameLists::none_last, crate::proofs::FrameLists::addr_first))]
    #[inline(always)]
    pub(crate) fn address(&self, up: u32, variable: u32) -> Option<Address>
        ensures { result ≡ addr_in (frames_up up self.now) variable }
    {
        let count = self.outward(up);
        if count == 0 {
            return None;
        }
        let frame = self.at(count - 1).number;
        Some(Address {
            spot: Spot { frame, variable },
            offset: 0,
        })
    }

    /// What a variable parameter of the frame so many static levels outward stands for.
    #[tactic(auto, using(crate::proofs::FrameLists::none_last, crate::proofs::FrameLists::deref_first))]
    pub(crate) fn reference(&self, up: u32, variable: u32) -> Option<Address>
        ensures { result ≡ deref_in (frames_up up self.now) variable }
    {
        let count = self.outward(up);
        if count == 0 {
            return None;
        }
        let frame = self.at(count - 1);
        referred(variable, frame.references.items())
    }

    /// The number and the home of the newest.
    #[tactic(auto, using(crate::proofs::FrameLists::newest_first, crate::proofs::FrameLists::none_shorter))]
    pub(crate) fn newest(&self) -> (u64, Home)
        requires { self.now ≢ [] }
        ensures { (f : PlainFrame) (fs : List PlainFrame) → self.now ≡ f ∷ fs → (f.number ≡ result.0)
            × (f.home ≡ home_of result.1) }
    {
        let count = self.len();
        let frame = self.at(count - 1);
        (frame.number, frame.home)
    }

    /// Puts a frame on top. Where memory is refused, nothing has changed.
    #[tactic(auto, using(crate::proofs::FrameLists::more_plain))]
    pub(crate) fn push(&mut self, frame: Frame) -> Result<(), Memory>
        ensures ok { OnOk result (self.new ≡ frame_of frame ∷ self.old) }
        ensures err { OnErr result (self.new ≡ self.old) }
    {
        match self.own.push(frame) {
            Ok(()) => Ok(()),
            Err(_) => Err(Memory),
        }
    }

    /// The newest goes.
    #[tactic(auto, using(crate::proofs::FrameLists::less_own, crate::proofs::FrameLists::less_shared, crate::proofs::FrameLists::some_visible))]
    pub(crate) fn drop_newest(&mut self)
        requires { self.old ≢ [] }
        ensures { self.new ≡ drop 1 self.old }
    {
        match self.own.pop() {
            Some(_) => {}
            None => self.visible -= 1,
        }
    }
}

/// The same frame once more.
fn copy_frame(alloc: Global, frame: &Frame) -> Result<Frame, Memory>
    ensures { IfOk result (λ f. f ≡ frame.now) }
{
    Ok(Frame {
        owner: frame.owner,
        number: frame.number,
        home: frame.home,
        link: frame.link,
        references: have!(List::from_slice(alloc, frame.references.items())),
    })
}

/// Puts the same frames last.
#[tactic(auto, using(crate::proofs::FrameLists::copied_more, crate::proofs::FrameLists::copied_all))]
fn copy_frames(alloc: Global, to: &mut List<Frame>, frames: &[Frame]) -> Result<(), Memory>
    ensures { OnOk result (to.new ≡ to.old ++ frames.now) }
{
    for frame in frames {
        let copy = have!(copy_frame(alloc, frame));
        to.push(copy)?;
    }
    Ok(())
}

// What the variable parameter of this number stands for.
#[tactic(auto, using(crate::proofs::FrameLists::referred_on, crate::proofs::FrameLists::referred_here, crate::proofs::FrameLists::referred_end))]
pub fn referred(variable: u32, references: &[(u32, Address)]) -> Option<Address>
    ensures { result ≡ reference_target variable references.now }
{
    for r in references {
        if r.0 == variable {
            return Some(r.1);
        }
    }
    None
}
