//! The map of a store in memory: entries by their spots, in the order of the spots.

ghost use Rattle.std.specs.Prelude.{◌≡◌, ◌<◌, ◌++◌, IsSome, IfSome, Some, None, IfOk, IfErr, OnOk, OnErr, MatchOption};
ghost use Rattle.std.specs.Prelude.{length, ℕ, ◌-◌, ◌≤◌, ◌==◌, ◌≢◌, take, drop, vec_len, slice_index_or};
ghost use Rattle.std.specs.Prelude.{vec_capacity, IsTrue};
ghost use Rattle.std.specs.Borrow.{sem};
ghost use Rattle.std.specs.FinMap as map;
ghost use Rattle.std.specs.List.Sorted.{IsStrictlySortedBy};
ghost use Rattle.std.specs.List.{ContainsAt, insert};
ghost use Rattle.std.specs.declared.cmp.Ordering.TheVariants.{Less};
ghost use Rattle.sp_cell.specs.Spots.{DistinctByIndex};
ghost use Rattle.sp_cell.specs.Frame.{least_above, frames, without_spots_of};
ghost use Rattle.sp_cell.specs.Map.{spot_cmp};
ghost use Rattle.sp_store.specs.Layout.{layout, content, IsPlace, IsGap, AllKnown};
ghost use Rattle.sp_store.specs.Lends.{LendsEntry};

use crate::entry::Entry;
use crate::have;
use sp_base::Memory;
use sp_cell::Spot;
use std::alloc::Global;
use std::cmp::Ordering;
use std::marker::Model;

/// Entries by their spots, in the order of the spots.
pub(crate) struct Slots {
    spots: Vec<Spot>,
    entries: Vec<Entry>,
    // Where the newest frame likely begins: a guess, which each use tests.
    start: usize,
}

// By hand, so that it is proved once, here, and not at each end of a function that holds slots.
impl Drop for Slots {
    fn drop(self) {
        let Slots {
            spots: _,
            entries: _,
            start: _,
        } = self;
    }
}

impl Model for Slots {
    ghost use Rattle.std.specs.Prelude.{◌≡◌, length};
    ghost use Rattle.std.specs.List.Sorted.{IsStrictlySortedBy};
    ghost use Rattle.sp_cell.specs.Codes.{map_code};
    ghost use Rattle.sp_cell.specs.Map.{Map, spot_cmp};

    ghost Value = { Map };

    ghost coded = { map_code };

    ghost use Rattle.sp_store.specs.Layout.{layout};

    ghost view = { λ a. layout a.spots.items a.entries.items };

    ghost invariant = { λ a. (length a.spots.items ≡ length a.entries.items)
        × IsStrictlySortedBy spot_cmp a.spots.items };
}

// Where the spot stands, or would go.
fn search(spots: &[Spot], entries: &[Entry], start: usize, spot: Spot) -> Result<usize, usize>
    requires sorted { IsStrictlySortedBy spot_cmp spots.now }
    requires lengths { length spots.now ≡ length entries.now }
    ensures found { IfOk result (IsPlace spots.now entries.now spot) }
    ensures absent { IfErr result (IsGap spots.now entries.now spot) }
{
    if is_behind(spots, spot) {
        return Err(spots.len());
    }
    match likely_place(spots, start, spot) {
        Some(i) => Ok(i),
        None => spots.binary_search(&spot),
    }
}

// Whether the spot comes behind all others.
fn is_behind(spots: &[Spot], spot: Spot) -> bool
    requires { IsStrictlySortedBy spot_cmp spots.now }
    ensures { IsTrue result → (k : ℕ) (d : Spot) → k < length spots.now
        → spot_cmp (slice_index_or spots.now k d) spot ≡ Less }
{
    let count = spots.len();
    if count == 0 {
        return true;
    }
    match spots[count - 1].cmp(&spot) {
        Ordering::Less => true,
        Ordering::Equal => false,
        Ordering::Greater => false,
    }
}

// Where the spot stands, if it is of the newest frame or of frame 0, and all variables of its frame stand there up to
// it; else maybe nothing. Almost all loads and stores are of these.
#[inline(always)]
fn likely_place(spots: &[Spot], start: usize, spot: Spot) -> Option<usize>
    ensures { IfSome result (λ i. (i < length spots.now) × ((d : Spot) → slice_index_or spots.now i d ≡ spot)) }
{
    let place = start.wrapping_add(spot.variable as usize);
    if stands_at(spots, place, spot) {
        return Some(place);
    }
    let place = spot.variable as usize;
    if stands_at(spots, place, spot) {
        return Some(place);
    }
    None
}

// Where the spot stands, if it is of the first one's frame, and all variables between stand there, or of the frame
// before the newest, and that is as long; else maybe nothing. A child is handed spots from somewhere on, and in a
// recursion frames are alike.
fn older_place(spots: &[Spot], start: usize, spot: Spot) -> Option<usize>
    ensures { IfSome result (λ i. (i < length spots.now) × ((d : Spot) → slice_index_or spots.now i d ≡ spot)) }
{
    let first = if spots.len() == 0 {
        0
    } else {
        spots[0].variable
    };
    let place = (spot.variable as usize).wrapping_sub(first as usize);
    if stands_at(spots, place, spot) {
        return Some(place);
    }
    let newest = spots.len().wrapping_sub(start);
    let place = start
        .wrapping_sub(newest)
        .wrapping_add(spot.variable as usize);
    if stands_at(spots, place, spot) {
        return Some(place);
    }
    None
}

#[inline(always)]
fn stands_at(spots: &[Spot], place: usize, spot: Spot) -> bool
    ensures { IsTrue result → (place < length spots.now) × ((d : Spot) → slice_index_or spots.now place d ≡ spot) }
{
    if place < spots.len() {
        let found = spots[place];
        if found.frame == spot.frame && found.variable == spot.variable {
            return true;
        }
    }
    false
}

// Where the spot stands.
#[inline(always)]
fn place(spots: &[Spot], entries: &[Entry], start: usize, spot: Spot) -> usize
    requires sorted { IsStrictlySortedBy spot_cmp spots.now }
    requires lengths { length spots.now ≡ length entries.now }
    requires known { IsSome (map.get (layout spots.now entries.now) spot) }
    ensures { IsPlace spots.now entries.now spot result }
{
    match likely_place(spots, start, spot) {
        Some(i) => i,
        None => far_place(spots, entries, start, spot),
    }
}

// The same of any spot.
#[inline(never)]
fn far_place(spots: &[Spot], entries: &[Entry], start: usize, spot: Spot) -> usize
    requires sorted { IsStrictlySortedBy spot_cmp spots.now }
    requires lengths { length spots.now ≡ length entries.now }
    requires known { IsSome (map.get (layout spots.now entries.now) spot) }
    ensures { IsPlace spots.now entries.now spot result }
{
    match older_place(spots, start, spot) {
        Some(i) => i,
        None => match search(spots, entries, start, spot) {
            Ok(i) => i,
            Err(_) => unreachable!(),
        },
    }
}

// Where the newest frame begins, if all its variables stand there.
fn newest_start(spots: &[Spot]) -> usize {
    let count = spots.len();
    if count == 0 {
        return 0;
    }
    let behind = spots[count - 1].variable as usize;
    if behind < count {
        return count - 1 - behind;
    }
    0
}

impl Slots {
    #[inline(always)]
    pub(crate) fn entry(&self, spot: Spot) -> &Entry
        requires { IsSome (map.get self.now spot) }
        ensures { map.get self.now spot ≡ Some (content result.now) }
    {
        let i = place(&self.spots, &self.entries, self.start, spot);
        &self.entries[i]
    }

    #[inline(always)]
    pub(crate) fn entry_mut(&mut self, spot: Spot) -> &mut Entry
        requires { IsSome (map.get self.old spot) }
        ensures* writes_back { sem 𝓛 (LendsEntry self.entry spot result) }
        ensures value { map.get self.old spot ≡ Some (content result.now) }
    {
        let i = place(&self.spots, &self.entries, self.start, spot);
        &mut self.entries[i]
    }

    pub(crate) fn find(&self, spot: Spot) -> Option<&Entry>
        ensures { MatchOption result (map.get self.now spot ≡ None)
            (λ e. map.get self.now spot ≡ Some (content e.now)) }
    {
        match search(&self.spots, &self.entries, self.start, spot) {
            Ok(i) => Some(&self.entries[i]),
            Err(_) => None,
        }
    }

    pub(crate) fn new(alloc: Global) -> Slots
        ensures { result ≡ map.empty }
    {
        Slots {
            spots: Vec::new(alloc),
            entries: Vec::new(alloc),
            start: 0,
        }
    }

    pub(crate) fn insert(&mut self, spot: Spot, entry: Entry) -> Result<(), Memory>
        ensures ok { OnOk result (self.new ≡ map.insert self.old spot (content entry)) }
        ensures err { OnErr result (self.new ≡ self.old) }
    {
        match search(&self.spots, &self.entries, self.start, spot) {
            Ok(i) => {
                self.entries[i] = entry;
                Ok(())
            }
            Err(i) => {
                have!(self.spots.reserve(1));
                have!(self.entries.reserve(1));
                put_in(&mut self.entries, i, entry);
                put_in(&mut self.spots, i, spot);
                self.start = newest_start(&self.spots);
                Ok(())
            }
        }
    }

    /// The spots, in their order.
    pub(crate) fn spots(&self) -> &[Spot]
        ensures distinct { DistinctByIndex result.now }
        ensures known { AllKnown self.now result.now }
        ensures all { (q : Spot) → IsSome (map.get self.now q) → ContainsAt result.now q }
    {
        &self.spots
    }

    /// The least number above every frame.
    pub(crate) fn above(&self) -> u64
        requires { least_above (frames (map.keys self.now)) ≤ 18446744073709551615 }
        ensures { result ≡ least_above (frames (map.keys self.now)) }
    {
        above_last(&self.spots, &self.entries)
    }

    /// Removes every spot of the frame, in time of that frame and of the frames above it.
    pub(crate) fn remove_frame(&mut self, frame: u64)
        ensures { self.new ≡ without_spots_of self.old frame }
    {
        let end = end_of(&self.spots, frame);
        let start = start_of(&self.spots, frame, end);
        take_out(&mut self.spots, start, end);
        take_out(&mut self.entries, start, end);
        self.start = newest_start(&self.spots);
    }
}

// The spots rise, so the last one's frame is the greatest.
fn above_last(spots: &[Spot], entries: &[Entry]) -> u64
    requires sorted { IsStrictlySortedBy spot_cmp spots.now }
    requires lengths { length spots.now ≡ length entries.now }
    requires below { least_above (frames (map.keys (layout spots.now entries.now))) ≤ 18446744073709551615 }
    ensures { result ≡ least_above (frames (map.keys (layout spots.now entries.now))) }
{
    let n = spots.len();
    if n == 0 {
        return 0;
    }
    spots[n - 1].frame + 1
}

// Where the spots of the frame and of those below it end.
fn end_of(spots: &[Spot], frame: u64) -> usize
    ensures bound { result ≤ length spots.now }
    ensures above { (k : ℕ) (d : Spot) → result ≤ k → k < length spots.now → let s = slice_index_or spots.now k d in
        frame < s.frame }
    ensures below { (d : Spot) → 0 < result → let s = slice_index_or spots.now (result - 1) d in s.frame ≤ frame }
{
    let mut n = spots.len();
    while 0 < n && frame < spots[n - 1].frame {
        n -= 1;
    }
    n
}

// Where the spots of the frame begin, that end at `end`.
fn start_of(spots: &[Spot], frame: u64, end: usize) -> usize
    requires { end ≤ length spots.now }
    ensures bound { result ≤ end }
    ensures inside { (k : ℕ) (d : Spot) → result ≤ k → k < end → let s = slice_index_or spots.now k d in
        s.frame ≡ frame }
    ensures below { (d : Spot) → 0 < result → let s = slice_index_or spots.now (result - 1) d in s.frame ≢ frame }
{
    let mut n = end;
    while 0 < n && spots[n - 1].frame == frame {
        n -= 1;
    }
    n
}

// Puts the item at the place. There is room for it.
#[tactic(auto, using(crate::proofs::Ends::insert_last))]
fn put_in<T: Drop>(items: &mut Vec<T>, place: usize, item: T)
    requires bound { place ≤ vec_len items.old }
    requires room { vec_len items.old < vec_capacity items.old }
    ensures { items.new.items ≡ insert items.old.items place item }
{
    if place == items.len() {
        items.push_reserved(item);
    } else {
        match items.insert(place, item) {
            Ok(()) => {}
            Err(_) => unreachable!(),
        }
    }
}

// Removes the items of the range.
#[tactic(auto, using(crate::proofs::Ends::cut_end))]
fn take_out<T: Drop>(items: &mut Vec<T>, start: usize, end: usize)
    requires order { start ≤ end }
    requires bound { end ≤ vec_len items.old }
    ensures { items.new.items ≡ take start items.old.items ++ drop end items.old.items }
{
    if end == items.len() {
        items.truncate(start);
    } else {
        items.drain(start..end);
    }
}
