//! The variables of one process, and its calls.

ghost use Rattle.std.specs.Prelude.{◌≡◌, ◌≢◌, ◌+◌, ◌<◌, ◌≤◌, IfOk, IsSome, Some, None, MatchOption, OnOk, OnErr, IsOk};
ghost use Rattle.std.specs.Prelude.{length, List, [], slice_index_or, IsTrue, ◌↔◌};
ghost use Rattle.sp_cell.specs.Map.{Away};
ghost use Rattle.std.specs.FinMap as map;
ghost use Rattle.sp_cell.specs.declared.cell.Cell.TheVariants.{Undefined};
ghost use Rattle.sp_cell.specs.Fork.{children_of, map_after_fork, with_away, map_after_join, with_shared, moved_of};
ghost use Rattle.sp_cell.specs.Fork.{shared_of, prepared_child, HasIndex};
ghost use Rattle.sp_cell.specs.Spots.{DistinctByIndex, PieceAtEach};
ghost use Rattle.sp_cell.specs.Frame.{root_map, next_frame, HasNextFrame, with_new_frame, without_newest_frame};
ghost use Rattle.sp_cell.specs.Frame.{last_own_frame, NoneAway};
ghost use Rattle.sp_cell.specs.Lists.{part};
ghost use Rattle.sp_cell.specs.Map.{with_map, cells_at, HasCells, with_cell, IsOwn, IsPiece, with_own_piece, put_cells};
ghost use Rattle.sp_cell.specs.Map.{with_copied_cells};
ghost use Rattle.sp_cell.specs.Map.{IsOutput, output_spot, output_of, with_more_output};
ghost use Rattle.sp_cell.specs.Fork.{map_after_joins};
ghost use Rattle.sp_cell.specs.Fork.{children_so_far};
ghost use Rattle.sp_cell.specs.Spots.{IsDistinct, In, NotIn, AllHeld, AllPieces, AllAway};
ghost use Rattle.sp_cell.specs.Holders.{KeepsPartition, RejoinsPartition};
ghost use Rattle.sp_store.specs.Layout.{IsLent, FramesBelow};

use crate::entry::Entry;
use crate::frame::add_pieces;
use crate::hand::hand;
use crate::slots::Slots;
use crate::{entry, fork, have};
use sp_base::{List, Memory};
use sp_cell::{Address, Cell, Handing, Spot};
use std::alloc::Global;
use std::marker::Model;
use std::sync::Arc;

/// The variables that one process holds. Contracts see the plain map from spots to what is own, shared, the output or
/// away, the numbers of the own frames, the newest last, and the spots that were moved here when the store was made.
/// Frame 0 of a run and the frame of an index are no own frames.
pub struct Store {
    pub(crate) slots: Slots,
    own: Vec<u64>,
    moved: List<Spot>,
}

// By hand, so that it is proved once, here, and not in each crate that drops a store.
impl Drop for Store {
    fn drop(self) {
        let Store {
            slots: _,
            own: _,
            moved: _,
        } = self;
    }
}

impl Model for Store {
    ghost use Rattle.sp_cell.specs.Codes.{plain_code};
    ghost use Rattle.sp_cell.specs.Spots.{DistinctByIndex};
    ghost use Rattle.sp_cell.specs.Frame.{IsRising};
    ghost use Rattle.sp_cell.specs.Map.{Plain};

    ghost Value = { Plain };

    ghost coded = { plain_code };

    ghost view = { λ a. record { map = a.slots; own = a.own.items; moved = a.moved } };

    ghost invariant = { λ a. DistinctByIndex a.moved × IsRising a.own.items };
}

impl Store {
    /// The store of a run's first process. Frame 0 has the input's position 0 as variable 0, the empty output as
    /// variable 1, and from variable 2 on an undefined piece for each size, in cells.
    pub fn root(alloc: Global, sizes: &[u32]) -> Result<Store, Memory>
        requires { length sizes.now ≤ 4294967294 }
        ensures { IfOk result (λ s. s ≡ record { map = root_map sizes.now; own = []; moved = [] }) }
    {
        let mut slots = Slots::new(alloc);
        have!(slots.insert(
            Spot {
                frame: 0,
                variable: 0,
            },
            Entry::Single(Cell::Ordinal(0)),
        ));
        have!(slots.insert(
            Spot {
                frame: 0,
                variable: 1,
            },
            Entry::Output(Vec::new(alloc)),
        ));
        have!(add_pieces(alloc, &mut slots, 0, 2, sizes));
        Ok(Store {
            slots,
            own: Vec::new(alloc),
            moved: List::of(Vec::new(alloc)),
        })
    }

    /// A store that holds nothing. It takes no memory.
    pub fn empty(alloc: Global) -> Store
        ensures { result ≡ record { map = map.empty; own = []; moved = [] } }
    {
        Store {
            slots: Slots::new(alloc),
            own: Vec::new(alloc),
            moved: List::of(Vec::new(alloc)),
        }
    }

    /// Makes a frame with an undefined piece for each size, in cells, from variable 0 on. Its number is one above all
    /// that the store knows. Where memory is refused, the store is unchanged.
    pub fn push_frame(&mut self, sizes: &[u32]) -> Result<u64, Memory>
        requires sizes { length sizes.now ≤ 4294967294 }
        requires number { HasNextFrame self.old }
        ensures ok { IfOk result (λ n. n ≡ next_frame self.old) }
        ensures pushed { OnOk result (self.new ≡ with_new_frame self.old sizes.now) }
        ensures err { OnErr result (self.new ≡ self.old) }
    {
        let number = self.next_frame();
        have!(self.own.reserve(1));
        match add_pieces(*self.own.allocator(), &mut self.slots, number, 0, sizes) {
            Ok(()) => {}
            Err(_) => {
                self.slots.remove_frame(number);
                return Err(Memory);
            }
        }
        self.own.push_reserved(number);
        Ok(number)
    }

    /// Drops the newest own frame with its pieces.
    pub fn pop_frame(&mut self)
        requires own { self.old.own ≢ [] }
        requires here { NoneAway self.old.map (last_own_frame self.old.own) }
        ensures { self.new ≡ without_newest_frame self.old }
    {
        match self.own.pop() {
            Some(number) => self.slots.remove_frame(number),
            None => unreachable!(),
        }
    }

    /// The number of the next frame.
    fn next_frame(&self) -> u64
        requires { HasNextFrame self.now }
        ensures { result ≡ next_frame self.now }
    {
        let known = self.slots.above();
        let n = self.own.len();
        if n == 0 {
            return known;
        }
        let own = self.own[n - 1] + 1;
        if own < known { known } else { own }
    }

    /// The cell at the address.
    #[tactic(auto, using(crate::proofs::OneCellPieces::read_single))]
    #[inline(always)]
    pub fn load(&self, at: Address) -> Cell
        requires { HasCells self.now.map at 1 }
        ensures { result ≡ slice_index_or (cells_at self.now.map at.spot) at.offset Undefined }
    {
        match self.slots.entry(at.spot) {
            Entry::Single(cell) => *cell,
            Entry::Own(piece) => piece.read(at.offset),
            Entry::Shared(piece) => piece.read(at.offset),
            Entry::Output(_) | Entry::Away => unreachable!(),
        }
    }

    /// Writes one cell. A piece that is shared becomes an own copy first; where it is own, the call takes no memory and
    /// succeeds. Where memory is refused, the store is unchanged.
    #[tactic(auto, using(sp_cell::proofs::Laws::insert_same))]
    #[inline(always)]
    pub fn store(&mut self, at: Address, cell: Cell) -> Result<(), Memory>
        requires { HasCells self.old.map at 1 }
        ensures ok { OnOk result (self.new ≡ with_map self.old (with_cell self.old.map at cell)) }
        ensures err { OnErr result (self.new ≡ self.old) }
        ensures succeeds { IsOwn (map.get self.old.map at.spot) → IsOk result }
    {
        let entry = self.slots.entry_mut(at.spot);
        have!(entry::make_own(entry));
        entry::write(entry, at.offset, cell);
        Ok(())
    }

    /// Makes the piece an own one, with the same cells, so that later writes take no memory. Where memory is refused,
    /// the store is unchanged.
    #[tactic(auto, using(sp_cell::proofs::Laws::insert_same))]
    pub fn make_own(&mut self, spot: Spot) -> Result<(), Memory>
        requires { IsPiece (map.get self.old.map spot) }
        ensures ok { OnOk result
            (self.new ≡ with_map self.old (with_own_piece self.old.map spot (cells_at self.old.map spot))) }
        ensures err { OnErr result (self.new ≡ self.old) }
    {
        let entry = self.slots.entry_mut(spot);
        entry::make_own(entry)
    }

    /// Writes the cells over those from the address on. The piece is own, and no memory is taken.
    pub fn put(&mut self, at: Address, cells: &List<Cell>)
        requires own { IsOwn (map.get self.old.map at.spot) }
        requires in_range { HasCells self.old.map at (length cells.now) }
        ensures { self.new ≡ with_map self.old (put_cells self.old.map at cells.now) }
    {
        let entry = self.slots.entry_mut(at.spot);
        entry::overwrite(entry, at.offset, cells.items());
    }

    /// As many cells from the address on.
    pub fn cells(&self, at: Address, cells: u32) -> Result<List<Cell>, Memory>
        requires { HasCells self.now.map at cells }
        ensures { IfOk result (λ r. r ≡ part (cells_at self.now.map at.spot) at.offset cells) }
    {
        let piece = entry::cells(self.slots.entry(at.spot));
        let from = at.offset as usize;
        let end = from + cells as usize;
        let taken = have!(Vec::from_slice(*self.own.allocator(), &piece[from..end]));
        Ok(List::of(taken))
    }

    /// Puts the bytes after the output. Where memory is refused, the store is unchanged.
    #[tactic(auto, using(sp_cell::proofs::Laws::insert_same))]
    pub fn append(&mut self, bytes: &[u8]) -> Result<(), Memory>
        requires { IsOutput (map.get self.old.map output_spot) }
        ensures ok { OnOk result (self.new ≡ with_map self.old (with_more_output self.old.map bytes.now)) }
        ensures err { OnErr result (self.new ≡ self.old) }
    {
        let entry = self.slots.entry_mut(Spot {
            frame: 0,
            variable: 1,
        });
        entry::append(entry, bytes)
    }

    /// Copies as many cells from one address to another. A target piece that is shared becomes an own copy first. What
    /// the source had before the call stands in the target after it, also where both ranges overlap. Where memory is
    /// refused, the store is unchanged.
    #[tactic(auto, using(sp_cell::proofs::Laws::insert_twice, sp_cell::proofs::Laws::get_here))]
    pub fn copy(&mut self, to: Address, from: Address, cells: u32) -> Result<(), Memory>
        requires target { HasCells self.old.map to cells }
        requires source { HasCells self.old.map from cells }
        ensures ok { OnOk result (self.new ≡ with_map self.old (with_copied_cells self.old.map to from cells)) }
        ensures err { OnErr result (self.new ≡ self.old) }
    {
        let taken = have!(self.cells(from, cells));
        have!(self.make_own(to.spot));
        self.put(to, &taken);
        Ok(())
    }

    /// The cells of the piece at a spot, own or shared, if it is held.
    pub fn held(&self, spot: Spot) -> Option<&[Cell]>
        ensures { MatchOption result (IsPiece (map.get self.now.map spot) → ⊥)
            (λ cs. IsPiece (map.get self.now.map spot) × (cells_at self.now.map spot ≡ cs.now)) }
    {
        match self.slots.find(spot) {
            None | Some(Entry::Output(_) | Entry::Away) => None,
            Some(piece) => Some(entry::cells(piece)),
        }
    }

    /// Whether the piece at a spot is away.
    pub fn has_gone(&self, spot: Spot) -> bool
        ensures { IsTrue result ↔ (map.get self.now.map spot ≡ Some Away) }
    {
        matches!(self.slots.find(spot), Some(Entry::Away))
    }

    /// The spots that were moved here when the store was made.
    pub fn moved(&self) -> &[Spot]
        ensures { result.now ≡ self.now.moved }
    {
        self.moved.items()
    }

    /// What was written so far, or `None` where the output is not held.
    pub fn output(&self) -> Option<&[u8]>
        ensures { MatchOption result (output_of (map.get self.now.map output_spot) ≡ None)
            (λ bs. output_of (map.get self.now.map output_spot) ≡ Some bs.now) }
    {
        match self.slots.find(Spot {
            frame: 0,
            variable: 1,
        }) {
            Some(Entry::Output(text)) => Some(text.as_slice()),
            _ => None,
        }
    }

    /// Takes back what moved to the child when it was made. What was shared with it, its index and the rest of it are
    /// dropped.
    pub fn join(&mut self, child: Store)
        requires no_frame { child.own ≡ [] }
        requires held { AllHeld child.map child.moved }
        requires away { AllAway self.old.map child.moved }
        ensures joined { self.new ≡ with_map self.old (map_after_join self.old.map child) }
        ensures partition { RejoinsPartition self.old.map self.new.map child }
    {
        let Store { slots, own, moved } = child;
        let mut slots = slots;
        hand(&mut slots, &mut self.slots, moved.items());
    }

    /// The child of a handing, with room for what is to be moved.
    fn prepare(
        alloc: Global,
        from: &Slots,
        ready: &mut Slots,
        handing: &Handing,
    ) -> Result<Store, Memory>
        requires lent { IsLent from.now ready.old }
        requires pieces { PieceAtEach from.now handing.now.shared }
        requires distinct { DistinctByIndex handing.now.moved }
        requires frames { IsSome handing.now.index → FramesBelow handing.now.moved 18446744073709551615
            × FramesBelow handing.now.shared 18446744073709551615 }
        ensures child { IfOk result (λ c. c ≡ prepared_child from.now handing.now) }
        ensures ready { OnOk result (ready.new ≡ with_shared from.now handing.now.shared ready.old) }
        ensures lent { OnOk result (IsLent from.now ready.new) }
    {
        let mut slots = Slots::new(alloc);
        have!(fork::keep_room(alloc, &mut slots, handing.moved.items()));
        have!(fork::lend(alloc, from, ready, &mut slots, handing.shared.items()));
        if let Some((variable, value)) = handing.index {
            let moved = fork::above_all(handing.moved.items());
            let shared = fork::above_all(handing.shared.items());
            let frame = if moved < shared { shared } else { moved };
            let index = Entry::Single(Cell::Ordinal(value));
            have!(slots.insert(Spot { frame, variable }, index));
        }
        let moved = have!(Vec::from_slice(alloc, handing.moved.items()));
        Ok(Store {
            slots,
            own: Vec::new(alloc),
            moved: List::of(moved),
        })
    }

    /// Moves to each child what its handing moves.
    fn fill(parent: &mut Slots, children: &mut Vec<Store>, plan: &[Handing])
        requires prepared { children.old.items ≡ children_so_far parent.old plan.now 0 }
        requires distinct { IsDistinct (moved_of plan.now) }
        requires known { (q : Spot) → In q (moved_of plan.now) → IsSome (map.get parent.old q) }
        ensures children { children.new.items ≡ children_of parent.old plan.now }
        ensures parent { parent.new ≡ with_away parent.old (moved_of plan.now) }
    {
        for (i, handing) in plan.iter().enumerate() {
            let child = &mut children[i];
            hand(parent, &mut child.slots, handing.moved.items());
        }
    }

    /// Makes a child for each handing of the plan: it gets the moved spots as they are, the shared ones as shared, and
    /// an index in a frame of its own. Here the moved spots are away after it, and the shared ones shared. All memory
    /// is taken first: where it is refused, the store is unchanged.
    pub fn split(&mut self, plan: &List<Handing>) -> Result<List<Store>, Memory>
        requires held { AllHeld self.old.map (moved_of plan.now) }
        requires pieces { AllPieces self.old.map (shared_of plan.now) }
        requires distinct { IsDistinct (moved_of plan.now) }
        requires apart { (q : Spot) → In q (moved_of plan.now) → NotIn q (shared_of plan.now) }
        requires number { HasIndex plan.now → HasNextFrame self.old }
        ensures children { IfOk result (λ cs. cs ≡ children_of self.old.map plan.now) }
        ensures parent { OnOk result (self.new ≡ with_map self.old (map_after_fork self.old.map plan.now)) }
        ensures partition { IfOk result (λ cs. KeepsPartition self.old.map self.new.map plan.now cs) }
        // Children that are joined as they were made give all back.
        ensures back { IfOk result (λ cs. map_after_joins self.new.map cs
            ≡ with_shared self.old.map (shared_of plan.now) self.old.map) }
        ensures err { OnErr result (self.new ≡ self.old) }
    {
        let handings = plan.items();
        let alloc = *self.own.allocator();
        let mut ready = Slots::new(alloc);
        let mut children = Vec::new(alloc);
        have!(Store::prepare_each(alloc, &self.slots, &mut ready, &mut children, handings));
        let shared = have!(Vec::from_slice(alloc, ready.spots()));
        Store::fill(&mut self.slots, &mut children, handings);
        hand(&mut ready, &mut self.slots, &shared);
        Ok(List::of(children))
    }

    /// The children of a plan, with room for what is to be moved, and in `ready` what they share.
    fn prepare_each(
        alloc: Global,
        from: &Slots,
        ready: &mut Slots,
        children: &mut Vec<Store>,
        plan: &[Handing],
    ) -> Result<(), Memory>
        requires empty { (ready.old ≡ map.empty) × (children.old.items ≡ []) }
        requires pieces { AllPieces from.now (shared_of plan.now) }
        requires distinct { IsDistinct (moved_of plan.now) }
        requires known { (q : Spot) → In q (moved_of plan.now) → IsSome (map.get from.now q) }
        requires frames { HasIndex plan.now → (q : Spot) → IsSome (map.get from.now q)
            → q.frame < 18446744073709551615 }
        ensures children { OnOk result (children.new.items ≡ children_so_far from.now plan.now 0) }
        ensures ready { OnOk result (ready.new ≡ with_shared from.now (shared_of plan.now) map.empty) }
    {
        let first = have!(fork::shares_in_order(alloc, plan));
        // Lent once before the first child, so that `ready` gets them in their order.
        let mut spare = Slots::new(alloc);
        have!(fork::lend(alloc, from, ready, &mut spare, &first));
        for handing in plan {
            let child = have!(Store::prepare(alloc, from, ready, handing));
            have!(children.push(child));
        }
        Ok(())
    }
}
