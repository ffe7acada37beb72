//! The store of a process.

ghost use Rattle.std.specs.Prelude.{◌≡◌, [], IfOk, OnOk, OnErr};
ghost use Rattle.sp_cell.specs.Fork.{children_of, map_after_fork, map_after_join, map_after_joins, with_shared};
ghost use Rattle.sp_cell.specs.Fork.{moved_of, shared_of, HasIndex};
ghost use Rattle.sp_cell.specs.Frame.{HasNextFrame};
ghost use Rattle.sp_cell.specs.Holders.{KeepsPartition, RejoinsPartition};
ghost use Rattle.sp_cell.specs.Map.{with_map, HasCells, with_copied_cells};
ghost use Rattle.sp_cell.specs.Spots.{IsDistinct, In, NotIn, AllHeld, AllPieces, AllAway};

use sp_base::{List, Memory};
use sp_cell::{Address, Handing, Spot};
use sp_store::Store;

/// `Store::copy`.
pub fn copy(store: &mut Store, to: Address, from: Address, cells: u32) -> Result<(), Memory>
    requires target { HasCells store.old.map to cells }
    requires source { HasCells store.old.map from cells }
    ensures ok { OnOk result (store.new ≡ with_map store.old (with_copied_cells store.old.map to from cells)) }
    ensures err { OnErr result (store.new ≡ store.old) }
{
    let copied = store.copy(to, from, cells);
    copied
}

/// `Store::split`.
pub fn split(store: &mut Store, plan: &List<Handing>) -> Result<List<Store>, Memory>
    requires held { AllHeld store.old.map (moved_of plan.now) }
    requires pieces { AllPieces store.old.map (shared_of plan.now) }
    requires distinct { IsDistinct (moved_of plan.now) }
    requires apart { (q : Spot) → In q (moved_of plan.now) → NotIn q (shared_of plan.now) }
    requires number { HasIndex plan.now → HasNextFrame store.old }
    ensures children { IfOk result (λ cs. cs ≡ children_of store.old.map plan.now) }
    ensures parent { OnOk result (store.new ≡ with_map store.old (map_after_fork store.old.map plan.now)) }
    ensures partition { IfOk result (λ cs. KeepsPartition store.old.map store.new.map plan.now cs) }
    ensures back { IfOk result (λ cs. map_after_joins store.new.map cs
        ≡ with_shared store.old.map (shared_of plan.now) store.old.map) }
    ensures err { OnErr result (store.new ≡ store.old) }
{
    let children = store.split(plan);
    children
}

/// `Store::join`.
pub fn join(store: &mut Store, child: Store)
    requires no_frame { child.own ≡ [] }
    requires held { AllHeld child.map child.moved }
    requires away { AllAway store.old.map child.moved }
    ensures joined { store.new ≡ with_map store.old (map_after_join store.old.map child) }
    ensures partition { RejoinsPartition store.old.map store.new.map child }
{
    store.join(child);
}
