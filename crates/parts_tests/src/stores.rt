//! The calls of `sp_store`, each once.

ghost use Rattle.std.specs.Prelude.{◌≡◌, ◌≢◌, ◌+◌, ◌≤◌, IfOk, OnOk, Some, None, replicate, length, [], ◌∷◌};
ghost use Rattle.std.specs.Bool.{OnTrue};
ghost use Rattle.std.specs.FinMap as map;
ghost use Rattle.sp_cell.specs.declared.spot.Spot.{Spot};
ghost use Rattle.sp_cell.specs.Frame.{next_frame};
ghost use Rattle.sp_cell.specs.Map.{IsOutput, IsPiece, Away, output_spot};

use sp_base::{List, Memory};
use sp_cell::{Address, Cell, Handing, Spot};
use sp_store::Store;
use std::alloc::Global;
use std::test::Fail;

fn spot(variable: u32) -> Spot {
    Spot { frame: 0, variable }
}

fn at(variable: u32, offset: u32) -> Address {
    Address {
        spot: spot(variable),
        offset,
    }
}

// Whether the output is held.
fn has_output(store: &Store) -> bool
    ensures { OnTrue result (IsOutput (map.get store.now.map output_spot)) }
{
    match store.output() {
        Some(_) => true,
        None => false,
    }
}

// Pushes as many frames of one cell.
fn push_all(store: &mut Store, frames: u32) -> Result<(), Memory>
    requires number { next_frame store.old ≤ 1 }
    requires here { (q : Spot) → map.get store.old.map q ≢ Some Away }
    ensures frames { OnOk result (length store.new.own ≡ length store.old.own + frames) }
    ensures here { OnOk result ((q : Spot) → map.get store.new.map q ≢ Some Away) }
{
    for _ in 0..frames {
        store.push_frame(&[1])?;
    }
    Ok(())
}

// Pops as many frames.
fn pop_all(store: &mut Store, frames: u32)
    requires frames { frames ≤ length store.old.own }
    requires here { (q : Spot) → map.get store.old.map q ≢ Some Away }
{
    for _ in 0..frames {
        store.pop_frame();
    }
}

// A plan that shares one variable with as many children.
fn sharing(alloc: Global, spot: Spot, children: u32) -> Result<List<Handing>, Memory>
    ensures { IfOk result (λ plan. plan ≡ replicate children
        (record { moved = []; shared = spot ∷ []; index = None })) }
{
    let mut plan = List::new(alloc);
    for _ in 0..children {
        plan.push(Handing {
            moved: List::new(alloc),
            shared: List::from_slice(alloc, &[spot])?,
            index: None,
        })?;
    }
    Ok(plan)
}

// Forks as many children that share one variable.
fn share_with(
    store: &mut Store,
    alloc: Global,
    spot: Spot,
    children: u32,
) -> Result<List<Store>, Memory>
    requires { IsPiece (map.get store.old.map spot) }
{
    let plan = sharing(alloc, spot, children)?;
    store.split(&plan)
}

// What one cell holds, where it is there.
fn loaded(store: &Store, at: Address) -> Option<Cell> {
    if store.has_cells(at, 1) {
        Some(store.load(at))
    } else {
        None
    }
}

// Whether an undefined piece is undefined still once it is made own.
fn makes_own(store: &mut Store) -> bool {
    let a = at(2, 0);
    store.has_cells(a, 1)
        && store.make_own(a.spot).is_ok()
        && loaded(store, a) == Some(Cell::Undefined)
}

// Whether a cell that is undefined is stored and loaded.
fn stores_one(store: &mut Store) -> bool {
    let a = at(2, 0);
    loaded(store, a) == Some(Cell::Undefined)
        && store.has_cells(a, 1)
        && store.store(a, Cell::Ordinal(5)).is_ok()
        && loaded(store, a) == Some(Cell::Ordinal(5))
}

// Whether two cells are put into an array of a store's own.
fn puts_two(store: &mut Store, alloc: Global) -> bool {
    let to = at(3, 0);
    match List::from_slice(alloc, &[Cell::Ordinal(1), Cell::Channel(2)]) {
        Ok(cells) => {
            let puts = store.has_cells(to, 2) && store.is_own(to.spot);
            if puts {
                store.put(to, &cells);
            }
            puts
        }
        Err(_) => false,
    }
}

// Whether two cells of an array are copied one place up.
fn copies_two(store: &mut Store) -> bool {
    let from = at(3, 0);
    let to = at(3, 1);
    store.has_cells(from, 2) && store.has_cells(to, 2) && store.copy(to, from, 2).is_ok()
}

// Whether these are the three cells of the array.
fn has_three(store: &Store, wanted: &[Cell]) -> bool {
    let from = at(3, 0);
    if !store.has_cells(from, 3) {
        return false;
    }
    match store.cells(from, 3) {
        Ok(found) => found.items() == wanted,
        Err(_) => false,
    }
}

fn puts_and_copies(store: &mut Store, alloc: Global) -> bool {
    let wanted = [Cell::Ordinal(1), Cell::Ordinal(1), Cell::Channel(2)];
    puts_two(store, alloc) && copies_two(store) && has_three(store, &wanted)
}

// What comes of making own, of storing one cell, and of putting and copying several, in a new store.
fn done_with_cells(alloc: Global) -> [bool; 3] {
    match Store::root(alloc, &[1, 3]) {
        Ok(mut store) => {
            let own = makes_own(&mut store);
            let one = stores_one(&mut store);
            let several = puts_and_copies(&mut store, alloc);
            drop(store);
            [own, one, several]
        }
        Err(_) => [false; 3],
    }
}

#[test]
fn cells_are_made_own_stored_put_and_copied(rt: HostRuntime) {
    assert_eq!(rt; done_with_cells(rt.alloc()), [true; 3]);
}

// Whether the output is held, and takes these bytes.
fn appends(store: &mut Store, bytes: &[u8]) -> bool {
    if has_output(store) {
        return store.append(bytes).is_ok();
    }
    false
}

fn writes(store: &mut Store) -> bool {
    if appends(store, b"ab") && appends(store, b"c") {
        return store.output() == Some(b"abc".as_slice());
    }
    false
}

fn output_grows(alloc: Global) -> bool {
    match Store::root(alloc, &[]) {
        Ok(mut store) => {
            let grows = writes(&mut store);
            drop(store);
            grows
        }
        Err(_) => false,
    }
}

#[test]
fn the_output_grows(rt: HostRuntime) {
    assert!(rt; output_grows(rt.alloc()));
}

#[test]
fn ten_thousand_frames_are_pushed_and_popped(rt: HostRuntime) -> Result<(), Fail> {
    let mut store = Store::root(rt.alloc(), &[1])?;
    push_all(&mut store, 10_000)?;
    pop_all(&mut store, 10_000);
    drop(store);
    Ok(())
}

#[test]
fn a_frame_has_4096_variables(rt: HostRuntime) -> Result<(), Fail> {
    let mut store = Store::root(rt.alloc(), &[])?;
    let frame = store.push_frame(&[2; 4096])?;
    assert_eq!(rt; frame, 1);
    let last = Address {
        spot: Spot {
            frame,
            variable: 4095,
        },
        offset: 1,
    };
    assert!(rt; store.has_cells(last, 1));
    store.store(last, Cell::Ordinal(3))?;
    assert!(rt; loaded(&store, last) == Some(Cell::Ordinal(3)));
    drop(store);
    Ok(())
}

// The index of a child, which is the first variable of its frame.
fn index() -> Address {
    let spot = Spot {
        frame: 1,
        variable: 7,
    };
    Address { spot, offset: 0 }
}

#[test]
fn what_moves_comes_back_and_what_is_shared_is_read(rt: HostRuntime) -> Result<(), Fail> {
    let mut store = Store::root(rt.alloc(), &[1])?;
    let input = Spot {
        frame: 0,
        variable: 0,
    };
    let target = Spot {
        frame: 0,
        variable: 2,
    };
    let written = Address {
        spot: target,
        offset: 0,
    };
    let mut plan = List::new(rt.alloc());
    plan.push(Handing {
        moved: List::from_slice(rt.alloc(), &[target])?,
        shared: List::from_slice(rt.alloc(), &[input])?,
        index: Some((7, -3)),
    })?;
    assert!(rt; store.is_own(target) && store.is_own(input));
    let mut children = store.split(&plan)?.into_vec();
    let Some(mut child) = children.pop() else {
        drop(store);
        return Ok(());
    };
    assert!(rt; loaded(&child, index()) == Some(Cell::Ordinal(-3)));
    assert!(rt; loaded(&child, at(0, 0)) == Some(Cell::Ordinal(0)));
    assert!(rt; child.has_cells(written, 1));
    child.store(written, Cell::Ordinal(9))?;
    assert!(rt; child.is_own(target) && store.has_gone(target));
    store.join(child);
    assert!(rt; loaded(&store, written) == Some(Cell::Ordinal(9)));
    drop(store);
    Ok(())
}

// How many children share one variable of a new store, where so many are forked.
fn sharing_children(alloc: Global, input: Spot, children: u32) -> usize {
    match Store::root(alloc, &[]) {
        Ok(mut store) => {
            let count = forked(&mut store, alloc, input, children);
            drop(store);
            count
        }
        Err(_) => 0,
    }
}

fn forked(store: &mut Store, alloc: Global, input: Spot, children: u32) -> usize {
    if !store.is_own(input) {
        return 0;
    }
    match share_with(store, alloc, input, children) {
        Ok(all) => {
            let count = all.len();
            drop(all);
            count
        }
        Err(_) => 0,
    }
}

#[test]
fn a_hundred_thousand_children_share_one_piece(rt: HostRuntime) {
    let input = Spot {
        frame: 0,
        variable: 0,
    };
    assert!(rt; sharing_children(rt.alloc(), input, 100_000) == 100_000);
}
