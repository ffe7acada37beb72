//! The tests of `sp_room`: two threads add to one sum, and a seat still leaves whose add was refused.
use super::*;
use std::test::*;

// The sums in the notes of one worker are those that it got, in its order.
fn agrees(notes: &List<Note>, worker: u32, sums: &Vec<u64>) -> bool {
    notes
        .items()
        .iter()
        .filter(|note| note.worker == worker)
        .map(|note| note.sum)
        .eq(sums.iter().copied())
}

#[test]
fn two_threads_add(rt: HostRuntime) -> Result<(), Fail> {
    let outcome = race(&rt, rt.alloc(), 1000).ok_or("memory")?;
    assert!(rt; matches!(outcome.seen, Got::Sum(2000)));
    let notes = outcome.settled.notes();
    assert_eq!(rt; notes.len(), 2000);
    assert_eq!(rt; outcome.first.len(), 1000);
    assert_eq!(rt; outcome.second.len(), 1000);
    assert!(rt; agrees(notes, 0, &outcome.first));
    assert!(rt; agrees(notes, 1, &outcome.second));
    let in_order = notes
        .items()
        .iter()
        .enumerate()
        .all(|(at, note)| note.sum == at as u64 + 1);
    assert!(rt; in_order);
    assert_eq!(rt; outcome.settled.object().value, 2000);
    assert_eq!(rt; outcome.settled.into_object().value, 2000);
    Ok(())
}

// Where no add is refused it leaves after all of them. Where one is, as with `rt try --test --fail-alloc`, it leaves
// then.
#[test]
fn a_refused_seat_still_leaves(rt: HostRuntime) -> Result<(), Fail> {
    let (sums, settled) = add_and_leave(&rt, rt.alloc(), 100).ok_or("memory")?;
    let notes = settled.notes();
    assert_eq!(rt; notes.len(), sums.len() + 1);
    let last = notes.items().last().ok_or("a note")?;
    assert_eq!(rt; last.sum, notes.len() as u64);
    assert_eq!(rt; settled.object().value, last.sum);
    Ok(())
}
