//! What the kernel keeps of each process.

ghost use Rattle.std.specs.Prelude.{◌≡◌, ◌+◌, ◌<◌, ◌≤◌, ◌++◌, length, Some, slice_set, OnOk, OnErr};
ghost use Rattle.sp_kernel.specs.ListEnds.{without_last, repeat};
ghost use Rattle.sp_kernel.specs.Seats.{Seated};
ghost use Rattle.sp_kernel.specs.declared.slot.Slot.TheVariants as slot;

use sp_base::{List, Memory};
use sp_cell::Cell;
use sp_journal::Entry;
use sp_machine::Proc;
use std::snapshot::Snapshot;

/// What a process does that the kernel has.
#[derive(Drop)]
pub(crate) enum State {
    Ready,
    /// It waits at a channel, with a message of a type.
    Sending(u32, u32, List<Cell>),
    Receiving(u32, u32),
    Joining(u32),
    Laid,
    /// The root has ended.
    Over,
}

/// A process and what it does.
#[derive(Drop)]
pub(crate) enum Slot {
    Here(Proc, State),
    /// A worker has it, since it was so.
    Out(u32, Snapshot<Proc>),
    Ended,
    /// A worker that gave up had it, since it was so.
    Gone(Snapshot<Proc>),
}

/// Puts a slot in place of another, which is dropped.
pub(crate) fn put(slots: &mut List<Slot>, at: u32, slot: Slot)
    requires { at < length slots.old }
    ensures { slots.new ≡ slice_set slots.old at slot }
{
    let _ = slots.replace(at as usize, slot);
}

/// The last entry goes.
pub(crate) fn drop_last(entries: &mut List<Entry>)
    ensures { entries.new ≡ without_last entries.old }
{
    let _ = entries.pop();
}

/// So many slots more, of processes that are not there yet. Where memory is refused the slots are unchanged.
#[tactic(auto, using(crate::proofs::ListEnds::repeat_more, crate::proofs::ListEnds::front_only, crate::proofs::ListEnds::none_more))]
pub(crate) fn add_slots(slots: &mut List<Slot>, count: u32) -> Result<(), Memory>
    ensures ok { OnOk result (slots.new ≡ slots.old ++ repeat count slot.Ended) }
    ensures err { OnErr result (slots.new ≡ slots.old) }
{
    let before = slots.len();
    let mut added = 0;
    while added < count {
        if slots.push(Slot::Ended).is_err() {
            slots.truncate(before);
            return Err(Memory);
        }
        added += 1;
    }
    Ok(())
}

/// So many children more of this process. Where memory is refused the list is unchanged.
#[tactic(auto, using(crate::proofs::ListEnds::repeat_more, crate::proofs::ListEnds::front_only, crate::proofs::ListEnds::none_more))]
pub(crate) fn add_parents(
    parents: &mut List<Option<u32>>,
    process: u32,
    count: u32,
) -> Result<(), Memory>
    ensures ok { OnOk result (parents.new ≡ parents.old ++ repeat count (Some process)) }
    ensures err { OnErr result (parents.new ≡ parents.old) }
{
    let before = parents.len();
    let mut added = 0;
    while added < count {
        if parents.push(Some(process)).is_err() {
            parents.truncate(before);
            return Err(Memory);
        }
        added += 1;
    }
    Ok(())
}

/// Each child is ready in its slot, the first of them at this place.
pub(crate) fn seat(slots: &mut List<Slot>, first: u32, children: List<Proc>)
    requires room { first + length children ≤ length slots.old }
    requires few { first + length children < 4294967296 }
    ensures { Seated slots.old first children slots.new }
{
    let mut children = children;
    while let Some(child) = children.pop() {
        put(
            slots,
            first + children.len() as u32,
            Slot::Here(child, State::Ready),
        );
    }
}
