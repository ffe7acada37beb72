//! An order in which what others stand on comes first. It only saves time: no proof rests on it.

use crate::flags::{flag_at, mark, no_flags};
use crate::have;
use sp_base::{List, Memory, Writer};
use std::alloc::Global;

// Goes from an item to the one that it stands on, and so on, as far as those that were not seen.
fn climb(up: &[Option<usize>], seen: &mut List<bool>, way: &mut Writer<usize>, item: usize) {
    let mut at = item;
    for _step in 0..up.len() {
        if seen.len() <= at || flag_at(seen, at) {
            return;
        }
        mark(seen, at);
        way.put(at);
        match up.get(at) {
            Some(Some(to)) => at = *to,
            _ => return,
        }
    }
}

/// All items, each behind the one that it stands on, unless they stand on each other in a circle. The only other answer
/// is want of memory.
pub(crate) fn order(alloc: Global, up: &Writer<Option<usize>>) -> Result<List<usize>, Memory> {
    let count = up.items.len();
    let mut seen = have!(no_flags(alloc, count));
    let mut way = Writer::new(alloc);
    let mut order = Writer::new(alloc);
    for item in 0..count {
        climb(&up.items, &mut seen, &mut way, item);
        for _step in 0..way.items.len() {
            if let Some(last) = way.items.pop() {
                order.put(last);
            }
        }
    }
    if way.is_lost || up.is_lost {
        order.lose();
    }
    Ok(List::of(have!(order.finish())))
}
