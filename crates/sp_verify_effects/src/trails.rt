//! How a search came to what it found: of each item the one before it, and the edge between them. Nothing here has a
//! contract: what is found so is gone over again.

use crate::callers::NONE;
use crate::facts::Fact;
use crate::have;
use sp_base::{List, Memory};
use std::alloc::Global;

/// The item before another one, by its number, and the number of the edge between them.
#[derive(Clone, Copy)]
pub(crate) struct Step {
    pub from: u32,
    pub edge: u32,
}

/// That of an item with which a way begins.
pub(crate) const START: Step = Step {
    from: NONE,
    edge: NONE,
};

/// A way from what an area does itself to what another one does.
#[derive(Drop)]
pub(crate) struct Way {
    pub start: Fact,
    /// Of each step, the number of the edge among those of the area.
    pub edges: List<u32>,
    pub end: Fact,
}

// Goes back from an item to the one with which the way to it begins, and notes the edges.
fn go_back(steps: &List<Step>, back: &mut List<u32>, end: u32) -> Result<u32, Memory> {
    let mut at = end;
    for _step in 0..steps.len() {
        match steps.get(at as usize) {
            None => return Ok(at),
            Some(step) => {
                if step.from == NONE {
                    return Ok(at);
                }
                have!(back.push(step.edge));
                at = step.from;
            }
        }
    }
    Ok(at)
}

/// The item with which the way to this one begins, and the numbers of the edges on the way.
pub(crate) fn trail_to(
    alloc: Global,
    steps: &List<Step>,
    end: u32,
) -> Result<(u32, List<u32>), Memory> {
    let mut back = List::new(alloc);
    let start = have!(go_back(steps, &mut back, end));
    let mut edges = List::new(alloc);
    for _edge in 0..back.len() {
        if let Some(edge) = back.pop() {
            have!(edges.push(edge));
        }
    }
    Ok((start, edges))
}
