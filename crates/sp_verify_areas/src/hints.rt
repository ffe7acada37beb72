//! Where variables are likely to be found. It only saves time: whoever uses a hint looks whether it is right.

use crate::flags::{flag_at, mark, no_flags};
use crate::have;
use crate::tree::{Frame, Node};
use sp_base::{List, Memory, Writer};
use sp_code::{Code, Layout};
use std::collections::BTreeMap;

/// How many frames there are from the outermost one to that of a variable, and its place in the frame; and the number
/// of the hint before this one, where the variable is declared more than once.
#[derive(Clone, Copy)]
pub(crate) struct Hint {
    pub depth: usize,
    pub place: usize,
    pub before: u32,
}

// Variables below this number have the number of their last hint in a list, at their place.
const FEW: u32 = 8_388_608;
// There is no hint of this number.
const NONE: u32 = 4_294_967_295;

/// How deep each node of a tree lies, and where variables are declared: all hints, and the number of the last one of
/// each variable, in a list, or in a map for variables of great numbers.
#[derive(Drop)]
pub(crate) struct Hints {
    depths: Writer<usize>,
    pub hints: Writer<Hint>,
    near: Writer<u32>,
    far: BTreeMap<u32, u32>,
}

impl Hints {
    /// How many frames there are from the outermost one to that of a node; none, if there is no node.
    pub(crate) fn depth(&self, node: Option<usize>) -> usize {
        match node {
            None => 0,
            Some(node) => match self.depths.items.get(node) {
                None => 0,
                Some(depth) => *depth,
            },
        }
    }

    /// The number of the last hint of a variable.
    pub(crate) fn last(&self, x: u32) -> u32 {
        let number = if x < FEW {
            self.near.items.get(x as usize)
        } else {
            self.far.get(&x)
        };
        match number {
            None => NONE,
            Some(number) => *number,
        }
    }

    fn note(&mut self, x: u32, depth: usize, place: usize) {
        let before = self.last(x);
        let number = self.hints.items.len().min(NONE as usize) as u32;
        self.hints.put(Hint {
            depth,
            place,
            before,
        });
        if x >= FEW {
            if self.far.insert(x, number).is_err() {
                self.hints.is_lost = true;
            }
            return;
        }
        let at = x as usize;
        for _place in self.near.items.len()..at + 1 {
            self.near.put(NONE);
        }
        if at < self.near.items.len() {
            self.near.items[at] = number;
        }
    }
}

// Notes the variables of a frame, if that was not seen.
fn note_frame(
    layouts: &List<Layout>,
    seen: &mut List<bool>,
    hints: &mut Hints,
    frame: Frame,
    depth: usize,
) {
    match frame {
        Frame::Index(x) => hints.note(x, depth, 0),
        Frame::Block { block: _, place } => {
            if flag_at(seen, place as usize) {
                return;
            }
            mark(seen, place as usize);
            if let Some(l) = layouts.get(place as usize) {
                for (place, x) in l.variables.items().iter().enumerate() {
                    hints.note(*x, depth, place);
                }
            }
        }
    }
}

/// Hints for all variables. The only other answer is want of memory.
pub(crate) fn find_hints(code: &Code, nodes: &List<Node>) -> Result<Hints, Memory> {
    let layouts = &code.parts().layouts;
    let alloc = nodes.alloc();
    let mut seen = have!(no_flags(alloc, layouts.len()));
    let mut hints = Hints {
        depths: Writer::new(alloc),
        hints: Writer::new(alloc),
        near: Writer::new(alloc),
        far: BTreeMap::new(alloc),
    };
    for n in nodes.items() {
        let depth = hints.depth(n.around).saturating_add(1);
        hints.depths.put(depth);
        note_frame(layouts, &mut seen, &mut hints, n.frame, depth);
    }
    if hints.depths.is_lost || hints.hints.is_lost || hints.near.is_lost {
        return Err(Memory);
    }
    Ok(hints)
}
