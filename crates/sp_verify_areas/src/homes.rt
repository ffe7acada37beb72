//! What is around each instruction, as the search answers it: which variables the instruction may name.

ghost use Rattle.std.specs.Prelude.{◌≡◌, ◌<◌, Some, length, slice_get};
ghost use Rattle.sp_code.specs.declared.code.Parts.{Parts};
ghost use Rattle.sp_verify_rules.specs.Areas.{Area, found_at, found_in, found_of as within, homes};
ghost use Rattle.sp_verify_rules.specs.Areas.{variable_at};
ghost use Rattle.sp_verify_areas.specs.Homes.{AreHomes, found_of};
ghost use Rattle.sp_verify_areas.specs.Only.{LiesOnlyIn};
ghost use Rattle.sp_verify_areas.specs.Tree.{IsFrameOfHome, IsFrame, home_of};

use crate::tree::{Frame, Node, outward};
use sp_base::List;
use sp_code::{Code, Formal, Layout};

/// How a variable is named: by `addr`, not at all since it is the input or the output, or by `deref`.
#[derive(Clone, Copy)]
pub enum Naming {
    Plainly,
    Never,
    ByReference,
}

/// A variable: its number in the tree, its cells, and how it is named. A reference formal has the cells of its type.
#[derive(Clone, Copy)]
pub struct Found {
    pub number: u32,
    pub cells: u32,
    pub naming: Naming,
}

/// A tree of the frames around code, and for each instruction a node of it.
#[derive(Drop)]
pub struct Homes {
    pub(crate) nodes: List<Node>,
    pub(crate) at: List<Option<usize>>,
}

// The variable of a layout at a place.
fn found_in(l: &Layout, place: usize) -> Option<Found>
    ensures { found_of result ≡ found_in l.now place }
{
    let number = match l.variables.get(place) {
        None => return None,
        Some(number) => *number,
    };
    if let Some(Formal::Reference(cells)) = l.formals.get(place) {
        return Some(Found {
            number,
            cells: *cells,
            naming: Naming::ByReference,
        });
    }
    match l.sizes.get(place) {
        None => None,
        Some(cells) => Some(Found {
            number,
            cells: *cells,
            naming: Naming::Plainly,
        }),
    }
}

// A variable of a block's frame; that of the program begins with the input and the output.
fn found_within(l: &Layout, var: u32) -> Option<Found>
    ensures { found_of result ≡ within (Some l.now) var }
{
    if l.block != 0 {
        return found_in(l, var as usize);
    }
    if var < 2 {
        return Some(Found {
            number: var,
            cells: 1,
            naming: Naming::Never,
        });
    }
    found_in(l, var as usize - 2)
}

// A variable of a frame.
fn found_at(layouts: &List<Layout>, frame: Frame, var: u32) -> Option<Found>
    ensures { IsFrame layouts.now frame → found_of result ≡ found_at layouts.now (home_of frame) var }
{
    match frame {
        Frame::Block { block: _, place } => match layouts.get(place as usize) {
            None => None,
            Some(l) => found_within(l, var),
        },
        Frame::Index(number) => {
            if var == 0 {
                Some(Found {
                    number,
                    cells: 1,
                    naming: Naming::Plainly,
                })
            } else {
                None
            }
        }
    }
}

impl Homes {
    /// The frame so many levels outward from the code in which an instruction lies.
    pub(crate) fn frame(&self, p: u32, up: usize) -> Option<Frame>
        ensures { (c : Parts) (a : Area) → AreHomes c self.now → p < length c.instrs → LiesOnlyIn c p a
            → IsFrameOfHome c.layouts (slice_get (homes c a) up) result }
    {
        match self.at.get(p as usize) {
            None => None,
            Some(at) => match *at {
                None => None,
                Some(node) => outward(&self.nodes, node, up),
            },
        }
    }

    /// A variable of the frame so many levels outward from the code in which an instruction lies, where it lies in that
    /// of one area alone; None where there is no such frame or variable.
    pub fn variable(&self, code: &Code, p: u32, up: u32, var: u32) -> Option<Found>
        requires homes { AreHomes code.now self.now }
        requires there { p < length code.now.instrs }
        ensures { (a : Area) → LiesOnlyIn code.now p a → found_of result ≡ variable_at code.now a up var }
    {
        match self.frame(p, up as usize) {
            None => None,
            Some(frame) => found_at(&code.parts().layouts, frame, var),
        }
    }
}
