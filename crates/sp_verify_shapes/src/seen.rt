//! What V5 saw of calls that fit: operands that come again are not compared again.

ghost use Rattle.std.specs.Prelude.{◌≡◌, List, MatchOption};
ghost use Rattle.sp_code.specs.declared.code.Layout.{Layout};
ghost use Rattle.sp_verify_shapes.specs.Names.{AreNames};
ghost use Rattle.sp_verify_shapes.specs.Seen.{AddsPart, AreSeen, IsSeenJump};
ghost use Rattle.sp_verify_shapes.specs.Stacks.{IsStacks};

use crate::memo::Memo;
use crate::names::Names;
use crate::stacks::{Jump, Stacks};
use std::alloc::Global;

/// Lists that fit as a whole, by their numbers; and shapes that the jump of a list passes, by the names of lists, with
/// how many formals were left before the jump.
#[derive(Drop)]
pub struct Seen {
    pub wholes: Memo,
    pub parts: Memo,
    pub names: Names,
}

// Whether a jump is asked about by the name of its list. Few are enough: each is eight times as far as the one before.
fn is_asked(far: u32) -> bool {
    far == 63 || far == 511 || far == 4_095 || far == 32_767 || far == 262_143
}

impl Seen {
    /// Nothing was seen.
    pub(crate) fn new(alloc: Global) -> Seen
        ensures { (ls : List Layout) (st : Stacks) → AreSeen ls st result }
    {
        Seen {
            wholes: Memo::new(alloc),
            parts: Memo::new(alloc),
            names: Names::new(alloc),
        }
    }

    /// The jump of a list if the shapes that it passes were seen to fit the last ones of so many formals of a layout.
    /// If not, they are kept from now on, unless memory is refused: so the caller has to see whether they fit.
    pub(crate) fn passes(
        &mut self,
        stacks: &Stacks,
        is_due: bool,
        layout: usize,
        count: usize,
        list: u32,
    ) -> Option<Jump>
        requires stacks { IsStacks stacks.now }
        requires names { AreNames stacks.now self.old.names.of }
        ensures seen { MatchOption result (Unit {0}) (IsSeenJump stacks.now self.old.parts layout count list) }
        ensures adds { AddsPart stacks.now self.old.parts self.new.parts layout count list }
        ensures names { AreNames stacks.now self.new.names.of }
        ensures wholes { self.new.wholes ≡ self.old.wholes }
    {
        if !is_due {
            return None;
        }
        match stacks.cell(list) {
            None => None,
            Some(cell) => {
                let far = cell.jump.far;
                if far == 0 || !is_asked(far) || count < far as usize {
                    return None;
                }
                self.names.make(stacks);
                match self.names.get(list) {
                    None => None,
                    Some(name) => {
                        if self.parts.meets(true, layout, count, name) {
                            Some(cell.jump)
                        } else {
                            None
                        }
                    }
                }
            }
        }
    }
}
