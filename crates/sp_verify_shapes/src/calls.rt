//! Operands of calls against the formals of blocks: rule V5.

ghost use Rattle.std.specs.Prelude.{◌≡◌, ◌&&◌, ◌<◌, ◌≤◌, false, length, not, slice_get, true, List, Some};
ghost use Rattle.sp_verify_areas.specs.Alone.{LayoutFails, flag_at};
ghost use Rattle.sp_verify_areas.specs.Blocks.{IsNumbered};
ghost use Rattle.sp_verify_areas.specs.LeastPlaces.{IsLeast, Upto};
ghost use Rattle.sp_verify_areas.specs.declared.owners.Owner.{Owner};
ghost use Rattle.sp_verify_rules.specs.Rules.{BreaksV5, call_fits, fits_formal, some_reference};
ghost use Rattle.sp_verify_shapes.specs.Asks.{AreAsked, AreAsks};
ghost use Rattle.sp_verify_shapes.specs.Fits.{Passes, first_fit, layout_fits};
ghost use Rattle.sp_verify_shapes.specs.ReachRules.{answers_by_reference, fails_at};
ghost use Rattle.sp_verify_shapes.specs.Repeats.{AreRepeats};
ghost use Rattle.sp_verify_shapes.specs.Seen.{AddsSeen, AreSeen, AreSeenOf};
ghost use Rattle.sp_verify_shapes.specs.Shapes.{AreShapes};
ghost use Rattle.sp_verify_shapes.specs.Stacks.{IsListNumber, IsStacks, list_of, shape_of};

use crate::asks::{Ask, covers_all};
use crate::reach::reached;
use crate::seen::Seen;
use crate::shapes::Shapes;
use crate::stacks::{Jump, Shape, Stacks};
use sp_base::List;
use sp_code::{Code, Formal, Instr, Layout, Parts};
use sp_verify_areas::blocks::Blocks;
use sp_verify_areas::flags::flag_at;
use sp_verify_areas::least::{least, place_if};

// Whether an operand fits a formal.
fn fits_formal(formal: Formal, shape: Shape) -> bool
    ensures { result ≡ fits_formal formal (shape_of shape) }
{
    match formal {
        Formal::Value(n) => match shape {
            Shape::Ordinal => n == 1,
            Shape::Channel => n == 1,
            Shape::Cells(k) => k == n,
            Shape::Address { .. } => false,
        },
        Formal::Reference(n) => match shape {
            Shape::Address { variable: _, left } => n <= left,
            _ => false,
        },
    }
}

// A jump past operands that fit the last of the first `count` formals; nothing where the topmost operand does not fit
// the last one. The jump of the list is taken if the formal that its operands fit covers as many formals: then many
// operands are passed at once.
fn pass(stacks: &Stacks, formals: &[Formal], asks: &List<Ask>, n: u32, count: usize) -> Option<Jump>
    requires stacks { IsStacks stacks.now }
    requires there { IsListNumber stacks.now n }
    requires asks { AreAsks formals.now asks.now }
    requires some { 0 < count }
    requires within { count ≤ length formals.now }
    ensures { Passes stacks.now formals.now count n result }
{
    let jump = stacks.jump_of(n);
    let far = jump.far as usize;
    if let Some(fits) = jump.fits {
        if 0 < far && far <= count && covers_all(formals, asks, fits, count - far, count) {
            return Some(jump);
        }
    }
    match stacks.top(n) {
        None => None,
        Some((shape, below)) => {
            if fits_formal(formals[count - 1], shape) {
                Some(Jump {
                    to: below,
                    far: 1,
                    fits: None,
                })
            } else {
                None
            }
        }
    }
}

// So many steps are taken before the memo is asked, and then it is asked once in so many formals.
const STRIDE: usize = 64;

// Whether the memo is asked: after the first steps, once in so many formals. Lists that end alike ask it at the same
// places from there on. It has no contract: what the memo knows is true at any place.
fn is_due(ahead: usize, count: usize, left: usize) -> bool {
    ahead == 0 && left / STRIDE < count / STRIDE
}

// Whether the first shapes of a list, the last operand first, fit the formals of the layout at a place. It keeps at
// which places of the list this was asked, and of which jumps: what is kept there is true if they fit.
fn fit_formals(
    stacks: &Stacks,
    formals: &[Formal],
    asks: &List<Ask>,
    seen: &mut Seen,
    place: usize,
    n: u32,
) -> bool
    requires stacks { IsStacks stacks.now }
    requires there { IsListNumber stacks.now n }
    requires asks { AreAsks formals.now asks.now }
    requires known { AreSeenOf formals.now stacks.now place seen.old }
    ensures fit { result ≡ first_fit formals.now (length formals.now) (list_of stacks.now n) }
    ensures adds { AddsSeen stacks.now formals.now place
        (first_fit formals.now (length formals.now) (list_of stacks.now n)) seen.old seen.new }
{
    let mut count = formals.len();
    let mut rest = n;
    let mut ahead = STRIDE;
    'operands: while 0 < count {
        match seen.passes(stacks, ahead == 0, place, count, rest) {
            Some(jump) => {
                rest = jump.to;
                count -= jump.far as usize;
            }
            None => match pass(stacks, formals, asks, rest, count) {
                None => return false,
                Some(jump) => {
                    let left = count - jump.far as usize;
                    ahead = ahead.saturating_sub(1);
                    let due = is_due(ahead, count, left);
                    if seen.wholes.meets(due, place, left, jump.to) {
                        return true;
                    }
                    rest = jump.to;
                    count = left;
                }
            },
        }
    }
    true
}

// Whether the first shapes of a list fit the formals of the layout at a place.
fn layout_fits(
    layouts: &List<Layout>,
    shapes: &Shapes,
    seen: &mut Seen,
    place: usize,
    n: u32,
) -> bool
    requires stacks { IsStacks shapes.now.stacks }
    requires asked { AreAsked layouts.now shapes.now.asked }
    requires known { AreSeen layouts.now shapes.now.stacks seen.old }
    requires there { IsListNumber shapes.now.stacks n }
    ensures fit { result ≡ layout_fits (slice_get layouts.now place) (list_of shapes.now.stacks n) }
    ensures known { result ≡ true → AreSeen layouts.now shapes.now.stacks seen.new }
{
    match layouts.get(place) {
        None => false,
        Some(l) => fit_formals(
            &shapes.stacks,
            l.formals.items(),
            &shapes.asked.items()[place],
            seen,
            place,
            n,
        ),
    }
}

// Whether an instruction calls no block that its operands do not fit.
fn call_fits(
    parts: &Parts,
    blocks: &Blocks,
    shapes: &Shapes,
    seen: &mut Seen,
    instr: Instr,
    n: u32,
) -> bool
    requires blocks { IsNumbered blocks.now.first parts.now.layouts }
    requires stacks { IsStacks shapes.now.stacks }
    requires asked { AreAsked parts.now.layouts shapes.now.asked }
    requires known { AreSeen parts.now.layouts shapes.now.stacks seen.old }
    requires there { IsListNumber shapes.now.stacks n }
    ensures fit { result ≡ call_fits parts.now (Some instr) (list_of shapes.now.stacks n) }
    ensures known { result ≡ true → AreSeen parts.now.layouts shapes.now.stacks seen.new }
{
    match instr {
        Instr::Call { block, up: _ } => match blocks.place(block) {
            None => false,
            Some(place) => layout_fits(&parts.layouts, shapes, seen, place as usize, n),
        },
        _ => true,
    }
}

// Whether an instruction is a call that its operands do not fit, and repeats no earlier call.
fn misfits(
    code: &Code,
    blocks: &Blocks,
    shapes: &Shapes,
    repeats: &List<bool>,
    seen: &mut Seen,
    p: u32,
) -> bool
    requires blocks { IsNumbered blocks.now.first code.now.layouts }
    requires shapes { AreShapes code.now shapes.now }
    requires known { AreSeen code.now.layouts shapes.now.stacks seen.old }
    ensures fails { result ≡ (not (flag_at repeats.now p) && fails_at (call_fits code.now) code.now shapes.now p) }
    ensures known { result ≡ false → AreSeen code.now.layouts shapes.now.stacks seen.new }
{
    if flag_at(repeats, p as usize) {
        return false;
    }
    match reached(shapes, p) {
        None => false,
        Some(n) => match code.instr(p) {
            None => false,
            Some(instr) => !call_fits(code.parts(), blocks, shapes, seen, instr, n),
        },
    }
}

// The least call that its operands do not fit.
fn first_misfit(code: &Code, blocks: &Blocks, shapes: &Shapes, repeats: &List<bool>) -> Option<u32>
    requires blocks { IsNumbered blocks.now.first code.now.layouts }
    requires shapes { AreShapes code.now shapes.now }
    requires repeats { (os : List Owner) × AreRepeats code.now os shapes.now repeats.now }
    ensures { IsLeast (λ p. fails_at (call_fits code.now) code.now shapes.now p ≡ true) result }
{
    let instrs = &code.parts().instrs;
    let mut seen = Seen::new(instrs.alloc());
    for p in 0..instrs.len() {
        if misfits(code, blocks, shapes, repeats, &mut seen, p as u32) {
            return Some(p as u32);
        }
    }
    None
}

/// Whether one of the formals is a reference.
pub fn some_reference(formals: &[Formal]) -> bool
    ensures { result ≡ some_reference formals.now }
{
    for f in formals {
        if let Formal::Reference(_) = *f {
            return true;
        }
    }
    false
}

// Whether a block answers, and has a formal by reference.
fn answers_by_reference(l: &Layout) -> bool
    ensures { result ≡ answers_by_reference l.now }
{
    l.answer && some_reference(l.formals.items())
}

// The least entry of a block that answers and has a formal by reference.
fn first_answering(layouts: &[Layout]) -> Option<u32>
    ensures { IsLeast (Upto (LayoutFails answers_by_reference layouts.now) (length layouts.now)) result }
{
    let mut first = None;
    for l in layouts {
        first = least(first, place_if(answers_by_reference(l), l.entry));
    }
    first
}

/// V5: the least call whose operands do not fit the formals of its block, or entry of a block that answers and has a
/// formal by reference. Of calls that repeat each other the first one tells.
pub fn first_unfit(
    code: &Code,
    blocks: &Blocks,
    shapes: &Shapes,
    repeats: &List<bool>,
) -> Option<u32>
    requires blocks { IsNumbered blocks.now.first code.now.layouts }
    requires shapes { AreShapes code.now shapes.now }
    requires repeats { (os : List Owner) × AreRepeats code.now os shapes.now repeats.now }
    ensures { IsLeast (BreaksV5 code.now) result }
{
    let misfit = first_misfit(code, blocks, shapes, repeats);
    let answering = first_answering(code.parts().layouts.items());
    least(misfit, answering)
}
