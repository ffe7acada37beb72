//! What instructions do themselves: the variables that they store and load, stops, and what forks hand on.

ghost use Rattle.std.specs.Prelude.{◌≡◌, ◌+◌, ◌++◌, ◌∷◌, [], ◌<◌, IfOk, List, OnOk, length};
ghost use Rattle.std.specs.Prelude.{Some};
ghost use Rattle.sp_verify_areas.specs.Homes.{found_of};
ghost use Rattle.sp_verify_areas.specs.Only.{LiesOnlyIn};
ghost use Rattle.sp_code.specs.Machine.{layout_of};
ghost use Rattle.sp_verify_effects.specs.PassContexts.{IsPassContext};
ghost use Rattle.sp_verify_effects.specs.declared.facts.Fact.{Fact as FactOf};
ghost use Rattle.sp_verify_effects.specs.Facts.{Tells, fact};
ghost use Rattle.sp_verify_effects.specs.Own.{AskedAt, DoesBy, ForkedAt, IsEffectAmong, IsHanded, IsOf, IsStop};
ghost use Rattle.sp_verify_effects.specs.Own.{OneIsHanded, OwnBefore, ReachedAt, TellsAsked, effect_of};
ghost use Rattle.sp_verify_effects.specs.Own.{operand_variables, variables_at};
ghost use Rattle.sp_verify_rules.specs.Areas.{Area, entry, instr_at};
ghost use Rattle.sp_verify_rules.specs.Touches.{topmost_variable, addresses, number_list};
ghost use Rattle.sp_verify_rules.specs.Shapes.{below_topmost};
ghost use Rattle.sp_verify_shapes.specs.Stacks.{IsListNumber, IsStacks, list_of, shape_of};

use crate::areas::{area_at, table_of};
use crate::asked_areas::Asked;
use crate::facts::{Effect, Fact, Facts};
use crate::have;
use crate::pass_context::PassContext;
use crate::places::{Place, is_stop, loaded_place, stored_place};
use sp_base::{List, Memory};
use sp_code::{ChildTable, Code, Instr};
use sp_verify_areas::flags::flag_at;
use sp_verify_areas::homes::Found;
use sp_verify_shapes::reach::reached;
use sp_verify_shapes::stacks::{Shape, Stacks};

// Puts a variable last.
fn push(list: &mut List<u32>, x: u32) -> Result<(), Memory>
    ensures { OnOk result (list.new ≡ list.old ++ x ∷ []) }
{
    have!(list.push(x));
    Ok(())
}

/// Puts the variable of an operand last, if it is an address.
pub(crate) fn push_shape(list: &mut List<u32>, shape: Shape) -> Result<(), Memory>
    ensures { OnOk result (list.new ≡ list.old ++ topmost_variable (shape_of shape ∷ [])) }
{
    match shape {
        Shape::Address { variable, left: _ } => push(list, variable),
        _ => Ok(()),
    }
}

// That of the topmost operand.
fn push_top(list: &mut List<u32>, stacks: &Stacks, stack: u32) -> Result<(), Memory>
    requires stacks { IsStacks stacks.now }
    requires there { IsListNumber stacks.now stack }
    ensures { OnOk result (list.new ≡ list.old ++ topmost_variable (list_of stacks.now stack)) }
{
    match stacks.top(stack) {
        None => Ok(()),
        Some((shape, _)) => push_shape(list, shape),
    }
}

// That of the second.
fn push_second(list: &mut List<u32>, stacks: &Stacks, stack: u32) -> Result<(), Memory>
    requires stacks { IsStacks stacks.now }
    requires there { IsListNumber stacks.now stack }
    ensures { OnOk result (list.new ≡ list.old ++ topmost_variable (below_topmost (list_of stacks.now stack))) }
{
    match stacks.top(stack) {
        None => Ok(()),
        Some((_, rest)) => push_top(list, stacks, rest),
    }
}

// A variable that was looked up.
fn push_found(list: &mut List<u32>, found: Option<Found>) -> Result<(), Memory>
    ensures { OnOk result (list.new ≡ list.old ++ number_list (found_of found)) }
{
    match found {
        None => Ok(()),
        Some(found) => push(list, found.number),
    }
}

// Those of the topmost operands, so many.
fn push_addresses(
    list: &mut List<u32>,
    stacks: &Stacks,
    stack: u32,
    count: usize,
) -> Result<(), Memory>
    requires stacks { IsStacks stacks.now }
    requires there { IsListNumber stacks.now stack }
    ensures { OnOk result (list.new ≡ list.old ++ addresses count (list_of stacks.now stack)) }
{
    let mut at = stack;
    for _k in 0..count {
        let (shape, rest) = match stacks.top(at) {
            None => return Ok(()),
            Some(top) => top,
        };
        have!(push_shape(list, shape));
        at = rest;
    }
    Ok(())
}

// Those of the operands of a call.
fn push_passed(list: &mut List<u32>, g: &PassContext, block: u32, stack: u32) -> Result<(), Memory>
    requires known { IsPassContext g.now }
    requires there { IsListNumber g.now.shapes.now.stacks stack }
    ensures { OnOk result (list.new ≡ list.old
        ++ operand_variables (layout_of g.now.code.now.layouts block) (list_of g.now.shapes.now.stacks stack)) }
{
    match g.blocks.find(&g.code.parts().layouts, block) {
        None => Ok(()),
        Some(layout) => push_addresses(list, &g.shapes.stacks, stack, layout.formals.len()),
    }
}

// The variables at a place.
fn push_placed(
    list: &mut List<u32>,
    g: &PassContext,
    p: u32,
    place: Place,
    stack: u32,
) -> Result<(), Memory>
    requires known { IsPassContext g.now }
    requires there { IsListNumber g.now.shapes.now.stacks stack }
    requires within { p < length g.now.code.now.instrs }
    ensures { OnOk result ((a : Area) → LiesOnlyIn g.now.code.now p a
        → list.new ≡ list.old ++ variables_at g.now.code.now a place (list_of g.now.shapes.now.stacks stack)) }
{
    let stacks = &g.shapes.stacks;
    match place {
        Place::Nowhere => Ok(()),
        Place::Number(x) => push(list, x),
        Place::Input => {
            have!(push(list, 0));
            push_top(list, stacks, stack)
        }
        Place::Top => push_top(list, stacks, stack),
        Place::Second => push_second(list, stacks, stack),
        Place::Loop(var) => {
            let found = g.homes.variable(g.code, p, 0, var);
            push_found(list, found)
        }
        Place::Passed(block) => push_passed(list, g, block, stack),
    }
}

/// The variables at a place of the instruction at p, by the number of its list of shapes.
pub(crate) fn variables_at(
    g: &PassContext,
    p: u32,
    place: Place,
    stack: u32,
) -> Result<List<u32>, Memory>
    requires known { IsPassContext g.now }
    requires there { IsListNumber g.now.shapes.now.stacks stack }
    requires within { p < length g.now.code.now.instrs }
    ensures { IfOk result (λ xs. (a : Area) → LiesOnlyIn g.now.code.now p a
        → xs ≡ variables_at g.now.code.now a place (list_of g.now.shapes.now.stacks stack)) }
{
    let mut list = List::new(g.code.parts().instrs.alloc());
    have!(push_placed(&mut list, g, p, place, stack));
    Ok(list)
}

fn effect_of(stores: bool, x: u32) -> Effect
    ensures { result ≡ effect_of stores x }
{
    if stores {
        Effect::Stores(x)
    } else {
        Effect::Loads(x)
    }
}

// Tells that an area does something, if that is asked about.
fn tell_one(asked: &Asked, facts: &mut Facts, area: u32, effect: Effect) -> Result<(), Memory>
    ensures { OnOk result (TellsAsked asked.now facts.old facts.new (λ f. f ≡ fact area effect)) }
{
    if asked.asks(area as usize, effect) {
        facts.add(Fact { area, effect })
    } else {
        Ok(())
    }
}

// Tells that an area stores these variables, or that it loads them.
fn tell(
    asked: &Asked,
    facts: &mut Facts,
    area: u32,
    stores: bool,
    variables: &[u32],
) -> Result<(), Memory>
    ensures { OnOk result (TellsAsked asked.now facts.old facts.new
        (IsOf area (IsEffectAmong stores variables.now))) }
{
    for i in 0..variables.len() {
        let effect = effect_of(stores, variables[i]);
        have!(tell_one(asked, facts, area, effect));
    }
    Ok(())
}

// Tells that an area comes to a stop, if the instruction is one.
fn tell_stop(asked: &Asked, facts: &mut Facts, area: u32, instr: Instr) -> Result<(), Memory>
    ensures { OnOk result (TellsAsked asked.now facts.old facts.new (IsOf area (IsStop (Some instr)))) }
{
    if is_stop(instr) {
        have!(tell_one(asked, facts, area, Effect::Stops));
    }
    Ok(())
}

// Tells what an instruction does itself, with these shapes.
fn tell_shaped(
    g: &PassContext,
    asked: &Asked,
    facts: &mut Facts,
    area: u32,
    p: u32,
    instr: Instr,
    stack: u32,
) -> Result<(), Memory>
    requires known { IsPassContext g.now }
    requires there { IsListNumber g.now.shapes.now.stacks stack }
    requires instr { instr_at g.now.code.now p ≡ Some instr }
    requires within { p < length g.now.code.now.instrs }
    ensures { OnOk result ((a : Area) → LiesOnlyIn g.now.code.now p a
        → TellsAsked asked.now facts.old facts.new
        (IsOf area (DoesBy g.now.code.now a p (list_of g.now.shapes.now.stacks stack)))) }
{
    let stored = have!(variables_at(g, p, stored_place(instr), stack));
    have!(tell(asked, facts, area, true, stored.items()));
    let loaded = have!(variables_at(g, p, loaded_place(instr), stack));
    have!(tell(asked, facts, area, false, loaded.items()));
    tell_stop(asked, facts, area, instr)
}

// Tells what an area hands to one child.
fn tell_child(asked: &Asked, facts: &mut Facts, area: u32, child: &ChildTable) -> Result<(), Memory>
    ensures { OnOk result (TellsAsked asked.now facts.old facts.new (IsOf area (IsHanded child.now))) }
{
    have!(tell(asked, facts, area, true, child.moved.items()));
    tell(asked, facts, area, false, child.shared.items())
}

// Tells what it hands to these.
fn tell_children(
    asked: &Asked,
    facts: &mut Facts,
    area: u32,
    children: &[ChildTable],
) -> Result<(), Memory>
    ensures { OnOk result (TellsAsked asked.now facts.old facts.new
        (IsOf area (OneIsHanded children.now (length children.now)))) }
{
    for k in 0..children.len() {
        have!(tell_child(asked, facts, area, &children[k]));
    }
    Ok(())
}

// Tells what the fork or forall at p hands on, if there is one.
fn tell_forked(
    code: &Code,
    asked: &Asked,
    facts: &mut Facts,
    area: u32,
    p: u32,
) -> Result<(), Memory>
    ensures { OnOk result (TellsAsked asked.now facts.old facts.new (IsOf area (ForkedAt code.now p))) }
{
    match table_of(code, p) {
        None => Ok(()),
        Some(table) => tell_children(asked, facts, area, table.children.items()),
    }
}

// Tells what the instruction at p does itself, if it is reached.
fn tell_reached(
    g: &PassContext,
    asked: &Asked,
    facts: &mut Facts,
    area: u32,
    p: u32,
) -> Result<(), Memory>
    requires known { IsPassContext g.now }
    requires lies { (a : Area) × LiesOnlyIn g.now.code.now p a × (entry g.now.code.now a ≡ area) }
    requires within { p < length g.now.code.now.instrs }
    ensures { OnOk result (TellsAsked asked.now facts.old facts.new (ReachedAt g.now.code.now p)) }
{
    let stack = match reached(g.shapes, p) {
        None => return Ok(()),
        Some(stack) => stack,
    };
    let instr = match g.code.instr(p) {
        None => return Ok(()),
        Some(instr) => instr,
    };
    tell_shaped(g, asked, facts, area, p, instr, stack)
}

// Tells what the instruction at p does, in this area.
fn tell_in(
    g: &PassContext,
    asked: &Asked,
    facts: &mut Facts,
    area: u32,
    p: u32,
) -> Result<(), Memory>
    requires known { IsPassContext g.now }
    requires lies { (a : Area) × LiesOnlyIn g.now.code.now p a × (entry g.now.code.now a ≡ area) }
    requires there { p < length g.now.code.now.instrs }
    ensures { OnOk result (Tells facts.old facts.new (AskedAt g.now.code.now asked.now p)) }
{
    have!(tell_reached(g, asked, facts, area, p));
    tell_forked(g.code, asked, facts, area, p)
}

// The same, if the area is asked about.
fn tell_asked(
    g: &PassContext,
    asked: &Asked,
    facts: &mut Facts,
    area: u32,
    p: u32,
) -> Result<(), Memory>
    requires known { IsPassContext g.now }
    requires lies { (a : Area) × LiesOnlyIn g.now.code.now p a × (entry g.now.code.now a ≡ area) }
    requires there { p < length g.now.code.now.instrs }
    ensures { OnOk result (Tells facts.old facts.new (AskedAt g.now.code.now asked.now p)) }
{
    if asked.has(area as usize) {
        tell_in(g, asked, facts, area, p)
    } else {
        Ok(())
    }
}

// The same, in whichever area it lies.
fn tell_at(g: &PassContext, asked: &Asked, facts: &mut Facts, p: u32) -> Result<(), Memory>
    requires known { IsPassContext g.now }
    requires there { p < length g.now.code.now.instrs }
    ensures { OnOk result (Tells facts.old facts.new (AskedAt g.now.code.now asked.now p)) }
{
    match area_at(g, p) {
        None => Ok(()),
        Some(area) => tell_asked(g, asked, facts, area, p),
    }
}

// The same too, unless the instruction is a call that repeats an earlier one: what it does is told.
fn tell_next(g: &PassContext, asked: &Asked, facts: &mut Facts, p: u32) -> Result<(), Memory>
    requires known { IsPassContext g.now }
    requires there { p < length g.now.code.now.instrs }
    ensures { OnOk result ((first : List FactOf) → Tells first facts.old (OwnBefore g.now.code.now asked.now p)
        → Tells first facts.new (OwnBefore g.now.code.now asked.now (p + 1))) }
{
    if flag_at(g.repeats, p as usize) {
        Ok(())
    } else {
        tell_at(g, asked, facts, p)
    }
}

/// What each area that is asked about does itself, or hands to its children.
pub(crate) fn tell_own(g: &PassContext, asked: &Asked, facts: &mut Facts) -> Result<(), Memory>
    requires known { IsPassContext g.now }
    ensures { OnOk result (Tells facts.old facts.new
        (OwnBefore g.now.code.now asked.now (length g.now.code.now.instrs))) }
{
    for p in 0..g.code.parts().instrs.len() {
        have!(tell_next(g, asked, facts, p as u32));
    }
    Ok(())
}
