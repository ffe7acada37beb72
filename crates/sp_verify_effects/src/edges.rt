//! The ways on which effects go from area to area.

ghost use Rattle.std.specs.Prelude.{◌≡◌, ℕ, ◌+◌, ◌<◌, ◌-◌, OnOk, IfOk, Some, true, length, slice_get};
ghost use Rattle.sp_verify_areas.specs.Only.{LiesOnlyIn};
ghost use Rattle.sp_code.specs.declared.code.ChildTable.{ChildTable};
ghost use Rattle.sp_code.specs.declared.code.Layout.{Layout as LayoutOf};
ghost use Rattle.sp_code.specs.Machine.{layout_of};
ghost use Rattle.sp_verify_effects.specs.PassContexts.{IsPassContext};
ghost use Rattle.sp_verify_effects.specs.declared.edges.Edge.{Edge as EdgeOf};
ghost use Rattle.sp_verify_effects.specs.Edges.{AreEdges, CalledAt, EdgeAt, HasEdge, HasEdges, IsCall, IsDeeper, Links};
ghost use Rattle.sp_verify_effects.specs.Edges.{OneStarts, PutsEdge, StartWithin, StartedAt, deep_edge, passed_by};
ghost use Rattle.sp_verify_effects.specs.Linked.{AreLinked, AreLinkedOf};
ghost use Rattle.sp_verify_rules.specs.Areas.{Area, entry};
ghost use Rattle.sp_verify_shapes.specs.Stacks.{IsListNumber, IsStacks, list_of, shape_of};

use crate::acts::acts_of;
use crate::areas::{area_at, table_of};
use crate::have;
use crate::linked::{Linked, is_linked, none_linked, put_links};
use crate::pass_context::PassContext;
use sp_base::{List, Memory};
use sp_code::{ChildTable, Code, Formal, Layout};
use sp_verify_areas::flags::flag_at;
use sp_verify_shapes::reach::reached;
use sp_verify_shapes::repeats::called_block;
use sp_verify_shapes::stacks::{Shape, Stacks};
use std::alloc::Global;

/// A way on which effects go from an area to another, which has the first instruction `to`.
#[derive(Clone, Copy)]
pub enum Edge {
    /// From a child to the area that starts it: all but loads of its index.
    Started { to: u32, index: Option<u32> },
    /// From a block to an area that calls it: all but what is done to variables of its own.
    Called { to: u32 },
    /// From a block to an area that calls it: what is done to this formal, as done to the actual variable.
    Passed { to: u32, formal: u32, actual: u32 },
}

/// The edge of a row at a place.
pub(crate) fn edge_at(row: &[Edge], k: usize) -> Edge
    requires { k < length row.now }
    ensures { slice_get row.now k ≡ Some result }
{
    row[k]
}

fn is_same_call(one: Edge, other: Edge) -> bool
    ensures { result ≡ true → one ≡ other }
{
    match one {
        Edge::Called { to } => match other {
            Edge::Called { to: too } => to == too,
            _ => false,
        },
        _ => false,
    }
}

// Puts an edge last, unless that is a call to the same area.
fn put(row: &mut List<Edge>, edge: Edge) -> Result<(), Memory>
    ensures { OnOk result (PutsEdge row.old row.new edge) }
{
    match row.items().last() {
        None => (),
        Some(last) => {
            if is_same_call(*last, edge) {
                return Ok(());
            }
        }
    }
    have!(row.push(edge));
    Ok(())
}

// Puts an edge to those of an area.
fn link(rows: &mut List<List<Edge>>, from: u32, edge: Edge) -> Result<(), Memory>
    requires { from < length rows.old }
    ensures { OnOk result (Links rows.old rows.new (λ m e. (m ≡ from) × (e ≡ edge))) }
{
    let none = List::new(rows.alloc());
    let mut row = rows.replace(from as usize, none);
    have!(put(&mut row, edge));
    let _none = rows.replace(from as usize, row);
    Ok(())
}

// The edge of a formal and an operand, if that is the address of its actual variable.
fn passed_by(to: u32, variable: Option<u32>, formal: Option<Formal>, shape: Shape) -> Option<Edge>
    ensures { result ≡ passed_by to variable formal (shape_of shape) }
{
    match variable {
        None => None,
        Some(y) => match formal {
            Some(Formal::Reference(_)) => match shape {
                Shape::Address {
                    variable: x,
                    left: _,
                } => Some(Edge::Passed {
                    to,
                    formal: y,
                    actual: x,
                }),
                _ => None,
            },
            _ => None,
        },
    }
}

// The edge of the operand so deep.
fn deep_edge(layout: &Layout, to: u32, depth: usize, shape: Shape) -> Option<Edge>
    requires { depth < length layout.now.formals }
    ensures { result ≡ deep_edge layout.now to depth (shape_of shape) }
{
    let k = layout.formals.len() - 1 - depth;
    let variable = layout.variables.get(k).copied();
    let formal = layout.formals.get(k).copied();
    passed_by(to, variable, formal, shape)
}

// Puts it to those of the block.
fn link_deep(
    rows: &mut List<List<Edge>>,
    layout: &Layout,
    to: u32,
    depth: usize,
    shape: Shape,
) -> Result<(), Memory>
    requires there { layout.now.entry < length rows.old }
    requires within { depth < length layout.now.formals }
    ensures { OnOk result (Links rows.old rows.new (λ m e. (m ≡ layout.now.entry)
        × (deep_edge layout.now to depth (shape_of shape) ≡ Some e))) }
{
    match deep_edge(layout, to, depth, shape) {
        None => Ok(()),
        Some(edge) => link(rows, layout.entry, edge),
    }
}

// Puts those of all operands of a call, down to a list whose edges are there.
fn link_operands(
    rows: &mut List<List<Edge>>,
    linked: &Linked,
    layout: &Layout,
    block: u32,
    to: u32,
    stacks: &Stacks,
    stack: u32,
) -> Result<(), Memory>
    requires there { layout.now.entry < length rows.old }
    requires stacks { IsStacks stacks.now }
    requires held { IsListNumber stacks.now stack }
    requires linked { AreLinkedOf stacks.now rows.old layout.now block to linked.now }
    ensures { OnOk result (Links rows.old rows.new
        (IsDeeper layout.now to (list_of stacks.now stack) (length layout.now.formals))) }
{
    let mut at = stack;
    for depth in 0..layout.formals.len() {
        if is_linked(linked, block, to, at, depth) {
            return Ok(());
        }
        let (shape, rest) = match stacks.top(at) {
            None => return Ok(()),
            Some(top) => top,
        };
        have!(link_deep(rows, layout, to, depth, shape));
        at = rest;
    }
    Ok(())
}

// Puts those of a call: those of its operands if the block does something.
fn link_call(
    rows: &mut List<List<Edge>>,
    linked: &mut Linked,
    acts: bool,
    layout: &Layout,
    block: u32,
    to: u32,
    stacks: &Stacks,
    stack: u32,
) -> Result<(), Memory>
    requires there { layout.now.entry < length rows.old }
    requires stacks { IsStacks stacks.now }
    requires held { IsListNumber stacks.now stack }
    requires linked { AreLinkedOf stacks.now rows.old layout.now block to linked.old }
    ensures edges { OnOk result (Links rows.old rows.new (IsCall acts layout.now to (list_of stacks.now stack))) }
    ensures linked { OnOk result ((ls : List LayoutOf) → layout_of ls block ≡ Some layout.now
        → AreLinked ls stacks.now rows.old linked.old → AreLinked ls stacks.now rows.new linked.new) }
{
    have!(link(rows, layout.entry, Edge::Called { to }));
    if acts {
        have!(link_operands(rows, linked, layout, block, to, stacks, stack));
        have!(put_links(linked, layout, block, to, stacks, stack));
        Ok(())
    } else {
        Ok(())
    }
}

// Puts those of the call at p, if there is one that is reached.
fn link_called(
    g: &PassContext,
    acts: &List<bool>,
    rows: &mut List<List<Edge>>,
    linked: &mut Linked,
    to: u32,
    p: u32,
) -> Result<(), Memory>
    requires known { IsPassContext g.now }
    requires lies { (a : Area) × LiesOnlyIn g.now.code.now p a × (entry g.now.code.now a ≡ to) }
    requires there { (b : ℕ) (l : LayoutOf) → layout_of g.now.code.now.layouts b ≡ Some l → l.entry < length rows.old }
    requires linked { AreLinked g.now.code.now.layouts g.now.shapes.now.stacks rows.old linked.old }
    ensures edges { OnOk result (Links rows.old rows.new (CalledAt g.now.code.now acts.now p)) }
    ensures linked { OnOk result (AreLinked g.now.code.now.layouts g.now.shapes.now.stacks rows.new linked.new) }
{
    let stack = match reached(g.shapes, p) {
        None => return Ok(()),
        Some(stack) => stack,
    };
    let block = match called_block(g.code, p) {
        None => return Ok(()),
        Some(block) => block,
    };
    match g.blocks.find(&g.code.parts().layouts, block) {
        None => Ok(()),
        Some(layout) => {
            let acts = flag_at(acts, layout.entry as usize);
            link_call(
                rows,
                linked,
                acts,
                layout,
                block,
                to,
                &g.shapes.stacks,
                stack,
            )
        }
    }
}

// Puts those of children.
fn link_children(
    rows: &mut List<List<Edge>>,
    to: u32,
    children: &[ChildTable],
) -> Result<(), Memory>
    requires { (k : ℕ) (t : ChildTable) → slice_get children.now k ≡ Some t → t.entry < length rows.old }
    ensures { OnOk result (Links rows.old rows.new (OneStarts children.now to (length children.now))) }
{
    for k in 0..children.len() {
        let child = &children[k];
        let index = child.index;
        have!(link(rows, child.entry, Edge::Started { to, index }));
    }
    Ok(())
}

// Puts those of the children that start at p.
fn link_started(code: &Code, rows: &mut List<List<Edge>>, to: u32, p: u32) -> Result<(), Memory>
    requires within { StartWithin code.now p (length rows.old) }
    requires lies { (a : Area) × LiesOnlyIn code.now p a × (entry code.now a ≡ to) }
    ensures { OnOk result (Links rows.old rows.new (StartedAt code.now p)) }
{
    match table_of(code, p) {
        None => Ok(()),
        Some(table) => link_children(rows, to, table.children.items()),
    }
}

// Puts those at p.
fn link_at(
    g: &PassContext,
    acts: &List<bool>,
    rows: &mut List<List<Edge>>,
    linked: &mut Linked,
    p: u32,
) -> Result<(), Memory>
    requires known { IsPassContext g.now }
    requires there { p < length g.now.code.now.instrs }
    requires size { length rows.old ≡ length g.now.code.now.instrs }
    requires linked { AreLinked g.now.code.now.layouts g.now.shapes.now.stacks rows.old linked.old }
    ensures edges { OnOk result (Links rows.old rows.new (EdgeAt g.now.code.now acts.now p)) }
    ensures linked { OnOk result (AreLinked g.now.code.now.layouts g.now.shapes.now.stacks rows.new linked.new) }
{
    let to = match area_at(g, p) {
        None => return Ok(()),
        Some(to) => to,
    };
    have!(link_called(g, acts, rows, linked, to, p));
    link_started(g.code, rows, to, p)
}

// So many rows with no edges.
fn empty_rows(alloc: Global, count: usize) -> Result<List<List<Edge>>, Memory>
    ensures { IfOk result (λ rows. (length rows ≡ count) × ((m : ℕ) (e : EdgeOf) → HasEdge rows m e → ⊥)) }
{
    let mut rows = List::new(alloc);
    for _m in 0..count {
        rows.push(List::new(alloc))?;
    }
    Ok(rows)
}

// Puts those at p too, unless that is a call that repeats an earlier one: its edges are there.
fn link_next(
    g: &PassContext,
    acts: &List<bool>,
    rows: &mut List<List<Edge>>,
    linked: &mut Linked,
    p: u32,
) -> Result<(), Memory>
    requires known { IsPassContext g.now }
    requires there { p < length g.now.code.now.instrs }
    requires before { HasEdges g.now.code.now acts.now p rows.old }
    requires linked { AreLinked g.now.code.now.layouts g.now.shapes.now.stacks rows.old linked.old }
    ensures edges { OnOk result (HasEdges g.now.code.now acts.now (p + 1) rows.new) }
    ensures linked { OnOk result (AreLinked g.now.code.now.layouts g.now.shapes.now.stacks rows.new linked.new) }
{
    if flag_at(g.repeats, p as usize) {
        Ok(())
    } else {
        link_at(g, acts, rows, linked, p)
    }
}

// Puts those of all instructions.
fn link_all(g: &PassContext, acts: &List<bool>) -> Result<List<List<Edge>>, Memory>
    requires known { IsPassContext g.now }
    ensures { IfOk result (HasEdges g.now.code.now acts.now (length g.now.code.now.instrs)) }
{
    let instrs = &g.code.parts().instrs;
    let count = instrs.len();
    let mut rows = have!(empty_rows(instrs.alloc(), count));
    let mut linked = none_linked(instrs.alloc());
    for p in 0..count {
        have!(link_next(g, acts, &mut rows, &mut linked, p as u32));
    }
    Ok(rows)
}

/// All edges, by the first instructions of the areas from which they lead.
pub fn edges_of(g: &PassContext) -> Result<List<List<Edge>>, Memory>
    requires known { IsPassContext g.now }
    ensures { IfOk result (AreEdges g.now.code.now) }
{
    let acts = have!(acts_of(g));
    let rows = have!(link_all(g, &acts));
    Ok(rows)
}
