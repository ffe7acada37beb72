//! The areas that rules V6 to V8 ask about, and what they ask about each. Nothing else is followed: where the rules ask
//! about little, code of many blocks and variables takes no time and no memory for each pair of them.

ghost use Rattle.std.specs.Prelude.{◌≡◌, ℕ, ◌<◌, ◌≤◌, IfOk, None, Some, length, true};
ghost use Rattle.std.specs.Option.{option_copied};
ghost use Rattle.sp_verify_areas.specs.Only.{LiesOnlyIn};
ghost use Rattle.sp_verify_effects.specs.Allowances.{Fits, FitsBlock, allows_some};
ghost use Rattle.sp_verify_effects.specs.AskedAreas.{AreKnown, Asks, AsksBelow, AsksChild, AsksChildren, AsksInsideAt};
ghost use Rattle.sp_verify_effects.specs.AskedAreas.{AsksLayout, AsksLayouts, AsksOutside, AsksTables, allowance_at};
ghost use Rattle.sp_verify_effects.specs.AskedAreas.{has_block, inside_entry, is_asked, is_asked_block, is_below};
ghost use Rattle.sp_verify_effects.specs.AskedAreas.{is_marked, target};
ghost use Rattle.sp_verify_effects.specs.FactClosure.{FollowsEdges, FollowsRow, IsFollowed, Passes};
ghost use Rattle.sp_verify_effects.specs.PassContexts.{IsPassContext};
ghost use Rattle.sp_verify_effects.specs.Variables.{AreOwn};
ghost use Rattle.sp_verify_rules.specs.Areas.{Area, homes as homes_of, instr_at};

use crate::allowance::{Allowance, allows, fits, fits_block, passes_within};
use crate::asked_calls::asks_calls;
use crate::callers::{Groups, flag_groups, groups_of};
use crate::common::{Common, common_of, no_common};
use crate::edges::{Edge, edge_at};
use crate::facts::Effect;
use crate::have;
use crate::inside::is_inside;
use crate::pass_context::PassContext;
use crate::passed::{Passed, none_passed, passed_of};
use sp_base::{List, Memory};
use sp_code::{ChildTable, ForkTable, Instr, Layout, Parts};
use sp_verify_areas::flags::{flag_at, mark, no_flags};
use std::alloc::Global;
use std::collections::BTreeSet;

/// Instructions at which rules are known to be broken before all effects are.
#[derive(Clone, Copy)]
pub struct Known {
    /// V7: a call.
    pub clash: Option<u32>,
    /// V8: the first instruction of a block.
    pub side_effect: Option<u32>,
}

/// Areas by their first instructions, and what of each is asked about.
#[derive(Drop)]
pub struct Asked {
    /// Every area is among them, with all that it does.
    pub all: bool,
    /// Of each instruction, whether the area that begins there is.
    pub flags: List<bool>,
    /// Of each instruction, the number of the allowance of the area that begins there, if it has one: what an area may
    /// do is not asked about.
    pub numbers: List<u32>,
    pub allowances: List<Allowance>,
    /// Of each instruction, whether a block begins there of which the rules ask what it does outside itself.
    pub blocks: List<bool>,
    /// What is known to be broken: of calls, and of blocks that answer, only those before it are asked about.
    pub known: Known,
}

impl Asked {
    /// Whether the area with this first instruction is among them.
    pub fn has(&self, entry: usize) -> bool
        ensures { result ≡ is_marked self.now entry }
    {
        self.all || flag_at(&self.flags, entry)
    }

    // Its allowance.
    fn allowance(&self, entry: usize) -> Option<&Allowance>
        ensures { option_copied result ≡ allowance_at self.now entry }
    {
        match self.numbers.get(entry) {
            None => None,
            Some(number) => self.allowances.get(*number as usize),
        }
    }

    // Whether it may do this.
    fn allows(&self, entry: usize, effect: Effect) -> bool
        ensures { result ≡ allows_some (allowance_at self.now entry) effect }
    {
        match self.allowance(entry) {
            None => false,
            Some(allowance) => allows(allowance, effect),
        }
    }

    /// Whether this is asked about it.
    pub fn asks(&self, entry: usize, effect: Effect) -> bool
        ensures { result ≡ is_asked self.now entry effect }
    {
        self.all || (flag_at(&self.flags, entry) && !self.allows(entry, effect))
    }

    // Whether a block begins there of which the rules ask what it does outside itself.
    fn has_block(&self, entry: usize) -> bool
        ensures { result ≡ has_block self.now entry }
    {
        self.all || flag_at(&self.blocks, entry)
    }

    // Whether two areas have allowances of one number.
    fn have_one(&self, entry: usize, other: usize) -> bool
        ensures { result ≡ true → allowance_at self.now entry ≡ allowance_at self.now other }
    {
        match self.numbers.get(entry) {
            None => false,
            Some(n) => match self.numbers.get(other) {
                None => false,
                Some(m) => *n == *m,
            },
        }
    }
}

// Nothing.
fn none_known() -> Known
    ensures clash { result.clash ≡ None }
    ensures side_effect { result.side_effect ≡ None }
{
    Known {
        clash: None,
        side_effect: None,
    }
}

// Areas by their flags, with these allowances.
fn asked_by(flags: List<bool>, common: Common, blocks: List<bool>, known: Known) -> Asked
    ensures { result.known ≡ known }
{
    let Common {
        numbers,
        allowances,
    } = common;
    Asked {
        all: false,
        flags,
        numbers,
        allowances,
        blocks,
        known,
    }
}

// All areas.
fn every_area(asked: Asked) -> Asked
    ensures all { result.all ≡ true }
    ensures clash { result.known.clash ≡ None }
    ensures side_effect { result.known.side_effect ≡ None }
{
    let mut every = asked;
    every.all = true;
    every.known = none_known();
    every
}

/// One area alone, of so many instructions.
pub(crate) fn area_alone(alloc: Global, count: usize, entry: u32) -> Result<Asked, Memory> {
    let mut flags = have!(no_flags(alloc, count));
    mark(&mut flags, entry as usize);
    Ok(asked_by(flags, no_common(alloc), List::new(alloc), none_known()))
}

/// Where an edge leads.
pub(crate) fn target(edge: Edge) -> u32
    ensures { result ≡ target edge }
{
    match edge {
        Edge::Started { to, index: _ } => to,
        Edge::Called { to } => to,
        Edge::Passed {
            to,
            formal: _,
            actual: _,
        } => to,
    }
}

// Where the block begins that this instruction at p calls inside itself.
fn inside_entry(g: &PassContext, p: u32, instr: Instr) -> Option<u32>
    requires known { IsPassContext g.now }
    requires there { p < length g.now.code.now.instrs }
    ensures { (a : Area) → LiesOnlyIn g.now.code.now p a
        → result ≡ inside_entry (homes_of g.now.code.now a) g.now.code.now.layouts (Some instr) }
{
    match instr {
        Instr::Call { block, up } => {
            if is_inside(g, p, block, up) {
                g.blocks.entry_of(&g.code.parts().layouts, block)
            } else {
                None
            }
        }
        _ => None,
    }
}

// The same for the one that stands there.
fn inside_entry_at(g: &PassContext, p: u32) -> Option<u32>
    requires known { IsPassContext g.now }
    requires there { p < length g.now.code.now.instrs }
    ensures { (a : Area) → LiesOnlyIn g.now.code.now p a
        → result ≡ inside_entry (homes_of g.now.code.now a) g.now.code.now.layouts (instr_at g.now.code.now p) }
{
    match g.code.instr(p) {
        None => None,
        Some(instr) => inside_entry(g, p, instr),
    }
}

/// How many of so many instructions are below a bound, if there is one.
pub(crate) fn count_below(count: usize, bound: Option<u32>) -> usize
    ensures within { result ≤ count }
    ensures all { (p : ℕ) → p < count → is_below bound p ≡ true → p < result }
{
    match bound {
        None => count,
        Some(bound) => {
            let bound = bound as usize;
            if bound < count { bound } else { count }
        }
    }
}

/// Whether an instruction is below a bound, if there is one.
pub(crate) fn is_below(bound: Option<u32>, entry: u32) -> bool
    ensures { result ≡ is_below bound entry }
{
    match bound {
        None => true,
        Some(bound) => entry < bound,
    }
}

// Sets the flags of children that begin below a bound.
fn mark_children(flags: &mut List<bool>, bound: Option<u32>, children: &[ChildTable]) {
    for child in children {
        if is_below(bound, child.entry) {
            mark(flags, child.entry as usize);
        }
    }
}

// Sets those of all such children.
fn mark_tables(flags: &mut List<bool>, bound: Option<u32>, tables: &[ForkTable]) {
    for table in tables {
        mark_children(flags, bound, table.children.items());
    }
}

// Sets those of blocks that take a variable by reference.
fn mark_passed(flags: &mut List<bool>, passed: &Passed) {
    for (entry, _) in passed.iter() {
        mark(flags, *entry as usize);
    }
}

// Sets those of blocks that are called inside themselves, or answer and begin before a side effect that is known.
fn mark_blocks(g: &PassContext, flags: &mut List<bool>, side_effect: Option<u32>)
    requires known { IsPassContext g.now }
{
    let parts = g.code.parts();
    for l in parts.layouts.items() {
        if l.answer && is_below(side_effect, l.entry) {
            mark(flags, l.entry as usize);
        }
    }
    for p in 0..parts.instrs.len() {
        if let Some(entry) = inside_entry_at(g, p as u32) {
            mark(flags, entry as usize);
        }
    }
}

// Whether a child is handed all that its area may do.
fn fits_some(asked: &Asked, child: &ChildTable) -> Result<bool, Memory>
    ensures { IfOk result (λ b. b ≡ true → Fits (allowance_at asked.now child.now.entry) child.now) }
{
    match asked.allowance(child.entry as usize) {
        None => Ok(true),
        Some(allowance) => fits(asked.flags.alloc(), allowance, child),
    }
}

// Whether all that a child may not do is asked about.
fn asks_child(asked: &Asked, child: &ChildTable) -> Result<bool, Memory>
    ensures { IfOk result (λ b. b ≡ true → AsksChild asked.now child.now) }
{
    if asked.has(child.entry as usize) {
        fits_some(asked, child)
    } else {
        Ok(false)
    }
}

// The same, if the child begins below a bound.
fn asks_below(asked: &Asked, bound: Option<u32>, child: &ChildTable) -> Result<bool, Memory>
    ensures { IfOk result (λ b. b ≡ true → AsksBelow bound asked.now child.now) }
{
    if is_below(bound, child.entry) {
        asks_child(asked, child)
    } else {
        Ok(true)
    }
}

// The same for the children of a table.
fn asks_children(asked: &Asked, bound: Option<u32>, children: &[ChildTable]) -> Result<bool, Memory>
    ensures { IfOk result (λ b. b ≡ true → AsksChildren bound asked.now children.now) }
{
    for child in children {
        let asks = have!(asks_below(asked, bound, child));
        if !asks {
            return Ok(false);
        }
    }
    Ok(true)
}

// Those of all tables.
fn asks_tables(asked: &Asked, bound: Option<u32>, tables: &[ForkTable]) -> Result<bool, Memory>
    ensures { IfOk result (λ b. b ≡ true → AsksTables bound asked.now tables.now) }
{
    for table in tables {
        let asks = have!(asks_children(asked, bound, table.children.items()));
        if !asks {
            return Ok(false);
        }
    }
    Ok(true)
}

// Whether the rules ask what a block does outside itself, by its layout or by the flags.
fn is_asked_block(asked: &Asked, l: &Layout) -> bool
    ensures { result ≡ is_asked_block asked.now l.now }
{
    (l.answer && is_below(asked.known.side_effect, l.entry)) || asked.has_block(l.entry as usize)
}

// Whether all that the area of a block may do, it does to variables of the block.
fn fits_own(asked: &Asked, l: &Layout) -> Result<bool, Memory>
    ensures { IfOk result (λ b. b ≡ true → FitsBlock (allowance_at asked.now l.now.entry) l.now) }
{
    match asked.allowance(l.entry as usize) {
        None => Ok(true),
        Some(allowance) => fits_block(asked.flags.alloc(), allowance, l),
    }
}

// Whether all that a block does outside itself is asked about.
fn asks_outside(asked: &Asked, l: &Layout) -> Result<bool, Memory>
    ensures { IfOk result (λ b. b ≡ true → AsksOutside asked.now l.now) }
{
    if asked.has(l.entry as usize) {
        fits_own(asked, l)
    } else {
        Ok(false)
    }
}

// The same for a layout, if the rules ask it of its block.
fn asks_layout(asked: &Asked, l: &Layout) -> Result<bool, Memory>
    ensures { IfOk result (λ b. b ≡ true → AsksLayout asked.now l.now) }
{
    if is_asked_block(asked, l) {
        asks_outside(asked, l)
    } else {
        Ok(true)
    }
}

// All layouts.
fn asks_layouts(asked: &Asked, layouts: &[Layout]) -> Result<bool, Memory>
    ensures { IfOk result (λ b. b ≡ true → AsksLayouts asked.now layouts.now) }
{
    for l in layouts {
        let asks = have!(asks_layout(asked, l));
        if !asks {
            return Ok(false);
        }
    }
    Ok(true)
}

// Whether the flags have the block that an instruction calls inside itself.
fn asks_inside_at(g: &PassContext, asked: &Asked, p: u32) -> bool
    requires known { IsPassContext g.now }
    requires there { p < length g.now.code.now.instrs }
    ensures { result ≡ true → AsksInsideAt g.now.code.now asked.now p }
{
    match inside_entry_at(g, p) {
        None => true,
        Some(entry) => asked.has_block(entry as usize),
    }
}

// All blocks that instructions call inside themselves.
fn asks_inside(g: &PassContext, asked: &Asked) -> bool
    requires known { IsPassContext g.now }
    ensures { result ≡ true → (p : ℕ) → AsksInsideAt g.now.code.now asked.now p }
{
    for p in 0..g.code.parts().instrs.len() {
        if !asks_inside_at(g, asked, p as u32) {
            return false;
        }
    }
    true
}

// Whether what an area may do, the area to which an edge leads may do, as it goes along the edge.
fn may_pass(asked: &Asked, m: usize, edge: Edge) -> bool
    ensures { result ≡ true → Passes (allowance_at asked.now m) (allowance_at asked.now (target edge)) edge }
{
    let to = target(edge) as usize;
    match asked.allowance(m) {
        None => true,
        Some(one) => match asked.allowance(to) {
            None => false,
            Some(other) => passes_within(one, other, asked.have_one(m, to), edge),
        },
    }
}

// Whether what goes along an edge to what is asked about is asked about.
fn follows_edge(asked: &Asked, m: usize, edge: Edge) -> bool
    ensures { result ≡ true → IsFollowed asked.now m edge }
{
    if !asked.has(target(edge) as usize) {
        return true;
    }
    if asked.has(m) {
        may_pass(asked, m, edge)
    } else {
        false
    }
}

// The same for all edges of an area.
fn follows_row(asked: &Asked, m: usize, row: &[Edge]) -> bool
    ensures { result ≡ true → FollowsRow asked.now m row.now }
{
    for k in 0..row.len() {
        let edge = edge_at(row, k);
        if !follows_edge(asked, m, edge) {
            return false;
        }
    }
    true
}

// The same for all areas.
fn follows_edges(asked: &Asked, rows: &[List<Edge>]) -> bool
    ensures { result ≡ true → FollowsEdges rows.now asked.now }
{
    for (m, row) in rows.iter().enumerate() {
        if !follows_row(asked, m, row.items()) {
            return false;
        }
    }
    true
}

// Whether all that rules ask about is asked about.
fn asks(g: &PassContext, asked: &Asked, own: &BTreeSet<(u32, u32)>) -> Result<bool, Memory>
    requires known { IsPassContext g.now }
    requires own { AreOwn g.now.code.now own.now.keys }
    requires broken { AreKnown g.now.code.now asked.now.known }
    ensures { IfOk result (λ b. b ≡ true → Asks g.now.code.now asked.now) }
{
    let parts = g.code.parts();
    let tables = have!(asks_tables(asked, None, parts.forks.items()));
    if tables {
        let layouts = have!(asks_layouts(asked, parts.layouts.items()));
        if layouts {
            let calls = have!(asks_calls(g, asked, own));
            if calls {
                return Ok(asks_inside(g, asked));
            }
        }
    }
    Ok(false)
}

// Flags of these blocks and of the children that begin below a bound, and of what leads to them along the edges; and
// the allowances of these areas.
fn find_by(
    parts: &Parts,
    rows: &List<List<Edge>>,
    groups: &Groups,
    bound: Option<u32>,
    blocks: List<bool>,
    passed: &Passed,
    known: Known,
) -> Result<Asked, Memory>
    ensures { IfOk result (λ asked. asked.known ≡ known) }
{
    let mut flags = have!(List::from_slice(blocks.alloc(), blocks.items()));
    mark_tables(&mut flags, bound, parts.forks.items());
    mark_passed(&mut flags, passed);
    flag_groups(rows, groups, &mut flags);
    let common = have!(common_of(parts, rows, groups, &flags, bound, &blocks, passed));
    Ok(asked_by(flags, common, blocks, known))
}

// What rules ask about, and what leads to it along the edges.
fn find_asked(
    g: &PassContext,
    rows: &List<List<Edge>>,
    own: &BTreeSet<(u32, u32)>,
    known: Known,
) -> Result<Asked, Memory>
    requires known { IsPassContext g.now }
    ensures { IfOk result (λ asked. asked.known ≡ known) }
{
    let parts = g.code.parts();
    let mut blocks = have!(no_flags(parts.instrs.alloc(), parts.instrs.len()));
    mark_blocks(g, &mut blocks, known.side_effect);
    let groups = have!(groups_of(rows));
    let passed = have!(passed_of(g, own, &blocks, known.clash));
    find_by(parts, rows, &groups, None, blocks, &passed, known)
}

/// What V6 asks about the children that begin below a bound, and V7 about variables that are passed, and what leads to
/// it along the edges; nothing here is checked.
pub(crate) fn find_below(
    g: &PassContext,
    rows: &List<List<Edge>>,
    groups: &Groups,
    bound: Option<u32>,
    passed: &Passed,
) -> Result<Asked, Memory> {
    let parts = g.code.parts();
    let blocks = have!(no_flags(parts.instrs.alloc(), parts.instrs.len()));
    find_by(parts, rows, groups, bound, blocks, passed, none_known())
}

/// The same, checked.
pub(crate) fn asked_below(
    g: &PassContext,
    rows: &List<List<Edge>>,
    groups: &Groups,
    bound: Option<u32>,
) -> Result<Asked, Memory>
    ensures asks { IfOk result (λ asked. AsksTables bound asked g.now.code.now.forks) }
    ensures follows { IfOk result (FollowsEdges rows.now) }
{
    let passed = none_passed(g.code.parts().instrs.alloc());
    let some = have!(find_below(g, rows, groups, bound, &passed));
    let asks = have!(asks_tables(&some, bound, g.code.parts().forks.items()));
    if asks {
        if follows_edges(&some, rows.items()) {
            return Ok(some);
        }
    }
    Ok(every_area(some))
}

/// What rules ask about, and what leads to it along these edges, where this is known to be broken.
pub(crate) fn asked_of(
    g: &PassContext,
    rows: &List<List<Edge>>,
    own: &BTreeSet<(u32, u32)>,
    known: Known,
) -> Result<Asked, Memory>
    requires known { IsPassContext g.now }
    requires own { AreOwn g.now.code.now own.now.keys }
    requires broken { AreKnown g.now.code.now known }
    ensures asks { IfOk result (Asks g.now.code.now) }
    ensures follows { IfOk result (FollowsEdges rows.now) }
{
    let some = have!(find_asked(g, rows, own, known));
    let asks = have!(asks(g, &some, own));
    if asks {
        if follows_edges(&some, rows.items()) {
            return Ok(some);
        }
    }
    Ok(every_area(some))
}
