//! The children of forks, as nodes of a tree: each inside what is around its fork. They are put in the order of
//! `order`.

ghost use Rattle.std.specs.Prelude.{◌≡◌, ◌+◌, ◌<◌, Some, None, IfOk, OnOk, length, slice_get};
ghost use Rattle.sp_verify_areas.specs.Around.{AreAttached, IsAttachedBy, PutsChild, PutsChildren};
ghost use Rattle.sp_verify_areas.specs.Around.{child_node, node_of};
ghost use Rattle.sp_verify_areas.specs.Around.{owner_in};
ghost use Rattle.sp_verify_areas.specs.Around.{AreAllAttached, AreNodes};
ghost use Rattle.sp_verify_areas.specs.Blocks.{IsNumbered};
ghost use Rattle.sp_verify_areas.specs.Grown.{EachItem, GrowthStep};
ghost use Rattle.sp_verify_areas.specs.Owners.{AreOwners};
ghost use Rattle.sp_verify_areas.specs.declared.tree.Node.{Node};

use crate::blocks::Blocks;
use crate::have;
use crate::order::order;
use crate::owners::{Owner, table_number};
use crate::tree::{Frame, Grown, Jump, Node, node_at, put};
use sp_base::{List, Memory, Writer};
use sp_code::{ChildTable, Code, MAX_CODE};

// The node of this number.
fn node(nodes: &List<Node>, number: usize) -> Node
    ensures { (n : Node) → slice_get nodes.now number ≡ Some n → result ≡ n }
{
    match nodes.get(number) {
        None => Node {
            frame: Frame::Index(0),
            around: None,
            jump: Jump { to: 0, far: 0 },
        },
        Some(n) => *n,
    }
}

// Puts a node last that stands for the same as another one.
fn put_again(nodes: &mut List<Node>, number: usize) -> Result<(), Memory>
    ensures { OnOk result (PutsChild nodes.old nodes.new number None) }
{
    let again = node(nodes, number);
    have!(nodes.push(again));
    Ok(())
}

// Puts a node last for a child, by the node of its fork.
fn put_child(nodes: &mut List<Node>, around: usize, index: Option<u32>) -> Result<(), Memory>
    ensures { OnOk result (PutsChild nodes.old nodes.new around index) }
{
    match index {
        None => put_again(nodes, around),
        Some(x) => put(nodes, Frame::Index(x), Some(around)),
    }
}

fn put_children(
    nodes: &mut List<Node>,
    around: usize,
    children: &[ChildTable],
) -> Result<(), Memory>
    ensures { OnOk result (PutsChildren nodes.old nodes.new around children.now (length children.now)) }
{
    for child in children {
        have!(put_child(nodes, around, child.index));
    }
    Ok(())
}

fn owner_in(owners: &List<Owner>, p: usize) -> Owner
    ensures { result ≡ owner_in owners.now p }
{
    match owners.get(p) {
        None => Owner::Nobody,
        Some(owner) => *owner,
    }
}

fn child_node(size: usize, base: usize, child: usize) -> Option<usize>
    ensures { result ≡ child_node size base child }
{
    if base < size && child < size - base {
        Some(base + child)
    } else {
        None
    }
}

// The node of an owner, by those of the blocks and those of tables so far.
fn node_of(
    code: &Code,
    blocks: &Blocks,
    of_blocks: &List<Option<usize>>,
    grown: &Grown,
    owner: Owner,
) -> Option<usize>
    requires { IsNumbered blocks.now.first code.now.layouts }
    ensures { result ≡ node_of code.now (length grown.now.nodes) of_blocks.now grown.now.of owner }
{
    match owner {
        Owner::Nobody => None,
        Owner::Block(b) => match blocks.place(b) {
            None => None,
            Some(place) => node_at(of_blocks, place as usize),
        },
        Owner::Child { at, child } => match table_number(code, at) {
            None => None,
            Some(t) => match node_at(&grown.of, t as usize) {
                None => None,
                Some(base) => child_node(grown.nodes.len(), base, child),
            },
        },
        Owner::Several => None,
    }
}

// Gives the table that an instruction names its children's nodes, if it has none and the instruction has a node, and
// says whether it did.
fn hang(
    code: &Code,
    blocks: &Blocks,
    owners: &List<Owner>,
    of_blocks: &List<Option<usize>>,
    grown: &mut Grown,
    q: u32,
) -> Result<bool, Memory>
    requires blocks { IsNumbered blocks.now.first code.now.layouts }
    requires owners { AreOwners code.now owners.now }
    requires just { AreAttached code.now of_blocks.now grown.old }
    ensures { IfOk result (λ changed. GrowthStep (AreAttached code.now of_blocks.now) grown.old grown.new
        (IsAttachedBy code.now owners.now of_blocks.now q) changed) }
{
    let t = match table_number(code, q) {
        None => return Ok(false),
        Some(t) => t as usize,
    };
    if node_at(&grown.of, t).is_some() {
        return Ok(false);
    }
    let owner = owner_in(owners, q as usize);
    let around = match node_of(code, blocks, of_blocks, grown, owner) {
        None => return Ok(false),
        Some(around) => around,
    };
    let table = match code.parts().forks.get(t) {
        None => return Ok(false),
        Some(table) => table,
    };
    let base = grown.nodes.len();
    have!(put_children(&mut grown.nodes, around, table.children.items()));
    let _none = grown.of.replace(t, Some(base));
    Ok(true)
}

fn sweep(
    code: &Code,
    blocks: &Blocks,
    owners: &List<Owner>,
    of_blocks: &List<Option<usize>>,
    grown: &mut Grown,
) -> Result<bool, Memory>
    requires blocks { IsNumbered blocks.now.first code.now.layouts }
    requires owners { AreOwners code.now owners.now }
    requires just { AreAttached code.now of_blocks.now grown.old }
    ensures { IfOk result (λ changed. GrowthStep (AreAttached code.now of_blocks.now) grown.old grown.new
        (EachItem (IsAttachedBy code.now owners.now of_blocks.now) (length code.now.instrs)) changed) }
{
    let count = code.parts().instrs.len();
    let mut changed = false;
    for q in 0..count {
        let new = have!(hang(code, blocks, owners, of_blocks, grown, q as u32));
        changed |= new;
    }
    Ok(changed)
}

// The instructions, those of a child behind its fork.
fn forks_first(owners: &List<Owner>) -> Result<List<usize>, Memory> {
    let mut up = Writer::new(owners.alloc());
    for owner in owners.items() {
        let fork = match *owner {
            Owner::Child { at, child: _ } => Some(at as usize),
            _ => None,
        };
        up.put(fork);
    }
    order(owners.alloc(), &up)
}

/// The nodes of all children, beside those of the blocks. The only other answer is want of memory.
pub(crate) fn hang_all(
    code: &Code,
    blocks: &Blocks,
    owners: &List<Owner>,
    of_blocks: &List<Option<usize>>,
    grown: &mut Grown,
) -> Result<(), Memory>
    requires blocks { IsNumbered blocks.now.first code.now.layouts }
    requires owners { AreOwners code.now owners.now }
    requires just { AreAttached code.now of_blocks.now grown.old }
    ensures { OnOk result (AreAllAttached code.now owners.now of_blocks.now grown.new) }
{
    // Outer forks come first: so mostly the first sweep after it finds nothing.
    let order = have!(forks_first(owners));
    for q in order.items() {
        let q = *q;
        if q < MAX_CODE {
            let _new = have!(hang(code, blocks, owners, of_blocks, grown, q as u32));
        }
    }
    'sweeps: loop {
        let found = have!(sweep(code, blocks, owners, of_blocks, grown));
        if !found {
            return Ok(());
        }
    }
}

/// The node of each owner. The only other answer is want of memory.
pub(crate) fn nodes_of(
    code: &Code,
    blocks: &Blocks,
    owners: &List<Owner>,
    of_blocks: &List<Option<usize>>,
    grown: &Grown,
) -> Result<List<Option<usize>>, Memory>
    requires { IsNumbered blocks.now.first code.now.layouts }
    ensures { IfOk result (λ at. AreNodes code.now owners.now of_blocks.now grown.now at (length owners.now)) }
{
    let mut at = List::new(owners.alloc());
    for p in 0..owners.len() {
        let owner = owner_in(owners, p);
        let node = node_of(code, blocks, of_blocks, grown, owner);
        have!(at.push(node));
    }
    Ok(at)
}
