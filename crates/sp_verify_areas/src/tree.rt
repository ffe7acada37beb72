//! A tree of what is around code, in which one finds who is so many levels outward.

ghost use Rattle.std.specs.Prelude.{◌≡◌, ℕ, ◌+◌, ◌<◌, ◌≤◌, ◌∷◌, List, Some, None, IfOk, OnOk, MatchOption};
ghost use Rattle.std.specs.Prelude.{length, replicate, slice_get};
ghost use Rattle.sp_code.specs.declared.code.Layout.{Layout};
ghost use Rattle.sp_code.specs.Memory.{Home};
ghost use Rattle.sp_verify_areas.specs.Grown.{GetsNode, PutsNode, node_at};
ghost use Rattle.sp_verify_areas.specs.Tree.{AreLists, IsAround, IsFrameOfHome, IsFrame, IsJump, IsNode, around_list};
ghost use Rattle.sp_verify_areas.specs.Tree.{home_of};
ghost use Rattle.sp_verify_areas.specs.Tree.{with_list};

use crate::have;
use sp_base::{List, Memory};
use std::alloc::Global;

/// What has a frame.
#[derive(Clone, Copy)]
pub(crate) enum Frame {
    /// The block of this number, whose first layout has this place.
    Block { block: u32, place: u32 },
    /// The index of a forall.
    Index(u32),
}

/// A way to a node that is so many levels outward.
#[derive(Clone, Copy)]
pub(crate) struct Jump {
    pub to: usize,
    pub far: usize,
}

/// A frame, the node around it, and a jump.
#[derive(Clone, Copy)]
pub(crate) struct Node {
    pub frame: Frame,
    pub around: Option<usize>,
    pub jump: Jump,
}

fn jump_at(tree: &List<Node>, node: usize) -> Jump
    ensures { (ls : List Layout) (lists : ℕ → List Home) → AreLists ls tree.now lists → node < length tree.now
        → IsJump lists (length tree.now) (lists node) result }
{
    match tree.get(node) {
        None => Jump { to: node, far: 0 },
        Some(n) => n.jump,
    }
}

// The jump of a node inside another one: as far as both jumps behind it together, where they are equally far.
fn jump_inside(tree: &List<Node>, around: usize) -> Jump
    ensures { (ls : List Layout) (lists : ℕ → List Home) (h : Home) → AreLists ls tree.now lists
        → around < length tree.now
        → IsJump lists (length tree.now) (h ∷ lists around) result }
{
    let near = jump_at(tree, around);
    let next = jump_at(tree, near.to);
    if near.far == next.far && near.far < 1_000_000_000 {
        Jump {
            to: next.to,
            far: 1 + near.far + next.far,
        }
    } else {
        Jump { to: around, far: 1 }
    }
}

// A way outward from a node, no farther than so many levels.
fn step(n: Node, left: usize) -> Option<Jump>
    requires { 0 < left }
    ensures far { MatchOption result (Unit {0}) (λ j. (0 < j.far) × (j.far ≤ left)) }
    ensures jump { (ls : List Layout) (lists : ℕ → List Home) (size : ℕ) (hs : List Home) → IsNode ls lists size hs n
        → MatchOption result (n.around ≡ None) (λ j. IsJump lists size hs j) }
{
    if 0 < n.jump.far && n.jump.far <= left {
        return Some(n.jump);
    }
    match n.around {
        None => None,
        Some(to) => Some(Jump { to, far: 1 }),
    }
}

/// The frame so many levels outward from a node, whose own is at level 0.
pub(crate) fn outward(tree: &List<Node>, node: usize, up: usize) -> Option<Frame>
    ensures { (ls : List Layout) (lists : ℕ → List Home) → AreLists ls tree.now lists → node < length tree.now
        → IsFrameOfHome ls (slice_get (lists node) up) result }
{
    let mut at = node;
    let mut left = up;
    'levels: while 0 < left {
        let n = match tree.get(at) {
            None => return None,
            Some(n) => *n,
        };
        match step(n, left) {
            None => return None,
            Some(j) => {
                at = j.to;
                left -= j.far;
            }
        }
    }
    match tree.get(at) {
        None => None,
        Some(n) => Some(n.frame),
    }
}

/// A tree that grows, and for each of the items that are to have a node theirs, where they have one.
#[derive(Drop)]
pub struct Grown {
    pub(crate) nodes: List<Node>,
    pub(crate) of: List<Option<usize>>,
}

/// No node for each of so many items. The only other answer is want of memory.
pub(crate) fn no_nodes(alloc: Global, count: usize) -> Result<List<Option<usize>>, Memory>
    ensures { IfOk result (λ of. of ≡ replicate count None) }
{
    Ok(List::of(have!(vec![in alloc; None; count])))
}

/// The node of an item.
pub(crate) fn node_at(of: &List<Option<usize>>, item: usize) -> Option<usize>
    ensures { result ≡ node_at of.now item }
{
    match of.get(item) {
        None => None,
        Some(node) => *node,
    }
}

// A node with this frame inside another one, or inside none; it is to be put last.
fn node_inside(tree: &List<Node>, frame: Frame, around: Option<usize>) -> Node
    ensures { (ls : List Layout) (lists : ℕ → List Home) → AreLists ls tree.now lists → IsFrame ls frame
        → IsAround (length tree.now) around
        → IsNode ls (with_list lists (length tree.now) (home_of frame ∷ around_list lists around)) (length tree.now + 1)
        (home_of frame ∷ around_list lists around) result }
{
    match around {
        None => Node {
            frame,
            around: None,
            jump: Jump {
                to: tree.len(),
                far: 0,
            },
        },
        Some(to) => Node {
            frame,
            around: Some(to),
            jump: jump_inside(tree, to),
        },
    }
}

/// Puts a node last, with this frame, inside another one or inside none.
pub(crate) fn put(tree: &mut List<Node>, frame: Frame, around: Option<usize>) -> Result<(), Memory>
    ensures { OnOk result (PutsNode tree.old tree.new frame around) }
{
    let node = node_inside(tree, frame, around);
    have!(tree.push(node));
    Ok(())
}

/// Gives an item a new node with this frame, inside another node or none.
pub(crate) fn give_node(
    grown: &mut Grown,
    item: usize,
    frame: Frame,
    around: Option<usize>,
) -> Result<(), Memory>
    requires { item < length grown.old.of }
    ensures { OnOk result (GetsNode grown.old grown.new item frame around) }
{
    let node = grown.nodes.len();
    have!(put(&mut grown.nodes, frame, around));
    let _none = grown.of.replace(item, Some(node));
    Ok(())
}
