//! Reading a slot field by field, and writing it whole.
ghost use Rattle.std.specs.Prelude.{◌≡◌, ◌<◌, min, length, Some, slice_set};
ghost use Rattle.tree.specs.declared.node.Node.{Node};
ghost use Rattle.tree.specs.Slots.{at, height_of, count_of, left_child, right_child, held_place, held_join, joined_over, made, idle};
ghost use Rattle.tree.specs.Tree.{Tree, linked};
ghost use Rattle.tree.specs.Whole.{capacity, place_in};
ghost use Rattle.tree.specs.Contracted.{Room, Two, TwoAt, Done};

use crate::node::{Branch, Node};
use buckets::Entry;
use kinds::PlaceKind;

// How high the tree at `slot` is; 0 where there is none.
pub(crate) fn height_at<P: PlaceKind>(nodes: &[Node<P, P::Region>], slot: u16) -> u8
    requires { slot < length nodes.now }
    ensures { result ≡ height_of (at nodes.now slot) }
{
    if slot == 0 {
        0
    } else {
        nodes[slot as usize].height
    }
}

// How many nodes the tree at `slot` has; 0 where there is none.
pub(crate) fn count_at<P: PlaceKind>(nodes: &[Node<P, P::Region>], slot: u16) -> u16
    requires { slot < length nodes.now }
    ensures { result ≡ count_of (at nodes.now slot) }
{
    if slot == 0 {
        0
    } else {
        nodes[slot as usize].count
    }
}

// `base` joined with the regions of the tree at `slot`.
pub(crate) fn joined_at<P: PlaceKind>(
    nodes: &[Node<P, P::Region>],
    base: P::Region,
    slot: u16,
) -> P::Region
    requires { slot < length nodes.now }
    ensures { result ≡ joined_over P.PlaceKind.model base (at nodes.now slot) }
{
    if slot == 0 {
        base
    } else {
        P::join(base, nodes[slot as usize].join)
    }
}

// The left child of a node.
pub(crate) fn left_at<P: PlaceKind>(nodes: &[Node<P, P::Region>], slot: u16) -> u16
    requires { (0 < slot) × (slot < length nodes.now) }
    ensures { result ≡ left_child (at nodes.now slot) }
{
    nodes[slot as usize].left
}

// The right child of a node.
pub(crate) fn right_at<P: PlaceKind>(nodes: &[Node<P, P::Region>], slot: u16) -> u16
    requires { (0 < slot) × (slot < length nodes.now) }
    ensures { result ≡ right_child (at nodes.now slot) }
{
    nodes[slot as usize].right
}

// The place of a node.
pub(crate) fn place_at<P: PlaceKind>(nodes: &[Node<P, P::Region>], slot: u16) -> P
    requires { (0 < slot) × (slot < length nodes.now) }
    ensures { held_place (at nodes.now slot) ≡ Some result }
{
    nodes[slot as usize].place
}

// The join of the regions at and below a node.
pub(crate) fn join_at<P: PlaceKind>(nodes: &[Node<P, P::Region>], slot: u16) -> P::Region
    requires { (0 < slot) × (slot < length nodes.now) }
    ensures { held_join (at nodes.now slot) ≡ Some result }
{
    nodes[slot as usize].join
}

// What is given of the node at a slot.
pub(crate) fn branch_at<P: PlaceKind>(nodes: &[Node<P, P::Region>], slot: u16) -> Branch<P>
    requires { (0 < slot) × (slot < length nodes.now) }
    ensures set { result.entry.set ≡ slot }
    ensures place { held_place (at nodes.now slot) ≡ Some result.entry.place }
    ensures left { result.left ≡ left_child (at nodes.now slot) }
    ensures right { result.right ≡ right_child (at nodes.now slot) }
{
    let place = place_at(nodes, slot);
    Branch {
        entry: Entry { set: slot, place },
        left: left_at(nodes, slot),
        right: right_at(nodes, slot),
    }
}

// Writes the node of an entry, with what it has from its two children.
pub(crate) fn link<P: PlaceKind>(
    nodes: &mut [Node<P, P::Region>],
    entry: Entry<P>,
    left: u16,
    right: u16,
)
    requires { Room nodes.old entry.set left right }
    ensures { nodes.new ≡ slice_set nodes.old entry.set (made P.PlaceKind.model nodes.old entry.place left right) }
{
    let Entry { set, place } = entry;
    let height = 1 + height_at(nodes, left).max(height_at(nodes, right));
    let count = 1 + count_at(nodes, left) + count_at(nodes, right);
    let lower = joined_at(nodes, place.region(), left);
    let join = joined_at(nodes, lower, right);
    nodes[set as usize] = Node {
        place,
        join,
        left,
        right,
        count,
        height,
    };
}

// The node of an entry, over the trees at `left` and `right`.
pub(crate) fn plant<P: PlaceKind>(
    nodes: &mut [Node<P, P::Region>],
    entry: Entry<P>,
    left: u16,
    right: u16,
)
    requires { Two nodes.old entry.set left right }
    ensures { (l r : Tree P P.Region) → TwoAt nodes.old entry.set left right l r → Done nodes.old nodes.new entry.set (linked P.PlaceKind.model l entry.set entry.place r) }
{
    link(nodes, entry, left, right);
}

// Marks the slot as not in use.
pub(crate) fn clear<P: PlaceKind>(nodes: &mut [Node<P, P::Region>], slot: u16)
    requires { (0 < slot) × (slot < length nodes.old) }
    ensures { (x : Node P P.Region) → at nodes.old slot ≡ Some x → nodes.new ≡ slice_set nodes.old slot (idle x) }
{
    let place = place_at(nodes, slot);
    let join = join_at(nodes, slot);
    nodes[slot as usize] = Node {
        place,
        join,
        left: 0,
        right: 0,
        count: 0,
        height: 0,
    };
}

// The number of slots that may be used, slot 0 among them.
pub(crate) fn limit<P: PlaceKind>(nodes: &[Node<P, P::Region>]) -> u16
    ensures { result ≡ min (length nodes.now) 4096 }
{
    nodes.len().min(4096) as u16
}

/// The highest set number that the slots have room for.
pub fn capacity<P: PlaceKind>(nodes: &[Node<P, P::Region>]) -> u16
    ensures { result ≡ capacity nodes.now }
{
    limit(nodes).saturating_sub(1)
}

/// Where the set `set` is present, if it is.
pub fn place_of<P: PlaceKind>(nodes: &[Node<P, P::Region>], set: u16) -> Option<P>
    ensures { result ≡ place_in nodes.now set }
{
    if set >= limit(nodes) || count_at(nodes, set) == 0 {
        return None;
    }
    Some(place_at(nodes, set))
}
