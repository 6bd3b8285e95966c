//! A tree with one entry more, or one less.
ghost use Rattle.std.specs.Prelude.{◌≡◌, ◌<◌};
ghost use Rattle.buckets.specs.Rows.{ahead};
ghost use Rattle.tree.specs.Tree.{Tree};
ghost use Rattle.tree.specs.Shapes.{grown, first_slot, pulled, fused, shrunk};
ghost use Rattle.tree.specs.Contracted.{Grow, GrowAt, Treed, TreeAt, Paired, PairAt, Done};

use crate::node::Node;
use crate::rotations::rebalance;
use crate::slots::{branch_at, left_at, place_at, plant};
use buckets::Entry;
use kinds::PlaceKind;

// Whether `a` stands ahead of `b`.
pub(crate) fn stands_ahead<P: PlaceKind>(a: Entry<P>, b: Entry<P>) -> bool
    ensures { result ≡ ahead P.PlaceKind.model a b }
{
    a.place.compare(&b.place).then(a.set.cmp(&b.set)).is_lt()
}

// Enters an entry into the tree at `root`, and returns the new root.
pub(crate) fn insert<P: PlaceKind>(
    nodes: &mut [Node<P, P::Region>],
    root: u16,
    entry: Entry<P>,
) -> u16
    requires { Grow nodes.old entry.set root }
    ensures { (t : Tree P P.Region) → GrowAt nodes.old entry.set root t → Done nodes.old nodes.new result (grown P.PlaceKind.model entry.place entry.set t) }
{
    if root == 0 {
        plant(nodes, entry, 0, 0);
        return entry.set;
    }
    let here = branch_at(nodes, root);
    let goes_left = stands_ahead(entry, here.entry);
    let longer = insert(nodes, here.child(goes_left), entry);
    let (left, right) = here.with_child(goes_left, longer);
    rebalance(nodes, here.entry, left, right)
}

// The first slot of the tree at `root`.
pub(crate) fn first_of<P: PlaceKind>(nodes: &[Node<P, P::Region>], root: u16) -> u16
    requires treed { Treed nodes.now root }
    requires some { 0 < root }
    ensures { (t : Tree P P.Region) → TreeAt nodes.now root t → result ≡ first_slot t }
{
    let mut first = root;
    let mut left = left_at(nodes, first);
    while left != 0 {
        first = left;
        left = left_at(nodes, first);
    }
    first
}

// Takes the first entry out of the tree at `root`, and returns the new root.
pub(crate) fn pull_first<P: PlaceKind>(nodes: &mut [Node<P, P::Region>], root: u16) -> u16
    requires treed { Treed nodes.old root }
    requires some { 0 < root }
    ensures { (t : Tree P P.Region) → TreeAt nodes.old root t → Done nodes.old nodes.new result (pulled P.PlaceKind.model t) }
{
    let here = branch_at(nodes, root);
    if here.left == 0 {
        return here.right;
    }
    let left = pull_first(nodes, here.left);
    rebalance(nodes, here.entry, left, here.right)
}

// Makes one tree of those at `left` and `right`.
pub(crate) fn fuse<P: PlaceKind>(nodes: &mut [Node<P, P::Region>], left: u16, right: u16) -> u16
    requires { Paired nodes.old left right }
    ensures { (l r : Tree P P.Region) → PairAt nodes.old left right l r → Done nodes.old nodes.new result (fused P.PlaceKind.model l r) }
{
    if right == 0 {
        return left;
    }
    let set = first_of(nodes, right);
    let place = place_at(nodes, set);
    let right = pull_first(nodes, right);
    rebalance(nodes, Entry { set, place }, left, right)
}

// Takes an entry out of the tree at `root`, and returns the new root.
pub(crate) fn remove<P: PlaceKind>(
    nodes: &mut [Node<P, P::Region>],
    root: u16,
    entry: Entry<P>,
) -> u16
    requires { Treed nodes.old root }
    ensures { (t : Tree P P.Region) → TreeAt nodes.old root t → Done nodes.old nodes.new result (shrunk P.PlaceKind.model entry.place entry.set t) }
{
    if root == 0 {
        return 0;
    }
    let here = branch_at(nodes, root);
    if entry.set == root {
        return fuse(nodes, here.left, here.right);
    }
    let goes_left = stands_ahead(entry, here.entry);
    let shorter = remove(nodes, here.child(goes_left), entry);
    let (left, right) = here.with_child(goes_left, shorter);
    rebalance(nodes, here.entry, left, right)
}
