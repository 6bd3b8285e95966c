//! Rotations, and a node over two trees that may differ by two levels.
ghost use Rattle.std.specs.Prelude.{◌<◌, length};
ghost use Rattle.tree.specs.Tree.{Tree, linked};
ghost use Rattle.tree.specs.Shapes.{rotated_twice, rotated_right, rotated_left, evened};
ghost use Rattle.tree.specs.Contracted.{Three, ThreeApart, Even, EvenAt, Done};

use crate::node::{Apart, Node};
use crate::slots::{branch_at, height_at, plant};
use buckets::Entry;
use kinds::PlaceKind;

// The low entry over the first tree and over the high entry, which is over the other two.
pub(crate) fn rotate_once_right<P: PlaceKind>(nodes: &mut [Node<P, P::Region>], apart: Apart<P>)
    requires { Three nodes.old apart }
    ensures { (a b c : Tree P P.Region) → ThreeApart nodes.old apart a b c → Done nodes.old nodes.new apart.low.set (linked P.PlaceKind.model a apart.low.set apart.low.place (linked P.PlaceKind.model b apart.high.set apart.high.place c)) }
{
    plant(nodes, apart.high, apart.second, apart.third);
    plant(nodes, apart.low, apart.first, apart.high.set);
}

// The high entry over the low entry, which is over the first two trees, and over the third.
pub(crate) fn rotate_once_left<P: PlaceKind>(nodes: &mut [Node<P, P::Region>], apart: Apart<P>)
    requires { Three nodes.old apart }
    ensures { (a b c : Tree P P.Region) → ThreeApart nodes.old apart a b c → Done nodes.old nodes.new apart.high.set (linked P.PlaceKind.model (linked P.PlaceKind.model a apart.low.set apart.low.place b) apart.high.set apart.high.place c) }
{
    plant(nodes, apart.low, apart.first, apart.second);
    plant(nodes, apart.high, apart.low.set, apart.third);
}

// The root of the second tree over both entries, which share its two trees.
pub(crate) fn rotate_twice<P: PlaceKind>(nodes: &mut [Node<P, P::Region>], apart: Apart<P>)
    requires three { Three nodes.old apart }
    requires some { 0 < apart.second }
    ensures { (a b c : Tree P P.Region) → ThreeApart nodes.old apart a b c → Done nodes.old nodes.new apart.second (rotated_twice P.PlaceKind.model a apart.low.set apart.low.place b apart.high.set apart.high.place c) }
{
    let middle = branch_at(nodes, apart.second);
    plant(nodes, apart.low, apart.first, middle.left);
    plant(nodes, apart.high, middle.right, apart.third);
    plant(nodes, middle.entry, apart.low.set, apart.high.set);
}

// `entry` over the trees at `left` and `right`, of which the left one is too high.
pub(crate) fn rotate_right<P: PlaceKind>(
    nodes: &mut [Node<P, P::Region>],
    entry: Entry<P>,
    left: u16,
    right: u16,
) -> u16
    requires even { Even nodes.old entry.set left right }
    requires some { (0 < left) × (left < length nodes.old) }
    ensures { (l r : Tree P P.Region) → EvenAt nodes.old entry.set left right l r → Done nodes.old nodes.new result (rotated_right P.PlaceKind.model l entry.set entry.place r) }
{
    let below = branch_at(nodes, left);
    let apart = Apart {
        first: below.left,
        low: below.entry,
        second: below.right,
        high: entry,
        third: right,
    };
    if height_at(nodes, below.left) < height_at(nodes, below.right) {
        rotate_twice(nodes, apart);
        below.right
    } else {
        rotate_once_right(nodes, apart);
        left
    }
}

// `entry` over the trees at `left` and `right`, of which the right one is too high.
pub(crate) fn rotate_left<P: PlaceKind>(
    nodes: &mut [Node<P, P::Region>],
    entry: Entry<P>,
    left: u16,
    right: u16,
) -> u16
    requires even { Even nodes.old entry.set left right }
    requires some { (0 < right) × (right < length nodes.old) }
    ensures { (l r : Tree P P.Region) → EvenAt nodes.old entry.set left right l r → Done nodes.old nodes.new result (rotated_left P.PlaceKind.model l entry.set entry.place r) }
{
    let below = branch_at(nodes, right);
    let apart = Apart {
        first: left,
        low: entry,
        second: below.left,
        high: below.entry,
        third: below.right,
    };
    if height_at(nodes, below.right) < height_at(nodes, below.left) {
        rotate_twice(nodes, apart);
        below.left
    } else {
        rotate_once_left(nodes, apart);
        right
    }
}

// `entry` over the trees at `left` and `right`, with rotations where one is more than a level higher.
#[inline(always)]
pub(crate) fn rebalance<P: PlaceKind>(
    nodes: &mut [Node<P, P::Region>],
    entry: Entry<P>,
    left: u16,
    right: u16,
) -> u16
    requires { Even nodes.old entry.set left right }
    ensures { (l r : Tree P P.Region) → EvenAt nodes.old entry.set left right l r → Done nodes.old nodes.new result (evened P.PlaceKind.model l entry.set entry.place r) }
{
    let low = height_at(nodes, left);
    let high = height_at(nodes, right);
    if low > high + 1 {
        rotate_right(nodes, entry, left, right)
    } else if high > low + 1 {
        rotate_left(nodes, entry, left, right)
    } else {
        plant(nodes, entry, left, right);
        entry.set
    }
}
