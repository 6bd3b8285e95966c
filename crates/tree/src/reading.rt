//! Reading a tree on a slice: its count, ranks, joins, height and row.
ghost use Rattle.std.specs.Prelude.{◌≡◌, ℕ, ◌<◌, ◌≤◌, true, List, ◌∷◌, length, Some};
ghost use Rattle.buckets.specs.Rows.{rank_of, row};
ghost use Rattle.buckets.specs.Regions.{members, region_of};
ghost use Rattle.tree.specs.Tree.{tall};
ghost use Rattle.tree.specs.Rows.{find, often};
ghost use Rattle.tree.specs.Whole.{capacity, place_in, tree_in, row_in, shaped, Orderly};

use crate::node::Node;
use crate::slots::{count_at, height_at};
use crate::walks::{between, rank};
use buckets::{Ends, Entry, ahead_laws, row_laws};
use kinds::PlaceKind;

/// How many sets are present.
pub fn count<P: PlaceKind>(nodes: &[Node<P, P::Region>], root: u16) -> u16
    requires shape { shaped nodes.now root ≡ true }
    ensures many { result ≡ length (row_in nodes.now root) }
    ensures most { result ≤ 4095 }
    ensures row { (j : ℕ) → (find j (row_in nodes.now root) ≡ place_in nodes.now j) × (often j (row_in nodes.now root) ≤ 1) }
{
    if root == 0 {
        return 0;
    }
    count_at(nodes, root)
}

/// How many sets stand before one that is present.
pub fn rank_of<P: PlaceKind>(nodes: &[Node<P, P::Region>], root: u16, entry: Entry<P>) -> u16
    requires shape { shaped nodes.now root ≡ true }
    requires there { place_in nodes.now entry.set ≡ Some entry.place }
    ensures low { result ≤ length (row_in nodes.now root) }
    ensures rank { Orderly P.PlaceKind.model nodes.now root → result ≡ rank_of entry.set (row_in nodes.now root) }
{
    ahead_laws::<P>();
    rank(nodes, root, entry)
}

/// The join of the regions of the entries from one rank to another.
pub fn covers<P: PlaceKind>(nodes: &[Node<P, P::Region>], root: u16, ends: Ends) -> P::Region
    requires shape { shaped nodes.now root ≡ true }
    requires range { (ends.first ≤ ends.last) × (ends.last < length (row_in nodes.now root)) }
    ensures { Orderly P.PlaceKind.model nodes.now root → (e : Entry P) (es : List (Entry P)) → members ends (row_in nodes.now root) ≡ e ∷ es → result ≡ region_of P.PlaceKind.model e es }
{
    between(nodes, root, ends.first, ends.last + 1)
}

/// How high the tree stands: at most 16 levels.
pub fn height<P: PlaceKind>(nodes: &[Node<P, P::Region>], root: u16) -> u8
    requires shape { shaped nodes.now root ≡ true }
    ensures value { result ≡ tall (tree_in nodes.now root) }
    ensures most { result ≤ 16 }
{
    if root == 0 {
        return 0;
    }
    height_at(nodes, root)
}

/// The tree's row holds each set at its place and no set twice, and is the row of the present sets, where the tree is in order.
pub fn one_row<P: PlaceKind>(nodes: &[Node<P, P::Region>], root: u16)
    requires shape { shaped nodes.now root ≡ true }
    ensures row { (j : ℕ) → (find j (row_in nodes.now root) ≡ place_in nodes.now j) × (often j (row_in nodes.now root) ≤ 1) }
    ensures one { Orderly P.PlaceKind.model nodes.now root → row_in nodes.now root ≡ row P.PlaceKind.model (place_in nodes.now) (capacity nodes.now) }
{
    row_laws::<P>();
}
