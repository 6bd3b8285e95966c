//! Changing a tree on a slice: clearing its slots, and entering, taking out and moving a set.
ghost use Rattle.std.specs.Prelude.{◌≡◌, ℕ, ◌<◌, ◌≤◌, [], true, if◌then◌else◌, Some, None, nat_eq};
ghost use Rattle.std.specs.List.{slice_get};
ghost use Rattle.kinds.specs.Rules.{Admitted};
ghost use Rattle.buckets.specs.Rows.{entry, inserted};
ghost use Rattle.tree.specs.Rows.{without};
ghost use Rattle.tree.specs.Whole.{capacity, place_in, row_in, shaped, Orderly};

use crate::changes::{insert, remove};
use crate::node::Node;
use crate::slots::{clear, count_at, limit, place_of};
use buckets::{Entry, ahead_laws};
use kinds::PlaceKind;

/// Marks slots 1 to the capacity as not in use.
pub fn clear_all<P: PlaceKind>(nodes: &mut [Node<P, P::Region>])
    ensures shape { shaped nodes.new 0 ≡ true }
    ensures view { (j : ℕ) → place_in nodes.new j ≡ None }
    ensures others { (j : ℕ) → (0 < j → capacity nodes.old < j) → slice_get nodes.new j ≡ slice_get nodes.old j }
    ensures order { Orderly P.PlaceKind.model nodes.new 0 × (row_in nodes.new 0 ≡ []) }
{
    let end = limit(nodes);
    for slot in 1..end {
        clear(nodes, slot);
    }
}

/// Enters a set that is not present at a place, and returns the new root.
pub fn enter<P: PlaceKind>(nodes: &mut [Node<P, P::Region>], root: u16, entry: Entry<P>) -> u16
    requires shape { shaped nodes.old root ≡ true }
    requires room { (0 < entry.set) × (entry.set ≤ capacity nodes.old) }
    requires absent { place_in nodes.old entry.set ≡ None }
    ensures shape { shaped nodes.new result ≡ true }
    ensures view { (j : ℕ) → place_in nodes.new j ≡ (if nat_eq j entry.set then Some entry.place else place_in nodes.old j) }
    ensures others { (j : ℕ) → place_in nodes.new j ≡ None → slice_get nodes.new j ≡ slice_get nodes.old j }
    ensures order { Orderly P.PlaceKind.model nodes.old root → Admitted P.PlaceKind.model entry.place → Orderly P.PlaceKind.model nodes.new result × (row_in nodes.new result ≡ inserted P.PlaceKind.model entry (row_in nodes.old root)) }
{
    ahead_laws::<P>();
    insert(nodes, root, entry)
}

/// Takes the entry of a set that is present out, marks its slot as not in use, and returns the new root.
pub fn leave<P: PlaceKind>(nodes: &mut [Node<P, P::Region>], root: u16, entry: Entry<P>) -> u16
    requires shape { shaped nodes.old root ≡ true }
    requires there { place_in nodes.old entry.set ≡ Some entry.place }
    ensures shape { shaped nodes.new result ≡ true }
    ensures view { Orderly P.PlaceKind.model nodes.old root → (j : ℕ) → place_in nodes.new j ≡ (if nat_eq j entry.set then None else place_in nodes.old j) }
    ensures others { (j : ℕ) → place_in nodes.old j ≡ None → slice_get nodes.new j ≡ slice_get nodes.old j }
    ensures order { Orderly P.PlaceKind.model nodes.old root → Orderly P.PlaceKind.model nodes.new result × (row_in nodes.new result ≡ without entry.set (row_in nodes.old root)) }
{
    ahead_laws::<P>();
    let many = count_at(nodes, root);
    let rest = remove(nodes, root, entry);
    if count_at(nodes, rest) != many {
        clear(nodes, entry.set);
    }
    rest
}

/// Moves a set that is present to a place, and returns the new root.
pub fn relocate<P: PlaceKind>(
    nodes: &mut [Node<P, P::Region>],
    root: u16,
    from: Entry<P>,
    place: P,
) -> u16
    requires shape { shaped nodes.old root ≡ true }
    requires there { place_in nodes.old from.set ≡ Some from.place }
    ensures shape { shaped nodes.new result ≡ true }
    ensures view { Orderly P.PlaceKind.model nodes.old root → (j : ℕ) → place_in nodes.new j ≡ (if nat_eq j from.set then Some place else place_in nodes.old j) }
    ensures others { (j : ℕ) → place_in nodes.old j ≡ None → slice_get nodes.new j ≡ slice_get nodes.old j }
    ensures order { Orderly P.PlaceKind.model nodes.old root → Admitted P.PlaceKind.model place → Orderly P.PlaceKind.model nodes.new result × (row_in nodes.new result ≡ inserted P.PlaceKind.model (entry from.set place) (without from.set (row_in nodes.old root))) }
{
    let rest = leave(nodes, root, from);
    if place_of(nodes, from.set).is_some() {
        return rest;
    }
    enter(nodes, rest, Entry { place, ..from })
}
