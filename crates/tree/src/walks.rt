//! Ways down a tree: ranks, and joins over a run of ranks.
ghost use Rattle.std.specs.Prelude.{◌≡◌, ◌<◌, ◌≤◌, List, ◌∷◌, take, drop};
ghost use Rattle.buckets.specs.Regions.{joined_with, region_of};
ghost use Rattle.tree.specs.Slots.{at, count_of};
ghost use Rattle.tree.specs.Tree.{Tree, row_of, Joined};
ghost use Rattle.tree.specs.Shapes.{ranked};
ghost use Rattle.tree.specs.Contracted.{Treed, TreeAt};

use crate::changes::stands_ahead;
use crate::node::Node;
use crate::slots::{branch_at, count_at, joined_at};
use buckets::Entry;
use kinds::PlaceKind;

// How many entries of the tree at `root` come before this one.
pub(crate) fn rank<P: PlaceKind>(nodes: &[Node<P, P::Region>], root: u16, entry: Entry<P>) -> u16
    requires { Treed nodes.now root }
    ensures { (t : Tree P P.Region) → TreeAt nodes.now root t → result ≡ ranked P.PlaceKind.model entry.place entry.set t }
{
    let mut slot = root;
    let mut before = 0;
    while slot != 0 {
        let here = branch_at(nodes, slot);
        let lower = count_at(nodes, here.left);
        if entry.set == slot {
            return before + lower;
        }
        if stands_ahead(entry, here.entry) {
            slot = here.left;
        } else {
            before = before + lower + 1;
            slot = here.right;
        }
    }
    before
}

// `base` joined with all regions from rank `first` on.
pub(crate) fn suffix<P: PlaceKind>(
    nodes: &[Node<P, P::Region>],
    root: u16,
    base: P::Region,
    first: u16,
) -> P::Region
    requires { Treed nodes.now root }
    ensures { (t : Tree P P.Region) → TreeAt nodes.now root t → Joined P.PlaceKind.model t → result ≡ joined_with P.PlaceKind.model base (drop first (row_of t)) }
{
    let mut slot = root;
    let mut joined = base;
    let mut skip = first;
    while slot != 0 {
        let here = branch_at(nodes, slot);
        let lower = count_at(nodes, here.left);
        if skip > lower {
            skip = skip - lower - 1;
            slot = here.right;
        } else {
            let own = P::join(joined, here.entry.place.region());
            joined = joined_at(nodes, own, here.right);
            slot = here.left;
        }
    }
    joined
}

// `base` joined with all regions below rank `end`.
pub(crate) fn prefix<P: PlaceKind>(
    nodes: &[Node<P, P::Region>],
    root: u16,
    base: P::Region,
    end: u16,
) -> P::Region
    requires { Treed nodes.now root }
    ensures { (t : Tree P P.Region) → TreeAt nodes.now root t → Joined P.PlaceKind.model t → result ≡ joined_with P.PlaceKind.model base (take end (row_of t)) }
{
    let mut slot = root;
    let mut joined = base;
    let mut keep = end;
    while slot != 0 {
        let here = branch_at(nodes, slot);
        let lower = count_at(nodes, here.left);
        if keep <= lower {
            slot = here.left;
        } else {
            let own = P::join(joined, here.entry.place.region());
            joined = joined_at(nodes, own, here.left);
            keep = keep - lower - 1;
            slot = here.right;
        }
    }
    joined
}

// The join of the regions of ranks `first` to `end`, without `end`.
pub(crate) fn between<P: PlaceKind>(
    nodes: &[Node<P, P::Region>],
    root: u16,
    first: u16,
    end: u16,
) -> P::Region
    requires treed { Treed nodes.now root }
    requires range { (first < end) × (end ≤ count_of (at nodes.now root)) }
    ensures { (t : Tree P P.Region) → TreeAt nodes.now root t → Joined P.PlaceKind.model t → (e : Entry P) (es : List (Entry P)) → drop first (take end (row_of t)) ≡ e ∷ es → result ≡ region_of P.PlaceKind.model e es }
{
    let mut slot = root;
    let mut skip = first;
    let mut keep = end;
    loop {
        let here = branch_at(nodes, slot);
        let lower = count_at(nodes, here.left);
        if keep <= lower {
            slot = here.left;
        } else if skip > lower {
            skip = skip - lower - 1;
            keep = keep - lower - 1;
            slot = here.right;
        } else {
            let low = suffix(nodes, here.left, here.entry.place.region(), skip);
            return prefix(nodes, here.right, low, keep - lower - 1);
        }
    }
}
