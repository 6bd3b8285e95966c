//! The tree over its slots, as the register uses it.
ghost use Rattle.std.specs.Prelude.{◌≡◌, true, ℕ, ◌<◌, ◌≤◌, List, [], ◌∷◌, length, if◌then◌else◌, Some, None, nat_eq};
ghost use Rattle.tree.specs.Whole.{shaped, capacity};
ghost use Rattle.std.specs.List.{slice_get};
ghost use Rattle.kinds.specs.Rules.{Admitted};
ghost use Rattle.buckets.specs.Rows.{entry, inserted, rank_of, row};
ghost use Rattle.buckets.specs.Regions.{members, region_of};
ghost use Rattle.tree.specs.Rows.{without, find, often};

use crate::node::Node;
use crate::reading::{count, covers, height, one_row, rank_of};
use crate::slots::{capacity, place_of};
use crate::writing::{clear_all, enter, leave, relocate};
use buckets::{Ends, Entry};
use kinds::PlaceKind;

/// A balanced tree of entries over lent slots: its root, and the slots, in which each slot in use stands once in the tree.
#[derive(Drop)]
pub struct RankedTree<'a, P: PlaceKind> {
    pub slots: &'a mut [Node<P, P::Region>],
    pub root: u16,
    pub ghost shape: { shaped slots.now root ≡ true },
}

impl<'a, P: PlaceKind> RankedTree<'a, P> {
    ghost use Rattle.tree.specs.View.{capacity_of, place_of, row_of, height_of, slot_count, slot, InOrder};

    /// A tree with no entry over the slots: slots 1 to the capacity are marked as not in use.
    pub fn new(slots: &'a mut [Node<P, P::Region>]) -> RankedTree<'a, P>
        ensures slots { slot_count result ≡ length slots.old }
        ensures view { (j : ℕ) → place_of result j ≡ None }
        ensures others { (j : ℕ) → (0 < j → capacity slots.old < j) → slot result j ≡ slice_get slots.old j }
        ensures order { InOrder P.PlaceKind.model result }
        ensures empty { row_of result ≡ [] }
    {
        clear_all(slots);
        RankedTree { slots, root: 0 }
    }

    /// The highest set number that the slots have room for.
    pub fn capacity(&self) -> u16
        ensures { result ≡ capacity_of self.now }
    {
        capacity(self.slots)
    }

    /// Where the set `set` is present, if it is.
    pub fn place_of(&self, set: u16) -> Option<P>
        ensures { result ≡ place_of self.now set }
    {
        place_of(self.slots, set)
    }

    /// Enters a set that is not present at a place.
    pub fn enter(&mut self, entry: Entry<P>)
        requires room { (0 < entry.set) × (entry.set ≤ capacity_of self.old) }
        requires absent { place_of self.old entry.set ≡ None }
        ensures slots { slot_count self.new ≡ slot_count self.old }
        ensures view { (j : ℕ) → place_of self.new j ≡ (if nat_eq j entry.set then Some entry.place else place_of self.old j) }
        ensures others { (j : ℕ) → place_of self.new j ≡ None → slot self.new j ≡ slot self.old j }
        ensures order { InOrder P.PlaceKind.model self.old → Admitted P.PlaceKind.model entry.place → InOrder P.PlaceKind.model self.new × (row_of self.new ≡ inserted P.PlaceKind.model entry (row_of self.old)) }
    {
        self.root = enter(self.slots, self.root, entry);
    }

    /// Takes the entry of a set that is present out.
    pub fn leave(&mut self, entry: Entry<P>)
        requires there { place_of self.old entry.set ≡ Some entry.place }
        ensures slots { slot_count self.new ≡ slot_count self.old }
        ensures view { InOrder P.PlaceKind.model self.old → (j : ℕ) → place_of self.new j ≡ (if nat_eq j entry.set then None else place_of self.old j) }
        ensures others { (j : ℕ) → place_of self.old j ≡ None → slot self.new j ≡ slot self.old j }
        ensures order { InOrder P.PlaceKind.model self.old → InOrder P.PlaceKind.model self.new × (row_of self.new ≡ without entry.set (row_of self.old)) }
    {
        self.root = leave(self.slots, self.root, entry);
    }

    /// Moves a set that is present to a place.
    pub fn relocate(&mut self, from: Entry<P>, place: P)
        requires there { place_of self.old from.set ≡ Some from.place }
        ensures slots { slot_count self.new ≡ slot_count self.old }
        ensures view { InOrder P.PlaceKind.model self.old → (j : ℕ) → place_of self.new j ≡ (if nat_eq j from.set then Some place else place_of self.old j) }
        ensures others { (j : ℕ) → place_of self.old j ≡ None → slot self.new j ≡ slot self.old j }
        ensures order { InOrder P.PlaceKind.model self.old → Admitted P.PlaceKind.model place → InOrder P.PlaceKind.model self.new × (row_of self.new ≡ inserted P.PlaceKind.model (entry from.set place) (without from.set (row_of self.old))) }
    {
        self.root = relocate(self.slots, self.root, from, place);
    }

    /// How many sets are present.
    pub fn count(&self) -> u16
        ensures many { result ≡ length (row_of self.now) }
        ensures most { result ≤ 4095 }
        ensures row { (j : ℕ) → (find j (row_of self.now) ≡ place_of self.now j) × (often j (row_of self.now) ≤ 1) }
    {
        count(self.slots, self.root)
    }

    /// How many sets stand before one that is present.
    pub fn rank_of(&self, entry: Entry<P>) -> u16
        requires there { place_of self.now entry.set ≡ Some entry.place }
        ensures low { result ≤ length (row_of self.now) }
        ensures rank { InOrder P.PlaceKind.model self.now → result ≡ rank_of entry.set (row_of self.now) }
    {
        rank_of(self.slots, self.root, entry)
    }

    /// The join of the regions of the entries from one rank to another.
    pub fn covers(&self, ends: Ends) -> P::Region
        requires range { (ends.first ≤ ends.last) × (ends.last < length (row_of self.now)) }
        ensures { InOrder P.PlaceKind.model self.now → (e : Entry P) (es : List (Entry P)) → members ends (row_of self.now) ≡ e ∷ es → result ≡ region_of P.PlaceKind.model e es }
    {
        covers(self.slots, self.root, ends)
    }

    /// How high the tree stands: at most 16 levels.
    pub fn height(&self) -> u8
        ensures value { result ≡ height_of self.now }
        ensures most { result ≤ 16 }
    {
        height(self.slots, self.root)
    }

    /// The tree's row holds each set at its place and no set twice, and is the row of the present sets, where the tree is in order.
    pub fn one_row(&self)
        ensures row { (j : ℕ) → (find j (row_of self.now) ≡ place_of self.now j) × (often j (row_of self.now) ≤ 1) }
        ensures one { InOrder P.PlaceKind.model self.now → row_of self.now ≡ row P.PlaceKind.model (place_of self.now) (capacity_of self.now) }
    {
        one_row(self.slots, self.root);
    }
}
