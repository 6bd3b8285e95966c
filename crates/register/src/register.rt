//! The register and its calls.
ghost use Rattle.tree.specs.OneProof.{in_order_prop};
ghost use Rattle.tree.specs.View.{InOrder};
ghost use Rattle.std.specs.Prelude.{◌≡◌, ℕ, ◌-◌, ◌<◌, ◌≤◌, min, false, length, is_ok, Some, None, Ok};
ghost use Rattle.buckets.specs.Ends.{ends_of_rank};
ghost use Rattle.buckets.specs.Rows.{rank_of};
ghost use Rattle.std.specs.List.{slice_get};
ghost use Rattle.tree.specs.View as trees;
ghost use Rattle.register.specs.Answers.{numbered, if_true, asker_answer, enter_answer, leave_answer, move_answer, bucket_in, bucket_answer, changed};

use crate::bucket::Bucket;
use crate::fault::RegisterFault;
use buckets::{Ends, Entry, bucket_ends, bucket_laws, row_laws};
use kinds::PlaceKind;
use tree::{Node, RankedTree};

/// Who is present where, in a balanced tree on slots that are handed in. The tree is in order, whatever was called: its row is
/// sorted, its places are admitted, and its stored regions are the joins.
#[derive(Drop)]
pub struct Register<'a, P: PlaceKind> {
    tree: RankedTree<'a, P>,
    ghost order: { InOrder P.PlaceKind.model tree } by { in_order_prop P.PlaceKind.model P.Region.code tree },
}

impl<'a, P: PlaceKind> Register<'a, P> {
    ghost use Rattle.register.specs.View.{capacity_of, place_of, slot_count, slot, height_of, Kept, row_of, TreeRowRight};

    /// An empty register over the slots. Slots above 4,095, and slot 0, are neither used nor written.
    pub fn new(slots: &'a mut [Node<P, P::Region>]) -> Register<'a, P>
        ensures capacity { capacity_of result ≡ min (length slots.old) 4096 - 1 }
        ensures slots { slot_count result ≡ length slots.old }
        ensures empty { (j : ℕ) → place_of result j ≡ None }
        ensures untouched { (j : ℕ) → (0 < j → capacity_of result < j) → slot result j ≡ slice_get slots.old j }
    {
        Register {
            tree: RankedTree::new(slots),
        }
    }

    /// The highest set number.
    pub fn capacity(&self) -> u16
        ensures { result ≡ capacity_of self.now }
    {
        self.tree.capacity()
    }

    /// Where a set is present, if it is.
    pub fn place_of(&self, set: u16) -> Option<P>
        ensures { result ≡ place_of self.now set }
    {
        self.tree.place_of(set)
    }

    /// How high the tree stands: at most 16 levels.
    pub fn height(&self) -> u8
        ensures value { result ≡ height_of self.now }
        ensures most { result ≤ 16 }
    {
        self.tree.height()
    }

    // Refuses a number that no set has.
    fn check_number(&self, set: u16) -> Result<(), RegisterFault>
        ensures { result ≡ if_true (numbered (capacity_of self.now) set) RegisterFault.NoSuchSet (Ok tt) }
    {
        if (1..=self.capacity()).contains(&set) {
            Ok(())
        } else {
            Err(RegisterFault::NoSuchSet)
        }
    }

    /// Enters a set that is not present at a place.
    pub fn enter(&mut self, set: u16, place: P) -> Result<(), RegisterFault>
        ensures answer { result ≡ enter_answer P.PlaceKind.model (capacity_of self.old) (place_of self.old) set place }
        ensures after { (j : ℕ) → place_of self.new j ≡ changed result set (Some place) (place_of self.old) j }
        ensures kept { Kept self.old self.new }
        ensures refused { is_ok result ≡ false → self.new ≡ self.old }
    {
        self.check_number(set)?;
        place.check()?;
        if self.place_of(set).is_some() {
            return Err(RegisterFault::AlreadyPresent);
        }
        self.tree.enter(Entry { set, place });
        Ok(())
    }

    /// Takes a set out that is present.
    pub fn leave(&mut self, set: u16) -> Result<(), RegisterFault>
        ensures answer { result ≡ leave_answer (capacity_of self.old) (place_of self.old) set }
        ensures after { (j : ℕ) → place_of self.new j ≡ changed result set None (place_of self.old) j }
        ensures kept { Kept self.old self.new }
        ensures refused { is_ok result ≡ false → self.new ≡ self.old }
    {
        self.check_number(set)?;
        let place = self.place_of(set).ok_or(RegisterFault::NotPresent)?;
        self.tree.leave(Entry { set, place });
        Ok(())
    }

    /// Moves a set that is present to a place, which may be the one that it has.
    pub fn relocate(&mut self, set: u16, place: P) -> Result<(), RegisterFault>
        ensures answer { result ≡ move_answer P.PlaceKind.model (capacity_of self.old) (place_of self.old) set place }
        ensures after { (j : ℕ) → place_of self.new j ≡ changed result set (Some place) (place_of self.old) j }
        ensures kept { Kept self.old self.new }
        ensures refused { is_ok result ≡ false → self.new ≡ self.old }
    {
        self.check_number(set)?;
        place.check()?;
        let old = self.place_of(set).ok_or(RegisterFault::NotPresent)?;
        self.tree.relocate(Entry { set, place: old }, place);
        Ok(())
    }

    /// Refuses a number that no set has, and a size that no query may ask for.
    pub fn check_asker(&self, set: u16, size: u16) -> Result<(), RegisterFault>
        ensures { result ≡ asker_answer (capacity_of self.now) set size }
    {
        self.check_number(set)?;
        if !(2..=64).contains(&size) {
            return Err(RegisterFault::Size);
        }
        Ok(())
    }

    // The ends of the bucket, at a size, of a set that is present.
    fn ends_of(&self, entry: Entry<P>, size: u16) -> Option<Ends>
        requires there { place_of self.now entry.set ≡ Some entry.place }
        ensures value { result ≡ ends_of_rank (length (row_of P.PlaceKind.model self.now)) size (rank_of entry.set (row_of P.PlaceKind.model self.now)) }
        ensures within { elim result [ Some e ↦ (e.first ≤ e.last) × (e.last < length (trees.row_of self.now.tree)) | None ↦ Unit {0} ] }
    {
        self.tree.one_row();
        let present = self.tree.count();
        let rank = self.tree.rank_of(entry);
        bucket_ends(present, size, rank)
    }

    // The bucket, at a size, of a set that is present.
    fn bucket_at(&self, entry: Entry<P>, size: u16) -> Result<Bucket<P::Region>, RegisterFault>
        requires there { place_of self.now entry.set ≡ Some entry.place }
        requires size { 1 ≤ size }
        ensures { result ≡ bucket_in P.PlaceKind.model entry.set size (row_of P.PlaceKind.model self.now) }
    {
        bucket_laws();
        self.tree.one_row();
        let ends = self.ends_of(entry, size).ok_or(RegisterFault::TooFew)?;
        let region = self.tree.covers(ends);
        Ok(Bucket { ends, region })
    }

    /// The bucket, at a size, of a set that is present: its first and last rank in the row, and its region.
    pub fn bucket(&self, set: u16, size: u16) -> Result<Bucket<P::Region>, RegisterFault>
        ensures { result ≡ bucket_answer P.PlaceKind.model (capacity_of self.now) (place_of self.now) set size }
    {
        self.check_asker(set, size)?;
        let place = self.place_of(set).ok_or(RegisterFault::NotPresent)?;
        self.bucket_at(Entry { set, place }, size)
    }

    /// How many sets are present.
    pub fn count(&self) -> u16
        ensures { result ≡ length (row_of P.PlaceKind.model self.now) }
    {
        self.tree.one_row();
        self.tree.count()
    }

    /// The tree's row is the row of the sets that are present: it is sorted by place and then set number, and holds those, each at
    /// its place, and no others.
    pub fn row_of_present(&self)
        ensures { TreeRowRight P.PlaceKind.model self.now }
    {
        row_laws::<P>();
        self.tree.one_row();
    }
}
