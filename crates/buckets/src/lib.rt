//! The row of the present sets, a set's rank, its bucket, and the bucket's region: definitions and their laws.
#![tactic(auto)]

ghost use Rattle.std.specs.Prelude.{◌≡◌, ℕ, ◌/◌, ◌<◌, ◌≤◌, List, length, Some, None};
ghost use Rattle.buckets.specs.Ends.{bucket_number, ends_of, ends_of_rank, EndsLaws};
ghost use Rattle.buckets.specs.Regions.{MemberLaws, RegionLaws};
ghost use Rattle.buckets.specs.Rows.{OneEach, AheadLaws, RowLaws};

use kinds::PlaceKind;

/// The first and the last rank of a bucket.
#[derive(Clone, Copy, PartialEq, Eq, Debug)]
pub struct Ends {
    pub first: u16,
    pub last: u16,
}

/// A present set and its place.
#[derive(Clone, Copy, PartialEq, Eq, Debug)]
pub struct Entry<P> {
    pub set: u16,
    pub place: P,
}

/// Who stands first of two entries is a total order on entries at admitted places.
pub fn ahead_laws<P: PlaceKind>()
    ensures { AheadLaws P.PlaceKind.model }
{}

/// The row is sorted, holds exactly the present sets, and is the only such list.
pub fn row_laws<P: PlaceKind>()
    ensures { RowLaws P.PlaceKind.model }
{}

/// Every bucket has k to 2k − 1 members, and each rank is in its own bucket and in no other.
pub fn bucket_laws()
    ensures { (n k : ℕ) → 1 ≤ k → k ≤ n → EndsLaws n k }
{}

/// Every present set is a member of one bucket, its own.
pub fn member_laws<P: PlaceKind>()
    ensures { (k : ℕ) (es : List (Entry P)) → 1 ≤ k → k ≤ length es → OneEach es → MemberLaws k es }
{}

/// A bucket's region covers its members, and lies within every other region that does.
pub fn region_laws<P: PlaceKind>()
    ensures { RegionLaws P.PlaceKind.model }
{}

// Present sets, and a size for which there are enough.
#[derive(Clone, Copy)]
struct Split {
    present: u16,
    size: u16,
    ghost some: { 1 ≤ size },
    ghost enough: { size ≤ present },
}

impl Split {
    // How many buckets there are.
    fn count(self) -> u16
        ensures value { result ≡ self.present / self.size }
        ensures some { 1 ≤ result }
    {
        self.present / self.size
    }

    // The number of the bucket of a rank.
    fn number_of(self, rank: u16) -> u16
        ensures value { result ≡ bucket_number self.present self.size rank }
        ensures within { result < self.present / self.size }
    {
        (rank / self.size).min(self.count() - 1)
    }

    // The ends of the bucket of a number.
    fn ends(self, number: u16) -> Ends
        requires { number < self.present / self.size }
        ensures value { result ≡ ends_of self.present self.size number }
        ensures order { result.first ≤ result.last }
        ensures within { result.last < self.present }
    {
        let first = number * self.size;
        let last = if number == self.count() - 1 {
            self.present - 1
        } else {
            first + self.size - 1
        };
        Ends { first, last }
    }
}

/// The ends of the bucket of the set of rank `rank`, of `present` sets at size `size`; none where fewer sets are present than
/// the size asks, or none has that rank.
pub fn bucket_ends(present: u16, size: u16, rank: u16) -> Option<Ends>
    ensures value { result ≡ ends_of_rank present size rank }
    ensures within { elim result [ Some e ↦ (e.first ≤ e.last) × (e.last < present) | None ↦ Unit {0} ] }
{
    if size == 0 || present < size || rank >= present {
        return None;
    }
    let split = Split { present, size };
    Some(split.ends(split.number_of(rank)))
}
