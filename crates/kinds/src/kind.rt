//! What every kind of place has.
ghost use Rattle.std.specs.Prelude.{◌≡◌, Decides};
ghost use Rattle.kinds.specs.Rules.{Model, Laws, Within};
ghost use Rattle.kinds.specs.Faults.{checked, fitted, region_bytes};

use crate::fault::KindFault;
use std::cmp::Ordering;

/// How many bytes of a message a region may fill.
const ROOM: usize = 24;

/// A kind of place, implemented by its places. `model` says what it is, and `lawful` that it meets the rules; every
/// function answers what the model says, and changes nothing.
pub trait PlaceKind: Copy {
    type Region: Copy;

    ghost model: { Model Self Self.Region };

    /// Refuses a place that the kind does not admit.
    fn check(&self) -> Result<(), KindFault>
        ensures { result ≡ checked model self.now };

    fn compare(&self, other: &Self) -> Ordering
        ensures { result ≡ model.order self.now other.now };

    /// The region of this one place.
    fn region(&self) -> Self::Region
        ensures { result ≡ model.single self.now };

    fn join(a: Self::Region, b: Self::Region) -> Self::Region
        ensures { result ≡ model.joined a b };

    /// Whether region `a` lies within region `b`.
    fn within(a: Self::Region, b: Self::Region) -> bool
        ensures { Decides result (Within model a b) };

    /// How many bytes a region has.
    fn width() -> u8
        ensures { result ≡ model.width };

    /// Refuses a kind whose regions are too wide for a message.
    fn fits() -> Result<(), KindFault>
        ensures { result ≡ fitted model.width }
    {
        if Self::width() as usize > ROOM {
            return Err(KindFault::TooWide);
        }
        Ok(())
    }

    /// A region as a message holds it: its bytes, and zeros up to 24.
    fn bytes(region: Self::Region) -> Result<[u8; 24], KindFault>
        ensures { result ≡ region_bytes model region };

    ghost lawful: { Laws model };
}
