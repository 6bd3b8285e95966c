//! Places by water.
ghost use Rattle.std.specs.Prelude.{◌≡◌, ◌≤◌, Ok};
ghost use Rattle.kinds.specs.Faults.{region_bytes};
ghost use Rattle.kinds.specs.Water.{by_water};
ghost use Rattle.kinds.specs.WaterLaws.{water_laws};

use crate::bytes::two_numbers_before;
use crate::fault::KindFault;
use crate::kind::PlaceKind;
use crate::span::Span;
use std::cmp::Ordering;

/// A water number, and a place of the kind below.
#[derive(Clone, Copy, PartialEq, Eq, Debug)]
pub struct WaterPlace<P> {
    pub water: u16,
    pub below: P,
}

/// All waters from the lowest number to the highest, and a region of the kind below.
#[derive(Clone, Copy, PartialEq, Eq, Debug)]
pub struct WaterRegion<R> {
    pub water: Span<u16>,
    pub below: R,
}

// The bytes of a region by water, from those of the region below, which leave room for the two water numbers.
fn before_water<P: PlaceKind>(region: WaterRegion<P::Region>, bytes: [u8; 24]) -> [u8; 24]
    requires narrow { P.PlaceKind.model.width ≤ 20 }
    requires below { Ok bytes ≡ region_bytes P.PlaceKind.model region.below }
    ensures { Ok result ≡ region_bytes (by_water P.PlaceKind.model) region }
{
    two_numbers_before(region.water.low, region.water.high, bytes)
}

impl<P: PlaceKind> PlaceKind for WaterPlace<P> {
    type Region = WaterRegion<P::Region>;

    ghost model = { by_water P.PlaceKind.model };

    ghost lawful = { water_laws P.PlaceKind.lawful };

    fn check(&self) -> Result<(), KindFault> {
        self.below.check()
    }

    fn compare(&self, other: &WaterPlace<P>) -> Ordering {
        if self.water == other.water {
            self.below.compare(&other.below)
        } else {
            self.water.cmp(&other.water)
        }
    }

    fn region(&self) -> WaterRegion<P::Region> {
        WaterRegion {
            water: Span::of(self.water),
            below: self.below.region(),
        }
    }

    fn join(a: WaterRegion<P::Region>, b: WaterRegion<P::Region>) -> WaterRegion<P::Region> {
        WaterRegion {
            water: a.water.join(b.water),
            below: P::join(a.below, b.below),
        }
    }

    fn within(a: WaterRegion<P::Region>, b: WaterRegion<P::Region>) -> bool {
        a.water.within(b.water) && P::within(a.below, b.below)
    }

    fn width() -> u8 {
        P::width().saturating_add(4)
    }

    fn bytes(region: WaterRegion<P::Region>) -> Result<[u8; 24], KindFault> {
        Self::fits()?;
        let below = P::bytes(region.below)?;
        Ok(before_water::<P>(region, below))
    }
}
