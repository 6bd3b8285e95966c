//! The kinds in use, from their contracts alone.
#![tactic(auto)]

ghost use Rattle.std.specs.Prelude.{◌≡◌, ◌≤◌, replicate, Ok, Err};
ghost use Rattle.kinds.specs.declared.fault.KindFault.TheVariants.{TooWide};
ghost use Rattle.kinds.specs.Bytes.{le16};
ghost use Rattle.kinds.specs.Faults.{region_bytes};

use kinds::{CoursePlace, KindFault, PlaceKind, PlanePlace, WaterPlace};

type TwoWaters = WaterPlace<WaterPlace<PlanePlace>>;

type FourWaters = WaterPlace<WaterPlace<TwoWaters>>;

/// One cell on one water: 12 bytes, and 12 zeros.
pub fn cell_on_a_water(water: u16, x: u16, y: u16) -> Result<[u8; 24], KindFault>
    ensures { result ≡ Ok (le16 water (le16 water (le16 x (le16 x (le16 y (le16 y (replicate 12 0))))))) }
{
    let below = PlanePlace::new(x, y);
    let place = WaterPlace { water, below };
    WaterPlace::<PlanePlace>::bytes(place.region())
}

/// One cell on two waters: 16 bytes, and 8 zeros.
pub fn cell_on_two_waters(outer: u16, inner: u16, x: u16, y: u16) -> Result<[u8; 24], KindFault>
    ensures { result ≡ Ok (le16 outer (le16 outer (le16 inner (le16 inner (le16 x (le16 x (le16 y (le16 y (replicate 8 0))))))))) }
{
    let below = WaterPlace {
        water: inner,
        below: PlanePlace::new(x, y),
    };
    let place = WaterPlace {
        water: outer,
        below,
    };
    TwoWaters::bytes(place.region())
}

/// One place on the course of a water.
pub fn place_on_a_course(water: u16, reach: u16, offset: u16) -> Result<[u8; 24], KindFault>
    ensures { result ≡ Ok (le16 water (le16 water (le16 reach (le16 offset (le16 reach (le16 offset (replicate 12 0))))))) }
{
    let below = CoursePlace { reach, offset };
    let place = WaterPlace { water, below };
    WaterPlace::<CoursePlace>::bytes(place.region())
}

/// The plane under four waters has regions of 24 bytes.
pub fn four_waters() -> Result<(), KindFault>
    ensures { result ≡ Ok tt }
{
    FourWaters::fits()
}

/// Under five waters they are too wide.
pub fn five_waters() -> Result<(), KindFault>
    ensures { result ≡ Err TooWide }
{
    WaterPlace::<FourWaters>::fits()
}

/// In every kind whose regions fit a message, regions with equal bytes there are equal.
pub fn equal_bytes_equal_regions<P: PlaceKind>(a: P::Region, b: P::Region)
    ensures { P.PlaceKind.model.width ≤ 24 → region_bytes P.PlaceKind.model a ≡ region_bytes P.PlaceKind.model b → a ≡ b }
{}

#[cfg(test)]
mod tests {
    use super::*;

    const NOT_ADMITTED: Result<(), KindFault> = Err(KindFault::NotAdmitted);

    #[test]
    fn edges_of_the_plane(rt: HostRuntime) {
        assert_eq!(rt; PlanePlace::new(4095, 4095).check(), Ok(()));
        assert_eq!(rt; PlanePlace::new(4096, 0).check(), NOT_ADMITTED);
        assert_eq!(rt; PlanePlace::new(0, 4096).check(), NOT_ADMITTED);
    }

    #[test]
    fn edges_of_the_course(rt: HostRuntime) {
        assert_eq!(rt;
            CoursePlace {
                reach: 1,
                offset: 0,
            }
            .check(),
            Ok(())
        );
        assert_eq!(rt;
            CoursePlace {
                reach: 999,
                offset: 50_000,
            }
            .check(),
            Ok(())
        );
        assert_eq!(rt;
            CoursePlace {
                reach: 0,
                offset: 0,
            }
            .check(),
            NOT_ADMITTED
        );
        assert_eq!(rt;
            CoursePlace {
                reach: 1000,
                offset: 0,
            }
            .check(),
            NOT_ADMITTED
        );
        assert_eq!(rt;
            CoursePlace {
                reach: 1,
                offset: 50_001,
            }
            .check(),
            NOT_ADMITTED
        );
    }

    #[test]
    fn waters_order_first(rt: HostRuntime) {
        let low = WaterPlace {
            water: 1,
            below: PlanePlace::new(4095, 0),
        };
        let high = WaterPlace {
            water: 2,
            below: PlanePlace::new(0, 0),
        };
        assert!(rt; low.compare(&high).is_lt());
        assert!(rt; high.compare(&low).is_gt());
        assert!(rt; high.compare(&high).is_eq());
    }
}
