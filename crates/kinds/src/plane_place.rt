//! A place on the plane. Its impl names what it cites inside: the ghost fields may not depend on what cites the struct.
ghost use Rattle.std.specs.Prelude.{◌≡◌, true};
ghost use Rattle.curve.specs.Hilbert.{cell as cell_xy};
ghost use Rattle.kinds.specs.Keyed.{carried, leads_back};

use crate::bytes::two_numbers_before;
use crate::fault::KindFault;
use crate::kind::PlaceKind;
use crate::plane::PlaneRegion;
use crate::span::Span;
use curve::Cell;
use std::cmp::Ordering;

/// A place on the plane: a cell, with its key, so that comparing two places compares two numbers. A cell outside the grid
/// has no key; `curve::KEYS` stands there in its place.
#[derive(Clone, Copy)]
pub struct PlanePlace {
    cell: Cell,
    key: u32,
    ghost keyed: { key ≡ carried cell },
    ghost back: { leads_back key cell ≡ true },
}

// The number that a place at a cell carries.
fn key_to_carry(cell: Cell) -> u32
    ensures value { result ≡ carried cell }
    ensures back { leads_back result cell ≡ true }
{
    curve::key_of(cell).unwrap_or(curve::KEYS)
}

impl PlanePlace {
    /// The place at a cell.
    pub fn new(x: u16, y: u16) -> PlanePlace
        ensures { result.cell ≡ cell_xy x y }
    {
        let cell = Cell { x, y };
        let key = key_to_carry(cell);
        PlanePlace { cell, key }
    }

    pub fn x(&self) -> u16
        ensures { result ≡ self.now.cell.x }
    {
        self.cell.x
    }

    pub fn y(&self) -> u16
        ensures { result ≡ self.now.cell.y }
    {
        self.cell.y
    }
}

impl PlaceKind for PlanePlace {
    ghost use Rattle.kinds.specs.Plane.{plane as plane_model};
    ghost use Rattle.kinds.specs.PlaneLaws.{plane_laws};

    type Region = PlaneRegion;

    ghost model = { plane_model };

    ghost lawful = { plane_laws };

    fn check(&self) -> Result<(), KindFault> {
        if self.x() < curve::SIDE && self.y() < curve::SIDE {
            Ok(())
        } else {
            Err(KindFault::NotAdmitted)
        }
    }

    fn compare(&self, other: &PlanePlace) -> Ordering {
        self.key.cmp(&other.key)
    }

    fn region(&self) -> PlaneRegion {
        PlaneRegion {
            x: Span::of(self.x()),
            y: Span::of(self.y()),
        }
    }

    fn join(a: PlaneRegion, b: PlaneRegion) -> PlaneRegion {
        PlaneRegion {
            x: a.x.join(b.x),
            y: a.y.join(b.y),
        }
    }

    fn within(a: PlaneRegion, b: PlaneRegion) -> bool {
        a.x.within(b.x) && a.y.within(b.y)
    }

    fn width() -> u8 {
        8
    }

    fn bytes(region: PlaneRegion) -> Result<[u8; 24], KindFault> {
        let PlaneRegion { x, y } = region;
        let y = two_numbers_before(y.low, y.high, [0; 24]);
        Ok(two_numbers_before(x.low, x.high, y))
    }
}
