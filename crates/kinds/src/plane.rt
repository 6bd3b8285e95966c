//! The region of the plane, and that places at one cell are one place.
ghost use Rattle.std.specs.Prelude.{◌≡◌};
ghost use Rattle.kinds.specs.Plane.{cell_of_place};

use crate::plane_place::PlanePlace;
use crate::span::Span;

/// Places at one cell are one place.
pub fn one_place_a_cell()
    ensures { (a b : PlanePlace) → cell_of_place a ≡ cell_of_place b → a ≡ b }
{}

/// A rectangle of cells: all x and all y from the lowest to the highest.
#[derive(Clone, Copy, PartialEq, Eq, Debug)]
pub struct PlaneRegion {
    pub x: Span<u16>,
    pub y: Span<u16>,
}
