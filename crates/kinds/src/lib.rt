//! Kinds of places: what every kind has, and three of them. The crates above are written once, for every kind.
#![tactic(auto)]

mod bytes;
mod course;
mod fault;
mod kind;
mod plane;
mod plane_place;
mod span;
mod water;

pub use course::{CoursePlace, CourseRegion};
pub use fault::KindFault;
pub use kind::PlaceKind;
pub use plane::{PlaneRegion, one_place_a_cell};
pub use plane_place::PlanePlace;
pub use span::Span;
pub use water::{WaterPlace, WaterRegion};
