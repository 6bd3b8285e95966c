//! The course.
ghost use Rattle.kinds.specs.Course.{course as course_model};
ghost use Rattle.kinds.specs.CourseLaws.{course_laws};

use crate::bytes::two_numbers_before;
use crate::fault::KindFault;
use crate::kind::PlaceKind;
use crate::span::Span;
use std::cmp::Ordering;

/// A place on the course: a reach, which is a numbered stretch of water, and an offset along it in decimetres.
#[derive(Clone, Copy, PartialEq, Eq, PartialOrd, Ord, Debug)]
pub struct CoursePlace {
    pub reach: u16,
    pub offset: u16,
}

/// All places from the lowest to the highest.
pub type CourseRegion = Span<CoursePlace>;

impl PlaceKind for CoursePlace {
    type Region = CourseRegion;

    ghost model = { course_model };

    ghost lawful = { course_laws };

    fn check(&self) -> Result<(), KindFault> {
        if (1..=999).contains(&self.reach) && self.offset <= 50_000 {
            Ok(())
        } else {
            Err(KindFault::NotAdmitted)
        }
    }

    fn compare(&self, other: &CoursePlace) -> Ordering {
        self.cmp(other)
    }

    fn region(&self) -> CourseRegion {
        Span::of(*self)
    }

    fn join(a: CourseRegion, b: CourseRegion) -> CourseRegion {
        a.join(b)
    }

    fn within(a: CourseRegion, b: CourseRegion) -> bool {
        a.within(b)
    }

    fn width() -> u8 {
        8
    }

    fn bytes(region: CourseRegion) -> Result<[u8; 24], KindFault> {
        let CourseRegion { low, high } = region;
        let highest = two_numbers_before(high.reach, high.offset, [0; 24]);
        Ok(two_numbers_before(low.reach, low.offset, highest))
    }
}
