//! What the open queries refuse.
ghost use Rattle.std.specs.Prelude.{◌≡◌, Some};
ghost use Rattle.refusals.specs.Words.{refusal_text};
ghost use Rattle.open_queries.specs.Calls.{open_refusal};

use refusals::{Fault, Part, Refusal};
use std::error::Error;
use std::fmt;

/// Why the open queries refuse.
#[derive(Clone, Copy, PartialEq, Eq, Debug)]
pub enum OpenFault {
    /// 64 queries stand.
    TooMany = 24,
    /// The last serial was given.
    LastSerial = 25,
    /// The serial is not that of an open query.
    NotOpen = 27,
    /// The handover's serial is not in hand here.
    NotInHand = 28,
}

impl From<OpenFault> for Refusal {
    ghost from_gives = { λ e r. r ≡ open_refusal e };

    fn from(fault: OpenFault) -> Refusal {
        Refusal {
            number: fault as u8,
            part: Part::Open,
        }
    }
}

impl Fault for OpenFault {
    ghost means = { open_refusal };

    fn refusal(&self) -> Refusal {
        (*self).into()
    }
}

/// In print, a fault is its refusal.
impl fmt::Display for OpenFault {
    ghost output = { λ e. Some (refusal_text (open_refusal e)) };

    fn fmt<W: fmt::Write>(&self, f: &mut fmt::Formatter<W>) -> fmt::Result {
        let refusal = Refusal::from(*self);
        write!(f, "{refusal}")
    }
}

impl Error for OpenFault {}
