//! What a kind refuses.
ghost use Rattle.std.specs.Prelude.{◌≡◌, Some};
ghost use Rattle.refusals.specs.Words.{refusal_text};
ghost use Rattle.kinds.specs.Faults.{kind_refusal};

use refusals::{Fault, Part, Refusal};
use std::error::Error;
use std::fmt;

/// Why a kind refuses.
#[derive(Clone, Copy, PartialEq, Eq, Debug)]
pub enum KindFault {
    /// The kind does not admit the place.
    NotAdmitted = 2,
    /// The kind's regions have more bytes than a message has room for.
    TooWide = 5,
}

impl From<KindFault> for Refusal {
    ghost from_gives = { λ e r. r ≡ kind_refusal e };

    fn from(fault: KindFault) -> Refusal {
        Refusal {
            number: fault as u8,
            part: Part::Kind,
        }
    }
}

impl Fault for KindFault {
    ghost means = { kind_refusal };

    fn refusal(&self) -> Refusal {
        (*self).into()
    }
}

/// In print, a fault is its refusal.
impl fmt::Display for KindFault {
    ghost output = { λ e. Some (refusal_text (kind_refusal e)) };

    fn fmt<W: fmt::Write>(&self, f: &mut fmt::Formatter<W>) -> fmt::Result {
        let refusal = Refusal::from(*self);
        write!(f, "{refusal}")
    }
}

impl Error for KindFault {}
