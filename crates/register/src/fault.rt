//! What the register refuses.
ghost use Rattle.std.specs.Prelude.{◌≡◌, Some};
ghost use Rattle.refusals.specs.Words.{refusal_text};
ghost use Rattle.register.specs.declared.fault.RegisterFault.TheVariants.{Kind as OfKind};
ghost use Rattle.register.specs.Faults.{register_refusal};

use kinds::KindFault;
use refusals::{Fault, Part, Refusal};
use std::error::Error;
use std::fmt;

/// Why the register refuses.
#[derive(Clone, Copy, PartialEq, Eq, Debug)]
pub enum RegisterFault {
    /// The set number is 0 or above the capacity.
    NoSuchSet,
    /// The kind refuses the place.
    Kind(KindFault),
    /// The size is below 2 or above 64.
    Size,
    /// The set is already present.
    AlreadyPresent,
    /// The set is not present.
    NotPresent,
    /// Fewer sets are present than the size asks.
    TooFew,
}

impl From<KindFault> for RegisterFault {
    ghost from_gives = { λ e r. r ≡ OfKind e };

    fn from(e: KindFault) -> RegisterFault {
        RegisterFault::Kind(e)
    }
}

impl From<RegisterFault> for Refusal {
    ghost from_gives = { λ e r. r ≡ register_refusal e };

    fn from(fault: RegisterFault) -> Refusal {
        let (number, part) = match fault {
            RegisterFault::Kind(e) => return Refusal::from(e),
            RegisterFault::NoSuchSet => (1, Part::Register),
            RegisterFault::Size => (3, Part::Query),
            RegisterFault::AlreadyPresent => (21, Part::Register),
            RegisterFault::NotPresent => (22, Part::Register),
            RegisterFault::TooFew => (23, Part::Register),
        };
        Refusal { number, part }
    }
}

impl Fault for RegisterFault {
    ghost means = { register_refusal };

    fn refusal(&self) -> Refusal {
        (*self).into()
    }
}

/// In print, a fault is its refusal.
impl fmt::Display for RegisterFault {
    ghost output = { λ e. Some (refusal_text (register_refusal e)) };

    fn fmt<W: fmt::Write>(&self, f: &mut fmt::Formatter<W>) -> fmt::Result {
        let refusal = Refusal::from(*self);
        write!(f, "{refusal}")
    }
}

impl Error for RegisterFault {}
