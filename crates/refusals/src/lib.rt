//! What every refusal has: a number, and the part of the device that gave it.
#![tactic(auto)]

ghost use Rattle.std.specs.Prelude.{◌≡◌, Some};
ghost use Rattle.refusals.specs.declared.Refusal.{Refusal};
ghost use Rattle.refusals.specs.Words.{word, refusal_text};

use std::fmt;

/// The parts of the device that refuse.
#[derive(Clone, Copy, PartialEq, Eq, Debug)]
pub enum Part {
    Register,
    Kind,
    Query,
    Open,
    Line,
    Feed,
}

impl fmt::Display for Part {
    ghost output = { λ p. Some (word p) };

    fn fmt<W: fmt::Write>(&self, f: &mut fmt::Formatter<W>) -> fmt::Result {
        match self {
            Part::Register => write!(f, "register"),
            Part::Kind => write!(f, "kind"),
            Part::Query => write!(f, "query"),
            Part::Open => write!(f, "open"),
            Part::Line => write!(f, "line"),
            Part::Feed => write!(f, "feed"),
        }
    }
}

/// A refusal as it is told: its number and the part that gave it. The error enum of a part turns into it by `From`, and
/// prints it.
#[derive(Clone, Copy, PartialEq, Eq, Debug)]
pub struct Refusal {
    pub number: u8,
    pub part: Part,
}

impl fmt::Display for Refusal {
    ghost output = { λ r. Some (refusal_text r) };

    fn fmt<W: fmt::Write>(&self, f: &mut fmt::Formatter<W>) -> fmt::Result {
        let Refusal { number, part } = *self;
        write!(f, "{number} {part}")
    }
}

/// A fault of one part. `means` gives, case by case, the refusal that it stands for, so that code over any fault has its
/// refusal as a function of it; `From` relates the two in each enum alone.
pub trait Fault {
    ghost means: { Self → Refusal };

    fn refusal(&self) -> Refusal
        ensures { result ≡ means self.now };
}
