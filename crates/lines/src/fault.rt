//! What a message is refused for, and what a line refuses.
ghost use Rattle.std.specs.Prelude.{◌≡◌, Some};
ghost use Rattle.refusals.specs.Words.{refusal_text};
ghost use Rattle.lines.specs.declared.fault.MessageFault.TheVariants.{Kind as OfKind};
ghost use Rattle.lines.specs.MessageFaults.{message_refusal, line_refusal};

use kinds::KindFault;
use refusals::{Fault, Part, Refusal};
use std::error::Error;
use std::fmt;

/// Why a message cannot be made.
#[derive(Clone, Copy, PartialEq, Eq, Debug)]
pub enum MessageFault {
    /// The text has no byte, or more than 30.
    Text,
    /// The kind's regions do not fit.
    Kind(KindFault),
}

impl From<KindFault> for MessageFault {
    ghost from_gives = { λ e r. r ≡ OfKind e };

    fn from(e: KindFault) -> MessageFault {
        MessageFault::Kind(e)
    }
}

impl From<MessageFault> for Refusal {
    ghost from_gives = { λ e r. r ≡ message_refusal e };

    fn from(fault: MessageFault) -> Refusal {
        match fault {
            MessageFault::Text => Refusal {
                number: 4,
                part: Part::Query,
            },
            MessageFault::Kind(e) => Refusal::from(e),
        }
    }
}

impl Fault for MessageFault {
    ghost means = { message_refusal };

    fn refusal(&self) -> Refusal {
        let message_fault = *self;
        message_fault.into()
    }
}

/// In print, a fault is its refusal.
impl fmt::Display for MessageFault {
    ghost output = { λ e. Some (refusal_text (message_refusal e)) };

    fn fmt<W: fmt::Write>(&self, f: &mut fmt::Formatter<W>) -> fmt::Result {
        let message_refusal = Refusal::from(*self);
        write!(f, "{message_refusal}")
    }
}

impl Error for MessageFault {}

/// Why a line refuses.
#[derive(Clone, Copy, PartialEq, Eq, Debug)]
pub enum LineFault {
    /// The message, or the caller's space, has not 64 bytes.
    Size = 9,
    /// Nothing is spare.
    Full = 26,
    /// Nothing waits.
    Empty = 29,
}

impl From<LineFault> for Refusal {
    ghost from_gives = { λ e r. r ≡ line_refusal e };

    fn from(fault: LineFault) -> Refusal {
        Refusal {
            number: fault as u8,
            part: Part::Line,
        }
    }
}

impl Fault for LineFault {
    ghost means = { line_refusal };

    fn refusal(&self) -> Refusal {
        let line_fault = *self;
        line_fault.into()
    }
}

/// In print, a fault is its refusal.
impl fmt::Display for LineFault {
    ghost output = { λ e. Some (refusal_text (line_refusal e)) };

    fn fmt<W: fmt::Write>(&self, f: &mut fmt::Formatter<W>) -> fmt::Result {
        let line_refusal = Refusal::from(*self);
        write!(f, "{line_refusal}")
    }
}

impl Error for LineFault {}
