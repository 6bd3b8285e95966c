//! What the calls refuse.
ghost use Rattle.std.specs.Prelude.{◌≡◌, Some};
ghost use Rattle.refusals.specs.Words.{refusal_text};
ghost use Rattle.lines.specs.declared.fault.MessageFault.TheVariants.{Kind as OfKind};
ghost use Rattle.calls.specs.declared.fault.CallFault.TheVariants.{Register as OfRegister, Message as OfMessage, Open as OfOpen, Line as OfLine};
ghost use Rattle.calls.specs.Faults.{call_refusal};

use kinds::KindFault;
use lines::{LineFault, MessageFault};
use open_queries::OpenFault;
use refusals::{Fault, Refusal};
use register::RegisterFault;
use std::error::Error;
use std::fmt;

/// Why a call is refused, by the part that refuses it.
#[derive(Clone, Copy, PartialEq, Eq, Debug)]
pub enum CallFault {
    Register(RegisterFault),
    Message(MessageFault),
    Open(OpenFault),
    Line(LineFault),
}

impl From<RegisterFault> for CallFault {
    ghost from_gives = { λ e r. r ≡ OfRegister e };

    fn from(e: RegisterFault) -> CallFault {
        CallFault::Register(e)
    }
}

impl From<MessageFault> for CallFault {
    ghost from_gives = { λ e r. r ≡ OfMessage e };

    fn from(e: MessageFault) -> CallFault {
        CallFault::Message(e)
    }
}

impl From<KindFault> for CallFault {
    ghost from_gives = { λ e r. r ≡ OfMessage (OfKind e) };

    fn from(e: KindFault) -> CallFault {
        CallFault::Message(MessageFault::Kind(e))
    }
}

impl From<OpenFault> for CallFault {
    ghost from_gives = { λ e r. r ≡ OfOpen e };

    fn from(e: OpenFault) -> CallFault {
        CallFault::Open(e)
    }
}

impl From<LineFault> for CallFault {
    ghost from_gives = { λ e r. r ≡ OfLine e };

    fn from(e: LineFault) -> CallFault {
        CallFault::Line(e)
    }
}

impl From<CallFault> for Refusal {
    ghost from_gives = { λ e r. r ≡ call_refusal e };

    fn from(fault: CallFault) -> Refusal {
        match fault {
            CallFault::Register(e) => Refusal::from(e),
            CallFault::Message(e) => Refusal::from(e),
            CallFault::Open(e) => Refusal::from(e),
            CallFault::Line(e) => Refusal::from(e),
        }
    }
}

impl Fault for CallFault {
    ghost means = { call_refusal };

    fn refusal(&self) -> Refusal {
        (*self).into()
    }
}

/// In print, a fault is its refusal.
impl fmt::Display for CallFault {
    ghost output = { λ e. Some (refusal_text (call_refusal e)) };

    fn fmt<W: fmt::Write>(&self, f: &mut fmt::Formatter<W>) -> fmt::Result {
        let refusal = Refusal::from(*self);
        write!(f, "{refusal}")
    }
}

impl Error for CallFault {}
