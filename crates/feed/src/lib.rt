//! The feed: reading its records, and the lines that are printed for them.
#![tactic(auto)]

ghost use Rattle.std.specs.Prelude.{◌≡◌, IfOk, Some, string_bytes};
ghost use Rattle.refusals.specs.Words.{refusal_text};
ghost use Rattle.feed.specs.Heading.{read_refusal, named, heading_of};
ghost use Rattle.feed.specs.Text.{stop_text, heading_text};

use refusals::{Fault, Part, Refusal};
use std::alloc::{AllocError, Global};
use std::error::Error;
use std::fmt;

/// What the heading says: which kind of place the later records hold.
#[derive(Clone, Copy, PartialEq, Eq, Debug)]
pub enum Heading {
    Plane,
    Course,
    PlaneByWater,
    CourseByWater,
}

/// The place kind that a heading names by its number.
impl TryFrom<u16> for Heading {
    type Error = ReadFault;

    ghost try_from_gives = { λ number r. r ≡ named number };

    fn try_from(number: u16) -> Result<Self, ReadFault> {
        match number {
            1 => Ok(Heading::Plane),
            2 => Ok(Heading::Course),
            3 => Ok(Heading::PlaneByWater),
            4 => Ok(Heading::CourseByWater),
            _ => Err(ReadFault::NoPlaceKind),
        }
    }
}

/// Why a record cannot be read; each stops the feed.
#[derive(Clone, Copy, PartialEq, Eq, Debug)]
pub enum ReadFault {
    /// Under 2 bytes are left, or the length is below 4 or beyond them.
    Cut = 6,
    /// The first record is no heading.
    WrongKind = 7,
    /// The record's length is not that of its kind.
    WrongLength = 8,
    /// The heading names no place kind.
    NoPlaceKind = 10,
}

impl From<ReadFault> for Refusal {
    ghost from_gives = { λ e r. r ≡ read_refusal e };

    fn from(fault: ReadFault) -> Refusal {
        Refusal {
            number: fault as u8,
            part: Part::Feed,
        }
    }
}

impl Fault for ReadFault {
    ghost means = { read_refusal };

    fn refusal(&self) -> Refusal {
        (*self).into()
    }
}

/// In print, a fault is its refusal.
impl fmt::Display for ReadFault {
    ghost output = { λ e. Some (refusal_text (read_refusal e)) };

    fn fmt<W: fmt::Write>(&self, f: &mut fmt::Formatter<W>) -> fmt::Result {
        let refusal = Refusal::from(*self);
        write!(f, "{refusal}")
    }
}

impl Error for ReadFault {}

/// Where and why a feed stops: the record's number from 0, the byte at which it begins, and its fault.
#[derive(Clone, Copy, PartialEq, Eq, Debug)]
pub struct Stop {
    pub number: u32,
    pub offset: u32,
    pub fault: ReadFault,
}

impl fmt::Display for Stop {
    ghost output = { λ s. Some (stop_text s) };

    fn fmt<W: fmt::Write>(&self, f: &mut fmt::Formatter<W>) -> fmt::Result {
        let Stop {
            number,
            offset,
            fault,
        } = *self;
        write!(f, "{number} fault {fault} at {offset}")
    }
}

/// The heading with which the bytes begin.
pub fn read_heading(bytes: &[u8]) -> Result<Heading, ReadFault>
    ensures { result ≡ heading_of bytes.now }
{
    let [length_low, length_high, kind_low, kind_high, rest @ ..] = bytes else {
        return Err(ReadFault::Cut);
    };
    let length = usize::from(u16::from_le_bytes([*length_low, *length_high]));
    if length < 4 || bytes.len() < length {
        return Err(ReadFault::Cut);
    }
    if u16::from_le_bytes([*kind_low, *kind_high]) != 0 {
        return Err(ReadFault::WrongKind);
    }
    let [low, high] = &rest[..length - 4] else {
        return Err(ReadFault::WrongLength);
    };
    Heading::try_from(u16::from_le_bytes([*low, *high]))
}

/// The line that is printed for the first record of a feed.
pub fn heading_line(heap: Global, bytes: &[u8]) -> Result<String, AllocError>
    ensures { IfOk result (λ s. string_bytes s ≡ heading_text (heading_of bytes.now)) }
{
    let number = 0;
    match read_heading(bytes) {
        Ok(_) => format!(in heap; "{number} ok"),
        Err(fault) => {
            let stop = Stop {
                number,
                offset: 0,
                fault,
            };
            format!(in heap; "{stop}")
        }
    }
}
