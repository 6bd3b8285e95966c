//! A line over bytes that are handed to it.
ghost use Rattle.std.specs.Prelude.{◌≡◌, ℕ, ◌<◌, ◌≤◌, [], length, slice_index_or};

use crate::fault::LineFault;
use crate::line::{Line, SIZE};

/// A line that keeps its messages in bytes handed to it, in a ring of slots of 64 bytes: none is moved, and freed slots
/// serve again. Its calls write only in these bytes and never change how many there are; the bytes outside waiting messages
/// may hold anything.
#[derive(Drop)]
pub struct Spool<'a> {
    slots: &'a mut [[u8; SIZE]],
    first: usize,
    count: usize,
    ghost most: { length slots.now ≤ 1024 },
    ghost filled: { count ≤ length slots.now },
    ghost within: { (0 < length slots.now → first < length slots.now) },
    ghost whole: { ((i : ℕ) → i < length slots.now → length (slice_index_or slots.now i []) ≡ 64) },
}

impl<'a> Spool<'a> {
    ghost use Rattle.lines.specs.Spool.{spool_waiting, spool_capacity, slots_in};

    /// A spool in which nothing waits, with a slot for each 64 bytes, at most 1,024.
    pub fn new(bytes: &'a mut [u8]) -> Spool<'a>
        ensures empty { spool_waiting result ≡ [] }
        ensures capacity { spool_capacity result ≡ slots_in (length bytes.old) }
    {
        let (slots, _) = bytes.as_chunks_mut::<SIZE>();
        let most = slots.len().min(1024);
        Spool {
            slots: &mut slots[..most],
            first: 0,
            count: 0,
        }
    }
}

#[tactic(auto, using(crate::proofs::Rings::length_ring, crate::proofs::Rings::ring_front, crate::proofs::Rings::ring_push))]
impl<'a> Line for Spool<'a> {
    ghost use Rattle.lines.specs.Spool.{spool_waiting, spool_capacity};

    ghost waiting = { spool_waiting };

    ghost capacity = { spool_capacity };

    fn spare(&self) -> usize {
        self.slots.len() - self.count
    }

    fn send(&mut self, message: &[u8]) -> Result<(), LineFault> {
        let message = message.as_array::<SIZE>().ok_or(LineFault::Size)?;
        if self.count >= self.slots.len() {
            return Err(LineFault::Full);
        }
        let slot = (self.first + self.count) % self.slots.len();
        self.slots[slot] = *message;
        self.count += 1;
        Ok(())
    }

    fn take(&mut self, space: &mut [u8]) -> Result<(), LineFault> {
        let space = space.as_mut_array::<SIZE>().ok_or(LineFault::Size)?;
        if self.count == 0 {
            return Err(LineFault::Empty);
        }
        *space = self.slots[self.first];
        self.first = (self.first + 1) % self.slots.len();
        self.count -= 1;
        Ok(())
    }
}
