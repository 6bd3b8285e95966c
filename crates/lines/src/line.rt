//! What every line to the service has.
ghost use Rattle.std.specs.Prelude.{◌≡◌, ℕ, ◌≤◌, false, List, length, is_ok};
ghost use Rattle.lines.specs.Meaning.{spare_of, send_answer, after_send, take_answer, after_take, space_after};

use crate::fault::LineFault;

/// How many bytes a message has.
pub(crate) const SIZE: usize = 64;

/// A line to the service. What it means is the list of the messages that wait in it, oldest first, and its capacity, which
/// no call changes.
pub trait Line {
    ghost waiting: { Self → List (List ℕ) };

    ghost capacity: { Self → ℕ };

    /// How many more messages the line can take. No more wait than the capacity.
    fn spare(&self) -> usize
        ensures value { result ≡ spare_of (capacity self.now) (waiting self.now) }
        ensures bound { length (waiting self.now) ≤ capacity self.now };

    /// Adds a message at the end.
    fn send(&mut self, message: &[u8]) -> Result<(), LineFault>
        ensures answer { result ≡ send_answer (capacity self.old) (waiting self.old) message.now }
        ensures waits { waiting self.new ≡ after_send result (waiting self.old) message.now }
        ensures holds { capacity self.new ≡ capacity self.old }
        ensures refused { is_ok result ≡ false → self.new ≡ self.old };

    /// Moves the oldest message into the caller's space.
    fn take(&mut self, space: &mut [u8]) -> Result<(), LineFault>
        ensures answer { result ≡ take_answer (waiting self.old) space.old }
        ensures waits { waiting self.new ≡ after_take result (waiting self.old) }
        ensures gives { space.new ≡ space_after result (waiting self.old) space.old }
        ensures holds { capacity self.new ≡ capacity self.old }
        ensures refused { is_ok result ≡ false → self.new ≡ self.old };
}
