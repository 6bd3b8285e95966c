//! A line that keeps one message in itself.
ghost use Rattle.std.specs.Prelude.{◌≡◌, []};
ghost use Rattle.lines.specs.Cell.{cell_waiting};

use crate::fault::LineFault;
use crate::line::{Line, SIZE};

/// A line of capacity 1.
#[derive(Drop)]
pub struct RadioCell {
    message: Option<[u8; SIZE]>,
}

impl RadioCell {
    /// A cell in which nothing waits.
    pub fn new() -> RadioCell
        ensures { cell_waiting result ≡ [] }
    {
        RadioCell { message: None }
    }
}

impl Line for RadioCell {
    ghost waiting = { cell_waiting };

    ghost capacity = { λ _. 1 };

    fn spare(&self) -> usize {
        usize::from(self.message.is_none())
    }

    fn send(&mut self, message: &[u8]) -> Result<(), LineFault> {
        let message = message.as_array::<SIZE>().ok_or(LineFault::Size)?;
        if self.message.is_some() {
            return Err(LineFault::Full);
        }
        self.message = Some(*message);
        Ok(())
    }

    fn take(&mut self, space: &mut [u8]) -> Result<(), LineFault> {
        let space = space.as_mut_array::<SIZE>().ok_or(LineFault::Size)?;
        *space = self.message.take().ok_or(LineFault::Empty)?;
        Ok(())
    }
}
