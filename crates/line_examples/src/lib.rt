//! The lines in use, from what a line means alone.
#![tactic(auto)]

ghost use Rattle.std.specs.Prelude.{◌≡◌, false, [], length, is_ok, Ok};
ghost use Rattle.lines.specs.Spool.{slots_in};
ghost use Rattle.line_examples.specs.Passing.{passed, after_pass};

use lines::{Line, LineFault, RadioCell, Spool};

/// Sends a message into any line and takes the oldest out.
pub fn pass<L: Line>(line: &mut L, message: [u8; 64]) -> Result<[u8; 64], LineFault>
    ensures answer { result ≡ passed (L.capacity line.old) (L.waiting line.old) message }
    ensures waits { L.waiting line.new ≡ after_pass (L.capacity line.old) (L.waiting line.old) message }
    ensures holds { L.capacity line.new ≡ L.capacity line.old }
    ensures refused { is_ok result ≡ false → line.new ≡ line.old }
{
    line.send(&message)?;
    let mut space = message;
    line.take(&mut space)?;
    Ok(space)
}

/// An empty cell passes on what it is sent.
pub fn through_a_cell(message: [u8; 64]) -> Result<[u8; 64], LineFault>
    ensures { result ≡ Ok message }
{
    let mut cell = RadioCell::new();
    pass(&mut cell, message)
}

/// So does an empty spool, where its bytes have a slot.
pub fn through_a_spool(bytes: &mut [u8], message: [u8; 64]) -> Result<[u8; 64], LineFault>
    ensures { result ≡ passed (slots_in (length bytes.old)) [] message }
{
    let mut spool = Spool::new(bytes);
    pass(&mut spool, message)
}

#[cfg(test)]
mod tests {
    use lines::{Line, LineFault, Spool};
    use std::process::Abort;
    use std::test::Fail;

    fn slots_over(bytes: &mut [u8]) -> usize {
        Spool::new(bytes).spare()
    }

    #[test]
    fn a_spool_has_a_slot_for_each_64_bytes(rt: HostRuntime) -> Result<(), Fail> {
        let mut short = [0; 63];
        assert_eq!(rt; slots_over(&mut short), 0);
        let mut one = [0; 64];
        assert_eq!(rt; slots_over(&mut one), 1);
        let mut long = vec![in rt.alloc(); 0u8; 65_600]?;
        assert_eq!(rt; slots_over(long.as_mut_slice()), 1024);
        Ok(())
    }

    fn take_first_byte<L: Line>(line: &mut L) -> Result<u8, LineFault> {
        let mut space = [0; 64];
        line.take(&mut space)?;
        Ok(space[0])
    }

    // Fills a line of capacity 2 and empties it.
    fn goes_round<L: Line>(rt: &impl Abort, line: &mut L) {
        assert_eq!(rt; line.send(&[1; 64]), Ok(()));
        assert_eq!(rt; line.send(&[2; 64]), Ok(()));
        assert_eq!(rt; line.send(&[9; 64]), Err(LineFault::Full));
        assert_eq!(rt; line.send(&[9; 63]), Err(LineFault::Size));
        assert_eq!(rt; take_first_byte(line), Ok(1));
        assert_eq!(rt; line.send(&[3; 64]), Ok(()));
        assert_eq!(rt; take_first_byte(line), Ok(2));
        assert_eq!(rt; take_first_byte(line), Ok(3));
        assert_eq!(rt; take_first_byte(line), Err(LineFault::Empty));
    }

    #[test]
    fn freed_slots_serve_again(rt: HostRuntime) {
        let mut bytes = [0; 128];
        let mut spool = Spool::new(&mut bytes);
        goes_round(&rt, &mut spool);
        goes_round(&rt, &mut spool);
    }
}
