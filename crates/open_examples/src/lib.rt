//! The open queries in use, from their contracts alone.
#![tactic(auto)]

ghost use Rattle.std.specs.Prelude.{◌≡◌, ℕ, ◌+◌, false, is_ok};
ghost use Rattle.open_queries.specs.View.{status_of, standing, next_of};
ghost use Rattle.open_queries.specs.Calls.{at_serial, accepted, given_up};
ghost use Rattle.open_examples.specs.Replies.{reply_answer};

use open_queries::{OpenFault, OpenQueries};

/// A reply: collects the query and hands it over.
pub fn reply(queries: &mut OpenQueries, serial: u32) -> Result<u16, OpenFault>
    ensures answer { result ≡ reply_answer (status_of queries.old serial) }
    ensures after { (s : ℕ) → status_of queries.new s ≡ at_serial serial given_up (status_of queries.old) s }
    ensures count { standing queries.new + accepted result ≡ standing queries.old }
    ensures next { next_of queries.new ≡ next_of queries.old }
    ensures refused { is_ok result ≡ false → queries.new ≡ queries.old }
{
    let handover = queries.collect(serial)?;
    queries.hand_over(handover)
}

/// A lost reply: collects the query and puts it back.
pub fn lost_reply(queries: &mut OpenQueries, serial: u32) -> Result<u16, OpenFault>
    ensures answer { result ≡ reply_answer (status_of queries.old serial) }
    ensures after { (s : ℕ) → status_of queries.new s ≡ status_of queries.old s }
    ensures count { standing queries.new ≡ standing queries.old }
    ensures next { next_of queries.new ≡ next_of queries.old }
    ensures refused { is_ok result ≡ false → queries.new ≡ queries.old }
{
    let handover = queries.collect(serial)?;
    queries.put_back(handover)
}

#[cfg(test)]
mod tests {
    use super::{lost_reply, reply};
    use open_queries::{OpenFault, OpenQueries};
    use std::test::Fail;

    #[test]
    fn sixty_four_stand(rt: HostRuntime) {
        let mut queries = OpenQueries::new(5);
        for i in 0..64u32 {
            assert_eq!(rt; queries.add(7), Ok(5 + i));
        }
        assert_eq!(rt; queries.next_serial(), Err(OpenFault::TooMany));
        assert_eq!(rt; queries.add(7), Err(OpenFault::TooMany));
        assert_eq!(rt; reply(&mut queries, 40), Ok(7));
        assert_eq!(rt; queries.add(8), Ok(69));
        assert_eq!(rt; queries.add(8), Err(OpenFault::TooMany));
    }

    #[test]
    fn the_last_serial_is_given(rt: HostRuntime) {
        let mut queries = OpenQueries::new(4_294_967_295);
        assert_eq!(rt; queries.next_serial(), Ok(4_294_967_295));
        assert_eq!(rt; queries.add(1), Ok(4_294_967_295));
        assert_eq!(rt; queries.next_serial(), Err(OpenFault::LastSerial));
        assert_eq!(rt; queries.add(1), Err(OpenFault::LastSerial));
    }

    #[test]
    fn a_first_serial_of_0_reads_as_1(rt: HostRuntime) {
        let mut queries = OpenQueries::new(0);
        assert_eq!(rt; queries.add(3), Ok(1));
        assert_eq!(rt; queries.give_up(1), Ok(()));
        assert_eq!(rt; queries.give_up(1), Err(OpenFault::NotOpen));
    }

    #[test]
    fn put_back_and_collected_again(rt: HostRuntime) {
        let mut queries = OpenQueries::new(1);
        assert_eq!(rt; queries.add(3), Ok(1));
        assert_eq!(rt; lost_reply(&mut queries, 1), Ok(3));
        assert_eq!(rt; lost_reply(&mut queries, 1), Ok(3));
        assert_eq!(rt; reply(&mut queries, 1), Ok(3));
        assert_eq!(rt; reply(&mut queries, 1), Err(OpenFault::NotOpen));
    }

    #[test]
    fn a_handover_of_another_box(rt: HostRuntime) -> Result<(), Fail> {
        let mut here = OpenQueries::new(1);
        let mut there = OpenQueries::new(1);
        assert_eq!(rt; here.add(3), Ok(1));
        assert_eq!(rt; there.add(4), Ok(1));
        let theirs = there.collect(1)?;
        assert_eq!(rt; here.hand_over(theirs), Err(OpenFault::NotInHand));
        let ours = here.collect(1)?;
        assert_eq!(rt; there.hand_over(ours), Ok(4));
        Ok(())
    }
}
