//! What asking needs: the checks of a query, in their order, and the sending of its message.
ghost use Rattle.std.specs.Prelude.{◌≡◌, ℕ, false, is_ok, Ok, Err};
ghost use Rattle.open_queries.specs.View.{standing, next_of};
ghost use Rattle.register.specs.View.{capacity_of, place_of};
ghost use Rattle.calls.specs.Answers.{query_checks, sent_after, Sendable};

use crate::fault::CallFault;
use kinds::PlaceKind;
use lines::{Line, LineFault, check_text, message};
use open_queries::OpenQueries;
use register::{Bucket, Register};

// What an accepted query has: its asker's bucket, and the next serial.
#[derive(Clone, Copy)]
pub(crate) struct Accepted<R> {
    pub(crate) bucket: Bucket<R>,
    pub(crate) serial: u32,
}

// Makes all checks of a query, in their order.
fn check_query<P: PlaceKind, L: Line>(
    register: &Register<'_, P>,
    queries: &OpenQueries,
    line: &L,
    set: u16,
    size: u16,
    text: &[u8],
) -> Result<Accepted<P::Region>, CallFault>
    ensures answer { result ≡ query_checks P.PlaceKind.model (capacity_of register.now) (place_of register.now) (standing queries.now) (next_of queries.now) (L.Line.capacity line.now) (L.Line.waiting line.now) set size text.now }
    ensures sendable { elim result [ Ok a ↦ Sendable P.PlaceKind.model (standing queries.now) (next_of queries.now) (L.Line.capacity line.now) (L.Line.waiting line.now) text.now a.serial | Err e ↦ Unit {0} ] }
{
    register.check_asker(set, size)?;
    check_text(text)?;
    P::fits()?;
    let bucket = register.bucket(set, size)?;
    let serial = queries.next_serial()?;
    if line.spare() == 0 {
        return Err(LineFault::Full.into());
    }
    Ok(Accepted { bucket, serial })
}

// Sends the message of a query that passed its checks.
fn send_query<P: PlaceKind, L: Line>(
    line: &mut L,
    accepted: Accepted<P::Region>,
    text: &[u8],
) -> Result<(), CallFault>
    ensures sent { (standing next : ℕ) → Sendable P.PlaceKind.model standing next (L.Line.capacity line.old) (L.Line.waiting line.old) text.now accepted.serial → (result ≡ Ok tt) × (L.Line.waiting line.new ≡ sent_after P.PlaceKind.model (Ok accepted) text.now (L.Line.waiting line.old)) }
    ensures holds { L.Line.capacity line.new ≡ L.Line.capacity line.old }
    ensures refused { is_ok result ≡ false → line.new ≡ line.old }
{
    let message = message::<P>(accepted.serial, accepted.bucket.region, text)?;
    line.send(&message)?;
    Ok(())
}
