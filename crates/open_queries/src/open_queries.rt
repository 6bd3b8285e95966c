//! The open queries and their calls.
ghost use Rattle.std.specs.Prelude.{◌≡◌, ℕ, ◌≤◌, ◌+◌, false, is_some, is_none, is_ok, if◌then◌else◌, nat_eq};
ghost use Rattle.open_queries.specs.Table.{holders, next_number, absent, has};
ghost use Rattle.std.specs.List.{position};
ghost use Rattle.open_queries.specs.Marks.{marked, mark_answer, weight};
ghost use Rattle.open_queries.specs.Calls.{first_serial, at_serial, accepted, collect_answer, collected, return_answer, handed_over, put_back, give_up_answer, given_up, add_answer, added, Vacancy};

use crate::entry::{Entry, Stage};
use crate::fault::OpenFault;
use crate::handover::Handover;

/// At most 64 queries, open and in hand, and the next serial, which is `None` once the last was given. No serial is in two
/// entries, and none is as high as the next, or as 4,294,967,296 once there is none.
#[derive(Drop)]
pub struct OpenQueries {
    next: Option<u32>,
    entries: [Option<Entry>; 64],
    ghost low: { 1 ≤ next_number next },
    ghost high: { next_number next ≤ 4294967296 },
    ghost once: { ((serial : ℕ) → holders entries serial ≤ 1) },
    ghost past: { ((serial : ℕ) → next_number next ≤ serial → holders entries serial ≡ 0) },
}

impl OpenQueries {
    ghost use Rattle.open_queries.specs.View.{status_of, standing, next_of};

    /// No query stands; the first that is accepted gets the serial `first`, where 0 reads as 1.
    pub fn new(first: u32) -> OpenQueries
        ensures next { next_of result ≡ first_serial first }
        ensures none { (s : ℕ) → status_of result s ≡ absent }
        ensures count { standing result ≡ 0 }
    {
        OpenQueries {
            next: Some(first.max(1)),
            entries: [None; 64],
        }
    }

    // The slot that has a serial.
    fn slot_of(&self, serial: u32) -> Option<usize>
        ensures { result ≡ position (has serial) self.now.entries }
    {
        self.entries
            .iter()
            .position(|slot| slot.is_some_and(|entry| entry.serial == serial))
    }

    // The first slot that is free.
    fn free_slot(&self) -> Option<usize>
        ensures { result ≡ position is_none self.now.entries }
    {
        self.entries.iter().position(|slot| slot.is_none())
    }

    // Turns the query of a serial from one stage to another, or ends it, and tells the set that asked.
    fn mark(&mut self, serial: u32, from: Stage, to: Option<Stage>) -> Option<u16>
        ensures answer { result ≡ mark_answer from (status_of self.old serial) }
        ensures after { (s : ℕ) → status_of self.new s ≡ (if nat_eq serial s then marked from to (status_of self.old s) else status_of self.old s) }
        ensures count { standing self.new + weight (status_of self.old serial) ≡ standing self.old + weight (status_of self.new serial) }
        ensures next { next_of self.new ≡ next_of self.old }
        ensures refused { is_some result ≡ false → self.new ≡ self.old }
    {
        let i = self.slot_of(serial)?;
        let entry = self.entries[i].filter(|entry| entry.stage == from)?;
        self.entries[i] = to.map(|stage| Entry { stage, ..entry });
        Some(entry.set)
    }

    /// Makes an open query one in hand, and gives out its handover.
    pub fn collect(&mut self, serial: u32) -> Result<Handover, OpenFault>
        ensures answer { result ≡ collect_answer serial (status_of self.old serial) }
        ensures after { (s : ℕ) → status_of self.new s ≡ at_serial serial collected (status_of self.old) s }
        ensures count { standing self.new ≡ standing self.old }
        ensures next { next_of self.new ≡ next_of self.old }
        ensures refused { is_ok result ≡ false → self.new ≡ self.old }
    {
        let set = self
            .mark(serial, Stage::Open, Some(Stage::InHand))
            .ok_or(OpenFault::NotOpen)?;
        Ok(Handover {
            serial,
            set,
            spent: false,
        })
    }

    /// Closes the query of a handover's serial, also where another box gave the handover out, and tells the set that asked by
    /// this box's record. The handover is used up, also where it is refused.
    pub fn hand_over(&mut self, mut handover: Handover) -> Result<u16, OpenFault>
        ensures answer { result ≡ return_answer (status_of self.old handover.serial) }
        ensures after { (s : ℕ) → status_of self.new s ≡ at_serial handover.serial handed_over (status_of self.old) s }
        ensures count { standing self.new + accepted result ≡ standing self.old }
        ensures next { next_of self.new ≡ next_of self.old }
        ensures refused { is_ok result ≡ false → self.new ≡ self.old }
    {
        handover.spent = true;
        self.mark(handover.serial, Stage::InHand, None)
            .ok_or(OpenFault::NotInHand)
    }

    /// Makes the query of a handover's serial open again, also where another box gave the handover out, and tells the set that
    /// asked by this box's record. The handover is used up, also where it is refused.
    pub fn put_back(&mut self, mut handover: Handover) -> Result<u16, OpenFault>
        ensures answer { result ≡ return_answer (status_of self.old handover.serial) }
        ensures after { (s : ℕ) → status_of self.new s ≡ at_serial handover.serial put_back (status_of self.old) s }
        ensures count { standing self.new ≡ standing self.old }
        ensures next { next_of self.new ≡ next_of self.old }
        ensures refused { is_ok result ≡ false → self.new ≡ self.old }
    {
        handover.spent = true;
        self.mark(handover.serial, Stage::InHand, Some(Stage::Open))
            .ok_or(OpenFault::NotInHand)
    }

    /// Closes an open query.
    pub fn give_up(&mut self, serial: u32) -> Result<(), OpenFault>
        ensures answer { result ≡ give_up_answer (status_of self.old serial) }
        ensures after { (s : ℕ) → status_of self.new s ≡ at_serial serial given_up (status_of self.old) s }
        ensures count { standing self.new + accepted result ≡ standing self.old }
        ensures next { next_of self.new ≡ next_of self.old }
        ensures refused { is_ok result ≡ false → self.new ≡ self.old }
    {
        self.mark(serial, Stage::Open, None)
            .map(|_| ())
            .ok_or(OpenFault::NotOpen)
    }

    // A free slot and the next serial, or why no query can be added.
    #[tactic(auto, using(crate::proofs::Tables::full, crate::proofs::Tables::room))]
    fn vacancy(&self) -> Result<(usize, u32), OpenFault>
        ensures { Vacancy self.now.entries self.now.next result }
    {
        let i = self.free_slot().ok_or(OpenFault::TooMany)?;
        let serial = self.next.ok_or(OpenFault::LastSerial)?;
        Ok((i, serial))
    }

    /// The serial that the next query will have, or why there is none.
    pub fn next_serial(&self) -> Result<u32, OpenFault>
        ensures { result ≡ add_answer (standing self.now) (next_of self.now) }
    {
        self.vacancy().map(|(_, serial)| serial)
    }

    /// Adds an open query of a set, and tells its serial.
    pub fn add(&mut self, set: u16) -> Result<u32, OpenFault>
        ensures answer { result ≡ add_answer (standing self.old) (next_of self.old) }
        ensures after { (s : ℕ) → status_of self.new s ≡ at_serial (next_of self.old) (added result set) (status_of self.old) s }
        ensures count { standing self.new ≡ standing self.old + accepted result }
        ensures next { next_of self.new ≡ next_of self.old + accepted result }
        ensures refused { is_ok result ≡ false → self.new ≡ self.old }
    {
        let (i, serial) = self.vacancy()?;
        self.entries[i] = Some(Entry {
            serial,
            set,
            stage: Stage::Open,
        });
        self.next = serial.checked_add(1);
        Ok(serial)
    }
}
