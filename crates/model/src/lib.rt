//! The life of a box: what has to happen at each call after the calls before it, and the laws of every life. A box is a
//! register, open queries and a line. All is said of the history of calls and answers, and nothing of a program's state.
//! The functions state laws; they compute nothing.
#![tactic(auto)]

ghost use Rattle.std.specs.Prelude.{◌≡◌, ℕ, ◌+◌, ◌-◌, ◌*◌, ◌<◌, List, ◌∷◌, Some, None};
ghost use Rattle.buckets.specs.Rows.{In};
ghost use Rattle.model.specs.Events.{Call, Query, Event, History};
ghost use Rattle.model.specs.Histories.{Box, asked_in, bucket, sent, serials, next_serial};
ghost use Rattle.model.specs.Outcomes.{outcome, Life, OneLife};
ghost use Rattle.model.specs.Laws.{Alike, AnswersBy, SameButSet, RowHolds, ComesFrom, Kept, Point};
ghost use Rattle.model.specs.Parts.{Follows, PartAnswers};

use buckets::{bucket_laws, member_laws, region_laws, row_laws};
use kinds::PlaceKind;

/// Every list of calls has exactly one life, so no law below is empty; and a life goes on with the right outcome of any call.
pub fn one_life<P: PlaceKind>()
    ensures lives { (box : Box P.PlaceKind.model) (calls : List (Call P)) → OneLife box calls }
    ensures extends { (box : Box P.PlaceKind.model) (h : History P) (c : Call P) → Life box h → Life box (outcome box h c ∷ h) }
{}

/// The asker is hidden: two lives of alike calls, in which another member of its bucket may put a query, have the same answers,
/// call by call, but for the set that collect, hand over or put back names; and they send the same messages.
pub fn asker_hidden<P: PlaceKind>()
    ensures { (box : Box P.PlaceKind.model) (g h : History P) → Life box g → Life box h → Alike box g h → AnswersBy SameButSet g h × (sent box g ≡ sent box h) }
{
    row_laws::<P>();
    bucket_laws();
    member_laws::<P>();
}

/// The region is the least: an accepted query of size k comes from its asker's bucket, of k to 2k − 1 present sets, and sends
/// one message with the least region that covers them. The row that buckets are cut from holds exactly the present sets. What
/// is no accepted query sends nothing.
pub fn region_least<P: PlaceKind>()
    ensures query { (box : Box P.PlaceKind.model) (h : History P) (e : Event P) (q : Query) → Life box (e ∷ h) → asked_in e ≡ Some q → ComesFrom box q.size (2 * q.size - 1) h e q (bucket box h q.size q.set) }
    ensures row { (box : Box P.PlaceKind.model) (h : History P) → Life box h → RowHolds box h }
    ensures others { (box : Box P.PlaceKind.model) (h : History P) (e : Event P) → asked_in e ≡ None → sent box (e ∷ h) ≡ sent box h }
{
    row_laws::<P>();
    bucket_laws();
    member_laws::<P>();
    region_laws::<P>();
}

/// Queries are kept: each was handed over, was given up, is open or is in hand; no serial is given twice; none ends more than
/// once; and who is named put the query.
pub fn queries_kept<P: PlaceKind>()
    ensures kept { (box : Box P.PlaceKind.model) (h : History P) → Life box h → Kept 1 h }
    ensures fresh { (box : Box P.PlaceKind.model) (h : History P) (s : ℕ) → Life box h → In s (serials h) → s < next_serial box h }
{}

/// The three laws hold at each point of every life.
pub fn laws_at_each_point<P: PlaceKind>()
    ensures { (box : Box P.PlaceKind.model) (h : History P) → Life box h → Point box h }
{
    asker_hidden::<P>();
    region_least::<P>();
    queries_kept::<P>();
}

/// What the parts hold after one more event of a life, and the right outcome of each call, in the words of the parts' own calls.
pub fn parts_follow<P: PlaceKind>()
    ensures after { (box : Box P.PlaceKind.model) (h : History P) (e : Event P) → Life box (e ∷ h) → Follows box h e }
    ensures answers { (box : Box P.PlaceKind.model) (h : History P) → Life box h → PartAnswers box h }
{
    row_laws::<P>();
    bucket_laws();
    member_laws::<P>();
    region_laws::<P>();
}
