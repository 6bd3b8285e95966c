//! Slots to make a register over.
ghost use Rattle.std.specs.Prelude.{◌≡◌};

use kinds::PlaceKind;
use tree::Node;

/// A slot that is not in use, to fill an array of slots with. The place that it holds means nothing.
pub fn unused_slot<P: PlaceKind>(place: P) -> Node<P, P::Region>
    ensures { result ≡ (record { place = place; join = P.PlaceKind.model.single place; left = 0; right = 0; count = 0; height = 0 }) }
{
    Node {
        place,
        join: place.region(),
        left: 0,
        right: 0,
        count: 0,
        height: 0,
    }
}
