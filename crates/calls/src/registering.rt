//! Entering the register.
ghost use Rattle.std.specs.Prelude.{◌≡◌, ℕ, false, List, is_ok, Some};
ghost use Rattle.open_queries.specs.declared.open_queries.OpenQueries.{OpenQueries};
ghost use Rattle.register.specs.Answers.{enter_answer, changed};
ghost use Rattle.register.specs.View.{capacity_of, place_of, Kept};
ghost use Rattle.calls.specs.Agreement.{parts, Lives};
ghost use Rattle.calls.specs.Events.{enter_event};

use kinds::PlaceKind;
use model::{laws_at_each_point, one_life, parts_follow};
use register::{Register, RegisterFault};

/// A set that is not present comes to a place.
pub fn enter<P: PlaceKind>(
    register: &mut Register<'_, P>,
    set: u16,
    place: P,
) -> Result<(), RegisterFault>
    ensures answer { result ≡ enter_answer P.PlaceKind.model (capacity_of register.old) (place_of register.old) set place }
    ensures after { (j : ℕ) → place_of register.new j ≡ changed result set (Some place) (place_of register.old) j }
    ensures kept { Kept register.old register.new }
    ensures refused { is_ok result ≡ false → register.new ≡ register.old }
    ensures lives { (q : OpenQueries) (w : List (List ℕ)) (c : ℕ) → Lives P.PlaceKind.model (parts register.old q w c) (enter_event set place result) (parts register.new q w c) }
{
    one_life::<P>();
    parts_follow::<P>();
    laws_at_each_point::<P>();
    register.enter(set, place)
}
