//! The own places of a process with the first of each phrase.

ghost use Rattle.std.specs.Prelude.{map};
ghost use Rattle.hal_gen_expr.specs.FirstPlaces.{AreFirstPlaces};
ghost use Rattle.hal_gen_expr.specs.SeenSites.{lent_place};

use hal_gen_expr::FirstPlaces;
use hal_storage::own_places::Place;

/// The own places of a process, and the first of each phrase among them.
#[derive(Drop)]
pub(crate) struct Placed<'a> {
    pub(crate) places: Vec<&'a Place>,
    pub(crate) first_places: FirstPlaces,
    ghost found: { AreFirstPlaces (map lent_place places.items) first_places },
}
