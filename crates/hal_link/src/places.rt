//! The own places of processes.

ghost use Rattle.std.specs.Prelude.{◌≡◌, ◌++◌, ◌∷◌, [], map, IfOk, OnOk};
ghost use Rattle.hal_storage.specs.own_places.SeenPlaces.{seen_own, seen_place};
ghost use Rattle.hal_gen_expr.specs.SeenSites.{lent_place};
ghost use Rattle.hal_link.specs.Placing.{places_in};

use crate::first_placed::Placed;
use hal_gen_expr::FirstPlaces;
use hal_storage::own_places::{OwnPlaces, Place};
use std::alloc::{AllocError, Global};

/// Adds a place.
#[tactic(auto, using(hal_storage::proofs::elements::Repeated::one_mapped))]
fn push_place<'a>(into: &mut Vec<&'a Place>, place: &'a Place) -> Result<(), AllocError>
    ensures { OnOk result (map lent_place into.new.items ≡ map lent_place into.old.items ++ (seen_place place.now ∷ [])) }
{
    into.push(place)?;
    Ok(())
}

/// Adds places.
#[tactic(auto, using(hal_storage::proofs::elements::Repeated::none_behind))]
fn push_places<'a>(into: &mut Vec<&'a Place>, places: &'a [Place]) -> Result<(), AllocError>
    ensures { OnOk result (map lent_place into.new.items ≡ map lent_place into.old.items ++ map seen_place places.now) }
{
    for place in places {
        push_place(into, place)?;
    }
    Ok(())
}

/// The own places of the process with this number, the common ones first; none where there is no such process.
#[tactic(auto, using(crate::proofs::Placed::seen_others))]
pub(crate) fn places_of<'a>(
    alloc: Global,
    own: &'a OwnPlaces,
    process: usize,
) -> Result<Vec<&'a Place>, AllocError>
    ensures { IfOk result (λ list. map lent_place list.items ≡ places_in (seen_own own.now) process) }
{
    let mut list = Vec::new(alloc);
    let Some(others) = own.processes.get(process) else {
        return Ok(list);
    };
    push_places(&mut list, &own.common)?;
    push_places(&mut list, others)?;
    Ok(list)
}

/// The same, with the first of each phrase among them.
pub(crate) fn placed_of<'a>(
    alloc: Global,
    own: &'a OwnPlaces,
    process: usize,
) -> Result<Placed<'a>, AllocError>
    ensures { IfOk result (λ placed. map lent_place placed.places.items ≡ places_in (seen_own own.now) process) }
{
    let places = places_of(alloc, own, process)?;
    let first_places = FirstPlaces::of(alloc, &places)?;
    Ok(Placed {
        places,
        first_places,
    })
}
