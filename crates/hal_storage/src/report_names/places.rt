//! The first of the own places that data have.

ghost use Rattle.std.specs.Prelude.{◌≡◌, ◌≤◌, map};
ghost use Rattle.hal_storage.specs.own_places.SeenPlaces.{seen_own, seen_place};
ghost use Rattle.hal_storage.specs.report_names.Rows as rows;
ghost use Rattle.hal_storage.specs.report_names.SeenLookups.{place_in};

use crate::own_places::{OwnPlaces, Place};

/// The number of the first of these places that the phrase with this number has, where it has one.
fn place_in(places: &[Place], owner: usize) -> Option<usize>
    ensures { result ≡ place_in places.now owner }
{
    places.iter().position(|place| place.owner == owner)
}

/// The same of the common places with others behind them, 0 where it has none.
#[tactic(auto, using(crate::proofs::report_names::Placed::seen_length, crate::proofs::report_names::Placed::seen_place_in))]
fn place_among(common: &[Place], others: &[Place], owner: usize) -> u32
    requires room { rows.place_among (map seen_place common.now) (map seen_place others.now) owner ≤ 4294967295 }
    ensures { result ≡ rows.place_among (map seen_place common.now) (map seen_place others.now) owner }
{
    match place_in(common, owner) {
        Some(place) => place as u32,
        None => match place_in(others, owner) {
            None => 0,
            Some(place) => (common.len() + place) as u32,
        },
    }
}

/// The number of the first place of a process that the phrase with this number has, 0 where it has none.
#[tactic(auto, using(crate::proofs::report_names::Placed::seen_others))]
pub(crate) fn place_of(own: &OwnPlaces, process: usize, owner: usize) -> u32
    requires room { rows.place_of (seen_own own.now) process owner ≤ 4294967295 }
    ensures { result ≡ rows.place_of (seen_own own.now) process owner }
{
    match own.processes.get(process) {
        None => place_among(&own.common, &[], owner),
        Some(others) => place_among(&own.common, others, owner),
    }
}
