//! The rows of an image's tables.

ghost use Rattle.std.specs.Prelude.{◌≡◌, ◌∷◌, ◌++◌, [], IfOk, OnOk, map};
ghost use Rattle.hal_storage.specs.own_places.SeenPlaces.{seen_place};
ghost use Rattle.hal_storage.specs.sets.SeenSets.{seen_set};
ghost use Rattle.hal_gen_expr.specs.SeenSites.{lent_place};
ghost use Rattle.hal_runs.specs.Joined.{rows_joined};
ghost use Rattle.hal_runs.specs.Same.{same_cell, same_place};
ghost use Rattle.hal_link.specs.Linking as linking;

use crate::shapes::reference_shape;
use hal_code::{Choice, OwnPlace, Run};
use hal_runs::push_run;
use hal_storage::own_places::Place;
use hal_storage::sets::Set;
use hal_values::{Cell, EventStart, Kind, Listing};
use std::alloc::{AllocError, Global};

/// A shared cell, once more.
fn copied(cell: &Cell) -> Cell
    ensures { result ≡ cell.now }
{
    Cell {
        kind: cell.kind,
        group: cell.group,
        initial: cell.initial.copy(),
    }
}

/// The rows of shared cells.
#[tactic(auto, unfolding(hal_runs::specs::Joined::with_rows))]
pub(crate) fn cell_rows(alloc: Global, cells: &[Cell]) -> Result<Listing<Run<Cell>>, AllocError>
    ensures { IfOk result (λ rows. rows ≡ rows_joined same_cell cells.now) }
{
    let mut rows = Vec::new(alloc);
    for cell in cells {
        let row = copied(cell);
        push_run(&mut rows, Run { repeat: 1, row })?;
    }
    Ok(Listing::new(rows))
}

/// The rows of declared events.
#[tactic(auto, using(hal_storage::proofs::elements::Repeated::behind, hal_storage::proofs::elements::Repeated::none_behind))]
pub(crate) fn event_rows(
    alloc: Global,
    events: &[EventStart],
) -> Result<Listing<Choice<EventStart>>, AllocError>
    ensures { IfOk result (λ rows. rows ≡ map linking.known_start events.now) }
{
    let mut rows = Vec::new(alloc);
    for start in events {
        rows.push(Choice::Known(*start))?;
    }
    Ok(Listing::new(rows))
}

/// The row of an own place; a reference is to data of the shape of its parameter.
fn own_row(
    alloc: Global,
    set: &Set<'_>,
    shapes: &[Listing<Run<Kind>>],
    place: &Place,
) -> Result<OwnPlace, AllocError>
    ensures { IfOk result (λ row. row ≡ linking.own_row (seen_set set.now) shapes.now (seen_place place.now)) }
{
    match place.kind {
        None => Ok(OwnPlace::Reference(reference_shape(alloc, set, shapes, place.owner)?)),
        Some(kind) => Ok(OwnPlace::Data {
            kind,
            initial: place.initial.copy(),
        }),
    }
}

/// The rows of own places.
#[tactic(auto, unfolding(hal_runs::specs::Joined::with_rows))]
pub(crate) fn place_rows(
    alloc: Global,
    set: &Set<'_>,
    shapes: &[Listing<Run<Kind>>],
    places: &[&Place],
) -> Result<Listing<Run<OwnPlace>>, AllocError>
    ensures { IfOk result (λ rows. rows ≡ rows_joined same_place (map (linking.own_row (seen_set set.now) shapes.now) (map lent_place places.now))) }
{
    let mut rows = Vec::new(alloc);
    for place in places {
        let row = own_row(alloc, set, shapes, place)?;
        push_run(&mut rows, Run { repeat: 1, row })?;
    }
    Ok(Listing::new(rows))
}
