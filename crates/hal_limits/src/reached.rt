//! How many cells views reach.

ghost use Rattle.std.specs.Prelude.{◌≡◌, map, IfOk};
ghost use Rattle.std.specs.Option.{option_map};
ghost use Rattle.hal_names.specs.SeenNames.{seen_names};
ghost use Rattle.hal_constants.specs.SeenKnown.{seen_known};
ghost use Rattle.hal_storage.specs.elements.SeenComponents.{seen_component, seen_shape};
ghost use Rattle.hal_views.specs.Views as views;
ghost use Rattle.hal_limits.specs.Counts.{capped, counted};
ghost use Rattle.hal_limits.specs.Kept.{AreKept};
ghost use Rattle.hal_limits.specs.SeenViews.{seen_choice, seen_view};

use crate::components::{size_behind, sole_behind};
use crate::shapes::{Shapes, shape_at};
use crate::sizes::capped;
use crate::view::{Choice, View};
use crate::views::views_of;
use hal_constants::Known;
use hal_names::Names;
use hal_storage::elements::{Component, Shape};
use hal_words::Name;
use std::alloc::{AllocError, Global};

/// How many places of so many are reached in a dimension.
fn places_reached(size: u16, choice: Choice) -> u32
    ensures { result ≡ capped (views.places_reached size (seen_choice choice)) }
{
    match choice {
        Choice::OnePlace => u32::from(size),
        Choice::AllPlaces => u32::from(size),
        Choice::Places { first, last } => {
            capped((last as usize + 1).saturating_sub(first as usize))
        }
    }
}

/// How many places of dimensions of these sizes are reached.
#[tactic(auto, using(crate::proofs::Counted::capped_product))]
fn all_reached(sizes: &[u16], choices: &[Choice]) -> u32
    ensures { result ≡ capped (views.all_reached sizes.now (map seen_choice choices.now)) }
{
    let Some((size, others)) = sizes.split_first() else {
        return 1;
    };
    match choices.split_first() {
        None => u32::from(*size).saturating_mul(all_reached(others, choices)),
        Some((choice, left)) => {
            places_reached(*size, *choice).saturating_mul(all_reached(others, left))
        }
    }
}

/// How many copies are reached.
fn copies_reached(size: Option<u16>, choice: Option<Choice>) -> u32
    ensures { result ≡ capped (views.copies_reached size (option_map seen_choice choice)) }
{
    match (size, choice) {
        (Some(size), Some(choice)) => places_reached(size, choice),
        _ => 1,
    }
}

/// How many elements of one copy are reached.
#[tactic(auto, using(crate::proofs::Behind::elements_behind))]
fn elements_reached(path: &[Name], components: &[Component], places: &[Choice]) -> u32
    ensures { result ≡ capped (views.elements_reached (views.components_behind path.now (map seen_component components.now)) (map seen_choice places.now)) }
{
    match sole_behind(path, components) {
        None => size_behind(path, components),
        Some(component) => all_reached(&component.sizes, places),
    }
}

/// How many cells a view of data of this shape reaches.
#[tactic(auto, using(crate::proofs::Counted::capped_product))]
fn cells_in(shape: &Shape, view: &View) -> u32
    ensures { result ≡ capped (views.cells_in (seen_shape shape.now) (seen_view view.now)) }
{
    let elements = elements_reached(&view.path, &shape.components, &view.places);
    copies_reached(shape.copies, view.copies).saturating_mul(elements)
}

/// How many cells a view reaches, 4,294,967,295 where it reaches more (language document, Views).
fn cells_reached(
    alloc: Global,
    names: &Names<'_>,
    known: &Known,
    shapes: &Shapes,
    view: &View,
) -> Result<u32, AllocError>
    requires kept { AreKept (seen_names names.now) (seen_known known.now) shapes.now }
    ensures { IfOk result (λ count. count ≡ capped (views.cells_reached (seen_names names.now) (seen_known known.now) (seen_view view.now))) }
{
    let Some(declared) = names.phrase(view.declared) else {
        return Ok(0);
    };
    match shapes.at(view.declared) {
        Some(shape) => Ok(cells_in(shape, view)),
        None => Ok(cells_in(&shape_at(alloc, names, known, &declared)?, view)),
    }
}

/// How many cells these views reach, each counted by itself.
#[tactic(auto, unfolding(crate::specs::Counts::counted))]
fn all_cells_reached(
    alloc: Global,
    names: &Names<'_>,
    known: &Known,
    shapes: &Shapes,
    list: &[View],
) -> Result<u32, AllocError>
    requires kept { AreKept (seen_names names.now) (seen_known known.now) shapes.now }
    ensures { IfOk result (λ count. count ≡ counted (views.cells_reached (seen_names names.now) (seen_known known.now)) 0 (map seen_view list.now)) }
{
    let mut count: u32 = 0;
    for view in list {
        count = count.saturating_add(cells_reached(alloc, names, known, shapes, view)?);
    }
    Ok(count)
}

/// How many cells the views of a set of files reach, each view counted by itself, 4,294,967,295 where they reach more (language document, Views).
#[tactic(auto, using(crate::proofs::Counted::from_nothing))]
pub(crate) fn view_cells(alloc: Global, names: &Names<'_>, known: &Known) -> Result<u32, AllocError>
    ensures { IfOk result (λ count. count ≡ capped (views.view_cells (seen_names names.now) (seen_known known.now))) }
{
    let shapes = Shapes::of(alloc, names, known)?;
    let list = views_of(alloc, names, known, &shapes)?;
    all_cells_reached(alloc, names, known, &shapes, &list)
}
