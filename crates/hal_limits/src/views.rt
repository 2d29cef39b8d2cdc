//! The views of a set of files.

ghost use Rattle.std.specs.Prelude.{◌≡◌, map, IfOk, OnOk};
ghost use Rattle.std.specs.Option.{option_map};
ghost use Rattle.hal_tree.specs.SeenExpressions.{seen_reference, seen_subscript};
ghost use Rattle.hal_tree.specs.SeenLeaves.{seen_name};
ghost use Rattle.hal_phrases.specs.SeenPhrases.{seen_phrase};
ghost use Rattle.hal_names.specs.SeenNames.{seen_names};
ghost use Rattle.hal_constants.specs.SeenKnown.{seen_known};
ghost use Rattle.hal_storage.specs.elements.SeenComponents.{seen_component, seen_shape};
ghost use Rattle.hal_views.specs.Views as views;
ghost use Rattle.hal_limits.specs.Behind.{sizes_behind};
ghost use Rattle.hal_limits.specs.Kept.{AreKept};
ghost use Rattle.hal_limits.specs.Noting as noting;
ghost use Rattle.hal_limits.specs.SeenViews.{seen_choice, seen_view};

use crate::choices::{copies_chosen, places_chosen};
use crate::components::sole_behind;
use crate::equality::is_among;
use crate::shapes::Shapes;
use crate::view::{Choice, View};
use hal_constants::Known;
use hal_names::Names;
use hal_phrases::{Node, Phrase};
use hal_reach::meant;
use hal_storage::cells::is_in_unit;
use hal_storage::elements::{Component, Shape};
use hal_tree::{Identifier, Reference, Subscript};
use hal_words::Name;
use std::alloc::{AllocError, Global};

/// Names without their places.
fn plain_names(alloc: Global, path: &[Identifier]) -> Result<Vec<Name>, AllocError>
    ensures { IfOk result (λ list. list.items ≡ noting.plain_names (map seen_name path.now)) }
{
    let mut list = Vec::new(alloc);
    for name in path {
        list.push(name.name)?;
    }
    Ok(list)
}

/// What is chosen of the dimensions of the one component behind these names; several have none together.
#[tactic(auto, using(crate::proofs::Behind::none_chosen))]
fn places_of(
    alloc: Global,
    names: &Names<'_>,
    known: &Known,
    phrase: &Phrase<'_>,
    path: &[Name],
    components: &[Component],
    subscript: &Subscript,
) -> Result<Vec<Choice>, AllocError>
    ensures { IfOk result (λ list. map seen_choice list.items ≡ views.places_chosen (seen_names names.now) (seen_known known.now) (seen_phrase phrase.now) (sizes_behind path.now (map seen_component components.now)) (seen_subscript subscript.now)) }
{
    match sole_behind(path, components) {
        None => Ok(Vec::new(alloc)),
        Some(component) => places_chosen(alloc, names, known, phrase, &component.sizes, subscript),
    }
}

/// The view of a phrase that names data of this shape, with these further names and this subscript.
#[tactic(auto, using(crate::proofs::Behind::sizes_led))]
fn view_of(
    alloc: Global,
    names: &Names<'_>,
    known: &Known,
    phrase: &Phrase<'_>,
    declared: usize,
    shape: &Shape,
    path: &[Identifier],
    subscript: &Subscript,
) -> Result<View, AllocError>
    ensures { IfOk result (λ view. seen_view view ≡ views.view_of (seen_names names.now) (seen_known known.now) (seen_phrase phrase.now) declared (seen_shape shape.now) (map seen_name path.now) (seen_subscript subscript.now)) }
{
    let path = plain_names(alloc, path)?;
    let copies = copies_chosen(names, known, phrase, shape.copies, subscript);
    let places = places_of(
        alloc,
        names,
        known,
        phrase,
        &path,
        &shape.components,
        subscript,
    )?;
    Ok(View {
        declared,
        path,
        copies,
        places,
    })
}

/// The view of a phrase that names what the phrase with this number declares, where that is stored.
fn view_in(
    alloc: Global,
    names: &Names<'_>,
    known: &Known,
    shapes: &Shapes,
    phrase: &Phrase<'_>,
    number: usize,
    path: &[Identifier],
    subscript: &Subscript,
) -> Result<Option<View>, AllocError>
    requires kept { AreKept (seen_names names.now) (seen_known known.now) shapes.now }
    ensures { IfOk result (λ found. noting.listed (option_map seen_view found) ≡ noting.views_of_declared (seen_names names.now) (seen_known known.now) (seen_phrase phrase.now) (map seen_name path.now) (seen_subscript subscript.now) number) }
{
    let Some(declared) = names.phrase(number) else {
        return Ok(None);
    };
    let Some(shape) = shapes.at(number) else {
        return Ok(None);
    };
    let view = view_of(
        alloc,
        names,
        known,
        phrase,
        declared.number,
        shape,
        path,
        subscript,
    )?;
    Ok(Some(view))
}

/// The view of a name with further names and a subscript, where it means stored data.
fn view_named(
    alloc: Global,
    names: &Names<'_>,
    known: &Known,
    shapes: &Shapes,
    phrase: &Phrase<'_>,
    name: &Name,
    path: &[Identifier],
    subscript: &Subscript,
) -> Result<Option<View>, AllocError>
    requires kept { AreKept (seen_names names.now) (seen_known known.now) shapes.now }
    ensures { IfOk result (λ found. noting.listed (option_map seen_view found) ≡ views.views_named (seen_names names.now) (seen_known known.now) (seen_phrase phrase.now) name.now (map seen_name path.now) (seen_subscript subscript.now)) }
{
    match meant(names, phrase.around.block, name) {
        None => Ok(None),
        Some(number) => view_in(alloc, names, known, shapes, phrase, number, path, subscript),
    }
}

/// The view of a name alone.
#[tactic(auto, using(hal_tree::proofs::MadeExpressions::made_unsubscripted))]
fn view_of_name(
    alloc: Global,
    names: &Names<'_>,
    known: &Known,
    shapes: &Shapes,
    phrase: &Phrase<'_>,
    name: &Name,
) -> Result<Option<View>, AllocError>
    requires kept { AreKept (seen_names names.now) (seen_known known.now) shapes.now }
    ensures { IfOk result (λ found. noting.listed (option_map seen_view found) ≡ noting.views_of_name (seen_names names.now) (seen_known known.now) (seen_phrase phrase.now) name.now) }
{
    view_named(
        alloc,
        names,
        known,
        shapes,
        phrase,
        name,
        &[],
        &Subscript::None,
    )
}

/// The view of a reference.
#[tactic(auto, using(hal_tree::proofs::MadeExpressions::made_reference))]
fn view_of_reference(
    alloc: Global,
    names: &Names<'_>,
    known: &Known,
    shapes: &Shapes,
    phrase: &Phrase<'_>,
    reference: &Reference,
) -> Result<Option<View>, AllocError>
    requires kept { AreKept (seen_names names.now) (seen_known known.now) shapes.now }
    ensures { IfOk result (λ found. noting.listed (option_map seen_view found) ≡ views.views_of_reference (seen_names names.now) (seen_known known.now) (seen_phrase phrase.now) (seen_reference reference.now)) }
{
    view_named(
        alloc,
        names,
        known,
        shapes,
        phrase,
        &reference.name,
        &reference.further,
        &reference.subscript,
    )
}

/// The view of a phrase, where it has one (language document, Views).
fn view_at(
    alloc: Global,
    names: &Names<'_>,
    known: &Known,
    shapes: &Shapes,
    phrase: &Phrase<'_>,
) -> Result<Option<View>, AllocError>
    requires kept { AreKept (seen_names names.now) (seen_known known.now) shapes.now }
    ensures { IfOk result (λ found. noting.listed (option_map seen_view found) ≡ views.views_at (seen_names names.now) (seen_known known.now) (seen_phrase phrase.now) (seen_phrase phrase.now).node) }
{
    match phrase.node {
        Node::Reference { role: _, reference } => {
            view_of_reference(alloc, names, known, shapes, phrase, reference)
        }
        Node::SubscriptName { name } => view_of_name(
            alloc, names, known, shapes, phrase, &name.name,
        ),
        Node::CallForm {
            place: _,
            name,
            arguments: _,
        } => view_of_name(alloc, names, known, shapes, phrase, name),
        Node::Variable { name } => view_of_name(alloc, names, known, shapes, phrase, &name.name),
        _ => Ok(None),
    }
}

/// Notes a view, unless it is among those that were found.
fn note(found: &mut Vec<View>, view: View) -> Result<(), AllocError>
    ensures { OnOk result (map seen_view found.new.items ≡ noting.noted (map seen_view found.old.items) (seen_view view)) }
{
    if is_among(&view, found) {
        return Ok(());
    }
    found.push(view)?;
    Ok(())
}

/// Notes the view of a phrase, where it has one and stands in a unit.
fn note_phrase(
    alloc: Global,
    found: &mut Vec<View>,
    names: &Names<'_>,
    known: &Known,
    shapes: &Shapes,
    phrase: &Phrase<'_>,
) -> Result<(), AllocError>
    requires kept { AreKept (seen_names names.now) (seen_known known.now) shapes.now }
    ensures { OnOk result (map seen_view found.new.items ≡ noting.with_phrase (seen_names names.now) (seen_known known.now) (map seen_view found.old.items) (seen_phrase phrase.now)) }
{
    if !is_in_unit(names, phrase.around.home) {
        return Ok(());
    }
    match view_at(alloc, names, known, shapes, phrase)? {
        None => Ok(()),
        Some(view) => note(found, view),
    }
}

/// Notes the views of phrases.
#[tactic(auto, unfolding(crate::specs::Noting::with_phrases))]
fn note_phrases(
    alloc: Global,
    found: &mut Vec<View>,
    names: &Names<'_>,
    known: &Known,
    shapes: &Shapes,
    phrases: &[Phrase<'_>],
) -> Result<(), AllocError>
    requires kept { AreKept (seen_names names.now) (seen_known known.now) shapes.now }
    ensures { OnOk result (map seen_view found.new.items ≡ noting.with_phrases (seen_names names.now) (seen_known known.now) (map seen_view found.old.items) (map seen_phrase phrases.now)) }
{
    for phrase in phrases {
        note_phrase(alloc, found, names, known, shapes, phrase)?;
    }
    Ok(())
}

/// The views of a set of files, each of them once (language document, Views).
#[tactic(auto, using(crate::proofs::Noted::all_noted))]
pub(crate) fn views_of(
    alloc: Global,
    names: &Names<'_>,
    known: &Known,
    shapes: &Shapes,
) -> Result<Vec<View>, AllocError>
    requires kept { AreKept (seen_names names.now) (seen_known known.now) shapes.now }
    ensures { IfOk result (λ list. map seen_view list.items ≡ views.views_of (seen_names names.now) (seen_known known.now)) }
{
    let mut list = Vec::new(alloc);
    note_phrases(alloc, &mut list, names, known, shapes, names.phrases())?;
    Ok(list)
}
