//! The shapes of stored data.

ghost use Rattle.std.specs.Prelude.{◌≡◌, map, IfOk};
ghost use Rattle.std.specs.Option.{option_map};
ghost use Rattle.hal_tree.specs.SeenDeclarations.{seen_attribute, seen_declared};
ghost use Rattle.hal_phrases.specs.Phrases.{OfItem};
ghost use Rattle.hal_phrases.specs.SeenPhrases.{seen_phrase};
ghost use Rattle.hal_names.specs.SeenNames.{seen_names};
ghost use Rattle.hal_constants.specs.SeenKnown.{seen_known};
ghost use Rattle.hal_constants.specs.Known as facts;
ghost use Rattle.hal_meaning.specs.Places.{storing};
ghost use Rattle.hal_storage.specs.elements.SeenComponents.{seen_shape};
ghost use Rattle.hal_views.specs.Views as views;
ghost use Rattle.hal_limits.specs.Behind.{one_integer};
ghost use Rattle.hal_limits.specs.Kept.{AreKept, kept_shape, shape_in};

use hal_constants::{Known, is_value_item};
use hal_kinds::is_event_type;
use hal_names::Names;
use hal_phrases::{Node, Phrase};
use hal_scope::type_of;
use hal_storage::cells::{is_in_unit, parameter};
use hal_storage::elements::{Component, Shape, shape_of};
use hal_tree::{Attribute, Declared};
use hal_values::Kind;
use std::alloc::{AllocError, Global};

/// The shape of one integer.
fn one_integer(alloc: Global) -> Result<Shape, AllocError>
    ensures { IfOk result (λ shape. seen_shape shape ≡ one_integer) }
{
    let mut components = Vec::new(alloc);
    components.push(Component {
        path: Vec::new(alloc),
        kind: Kind::Double,
        sizes: Vec::new(alloc),
    })?;
    Ok(Shape {
        copies: None,
        components,
    })
}

/// The shape of what a phrase declares: a TEMPORARY variable is one integer (language document, Views).
pub(crate) fn shape_at(
    alloc: Global,
    names: &Names<'_>,
    known: &Known,
    phrase: &Phrase<'_>,
) -> Result<Shape, AllocError>
    ensures { IfOk result (λ shape. seen_shape shape ≡ views.shape_at (seen_names names.now) (seen_known known.now) (seen_phrase phrase.now) (seen_phrase phrase.now).node) }
{
    match phrase.node {
        Node::Item { common, item } => shape_of(alloc, names, known, phrase, common, item),
        _ => one_integer(alloc),
    }
}

/// Whether what an item declares has cells or places: as a parameter, or where it is no event and no constant that is its value. How it is stored isn't asked, for which
/// all phrases would be looked through for a TASK.
fn stores_item(
    names: &Names<'_>,
    phrase: &Phrase<'_>,
    common: &[Attribute],
    item: &Declared,
) -> bool
    ensures { (vs : facts.Known) → result ≡ views.is_stored (storing (seen_names names.now) vs (seen_phrase phrase.now) (OfItem (map seen_attribute common.now) (seen_declared item.now))) }
{
    if !is_in_unit(names, phrase.around.home) {
        return false;
    }
    match parameter(names, phrase.around.home, &item.name.name) {
        Some(_) => true,
        None => !is_event_type(type_of(common, item)) && !is_value_item(common, item),
    }
}

/// Whether a phrase declares stored data (language document, Views).
fn declares_stored(names: &Names<'_>, phrase: &Phrase<'_>) -> bool
    ensures { (vs : facts.Known) → result ≡ views.declares_stored (seen_names names.now) vs (seen_phrase phrase.now) (seen_phrase phrase.now).node }
{
    match phrase.node {
        Node::Item { common, item } => stores_item(names, phrase, common, item),
        Node::TemporaryGroup {
            labels: _,
            variable: _,
        } => true,
        _ => false,
    }
}

/// The shapes of stored data, each made once, by the number of the phrase that declares them.
#[derive(Drop)]
pub struct Shapes {
    list: Vec<Option<Shape>>,
}

/// The shape of what a phrase declares, where that is stored.
fn stored_shape(
    alloc: Global,
    names: &Names<'_>,
    known: &Known,
    phrase: &Phrase<'_>,
) -> Result<Option<Shape>, AllocError>
    ensures { IfOk result (λ shape. option_map seen_shape shape ≡ kept_shape (seen_names names.now) (seen_known known.now) (seen_phrase phrase.now)) }
{
    if !declares_stored(names, phrase) {
        return Ok(None);
    }
    let shape = shape_at(alloc, names, known, phrase)?;
    Ok(Some(shape))
}

impl Shapes {
    /// The shapes of all stored data of a set.
    pub(crate) fn of(alloc: Global, names: &Names<'_>, known: &Known) -> Result<Shapes, AllocError>
        ensures { IfOk result (AreKept (seen_names names.now) (seen_known known.now)) }
    {
        let mut list = Vec::with_capacity(alloc, names.phrases().len())?;
        for phrase in names.phrases() {
            list.push(stored_shape(alloc, names, known, phrase)?)?;
        }
        Ok(Shapes { list })
    }

    /// The shape of what the phrase with this number declares, where that is stored.
    pub(crate) fn at(&self, number: usize) -> Option<&Shape>
        ensures { option_map (λ shape. seen_shape shape.now) result ≡ shape_in self.now number }
    {
        match self.list.get(number) {
            None => None,
            Some(shape) => shape.as_ref(),
        }
    }
}
