//! The one element to which names lead.

ghost use Rattle.std.specs.Prelude.{◌≡◌, map};
ghost use Rattle.hal_tree.specs.SeenLeaves.{seen_name};
ghost use Rattle.hal_storage.specs.elements.SeenComponents.{seen_component};
ghost use Rattle.hal_meaning.specs.Elements as elements;
ghost use Rattle.hal_meaning.specs.Expressions as meaning;
ghost use Rattle.hal_meaning.specs.Variables as variables;
ghost use Rattle.hal_gen_expr.specs.Elements as found;

use hal_storage::elements::{Component, count};
use hal_tree::Identifier;
use hal_values::Kind;
use hal_words::Name;

/// An element: how many elements of its data lie before it, 4,294,967,295 where there are more, and its kind.
#[derive(Clone, Copy)]
pub struct Element {
    pub before: u32,
    pub kind: Kind,
}

/// Whether these names are the first of those (language document, Structures).
pub fn leads(path: &[Identifier], names: &[Name]) -> bool
    ensures { result ≡ elements.leads (map seen_name path.now) names.now }
{
    let mut left = path;
    let mut rest = names;
    while let Some((wanted, others)) = left.split_first() {
        let Some((name, more)) = rest.split_first() else {
            return false;
        };
        if wanted.name.bytes() == name.bytes() {
            left = others;
            rest = more;
        } else {
            return false;
        }
    }
    true
}

/// Whether these names are all of those (language document, Structures).
fn are_all(path: &[Identifier], names: &[Name]) -> bool
    ensures { result ≡ elements.are_all (map seen_name path.now) names.now }
{
    let mut left = path;
    let mut rest = names;
    while let Some((wanted, others)) = left.split_first() {
        let Some((name, more)) = rest.split_first() else {
            return false;
        };
        if wanted.name.bytes() == name.bytes() {
            left = others;
            rest = more;
        } else {
            return false;
        }
    }
    rest.is_empty()
}

/// Whether these names lead to none of the components.
#[tactic(auto, unfolding(crate::specs::Elements::leads_to_none))]
fn leads_to_none(path: &[Identifier], components: &[Component]) -> bool
    ensures { result ≡ found.leads_to_none (map seen_name path.now) (map seen_component components.now) }
{
    for component in components {
        if leads(path, &component.path) {
            return false;
        }
    }
    true
}

/// The element that a component is, before which so many lie, where it has no dimensions and names lead to none of the others.
fn sole(
    path: &[Identifier],
    before: u32,
    component: &Component,
    others: &[Component],
) -> Option<Element>
    ensures { result ≡ found.sole (map seen_name path.now) before (seen_component component.now) (map seen_component others.now) }
{
    if leads_to_none(path, others) && component.sizes.is_empty() {
        Some(Element {
            before,
            kind: component.kind,
        })
    } else {
        None
    }
}

/// The element to which names lead among components, where it is one.
#[tactic(auto, unfolding(crate::specs::Elements::element_from))]
fn element_among(path: &[Identifier], components: &[Component]) -> Option<Element>
    ensures { result ≡ found.element_from (map seen_name path.now) 0 (map seen_component components.now) }
{
    let mut before: u32 = 0;
    let mut rest = components;
    while let Some((component, others)) = rest.split_first() {
        if leads(path, &component.path) {
            return sole(path, before, component, others);
        }
        before = before.saturating_add(count(component));
        rest = others;
    }
    None
}

/// The element to which names lead, where it is one (language document, Places).
#[tactic(auto, using(crate::proofs::Chosen::element_chosen))]
pub fn element_named(path: &[Identifier], components: &[Component]) -> Option<Element>
    ensures { result ≡ found.element_in (map seen_name path.now) (map seen_component components.now) }
{
    element_among(path, components)
}

/// The first element of the first component to which names lead.
#[tactic(auto, unfolding(crate::specs::Elements::first_from))]
fn first_among(path: &[Identifier], components: &[Component]) -> Element
    ensures { result ≡ found.first_from (map seen_name path.now) 0 (map seen_component components.now) }
{
    let mut before: u32 = 0;
    let mut rest = components;
    while let Some((component, others)) = rest.split_first() {
        if leads(path, &component.path) {
            return Element {
                before,
                kind: component.kind,
            };
        }
        before = before.saturating_add(count(component));
        rest = others;
    }
    Element {
        before,
        kind: Kind::Double,
    }
}

/// The first element to which names lead, 4,294,967,295 behind the first one of all where it lies farther (language document, Places).
#[tactic(auto, using(crate::proofs::Chosen::first_chosen))]
pub(crate) fn first_element(path: &[Identifier], components: &[Component]) -> Element
    ensures { result ≡ found.first_in (map seen_name path.now) (map seen_component components.now) }
{
    first_among(path, components)
}

/// The sizes of the array of the first component to which names lead; none where there is none.
pub(crate) fn sizes_named<'a>(path: &[Identifier], components: &'a [Component]) -> &'a [u16]
    ensures { result.now ≡ variables.sizes_of_first (elements.chosen (map seen_name path.now) (map seen_component components.now)) }
{
    for component in components {
        if leads(path, &component.path) {
            return &component.sizes;
        }
    }
    &[]
}

/// The sizes of the array that names name in full; none of a structure and of a part that has parts.
pub(crate) fn sizes_reached<'a>(path: &[Identifier], components: &'a [Component]) -> &'a [u16]
    ensures { result.now ≡ meaning.sizes_reached (map seen_name path.now) (map seen_component components.now) }
{
    for component in components {
        if are_all(path, &component.path) {
            return &component.sizes;
        }
    }
    &[]
}
