//! The components to which names lead.

ghost use Rattle.std.specs.Prelude.{◌≡◌, map};
ghost use Rattle.std.specs.Option.{option_map};
ghost use Rattle.hal_storage.specs.elements.SeenComponents.{seen_component};
ghost use Rattle.hal_meaning.specs.Elements as elements;
ghost use Rattle.hal_views.specs.Views as views;
ghost use Rattle.hal_limits.specs.Behind as found;
ghost use Rattle.hal_limits.specs.Counts.{capped, counted};

use hal_storage::elements::{Component, count};
use hal_words::Name;

/// Whether a component of this path lies behind these names.
fn is_behind(names: &[Name], path: &[Name]) -> bool
    ensures { result ≡ views.is_behind names.now path.now }
{
    let mut left = names;
    let mut rest = path;
    while let Some((wanted, others)) = left.split_first() {
        let Some((name, more)) = rest.split_first() else {
            return false;
        };
        if wanted.bytes() == name.bytes() {
            left = others;
            rest = more;
        } else {
            return false;
        }
    }
    true
}

/// Whether none of the components lies behind these names.
#[tactic(auto, unfolding(crate::specs::Behind::is_none_behind))]
fn is_none_behind(names: &[Name], components: &[Component]) -> bool
    ensures { result ≡ found.is_none_behind names.now (map seen_component components.now) }
{
    for component in components {
        if is_behind(names, &component.path) {
            return false;
        }
    }
    true
}

/// A component, where none of the others lies behind these names.
fn alone<'a>(
    names: &[Name],
    component: &'a Component,
    others: &[Component],
) -> Option<&'a Component>
    ensures { option_map (λ one. seen_component one.now) result ≡ found.alone names.now (seen_component component.now) (map seen_component others.now) }
{
    if is_none_behind(names, others) {
        Some(component)
    } else {
        None
    }
}

/// The one component that lies behind these names, where it is one.
#[tactic(auto, unfolding(crate::specs::Behind::sole_behind))]
pub(crate) fn sole_behind<'a>(names: &[Name], components: &'a [Component]) -> Option<&'a Component>
    ensures { option_map (λ one. seen_component one.now) result ≡ found.sole_behind names.now (map seen_component components.now) }
{
    let mut rest = components;
    while let Some((component, others)) = rest.split_first() {
        if is_behind(names, &component.path) {
            return alone(names, component, others);
        }
        rest = others;
    }
    None
}

/// How many elements of a component lie behind these names in one copy.
fn count_behind(names: &[Name], component: &Component) -> u32
    ensures { result ≡ capped (found.count_behind names.now (seen_component component.now)) }
{
    if is_behind(names, &component.path) {
        count(component)
    } else {
        0
    }
}

/// How many elements of each of these components lie behind these names, together.
#[tactic(auto, unfolding(crate::specs::Counts::counted))]
fn counted_behind(names: &[Name], components: &[Component]) -> u32
    ensures { result ≡ counted (found.count_behind names.now) 0 (map seen_component components.now) }
{
    let mut size: u32 = 0;
    for component in components {
        size = size.saturating_add(count_behind(names, component));
    }
    size
}

/// How many elements of one copy lie behind these names, 4,294,967,295 where there are more.
#[tactic(auto, using(crate::proofs::Behind::size_counted))]
pub(crate) fn size_behind(names: &[Name], components: &[Component]) -> u32
    ensures { result ≡ capped (elements.copy_size (views.components_behind names.now (map seen_component components.now))) }
{
    counted_behind(names, components)
}
