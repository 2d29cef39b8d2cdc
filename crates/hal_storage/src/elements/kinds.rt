//! The kinds of all elements.

ghost use Rattle.std.specs.Prelude.{◌≡◌, ◌++◌, flat_map, map, replicate, IfOk, OnOk};
ghost use Rattle.hal_meaning.specs.Elements as elements;
ghost use Rattle.hal_storage.specs.elements.SeenComponents.{seen_component, seen_shape};

use crate::elements::component::{Component, Shape};
use hal_values::Kind;
use std::alloc::{AllocError, Global};

/// Adds the kind of each place of an array with these sizes.
#[cycle(places)]
#[tactic(auto, using(crate::proofs::elements::Repeated::one, crate::proofs::elements::Repeated::rows))]
fn push_places(into: &mut Vec<Kind>, sizes: &[u16], kind: Kind) -> Result<(), AllocError>
    ensures { OnOk result (into.new.items ≡ into.old.items ++ replicate (elements.product sizes.now) kind) }
{
    match sizes.split_first() {
        None => {
            into.push(kind)?;
            Ok(())
        }
        Some((size, others)) => push_rows(into, *size, others, kind),
    }
}

/// The same so many times.
#[cycle(places)]
#[tactic(auto, using(crate::proofs::elements::Repeated::behind, crate::proofs::elements::Repeated::none_behind))]
fn push_rows(into: &mut Vec<Kind>, count: u16, sizes: &[u16], kind: Kind) -> Result<(), AllocError>
    ensures { OnOk result (into.new.items ≡ into.old.items ++ elements.times count (replicate (elements.product sizes.now) kind)) }
{
    let mut left = count;
    while let Some(fewer) = left.checked_sub(1) {
        push_places(into, sizes, kind)?;
        left = fewer;
    }
    Ok(())
}

/// Adds the kinds of the elements of components.
#[tactic(auto, using(crate::proofs::elements::Repeated::behind, crate::proofs::elements::Repeated::none_behind))]
fn push_copy(into: &mut Vec<Kind>, components: &[Component]) -> Result<(), AllocError>
    ensures { OnOk result (into.new.items ≡ into.old.items ++ flat_map elements.kinds_of_component (map seen_component components.now)) }
{
    for component in components {
        push_places(into, &component.sizes, component.kind)?;
    }
    Ok(())
}

/// Adds those of so many copies.
#[tactic(auto, using(crate::proofs::elements::Repeated::behind, crate::proofs::elements::Repeated::none_behind))]
fn push_copies(
    into: &mut Vec<Kind>,
    copies: u16,
    components: &[Component],
) -> Result<(), AllocError>
    ensures { OnOk result (into.new.items ≡ into.old.items ++ elements.times copies (flat_map elements.kinds_of_component (map seen_component components.now))) }
{
    let mut left = copies;
    while let Some(fewer) = left.checked_sub(1) {
        push_copy(into, components)?;
        left = fewer;
    }
    Ok(())
}

/// The kinds of all elements of data of this shape, in the order of storage (language document, Places).
pub fn kinds_of(alloc: Global, shape: &Shape) -> Result<Vec<Kind>, AllocError>
    ensures { IfOk result (λ kinds. kinds.items ≡ elements.kinds_of (seen_shape shape.now)) }
{
    let mut kinds = Vec::new(alloc);
    push_copies(&mut kinds, shape.copies.unwrap_or(1), &shape.components)?;
    Ok(kinds)
}
