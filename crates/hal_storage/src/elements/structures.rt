//! The components of structures.

ghost use Rattle.std.specs.Prelude.{◌≡◌, [], ◌++◌, IfOk, OnOk, map};
ghost use Rattle.hal_tree.specs.SeenDeclarations.{seen_part};
ghost use Rattle.hal_phrases.specs.GatheredDeclarations.{is_bottom};
ghost use Rattle.hal_phrases.specs.SeenPhrases.{seen_phrase};
ghost use Rattle.hal_names.specs.SeenNames.{seen_names};
ghost use Rattle.hal_constants.specs.SeenKnown.{seen_known};
ghost use Rattle.hal_meaning.specs.Elements as elements;
ghost use Rattle.hal_storage.specs.elements.Components as shapes;
ghost use Rattle.hal_storage.specs.elements.SeenComponents.{seen_above, seen_component};

use crate::elements::component::Component;
use crate::elements::sizes::sizes_given;
use hal_constants::{Known, kind_of_type};
use hal_kinds::{has_mark, sizes_among};
use hal_names::Names;
use hal_phrases::{Node, Phrase};
use hal_scope::type_among;
use hal_tree::{Mark, Part};
use hal_values::Kind;
use hal_words::Name;
use std::alloc::{AllocError, Global};

/// A part that has parts of its own.
#[derive(Clone, Copy)]
pub struct Above {
    pub level: u32,
    pub name: Name,
}

/// Those of a lower level than this one.
fn lower(alloc: Global, level: u32, above: &[Above]) -> Result<Vec<Above>, AllocError>
    ensures { IfOk result (λ list. map seen_above list.items ≡ elements.lower level (map seen_above above.now)) }
{
    let mut list = Vec::new(alloc);
    for part in above {
        if part.level < level {
            list.push(*part)?;
        }
    }
    Ok(list)
}

/// The names of parts.
fn names_of(alloc: Global, above: &[Above]) -> Result<Vec<Name>, AllocError>
    ensures { IfOk result (λ list. list.items ≡ shapes.names_of (map seen_above above.now)) }
{
    let mut list = Vec::new(alloc);
    for part in above {
        list.push(part.name)?;
    }
    Ok(list)
}

/// The names that lead to a part behind these.
#[tactic(auto, using(hal_tree::proofs::MadeDeclarations::made_part))]
fn path_to(alloc: Global, above: &[Above], part: &Part) -> Result<Vec<Name>, AllocError>
    ensures { IfOk result (λ path. path.items ≡ elements.path_to (map seen_above above.now) (seen_part part.now)) }
{
    let mut path = names_of(alloc, above)?;
    path.push(part.name.name)?;
    Ok(path)
}

/// Whether a part has no parts of its own, where these stand behind it.
#[tactic(auto, using(hal_tree::proofs::MadeDeclarations::made_part), unfolding(hal_phrases::specs::GatheredDeclarations::is_bottom))]
fn is_bottom(part: &Part, rest: &[Part]) -> bool
    ensures { result ≡ is_bottom (seen_part part.now).level (map seen_part rest.now) }
{
    match rest.split_first() {
        None => true,
        Some((next, _)) => next.level <= part.level,
    }
}

/// Those of a lower level than a part, and the part itself unless it is at the bottom.
#[tactic(auto, using(hal_tree::proofs::MadeDeclarations::made_part, crate::proofs::elements::Repeated::one_mapped), unfolding(crate::specs::elements::Components::opened))]
fn opened(
    alloc: Global,
    above: &[Above],
    part: &Part,
    bottom: bool,
) -> Result<Vec<Above>, AllocError>
    ensures { IfOk result (λ list. map seen_above list.items ≡ shapes.opened bottom (map seen_above above.now) (seen_part part.now)) }
{
    let mut outer = lower(alloc, part.level, above)?;
    if bottom {
        return Ok(outer);
    }
    outer.push(Above {
        level: part.level,
        name: part.name.name,
    })?;
    Ok(outer)
}

/// The component that a part is, behind those that have it.
#[tactic(auto, using(hal_tree::proofs::MadeDeclarations::made_part))]
fn component_of_part(
    alloc: Global,
    names: &Names<'_>,
    known: &Known,
    structure: &Phrase<'_>,
    above: &[Above],
    part: &Part,
) -> Result<Component, AllocError>
    ensures { IfOk result (λ c. seen_component c ≡ shapes.component_of_part (seen_names names.now) (seen_known known.now) (seen_phrase structure.now) (map seen_above above.now) (seen_part part.now)) }
{
    let double = has_mark(Mark::Double, &part.attributes);
    let kind = kind_of_type(
        names,
        known,
        structure,
        double,
        type_among(&part.attributes),
    );
    let list = sizes_among(&part.attributes);
    Ok(Component {
        path: path_to(alloc, above, part)?,
        kind: kind.unwrap_or(Kind::Single),
        sizes: sizes_given(alloc, names, known, structure, list)?,
    })
}

/// Adds the component that a part is, unless it has parts of its own.
#[tactic(auto, using(crate::proofs::elements::Repeated::one_mapped, crate::proofs::elements::Repeated::none_behind), unfolding(crate::specs::elements::Components::bottom_component))]
fn push_bottom(
    alloc: Global,
    into: &mut Vec<Component>,
    names: &Names<'_>,
    known: &Known,
    structure: &Phrase<'_>,
    above: &[Above],
    part: &Part,
    bottom: bool,
) -> Result<(), AllocError>
    ensures { OnOk result (map seen_component into.new.items ≡ map seen_component into.old.items ++ shapes.bottom_component (seen_names names.now) (seen_known known.now) (seen_phrase structure.now) bottom (map seen_above above.now) (seen_part part.now)) }
{
    if !bottom {
        return Ok(());
    }
    let component = component_of_part(alloc, names, known, structure, above, part)?;
    into.push(component)?;
    Ok(())
}

/// The components that parts are, in the structure template of this phrase.
#[tactic(auto, using(crate::proofs::elements::Parted::one_part, crate::proofs::elements::Repeated::none_behind))]
fn components_from(
    alloc: Global,
    names: &Names<'_>,
    known: &Known,
    structure: &Phrase<'_>,
    parts: &[Part],
) -> Result<Vec<Component>, AllocError>
    ensures { IfOk result (λ list. map seen_component list.items ≡ elements.components_from (seen_names names.now) (seen_known known.now) (seen_phrase structure.now) [] (map seen_part parts.now)) }
{
    let mut list = Vec::new(alloc);
    let mut above = Vec::new(alloc);
    let mut rest = parts;
    while let Some((part, later)) = rest.split_first() {
        let bottom = is_bottom(part, later);
        let outer = opened(alloc, &above, part, bottom)?;
        push_bottom(
            alloc, &mut list, names, known, structure, &outer, part, bottom,
        )?;
        above = outer;
        rest = later;
    }
    Ok(list)
}

/// The components of the structure that a phrase declares.
fn components_at(
    alloc: Global,
    names: &Names<'_>,
    known: &Known,
    structure: &Phrase<'_>,
) -> Result<Vec<Component>, AllocError>
    ensures { IfOk result (λ list. map seen_component list.items ≡ elements.components_at (seen_names names.now) (seen_known known.now) (seen_phrase structure.now) (seen_phrase structure.now).node) }
{
    match structure.node {
        Node::Structure { name: _, parts } => {
            components_from(alloc, names, known, structure, parts)
        }
        _ => Ok(Vec::new(alloc)),
    }
}

/// The components of the structure that this name means in a block.
pub(crate) fn components_named(
    alloc: Global,
    names: &Names<'_>,
    known: &Known,
    block: usize,
    template: &Name,
) -> Result<Vec<Component>, AllocError>
    ensures { IfOk result (λ list. map seen_component list.items ≡ elements.components_named (seen_names names.now) (seen_known known.now) block template.now) }
{
    let Some(number) = names.means(block, template) else {
        return Ok(Vec::new(alloc));
    };
    match names.phrase(number) {
        None => Ok(Vec::new(alloc)),
        Some(structure) => components_at(alloc, names, known, &structure),
    }
}
