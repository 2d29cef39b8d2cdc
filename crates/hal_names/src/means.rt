//! What a name means.

ghost use Rattle.std.specs.Prelude.{◌≡◌, map};
ghost use Rattle.std.specs.Option.{option_map};
ghost use Rattle.hal_tree.specs.SeenUnits.{seen_preface};
ghost use Rattle.hal_phrases.specs.SeenPhrases.{seen_node};
ghost use Rattle.hal_names.specs.Means.{given_by, included, included_before, is_compool_unit, nearest, prefaces_of, shown, shown_by, unit_named};
ghost use Rattle.hal_names.specs.SeenNames.{seen_names};

use crate::key::{Key, Space};
use crate::names::Names;
use hal_phrases::Node;
use hal_tree::{Head, Preface};
use hal_words::Name;

/// Whether a phrase is a COMPOOL's unit.
#[tactic(auto, using(hal_tree::proofs::MadeUnits::made_program, hal_tree::proofs::MadeUnits::made_compool, hal_tree::proofs::MadeUnits::made_task, hal_tree::proofs::MadeUnits::made_procedure, hal_tree::proofs::MadeUnits::made_function), unfolding(crate::specs::Means::is_compool_unit))]
pub fn is_compool_unit(node: Node<'_>) -> bool
    ensures { result ≡ is_compool_unit (seen_node node.entry) }
{
    match node {
        Node::Unit { head, .. } => match head {
            Head::Compool { place: _ } => true,
            Head::Program { place: _ } => false,
            Head::Task { place: _ } => false,
            Head::Procedure { .. } => false,
            Head::Function { .. } => false,
        },
        _ => false,
    }
}

/// The number of the unit of this name in the set.
#[tactic(auto, unfolding(crate::specs::Means::unit_named))]
pub(crate) fn unit_named(names: &Names<'_>, unit: &Name) -> Option<usize>
    ensures { result ≡ unit_named (seen_names names.now) unit.now }
{
    let file = names.own(&Key {
        space: Space::Unit,
        owner: 0,
        name: *unit,
    })?;
    names.own(&Key {
        space: Space::Declared,
        owner: file,
        name: *unit,
    })
}

/// What a name means in the unit with this number, where that is a COMPOOL.
#[tactic(auto, unfolding(crate::specs::Means::given_by))]
fn given_by(names: &Names<'_>, unit: usize, name: &Name) -> Option<usize>
    ensures { result ≡ given_by (seen_names names.now) unit name.now }
{
    let phrase = names.phrase(unit)?;
    if is_compool_unit(phrase.node) {
        names.own(&Key {
            space: Space::Declared,
            owner: unit,
            name: *name,
        })
    } else {
        None
    }
}

/// What a name means by the template of the unit of this name.
#[tactic(auto, unfolding(crate::specs::Means::shown))]
fn shown(names: &Names<'_>, unit: &Name, name: &Name) -> Option<usize>
    ensures { result ≡ shown (seen_names names.now) unit.now name.now }
{
    let number = unit_named(names, unit)?;
    if unit.bytes() == name.bytes() {
        Some(number)
    } else {
        given_by(names, number, name)
    }
}

/// What a name means by what stands before a unit, where that includes a template.
#[tactic(auto, using(hal_tree::proofs::MadeUnits::made_include, hal_tree::proofs::MadeUnits::made_template_preface), unfolding(crate::specs::Means::shown_by))]
fn shown_by(names: &Names<'_>, preface: &Preface, name: &Name) -> Option<usize>
    ensures { result ≡ shown_by (seen_names names.now) (seen_preface preface.now) name.now }
{
    match preface {
        Preface::Include {
            place: _,
            name: unit,
        } => shown(names, &unit.name, name),
        Preface::Template(_) => None,
    }
}

/// What a name means by the templates that these prefaces include.
#[tactic(auto, unfolding(crate::specs::Means::included))]
pub(crate) fn included(names: &Names<'_>, prefaces: &[Preface], name: &Name) -> Option<usize>
    ensures { result ≡ included (seen_names names.now) (map seen_preface prefaces.now) name.now }
{
    for preface in prefaces {
        let number = shown_by(names, preface, name);
        if number.is_some() {
            return number;
        }
    }
    None
}

/// What a name means by the templates that so many of these prefaces include.
#[tactic(auto, unfolding(crate::specs::Means::included_before))]
pub(crate) fn included_before(
    names: &Names<'_>,
    count: usize,
    prefaces: &[Preface],
    name: &Name,
) -> Option<usize>
    ensures { result ≡ included_before (seen_names names.now) (map seen_preface prefaces.now) count name.now }
{
    let mut left = count;
    for preface in prefaces {
        let Some(fewer) = left.checked_sub(1) else {
            return None;
        };
        let number = shown_by(names, preface, name);
        if number.is_some() {
            return number;
        }
        left = fewer;
    }
    None
}

/// The prefaces of a file.
#[tactic(auto, unfolding(crate::specs::Means::prefaces_of))]
pub fn prefaces_of<'a>(node: Node<'a>) -> Option<&'a [Preface]>
    ensures { option_map (λ prefaces. map seen_preface prefaces.now) result ≡ prefaces_of (seen_node node.entry) }
{
    match node {
        Node::File { prefaces, name: _ } => Some(prefaces),
        _ => None,
    }
}

/// What a name means in the block with this number, after at most so many blocks.
#[tactic(auto, unfolding(crate::specs::Means::nearest))]
pub(crate) fn nearest(names: &Names<'_>, steps: usize, block: usize, name: &Name) -> Option<usize>
    ensures { result ≡ nearest (seen_names names.now) steps block name.now }
{
    let Some(fewer) = steps.checked_sub(1) else {
        return None;
    };
    let declared = names.own(&Key {
        space: Space::Declared,
        owner: block,
        name: *name,
    });
    if declared.is_some() {
        return declared;
    }
    let phrase = names.phrase(block)?;
    match prefaces_of(phrase.node) {
        Some(prefaces) => included(names, prefaces, name),
        None => nearest(names, fewer, phrase.around.block, name),
    }
}
