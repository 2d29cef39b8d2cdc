//! A unit's own template.

ghost use Rattle.std.specs.Prelude.{◌≡◌, IfOk, map};
ghost use Rattle.std.specs.List.{list_any};
ghost use Rattle.std.specs.Option.{option_map};
ghost use Rattle.hal_tree.specs.SeenDeclarations.{seen_declaration, seen_type};
ghost use Rattle.hal_tree.specs.SeenUnits.{seen_head};
ghost use Rattle.hal_phrases.specs.SeenPhrases.{seen_node};
ghost use Rattle.hal_names.specs.SeenNames.{seen_names};
ghost use Rattle.hal_templates.specs.Own as own;

use crate::entries::entries;
use hal_names::{Key, Names, Space};
use hal_phrases::Node;
use hal_scope::type_of;
use hal_tree::{Declaration, Head, Type};
use hal_words::Name;
use std::alloc::{AllocError, Global};

/// Whether the unit with this number has a parameter of this name.
fn is_parameter_of(names: &Names<'_>, unit: usize, name: &Name) -> bool
    ensures { result ≡ own.is_parameter_of (seen_names names.now) unit name.now }
{
    let parameter = names.own(&Key {
        space: Space::Parameter,
        owner: unit,
        name: *name,
    });
    parameter.is_some()
}

/// The structure template that a type names.
#[tactic(auto, using(hal_tree::proofs::MadeDeclarations::made_integer_type, hal_tree::proofs::MadeDeclarations::made_boolean_type, hal_tree::proofs::MadeDeclarations::made_event_type, hal_tree::proofs::MadeDeclarations::made_bit_type, hal_tree::proofs::MadeDeclarations::made_character_type, hal_tree::proofs::MadeDeclarations::made_structure_type), unfolding(crate::specs::Own::template_of))]
pub(crate) fn template_of(kind: Option<&Type>) -> Option<Name>
    ensures { result ≡ own.template_of (option_map (λ kind. seen_type kind.now) kind.entry) }
{
    match kind? {
        Type::Structure { template, .. } => Some(*template),
        Type::Integer { place: _ } => None,
        Type::Boolean { place: _ } => None,
        Type::Event { place: _ } => None,
        Type::Bit { .. } => None,
        Type::Character { .. } => None,
    }
}

/// Whether this may be a name.
#[tactic(auto, unfolding(crate::specs::Own::is_name))]
fn is_name(name: &Name, found: Option<Name>) -> bool
    ensures { result ≡ own.is_name name.now found }
{
    match found {
        None => false,
        Some(found) => found.bytes() == name.bytes(),
    }
}

/// Whether this declares a parameter of a unit, whose type names a structure template.
#[tactic(auto, using(hal_tree::proofs::MadeDeclarations::made_declared), unfolding(crate::specs::Own::needs))]
fn needs(names: &Names<'_>, unit: usize, template: &Name, node: Node<'_>) -> bool
    ensures { result ≡ own.needs (seen_names names.now) unit template.now (seen_node node.entry) }
{
    match node {
        Node::Item { common, item } => {
            is_name(template, template_of(type_of(common, item)))
                && is_parameter_of(names, unit, &item.name.name)
        }
        _ => false,
    }
}

/// Whether one of these does.
fn is_any_in_need(names: &Names<'_>, unit: usize, template: &Name, all: &[Node<'_>]) -> bool
    ensures { result ≡ list_any (own.needs (seen_names names.now) unit template.now) (map seen_node all.now) }
{
    for node in all {
        if needs(names, unit, template, *node) {
            return true;
        }
    }
    false
}

/// Whether the own template of a unit with parameters has this among all that the unit declares.
#[tactic(auto, using(hal_tree::proofs::MadeDeclarations::made_declared), unfolding(crate::specs::Own::is_shown))]
fn is_shown(names: &Names<'_>, unit: usize, all: &[Node<'_>], node: Node<'_>) -> bool
    ensures { result ≡ own.is_shown (seen_names names.now) unit (map seen_node all.now) (seen_node node.entry) }
{
    match node {
        Node::Item { common: _, item } => is_parameter_of(names, unit, &item.name.name),
        Node::Structure { name, parts: _ } => is_any_in_need(names, unit, &name.name, all),
        _ => false,
    }
}

/// Those that it has.
#[tactic(auto, unfolding(crate::specs::Own::shown_among))]
fn shown_among<'a>(
    alloc: Global,
    names: &Names<'_>,
    unit: usize,
    all: &[Node<'a>],
) -> Result<Vec<Node<'a>>, AllocError>
    ensures { IfOk result (λ list. map seen_node list.items ≡ own.shown_among (seen_names names.now) unit (map seen_node all.now) (map seen_node all.now)) }
{
    let mut list = Vec::new(alloc);
    for node in all {
        if is_shown(names, unit, all, *node) {
            list.push(*node)?;
        }
    }
    Ok(list)
}

/// What the own template of a unit with parameters declares.
#[tactic(auto, using(crate::proofs::Gathered::all_shown))]
fn called_entries<'a>(
    alloc: Global,
    names: &Names<'_>,
    unit: usize,
    declarations: &'a [Declaration],
) -> Result<Vec<Node<'a>>, AllocError>
    ensures { IfOk result (λ list. map seen_node list.items ≡ own.called_entries (seen_names names.now) unit (map seen_declaration declarations.now)) }
{
    let all = entries(alloc, declarations)?;
    shown_among(alloc, names, unit, &all)
}

/// What the own template of the unit with this number, head and declarations declares (language document, Templates).
#[tactic(auto, using(hal_tree::proofs::MadeUnits::made_program, hal_tree::proofs::MadeUnits::made_compool, hal_tree::proofs::MadeUnits::made_task, hal_tree::proofs::MadeUnits::made_procedure, hal_tree::proofs::MadeUnits::made_function), unfolding(crate::specs::Own::own_entries))]
pub(crate) fn own_entries<'a>(
    alloc: Global,
    names: &Names<'_>,
    unit: usize,
    head: &Head,
    declarations: &'a [Declaration],
) -> Result<Vec<Node<'a>>, AllocError>
    ensures { IfOk result (λ list. map seen_node list.items ≡ own.own_entries (seen_names names.now) unit (seen_head head.now) (map seen_declaration declarations.now)) }
{
    match head {
        Head::Program { place: _ } => Ok(Vec::new(alloc)),
        Head::Task { place: _ } => Ok(Vec::new(alloc)),
        Head::Compool { place: _ } => entries(alloc, declarations),
        Head::Procedure { .. } => called_entries(alloc, names, unit, declarations),
        Head::Function { .. } => called_entries(alloc, names, unit, declarations),
    }
}
