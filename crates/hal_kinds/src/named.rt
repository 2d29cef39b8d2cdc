//! What kind of data names are, before subscripts.

ghost use Rattle.std.specs.Prelude.{◌≡◌, map};
ghost use Rattle.std.specs.Option.{option_map};
ghost use Rattle.hal_tree.specs.Rows.{expressions};
ghost use Rattle.hal_tree.specs.SeenDeclarations.{seen_part, seen_type};
ghost use Rattle.hal_tree.specs.SeenExpressions.{seen_expression};
ghost use Rattle.hal_tree.specs.SeenLeaves.{seen_name};
ghost use Rattle.hal_phrases.specs.SeenPhrases.{seen_node, seen_phrase};
ghost use Rattle.hal_names.specs.SeenNames.{seen_names};
ghost use Rattle.hal_kinds.specs.Data as named;

use crate::attributes::{sizes_among, sizes_of};
use crate::class::Class;
use crate::data::Data;
use hal_names::{Key, Names, Space};
use hal_phrases::{Node, Phrase};
use hal_scope::{type_among, type_of};
use hal_tree::{Expr, Identifier, Part, Type};
use hal_words::Name;

/// The class of a type's elements.
#[tactic(auto, using(hal_tree::proofs::MadeDeclarations::made_integer_type, hal_tree::proofs::MadeDeclarations::made_boolean_type, hal_tree::proofs::MadeDeclarations::made_event_type, hal_tree::proofs::MadeDeclarations::made_bit_type, hal_tree::proofs::MadeDeclarations::made_character_type, hal_tree::proofs::MadeDeclarations::made_structure_type), unfolding(crate::specs::Data::class_of_type))]
pub fn class_of_type(kind: &Type) -> Class
    ensures { result ≡ named.class_of_type (seen_type kind.now) }
{
    match kind {
        Type::Integer { place: _ } => Class::Integer,
        Type::Boolean { place: _ } => Class::Bits,
        Type::Event { place: _ } => Class::Bits,
        Type::Bit { .. } => Class::Bits,
        Type::Character { .. } => Class::Text,
        Type::Structure { .. } => Class::Structure,
    }
}

/// Whether a type has copies.
#[tactic(auto, using(hal_tree::proofs::MadeDeclarations::made_integer_type, hal_tree::proofs::MadeDeclarations::made_boolean_type, hal_tree::proofs::MadeDeclarations::made_event_type, hal_tree::proofs::MadeDeclarations::made_bit_type, hal_tree::proofs::MadeDeclarations::made_character_type, hal_tree::proofs::MadeDeclarations::made_structure_type, crate::proofs::Options::some_mapped), unfolding(crate::specs::Data::has_copies))]
fn has_copies(kind: &Type) -> bool
    ensures { result ≡ named.has_copies (seen_type kind.now) }
{
    match kind {
        Type::Structure { copies, .. } => copies.is_some(),
        Type::Integer { place: _ } => false,
        Type::Boolean { place: _ } => false,
        Type::Event { place: _ } => false,
        Type::Bit { .. } => false,
        Type::Character { .. } => false,
    }
}

/// How many dimensions there are.
#[tactic(auto, using(crate::proofs::Lists::counted), unfolding(crate::specs::Data::dimensions_of))]
fn dimensions_of(sizes: Option<&[Expr]>) -> usize
    ensures { result ≡ named.dimensions_of (option_map (λ sizes. expressions (map seen_expression sizes.now)) sizes.entry) }
{
    match sizes {
        None => 0,
        Some(sizes) => sizes.len(),
    }
}

/// Data of this type, with these sizes.
#[tactic(auto, unfolding(crate::specs::Data::data_of))]
fn data_of(kind: Option<&Type>, sizes: Option<&[Expr]>) -> Option<Data>
    ensures { result ≡ named.data_of (option_map (λ kind. seen_type kind.now) kind.entry) (option_map (λ sizes. expressions (map seen_expression sizes.now)) sizes.entry) }
{
    let kind = kind?;
    Some(Data {
        class: class_of_type(kind),
        dimensions: dimensions_of(sizes),
        copies: has_copies(kind),
    })
}

/// A part of a structure; it is a structure itself unless it is at the bottom.
#[tactic(auto, using(hal_tree::proofs::MadeDeclarations::made_part), unfolding(crate::specs::Data::part_data))]
pub fn part_data(bottom: bool, part: &Part) -> Option<Data>
    ensures { result ≡ named.part_data bottom (seen_part part.now) }
{
    if bottom {
        return data_of(type_among(&part.attributes), sizes_among(&part.attributes));
    }
    Some(Data {
        class: Class::Structure,
        dimensions: 0,
        copies: false,
    })
}

/// The part to which a path leads from a structure or a part.
#[tactic(auto, unfolding(crate::specs::Data::part_under))]
fn part_under(names: &Names<'_>, number: usize, path: &[Identifier]) -> Option<usize>
    ensures { result ≡ named.part_under (seen_names names.now) number (map seen_name path.now) }
{
    let mut owner = number;
    for part in path {
        owner = names.own(&Key {
            space: Space::Part,
            owner,
            name: part.name,
        })?;
    }
    Some(owner)
}

/// What a phrase is, where it is a part.
#[tactic(auto, unfolding(crate::specs::Data::data_at_part))]
fn data_at_part(copies: bool, node: Node<'_>) -> Option<Data>
    ensures { result ≡ named.data_at_part copies (seen_node node.entry) }
{
    match node {
        Node::Part { bottom, part } => {
            let found = part_data(bottom, part)?;
            Some(Data { copies, ..found })
        }
        _ => None,
    }
}

/// The part at the end of a path of the structure that this name means in a block.
#[tactic(auto, unfolding(crate::specs::Data::component_of))]
pub fn component_of(
    names: &Names<'_>,
    block: usize,
    template: &Name,
    path: &[Identifier],
) -> Option<usize>
    ensures { result ≡ named.component_of (seen_names names.now) block template.now (map seen_name path.now) }
{
    let number = names.means(block, template)?;
    part_under(names, number, path)
}

/// What the part with this number is.
fn data_of_part(names: &Names<'_>, copies: bool, part: Option<usize>) -> Option<Data>
    ensures { result ≡ named.data_of_part (seen_names names.now) copies part }
{
    let phrase = names.phrase(part?)?;
    data_at_part(copies, phrase.node)
}

/// What stands at the end of a path of data of this type, declared in this block.
#[tactic(auto, using(hal_tree::proofs::MadeDeclarations::made_integer_type, hal_tree::proofs::MadeDeclarations::made_boolean_type, hal_tree::proofs::MadeDeclarations::made_event_type, hal_tree::proofs::MadeDeclarations::made_bit_type, hal_tree::proofs::MadeDeclarations::made_character_type, hal_tree::proofs::MadeDeclarations::made_structure_type, crate::proofs::Options::some_mapped), unfolding(crate::specs::Data::component_data))]
fn component_data(
    names: &Names<'_>,
    block: usize,
    kind: Option<&Type>,
    path: &[Identifier],
) -> Option<Data>
    ensures { result ≡ named.component_data (seen_names names.now) block (option_map (λ kind. seen_type kind.now) kind.entry) (map seen_name path.now) }
{
    match kind {
        None => None,
        Some(
            Type::Structure {
                template,
                copies,
                ..
            },
        ) => data_of_part(
            names,
            copies.is_some(),
            component_of(names, block, template, path),
        ),
        Some(Type::Integer { place: _ }) => None,
        Some(Type::Boolean { place: _ }) => None,
        Some(Type::Event { place: _ }) => None,
        Some(Type::Bit { .. }) => None,
        Some(Type::Character { .. }) => None,
    }
}

/// What a phrase declares, or the end of a path in it.
#[tactic(auto, using(hal_scope::proofs::Lists::nil_seen), unfolding(crate::specs::Data::data_at))]
pub fn data_at(names: &Names<'_>, phrase: &Phrase<'_>, path: &[Identifier]) -> Option<Data>
    ensures { result ≡ named.data_at (seen_names names.now) (seen_phrase phrase.now) (map seen_name path.now) (seen_phrase phrase.now).node }
{
    match phrase.node {
        Node::Item { common, item } => {
            let kind = type_of(common, item);
            if path.is_empty() {
                data_of(kind, sizes_of(common, item))
            } else {
                component_data(names, phrase.around.block, kind, path)
            }
        }
        Node::TemporaryGroup { .. } => {
            if path.is_empty() {
                Some(Data {
                    class: Class::Integer,
                    dimensions: 0,
                    copies: false,
                })
            } else {
                None
            }
        }
        _ => None,
    }
}

/// What a name with a path means in a block, where it is data (language document, Kinds).
pub fn data_named(names: &Names<'_>, block: usize, name: &Name, path: &[Identifier]) -> Option<Data>
    ensures { result ≡ named.data_named (seen_names names.now) block name.now (map seen_name path.now) }
{
    let number = names.means(block, name)?;
    let phrase = names.phrase(number)?;
    data_at(names, &phrase, path)
}

/// Whether a type is that of events.
#[tactic(auto, using(hal_tree::proofs::MadeDeclarations::made_integer_type, hal_tree::proofs::MadeDeclarations::made_boolean_type, hal_tree::proofs::MadeDeclarations::made_event_type, hal_tree::proofs::MadeDeclarations::made_bit_type, hal_tree::proofs::MadeDeclarations::made_character_type, hal_tree::proofs::MadeDeclarations::made_structure_type), unfolding(crate::specs::Data::is_event_type))]
pub fn is_event_type(kind: Option<&Type>) -> bool
    ensures { result ≡ named.is_event_type (option_map (λ kind. seen_type kind.now) kind.entry) }
{
    match kind {
        None => false,
        Some(Type::Event { place: _ }) => true,
        Some(Type::Integer { place: _ }) => false,
        Some(Type::Boolean { place: _ }) => false,
        Some(Type::Bit { .. }) => false,
        Some(Type::Character { .. }) => false,
        Some(Type::Structure { .. }) => false,
    }
}

/// Whether a type is that of a structure.
#[tactic(auto, using(hal_tree::proofs::MadeDeclarations::made_integer_type, hal_tree::proofs::MadeDeclarations::made_boolean_type, hal_tree::proofs::MadeDeclarations::made_event_type, hal_tree::proofs::MadeDeclarations::made_bit_type, hal_tree::proofs::MadeDeclarations::made_character_type, hal_tree::proofs::MadeDeclarations::made_structure_type), unfolding(crate::specs::Data::is_structure_type))]
pub fn is_structure_type(kind: Option<&Type>) -> bool
    ensures { result ≡ named.is_structure_type (option_map (λ kind. seen_type kind.now) kind.entry) }
{
    match kind {
        None => false,
        Some(Type::Structure { .. }) => true,
        Some(Type::Integer { place: _ }) => false,
        Some(Type::Boolean { place: _ }) => false,
        Some(Type::Event { place: _ }) => false,
        Some(Type::Bit { .. }) => false,
        Some(Type::Character { .. }) => false,
    }
}

/// Whether a name is that of a parameter of the block to which a phrase's names belong.
pub fn is_parameter(names: &Names<'_>, phrase: &Phrase<'_>, name: &Name) -> bool
    ensures { result ≡ named.is_parameter (seen_names names.now) (seen_phrase phrase.now) name.now }
{
    let parameter = names.own(&Key {
        space: Space::Parameter,
        owner: phrase.around.home,
        name: *name,
    });
    parameter.is_some()
}
