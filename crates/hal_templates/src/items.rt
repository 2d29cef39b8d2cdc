//! Whether a template declares what its unit does.

ghost use Rattle.std.specs.Prelude.{◌≡◌, map, IfOk};
ghost use Rattle.std.specs.Option.{option_map};
ghost use Rattle.hal_tree.specs.SeenDeclarations.{seen_attribute, seen_declared, seen_part};
ghost use Rattle.hal_tree.specs.SeenLeaves.{seen_name};
ghost use Rattle.hal_phrases.specs.SeenPhrases.{seen_node, seen_phrase};
ghost use Rattle.hal_names.specs.SeenNames.{seen_names};
ghost use Rattle.hal_constants.specs.SeenKnown.{seen_known};
ghost use Rattle.hal_templates.specs.Items as items;

use crate::meanings::same_meaning;
use crate::own::template_of;
use crate::reading::type_given;
use crate::structures::{names_same, same_parts};
use crate::values::same_constants;
use hal_constants::Known;
use hal_names::{Key, Names, Space};
use hal_phrases::{Node, Phrase};
use hal_tree::{Attribute, Declared, Identifier, Part};
use hal_words::Name;
use std::alloc::{AllocError, Global};

/// Whether data that two phrases declare have the same attributes, the values behind CONSTANT aside.
fn same_attributes(
    names: &Names<'_>,
    known: &Known,
    one: &Phrase<'_>,
    common: &[Attribute],
    own: &[Attribute],
    two: &Phrase<'_>,
    other_common: &[Attribute],
    other_own: &[Attribute],
) -> bool
    ensures { result ≡ items.same_attributes (seen_names names.now) (seen_known known.now) (seen_phrase one.now) (map seen_attribute common.now) (map seen_attribute own.now) (seen_phrase two.now) (map seen_attribute other_common.now) (map seen_attribute other_own.now) }
{
    same_meaning(names, known, one, common, own, two, other_common, other_own)
        && names_same(names, known, one, two, template_of(type_given(common, own)))
}

/// Whether they have the same attributes.
fn same_item(
    alloc: Global,
    names: &Names<'_>,
    known: &Known,
    one: &Phrase<'_>,
    common: &[Attribute],
    own: &[Attribute],
    two: &Phrase<'_>,
    other_common: &[Attribute],
    other_own: &[Attribute],
) -> Result<bool, AllocError>
    ensures { IfOk result (λ same. same ≡ items.same_item (seen_names names.now) (seen_known known.now) (seen_phrase one.now) (map seen_attribute common.now) (map seen_attribute own.now) (seen_phrase two.now) (map seen_attribute other_common.now) (map seen_attribute other_own.now)) }
{
    if !same_attributes(names, known, one, common, own, two, other_common, other_own) {
        return Ok(false);
    }
    same_constants(
        alloc,
        names,
        known,
        one,
        common,
        own,
        two,
        other_common,
        other_own,
    )
}

/// The phrase that declares this name in the block with this number.
fn declaring<'a>(names: &Names<'a>, block: usize, name: &Name) -> Option<Phrase<'a>>
    ensures { option_map seen_phrase result ≡ items.declaring (seen_names names.now) block name.now }
{
    let number = names.own(&Key {
        space: Space::Declared,
        owner: block,
        name: *name,
    })?;
    names.phrase(number)
}

/// Data of one name.
#[tactic(auto, using(hal_tree::proofs::MadeDeclarations::made_declared), unfolding(crate::specs::Items::same_data))]
fn same_data(
    alloc: Global,
    names: &Names<'_>,
    known: &Known,
    one: Option<Phrase<'_>>,
    common: &[Attribute],
    item: &Declared,
    two: Option<Phrase<'_>>,
    other_common: &[Attribute],
    other: &Declared,
) -> Result<bool, AllocError>
    ensures { IfOk result (λ same. same ≡ items.same_data (seen_names names.now) (seen_known known.now) (option_map seen_phrase one.entry) (map seen_attribute common.now) (seen_declared item.now).attributes (option_map seen_phrase two.entry) (map seen_attribute other_common.now) (seen_declared other.now).attributes) }
{
    let Some(one) = one else {
        return Ok(true);
    };
    match two {
        None => Ok(true),
        Some(two) => same_item(
            alloc,
            names,
            known,
            &one,
            common,
            &item.attributes,
            &two,
            other_common,
            &other.attributes,
        ),
    }
}

/// Structure templates of one name.
#[tactic(auto, unfolding(crate::specs::Items::same_structures))]
fn same_structures(
    names: &Names<'_>,
    known: &Known,
    one: Option<Phrase<'_>>,
    parts: &[Part],
    two: Option<Phrase<'_>>,
    others: &[Part],
) -> bool
    ensures { result ≡ items.same_structures (seen_names names.now) (seen_known known.now) (option_map seen_phrase one.entry) (map seen_part parts.now) (option_map seen_phrase two.entry) (map seen_part others.now) }
{
    let Some(one) = one else {
        return true;
    };
    match two {
        None => true,
        Some(two) => same_parts(names, known, &one, parts, &two, others),
    }
}

/// Data of a template, and what its unit declares.
#[tactic(auto, using(hal_tree::proofs::MadeDeclarations::made_declared), unfolding(crate::specs::Items::same_as_data))]
fn same_as_data(
    alloc: Global,
    names: &Names<'_>,
    known: &Known,
    home: usize,
    common: &[Attribute],
    item: &Declared,
    unit: usize,
    node: Node<'_>,
) -> Result<bool, AllocError>
    ensures { IfOk result (λ same. same ≡ items.same_as_data (seen_names names.now) (seen_known known.now) home (map seen_attribute common.now) (seen_declared item.now) unit (seen_node node.entry)) }
{
    match node {
        Node::Item {
            common: other_common,
            item: other,
        } => {
            let name = &item.name.name;
            if name.bytes() != other.name.name.bytes() {
                return Ok(false);
            }
            let one = declaring(names, home, name);
            let two = declaring(names, unit, name);
            same_data(
                alloc,
                names,
                known,
                one,
                common,
                item,
                two,
                other_common,
                other,
            )
        }
        _ => Ok(false),
    }
}

/// A structure template of a template, and what its unit declares.
#[tactic(auto, unfolding(crate::specs::Items::same_as_structure))]
fn same_as_structure(
    names: &Names<'_>,
    known: &Known,
    home: usize,
    name: &Identifier,
    parts: &[Part],
    unit: usize,
    node: Node<'_>,
) -> bool
    ensures { result ≡ items.same_as_structure (seen_names names.now) (seen_known known.now) home (seen_name name.now) (map seen_part parts.now) unit (seen_node node.entry) }
{
    match node {
        Node::Structure {
            name: other,
            parts: others,
        } => {
            name.name.bytes() == other.name.bytes()
                && same_structures(
                    names,
                    known,
                    declaring(names, home, &name.name),
                    parts,
                    declaring(names, unit, &name.name),
                    others,
                )
        }
        _ => false,
    }
}

/// What a template declares in the block with this number, and what its unit declares in that one.
#[tactic(auto, unfolding(crate::specs::Items::same_entry))]
fn same_entry(
    alloc: Global,
    names: &Names<'_>,
    known: &Known,
    home: usize,
    one: Node<'_>,
    unit: usize,
    other: Node<'_>,
) -> Result<bool, AllocError>
    ensures { IfOk result (λ same. same ≡ items.same_entry (seen_names names.now) (seen_known known.now) home (seen_node one.entry) unit (seen_node other.entry)) }
{
    match one {
        Node::Item { common, item } => {
            same_as_data(alloc, names, known, home, common, item, unit, other)
        }
        Node::Structure { name, parts } => Ok(same_as_structure(
            names, known, home, name, parts, unit, other,
        )),
        _ => Ok(false),
    }
}

/// The same in order (language document, Templates).
pub(crate) fn same_entries(
    alloc: Global,
    names: &Names<'_>,
    known: &Known,
    home: usize,
    ours: &[Node<'_>],
    unit: usize,
    theirs: &[Node<'_>],
) -> Result<bool, AllocError>
    ensures { IfOk result (λ same. same ≡ items.same_entries (seen_names names.now) (seen_known known.now) home (map seen_node ours.now) unit (map seen_node theirs.now)) }
{
    let mut place: usize = 0;
    for one in ours {
        let Some(other) = theirs.get(place) else {
            return Ok(false);
        };
        if !same_entry(alloc, names, known, home, *one, unit, *other)? {
            return Ok(false);
        }
        place += 1;
    }
    Ok(theirs.len() <= place)
}
