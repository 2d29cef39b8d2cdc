//! The phrases of declarations.

ghost use Rattle.std.specs.Prelude.{◌≡◌, map, OnOk};
ghost use Rattle.hal_tree.specs.SeenDeclarations.{seen_attribute, seen_declaration, seen_declared, seen_type};
ghost use Rattle.hal_phrases.specs.Phrases.{gathered_each};
ghost use Rattle.hal_phrases.specs.GatheredDeclarations.{gathered_attribute, gathered_declaration, gathered_item, gathered_kind};
ghost use Rattle.hal_phrases.specs.SeenPhrases.{seen_phrase};

use crate::around::Around;
use crate::expressions::{gather_expression, gather_expressions, gather_optional};
use crate::initials::gather_initials;
use crate::node::{Node, Phrase, below, push};
use crate::parts::gather_parts;
use crate::role::Role;
use hal_tree::{Attribute, Declaration, Declared, Type};
use std::alloc::{AllocError, Global};

/// Adds the phrases of a type.
#[tactic(auto, using(hal_tree::proofs::MadeDeclarations::made_integer_type, hal_tree::proofs::MadeDeclarations::made_boolean_type, hal_tree::proofs::MadeDeclarations::made_event_type, hal_tree::proofs::MadeDeclarations::made_bit_type, hal_tree::proofs::MadeDeclarations::made_character_type, hal_tree::proofs::MadeDeclarations::made_structure_type), unfolding(crate::specs::GatheredDeclarations::gathered_kind))]
pub(crate) fn gather_type<'a>(
    into: &mut Vec<Phrase<'a>>,
    around: Around,
    tree: &'a Type,
) -> Result<(), AllocError>
    ensures { OnOk result (map seen_phrase into.new.items ≡ gathered_kind (map seen_phrase into.old.items) around (seen_type tree.now)) }
{
    match tree {
        Type::Integer { place: _ } => Ok(()),
        Type::Boolean { place: _ } => Ok(()),
        Type::Event { place: _ } => Ok(()),
        Type::Bit { place: _, size } => gather_expression(into, around, Role::BitLength, size),
        Type::Character { place: _, size } => {
            gather_expression(into, around, Role::TextLength, size)
        }
        Type::Structure {
            place,
            template,
            copies,
        } => {
            push(
                into,
                around,
                Node::StructureType {
                    place: *place,
                    template,
                },
            )?;
            gather_optional(into, around, Role::Copies, copies)
        }
    }
}

/// Adds the phrases of an attribute.
#[tactic(auto, using(hal_tree::proofs::MadeDeclarations::made_dimensions, hal_tree::proofs::MadeDeclarations::made_typed, hal_tree::proofs::MadeDeclarations::made_marked, hal_tree::proofs::MadeDeclarations::made_lock_group, hal_tree::proofs::MadeDeclarations::made_lock_any, hal_tree::proofs::MadeDeclarations::made_initial, hal_tree::proofs::MadeDeclarations::made_constant), unfolding(crate::specs::GatheredDeclarations::gathered_attribute))]
fn gather_attribute<'a>(
    into: &mut Vec<Phrase<'a>>,
    around: Around,
    tree: &'a Attribute,
) -> Result<(), AllocError>
    ensures { OnOk result (map seen_phrase into.new.items ≡ gathered_attribute around (map seen_phrase into.old.items) (seen_attribute tree.now)) }
{
    match tree {
        Attribute::Dimensions { place: _, sizes } => {
            gather_expressions(into, around, Role::Dimension, sizes)
        }
        Attribute::Typed(kind) => gather_type(into, around, kind),
        Attribute::Marked { place: _, mark: _ } => Ok(()),
        Attribute::LockGroup { place: _, group } => {
            gather_expression(into, around, Role::LockGroup, group)
        }
        Attribute::LockAny { place: _ } => Ok(()),
        Attribute::Initial { place: _, values } => gather_initials(into, around, values),
        Attribute::Constant { place: _, values } => gather_initials(into, around, values),
    }
}

/// Adds the phrases of attributes.
pub(crate) fn gather_attributes<'a>(
    into: &mut Vec<Phrase<'a>>,
    around: Around,
    trees: &'a [Attribute],
) -> Result<(), AllocError>
    ensures { OnOk result (map seen_phrase into.new.items ≡ gathered_each (gathered_attribute around) (map seen_phrase into.old.items) (map seen_attribute trees.now)) }
{
    for tree in trees {
        gather_attribute(into, around, tree)?;
    }
    Ok(())
}

/// Adds a name that is declared, behind these common attributes, and its phrases.
#[tactic(auto, using(hal_tree::proofs::MadeDeclarations::made_declared), unfolding(crate::specs::GatheredDeclarations::gathered_item))]
fn gather_item<'a>(
    into: &mut Vec<Phrase<'a>>,
    around: Around,
    common: &'a [Attribute],
    item: &'a Declared,
) -> Result<(), AllocError>
    ensures { OnOk result (map seen_phrase into.new.items ≡ gathered_item around (map seen_attribute common.now) (map seen_phrase into.old.items) (seen_declared item.now)) }
{
    let below = below(into, around);
    push(into, around, Node::Item { common, item })?;
    gather_attributes(into, below, &item.attributes)
}

/// Adds names that are declared, and their phrases.
fn gather_items<'a>(
    into: &mut Vec<Phrase<'a>>,
    around: Around,
    common: &'a [Attribute],
    items: &'a [Declared],
) -> Result<(), AllocError>
    ensures { OnOk result (map seen_phrase into.new.items ≡ gathered_each (gathered_item around (map seen_attribute common.now)) (map seen_phrase into.old.items) (map seen_declared items.now)) }
{
    for item in items {
        gather_item(into, around, common, item)?;
    }
    Ok(())
}

/// Adds a declaration and its phrases.
#[tactic(auto, using(hal_tree::proofs::MadeDeclarations::made_declare, hal_tree::proofs::MadeDeclarations::made_structure), unfolding(crate::specs::GatheredDeclarations::gathered_declaration))]
fn gather_declaration<'a>(
    alloc: Global,
    into: &mut Vec<Phrase<'a>>,
    around: Around,
    tree: &'a Declaration,
) -> Result<(), AllocError>
    ensures { OnOk result (map seen_phrase into.new.items ≡ gathered_declaration around (map seen_phrase into.old.items) (seen_declaration tree.now)) }
{
    let below = below(into, around);
    match tree {
        Declaration::Declare {
            place: _,
            common,
            items,
        } => {
            push(into, around, Node::Declare { common })?;
            gather_attributes(into, below, common)?;
            gather_items(into, below, common, items)
        }
        Declaration::Structure {
            place: _,
            name,
            parts,
        } => {
            push(into, around, Node::Structure { name, parts })?;
            gather_parts(alloc, into, below, parts)
        }
    }
}

/// Adds declarations and their phrases.
pub(crate) fn gather_declarations<'a>(
    alloc: Global,
    into: &mut Vec<Phrase<'a>>,
    around: Around,
    trees: &'a [Declaration],
) -> Result<(), AllocError>
    ensures { OnOk result (map seen_phrase into.new.items ≡ gathered_each (gathered_declaration around) (map seen_phrase into.old.items) (map seen_declaration trees.now)) }
{
    for tree in trees {
        gather_declaration(alloc, into, around, tree)?;
    }
    Ok(())
}
