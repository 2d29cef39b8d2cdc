//! The levels of a structure's parts.

ghost use Rattle.std.specs.Prelude.{◌≡◌, map};
ghost use Rattle.hal_tree.specs.SeenDeclarations.{seen_attribute, seen_part};
ghost use Rattle.hal_phrases.specs.SeenPhrases.{seen_node};
ghost use Rattle.hal_attributes.specs.Levels as levels;

use crate::features::place_of_attribute;
use hal_base::Place;
use hal_phrases::Node;
use hal_tree::{Attribute, Part};

/// Whether a part of this level may stand behind one of that level; the first part of all has level 1.
#[tactic(auto, unfolding(crate::specs::Levels::may_follow))]
fn may_follow(before: u32, level: u32) -> bool
    ensures { result ≡ levels.may_follow before level }
{
    1 <= level && u64::from(level) <= u64::from(before) + 1
}

/// The first part whose level is none, behind a part of this level.
#[tactic(auto, unfolding(crate::specs::Levels::level_fault, hal_tree::specs::SeenDeclarations::seen_part))]
fn level_fault(first: u32, parts: &[Part]) -> Option<Place>
    ensures { result ≡ levels.level_fault first (map seen_part parts.now) }
{
    let mut before = first;
    for part in parts {
        if !may_follow(before, part.level) {
            return Some(part.place);
        }
        before = part.level;
    }
    None
}

/// Where a phrase breaks rule 710 by a level (language document, Kinds).
#[tactic(auto, unfolding(crate::specs::Levels::misleveled))]
pub fn misleveled(node: Node<'_>) -> Option<Place>
    ensures { result ≡ levels.misleveled (seen_node node.entry) }
{
    match node {
        Node::Structure { name: _, parts } => level_fault(0, parts),
        _ => None,
    }
}

/// Whether an attribute says what the parts of a part say.
#[tactic(auto, using(hal_tree::proofs::MadeDeclarations::made_dimensions, hal_tree::proofs::MadeDeclarations::made_typed, hal_tree::proofs::MadeDeclarations::made_marked, hal_tree::proofs::MadeDeclarations::made_lock_group, hal_tree::proofs::MadeDeclarations::made_lock_any, hal_tree::proofs::MadeDeclarations::made_initial, hal_tree::proofs::MadeDeclarations::made_constant), unfolding(crate::specs::Levels::is_of_bottom))]
fn is_of_bottom(attribute: &Attribute) -> bool
    ensures { result ≡ levels.is_of_bottom (seen_attribute attribute.now) }
{
    match attribute {
        Attribute::Dimensions { .. } => true,
        Attribute::Typed(_) => true,
        Attribute::Marked { .. } => false,
        Attribute::LockGroup { .. } => false,
        Attribute::LockAny { .. } => false,
        Attribute::Initial { .. } => false,
        Attribute::Constant { .. } => false,
    }
}

/// A type or an array of a part that has parts of its own.
#[tactic(auto, unfolding(crate::specs::Levels::first_of_bottom))]
fn first_of_bottom(attributes: &[Attribute]) -> Option<Place>
    ensures { result ≡ levels.first_of_bottom (map seen_attribute attributes.now) }
{
    for attribute in attributes {
        if is_of_bottom(attribute) {
            return Some(place_of_attribute(attribute));
        }
    }
    None
}

/// Whether the next part belongs to a part of this level.
#[tactic(auto, using(hal_tree::proofs::MadeDeclarations::made_part), unfolding(crate::specs::Levels::is_parent))]
fn is_parent(level: u32, rest: &[Part]) -> bool
    ensures { result ≡ levels.is_parent level (map seen_part rest.now) }
{
    match rest.split_first() {
        None => false,
        Some((next, _)) => 1 <= level && u64::from(next.level) == u64::from(level) + 1,
    }
}

/// A type or an array of a part that has parts of its own.
#[tactic(auto, using(hal_tree::proofs::MadeDeclarations::made_part))]
fn part_fault(part: &Part, rest: &[Part]) -> Option<Place>
    ensures { result ≡ levels.part_fault (seen_part part.now) (map seen_part rest.now) }
{
    if is_parent(part.level, rest) {
        first_of_bottom(&part.attributes)
    } else {
        None
    }
}

/// A type or an array of one of the parts that has parts of its own.
#[tactic(auto, unfolding(crate::specs::Levels::parent_fault))]
fn parent_fault(parts: &[Part]) -> Option<Place>
    ensures { result ≡ levels.parent_fault (map seen_part parts.now) }
{
    let mut rest = parts;
    while let Some((part, later)) = rest.split_first() {
        let found = part_fault(part, later);
        if found.is_some() {
            return found;
        }
        rest = later;
    }
    None
}

/// Where a phrase breaks rule 701 by a part that has parts (language document, Kinds).
#[tactic(auto, unfolding(crate::specs::Levels::overtyped))]
pub fn overtyped(node: Node<'_>) -> Option<Place>
    ensures { result ≡ levels.overtyped (seen_node node.entry) }
{
    match node {
        Node::Structure { name: _, parts } => parent_fault(parts),
        _ => None,
    }
}
