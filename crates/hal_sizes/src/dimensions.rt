//! Arrays of too many dimensions.

ghost use Rattle.std.specs.Prelude.{◌≡◌, map};
ghost use Rattle.hal_tree.specs.SeenDeclarations.{seen_attribute};
ghost use Rattle.hal_phrases.specs.SeenPhrases.{seen_node};
ghost use Rattle.hal_sizes.specs.Constancy as constancy;

use hal_base::Place;
use hal_phrases::Node;
use hal_scope::unless;
use hal_tree::Attribute;

/// An array of more than three dimensions.
#[tactic(auto, using(hal_kinds::proofs::Lists::counted, hal_tree::proofs::MadeDeclarations::made_dimensions, hal_tree::proofs::MadeDeclarations::made_typed, hal_tree::proofs::MadeDeclarations::made_marked, hal_tree::proofs::MadeDeclarations::made_lock_group, hal_tree::proofs::MadeDeclarations::made_lock_any, hal_tree::proofs::MadeDeclarations::made_initial, hal_tree::proofs::MadeDeclarations::made_constant), unfolding(crate::specs::Constancy::misdimensioned_by))]
fn misdimensioned_by(attribute: &Attribute) -> Option<Place>
    ensures { result ≡ constancy.misdimensioned_by (seen_attribute attribute.now) }
{
    match attribute {
        Attribute::Dimensions { place, sizes } => unless(sizes.len() <= 3, *place),
        Attribute::Typed(_) => None,
        Attribute::Marked { .. } => None,
        Attribute::LockGroup { .. } => None,
        Attribute::LockAny { .. } => None,
        Attribute::Initial { .. } => None,
        Attribute::Constant { .. } => None,
    }
}

/// The first one among attributes.
#[tactic(auto, unfolding(crate::specs::Constancy::misdimensioned_among))]
fn misdimensioned_among(attributes: &[Attribute]) -> Option<Place>
    ensures { result ≡ constancy.misdimensioned_among (map seen_attribute attributes.now) }
{
    for attribute in attributes {
        let found = misdimensioned_by(attribute);
        if found.is_some() {
            return found;
        }
    }
    None
}

/// Where a phrase breaks rule 710 by the number of dimensions (language document, Kinds).
#[tactic(auto, using(hal_tree::proofs::MadeDeclarations::made_declared, hal_tree::proofs::MadeDeclarations::made_part), unfolding(crate::specs::Constancy::misdimensioned))]
pub fn misdimensioned(node: Node<'_>) -> Option<Place>
    ensures { result ≡ constancy.misdimensioned (seen_node node.entry) }
{
    match node {
        Node::Declare { common } => misdimensioned_among(common),
        Node::Item { common: _, item } => misdimensioned_among(&item.attributes),
        Node::Part { bottom: _, part } => misdimensioned_among(&part.attributes),
        _ => None,
    }
}
