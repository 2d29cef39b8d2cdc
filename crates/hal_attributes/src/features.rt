//! What attributes say, and which of them exclude each other.

ghost use Rattle.std.specs.Prelude.{◌≡◌};
ghost use Rattle.hal_tree.specs.SeenDeclarations.{seen_attribute, seen_mark, seen_type};
ghost use Rattle.hal_attributes.specs.Features as features;

use crate::feature::Feature;
use hal_base::Place;
use hal_tree::{Attribute, Mark, Type};

/// Where a type stands.
#[tactic(auto, using(hal_tree::proofs::MadeDeclarations::made_integer_type, hal_tree::proofs::MadeDeclarations::made_boolean_type, hal_tree::proofs::MadeDeclarations::made_event_type, hal_tree::proofs::MadeDeclarations::made_bit_type, hal_tree::proofs::MadeDeclarations::made_character_type, hal_tree::proofs::MadeDeclarations::made_structure_type), unfolding(crate::specs::Features::place_of_kind))]
fn place_of_kind(kind: &Type) -> Place
    ensures { result ≡ features.place_of_kind (seen_type kind.now) }
{
    match kind {
        Type::Integer { place } => *place,
        Type::Boolean { place } => *place,
        Type::Event { place } => *place,
        Type::Bit { place, .. } => *place,
        Type::Character { place, .. } => *place,
        Type::Structure { place, .. } => *place,
    }
}

/// Where an attribute stands.
#[tactic(auto, using(hal_tree::proofs::MadeDeclarations::made_dimensions, hal_tree::proofs::MadeDeclarations::made_typed, hal_tree::proofs::MadeDeclarations::made_marked, hal_tree::proofs::MadeDeclarations::made_lock_group, hal_tree::proofs::MadeDeclarations::made_lock_any, hal_tree::proofs::MadeDeclarations::made_initial, hal_tree::proofs::MadeDeclarations::made_constant), unfolding(crate::specs::Features::place_of_attribute))]
pub(crate) fn place_of_attribute(attribute: &Attribute) -> Place
    ensures { result ≡ features.place_of_attribute (seen_attribute attribute.now) }
{
    match attribute {
        Attribute::Dimensions { place, .. } => *place,
        Attribute::Typed(kind) => place_of_kind(kind),
        Attribute::Marked { place, .. } => *place,
        Attribute::LockGroup { place, .. } => *place,
        Attribute::LockAny { place } => *place,
        Attribute::Initial { place, .. } => *place,
        Attribute::Constant { place, .. } => *place,
    }
}

/// What a type says.
#[tactic(auto, using(hal_tree::proofs::MadeDeclarations::made_integer_type, hal_tree::proofs::MadeDeclarations::made_boolean_type, hal_tree::proofs::MadeDeclarations::made_event_type, hal_tree::proofs::MadeDeclarations::made_bit_type, hal_tree::proofs::MadeDeclarations::made_character_type, hal_tree::proofs::MadeDeclarations::made_structure_type), unfolding(crate::specs::Features::feature_of_kind))]
pub(crate) fn feature_of_kind(kind: &Type) -> Feature
    ensures { result ≡ features.feature_of_kind (seen_type kind.now) }
{
    match kind {
        Type::Integer { place: _ } => Feature::Integer,
        Type::Boolean { place: _ } => Feature::Bits,
        Type::Event { place: _ } => Feature::Event,
        Type::Bit { .. } => Feature::Bits,
        Type::Character { .. } => Feature::Text,
        Type::Structure { .. } => Feature::Structure,
    }
}

/// What an attribute of one word says.
#[tactic(auto, unfolding(crate::specs::Features::feature_of_mark))]
fn feature_of_mark(mark: Mark) -> Feature
    ensures { result ≡ features.feature_of_mark (seen_mark mark) }
{
    match mark {
        Mark::Single => Feature::Single,
        Mark::Double => Feature::Double,
        Mark::Latched => Feature::Latched,
        Mark::Static => Feature::Static,
        Mark::Automatic => Feature::Automatic,
        Mark::Dense => Feature::Dense,
        Mark::Aligned => Feature::Aligned,
    }
}

/// What an attribute says.
#[tactic(auto, using(hal_tree::proofs::MadeDeclarations::made_dimensions, hal_tree::proofs::MadeDeclarations::made_typed, hal_tree::proofs::MadeDeclarations::made_marked, hal_tree::proofs::MadeDeclarations::made_lock_group, hal_tree::proofs::MadeDeclarations::made_lock_any, hal_tree::proofs::MadeDeclarations::made_initial, hal_tree::proofs::MadeDeclarations::made_constant), unfolding(crate::specs::Features::feature_of))]
pub(crate) fn feature_of(attribute: &Attribute) -> Feature
    ensures { result ≡ features.feature_of (seen_attribute attribute.now) }
{
    match attribute {
        Attribute::Dimensions { .. } => Feature::Array,
        Attribute::Typed(kind) => feature_of_kind(kind),
        Attribute::Marked { place: _, mark } => feature_of_mark(*mark),
        Attribute::LockGroup { .. } => Feature::Lock,
        Attribute::LockAny { .. } => Feature::Lock,
        Attribute::Initial { .. } => Feature::Initial,
        Attribute::Constant { .. } => Feature::Constant,
    }
}

/// Of each sort a name has one at most.
#[tactic(auto, unfolding(crate::specs::Features::sort_of))]
fn sort_of(feature: Feature) -> u8
    ensures { result ≡ features.sort_of feature }
{
    match feature {
        Feature::Array => 0,
        Feature::Integer | Feature::Bits | Feature::Text => 1,
        Feature::Event | Feature::Structure => 1,
        Feature::Single | Feature::Double => 2,
        Feature::Latched => 3,
        Feature::Static | Feature::Automatic => 4,
        Feature::Dense | Feature::Aligned => 5,
        Feature::Lock => 6,
        Feature::Initial | Feature::Constant => 7,
    }
}

/// Whether these don't go together, though of two sorts: a precision is an integer's, LATCHED an event's; a constant has no
/// storage of a block and no lock; an event is no constant; an array has no structures.
#[tactic(auto, unfolding(crate::specs::Features::excludes))]
pub(crate) fn excludes(one: Feature, other: Feature) -> bool
    ensures { result ≡ features.excludes one other }
{
    match one {
        Feature::Single | Feature::Double => matches!(
            other,
            Feature::Bits | Feature::Text | Feature::Event | Feature::Structure
        ),
        Feature::Latched => matches!(
            other,
            Feature::Integer | Feature::Bits | Feature::Text | Feature::Structure
        ),
        Feature::Constant => matches!(other, Feature::Automatic | Feature::Lock | Feature::Event),
        Feature::Array => matches!(other, Feature::Structure),
        _ => false,
    }
}

/// Whether two of these don't go together.
pub(crate) fn clash(one: Feature, other: Feature) -> bool
    ensures { result ≡ features.clash one other }
{
    sort_of(one) == sort_of(other) || (excludes(one, other) || excludes(other, one))
}
