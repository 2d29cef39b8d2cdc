//! LOCK among attributes.

ghost use Rattle.std.specs.Prelude.{◌≡◌, map};
ghost use Rattle.std.specs.List.{list_any};
ghost use Rattle.std.specs.Option.{option_map};
ghost use Rattle.hal_tree.specs.SeenDeclarations.{seen_attribute};
ghost use Rattle.hal_tree.specs.SeenExpressions.{seen_expression};
ghost use Rattle.hal_phrases.specs.SeenPhrases.{seen_phrase};
ghost use Rattle.hal_names.specs.SeenNames.{seen_names};
ghost use Rattle.hal_constants.specs.SeenKnown.{seen_known};
ghost use Rattle.hal_templates.specs.Traits as facts;

use hal_constants::{Known, constant_of, size_of};
use hal_names::Names;
use hal_phrases::Phrase;
use hal_tree::{Attribute, Expr};

/// The number of LOCK in an attribute.
#[tactic(auto, using(hal_tree::proofs::MadeDeclarations::made_dimensions, hal_tree::proofs::MadeDeclarations::made_typed, hal_tree::proofs::MadeDeclarations::made_marked, hal_tree::proofs::MadeDeclarations::made_lock_group, hal_tree::proofs::MadeDeclarations::made_lock_any, hal_tree::proofs::MadeDeclarations::made_initial, hal_tree::proofs::MadeDeclarations::made_constant), unfolding(crate::specs::Traits::group_in))]
fn group_in<'a>(attribute: &'a Attribute) -> Option<&'a Expr>
    ensures { option_map (λ tree. seen_expression tree.now) result ≡ facts.group_in (seen_attribute attribute.now) }
{
    match attribute {
        Attribute::LockGroup { place: _, group } => Some(group),
        Attribute::Dimensions { .. } => None,
        Attribute::Typed(_) => None,
        Attribute::Marked { .. } => None,
        Attribute::LockAny { .. } => None,
        Attribute::Initial { .. } => None,
        Attribute::Constant { .. } => None,
    }
}

/// The first one among attributes.
#[tactic(auto, unfolding(crate::specs::Traits::group_among))]
fn group_among<'a>(attributes: &'a [Attribute]) -> Option<&'a Expr>
    ensures { option_map (λ tree. seen_expression tree.now) result ≡ facts.group_among (map seen_attribute attributes.now) }
{
    for attribute in attributes {
        let group = group_in(attribute);
        if group.is_some() {
            return group;
        }
    }
    None
}

/// The number of LOCK of a name: among its own attributes, or those before the comma.
pub(crate) fn group_given<'a>(common: &'a [Attribute], own: &'a [Attribute]) -> Option<&'a Expr>
    ensures { option_map (λ tree. seen_expression tree.now) result ≡ facts.group_given (map seen_attribute common.now) (map seen_attribute own.now) }
{
    let group = group_among(own);
    if group.is_some() {
        return group;
    }
    group_among(common)
}

/// LOCK with a star.
#[tactic(auto, using(hal_tree::proofs::MadeDeclarations::made_dimensions, hal_tree::proofs::MadeDeclarations::made_typed, hal_tree::proofs::MadeDeclarations::made_marked, hal_tree::proofs::MadeDeclarations::made_lock_group, hal_tree::proofs::MadeDeclarations::made_lock_any, hal_tree::proofs::MadeDeclarations::made_initial, hal_tree::proofs::MadeDeclarations::made_constant), unfolding(crate::specs::Traits::is_starred))]
fn is_starred(attribute: &Attribute) -> bool
    ensures { result ≡ facts.is_starred (seen_attribute attribute.now) }
{
    match attribute {
        Attribute::LockAny { .. } => true,
        Attribute::Dimensions { .. } => false,
        Attribute::Typed(_) => false,
        Attribute::Marked { .. } => false,
        Attribute::LockGroup { .. } => false,
        Attribute::Initial { .. } => false,
        Attribute::Constant { .. } => false,
    }
}

/// Whether one of these attributes is.
fn is_any_starred(attributes: &[Attribute]) -> bool
    ensures { result ≡ list_any facts.is_starred (map seen_attribute attributes.now) }
{
    for attribute in attributes {
        if is_starred(attribute) {
            return true;
        }
    }
    false
}

/// Whether a name has LOCK with a star.
pub(crate) fn star_given(common: &[Attribute], own: &[Attribute]) -> bool
    ensures { result ≡ facts.star_given (map seen_attribute common.now) (map seen_attribute own.now) }
{
    is_any_starred(own) || is_any_starred(common)
}

/// The number of a lock group that an expression in a phrase gives.
#[tactic(auto, unfolding(crate::specs::Traits::group_of))]
pub(crate) fn group_of(
    names: &Names<'_>,
    known: &Known,
    phrase: &Phrase<'_>,
    tree: Option<&Expr>,
) -> Option<u16>
    ensures { result ≡ facts.group_of (seen_names names.now) (seen_known known.now) (seen_phrase phrase.now) (option_map (λ tree. seen_expression tree.now) tree.entry) }
{
    size_of(15, &constant_of(tree?, names, known, phrase))
}
