//! STATIC, AUTOMATIC, INITIAL and CONSTANT in wrong places.

ghost use Rattle.std.specs.Prelude.{◌≡◌, map};
ghost use Rattle.hal_tree.specs.SeenDeclarations.{seen_attribute, seen_declared};
ghost use Rattle.hal_tree.specs.SeenUnits.{seen_head};
ghost use Rattle.hal_phrases.specs.SeenPhrases.{seen_node, seen_phrase};
ghost use Rattle.hal_names.specs.SeenNames.{seen_names};
ghost use Rattle.hal_attributes.specs.Storage as storage;

use hal_base::Place;
use hal_kinds::{
    constant_among, constant_of, has_mark, initial_among, initial_of, is_event_type, is_marked,
    is_parameter,
};
use hal_names::Names;
use hal_phrases::{Node, Phrase};
use hal_scope::{type_of, unless};
use hal_tree::{Attribute, Declared, Head, Mark};

/// Whether a block begins anew at each call.
#[tactic(auto, using(hal_tree::proofs::MadeUnits::made_program, hal_tree::proofs::MadeUnits::made_compool, hal_tree::proofs::MadeUnits::made_task, hal_tree::proofs::MadeUnits::made_procedure, hal_tree::proofs::MadeUnits::made_function), unfolding(crate::specs::Storage::is_entered_head))]
fn is_entered_head(head: &Head) -> bool
    ensures { result ≡ storage.is_entered_head (seen_head head.now) }
{
    match head {
        Head::Procedure { .. } => true,
        Head::Function { .. } => true,
        Head::Program { place: _ } => false,
        Head::Task { place: _ } => false,
        Head::Compool { place: _ } => false,
    }
}

/// Whether a phrase is such a block.
#[tactic(auto, unfolding(crate::specs::Storage::is_entered))]
fn is_entered(node: Node<'_>) -> bool
    ensures { result ≡ storage.is_entered (seen_node node.entry) }
{
    match node {
        Node::Template { head, .. } => is_entered_head(head),
        Node::Unit { head, .. } => is_entered_head(head),
        _ => false,
    }
}

/// Whether the phrase with this number is such a block.
fn is_entered_at(names: &Names<'_>, number: usize) -> bool
    ensures { result ≡ storage.is_entered_at (seen_names names.now) number }
{
    match names.phrase(number) {
        None => false,
        Some(phrase) => is_entered(phrase.node),
    }
}

/// Whether data are AUTOMATIC outside a PROCEDURE and a FUNCTION.
fn is_automatic_outside(
    names: &Names<'_>,
    phrase: &Phrase<'_>,
    common: &[Attribute],
    item: &Declared,
) -> bool
    ensures { result ≡ storage.is_automatic_outside (seen_names names.now) (seen_phrase phrase.now) (map seen_attribute common.now) (seen_declared item.now) }
{
    is_marked(Mark::Automatic, common, item) && !is_entered_at(names, phrase.around.home)
}

/// Whether something is said of storage or values.
#[tactic(auto, using(hal_kinds::proofs::Options::some_mapped))]
fn is_stored(common: &[Attribute], item: &Declared) -> bool
    ensures { result ≡ storage.is_stored (map seen_attribute common.now) (seen_declared item.now) }
{
    is_marked(Mark::Static, common, item)
        || (is_marked(Mark::Automatic, common, item)
            || (initial_of(common, item).is_some() || constant_of(common, item).is_some()))
}

/// Whether it is said of a parameter.
#[tactic(auto, using(hal_tree::proofs::MadeDeclarations::made_declared))]
fn is_stored_parameter(
    names: &Names<'_>,
    phrase: &Phrase<'_>,
    common: &[Attribute],
    item: &Declared,
) -> bool
    ensures { result ≡ storage.is_stored_parameter (seen_names names.now) (seen_phrase phrase.now) (map seen_attribute common.now) (seen_declared item.now) }
{
    is_stored(common, item) && is_parameter(names, phrase, &item.name.name)
}

/// Whether an event is AUTOMATIC, or has an initial value though it isn't latched.
#[tactic(auto, using(hal_kinds::proofs::Options::some_mapped))]
fn is_stored_event(common: &[Attribute], item: &Declared) -> bool
    ensures { result ≡ storage.is_stored_event (map seen_attribute common.now) (seen_declared item.now) }
{
    is_event_type(type_of(common, item))
        && (is_marked(Mark::Automatic, common, item)
            || (initial_of(common, item).is_some() && !is_marked(Mark::Latched, common, item)))
}

/// Whether something is said of storage or values of a part of a structure.
#[tactic(auto, using(hal_kinds::proofs::Options::some_mapped))]
fn is_stored_part(attributes: &[Attribute]) -> bool
    ensures { result ≡ storage.is_stored_part (map seen_attribute attributes.now) }
{
    has_mark(Mark::Static, attributes)
        || (has_mark(Mark::Automatic, attributes)
            || (initial_among(attributes).is_some() || constant_among(attributes).is_some()))
}

/// Where a phrase breaks rule 725 (language document, Kinds).
#[tactic(auto, using(hal_tree::proofs::MadeDeclarations::made_declared, hal_tree::proofs::MadeDeclarations::made_part), unfolding(crate::specs::Storage::misstored))]
pub fn misstored(names: &Names<'_>, phrase: &Phrase<'_>) -> Option<Place>
    ensures { result ≡ storage.misstored (seen_names names.now) (seen_phrase phrase.now) (seen_phrase phrase.now).node }
{
    match phrase.node {
        Node::Item { common, item } => unless(
            !(is_automatic_outside(names, phrase, common, item)
                || (is_stored_parameter(names, phrase, common, item)
                    || is_stored_event(common, item))),
            item.name.place,
        ),
        Node::Part { bottom: _, part } => unless(!is_stored_part(&part.attributes), part.place),
        _ => None,
    }
}
