//! Where LOCK stands, and its numbers.

ghost use Rattle.std.specs.Prelude.{◌≡◌, map};
ghost use Rattle.hal_tree.specs.SeenDeclarations.{seen_attribute, seen_declared};
ghost use Rattle.hal_tree.specs.SeenExpressions.{seen_expression};
ghost use Rattle.hal_tree.specs.SeenUnits.{seen_head};
ghost use Rattle.hal_phrases.specs.SeenPhrases.{seen_node, seen_phrase};
ghost use Rattle.hal_names.specs.SeenNames.{seen_names};
ghost use Rattle.hal_constants.specs.SeenKnown.{seen_known};
ghost use Rattle.hal_locks.specs.Placed as placed;

use crate::lockable::Lockable;
use hal_base::Place;
use hal_constants::{Constant, Known, constant_of, size_of_integer};
use hal_kinds::is_event_type;
use hal_names::Names;
use hal_phrases::{Node, Phrase};
use hal_scope::{type_of, unless};
use hal_storage::cells::parameter;
use hal_tree::{Attribute, Declared, Expr, Head};
use hal_values::Value;

/// Whether data directly in a block with this head may have a lock group.
#[tactic(auto, using(hal_tree::proofs::MadeUnits::made_program, hal_tree::proofs::MadeUnits::made_compool, hal_tree::proofs::MadeUnits::made_task, hal_tree::proofs::MadeUnits::made_procedure, hal_tree::proofs::MadeUnits::made_function), unfolding(crate::specs::Placed::is_shared_head))]
fn is_shared_head(head: &Head) -> bool
    ensures { result ≡ placed.is_shared_head (seen_head head.now) }
{
    match head {
        Head::Program { place: _ } => true,
        Head::Compool { place: _ } => true,
        Head::Task { place: _ } => false,
        Head::Procedure { .. } => false,
        Head::Function { .. } => false,
    }
}

/// Whether data directly in a file, a template or a unit may have one.
#[tactic(auto, unfolding(crate::specs::Placed::is_shared))]
fn is_shared(node: Node<'_>) -> bool
    ensures { result ≡ placed.is_shared (seen_node node.entry) }
{
    match node {
        Node::File { .. } => true,
        Node::Template { head, .. } => is_shared_head(head),
        Node::Unit { head, .. } => is_shared_head(head),
        _ => false,
    }
}

/// The same of the one with this number.
fn is_shared_at(names: &Names<'_>, number: usize) -> bool
    ensures { result ≡ placed.is_shared_at (seen_names names.now) number }
{
    match names.phrase(number) {
        None => false,
        Some(phrase) => is_shared(phrase.node),
    }
}

/// Which LOCK data may have that are declared, by whether they are an ASSIGN parameter, if they are a parameter.
#[tactic(auto, unfolding(crate::specs::Placed::lockable_as))]
fn lockable_as(shared: bool, parameter: Option<bool>) -> Lockable
    ensures { result ≡ placed.lockable_as shared parameter }
{
    match parameter {
        Some(true) => Lockable::Star,
        Some(false) => Lockable::Neither,
        None => {
            if shared {
                Lockable::Number
            } else {
                Lockable::Neither
            }
        }
    }
}

/// Which LOCK a name that is declared may have.
#[tactic(auto, using(hal_tree::proofs::MadeDeclarations::made_declared))]
fn lockable_of(
    names: &Names<'_>,
    phrase: &Phrase<'_>,
    common: &[Attribute],
    item: &Declared,
) -> Lockable
    ensures { result ≡ placed.lockable_of (seen_names names.now) (seen_phrase phrase.now) (map seen_attribute common.now) (seen_declared item.now) }
{
    let home = phrase.around.home;
    if is_event_type(type_of(common, item)) {
        return Lockable::Neither;
    }
    lockable_as(
        is_shared_at(names, home),
        parameter(names, home, &item.name.name),
    )
}

/// Whether it is LOCK with a number.
#[tactic(auto, unfolding(crate::specs::Placed::takes_number))]
fn takes_number(lockable: Lockable) -> bool
    ensures { result ≡ placed.takes_number lockable }
{
    match lockable {
        Lockable::Number => true,
        Lockable::Star | Lockable::Neither => false,
    }
}

/// Whether it is LOCK with a star.
#[tactic(auto, unfolding(crate::specs::Placed::takes_star))]
fn takes_star(lockable: Lockable) -> bool
    ensures { result ≡ placed.takes_star lockable }
{
    match lockable {
        Lockable::Star => true,
        Lockable::Number | Lockable::Neither => false,
    }
}

/// Whether an integer is no number of a lock group.
#[tactic(auto, unfolding(crate::specs::Placed::is_no_group, crate::specs::Placed::is_no_group_value))]
fn is_no_group(constant: &Constant) -> bool
    ensures { result ≡ placed.is_no_group constant.now }
{
    match constant {
        Constant::Worth(Value::Int(number)) => !size_of_integer(15, *number).is_some(),
        _ => false,
    }
}

/// Whether the number of a LOCK is none of a lock group.
fn is_outside(names: &Names<'_>, known: &Known, phrase: &Phrase<'_>, group: &Expr) -> bool
    ensures { result ≡ placed.is_outside (seen_names names.now) (seen_known known.now) (seen_phrase phrase.now) (seen_expression group.now) }
{
    is_no_group(&constant_of(group, names, known, phrase))
}

/// Whether an attribute is a LOCK that may not stand there.
#[tactic(auto, using(hal_tree::proofs::MadeDeclarations::made_dimensions, hal_tree::proofs::MadeDeclarations::made_typed, hal_tree::proofs::MadeDeclarations::made_marked, hal_tree::proofs::MadeDeclarations::made_lock_group, hal_tree::proofs::MadeDeclarations::made_lock_any, hal_tree::proofs::MadeDeclarations::made_initial, hal_tree::proofs::MadeDeclarations::made_constant), unfolding(crate::specs::Placed::is_misplaced))]
fn is_misplaced(
    names: &Names<'_>,
    known: &Known,
    phrase: &Phrase<'_>,
    lockable: Lockable,
    attribute: &Attribute,
) -> bool
    ensures { result ≡ placed.is_misplaced (seen_names names.now) (seen_known known.now) (seen_phrase phrase.now) lockable (seen_attribute attribute.now) }
{
    match attribute {
        Attribute::LockGroup { place: _, group } => {
            !takes_number(lockable) || is_outside(names, known, phrase, group)
        }
        Attribute::LockAny { .. } => !takes_star(lockable),
        Attribute::Dimensions { .. } => false,
        Attribute::Typed(_) => false,
        Attribute::Marked { .. } => false,
        Attribute::Initial { .. } => false,
        Attribute::Constant { .. } => false,
    }
}

/// Whether one of these attributes is.
fn is_any_misplaced(
    names: &Names<'_>,
    known: &Known,
    phrase: &Phrase<'_>,
    lockable: Lockable,
    attributes: &[Attribute],
) -> bool
    ensures { result ≡ placed.is_any_misplaced (seen_names names.now) (seen_known known.now) (seen_phrase phrase.now) lockable (map seen_attribute attributes.now) }
{
    for attribute in attributes {
        if is_misplaced(names, known, phrase, lockable, attribute) {
            return true;
        }
    }
    false
}

/// Whether a name that is declared has such a one.
#[tactic(auto, using(hal_tree::proofs::MadeDeclarations::made_declared))]
fn has_misplaced(
    names: &Names<'_>,
    known: &Known,
    phrase: &Phrase<'_>,
    common: &[Attribute],
    item: &Declared,
) -> bool
    ensures { result ≡ placed.has_misplaced (seen_names names.now) (seen_known known.now) (seen_phrase phrase.now) (map seen_attribute common.now) (seen_declared item.now) }
{
    let lockable = lockable_of(names, phrase, common, item);
    is_any_misplaced(names, known, phrase, lockable, &item.attributes)
        || is_any_misplaced(names, known, phrase, lockable, common)
}

/// Where a phrase breaks rule 805 (language document, Locks).
#[tactic(auto, using(hal_tree::proofs::MadeDeclarations::made_declared, hal_tree::proofs::MadeDeclarations::made_part), unfolding(crate::specs::Placed::misplaced))]
pub(crate) fn misplaced(names: &Names<'_>, known: &Known, phrase: &Phrase<'_>) -> Option<Place>
    ensures { result ≡ placed.misplaced (seen_names names.now) (seen_known known.now) (seen_phrase phrase.now) (seen_phrase phrase.now).node }
{
    match phrase.node {
        Node::Item { common, item } => unless(
            !has_misplaced(names, known, phrase, common, item),
            item.name.place,
        ),
        Node::Part { bottom: _, part } => unless(
            !is_any_misplaced(names, known, phrase, Lockable::Neither, &part.attributes),
            part.place,
        ),
        _ => None,
    }
}
