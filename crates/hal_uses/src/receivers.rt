//! Names that take values.

ghost use Rattle.std.specs.Prelude.{◌≡◌};
ghost use Rattle.hal_tree.specs.SeenExpressions.{seen_reference};
ghost use Rattle.hal_phrases.specs.SeenPhrases.{seen_phrase};
ghost use Rattle.hal_names.specs.SeenNames.{seen_names};
ghost use Rattle.hal_uses.specs.Receivers as receivers;

use crate::received::{may_receive, put_fault, variable_fault};
use hal_base::Place;
use hal_base::rules::{LOOP_VARIABLE_NOT_SINGLE, NOT_ASSIGNABLE, WRONG_ASSIGN_ARGUMENT};
use hal_names::Names;
use hal_phrases::{Node, Phrase, Role};
use hal_scope::builtin_named;
use hal_tree::Reference;
use hal_words::Name;

/// Where a receiver breaks rule 709.
fn received(names: &Names<'_>, block: usize, place: Place, name: &Name) -> Option<(u16, Place)>
    ensures { result ≡ receivers.received (seen_names names.now) block place name.now }
{
    let number = names.means(block, name)?;
    let phrase = names.phrase(number)?;
    if may_receive(names, &phrase) {
        None
    } else {
        Some((NOT_ASSIGNABLE, place))
    }
}

/// Which rule of 709 and 722 an ASSIGN argument breaks, and where.
#[tactic(auto, using(hal_tree::proofs::MadeExpressions::made_reference), unfolding(crate::specs::Receivers::put))]
fn put(names: &Names<'_>, block: usize, reference: &Reference) -> Option<(u16, Place)>
    ensures { result ≡ receivers.put (seen_names names.now) block (seen_reference reference.now) }
{
    match names.means(block, &reference.name) {
        None => {
            if builtin_named(&reference.name).is_some() {
                Some((WRONG_ASSIGN_ARGUMENT, reference.place))
            } else {
                None
            }
        }
        Some(number) => {
            let phrase = names.phrase(number)?;
            let rule = put_fault(names, &phrase, &reference.further, &reference.subscript)?;
            Some((rule, reference.place))
        }
    }
}

/// Which rule of 709 and 712 the variable of DO FOR breaks, and where.
fn varied(names: &Names<'_>, block: usize, place: Place, name: &Name) -> Option<(u16, Place)>
    ensures { result ≡ receivers.varied (seen_names names.now) block place name.now }
{
    match names.means(block, name) {
        None => {
            if builtin_named(name).is_some() {
                Some((LOOP_VARIABLE_NOT_SINGLE, place))
            } else {
                None
            }
        }
        Some(number) => {
            let phrase = names.phrase(number)?;
            let rule = variable_fault(names, &phrase)?;
            Some((rule, place))
        }
    }
}

/// The rule that a reference of this role breaks which takes a value, and where.
#[tactic(auto, using(hal_tree::proofs::MadeExpressions::made_reference), unfolding(crate::specs::Receivers::reference_receives))]
fn reference_receives(
    names: &Names<'_>,
    block: usize,
    role: Role,
    reference: &Reference,
) -> Option<(u16, Place)>
    ensures { result ≡ receivers.reference_receives (seen_names names.now) block role (seen_reference reference.now) }
{
    match role {
        Role::Receiver => received(names, block, reference.place, &reference.name),
        Role::Output => put(names, block, reference),
        _ => None,
    }
}

/// Which rule of 709, 712 and 722 a phrase breaks, and where (language document, Kinds).
#[tactic(auto, unfolding(crate::specs::Receivers::misreceived))]
pub fn misreceived(names: &Names<'_>, phrase: &Phrase<'_>) -> Option<(u16, Place)>
    ensures { result ≡ receivers.misreceived (seen_names names.now) (seen_phrase phrase.now) (seen_phrase phrase.now).node }
{
    match phrase.node {
        Node::Reference { role, reference } => {
            reference_receives(names, phrase.around.block, role, reference)
        }
        Node::Variable { name } => varied(names, phrase.around.block, name.place, &name.name),
        _ => None,
    }
}
