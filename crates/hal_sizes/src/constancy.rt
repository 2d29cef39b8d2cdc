//! Expressions that have to be constant.

ghost use Rattle.std.specs.Prelude.{◌≡◌};
ghost use Rattle.hal_tree.specs.SeenDeclarations.{seen_initial};
ghost use Rattle.hal_tree.specs.SeenExpressions.{seen_expression};
ghost use Rattle.hal_phrases.specs.SeenPhrases.{seen_node, seen_phrase};
ghost use Rattle.hal_names.specs.SeenNames.{seen_names};
ghost use Rattle.hal_constants.specs.SeenKnown.{seen_known};
ghost use Rattle.hal_sizes.specs.Constancy as constancy;

use hal_base::rules::{CHANNEL_OUT_OF_RANGE, NOT_CONSTANT, SIZE_OUT_OF_RANGE};
use hal_base::{BIT_LIMIT, CHANNEL_COUNT, CHARACTER_LIMIT, Place, SIZE_LIMIT};
use hal_constants::{Constant, Known, constant_of, signed_name, size_of_integer};
use hal_names::Names;
use hal_phrases::{Node, Phrase, Role};
use hal_tree::{Expr, Initial};
use hal_values::Value;

/// What is no constant, or an error.
#[tactic(auto, unfolding(crate::specs::Constancy::unsettled))]
fn unsettled(place: Place, constant: &Constant) -> Option<(u16, Place)>
    ensures { result ≡ constancy.unsettled place constant.now }
{
    match constant {
        Constant::Open => Some((NOT_CONSTANT, place)),
        Constant::Failed => Some((NOT_CONSTANT, place)),
        _ => None,
    }
}

/// A size within a limit; of what is no integer another rule speaks.
#[tactic(auto, unfolding(crate::specs::Constancy::missized, crate::specs::Constancy::missized_value))]
fn missized(limit: u16, place: Place, constant: &Constant) -> Option<(u16, Place)>
    ensures { result ≡ constancy.missized limit place constant.now }
{
    match constant {
        Constant::Worth(Value::Int(number)) => {
            if size_of_integer(limit, *number).is_some() {
                None
            } else {
                Some((SIZE_OUT_OF_RANGE, place))
            }
        }
        Constant::Worth(_) => None,
        other => unsettled(place, other),
    }
}

/// Whether an integer is a channel.
#[tactic(auto, unfolding(crate::specs::Constancy::is_channel))]
fn is_channel(number: i32) -> bool
    ensures { result ≡ constancy.is_channel number }
{
    0 <= number && number < CHANNEL_COUNT as i32
}

/// A channel.
#[tactic(auto, unfolding(crate::specs::Constancy::mischannelled, crate::specs::Constancy::mischannelled_value))]
fn mischannelled(place: Place, constant: &Constant) -> Option<(u16, Place)>
    ensures { result ≡ constancy.mischannelled place constant.now }
{
    match constant {
        Constant::Worth(Value::Int(number)) => {
            if is_channel(*number) {
                None
            } else {
                Some((CHANNEL_OUT_OF_RANGE, place))
            }
        }
        Constant::Worth(_) => Some((CHANNEL_OUT_OF_RANGE, place)),
        Constant::Unfit => None,
        _ => Some((CHANNEL_OUT_OF_RANGE, place)),
    }
}

/// An expression of a role that wants a constant, which isn't made for others.
#[inline(never)]
#[tactic(auto, unfolding(crate::specs::Constancy::inconstant_as))]
fn inconstant_there(
    names: &Names<'_>,
    known: &Known,
    phrase: &Phrase<'_>,
    role: Role,
    tree: &Expr,
) -> Option<(u16, Place)>
    ensures { result ≡ constancy.inconstant_as (seen_names names.now) (seen_known known.now) (seen_phrase phrase.now) role (seen_expression tree.now) }
{
    let place = tree.place();
    match role {
        Role::Dimension => missized(SIZE_LIMIT, place, &constant_of(tree, names, known, phrase)),
        Role::Copies => missized(SIZE_LIMIT, place, &constant_of(tree, names, known, phrase)),
        Role::BitLength => missized(
            u16::from(BIT_LIMIT),
            place,
            &constant_of(tree, names, known, phrase),
        ),
        Role::TextLength => missized(
            CHARACTER_LIMIT as u16,
            place,
            &constant_of(tree, names, known, phrase),
        ),
        Role::LockGroup => unsettled(place, &constant_of(tree, names, known, phrase)),
        Role::Initial => unsettled(place, &constant_of(tree, names, known, phrase)),
        Role::Channel => mischannelled(place, &constant_of(tree, names, known, phrase)),
        _ => None,
    }
}

/// An expression of this role.
#[tactic(auto, unfolding(crate::specs::Constancy::inconstant_as))]
fn inconstant_as(
    names: &Names<'_>,
    known: &Known,
    phrase: &Phrase<'_>,
    role: Role,
    tree: &Expr,
) -> Option<(u16, Place)>
    ensures { result ≡ constancy.inconstant_as (seen_names names.now) (seen_known known.now) (seen_phrase phrase.now) role (seen_expression tree.now) }
{
    match role {
        Role::Dimension
        | Role::Copies
        | Role::BitLength
        | Role::TextLength
        | Role::LockGroup
        | Role::Initial
        | Role::Channel => inconstant_there(names, known, phrase, role, tree),
        _ => None,
    }
}

/// A name that is repeated among initial values.
#[tactic(auto, using(hal_tree::proofs::MadeDeclarations::made_value, hal_tree::proofs::MadeDeclarations::made_literal_times, hal_tree::proofs::MadeDeclarations::made_name_times, hal_tree::proofs::MadeDeclarations::made_list_times), unfolding(crate::specs::Constancy::inconstant_initial))]
fn inconstant_initial(
    names: &Names<'_>,
    known: &Known,
    phrase: &Phrase<'_>,
    initial: &Initial,
) -> Option<(u16, Place)>
    ensures { result ≡ constancy.inconstant_initial (seen_names names.now) (seen_known known.now) (seen_phrase phrase.now) (seen_initial initial.now) }
{
    match initial {
        Initial::NameTimes {
            place: _,
            count: _,
            sign,
            name,
        } => unsettled(name.place, &signed_name(names, known, phrase, *sign, name)),
        Initial::Value { .. } => None,
        Initial::LiteralTimes { .. } => None,
        Initial::ListTimes { .. } => None,
    }
}

/// The rule of 704, 710 of sizes and 718 that a phrase breaks, and where (language document, Kinds).
#[tactic(auto, unfolding(crate::specs::Constancy::inconstant))]
pub fn inconstant(names: &Names<'_>, known: &Known, phrase: &Phrase<'_>) -> Option<(u16, Place)>
    ensures { result ≡ constancy.inconstant (seen_names names.now) (seen_known known.now) (seen_phrase phrase.now) (seen_phrase phrase.now).node }
{
    match phrase.node {
        Node::Expression { role, tree } => inconstant_as(names, known, phrase, role, tree),
        Node::Initial(initial) => inconstant_initial(names, known, phrase, initial),
        _ => None,
    }
}
