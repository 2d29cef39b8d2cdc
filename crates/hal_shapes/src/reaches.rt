//! What one subscript chooses among the copies, or the places of a dimension.

ghost use Rattle.std.specs.Prelude.{◌≡◌};
ghost use Rattle.hal_tree.specs.SeenExpressions.{seen_position, seen_sub};
ghost use Rattle.hal_phrases.specs.SeenPhrases.{seen_phrase};
ghost use Rattle.hal_names.specs.SeenNames.{seen_names};
ghost use Rattle.hal_constants.specs.SeenKnown.{seen_known};
ghost use Rattle.hal_shapes.specs.Reaches as reaches;

use crate::reach::Reach;
use hal_base::Place;
use hal_constants::{Constant, Known, constant_of, size_of_integer, summed, whole, worse};
use hal_names::Names;
use hal_phrases::Phrase;
use hal_tree::{Position, Sub};
use hal_values::Value;

/// A bound that is no value.
#[tactic(auto, unfolding(crate::specs::Reaches::unreached))]
fn unreached(bound: &Constant) -> Reach
    ensures { result ≡ reaches.unreached bound.now }
{
    match bound {
        Constant::Open => Reach::Outside,
        Constant::Failed => Reach::Outside,
        _ => Reach::Unfit,
    }
}

/// From one place to another, where both are inside.
#[tactic(auto, unfolding(crate::specs::Reaches::between_places))]
fn between_places(first: Option<u16>, last: Option<u16>) -> Reach
    ensures { result ≡ reaches.between_places first last }
{
    match (first, last) {
        (Some(first), Some(last)) => {
            if 1 <= first && first <= last {
                Reach::Many(last - (first - 1))
            } else {
                Reach::Outside
            }
        }
        _ => Reach::Outside,
    }
}

/// From one place to another, of so many.
fn between(size: u16, first: i32, last: i32) -> Reach
    ensures { result ≡ reaches.between size first last }
{
    between_places(size_of_integer(size, first), size_of_integer(size, last))
}

/// The same of two constants.
#[tactic(auto, unfolding(crate::specs::Reaches::reach_to, crate::specs::Reaches::between_values))]
fn reach_to(size: u16, first: &Constant, last: &Constant) -> Reach
    ensures { result ≡ reaches.reach_to size first.now last.now }
{
    match (first, last) {
        (Constant::Worth(Value::Int(first)), Constant::Worth(Value::Int(last))) => {
            between(size, *first, *last)
        }
        (Constant::Worth(_), Constant::Worth(_)) => Reach::Unfit,
        _ => unreached(&worse(first, last)),
    }
}

/// So many places from one on, where both are inside.
#[tactic(auto, unfolding(crate::specs::Reaches::starting_places))]
fn starting_places(size: u16, count: Option<u16>, first: Option<u16>) -> Reach
    ensures { result ≡ reaches.starting_places size count first }
{
    match (count, first) {
        (Some(count), Some(first)) => {
            if u32::from(count) + u32::from(first) <= u32::from(size) + 1 {
                Reach::Many(count)
            } else {
                Reach::Outside
            }
        }
        _ => Reach::Outside,
    }
}

/// So many places from one on, of so many.
fn starting(size: u16, count: i32, first: i32) -> Reach
    ensures { result ≡ reaches.starting size count first }
{
    starting_places(
        size,
        size_of_integer(size, count),
        size_of_integer(size, first),
    )
}

/// The same of two constants.
#[tactic(auto, unfolding(crate::specs::Reaches::reach_from, crate::specs::Reaches::starting_values))]
fn reach_from(size: u16, count: &Constant, first: &Constant) -> Reach
    ensures { result ≡ reaches.reach_from size count.now first.now }
{
    match (count, first) {
        (Constant::Worth(Value::Int(count)), Constant::Worth(Value::Int(first))) => {
            starting(size, *count, *first)
        }
        (Constant::Worth(_), Constant::Worth(_)) => Reach::Unfit,
        _ => unreached(&worse(count, first)),
    }
}

/// A place among so many; `#` is the last one.
#[tactic(auto, using(hal_tree::proofs::MadeExpressions::made_from_beginning, hal_tree::proofs::MadeExpressions::made_from_end), unfolding(crate::specs::Reaches::position_in))]
fn position_in(
    names: &Names<'_>,
    known: &Known,
    phrase: &Phrase<'_>,
    size: u16,
    position: &Position,
) -> Constant
    ensures { result ≡ reaches.position_in (seen_names names.now) (seen_known known.now) (seen_phrase phrase.now) size (seen_position position.now) }
{
    match position {
        Position::FromBeginning { position } => constant_of(position, names, known, phrase),
        Position::FromEnd { place: _, terms } => {
            summed(terms, whole(u32::from(size)), names, known, phrase)
        }
    }
}

/// One subscript among so many places.
#[tactic(auto, using(hal_tree::proofs::MadeExpressions::made_every, hal_tree::proofs::MadeExpressions::made_one, hal_tree::proofs::MadeExpressions::made_range, hal_tree::proofs::MadeExpressions::made_portion), unfolding(crate::specs::Reaches::reach_of))]
pub(crate) fn reach_of(
    names: &Names<'_>,
    known: &Known,
    phrase: &Phrase<'_>,
    size: u16,
    sub: &Sub,
) -> Reach
    ensures { result ≡ reaches.reach_of (seen_names names.now) (seen_known known.now) (seen_phrase phrase.now) size (seen_sub sub.now) }
{
    match sub {
        Sub::Every { place: _ } => Reach::Many(size),
        Sub::One { .. } => Reach::One,
        Sub::Range { first, last } => reach_to(
            size,
            &position_in(names, known, phrase, size, first),
            &position_in(names, known, phrase, size, last),
        ),
        Sub::Portion { count, first } => reach_from(
            size,
            &constant_of(count, names, known, phrase),
            &position_in(names, known, phrase, size, first),
        ),
    }
}

/// Where a place of a subscript stands.
#[tactic(auto, using(hal_tree::proofs::MadeExpressions::made_from_beginning, hal_tree::proofs::MadeExpressions::made_from_end), unfolding(crate::specs::Reaches::place_of_position))]
fn place_of_position(position: &Position) -> Place
    ensures { result ≡ reaches.place_of_position (seen_position position.now) }
{
    match position {
        Position::FromBeginning { position } => position.place(),
        Position::FromEnd { place, terms: _ } => *place,
    }
}

/// Where a subscript stands.
#[tactic(auto, using(hal_tree::proofs::MadeExpressions::made_every, hal_tree::proofs::MadeExpressions::made_one, hal_tree::proofs::MadeExpressions::made_range, hal_tree::proofs::MadeExpressions::made_portion), unfolding(crate::specs::Reaches::place_of_sub))]
pub(crate) fn place_of_sub(sub: &Sub) -> Place
    ensures { result ≡ reaches.place_of_sub (seen_sub sub.now) }
{
    match sub {
        Sub::Every { place } => *place,
        Sub::One { position } => place_of_position(position),
        Sub::Range { first, last: _ } => place_of_position(first),
        Sub::Portion { count, first: _ } => count.place(),
    }
}
