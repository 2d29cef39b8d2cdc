//! What subscripts choose.

ghost use Rattle.std.specs.Prelude.{◌≡◌, ◌++◌, map, IfOk, OnOk};
ghost use Rattle.std.specs.Option.{option_map};
ghost use Rattle.hal_tree.specs.Rows.{subscripts};
ghost use Rattle.hal_tree.specs.SeenExpressions.{seen_position, seen_sub, seen_subscript};
ghost use Rattle.hal_phrases.specs.SeenPhrases.{seen_phrase};
ghost use Rattle.hal_names.specs.SeenNames.{seen_names};
ghost use Rattle.hal_constants.specs.SeenKnown.{seen_known};
ghost use Rattle.hal_views.specs.Views as views;
ghost use Rattle.hal_limits.specs.Choices as chosen;
ghost use Rattle.hal_limits.specs.SeenViews.{seen_choice};

use crate::view::Choice;
use hal_constants::{Constant, Known, constant_of, size_of, summed};
use hal_names::Names;
use hal_phrases::Phrase;
use hal_tree::{Position, Sub, Subscript};
use hal_values::Value;
use std::alloc::{AllocError, Global};

/// The place that a constant is, among so many.
fn place_by(size: u16, place: &Constant) -> u16
    ensures { result ≡ views.place_by size place.now }
{
    size_of(size, place).unwrap_or(1)
}

/// A constant place of so many; `#` is the last one.
#[tactic(auto, using(hal_tree::proofs::MadeExpressions::made_from_beginning, hal_tree::proofs::MadeExpressions::made_from_end))]
fn constant_place(
    names: &Names<'_>,
    known: &Known,
    phrase: &Phrase<'_>,
    size: u16,
    position: &Position,
) -> u16
    ensures { result ≡ views.constant_place (seen_names names.now) (seen_known known.now) (seen_phrase phrase.now) size (seen_position position.now) }
{
    match position {
        Position::FromBeginning { position } => {
            place_by(size, &constant_of(position, names, known, phrase))
        }
        Position::FromEnd { place: _, terms } => {
            let last = Constant::Worth(Value::Int(i32::from(size)));
            place_by(size, &summed(terms, last, names, known, phrase))
        }
    }
}

/// Places from one to another; from the first to the last they are all.
fn choice_from(size: u16, first: u32, last: u32) -> Choice
    ensures { seen_choice result ≡ views.choice_from size first last }
{
    if first == 1 && last == u32::from(size) {
        Choice::AllPlaces
    } else {
        Choice::Places { first, last }
    }
}

/// Places from one to another, of so many.
fn choice_to(
    names: &Names<'_>,
    known: &Known,
    phrase: &Phrase<'_>,
    size: u16,
    first: &Position,
    last: &Position,
) -> Choice
    ensures { seen_choice result ≡ chosen.choice_to (seen_names names.now) (seen_known known.now) (seen_phrase phrase.now) size (seen_position first.now) (seen_position last.now) }
{
    let first = constant_place(names, known, phrase, size, first);
    let last = constant_place(names, known, phrase, size, last);
    choice_from(size, u32::from(first), u32::from(last))
}

/// So many places from one on, of so many.
fn choice_at(
    names: &Names<'_>,
    known: &Known,
    phrase: &Phrase<'_>,
    size: u16,
    number: &Constant,
    first: &Position,
) -> Choice
    ensures { seen_choice result ≡ chosen.choice_at (seen_names names.now) (seen_known known.now) (seen_phrase phrase.now) size number.now (seen_position first.now) }
{
    let first = u32::from(constant_place(names, known, phrase, size, first));
    let number = u32::from(place_by(size, number));
    choice_from(size, first, (first + number).saturating_sub(1))
}

/// What a subscript chooses of so many places.
#[tactic(auto, using(hal_tree::proofs::MadeExpressions::made_every, hal_tree::proofs::MadeExpressions::made_one, hal_tree::proofs::MadeExpressions::made_range, hal_tree::proofs::MadeExpressions::made_portion))]
fn choice(names: &Names<'_>, known: &Known, phrase: &Phrase<'_>, size: u16, sub: &Sub) -> Choice
    ensures { seen_choice result ≡ views.choice (seen_names names.now) (seen_known known.now) (seen_phrase phrase.now) size (seen_sub sub.now) }
{
    match sub {
        Sub::Every { place: _ } => Choice::AllPlaces,
        Sub::One { position: _ } => Choice::OnePlace,
        Sub::Range { first, last } => choice_to(names, known, phrase, size, first, last),
        Sub::Portion { count, first } => {
            let number = constant_of(count, names, known, phrase);
            choice_at(names, known, phrase, size, &number, first)
        }
    }
}

/// What the first subscript chooses of so many places: all of them where there is none.
#[tactic(auto, unfolding(hal_tree::specs::Rows::subscripts))]
fn first_choice(
    names: &Names<'_>,
    known: &Known,
    phrase: &Phrase<'_>,
    size: u16,
    subs: &[Sub],
) -> Choice
    ensures { seen_choice result ≡ views.copies_by (seen_names names.now) (seen_known known.now) (seen_phrase phrase.now) size (subscripts (map seen_sub subs.now)) }
{
    match subs.split_first() {
        None => Choice::AllPlaces,
        Some((sub, _)) => choice(names, known, phrase, size, sub),
    }
}

/// The subscripts behind the first one.
#[tactic(auto, unfolding(hal_tree::specs::Rows::subscripts))]
fn later_subs<'a>(subs: &'a [Sub]) -> &'a [Sub]
    ensures { subscripts (map seen_sub result.now) ≡ chosen.later_subs (subscripts (map seen_sub subs.now)) }
{
    match subs.split_first() {
        None => subs,
        Some((_, others)) => others,
    }
}

/// Adds what subscripts choose of dimensions of these sizes: all places where there are none.
#[tactic(auto, using(hal_storage::proofs::elements::Repeated::one_mapped), unfolding(crate::specs::Choices::with_choices))]
fn push_choices(
    into: &mut Vec<Choice>,
    names: &Names<'_>,
    known: &Known,
    phrase: &Phrase<'_>,
    sizes: &[u16],
    subs: &[Sub],
) -> Result<(), AllocError>
    ensures { OnOk result (map seen_choice into.new.items ≡ chosen.with_choices (seen_names names.now) (seen_known known.now) (seen_phrase phrase.now) (map seen_choice into.old.items) sizes.now (subscripts (map seen_sub subs.now))) }
{
    let mut rest = subs;
    for size in sizes {
        into.push(first_choice(names, known, phrase, *size, rest))?;
        rest = later_subs(rest);
    }
    Ok(())
}

/// What subscripts choose of dimensions of these sizes.
#[tactic(auto, using(crate::proofs::Chosen::choices_pushed))]
fn choices(
    alloc: Global,
    names: &Names<'_>,
    known: &Known,
    phrase: &Phrase<'_>,
    sizes: &[u16],
    subs: &[Sub],
) -> Result<Vec<Choice>, AllocError>
    ensures { IfOk result (λ list. map seen_choice list.items ≡ views.choices (seen_names names.now) (seen_known known.now) (seen_phrase phrase.now) sizes.now (subscripts (map seen_sub subs.now))) }
{
    let mut list = Vec::new(alloc);
    push_choices(&mut list, names, known, phrase, sizes, subs)?;
    Ok(list)
}

/// What one subscript without a mark chooses.
#[tactic(auto, using(crate::proofs::Chosen::choices_pushed), unfolding(hal_tree::specs::Rows::subscripts))]
fn one_choice(
    alloc: Global,
    names: &Names<'_>,
    known: &Known,
    phrase: &Phrase<'_>,
    sizes: &[u16],
) -> Result<Vec<Choice>, AllocError>
    ensures { IfOk result (λ list. map seen_choice list.items ≡ views.one_choice (seen_names names.now) (seen_known known.now) (seen_phrase phrase.now) sizes.now) }
{
    let mut list = Vec::new(alloc);
    if let Some((_, others)) = sizes.split_first() {
        list.push(Choice::OnePlace)?;
        push_choices(&mut list, names, known, phrase, others, &[])?;
    }
    Ok(list)
}

/// What is chosen of dimensions of these sizes (language document, Views).
#[tactic(auto, using(hal_tree::proofs::MadeExpressions::made_unsubscripted, hal_tree::proofs::MadeExpressions::made_by_name, hal_tree::proofs::MadeExpressions::made_by_integer, hal_tree::proofs::MadeExpressions::made_by_parts, hal_kinds::proofs::Lists::subscripts_counted), unfolding(hal_tree::specs::Rows::subscripts))]
pub(crate) fn places_chosen(
    alloc: Global,
    names: &Names<'_>,
    known: &Known,
    phrase: &Phrase<'_>,
    sizes: &[u16],
    subscript: &Subscript,
) -> Result<Vec<Choice>, AllocError>
    ensures { IfOk result (λ list. map seen_choice list.items ≡ views.places_chosen (seen_names names.now) (seen_known known.now) (seen_phrase phrase.now) sizes.now (seen_subscript subscript.now)) }
{
    match subscript {
        Subscript::None => choices(alloc, names, known, phrase, sizes, &[]),
        Subscript::Name { place: _, name: _ } => one_choice(alloc, names, known, phrase, sizes),
        Subscript::Integer { .. } => one_choice(alloc, names, known, phrase, sizes),
        Subscript::Parts {
            place: _,
            copies: _,
            arrays,
            components,
        } => {
            if arrays.is_empty() {
                choices(alloc, names, known, phrase, sizes, components)
            } else {
                choices(alloc, names, known, phrase, sizes, arrays)
            }
        }
    }
}

/// What is chosen of so many copies (language document, Views).
#[tactic(auto, using(hal_tree::proofs::MadeExpressions::made_unsubscripted, hal_tree::proofs::MadeExpressions::made_by_name, hal_tree::proofs::MadeExpressions::made_by_integer, hal_tree::proofs::MadeExpressions::made_by_parts))]
fn copies_of(
    names: &Names<'_>,
    known: &Known,
    phrase: &Phrase<'_>,
    size: u16,
    subscript: &Subscript,
) -> Choice
    ensures { seen_choice result ≡ views.copies_chosen (seen_names names.now) (seen_known known.now) (seen_phrase phrase.now) size (seen_subscript subscript.now) }
{
    match subscript {
        Subscript::None => Choice::AllPlaces,
        Subscript::Name { place: _, name: _ } => Choice::AllPlaces,
        Subscript::Integer { .. } => Choice::AllPlaces,
        Subscript::Parts {
            place: _,
            copies,
            arrays: _,
            components: _,
        } => first_choice(names, known, phrase, size, copies),
    }
}

/// What is chosen of the copies, where there are copies (language document, Views).
pub(crate) fn copies_chosen(
    names: &Names<'_>,
    known: &Known,
    phrase: &Phrase<'_>,
    copies: Option<u16>,
    subscript: &Subscript,
) -> Option<Choice>
    ensures { option_map seen_choice result ≡ option_map (λ size. views.copies_chosen (seen_names names.now) (seen_known known.now) (seen_phrase phrase.now) size (seen_subscript subscript.now)) copies }
{
    match copies {
        None => None,
        Some(size) => Some(copies_of(names, known, phrase, size, subscript)),
    }
}
