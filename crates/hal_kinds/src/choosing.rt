//! What subscripts choose.

ghost use Rattle.std.specs.Prelude.{◌≡◌, map};
ghost use Rattle.hal_tree.specs.Rows.{subscripts};
ghost use Rattle.hal_tree.specs.SeenExpressions.{seen_sub, seen_subscript};
ghost use Rattle.hal_kinds.specs.Subscripts as chosen;

use crate::choice::Choice;
use crate::class::Class;
use crate::data::Data;
use hal_tree::{Sub, Subscript};

/// Whether a subscript chooses several places.
#[tactic(auto, using(hal_tree::proofs::MadeExpressions::made_every, hal_tree::proofs::MadeExpressions::made_one, hal_tree::proofs::MadeExpressions::made_range, hal_tree::proofs::MadeExpressions::made_portion), unfolding(crate::specs::Subscripts::is_many))]
fn is_many(sub: &Sub) -> bool
    ensures { result ≡ chosen.is_many (seen_sub sub.now) }
{
    match sub {
        Sub::Every { place: _ } => true,
        Sub::One { .. } => false,
        Sub::Range { .. } => true,
        Sub::Portion { .. } => true,
    }
}

/// Whether one of them does.
#[tactic(auto, unfolding(crate::specs::Subscripts::are_many, hal_tree::specs::Rows::subscripts))]
fn are_many(subs: &[Sub]) -> bool
    ensures { result ≡ chosen.are_many (subscripts (map seen_sub subs.now)) }
{
    for sub in subs {
        if is_many(sub) {
            return true;
        }
    }
    false
}

/// One subscript without a mark, of data with an array or without one.
fn single(arrayed: bool) -> Choice
    ensures { result ≡ chosen.single arrayed }
{
    let (places, components) = if arrayed { (1, 0) } else { (0, 1) };
    Choice {
        copies: 0,
        places,
        components,
        many_copies: false,
        many_places: false,
    }
}

/// Three parts; those without a mark are of the array where there is one and no other part is.
#[tactic(auto, using(crate::proofs::Lists::subscripts_counted), unfolding(crate::specs::Subscripts::parts_chosen))]
fn parts_chosen(arrayed: bool, copies: &[Sub], arrays: &[Sub], components: &[Sub]) -> Choice
    ensures { result ≡ chosen.parts_chosen arrayed (subscripts (map seen_sub copies.now)) (subscripts (map seen_sub arrays.now)) (subscripts (map seen_sub components.now)) }
{
    if arrayed && arrays.len() == 0 {
        Choice {
            copies: copies.len(),
            places: components.len(),
            components: 0,
            many_copies: are_many(copies),
            many_places: are_many(components),
        }
    } else {
        Choice {
            copies: copies.len(),
            places: arrays.len(),
            components: components.len(),
            many_copies: are_many(copies),
            many_places: are_many(arrays),
        }
    }
}

/// What a subscript chooses, of data with an array or without one.
#[tactic(auto, using(hal_tree::proofs::MadeExpressions::made_unsubscripted, hal_tree::proofs::MadeExpressions::made_by_name, hal_tree::proofs::MadeExpressions::made_by_integer, hal_tree::proofs::MadeExpressions::made_by_parts), unfolding(crate::specs::Subscripts::choice_of))]
fn choice_of(arrayed: bool, subscript: &Subscript) -> Choice
    ensures { result ≡ chosen.choice_of arrayed (seen_subscript subscript.now) }
{
    match subscript {
        Subscript::None => Choice {
            copies: 0,
            places: 0,
            components: 0,
            many_copies: false,
            many_places: false,
        },
        Subscript::Name { .. } => single(arrayed),
        Subscript::Integer { .. } => single(arrayed),
        Subscript::Parts {
            place: _,
            copies,
            arrays,
            components,
        } => parts_chosen(arrayed, copies, arrays, components),
    }
}

/// What a subscript chooses of these data.
pub fn chosen(whole: Data, subscript: &Subscript) -> Choice
    ensures { result ≡ chosen.chosen whole (seen_subscript subscript.now) }
{
    choice_of(0 < whole.dimensions, subscript)
}

/// Whether several copies are left.
pub fn has_copies_left(whole: Data, choice: Choice) -> bool
    ensures { result ≡ chosen.has_copies_left whole choice }
{
    whole.copies && (choice.copies == 0 || choice.many_copies)
}

/// Whether several places of the array are left.
pub fn has_places_left(whole: Data, choice: Choice) -> bool
    ensures { result ≡ chosen.has_places_left whole choice }
{
    0 < whole.dimensions && (choice.places == 0 || choice.many_places)
}

/// Whether copies are chosen where there are none, or by several subscripts.
fn miscopied(whole: Data, choice: Choice) -> bool
    ensures { result ≡ chosen.miscopied whole choice }
{
    0 < choice.copies && (!whole.copies || 1 < choice.copies)
}

/// Whether array places are chosen by another number of subscripts than there are dimensions.
fn misplaced(whole: Data, choice: Choice) -> bool
    ensures { result ≡ chosen.misplaced whole choice }
{
    0 < choice.places && !(choice.places == whole.dimensions)
}

/// Whether copies or array places are chosen by a wrong number of subscripts.
pub fn is_miscounted(whole: Data, choice: Choice) -> bool
    ensures { result ≡ chosen.is_miscounted whole choice }
{
    miscopied(whole, choice) || misplaced(whole, choice)
}

/// The class of what is chosen.
#[tactic(auto, unfolding(crate::specs::Subscripts::is_structure_class))]
pub fn class_in(whole: Data, choice: Choice) -> Class
    ensures { result ≡ chosen.class_in whole choice }
{
    match whole.class {
        Class::Structure => Class::Structure,
        class => {
            if has_copies_left(whole, choice) || has_places_left(whole, choice) {
                Class::Array
            } else {
                class
            }
        }
    }
}

/// The class of what a reference chooses; a wrong number of subscripts chooses nothing that has a class.
pub(crate) fn class_left(whole: Data, choice: Choice) -> Option<Class>
    ensures { result ≡ chosen.class_left whole choice }
{
    if is_miscounted(whole, choice) {
        None
    } else {
        Some(class_in(whole, choice))
    }
}
