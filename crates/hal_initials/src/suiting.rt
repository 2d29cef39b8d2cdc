//! Whether cells take initial values.

ghost use Rattle.std.specs.Prelude.{◌≡◌, map};
ghost use Rattle.std.specs.Option.{option_map};
ghost use Rattle.hal_tree.specs.Rows.{initials};
ghost use Rattle.hal_tree.specs.SeenDeclarations.{seen_initial};
ghost use Rattle.hal_tree.specs.SeenLeaves.{seen_sign};
ghost use Rattle.hal_phrases.specs.SeenPhrases.{seen_phrase};
ghost use Rattle.hal_names.specs.SeenNames.{seen_names};
ghost use Rattle.hal_constants.specs.SeenKnown.{seen_known};
ghost use Rattle.hal_initials.specs.Suiting as suiting;

use hal_base::Place;
use hal_base::rules::{NOT_CONSTANT, WRONG_KIND_OF_OPERAND};
use hal_constants::{Constant, Known, constant_of, is_storable, signed_literal, signed_name};
use hal_kinds::{Class, chosen, class_in, class_of, class_of_literal, data_named};
use hal_names::Names;
use hal_operands::takes;
use hal_operations::fit;
use hal_phrases::Phrase;
use hal_scope::unless;
use hal_tree::{Initial, Sign, Subscript};
use hal_values::{ErrNo, Kind, Value};
use hal_words::Name;

/// Whether a store fails.
#[tactic(auto, unfolding(crate::specs::Suiting::fails))]
fn fails(outcome: Result<Value, ErrNo>) -> bool
    ensures { result ≡ suiting.fails outcome }
{
    match outcome {
        Ok(_) => false,
        Err(_) => true,
    }
}

/// Whether a cell of this kind takes a value and can't hold it.
fn is_lost(kind: Kind, value: &Value) -> bool
    ensures { result ≡ suiting.is_lost kind value.now }
{
    if !is_storable(kind, value) {
        return false;
    }
    fails(fit(kind, value))
}

/// The same, where both are known.
#[tactic(auto, unfolding(crate::specs::Suiting::overflows))]
fn overflows(kind: Option<Kind>, constant: &Constant) -> bool
    ensures { result ≡ suiting.overflows kind constant.now }
{
    match (kind, constant) {
        (Some(kind), Constant::Worth(value)) => is_lost(kind, value),
        _ => false,
    }
}

/// A value of this class at this place, for cells of a class and a kind.
fn value_fault(
    wanted: Option<Class>,
    kind: Option<Kind>,
    place: Place,
    class: Option<Class>,
    constant: &Constant,
) -> Option<(u16, Place)>
    ensures { result ≡ suiting.value_fault wanted kind place class constant.now }
{
    if !takes(wanted, class) {
        return Some((WRONG_KIND_OF_OPERAND, place));
    }
    if overflows(kind, constant) {
        Some((NOT_CONSTANT, place))
    } else {
        None
    }
}

/// The class of a name's value.
#[tactic(auto, using(hal_tree::proofs::MadeExpressions::made_unsubscripted))]
fn class_named(names: &Names<'_>, block: usize, name: &Name) -> Option<Class>
    ensures { result ≡ suiting.class_named (seen_names names.now) block name.now }
{
    let data = data_named(names, block, name, &[])?;
    Some(class_in(data, chosen(data, &Subscript::None)))
}

/// An initial value without its repetition; of a list its values are looked at.
#[tactic(auto, using(hal_tree::proofs::MadeDeclarations::made_value, hal_tree::proofs::MadeDeclarations::made_literal_times, hal_tree::proofs::MadeDeclarations::made_name_times, hal_tree::proofs::MadeDeclarations::made_list_times), unfolding(crate::specs::Suiting::single_fault))]
pub(crate) fn single_fault(
    names: &Names<'_>,
    known: &Known,
    phrase: &Phrase<'_>,
    wanted: Option<Class>,
    kind: Option<Kind>,
    initial: &Initial,
) -> Option<(u16, Place)>
    ensures { result ≡ suiting.single_fault (seen_names names.now) (seen_known known.now) (seen_phrase phrase.now) wanted kind (seen_initial initial.now) }
{
    match initial {
        Initial::Value { value } => value_fault(
            wanted,
            kind,
            value.place(),
            class_of(value, names, phrase.around.block),
            &constant_of(value, names, known, phrase),
        ),
        Initial::LiteralTimes {
            place: _,
            count: _,
            sign,
            at,
            literal,
        } => value_fault(
            wanted,
            kind,
            *at,
            Some(class_of_literal(*literal)),
            &signed_literal(*sign, *literal),
        ),
        Initial::NameTimes {
            place: _,
            count: _,
            sign,
            name,
        } => value_fault(
            wanted,
            kind,
            name.place,
            class_named(names, phrase.around.block, &name.name),
            &signed_name(names, known, phrase, *sign, name),
        ),
        Initial::ListTimes { .. } => None,
    }
}

/// An initial value with all values of its list.
#[cycle(suiting)]
#[tactic(auto, using(hal_tree::proofs::MadeDeclarations::made_value, hal_tree::proofs::MadeDeclarations::made_literal_times, hal_tree::proofs::MadeDeclarations::made_name_times, hal_tree::proofs::MadeDeclarations::made_list_times), unfolding(crate::specs::Suiting::initial_fault))]
fn initial_fault(
    initial: &Initial,
    names: &Names<'_>,
    known: &Known,
    phrase: &Phrase<'_>,
    wanted: Option<Class>,
    kind: Option<Kind>,
) -> Option<(u16, Place)>
    ensures { result ≡ suiting.initial_fault (seen_names names.now) (seen_known known.now) (seen_phrase phrase.now) wanted kind (seen_initial initial.now) }
{
    match initial {
        Initial::ListTimes {
            place: _,
            count: _,
            values,
        } => initials_fault(values, names, known, phrase, wanted, kind),
        Initial::Value { .. } => single_fault(names, known, phrase, wanted, kind, initial),
        Initial::LiteralTimes { .. } => single_fault(names, known, phrase, wanted, kind, initial),
        Initial::NameTimes { .. } => single_fault(names, known, phrase, wanted, kind, initial),
    }
}

/// The first of initial values that cells of a class and a kind don't take.
#[cycle(suiting)]
#[tactic(auto, unfolding(crate::specs::Suiting::initials_fault, hal_tree::specs::Rows::initials))]
pub(crate) fn initials_fault(
    values: &[Initial],
    names: &Names<'_>,
    known: &Known,
    phrase: &Phrase<'_>,
    wanted: Option<Class>,
    kind: Option<Kind>,
) -> Option<(u16, Place)>
    ensures { result ≡ suiting.initials_fault (seen_names names.now) (seen_known known.now) (seen_phrase phrase.now) wanted kind (initials (map seen_initial values.now)) }
{
    for initial in values {
        let found = initial_fault(initial, names, known, phrase, wanted, kind);
        if found.is_some() {
            return found;
        }
    }
    None
}

/// A sign before what is no integer.
#[tactic(auto, unfolding(crate::specs::Suiting::missigned_class))]
fn missigned_class(sign: Option<Sign>, class: Option<Class>, place: Place) -> Option<Place>
    ensures { result ≡ suiting.missigned_class (option_map seen_sign sign) class place }
{
    match sign {
        None => None,
        Some(_) => unless(takes(Some(Class::Integer), class), place),
    }
}

/// A sign before a literal or a name that is no integer.
#[tactic(auto, using(hal_tree::proofs::MadeDeclarations::made_value, hal_tree::proofs::MadeDeclarations::made_literal_times, hal_tree::proofs::MadeDeclarations::made_name_times, hal_tree::proofs::MadeDeclarations::made_list_times), unfolding(crate::specs::Suiting::missigned_initial))]
pub(crate) fn missigned_initial(
    names: &Names<'_>,
    phrase: &Phrase<'_>,
    initial: &Initial,
) -> Option<Place>
    ensures { result ≡ suiting.missigned_initial (seen_names names.now) (seen_phrase phrase.now) (seen_initial initial.now) }
{
    match initial {
        Initial::LiteralTimes {
            place: _,
            count: _,
            sign,
            at,
            literal,
        } => missigned_class(*sign, Some(class_of_literal(*literal)), *at),
        Initial::NameTimes {
            place: _,
            count: _,
            sign,
            name,
        } => missigned_class(
            *sign,
            class_named(names, phrase.around.block, &name.name),
            name.place,
        ),
        Initial::Value { .. } => None,
        Initial::ListTimes { .. } => None,
    }
}
