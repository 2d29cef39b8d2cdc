//! The values that initial values give.

ghost use Rattle.std.specs.Prelude.{◌≡◌, ◌++◌, map, replicate, OnOk};
ghost use Rattle.hal_tree.specs.Rows.{initials};
ghost use Rattle.hal_tree.specs.SeenDeclarations.{seen_initial};
ghost use Rattle.hal_phrases.specs.SeenPhrases.{seen_phrase};
ghost use Rattle.hal_names.specs.SeenNames.{seen_names};
ghost use Rattle.hal_constants.specs.SeenKnown.{seen_known};
ghost use Rattle.hal_meaning.specs.Elements.{times};
ghost use Rattle.hal_meaning.specs.InitialValues as given;

use hal_constants::{Constant, Known, constant_of, signed_literal, signed_name};
use hal_names::Names;
use hal_phrases::Phrase;
use hal_tree::Initial;
use hal_values::Value;
use std::alloc::AllocError;

/// What a constant is worth.
fn worth(constant: Constant) -> Value
    ensures { result ≡ given.worth constant }
{
    match constant {
        Constant::Worth(value) => value,
        Constant::Failed => Value::Int(0),
        Constant::Open => Value::Int(0),
        Constant::Unfit => Value::Int(0),
    }
}

/// Adds a value so many times.
#[tactic(auto, using(crate::proofs::elements::Repeated::behind, crate::proofs::elements::Repeated::none_behind))]
fn push_times(into: &mut Vec<Value>, count: u32, value: &Value) -> Result<(), AllocError>
    ensures { OnOk result (into.new.items ≡ into.old.items ++ replicate count value.now) }
{
    let mut left = count;
    while let Some(fewer) = left.checked_sub(1) {
        into.push(value.copy())?;
        left = fewer;
    }
    Ok(())
}

/// Adds the values that an initial value gives.
#[cycle(values)]
#[tactic(auto, using(hal_tree::proofs::MadeDeclarations::made_value, hal_tree::proofs::MadeDeclarations::made_literal_times, hal_tree::proofs::MadeDeclarations::made_name_times, hal_tree::proofs::MadeDeclarations::made_list_times))]
fn push_values(
    initial: &Initial,
    into: &mut Vec<Value>,
    names: &Names<'_>,
    known: &Known,
    phrase: &Phrase<'_>,
) -> Result<(), AllocError>
    ensures { OnOk result (into.new.items ≡ into.old.items ++ given.values_of (seen_names names.now) (seen_known known.now) (seen_phrase phrase.now) (seen_initial initial.now)) }
{
    match initial {
        Initial::Value { value } => {
            into.push(worth(constant_of(value, names, known, phrase)))?;
            Ok(())
        }
        Initial::LiteralTimes {
            count,
            sign,
            literal,
            ..
        } => push_times(into, *count, &worth(signed_literal(*sign, *literal))),
        Initial::NameTimes {
            count,
            sign,
            name,
            ..
        } => {
            let constant = signed_name(names, known, phrase, *sign, name);
            push_times(into, *count, &worth(constant))
        }
        Initial::ListTimes { count, values, .. } => {
            push_lists(values, into, names, known, phrase, *count)
        }
    }
}

/// Adds the values that a list gives, so many times.
#[cycle(values)]
#[tactic(auto, using(crate::proofs::elements::Repeated::behind, crate::proofs::elements::Repeated::none_behind))]
fn push_lists(
    values: &[Initial],
    into: &mut Vec<Value>,
    names: &Names<'_>,
    known: &Known,
    phrase: &Phrase<'_>,
    count: u32,
) -> Result<(), AllocError>
    ensures { OnOk result (into.new.items ≡ into.old.items ++ times count (given.all_values (seen_names names.now) (seen_known known.now) (seen_phrase phrase.now) (initials (map seen_initial values.now)))) }
{
    let mut left = count;
    while let Some(fewer) = left.checked_sub(1) {
        push_all(values, into, names, known, phrase)?;
        left = fewer;
    }
    Ok(())
}

/// Adds the values that a list gives.
#[cycle(values)]
#[tactic(auto, using(crate::proofs::elements::Repeated::behind, crate::proofs::elements::Repeated::none_behind), unfolding(hal_tree::specs::Rows::initials))]
pub(crate) fn push_all(
    values: &[Initial],
    into: &mut Vec<Value>,
    names: &Names<'_>,
    known: &Known,
    phrase: &Phrase<'_>,
) -> Result<(), AllocError>
    ensures { OnOk result (into.new.items ≡ into.old.items ++ given.all_values (seen_names names.now) (seen_known known.now) (seen_phrase phrase.now) (initials (map seen_initial values.now))) }
{
    for initial in values {
        push_values(initial, into, names, known, phrase)?;
    }
    Ok(())
}
