//! What elements hold at first.

ghost use Rattle.std.specs.Prelude.{◌≡◌, ◌++◌, map, IfOk};
ghost use Rattle.std.specs.Option.{option_map};
ghost use Rattle.hal_tree.specs.Rows.{initials};
ghost use Rattle.hal_tree.specs.SeenDeclarations.{seen_attribute, seen_declared, seen_initial};
ghost use Rattle.hal_phrases.specs.SeenPhrases.{seen_phrase};
ghost use Rattle.hal_names.specs.SeenNames.{seen_names};
ghost use Rattle.hal_constants.specs.SeenKnown.{seen_known};
ghost use Rattle.hal_meaning.specs.InitialValues as initial;
ghost use Rattle.hal_storage.specs.first_values.Filling as filling;

use crate::first_values::given::push_all;
use crate::first_values::holding::{held, nothing};
use hal_constants::Known;
use hal_kinds::{constant_of, initial_of};
use hal_names::Names;
use hal_phrases::Phrase;
use hal_tree::{Attribute, Declared, Initial};
use hal_values::{Kind, Value};
use std::alloc::{AllocError, Global};

/// No values, for elements of these kinds.
fn none_given(alloc: Global, kinds: &[Kind]) -> Result<Vec<Value>, AllocError>
    ensures { IfOk result (λ values. values.items ≡ filling.none_given kinds.now) }
{
    let mut values = Vec::new(alloc);
    for kind in kinds {
        values.push(nothing(*kind))?;
    }
    Ok(values)
}

/// One value for all elements.
fn one_for_all(alloc: Global, kinds: &[Kind], value: &Value) -> Result<Vec<Value>, AllocError>
    ensures { IfOk result (λ values. values.items ≡ filling.one_for_all value.now kinds.now) }
{
    let mut values = Vec::new(alloc);
    for kind in kinds {
        values.push(held(*kind, value))?;
    }
    Ok(values)
}

/// Elements and values, one beside the other.
fn one_each(alloc: Global, kinds: &[Kind], given: &[Value]) -> Result<Vec<Value>, AllocError>
    ensures { IfOk result (λ values. values.items ≡ initial.one_each kinds.now given.now) }
{
    let mut values = Vec::new(alloc);
    let mut rest = given;
    for kind in kinds {
        match rest.split_first() {
            None => values.push(nothing(*kind))?,
            Some((value, others)) => {
                values.push(held(*kind, value))?;
                rest = others;
            }
        }
    }
    Ok(values)
}

/// What elements hold of these values.
fn filled(alloc: Global, kinds: &[Kind], given: &[Value]) -> Result<Vec<Value>, AllocError>
    ensures { IfOk result (λ values. values.items ≡ initial.filled kinds.now given.now) }
{
    match given {
        [value] => one_for_all(alloc, kinds, value),
        _ => one_each(alloc, kinds, given),
    }
}

/// The list behind INITIAL or CONSTANT.
fn given<'a>(common: &'a [Attribute], item: &'a Declared) -> Option<&'a [Initial]>
    ensures { option_map (λ values. initials (map seen_initial values.now)) result ≡ filling.given_of (map seen_attribute common.now) (seen_declared item.now) }
{
    let values = initial_of(common, item);
    if values.is_some() {
        return values;
    }
    constant_of(common, item)
}

/// What elements of these kinds hold of the values that a list gives.
fn filled_by(
    alloc: Global,
    names: &Names<'_>,
    known: &Known,
    phrase: &Phrase<'_>,
    list: Option<&[Initial]>,
    kinds: &[Kind],
) -> Result<Vec<Value>, AllocError>
    ensures { IfOk result (λ values. values.items ≡ filling.filled_by (seen_names names.now) (seen_known known.now) (seen_phrase phrase.now) kinds.now (option_map (λ values. initials (map seen_initial values.now)) list.entry)) }
{
    let Some(list) = list else {
        return none_given(alloc, kinds);
    };
    let mut given = Vec::new(alloc);
    push_all(list, &mut given, names, known, phrase)?;
    filled(alloc, kinds, &given)
}

/// What the elements of what a phrase declares hold at first, where these are their kinds: what INITIAL or CONSTANT gives, else zeros and
/// empty texts (language document, Places).
#[tactic(auto, using(crate::proofs::first_values::Behind::given_behind))]
pub fn first_values(
    alloc: Global,
    names: &Names<'_>,
    known: &Known,
    phrase: &Phrase<'_>,
    common: &[Attribute],
    item: &Declared,
    kinds: &[Kind],
) -> Result<Vec<Value>, AllocError>
    ensures { IfOk result (λ values. values.items ≡ initial.first_values (seen_names names.now) (seen_known known.now) (seen_phrase phrase.now) ((seen_declared item.now).attributes ++ map seen_attribute common.now) kinds.now) }
{
    let list = given(common, item);
    filled_by(alloc, names, known, phrase, list, kinds)
}
