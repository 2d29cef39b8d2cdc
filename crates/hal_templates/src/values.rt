//! Whether the values behind CONSTANT are the same.

ghost use Rattle.std.specs.Prelude.{◌≡◌, map, IfOk};
ghost use Rattle.std.specs.Option.{option_map};
ghost use Rattle.hal_tree.specs.Rows.{initials};
ghost use Rattle.hal_tree.specs.SeenDeclarations.{seen_attribute, seen_initial};
ghost use Rattle.hal_phrases.specs.SeenPhrases.{seen_phrase};
ghost use Rattle.hal_names.specs.SeenNames.{seen_names};
ghost use Rattle.hal_constants.specs.Known as facts;
ghost use Rattle.hal_constants.specs.SeenKnown.{seen_known};
ghost use Rattle.hal_templates.specs.Leaves.{seen_leaf, seen_leaves};
ghost use Rattle.hal_templates.specs.Values as plain;

use crate::counts::is_few;
use crate::kinds::kinds_of;
use crate::leaves::{count_of_all, leaf_value, leaves};
use crate::reading::constants_given;
use hal_constants::{Constant, Known, is_storable};
use hal_names::Names;
use hal_operations::fit;
use hal_phrases::Phrase;
use hal_tree::{Attribute, Initial};
use hal_values::{Kind, Value};
use std::alloc::{AllocError, Global};

/// Two values.
#[tactic(auto, unfolding(crate::specs::Values::same_value))]
fn same_value(one: &Value, other: &Value) -> bool
    ensures { result ≡ plain.same_value one.now other.now }
{
    match (one, other) {
        (Value::Int(a), Value::Int(b)) => !(*a < *b) && !(*b < *a),
        (Value::Bits { len: m, word: x }, Value::Bits { len: n, word: y }) => {
            *m == *n && *x == *y
        }
        (Value::Text(one), Value::Text(other)) => one.bytes() == other.bytes(),
        _ => false,
    }
}

/// The same, as far as both are known.
#[tactic(auto, unfolding(crate::specs::Values::may_be_value))]
fn may_be_value(one: Option<Value>, other: Option<Value>) -> bool
    ensures { result ≡ plain.may_be_value one other }
{
    match (one, other) {
        (Some(one), Some(other)) => same_value(&one, &other),
        _ => true,
    }
}

/// A value as a cell of the kind holds it.
#[tactic(auto, unfolding(hal_constants::specs::Known::fitted, hal_constants::specs::Known::kept))]
fn fitted(kind: Option<Kind>, constant: &Constant) -> Option<Value>
    ensures { result ≡ facts.fitted kind constant.now }
{
    match (kind, constant) {
        (Some(kind), Constant::Worth(value)) => {
            if is_storable(kind, value) {
                fit(kind, value).ok()
            } else {
                None
            }
        }
        _ => None,
    }
}

/// The kind of the cell with this number.
fn kind_at(kinds: &[Option<Kind>], number: usize) -> Option<Kind>
    ensures { result ≡ plain.kind_at kinds.now number }
{
    if kinds.is_empty() {
        return None;
    }
    let kind = kinds.get(number % kinds.len())?;
    *kind
}

/// What falls to this cell.
#[tactic(auto, using(crate::proofs::Repeated::got, hal_kinds::proofs::Lists::all_mapped))]
fn leaf_at<'a>(list: &[&'a Initial], number: usize) -> Option<&'a Initial>
    ensures { option_map seen_leaf result ≡ plain.leaf_at (seen_leaves list.now) number }
{
    let place = if list.len() == 1 { 0 } else { number };
    list.get(place).copied()
}

/// What the cell holds, for values in this phrase.
fn held_at(
    names: &Names<'_>,
    known: &Known,
    phrase: &Phrase<'_>,
    kinds: &[Option<Kind>],
    list: &[&Initial],
    number: usize,
) -> Option<Value>
    ensures { result ≡ plain.held_at (seen_names names.now) (seen_known known.now) (seen_phrase phrase.now) kinds.now (seen_leaves list.now) number }
{
    let leaf = leaf_at(list, number)?;
    fitted(
        kind_at(kinds, number),
        &leaf_value(names, known, phrase, leaf),
    )
}

/// Whether values in two phrases are the same in each of the first cells.
#[tactic(auto, unfolding(crate::specs::Values::same_below))]
fn same_below(
    names: &Names<'_>,
    known: &Known,
    kinds: &[Option<Kind>],
    one: &Phrase<'_>,
    left: &[&Initial],
    two: &Phrase<'_>,
    right: &[&Initial],
    count: usize,
) -> bool
    ensures { result ≡ plain.same_below (seen_names names.now) (seen_known known.now) kinds.now (seen_phrase one.now) (seen_leaves left.now) (seen_phrase two.now) (seen_leaves right.now) count }
{
    let mut more = count;
    while let Some(number) = more.checked_sub(1) {
        let held = held_at(names, known, one, kinds, left, number);
        if !may_be_value(held, held_at(names, known, two, kinds, right, number)) {
            return false;
        }
        more = number;
    }
    true
}

/// Whether they are in all cells.
#[tactic(auto, using(hal_kinds::proofs::Lists::all_mapped))]
fn same_leaves(
    names: &Names<'_>,
    known: &Known,
    kinds: &[Option<Kind>],
    one: &Phrase<'_>,
    left: &[&Initial],
    two: &Phrase<'_>,
    right: &[&Initial],
) -> bool
    ensures { result ≡ plain.same_leaves (seen_names names.now) (seen_known known.now) kinds.now (seen_phrase one.now) (seen_leaves left.now) (seen_phrase two.now) (seen_leaves right.now) }
{
    let count = kinds.len().max(left.len().max(right.len()));
    same_below(names, known, kinds, one, left, two, right, count)
}

/// Two lists, for cells of these kinds.
fn same_lists(
    alloc: Global,
    names: &Names<'_>,
    known: &Known,
    kinds: &[Option<Kind>],
    one: &Phrase<'_>,
    values: &[Initial],
    two: &Phrase<'_>,
    others: &[Initial],
) -> Result<bool, AllocError>
    ensures { IfOk result (λ same. same ≡ plain.same_lists (seen_names names.now) (seen_known known.now) kinds.now (seen_phrase one.now) (initials (map seen_initial values.now)) (seen_phrase two.now) (initials (map seen_initial others.now))) }
{
    if !(is_few(count_of_all(values)) && is_few(count_of_all(others))) {
        return Ok(true);
    }
    let left = leaves(alloc, values)?;
    let right = leaves(alloc, others)?;
    Ok(same_leaves(names, known, kinds, one, &left, two, &right))
}

/// Two lists in two phrases, for cells of the kinds that the data of the second one have.
#[tactic(auto, unfolding(crate::specs::Values::same_in))]
fn same_in(
    alloc: Global,
    names: &Names<'_>,
    known: &Known,
    kinds: Option<Vec<Option<Kind>>>,
    one: &Phrase<'_>,
    values: &[Initial],
    two: &Phrase<'_>,
    others: &[Initial],
) -> Result<bool, AllocError>
    ensures { IfOk result (λ same. same ≡ plain.same_in (seen_names names.now) (seen_known known.now) (option_map (λ list. list.items) kinds) (seen_phrase one.now) (initials (map seen_initial values.now)) (seen_phrase two.now) (initials (map seen_initial others.now))) }
{
    match kinds {
        None => Ok(true),
        Some(kinds) => same_lists(alloc, names, known, &kinds, one, values, two, others),
    }
}

/// Whether the values behind CONSTANT of data that two phrases declare are the same, where both have some (language document, Templates).
#[tactic(auto, unfolding(crate::specs::Values::same_given))]
pub(crate) fn same_constants(
    alloc: Global,
    names: &Names<'_>,
    known: &Known,
    one: &Phrase<'_>,
    common: &[Attribute],
    own: &[Attribute],
    two: &Phrase<'_>,
    other_common: &[Attribute],
    other_own: &[Attribute],
) -> Result<bool, AllocError>
    ensures { IfOk result (λ same. same ≡ plain.same_constants (seen_names names.now) (seen_known known.now) (seen_phrase one.now) (map seen_attribute common.now) (map seen_attribute own.now) (seen_phrase two.now) (map seen_attribute other_common.now) (map seen_attribute other_own.now)) }
{
    let Some(values) = constants_given(common, own) else {
        return Ok(true);
    };
    let Some(others) = constants_given(other_common, other_own) else {
        return Ok(true);
    };
    let kinds = kinds_of(alloc, names, known, two, other_common, other_own)?;
    same_in(alloc, names, known, kinds, one, values, two, others)
}
