//! The values that a list behind CONSTANT gives, one after another.

ghost use Rattle.std.specs.Prelude.{◌≡◌, ◌++◌, map, replicate, IfOk, OnOk};
ghost use Rattle.hal_tree.specs.Rows.{initials};
ghost use Rattle.hal_tree.specs.SeenDeclarations.{seen_initial};
ghost use Rattle.hal_phrases.specs.SeenPhrases.{seen_phrase};
ghost use Rattle.hal_names.specs.SeenNames.{seen_names};
ghost use Rattle.hal_constants.specs.SeenKnown.{seen_known};
ghost use Rattle.hal_templates.specs.Leaves as plain;

use crate::counts::{add, times};
use hal_constants::{Constant, Known, constant_of, signed_literal, signed_name};
use hal_names::Names;
use hal_phrases::Phrase;
use hal_tree::Initial;
use std::alloc::{AllocError, Global};

/// How many values an initial value with its repetition gives.
#[cycle(counts)]
#[tactic(auto, using(hal_tree::proofs::MadeDeclarations::made_value, hal_tree::proofs::MadeDeclarations::made_literal_times, hal_tree::proofs::MadeDeclarations::made_name_times, hal_tree::proofs::MadeDeclarations::made_list_times), unfolding(crate::specs::Leaves::count_of))]
fn count_of(initial: &Initial) -> u128
    ensures { result ≡ plain.count_of (seen_initial initial.now) }
{
    match initial {
        Initial::Value { .. } => 1,
        Initial::LiteralTimes { count, .. } => u128::from(*count),
        Initial::NameTimes { count, .. } => u128::from(*count),
        Initial::ListTimes {
            place: _,
            count,
            values,
        } => times(u128::from(*count), count_of_all(values)),
    }
}

/// How many values initial values give.
#[cycle(counts)]
#[tactic(auto, unfolding(crate::specs::Leaves::count_with, hal_tree::specs::Rows::initials))]
pub(crate) fn count_of_all(values: &[Initial]) -> u128
    ensures { result ≡ plain.count_of_all (initials (map seen_initial values.now)) }
{
    let mut total: u128 = 0;
    for initial in values {
        total = add(total, count_of(initial));
    }
    total
}

/// Adds one of them so many times.
#[tactic(auto, using(crate::proofs::Repeated::one_more, crate::proofs::Repeated::none_behind))]
fn push_leaf<'a>(
    into: &mut Vec<&'a Initial>,
    count: u32,
    leaf: &'a Initial,
) -> Result<(), AllocError>
    ensures { OnOk result (plain.seen_leaves into.new.items ≡ plain.seen_leaves into.old.items ++ replicate count (seen_initial leaf.now)) }
{
    let mut left = count;
    while let Some(fewer) = left.checked_sub(1) {
        into.push(leaf)?;
        left = fewer;
    }
    Ok(())
}

/// Adds those that an initial value gives.
#[cycle(leaves)]
#[tactic(auto, using(crate::proofs::Repeated::one, hal_tree::proofs::MadeDeclarations::made_value, hal_tree::proofs::MadeDeclarations::made_literal_times, hal_tree::proofs::MadeDeclarations::made_name_times, hal_tree::proofs::MadeDeclarations::made_list_times))]
fn push_leaves<'a>(initial: &'a Initial, into: &mut Vec<&'a Initial>) -> Result<(), AllocError>
    ensures { OnOk result (plain.seen_leaves into.new.items ≡ plain.seen_leaves into.old.items ++ plain.leaves_of (seen_initial initial.now)) }
{
    match initial {
        Initial::Value { .. } => push_leaf(into, 1, initial),
        Initial::LiteralTimes { count, .. } => push_leaf(into, *count, initial),
        Initial::NameTimes { count, .. } => push_leaf(into, *count, initial),
        Initial::ListTimes { count, values, .. } => push_lists(values, into, *count),
    }
}

/// Adds those that a list gives, so many times.
#[cycle(leaves)]
#[tactic(auto, using(crate::proofs::Repeated::behind, crate::proofs::Repeated::none_behind))]
fn push_lists<'a>(
    values: &'a [Initial],
    into: &mut Vec<&'a Initial>,
    count: u32,
) -> Result<(), AllocError>
    ensures { OnOk result (plain.seen_leaves into.new.items ≡ plain.seen_leaves into.old.items ++ plain.times count (plain.all_leaves (initials (map seen_initial values.now)))) }
{
    let mut left = count;
    while let Some(fewer) = left.checked_sub(1) {
        push_all(values, into)?;
        left = fewer;
    }
    Ok(())
}

/// Adds those that a list gives.
#[cycle(leaves)]
#[tactic(auto, using(crate::proofs::Repeated::behind, crate::proofs::Repeated::none_behind), unfolding(hal_tree::specs::Rows::initials))]
fn push_all<'a>(values: &'a [Initial], into: &mut Vec<&'a Initial>) -> Result<(), AllocError>
    ensures { OnOk result (plain.seen_leaves into.new.items ≡ plain.seen_leaves into.old.items ++ plain.all_leaves (initials (map seen_initial values.now))) }
{
    for initial in values {
        push_leaves(initial, into)?;
    }
    Ok(())
}

/// The values that a list gives, one after another.
pub(crate) fn leaves<'a>(
    alloc: Global,
    values: &'a [Initial],
) -> Result<Vec<&'a Initial>, AllocError>
    ensures { IfOk result (λ list. plain.seen_leaves list.items ≡ plain.all_leaves (initials (map seen_initial values.now))) }
{
    let mut list = Vec::new(alloc);
    push_all(values, &mut list)?;
    Ok(list)
}

/// The value of one of them, without its repetition.
#[tactic(auto, using(hal_tree::proofs::MadeDeclarations::made_value, hal_tree::proofs::MadeDeclarations::made_literal_times, hal_tree::proofs::MadeDeclarations::made_name_times, hal_tree::proofs::MadeDeclarations::made_list_times), unfolding(crate::specs::Leaves::leaf_value))]
pub(crate) fn leaf_value(
    names: &Names<'_>,
    known: &Known,
    phrase: &Phrase<'_>,
    leaf: &Initial,
) -> Constant
    ensures { result ≡ plain.leaf_value (seen_names names.now) (seen_known known.now) (seen_phrase phrase.now) (seen_initial leaf.now) }
{
    match leaf {
        Initial::Value { value } => constant_of(value, names, known, phrase),
        Initial::LiteralTimes { sign, literal, .. } => signed_literal(*sign, *literal),
        Initial::NameTimes { sign, name, .. } => signed_name(names, known, phrase, *sign, name),
        Initial::ListTimes { .. } => Constant::Unfit,
    }
}
