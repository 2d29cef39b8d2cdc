//! How many values initial values give.

ghost use Rattle.std.specs.Prelude.{◌≡◌, map};
ghost use Rattle.hal_tree.specs.Rows.{initials};
ghost use Rattle.hal_tree.specs.SeenDeclarations.{seen_initial};
ghost use Rattle.hal_initials.specs.Repetition as repetition;

use hal_sizes::{add, times};
use hal_tree::Initial;

/// How many values an initial value with its repetition gives.
#[cycle(repetition)]
#[tactic(auto, using(hal_tree::proofs::MadeDeclarations::made_value, hal_tree::proofs::MadeDeclarations::made_literal_times, hal_tree::proofs::MadeDeclarations::made_name_times, hal_tree::proofs::MadeDeclarations::made_list_times), unfolding(crate::specs::Repetition::count_of))]
pub(crate) fn count_of(initial: &Initial) -> u128
    ensures { result ≡ repetition.count_of (seen_initial initial.now) }
{
    match initial {
        Initial::Value { .. } => 1,
        Initial::LiteralTimes { count, .. } => u128::from(*count),
        Initial::NameTimes { count, .. } => u128::from(*count),
        Initial::ListTimes {
            place: _,
            count,
            values,
        } => times(u128::from(*count), count_of_all(values)),
    }
}

/// How many values initial values give.
#[cycle(repetition)]
#[tactic(auto, unfolding(crate::specs::Repetition::count_with, hal_tree::specs::Rows::initials))]
pub(crate) fn count_of_all(values: &[Initial]) -> u128
    ensures { result ≡ repetition.count_of_all (initials (map seen_initial values.now)) }
{
    let mut total: u128 = 0;
    for initial in values {
        total = add(total, count_of(initial));
    }
    total
}
