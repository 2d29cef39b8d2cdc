//! Counts of cells and of values, which stand still at the end of their type.

ghost use Rattle.std.specs.Prelude.{◌≡◌};
ghost use Rattle.hal_templates.specs.Counts as counts;

use hal_base::CELL_LIMIT;

/// The sum of two counts.
pub(crate) fn add(one: u128, other: u128) -> u128
    ensures { result ≡ counts.add one other }
{
    one.saturating_add(other)
}

/// The product of two counts.
pub(crate) fn times(one: u128, other: u128) -> u128
    ensures { result ≡ counts.times one other }
{
    one.saturating_mul(other)
}

/// Whether there are no more than cells that a set may have in all.
pub(crate) fn is_few(count: u128) -> bool
    ensures { result ≡ counts.is_few count }
{
    count <= u128::from(CELL_LIMIT)
}
