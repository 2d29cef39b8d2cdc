//! Counts of cells and of values, which stand still at the end of their type.

ghost use Rattle.std.specs.Prelude.{◌≡◌};
ghost use Rattle.hal_sizes.specs.Counts as counts;

/// The sum of two counts.
pub fn add(one: u128, other: u128) -> u128
    ensures { result ≡ counts.add one other }
{
    one.saturating_add(other)
}

/// The product of two counts.
pub fn times(one: u128, other: u128) -> u128
    ensures { result ≡ counts.times one other }
{
    one.saturating_mul(other)
}
