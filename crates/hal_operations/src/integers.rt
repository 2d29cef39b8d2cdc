//! Operations on integers. Sums and products are exact in 64 bits before their range is looked at.

ghost use Rattle.std.specs.Prelude.{◌≡◌, ◌*ℤ◌, ◌^◌, ◌≤◌, pos, false, int_div};
ghost use Rattle.hal_operations.specs.Integers.{double, ranged, nearest, power, mended_power, is_zero, quotient, mended_quotient, remainder, modulus, is_shift, places, left_shift, mended_left_shift, halved, right_shift};

use crate::errors::{RANGE_ERROR, ZERO_DIVISOR};
use hal_values::ErrNo;

/// An exact result, which may be out of range.
pub(crate) fn ranged(exact: i64) -> Result<i32, ErrNo>
    ensures { result ≡ ranged double exact }
{
    match i32::try_from(exact) {
        Ok(number) => Ok(number),
        Err(_) => Err(RANGE_ERROR),
    }
}

/// The nearest bound in place of a result that is out of range.
pub(crate) fn nearest(exact: i64) -> i32
    ensures { result ≡ nearest double exact }
{
    exact.clamp(i64::from(i32::MIN), i64::from(i32::MAX)) as i32
}

/// A power; a negative exponent is out of range.
pub(crate) fn power(a: i32, exponent: i32) -> Result<i32, ErrNo>
    ensures { result ≡ power a exponent }
{
    let Ok(exponent) = u32::try_from(exponent) else {
        return Err(RANGE_ERROR);
    };
    match a.checked_pow(exponent) {
        Some(power) => Ok(power),
        None => Err(RANGE_ERROR),
    }
}

/// A power after an ignored error.
pub(crate) fn mended_power(a: i32, exponent: i32) -> i32
    ensures { result ≡ mended_power a exponent }
{
    let exponent = exponent.max(0).unsigned_abs();
    match a.checked_pow(exponent) {
        Some(power) => power,
        None if a < 0 && exponent % 2 == 1 => i32::MIN,
        None => i32::MAX,
    }
}

/// The quotient, which may be out of range.
fn exact_quotient(a: i32, b: i32) -> i64
    requires { is_zero b ≡ false }
    ensures { result ≡ int_div a b }
{
    i64::from(a) / i64::from(b)
}

/// The quotient, rounded towards zero.
pub(crate) fn quotient(a: i32, b: i32) -> Result<i32, ErrNo>
    ensures { result ≡ quotient a b }
{
    if b == 0 {
        return Err(ZERO_DIVISOR);
    }
    ranged(exact_quotient(a, b))
}

/// The quotient after an ignored error.
pub(crate) fn mended_quotient(a: i32, b: i32) -> i32
    ensures { result ≡ mended_quotient a b }
{
    if b == 0 {
        return 0;
    }
    nearest(exact_quotient(a, b))
}

/// What the quotient leaves of the dividend.
pub(crate) fn remainder(a: i32, b: i32) -> Result<i32, ErrNo>
    ensures { result ≡ remainder a b }
{
    if b == 0 {
        return Err(ZERO_DIVISOR);
    }
    ranged(i64::from(a) % i64::from(b))
}

/// The number from 0 to below the divisor's absolute value that is congruent to the dividend.
pub(crate) fn modulus(a: i32, b: i32) -> Result<i32, ErrNo>
    ensures { result ≡ modulus a b }
{
    if b == 0 {
        return Err(ZERO_DIVISOR);
    }
    ranged(i64::from(a).rem_euclid(i64::from(b)))
}

/// Whether a shift goes by so many places.
fn is_shift(n: i32) -> bool
    ensures { result ≡ is_shift n }
{
    0 <= n && n <= 31
}

/// The nearest number of places.
fn places(n: i32) -> u32
    ensures value { result ≡ places n }
    ensures bound { result ≤ 31 }
{
    n.clamp(0, 31).unsigned_abs()
}

/// An integer times a power of two.
fn scaled(a: i32, places: u32) -> i64
    requires { places ≤ 31 }
    ensures { result ≡ a *ℤ pos (2 ^ places) }
{
    i64::from(a) * 2i64.pow(places)
}

/// A shift to the left.
pub(crate) fn left_shift(a: i32, n: i32) -> Result<i32, ErrNo>
    ensures { result ≡ left_shift a n }
{
    if !is_shift(n) {
        return Err(RANGE_ERROR);
    }
    ranged(scaled(a, places(n)))
}

/// A shift to the left after an ignored error.
pub(crate) fn mended_left_shift(a: i32, n: i32) -> i32
    ensures { result ≡ mended_left_shift a n }
{
    nearest(scaled(a, places(n)))
}

/// An integer by a power of two, rounded down.
pub(crate) fn halved(a: i32, n: i32) -> i32
    ensures { result ≡ halved a n }
{
    a >> places(n)
}

/// A shift to the right.
pub(crate) fn right_shift(a: i32, n: i32) -> Result<i32, ErrNo>
    ensures { result ≡ right_shift a n }
{
    if !is_shift(n) {
        return Err(RANGE_ERROR);
    }
    Ok(halved(a, n))
}
