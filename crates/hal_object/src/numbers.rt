//! Numbers and texts, read from the front of bytes, and numbers put behind others.

ghost use Rattle.std.specs.Prelude.{◌≡◌, ◌≤◌, ◌++◌, length, IfOk, OnOk};
ghost use Rattle.hal_object.specs.Numbers.{in_two, in_four, in_eight};
ghost use Rattle.hal_object.specs.Fields.{Gives, byte_at, two_at, four_at, eight_at, integer_at, front_at, text_at};

use crate::fault::ReadFault;
use hal_values::Text;
use std::alloc::AllocError;

/// A byte.
#[tactic(auto, unfolding(crate::specs::Fields::byte_at))]
pub(crate) fn byte_of(bytes: &[u8]) -> Result<(u8, &[u8]), ReadFault>
    ensures { Gives (λ x. (x.0, x.1.now)) result (byte_at bytes.now) }
{
    match bytes {
        [] => Err(ReadFault::NotImage),
        [byte, rest @ ..] => Ok((*byte, rest)),
    }
}

/// A number of two bytes.
#[tactic(auto, unfolding(crate::specs::Fields::two_at))]
pub(crate) fn two_of(bytes: &[u8]) -> Result<(u16, &[u8]), ReadFault>
    ensures { Gives (λ x. (x.0, x.1.now)) result (two_at bytes.now) }
{
    if bytes.len() < 2 {
        return Err(ReadFault::NotImage);
    }
    let (front, rest) = bytes.split_at(2);
    Ok((u16::from_le_bytes([front[0], front[1]]), rest))
}

/// A number of four bytes.
#[tactic(auto, unfolding(crate::specs::Fields::four_at))]
pub(crate) fn four_of(bytes: &[u8]) -> Result<(u32, &[u8]), ReadFault>
    ensures { Gives (λ x. (x.0, x.1.now)) result (four_at bytes.now) }
{
    if bytes.len() < 4 {
        return Err(ReadFault::NotImage);
    }
    let (front, rest) = bytes.split_at(4);
    let number = u32::from_le_bytes([front[0], front[1], front[2], front[3]]);
    Ok((number, rest))
}

/// A number of eight bytes.
#[tactic(auto, unfolding(crate::specs::Fields::eight_at))]
pub(crate) fn eight_of(bytes: &[u8]) -> Result<(u64, &[u8]), ReadFault>
    ensures { Gives (λ x. (x.0, x.1.now)) result (eight_at bytes.now) }
{
    if bytes.len() < 8 {
        return Err(ReadFault::NotImage);
    }
    let (front, rest) = bytes.split_at(8);
    let number = u64::from_le_bytes([
        front[0], front[1], front[2], front[3], front[4], front[5], front[6], front[7],
    ]);
    Ok((number, rest))
}

/// An integer.
#[tactic(auto, unfolding(crate::specs::Fields::integer_at))]
pub(crate) fn integer_of(bytes: &[u8]) -> Result<(i32, &[u8]), ReadFault>
    ensures { Gives (λ x. (x.0, x.1.now)) result (integer_at bytes.now) }
{
    let (number, rest) = four_of(bytes)?;
    Ok((number.cast_signed(), rest))
}

/// So many bytes.
#[tactic(auto, unfolding(crate::specs::Fields::front_at))]
pub(crate) fn front_of(count: usize, bytes: &[u8]) -> Result<(&[u8], &[u8]), ReadFault>
    ensures front { Gives (λ x. (x.0.now, x.1.now)) result (front_at count bytes.now) }
    ensures long { IfOk result (λ x. length x.0.now ≡ count) }
{
    if bytes.len() < count {
        return Err(ReadFault::NotImage);
    }
    Ok(bytes.split_at(count))
}

/// A text behind a byte for its length.
#[tactic(auto, unfolding(crate::specs::Fields::text_at))]
pub(crate) fn text_of(bytes: &[u8]) -> Result<(Text, &[u8]), ReadFault>
    ensures { Gives (λ x. (x.0, x.1.now)) result (text_at bytes.now) }
{
    let (count, rest) = byte_of(bytes)?;
    let (front, rest) = front_of(usize::from(count), rest)?;
    match Text::of(front) {
        Some(text) => Ok((text, rest)),
        None => Err(ReadFault::NotImage),
    }
}

/// Puts a number in two bytes behind others.
#[tactic(auto, unfolding(crate::specs::Numbers::in_two))]
pub(crate) fn put_two(number: u16, into: &mut Vec<u8>) -> Result<(), AllocError>
    ensures { OnOk result (into.new.items ≡ into.old.items ++ in_two number) }
{
    into.extend_from_slice(&number.to_le_bytes())
}

/// Puts a number in four bytes behind others.
#[tactic(auto, unfolding(crate::specs::Numbers::in_four))]
pub(crate) fn put_four(number: u32, into: &mut Vec<u8>) -> Result<(), AllocError>
    ensures { OnOk result (into.new.items ≡ into.old.items ++ in_four number) }
{
    into.extend_from_slice(&number.to_le_bytes())
}

/// Puts a number in eight bytes behind others.
#[tactic(auto, unfolding(crate::specs::Numbers::in_eight))]
pub(crate) fn put_eight(number: u64, into: &mut Vec<u8>) -> Result<(), AllocError>
    ensures { OnOk result (into.new.items ≡ into.old.items ++ in_eight number) }
{
    into.extend_from_slice(&number.to_le_bytes())
}
