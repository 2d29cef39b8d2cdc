//! Numbers in lists, and their places.

ghost use Rattle.std.specs.Prelude.{◌≡◌, IfOk};
ghost use Rattle.hal_reach.specs.Places as places;

use crate::call::Call;
use std::alloc::{AllocError, Global};

/// Whether this is one of these numbers.
pub fn is_among(numbers: &[usize], number: usize) -> bool
    ensures { result ≡ places.is_among numbers.now number }
{
    numbers.contains(&number)
}

/// The place of the first of these numbers that is this one, from 0.
#[tactic(auto, using(crate::proofs::Within::further), unfolding(crate::specs::Places::place_among))]
pub fn place_among(numbers: &[usize], number: usize) -> Option<usize>
    ensures { result ≡ places.place_among numbers.now number }
{
    let mut place = 0;
    for one in numbers {
        if *one == number {
            return Some(place);
        }
        place += 1;
    }
    None
}

/// The places among units of those that the unit with this number calls.
pub(crate) fn places_called(
    alloc: Global,
    numbers: &[usize],
    calls: &[Call],
    from: usize,
) -> Result<Vec<usize>, AllocError>
    ensures { IfOk result (λ list. list.items ≡ places.places_called numbers.now from calls.now) }
{
    let mut list = Vec::new(alloc);
    for call in calls {
        if call.from == from {
            if let Some(place) = place_among(numbers, call.to) {
                list.push(place)?;
            }
        }
    }
    Ok(list)
}
