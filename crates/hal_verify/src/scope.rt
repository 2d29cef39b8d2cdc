//! A block of code, with what stands at the own places that it may name.

ghost use Rattle.std.specs.Option.{ForSome};
ghost use Rattle.std.specs.Prelude.{◌≡◌, nat_lt, true, false, length, map, slice_get, unwrap_or, Some, IfOk};
ghost use Rattle.hal_code.specs.Images.{expanded};
ghost use Rattle.hal_code.specs.Blocks.{is_common, block_places};
ghost use Rattle.hal_code.specs.Memory.{are_data, lies_from, own_memory, referred_shape, fits_places};
ghost use Rattle.hal_code.specs.Images.{kinds_of};
ghost use Rattle.hal_verify.specs.Marking.{rooms_fit};
ghost use Rattle.hal_verify.specs.Rooms.{room_of_place};

use crate::memory::Memory;
use crate::room::Room;
use crate::viewing::{fits_rooms, kinds_of};
use hal_code::{Block, ImageParts, View};
use std::alloc::{AllocError, Global};

/// A block with its number, and what stands at the own places that it may name; and which views fit the common places, where this was looked at beforehand.
#[derive(Clone, Copy)]
pub(crate) struct Scope<'a> {
    pub alloc: Global,
    pub image: &'a ImageParts,
    pub block: &'a Block,
    pub number: usize,
    pub rooms: &'a Memory,
    pub common_fits: Option<&'a [bool]>,
    ghost fitting: { ForSome common_fits (λ fits. fits.now ≡ rooms_fit image.now (map room_of_place (expanded image.now.common)) image.now.views) },
    ghost placed: { expanded rooms.now.runs.items ≡ map room_of_place (block_places image.now block.now) },
}

/// The bit with this number.
fn fit_at(fits: &[bool], number: u32) -> bool
    ensures { result ≡ unwrap_or (slice_get fits.now number) false }
{
    match fits.get(number as usize) {
        None => false,
        Some(fit) => *fit,
    }
}

impl Scope<'_> {
    /// Whether a view, which has this number, fits the own places of the common block.
    #[tactic(auto, using(crate::proofs::Fitting::fits_there, crate::proofs::Marks::fit_at))]
    pub(crate) fn fits(&self, number: u32, view: &View) -> Result<bool, AllocError>
        requires common { is_common self.now.block.now ≡ true }
        requires there { slice_get self.now.image.now.views number ≡ Some view.now }
        ensures { IfOk result (λ fits. fits ≡ fits_places self.now.image.now view.now (block_places self.now.image.now self.now.block.now)) }
    {
        match self.common_fits {
            Some(fits) => Ok(fit_at(fits, number)),
            None => fits_rooms(self.alloc, self.image, view, self.rooms),
        }
    }

    /// The shape to which the own place with this number refers.
    #[tactic(auto, using(crate::proofs::Fitting::referred_there))]
    pub(crate) fn referred_shape(&self, place: u32) -> Option<u32>
        ensures { result ≡ referred_shape (block_places self.now.image.now self.now.block.now) place }
    {
        match self.rooms.at(place).first() {
            None => None,
            Some(Room::Of(_)) => None,
            Some(Room::To(shape)) => Some(shape),
        }
    }

    /// Whether the own place with this number is there.
    #[tactic(auto, using(crate::proofs::Fitting::place_there))]
    pub(crate) fn has_place(&self, place: u32) -> bool
        ensures { result ≡ nat_lt place (length (block_places self.now.image.now self.now.block.now)) }
    {
        match self.rooms.at(place).first() {
            None => false,
            Some(_) => true,
        }
    }

    /// Whether so many own places from this one on hold values.
    #[tactic(auto, using(crate::proofs::Fitting::data_there))]
    pub(crate) fn are_data(&self, place: u32, count: u32) -> bool
        ensures { result ≡ are_data (block_places self.now.image.now self.now.block.now) place count }
    {
        let rooms = self.rooms;
        rooms.at(0).is_long(place) && rooms.at(place).all_hold(None, count)
    }

    /// Whether own places from this one on have the kinds of a shape, in order.
    #[tactic(auto, using(crate::proofs::Fitting::copied_there))]
    pub(crate) fn has_shape(&self, place: u32, shape: u32) -> bool
        ensures { result ≡ lies_from (own_memory (block_places self.now.image.now self.now.block.now)) place (kinds_of self.now.image.now shape) }
    {
        let kinds = kinds_of(self.image, shape);
        self.rooms.at(place).lies(kinds)
    }
}
