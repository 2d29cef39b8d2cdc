//! A place in memory, with what stands there and behind.

ghost use Rattle.std.specs.Prelude.{◌≡◌, nat_le, drop, length, slice_get};
ghost use Rattle.hal_code.specs.Images.{expanded};
ghost use Rattle.hal_verify.specs.Cursors.{seen_cursor};
ghost use Rattle.hal_verify.specs.Rooms.{turns_of, holds, all_hold, lie, spread_lies};

use crate::room::Room;
use crate::sorts::same_kind;
use hal_code::{Dimension, Run};
use hal_values::Kind;

/// What stands from a place on: so many rooms alike, and then those of runs.
#[derive(Clone, Copy)]
pub(crate) struct Cursor<'a> {
    pub count: u32,
    pub room: Room,
    pub rest: &'a [Run<Room>],
}

/// Whether values of a kind stand there, or of any kind where none is wanted.
fn holds(wanted: Option<Kind>, room: Room) -> bool
    ensures { result ≡ holds wanted room }
{
    match (wanted, room) {
        (None, Room::Of(_)) => true,
        (Some(wanted), Room::Of(kind)) => same_kind(kind, wanted),
        (_, Room::To(_)) => false,
    }
}

/// How many places so far apart there are to look at: where the next one is the same, one.
pub(crate) fn turns_of(size: u32, stride: u32) -> u32
    ensures { result ≡ turns_of size stride }
{
    if stride == 0 { size.min(1) } else { size }
}

impl<'a> Cursor<'a> {
    /// The beginning of memory.
    pub(crate) fn new(rooms: &'a [Run<Room>]) -> Cursor<'a>
        ensures { seen_cursor result ≡ expanded rooms.now }
    {
        Cursor {
            count: 0,
            room: Room::To(0),
            rest: rooms,
        }
    }

    /// The place so many further on, or the end.
    #[tactic(auto, using(crate::proofs::Cursors::drop_within, crate::proofs::Cursors::drop_past, crate::proofs::Cursors::drop_none))]
    pub(crate) fn skip(self, count: u32) -> Cursor<'a>
        ensures { seen_cursor result ≡ drop count (seen_cursor self.entry) }
    {
        let mut at = self;
        let mut left = count;
        while left > at.count {
            left -= at.count;
            let Some((run, rest)) = at.rest.split_first() else {
                return Cursor {
                    count: 0,
                    room: at.room,
                    rest: at.rest,
                };
            };
            at = Cursor {
                count: run.repeat,
                room: run.row,
                rest,
            };
        }
        Cursor {
            count: at.count - left,
            room: at.room,
            rest: at.rest,
        }
    }

    /// What stands there, None at the end.
    #[tactic(auto, using(crate::proofs::Cursors::first_alike))]
    pub(crate) fn first(self) -> Option<Room>
        ensures { result ≡ slice_get (seen_cursor self.entry) 0 }
    {
        let mut at = self;
        while at.count == 0 {
            let Some((run, rest)) = at.rest.split_first() else {
                return None;
            };
            at = Cursor {
                count: run.repeat,
                room: run.row,
                rest,
            };
        }
        Some(at.room)
    }

    /// Whether there are so many places.
    #[tactic(auto, using(crate::proofs::Cursors::long_within, crate::proofs::Cursors::long_past, crate::proofs::Cursors::long_none))]
    pub(crate) fn is_long(self, count: u32) -> bool
        ensures { result ≡ nat_le count (length (seen_cursor self.entry)) }
    {
        let mut at = self;
        let mut left = count;
        while left > at.count {
            left -= at.count;
            let Some((run, rest)) = at.rest.split_first() else {
                return false;
            };
            at = Cursor {
                count: run.repeat,
                room: run.row,
                rest,
            };
        }
        true
    }

    /// Whether there are so many places, and each of them holds values of a kind, or of any kind where none is wanted.
    #[tactic(auto, using(crate::proofs::Cursors::hold_within, crate::proofs::Cursors::hold_past, crate::proofs::Cursors::hold_none, crate::proofs::Cursors::hold_short))]
    pub(crate) fn all_hold(self, wanted: Option<Kind>, count: u32) -> bool
        ensures { result ≡ all_hold wanted count (seen_cursor self.entry) }
    {
        let mut at = self;
        let mut left = count;
        while left > at.count {
            if at.count != 0 && !holds(wanted, at.room) {
                return false;
            }
            left -= at.count;
            let Some((run, rest)) = at.rest.split_first() else {
                return false;
            };
            at = Cursor {
                count: run.repeat,
                room: run.row,
                rest,
            };
        }
        left == 0 || holds(wanted, at.room)
    }

    /// Whether these kinds stand there, in order.
    pub(crate) fn lies(self, kinds: &[Run<Kind>]) -> bool
        ensures { result ≡ lie (seen_cursor self.entry) kinds.now }
    {
        let mut at = self;
        for run in kinds {
            if !at.all_hold(Some(run.row), run.repeat) {
                return false;
            }
            at = at.skip(run.repeat);
        }
        true
    }

    /// Whether they do from each of the places on at which a view with these dimensions has an address.
    #[tactic(auto, using(crate::proofs::Cursors::one_turn, crate::proofs::Cursors::last_turn, crate::proofs::Cursors::few_turns))]
    pub(crate) fn spread_lies(self, kinds: &[Run<Kind>], dimensions: &[Dimension]) -> bool
        ensures { result ≡ spread_lies kinds.now dimensions.now (seen_cursor self.entry) }
    {
        let Some((dimension, rest)) = dimensions.split_first() else {
            return self.lies(kinds);
        };
        let mut at = self;
        let mut left = turns_of(dimension.size, dimension.stride);
        while let Some(fewer) = left.checked_sub(1) {
            if !at.spread_lies(kinds, rest) {
                return false;
            }
            at = at.skip(dimension.stride);
            left = fewer;
        }
        true
    }
}
