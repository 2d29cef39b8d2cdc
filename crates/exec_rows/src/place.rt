ghost use Rattle.std.specs.Prelude.{◌≡◌, ◌∷◌, [], drop, slice_index_or, Some, IfSome};
ghost use Rattle.hal_values.specs.Answers.{Answered};
ghost use Rattle.exec_rows.specs.Places.{place_point};
ghost use Rattle.exec_rows.specs.Scripting.{Before, first_cycle, later_cycles, cycles_left, following, point_then, point_after, point_of, asked_at, block_at, ask_request};

use crate::copies::copy_request;
use crate::kept::{Given, Kept};
use crate::scripted::Ask;
use hal_values::{Listing, Request, Value};

/// Where a process is in its lists.
#[derive(Clone, Copy)]
pub(crate) enum Place<'a> {
    /// Before a cycle, with this and all later ones.
    Before(&'a [Listing<Ask>]),
    /// Within a cycle, with what it still asks and the later cycles.
    Within(&'a [Ask], &'a [Listing<Ask>]),
}

fn first_of(cycles: &[Listing<Ask>]) -> &[Ask]
    ensures { result.now ≡ first_cycle cycles.now }
{
    match cycles {
        [] => &[],
        [first, ..] => first.as_slice(),
    }
}

fn later_of(cycles: &[Listing<Ask>]) -> &[Listing<Ask>]
    ensures { result.now ≡ later_cycles cycles.now }
{
    match cycles {
        [] => &[],
        [_, later @ ..] => later,
    }
}

fn request_of(ask: &Ask) -> Request
    ensures { result ≡ ask_request ask.now }
{
    match ask {
        Ask::Plain(request) => copy_request(request),
        Ask::Update(groups, _, _) => Request::Update(*groups),
    }
}

impl<'a> Place<'a> {
    fn left(self) -> &'a [Listing<Ask>]
        ensures { result.now ≡ cycles_left (place_point self.entry) }
    {
        match self {
            Place::Before(cycles) => later_of(cycles),
            Place::Within(_, cycles) => cycles,
        }
    }

    fn following(self) -> Place<'a>
        ensures { place_point result ≡ following (place_point self.entry) }
    {
        match self {
            Place::Before(cycles) => Place::Within(first_of(cycles), later_of(cycles)),
            Place::Within([], cycles) => Place::Before(cycles),
            Place::Within([_, asks @ ..], cycles) => Place::Within(asks, cycles),
        }
    }

    fn then(self, given: &Given) -> Place<'a>
        ensures { place_point result ≡ point_then given.now (place_point self.entry) }
    {
        match given.kept() {
            Kept::Killed => Place::Before(self.left()),
            _ => self.following(),
        }
    }

    /// What the process asks here.
    pub(crate) fn asked(self) -> Request
        ensures { result ≡ asked_at (place_point self.entry) }
    {
        match self {
            Place::Before(_) => Request::Begin,
            Place::Within([], _) => Request::Finish,
            Place::Within([ask, ..], _) => request_of(ask),
        }
    }

    /// The writes and the turns of the UPDATE block here, if there is one.
    pub(crate) fn block(self) -> Option<(&'a [(u16, Value)], u16)>
        ensures { IfSome result (λ found. block_at (place_point self.entry) found.1 ≡ Some found.0.now) }
    {
        match self {
            Place::Within([Ask::Update(_, writes, turns), ..], _) => {
                Some((writes.as_slice(), *turns))
            }
            _ => None,
        }
    }
}

fn cycles_of(bodies: &[Listing<Listing<Ask>>], process: u8) -> &[Listing<Ask>]
    ensures { result.now ≡ slice_index_or bodies.now process [] }
{
    match bodies.get(usize::from(process)) {
        None => &[],
        Some(cycles) => cycles.as_slice(),
    }
}

/// Where the process is after these answers.
pub(crate) fn place_of<'a>(
    bodies: &'a [Listing<Listing<Ask>>],
    process: u8,
    answers: &[Given],
) -> Place<'a>
    ensures { place_point result ≡ point_of bodies.now process answers.now }
{
    let mut place = Place::Before(cycles_of(bodies, process));
    for given in answers {
        place = place.then(given);
    }
    place
}
