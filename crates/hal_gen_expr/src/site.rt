//! Where phrases stand.

use crate::first_places::FirstPlaces;
use crate::view_list::Views;
use hal_code::Run;
use hal_storage::own_places::Place;
use hal_storage::referents::{FirstCells, Referent};
use hal_storage::sets::Set;
use hal_values::{Kind, Listing};
use std::alloc::Global;

/// The phrases that declare events, by their numbers.
#[derive(Clone, Copy)]
pub struct Events<'a> {
    pub processes: &'a [usize],
    pub declared: &'a [usize],
}

/// The units that are called, by the numbers of their phrases: in the order of their blocks, of which the first has this number.
#[derive(Clone, Copy)]
pub struct Calls<'a> {
    pub first: usize,
    pub units: &'a [usize],
}

/// Where phrases stand, as far as their code goes by it.
#[derive(Clone, Copy)]
pub struct Site<'a> {
    pub alloc: Global,
    pub set: &'a Set<'a>,
    /// What each phrase of the set declares.
    pub referents: &'a [Referent],
    pub cells: &'a FirstCells,
    pub events: Events<'a>,
    /// The own places of the process.
    pub places: &'a [&'a Place],
    pub first_places: &'a FirstPlaces,
    /// The unit, by the number of its phrase.
    pub unit: usize,
    /// The block in which names are looked up.
    pub block: usize,
    /// The phrases of the unit that are looked up.
    pub marks: &'a [usize],
    /// The kinds of the cells of the shapes, in the order of their numbers.
    pub shapes: &'a [Listing<Run<Kind>>],
    /// The views, in the order of their numbers.
    pub views: &'a Views,
    pub calls: Calls<'a>,
}
