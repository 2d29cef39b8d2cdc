//! The units of a set, as far as calls go.

ghost use Rattle.std.specs.Prelude.{◌≡◌, map};
ghost use Rattle.hal_names.specs.SeenNames.{seen_names};
ghost use Rattle.hal_reach.specs.Calls.{units_of};
ghost use Rattle.hal_reach.specs.SeenUnits.{seen_unit};

use hal_names::Names;

/// A unit, and which units it calls.
#[derive(Drop)]
pub struct Unit {
    /// The number of its phrase.
    pub number: usize,
    /// Whether it is a process: a PROGRAM or a TASK.
    pub process: bool,
    /// The places of those that it calls, among the units of the set.
    pub callees: Vec<usize>,
}

/// A unit, and the processes that reach it.
#[derive(Drop)]
pub struct Reached {
    /// The number of its phrase.
    pub unit: usize,
    /// The numbers of the phrases of the processes that reach it, in order (language document, Units).
    pub processes: Vec<usize>,
}

/// The units of a set of files with these names. They are made once for all questions about calls. A contract sees the names.
#[derive(Drop)]
pub struct Units<'a> {
    pub(crate) names: &'a Names<'a>,
    pub(crate) list: Vec<Unit>,
    ghost called: { map seen_unit list.items ≡ units_of (seen_names names.now) },
}
