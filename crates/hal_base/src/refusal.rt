use std::alloc::AllocError;
use thiserror::Error;

/// Where a word or a line begins.
///
/// Units are counted from 0 in the order of the command line, lines and columns from 1; a column
/// counts bytes.
#[derive(Clone, Copy, Debug, PartialEq, Eq)]
pub struct Place {
    pub unit: u32,
    pub line: u64,
    pub column: u64,
}

/// The number of a rule of the language, as docs/LANGUAGE.md lists them.
#[derive(Clone, Copy, Debug, PartialEq, Eq)]
pub struct Rule(pub u16);

/// A rule, and where it is broken.
#[derive(Clone, Copy, Debug, PartialEq, Eq)]
pub struct Refusal {
    pub rule: Rule,
    pub place: Place,
}

/// Why a unit was not taken.
#[derive(Debug, Drop, Error)]
pub enum Fault {
    #[error("a rule is broken")]
    Broken(Refusal),
    #[error("out of memory")]
    Memory(AllocError),
}
