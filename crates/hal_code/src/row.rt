//! The rows of an image's tables.

use crate::choice::Choice;
use hal_values::{Kind, Listing, Text, Value};

/// So many equal rows, one after another.
#[derive(Drop)]
pub struct Run<T> {
    pub repeat: u32,
    pub row: T,
}

/// An own place.
#[derive(Drop, PartialEq, Eq)]
pub enum OwnPlace {
    /// It holds values of a kind, and this one at first.
    Data { kind: Kind, initial: Value },
    /// It refers to cells of the shape with this number, and at first to none.
    Reference(u32),
}

/// A process.
#[derive(Drop)]
pub struct Process {
    pub name: Text,
    /// The number of its block.
    pub block: u32,
    /// Its places behind the common ones.
    pub places: Listing<Run<OwnPlace>>,
}

/// Where a view begins.
#[derive(Clone, Copy, PartialEq, Eq)]
pub enum Base {
    /// At a shared cell.
    Shared(u32),
    /// At an own place.
    Own(u32),
    /// So many cells behind the first of those to which an own place refers.
    Through { place: u32, offset: u32 },
    /// A byte that chooses no base.
    Other { base: u8, number: u32 },
}

/// A dimension of a view: how many places it has, and how many cells further on the next one is.
#[derive(Clone, Copy, PartialEq, Eq)]
pub struct Dimension {
    pub size: u32,
    pub stride: u32,
}

/// What a view gives.
#[derive(Clone, Copy, PartialEq, Eq)]
pub enum Target {
    /// A cell of this kind.
    Cell(Kind),
    /// The cells of the shape with this number.
    Shape(u32),
}

/// A way to cells, by one integer for each dimension.
#[derive(Drop)]
pub struct View {
    pub base: Base,
    pub dimensions: Listing<Dimension>,
    pub target: Target,
}

/// What a block's RETURN gives.
#[derive(Clone, Copy, PartialEq, Eq)]
pub enum ResultKind {
    Nothing,
    Integer,
    Bits,
    Text,
}

/// A block of code: the process that has it, or 255 for a common one, its first instruction, and the one behind its last.
#[derive(Clone, Copy, PartialEq, Eq)]
pub struct Block {
    pub process: u8,
    pub first: u64,
    pub end: u64,
    pub result: Choice<ResultKind>,
}
