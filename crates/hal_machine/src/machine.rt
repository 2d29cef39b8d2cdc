//! What the machine holds of a process.

ghost use Rattle.std.specs.Prelude.{◌≤◌, length};

use crate::blocks::Blocks;
use crate::held::Held;
use crate::operands::Operands;
use crate::step::Wait;
use hal_code::ImageParts;
use hal_values::{Cell, ErrNo, Request, Value};
use std::alloc::Global;

/// What the machine holds of a process.
#[derive(Drop)]
pub struct Machine {
    /// The number of the instruction that is next.
    pub at: usize,
    pub operands: Operands,
    /// Room for the operands of the next block that is called: what is in it says nothing.
    pub spare: Operands,
    pub line: Vec<u8>,
    pub blocks: Blocks,
    pub places: Vec<Held>,
    pub last: ErrNo,
    /// The lock groups of the UPDATE block that is entered.
    pub groups: Option<u16>,
    /// What the shared cells hold as the UPDATE block sees them.
    pub store: Vec<Value>,
    pub writes: Vec<(u16, Value)>,
    pub turns: u32,
    /// What the process asks, or asked last.
    pub request: Request,
    /// What is done with the answer.
    pub wait: Wait,
}

/// What stays the same while a process runs.
#[derive(Drop)]
pub struct Setting<'a> {
    pub alloc: Global,
    pub image: &'a ImageParts,
    pub cells: &'a [Cell],
    pub process: u8,
    pub firsts: &'a [Held],
    pub begin: usize,
    /// How many turns an UPDATE block has.
    pub turns: u32,
    ghost few_cells: { length cells.now ≤ 65536 },
}
