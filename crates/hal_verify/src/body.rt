//! A block of code with what was noted of it.

ghost use Rattle.std.specs.Prelude.{◌≤◌, ◌-◌, ◌^◌, length};

use crate::note::Note;
use hal_code::{Block, Instr};

/// A block with its instructions and what was noted of them, with which blocks ask, and with whether it is that of a process.
#[derive(Clone, Copy)]
pub(crate) struct Body<'a> {
    pub block: &'a Block,
    pub code: &'a [Instr],
    pub notes: &'a [Note],
    pub outward: &'a [bool],
    pub of_process: bool,
    ghost room: { length code.now ≤ (2 ^ 64 - 1) - block.now.first },
}
