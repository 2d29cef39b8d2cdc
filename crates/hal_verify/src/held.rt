//! What stands at the own places that the blocks of a process may name.

ghost use Rattle.std.specs.Prelude.{◌≡◌, OnOk, IfOk};
ghost use Rattle.hal_verify.specs.Holding.{IsHeld};

use crate::memory::Memory;
use crate::rooms::rooms_for;
use hal_code::ImageParts;
use std::alloc::{AllocError, Global};

/// What stands at the own places that the blocks of a process may name, or common blocks where it is 255; kept from one block to the next.
#[derive(Drop)]
pub(crate) struct Held {
    pub process: u8,
    pub memory: Memory,
}

impl Held {
    /// What common blocks may name.
    pub(crate) fn new(alloc: Global, image: &ImageParts) -> Result<Held, AllocError>
        ensures { IfOk result (IsHeld image.now) }
    {
        Ok(Held {
            process: 255,
            memory: rooms_for(alloc, image, 255)?,
        })
    }

    /// What the blocks of this process may name takes its place, unless it is that.
    pub(crate) fn hold(
        &mut self,
        alloc: Global,
        image: &ImageParts,
        process: u8,
    ) -> Result<(), AllocError>
        requires { IsHeld image.now self.old }
        ensures held { OnOk result (IsHeld image.now self.new) }
        ensures process { OnOk result (self.new.process ≡ process) }
    {
        if self.process != process {
            self.memory = rooms_for(alloc, image, process)?;
            self.process = process;
        }
        Ok(())
    }
}
