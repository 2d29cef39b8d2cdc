ghost use Rattle.std.specs.Prelude.{◌≡◌};
ghost use Rattle.hal_script.specs.declared.fault.ScriptError.TheVariants.{Memory};

use std::alloc::AllocError;
use thiserror::Error;

/// The first faulty line of a script, counted from 1, and the reason's number.
#[derive(Clone, Copy, Debug, PartialEq, Eq)]
pub struct ScriptFault {
    pub line: u32,
    pub reason: u8,
}

/// Why a script was not taken.
#[derive(Debug, Drop, Error)]
pub enum ScriptError {
    #[error("a line is faulty")]
    Faulty(ScriptFault),
    #[error("out of memory")]
    Memory(AllocError),
}

impl From<AllocError> for ScriptError {
    ghost from_gives = { λ e error. error ≡ Memory e };

    fn from(e: AllocError) -> ScriptError {
        ScriptError::Memory(e)
    }
}
