//! Why bytes weren't read.

ghost use Rattle.std.specs.Prelude.{◌≡◌};
ghost use Rattle.hal_object.specs.declared.fault.ReadFault.TheVariants.{Memory};

use std::alloc::AllocError;
use thiserror::Error;

/// Why bytes weren't read as an image.
#[derive(Debug, Drop, Error)]
pub enum ReadFault {
    /// No image has these bytes.
    #[error("the bytes are no image")]
    NotImage,
    #[error("out of memory")]
    Memory(AllocError),
}

impl From<AllocError> for ReadFault {
    ghost from_gives = { λ error fault. fault ≡ Memory error };

    fn from(error: AllocError) -> ReadFault {
        ReadFault::Memory(error)
    }
}
