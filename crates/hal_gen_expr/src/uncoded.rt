//! Why no code was given.

ghost use Rattle.std.specs.Prelude.{◌≡◌};
ghost use Rattle.hal_gen_expr.specs.declared.uncoded.Uncoded.TheVariants.{Memory};

use hal_base::Place;
use std::alloc::AllocError;
use thiserror::Error;

/// Why a phrase was given no code.
#[derive(Debug, Drop, Error)]
pub enum Uncoded {
    /// The phrase that begins there has no code yet.
    #[error("a phrase has no code yet")]
    At(Place),
    #[error("out of memory")]
    Memory(AllocError),
}

impl From<AllocError> for Uncoded {
    ghost from_gives = { λ error uncoded. uncoded ≡ Memory error };

    fn from(error: AllocError) -> Uncoded {
        Uncoded::Memory(error)
    }
}
