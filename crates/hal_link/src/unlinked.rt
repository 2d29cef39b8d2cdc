//! Why a set of files has no image.

ghost use Rattle.std.specs.Prelude.{◌≡◌};
ghost use Rattle.hal_gen_expr.specs.declared.uncoded.Uncoded.TheVariants as uncoded;
ghost use Rattle.hal_link.specs.Links.{unlinked_by};
ghost use Rattle.hal_link.specs.declared.unlinked.Unlinked.TheVariants.{Memory};

use hal_base::Place;
use hal_gen_expr::Uncoded;
use std::alloc::AllocError;
use thiserror::Error;

/// Why a set of files was given no image.
#[derive(Debug, Drop, Error)]
pub enum Unlinked {
    /// The phrase that begins there has no code yet.
    #[error("a phrase has no code yet")]
    At(Place),
    /// A process has no statements of its own, to which no set of files comes.
    #[error("a process has no statements")]
    Lost,
    /// A process's name has more than 255 bytes, or the process that starts at the opening is behind the first 256.
    #[error("the tables are too narrow")]
    Wide,
    #[error("out of memory")]
    Memory(AllocError),
}

impl From<AllocError> for Unlinked {
    ghost from_gives = { λ error unlinked. unlinked ≡ Memory error };

    fn from(error: AllocError) -> Unlinked {
        Unlinked::Memory(error)
    }
}

impl From<Uncoded> for Unlinked {
    ghost from_gives = { λ error unlinked. unlinked ≡ unlinked_by error };

    fn from(error: Uncoded) -> Unlinked {
        match error {
            Uncoded::At(place) => Unlinked::At(place),
            Uncoded::Memory(error) => Unlinked::Memory(error),
        }
    }
}
