//! An image as a load.

ghost use Rattle.std.specs.Prelude.{◌≤◌};
ghost use Rattle.hal_values.specs.Loads.{turn_limit};
ghost use Rattle.hal_code.specs.Right.{IsRight};

use hal_code::ImageParts;
use hal_runner::Ready;
use hal_values::Load;

/// A right image, and how many turns an UPDATE block of it has.
#[derive(Drop)]
pub struct ImageLoad {
    pub image: ImageParts,
    pub turns: u16,
    /// The code made ready.
    pub ready: Ready,
    pub ghost right: { IsRight image },
    pub ghost few: { turns ≤ turn_limit },
}

impl Load for ImageLoad {
    ghost use Rattle.hal_code.specs.Courses.{load_of};
    ghost use Rattle.image_procs.specs.Loads.{load_is_load};

    ghost tables = { λ load. (load_of load.turns load.image).tables };

    ghost next = { λ load. (load_of load.turns load.image).next };

    ghost block = { λ load. (load_of load.turns load.image).block };

    ghost own = { λ load. (load_of load.turns load.image).own };

    ghost is_load = { load_is_load };
}
