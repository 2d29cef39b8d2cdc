//! What the code of an image that is a value keeps.

ghost use Rattle.std.specs.Prelude.{◌<◌, ◌^◌, length};
ghost use Rattle.hal_right_values.specs.Ranges.{AreInRange};

use hal_code::ImageParts;
use hal_right_values::is_in_range;

/// Each instruction keeps the ranges of its types, and all can be counted, because they are values. It does nothing of use when it runs.
pub(crate) fn are_in_range(image: &ImageParts)
    ensures ranged { AreInRange image.now }
    ensures short { length image.now.code < 2 ^ 64 }
{
    for instr in image.code.as_slice() {
        is_in_range(instr);
    }
}
