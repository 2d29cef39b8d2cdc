//! Images, read and written.

ghost use Rattle.std.specs.Prelude.{◌≡◌, ◌↔◌, ◌++◌, IfOk, IsTrue, OnOk, OnErr, IsErrOf};
ghost use Rattle.hal_code.specs.declared.image.ImageParts as parts;
ghost use Rattle.hal_object.specs.Images.{mark, parts_bytes, image_bytes, IsSpelled};
ghost use Rattle.hal_object.specs.declared.fault.ReadFault.TheVariants as fault;

use crate::fault::ReadFault;
use crate::parts::{have_part_bytes, image_of, write_parts};
use crate::runs::has_runs;
use hal_code::ImageParts;
use std::alloc::{AllocError, Global};

/// Reads the image that has these bytes, all of them (image document, Bytes). Its runs are kept as they stand. Time and memory are bounded by the bytes: a count is
/// believed only as far as rows follow it.
/// # Errors
/// `NotImage` where no image has these bytes, and `Memory` where memory is wanting.
pub fn read_image(alloc: Global, bytes: &[u8]) -> Result<ImageParts, ReadFault>
    ensures spelled { IfOk result (λ image. IsSpelled image) }
    ensures read { IfOk result (λ image. bytes.now ≡ image_bytes image) }
    ensures only { IfOk result (λ image. (other : parts.ImageParts) → IsSpelled other → bytes.now ≡ image_bytes other → image ≡ other) }
    ensures none { IsErrOf result fault.NotImage → (image : parts.ImageParts) → IsSpelled image → bytes.now ≡ image_bytes image → ⊥ }
{
    let image = image_of(alloc, bytes)?;
    if has_runs(&image) {
        Ok(image)
    } else {
        Err(ReadFault::NotImage)
    }
}

/// Whether an image has bytes (image document, Bytes).
pub fn is_spelled(image: &ImageParts) -> bool
    ensures { IsTrue result ↔ IsSpelled image.now }
{
    have_part_bytes(image) && has_runs(image)
}

/// Writes the bytes of an image that has some, behind others (image document, Bytes).
/// # Errors
/// `AllocError` where memory is wanting, and nothing is written then.
pub fn write_image(image: &ImageParts, into: &mut Vec<u8>) -> Result<(), AllocError>
    requires { IsSpelled image.now }
    ensures written { OnOk result (into.new.items ≡ into.old.items ++ image_bytes image.now) }
    ensures same { OnErr result (into.new.items ≡ into.old.items) }
{
    let mut bytes = Vec::new(*into.allocator());
    bytes.extend_from_slice(&[b'H', b'A', b'L', b'I', 1])?;
    write_parts(image, &mut bytes)?;
    into.extend_from_slice(bytes.as_slice())
}
