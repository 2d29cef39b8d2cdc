//! What is wrong with images.

ghost use Rattle.std.specs.Prelude.{◌≡◌, IfOk};
ghost use Rattle.hal_compile.specs.Compiling as compiling;

use crate::fitness::have_cells;
use hal_code::ImageParts;
use hal_verify::first_fault;
use std::alloc::{AllocError, Global};

/// The first instruction at fault of an image, or the number of instructions where its tables alone are; None where it is right and each of its views has a cell, so
/// that it can run where it has bytes (image document, When an image is right). It fails only where memory is wanting.
pub fn image_fault(alloc: Global, image: &ImageParts) -> Result<Option<u64>, AllocError>
    ensures { IfOk result (λ fault. fault ≡ compiling.image_fault image.now) }
{
    if let Some(number) = first_fault(alloc, image)? {
        return Ok(Some(number));
    }
    if have_cells(image) {
        Ok(None)
    } else {
        Ok(Some(image.code.as_slice().len() as u64))
    }
}
