//! The names of components.

ghost use Rattle.std.specs.Prelude.{◌≡◌, IfOk};
ghost use Rattle.hal_meaning.specs.ReportNames as reports;

use crate::processes::joined;
use hal_words::Name;
use std::alloc::{AllocError, Global};

/// A name with the names behind it that lead to a component, with points between them.
pub(crate) fn with_path(alloc: Global, name: &[u8], path: &[Name]) -> Result<Vec<u8>, AllocError>
    ensures { IfOk result (λ whole. whole.items ≡ reports.with_path name.now path.now) }
{
    let mut whole = Vec::new(alloc);
    whole.extend_from_slice(name)?;
    for part in path {
        whole = joined(whole, part)?;
    }
    Ok(whole)
}
