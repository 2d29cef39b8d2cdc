//! Parts of a tree, any of which may have failed. What was made before a failure is let go here: a copy of many parts would write out how each of them is let go, at each
//! place where the next may fail.

ghost use Rattle.std.specs.Prelude.{◌≡◌, ◌++◌, ◌∷◌, [], IfOk, Ok};

use std::alloc::{AllocError, Global};

/// Both parts, or the error of the first that failed.
pub(crate) fn both<A: Drop, B: Drop>(
    first: Result<A, AllocError>,
    second: Result<B, AllocError>,
) -> Result<(A, B), AllocError>
    ensures first { IfOk result (λ pair. first ≡ Ok pair.0) }
    ensures second { IfOk result (λ pair. second ≡ Ok pair.1) }
{
    Ok((first?, second?))
}

/// The part in a box.
pub(crate) fn boxed<T: Drop>(
    alloc: Global,
    part: Result<T, AllocError>,
) -> Result<Box<T>, AllocError>
    ensures { IfOk result (λ boxed. part ≡ Ok boxed.value) }
{
    Ok(Box::new(alloc, part?)?)
}

/// The parts and one more.
pub(crate) fn with_next<T: Drop>(
    mut parts: Vec<T>,
    next: Result<T, AllocError>,
) -> Result<Vec<T>, AllocError>
    ensures { IfOk result (λ all. (part : T) × (next ≡ Ok part) × (all.items ≡ parts.items ++ (part ∷ []))) }
{
    parts.push(next?)?;
    Ok(parts)
}
