//! The process that starts at the opening.

ghost use Rattle.std.specs.Prelude.{◌≡◌, position, IfOk};
ghost use Rattle.hal_names.specs.SeenNames.{seen_names};
ghost use Rattle.hal_meaning.specs.Sets as sets;

use hal_names::Names;
use hal_reach::{is_program_at, processes_of};
use std::alloc::{AllocError, Global};

/// The first of these that is a PROGRAM.
fn first_program(names: &Names<'_>, numbers: &[usize]) -> Option<usize>
    ensures { result ≡ position (sets.is_program_at (seen_names names.now)) numbers.now }
{
    numbers
        .iter()
        .position(|number| is_program_at(names, *number))
}

/// The process that starts at the opening, from 0: the first PROGRAM (language document, Units).
pub fn first_of(alloc: Global, names: &Names<'_>) -> Result<usize, AllocError>
    ensures { IfOk result (λ first. first ≡ sets.first_of (seen_names names.now)) }
{
    let numbers = processes_of(alloc, names)?;
    Ok(first_program(names, &numbers).unwrap_or(0))
}
