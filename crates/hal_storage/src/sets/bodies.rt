//! The bodies of files.

ghost use Rattle.std.specs.Prelude.{◌≡◌, [], ◌∷◌, ◌++◌, map, slice_get, IfOk, OnOk};
ghost use Rattle.hal_tree.specs.SeenUnits.{seen_file, seen_unit};
ghost use Rattle.hal_names.specs.SeenNames.{seen_names};
ghost use Rattle.hal_meaning.specs.Bodies as bodies;
ghost use Rattle.hal_storage.specs.sets.SeenBodies.{lent_unit, seen_body, with_body, with_bodies};

use crate::sets::body::Body;
use crate::sets::marks::marks_of;
use crate::sets::units::units_of;
use hal_names::Names;
use hal_reach::unit_numbers;
use hal_tree::{File, Unit};
use std::alloc::{AllocError, Global};

/// Adds the body of the unit whose phrase has this number.
#[tactic(auto, using(crate::proofs::sets::Listed::body_listed, crate::proofs::elements::Repeated::one_mapped))]
fn push_body<'a>(
    alloc: Global,
    into: &mut Vec<Body<'a>>,
    names: &Names<'_>,
    number: usize,
    unit: &'a Unit,
) -> Result<(), AllocError>
    ensures { OnOk result (map seen_body into.new.items ≡ map seen_body into.old.items ++ (bodies.body_of (seen_names names.now) number (seen_unit unit.now) ∷ [])) }
{
    let marks = marks_of(alloc, names, number)?;
    into.push(Body {
        number,
        unit,
        marks,
    })?;
    Ok(())
}

/// Adds the body of the unit at a place among units, where it is there.
#[tactic(auto, unfolding(crate::specs::sets::SeenBodies::with_body))]
fn push_body_at<'a>(
    alloc: Global,
    into: &mut Vec<Body<'a>>,
    names: &Names<'_>,
    number: usize,
    units: &[&'a Unit],
    index: usize,
) -> Result<(), AllocError>
    ensures { OnOk result (map seen_body into.new.items ≡ with_body (seen_names names.now) number (slice_get (map lent_unit units.now) index) (map seen_body into.old.items)) }
{
    match units.get(index) {
        None => Ok(()),
        Some(unit) => push_body(alloc, into, names, number, unit),
    }
}

/// Adds the bodies of units whose phrases have these numbers.
#[tactic(auto, unfolding(crate::specs::sets::SeenBodies::with_bodies))]
fn push_bodies<'a>(
    alloc: Global,
    into: &mut Vec<Body<'a>>,
    names: &Names<'_>,
    numbers: &[usize],
    units: &[&'a Unit],
) -> Result<(), AllocError>
    ensures { OnOk result (map seen_body into.new.items ≡ with_bodies (seen_names names.now) (map lent_unit units.now) 0 (map seen_body into.old.items) numbers.now) }
{
    for (index, number) in numbers.iter().enumerate() {
        push_body_at(alloc, into, names, *number, units, index)?;
    }
    Ok(())
}

/// The bodies of units whose phrases have these numbers.
#[tactic(auto, using(crate::proofs::sets::Listed::bodies_listed))]
fn bodies_from<'a>(
    alloc: Global,
    names: &Names<'_>,
    numbers: &[usize],
    units: &[&'a Unit],
) -> Result<Vec<Body<'a>>, AllocError>
    ensures { IfOk result (λ list. map seen_body list.items ≡ bodies.bodies_from (seen_names names.now) numbers.now (map lent_unit units.now)) }
{
    let mut list = Vec::new(alloc);
    push_bodies(alloc, &mut list, names, numbers, units)?;
    Ok(list)
}

/// The bodies of a set of files, in order: its processes, PROCEDUREs, FUNCTIONs and COMPOOLs (language document, Units).
#[tactic(auto, using(crate::proofs::sets::Listed::files_listed))]
pub fn bodies_of<'a>(
    alloc: Global,
    files: &'a [File],
    names: &Names<'_>,
) -> Result<Vec<Body<'a>>, AllocError>
    ensures { IfOk result (λ list. map seen_body list.items ≡ bodies.bodies_of (map seen_file files.now) (seen_names names.now)) }
{
    let numbers = unit_numbers(alloc, names)?;
    let units = units_of(alloc, files)?;
    bodies_from(alloc, names, &numbers, &units)
}
