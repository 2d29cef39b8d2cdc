//! The shapes of an image.

ghost use Rattle.std.specs.Prelude.{◌≡◌, IfOk, OnOk, map};
ghost use Rattle.std.specs.List.{list_any};
ghost use Rattle.hal_storage.specs.sets.SeenBodies.{seen_body};
ghost use Rattle.hal_storage.specs.sets.SeenSets.{seen_set};
ghost use Rattle.hal_tree.specs.SeenLeaves.{seen_name};
ghost use Rattle.hal_gen_expr.specs.Numbering.{same_runs};
ghost use Rattle.hal_meaning.specs.Calls.{parameter_named};
ghost use Rattle.hal_link.specs.Shapes as shaping;

use hal_code::Run;
use hal_gen_expr::{
    has_runs, inputs_in, outputs_in, parameter_named, parameter_runs, runs_at, shape_in,
};
use hal_storage::sets::{Body, Set};
use hal_tree::Identifier;
use hal_values::{Kind, Listing};
use std::alloc::{AllocError, Global};

/// Whether a shape with these cells is among these.
fn has_shape(shapes: &[Listing<Run<Kind>>], runs: &[Run<Kind>]) -> bool
    ensures { result ≡ list_any (λ found. same_runs found runs.now) shapes.now }
{
    shapes.iter().any(|found| has_runs(found.as_slice(), runs))
}

/// Adds one with these cells, unless it has none or is among them.
fn push_runs(into: &mut Vec<Listing<Run<Kind>>>, runs: Vec<Run<Kind>>) -> Result<(), AllocError>
    ensures { OnOk result (into.new.items ≡ shaping.with_runs into.old.items runs.items) }
{
    if runs.is_empty() || has_shape(into, &runs) {
        return Ok(());
    }
    into.push(Listing::new(runs))?;
    Ok(())
}

/// Adds that of the ASSIGN parameter of this name of the unit with this number.
fn push_output(
    into: &mut Vec<Listing<Run<Kind>>>,
    alloc: Global,
    set: &Set<'_>,
    unit: usize,
    name: &Identifier,
) -> Result<(), AllocError>
    ensures { OnOk result (into.new.items ≡ shaping.with_output into.old.items (parameter_named (seen_set set.now) unit (seen_name name.now))) }
{
    let runs = parameter_runs(alloc, set, unit, name)?;
    push_runs(into, runs)
}

/// Adds that of the input parameter of this name of the unit with this number, where it is an array or a structure.
fn push_input(
    into: &mut Vec<Listing<Run<Kind>>>,
    alloc: Global,
    set: &Set<'_>,
    unit: usize,
    name: &Identifier,
) -> Result<(), AllocError>
    ensures { OnOk result (into.new.items ≡ shaping.with_input into.old.items (parameter_named (seen_set set.now) unit (seen_name name.now))) }
{
    let one = parameter_named(alloc, set, unit, name)?;
    if one.whole {
        push_output(into, alloc, set, unit, name)
    } else {
        Ok(())
    }
}

/// Adds those of the ASSIGN parameters of these names.
#[tactic(auto, unfolding(crate::specs::Shapes::with_outputs))]
fn push_outputs(
    into: &mut Vec<Listing<Run<Kind>>>,
    alloc: Global,
    set: &Set<'_>,
    unit: usize,
    names: &[Identifier],
) -> Result<(), AllocError>
    ensures { OnOk result (into.new.items ≡ shaping.with_outputs (seen_set set.now) unit into.old.items (map seen_name names.now)) }
{
    for name in names {
        push_output(into, alloc, set, unit, name)?;
    }
    Ok(())
}

/// Adds those of the input parameters of these names.
#[tactic(auto, unfolding(crate::specs::Shapes::with_inputs))]
fn push_inputs(
    into: &mut Vec<Listing<Run<Kind>>>,
    alloc: Global,
    set: &Set<'_>,
    unit: usize,
    names: &[Identifier],
) -> Result<(), AllocError>
    ensures { OnOk result (into.new.items ≡ shaping.with_inputs (seen_set set.now) unit into.old.items (map seen_name names.now)) }
{
    for name in names {
        push_input(into, alloc, set, unit, name)?;
    }
    Ok(())
}

/// Adds those of a unit.
fn push_body(
    into: &mut Vec<Listing<Run<Kind>>>,
    alloc: Global,
    set: &Set<'_>,
    body: &Body<'_>,
) -> Result<(), AllocError>
    ensures { OnOk result (into.new.items ≡ shaping.with_body (seen_set set.now) into.old.items (seen_body body.now)) }
{
    push_outputs(into, alloc, set, body.number, outputs_in(body))?;
    push_inputs(into, alloc, set, body.number, inputs_in(body))
}

/// The shapes of an image of a set (image document, Views).
#[tactic(auto, unfolding(crate::specs::Shapes::with_bodies))]
pub(crate) fn shapes_of(alloc: Global, set: &Set<'_>) -> Result<Vec<Listing<Run<Kind>>>, AllocError>
    ensures { IfOk result (λ list. list.items ≡ shaping.shapes_of (seen_set set.now)) }
{
    let mut list = Vec::new(alloc);
    let bodies = set.bodies.as_slice();
    for body in bodies {
        push_body(&mut list, alloc, set, body)?;
    }
    Ok(list)
}

/// The number of the shape of what the phrase with this number declares, 0 where it has none.
pub(crate) fn reference_shape(
    alloc: Global,
    set: &Set<'_>,
    shapes: &[Listing<Run<Kind>>],
    declared: usize,
) -> Result<u32, AllocError>
    ensures { IfOk result (λ shape. shape ≡ shaping.reference_shape (seen_set set.now) shapes.now declared) }
{
    let Some(phrase) = set.names.phrase(declared) else {
        return Ok(0);
    };
    let runs = runs_at(alloc, set, &phrase)?;
    Ok(shape_in(shapes, &runs).unwrap_or(0))
}
